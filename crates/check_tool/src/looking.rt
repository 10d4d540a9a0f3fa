ghost use Rattle.std.specs.Prelude.{◌≡◌, ◌≤◌, ◌+◌, ◌^◌, ◌++◌, ◌∷◌, [], List, length, IfOk, OnOk, OnErr, IsSomeAnd, All};
ghost use Rattle.std.specs.Bool.{Decides};
ghost use Rattle.std.specs.Option.{option_map};
ghost use Rattle.base_types.specs.Scenario.{IsBackend};
ghost use Rattle.event_kinds.specs.declared.entry.Entry.{Entry};
ghost use Rattle.history_ledger.specs.Longest.{IsLongest};
ghost use Rattle.history_model.specs.Legal.{IsLegal};
ghost use Rattle.history_model.specs.MayFollow.{MayFollow};
ghost use Rattle.cacheless.specs.Schedule.{AreLooksTrue, LooksTruly};
ghost use Rattle.history_model.specs.Log.{is_waiting};
ghost use Rattle.check_tool.specs.Turning.{TellPlaces, published_after, place_after};

use base_types::NoMemory;
use event_kinds::{Entry, Event};
use std::alloc::Global;

// How many of these entries, from the first on, look truly: no look says no where a message waits. Conditions:
// the entries are a legal history, of so many backends.
pub(crate) fn true_looks(alloc: Global, backends: u32, entries: &[Entry]) -> Result<usize, NoMemory>
    requires legal { IsLegal entries.now }
    requires backends { All (λ e. IsBackend backends e.backend) entries.now }
    ensures { IfOk result (λ n. IsLongest AreLooksTrue entries.now n) }
{
    let mut queue = Queue::new(alloc, backends)?;
    for (at, e) in entries.iter().enumerate() {
        if !queue.looks_truly(e) {
            return Ok(at);
        }
        queue.enter(e)?;
    }
    Ok(entries.len())
}

// How many messages a legal history has published, and how many of them each living backend is past.
#[derive(Drop)]
struct Queue {
    published: u64,
    places: Vec<Option<u64>>,
}

impl Queue {
    // Before the first entry.
    fn new(alloc: Global, backends: u32) -> Result<Queue, NoMemory>
        ensures tell { IfOk result (λ q. TellPlaces [] q.published q.places.items) }
        ensures count { IfOk result (λ q. length q.places.items ≡ backends) }
    {
        let mut places = Vec::new(alloc);
        for _number in 0..backends {
            places.push(None)?;
        }
        Ok(Queue {
            published: 0,
            places,
        })
    }

    // Whether an entry that may follow looks truly.
    fn looks_truly(&self, e: &Entry) -> bool
        requires { IsBackend (length self.now.places.items) e.now.backend }
        ensures { (seen : List Entry) → TellPlaces seen self.now.published self.now.places.items → Decides result (LooksTruly seen e.now.backend e.now.event) }
    {
        match e.event {
            Event::Look { yes: false } => !self.has_waiting(e.backend),
            _ => true,
        }
    }

    // Whether a message waits for a backend.
    fn has_waiting(&self, b: u32) -> bool
        requires { IsBackend (length self.now.places.items) b }
        ensures { (seen : List Entry) → TellPlaces seen self.now.published self.now.places.items → result ≡ is_waiting seen b }
    {
        match self.places[b as usize - 1] {
            Some(place) => place < self.published,
            None => false,
        }
    }

    // An entry that may follow. Out of memory, it may not be used any more.
    fn enter(&mut self, e: &Entry) -> Result<(), NoMemory>
        requires { IsBackend (length self.old.places.items) e.now.backend }
        ensures tell { OnOk result ((seen : List Entry) → TellPlaces seen self.old.published self.old.places.items → MayFollow seen e.now → TellPlaces (seen ++ e.now ∷ []) self.new.published self.new.places.items) }
        ensures count { OnOk result (length self.new.places.items ≡ length self.old.places.items) }
    {
        let place = &mut self.places[e.backend as usize - 1];
        *place = placed(self.published, &e.event, *place)?;
        self.published = published(&e.event, self.published)?;
        Ok(())
    }
}

// How many messages were published, after an event. Out of memory only where 64 bits don't hold it.
fn published(event: &Event, old: u64) -> Result<u64, NoMemory>
    ensures ok { IfOk result (λ n. n ≡ published_after event.now old) }
    ensures only { OnErr result (2 ^ 64 ≤ published_after event.now old) }
{
    match event {
        Event::Publish { count } => old.checked_add(*count as u64).ok_or(NoMemory),
        _ => Ok(old),
    }
}

// How many messages a backend is past after one of its events, where so many were published before. Out of
// memory only where 64 bits don't hold it.
fn placed(published: u64, event: &Event, old: Option<u64>) -> Result<Option<u64>, NoMemory>
    ensures ok { IfOk result (λ place. place ≡ place_after published event.now old) }
    ensures only { OnErr result (IsSomeAnd (place_after published event.now old) (λ place. 2 ^ 64 ≤ place)) }
{
    match event {
        Event::Start | Event::FetchReset => Ok(Some(published)),
        Event::Fetch { count } => moved(old, *count),
        Event::Stop => Ok(None),
        _ => Ok(old),
    }
}

// A place so many messages further, if there is one.
fn moved(old: Option<u64>, count: u32) -> Result<Option<u64>, NoMemory>
    ensures ok { IfOk result (λ place. place ≡ option_map (λ n. n + count) old) }
    ensures only { OnErr result (IsSomeAnd (option_map (λ n. n + count) old) (λ place. 2 ^ 64 ≤ place)) }
{
    let Some(place) = old else {
        return Ok(None);
    };
    match place.checked_add(count as u64) {
        Some(further) => Ok(Some(further)),
        None => Err(NoMemory),
    }
}
