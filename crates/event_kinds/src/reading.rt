ghost use Rattle.std.specs.Prelude.{◌≡◌, List, [], ◌∷◌, ◌++◌, IfOk, OnOk, OnErr, Err};
ghost use Rattle.event_kinds.specs.Readers.{with_front};
ghost use Rattle.event_kinds.specs.Yields.{Yields, YieldsWhole};
ghost use Rattle.event_kinds.specs.Events.{Item, Entry};
ghost use Rattle.event_kinds.specs.Entries.{IsEntry};
ghost use Rattle.event_kinds.specs.Reading.{entry_at};
ghost use Rattle.event_kinds.specs.Texts.{entry_text};

use crate::cursor::Cursor;
use crate::{Entry, EntryFault, Event, Item};
use base_types::{Listed, NoMemory, Xid};
use std::alloc::Global;

/// The entry whose text the line is, without the line's end. `Bad` exactly where no entry has that text.
pub fn read_entry(alloc: Global, line: &[u8]) -> Result<Entry, EntryFault>
    ensures ok { IfOk result (λ entry. (line.now ≡ entry_text entry) × IsEntry entry) }
    ensures same { (entry : Entry) → IsEntry entry → line.now ≡ entry_text entry → IfOk result (λ found. found ≡ entry) }
    ensures bad { result ≡ Err EntryFault.Bad → (entry : Entry) → IsEntry entry → line.now ≡ entry_text entry → ⊥ }
{
    whole_entry(alloc, line)
}

// The entry of a whole line.
#[tactic(auto, unfolding(crate::specs::Reading::entry_at))]
fn whole_entry(alloc: Global, line: &[u8]) -> Result<Entry, EntryFault>
    ensures { YieldsWhole result (entry_at line.now) }
{
    let mut cursor = Cursor::new(line);
    if cursor.eat(b"h ").is_none() {
        return Err(EntryFault::Bad);
    }
    let entry = cursor.placed(alloc)?;
    if cursor.len() == 0 {
        Ok(entry)
    } else {
        Err(EntryFault::Bad)
    }
}

// What takes memory: the changes of a write.
impl<'a> Cursor<'a> {
    ghost use Rattle.event_kinds.specs.Reading.{rest_items_at, items_at, write_event_at, event_at, placed_at};

    // The backend, the command and the event of an entry.
    #[tactic(auto, unfolding(crate::specs::Reading::placed_at))]
    fn placed(&mut self, alloc: Global) -> Result<Entry, EntryFault>
        ensures { Yields result self.new (placed_at self.old) }
    {
        let Some(backend) = self.number() else {
            return Err(EntryFault::Bad);
        };
        if self.eat(b" ").is_none() {
            return Err(EntryFault::Bad);
        }
        let Some(command) = self.number() else {
            return Err(EntryFault::Bad);
        };
        if self.eat(b" ").is_none() {
            return Err(EntryFault::Bad);
        }
        let event = self.event(alloc)?;
        Ok(Entry {
            backend,
            command,
            event,
        })
    }

    // An event.
    #[tactic(auto, unfolding(crate::specs::Reading::event_at))]
    fn event(&mut self, alloc: Global) -> Result<Event, EntryFault>
        ensures { Yields result self.new (event_at self.old) }
    {
        if self.eat(b"lock ").is_some() {
            return self.lock_event().ok_or(EntryFault::Bad);
        }
        if self.eat(b"unlock ").is_some() {
            return self.unlock_event().ok_or(EntryFault::Bad);
        }
        if self.eat(b"scan ").is_some() {
            return self.scan_event().ok_or(EntryFault::Bad);
        }
        if self.eat(b"write ").is_some() {
            return self.write_event(alloc);
        }
        if self.eat(b"clash ").is_some() {
            return self.clash_event().ok_or(EntryFault::Bad);
        }
        self.short_event().ok_or(EntryFault::Bad)
    }

    // A write, after its word.
    #[tactic(auto, unfolding(crate::specs::Reading::write_event_at))]
    fn write_event(&mut self, alloc: Global) -> Result<Event, EntryFault>
        ensures { Yields result self.new (write_event_at self.old) }
    {
        let Some(xid) = self.number() else {
            return Err(EntryFault::Bad);
        };
        let items = self.items(alloc)?;
        Ok(Event::Write {
            xid: Xid(xid),
            items,
        })
    }

    // Changes, at least one, a blank before each.
    #[tactic(auto, using(crate::proofs::Loops::first_with), unfolding(crate::specs::Reading::items_at))]
    fn items(&mut self, alloc: Global) -> Result<Listed<Item>, EntryFault>
        ensures { Yields result self.new (items_at self.old) }
    {
        let mut items = Listed::new(alloc);
        if self.eat(b" ").is_none() {
            return Err(EntryFault::Bad);
        }
        let Some(first) = self.item() else {
            return Err(EntryFault::Bad);
        };
        add_item(&mut items, first)?;
        self.more_items(items)
    }

    // The changes that begin with those that were read.
    fn more_items(&mut self, mut items: Listed<Item>) -> Result<Listed<Item>, EntryFault>
        ensures { Yields result self.new (with_front items (rest_items_at self.old)) }
    {
        let most = self.len();
        'turns: for _turn in 0..most {
            if self.eat(b" ").is_none() {
                return Ok(items);
            }
            let Some(item) = self.item() else {
                return Err(EntryFault::Bad);
            };
            add_item(&mut items, item)?;
        }
        Ok(items)
    }
}

// Adds a change at the end. The check carries a change into a list only where it is made anew.
fn add_item(items: &mut Listed<Item>, item: Item) -> Result<(), NoMemory>
    ensures ok { OnOk result (items.new ≡ items.old ++ item ∷ []) }
    ensures err { OnErr result (items.new ≡ items.old) }
{
    match item {
        Item::Add(row) => items.push(Item::Add(row)),
        Item::Put(row) => items.push(Item::Put(row)),
        Item::Remove(key) => items.push(Item::Remove(key)),
        Item::Force(rel) => items.push(Item::Force(rel)),
    }
}
