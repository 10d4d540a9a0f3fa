// How a session changes with its start and its stop, and with the look, fetch and reset of an accept of messages
// (`AcceptInvalidationMessages` in `src/backend/utils/cache/inval.c`, `ReceiveSharedInvalidMessages` in
// `src/backend/storage/ipc/sinval.c`).

ghost use Rattle.std.specs.Prelude.{◌≡◌, ◌≤◌, ◌++◌, ◌∷◌, [], None, Some, length, slice_get};
ghost use Rattle.base_types.specs.Scenario.{Scenario};
ghost use Rattle.event_kinds.specs.declared.entry.Entry.{Entry};
ghost use Rattle.history_model.specs.Log.{fetched_by};
ghost use Rattle.cacheless.specs.State.{due_looked, due_fetched, locks_accepted};

use crate::{Due, Progress};
use base_types::Command;
use event_kinds::Event;
use inval_messages::Message;
use lock_modes::OwnLocks;
use std::alloc::Global;
use txn_blocks::RunningTransaction;

// The most messages that one fetch gives.
const MOST_FETCHED: usize = 32;

impl Progress {
    ghost use Rattle.std.specs.Prelude.{List, ℕ};
    ghost use Rattle.cacheless.specs.State.{facts_at, work_at, kept_at, nothing_kept, kept_spared, one_if, SearchesAgain};
    ghost use Rattle.std.specs.Prelude.{◌||◌, not};
    ghost use Rattle.history_model.specs.Changing.{is_empty as none_in};
    ghost use Rattle.cacheless.specs.Owed.{owed_after, owed_first_in, owes_build_in, accepts_in, counts_full};
    ghost use Rattle.cacheless.specs.May.{HasRoom};
    ghost use Rattle.cacheless.specs.Holds.{HasNotStarted, HasStarted, Rests, HasEntered};

    /// It has started (`SharedInvalBackendInit` in `src/backend/storage/ipc/sinvaladt.c`).
    pub fn enter_start(&mut self)
        ensures kept { kept_at self.new ≡ kept_at self.old }
        ensures answer { self.new.answer ≡ self.old.answer }
        ensures holds { (scenario : Scenario) (seen : List Entry) → HasNotStarted scenario seen self.old → HasStarted scenario seen self.old self.new }
        ensures same { self.new.commands ≡ self.old.commands }
    {
        self.running = None;
        self.due = Due::Nothing;
    }

    /// It has stopped (`CleanupInvalidationState` in `src/backend/storage/ipc/sinvaladt.c`).
    pub fn enter_stop(&mut self)
        requires few { self.old.finished ≤ 20000 }
        ensures kept { kept_at self.new ≡ kept_at self.old }
        ensures answer { self.new.answer ≡ self.old.answer }
        ensures holds { (scenario : Scenario) (seen : List Entry) → (rests : Rests scenario seen self.old) → HasEntered scenario seen self.old Event.Stop rests self.new }
        ensures same { self.new.commands ≡ self.old.commands }
    {
        self.due = Due::Nothing;
        let accepting = self.is_in_acceptance();
        accept(&mut self.locks, accepting);
    }

    /// It has looked whether messages wait for it (`AcceptInvalidationMessages` in
    /// `src/backend/utils/cache/inval.c`). Condition: its counts are small enough to be summed.
    pub fn enter_look(&mut self, some_wait: bool)
        requires few { self.old.finished ≤ 20000 }
        requires room { HasRoom self.old }
        ensures kept { kept_at self.new ≡ kept_at self.old }
        ensures answer { self.new.answer ≡ None }
        ensures holds { (scenario : Scenario) (seen : List Entry) → (rests : Rests scenario seen self.old) → HasEntered scenario seen self.old (Event.Look some_wait) rests self.new }
        ensures same { self.new.commands ≡ self.old.commands }
    {
        self.running = Some(RunningTransaction::begun(self.finished + 1, self.running));
        self.due = after_look(some_wait);
        self.tally.looks += 1;
        let accepting = self.is_in_acceptance();
        accept(&mut self.locks, accepting);
        self.answer = None;
    }

    /// It took these messages from the queue: what they cover isn't usable any more, and a lookup that
    /// found no relation is made anew. Condition: its counts are small enough to be summed.
    pub fn enter_fetch(&mut self, messages: &[Message])
        requires few { self.old.finished ≤ 20000 }
        requires room { HasRoom self.old }
        ensures kept { kept_at self.new ≡ kept_spared messages.now (kept_at self.old) }
        ensures answer { self.new.answer ≡ None }
        ensures holds { (scenario : Scenario) (seen : List Entry) → (rests : Rests scenario seen self.old) → messages.now ≡ fetched_by seen self.old.id (length messages.now) → HasEntered scenario seen self.old (Event.Fetch (length messages.now)) rests self.new }
        ensures same { self.new.commands ≡ self.old.commands }
    {
        self.running = Some(RunningTransaction::begun(self.finished + 1, self.running));
        self.caches.execute(messages);
        self.suspects.find(&self.caches, &self.opened);
        self.due = after_fetch(messages.len());
        self.search_again();
        self.tally.fetches += 1;
        self.tally.full += self.full_of(messages.len());
        let accepting = self.is_in_acceptance();
        accept(&mut self.locks, accepting);
        self.answer = None;
    }

    /// It was told to reset all that it caches: nothing that it has read is usable any more
    /// (`InvalidateSystemCaches` in `src/backend/utils/cache/inval.c`, `RelationCacheInvalidate` in
    /// `src/backend/utils/cache/relcache.c`). Condition: its counts are small enough to be summed.
    pub fn enter_reset(&mut self)
        requires few { self.old.finished ≤ 20000 }
        requires room { HasRoom self.old }
        ensures kept { kept_at self.new ≡ nothing_kept }
        ensures answer { self.new.answer ≡ None }
        ensures holds { (scenario : Scenario) (seen : List Entry) → (rests : Rests scenario seen self.old) → HasEntered scenario seen self.old Event.FetchReset rests self.new }
        ensures same { self.new.commands ≡ self.old.commands }
    {
        self.running = Some(RunningTransaction::begun(self.finished + 1, self.running));
        self.caches.reset();
        self.suspects.find(&self.caches, &self.opened);
        self.due = Due::Nothing;
        self.search_again();
        self.tally.fetches += 1;
        let accepting = self.is_in_acceptance();
        accept(&mut self.locks, accepting);
        self.answer = None;
    }

    // Where a lookup found no relation it is made anew.
    fn search_again(&mut self)
        ensures { SearchesAgain self.old self.new }
    {
        self.exec.search_again();
    }

    // 1 for a fetch of 32 messages after which no scan for a descriptor is owed: the look that it asks
    // for counts for no scan.
    fn full_of(&self, count: usize) -> u64
        ensures is { result ≡ one_if (counts_full count (facts_at self.now) (work_at self.now)) }
        ensures most { result ≤ 1 }
    {
        if count == MOST_FETCHED && !self.lacks_build_scan() {
            1
        } else {
            0
        }
    }

    // Whether an accept of messages isn't over.
    pub(crate) fn is_in_acceptance(&self) -> bool
        ensures { result ≡ accepts_in (facts_at self.now) (work_at self.now) (slice_get self.now.commands self.now.finished) }
    {
        match self.commands.as_slice().get(self.finished as usize) {
            Some(command) => self.is_accepting(command),
            None => !self.is_past_accept(),
        }
    }

    // Whether one isn't over in this command.
    fn is_accepting(&self, command: &Command) -> bool
        ensures { result ≡ accepts_in (facts_at self.now) (work_at self.now) (Some command.now) }
    {
        self.lets_accept(command)
    }

    // Split off for its proof: the clause as the code tests it.
    fn lets_accept(&self, command: &Command) -> bool
        ensures { result ≡ (not (none_in (owed_first_in (facts_at self.now) command.now (work_at self.now))) || not (none_in (owed_after self.now.due)) || owes_build_in (facts_at self.now) (work_at self.now)) }
    {
        self.owes_first_look(command) || !self.is_past_accept() || self.lacks_builds()
    }
}

// What comes after a look.
fn after_look(some_wait: bool) -> Due
    ensures { result ≡ due_looked some_wait }
{
    if some_wait { Due::Fetch } else { Due::Quiet }
}

// What comes after a fetch of so many messages.
fn after_fetch(count: usize) -> Due
    ensures { result ≡ due_fetched count }
{
    if count == MOST_FETCHED {
        Due::Look
    } else {
        Due::Nothing
    }
}

// Makes the locks clear where an acceptance is over.
pub(crate) fn accept(locks: &mut OwnLocks, accepting: bool)
    ensures { locks.new.items ≡ locks_accepted accepting locks.old.items }
{
    if !accepting {
        locks.clear_all();
    }
}
