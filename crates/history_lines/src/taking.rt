// How an event is entered into the session of its backend: what its call asks for holds of each event that a
// script allows.

ghost use Rattle.std.specs.Prelude.{◌≡◌, ◌≤◌, ◌<◌, ◌+◌, true, false, OnOk, OnErr, List, ℕ, length, take};
ghost use Rattle.base_types.specs.Scenario.{Scenario};
ghost use Rattle.event_kinds.specs.declared.entry.Entry.{Entry};
ghost use Rattle.history_ledger.specs.Held.{Reads};
ghost use Rattle.cacheless.specs.Holds.{Rests};
ghost use Rattle.cacheless.specs.May.{HasRoom};
ghost use Rattle.cacheless.specs.State.{unsent_at};
ghost use Rattle.cacheless.specs.Awaiting.{HasTaken};
ghost use Rattle.history_lines.specs.Takes.{MayTake, SuitsAlone, enters_in_memory, is_stop};

use crate::writing::write;
use base_types::{NoMemory, Purpose};
use cacheless::Progress;
use event_kinds::Event;
use history_ledger::Ledger;
use row_visibility::Clash;
use std::alloc::Global;

// Enters an event that comes next, and is no stop, in the entry of this number. Condition: there is room
// for a lock. Out of memory, the session may not be used any more.
pub(crate) fn enter(
    progress: &mut Progress,
    alloc: Global,
    ledger: &Ledger,
    at: u64,
    event: &Event,
) -> Result<(), NoMemory>
    requires comes { MayTake ledger.now progress.old event.now }
    requires inside { is_stop event.now ≡ false }
    requires place { 0 < progress.old.locks.room }
    ensures same { OnOk result (progress.new.commands ≡ progress.old.commands) }
    ensures takes { OnOk result ((scenario : Scenario) (seen : List Entry) (rests : Rests scenario seen progress.old) → Reads seen ledger.now → at ≡ length seen + 1 → HasTaken scenario seen progress.old event.now rests progress.new) }
    ensures only { OnErr result (enters_in_memory event.now ≡ true) }
{
    match event {
        Event::Fetch { count } => {
            fetch(progress, ledger, *count);
            Ok(())
        }
        Event::Scan { purpose, .. } => scan(progress, ledger, at, purpose),
        Event::Write { xid, items } => write(progress, alloc, ledger, *xid, items.as_slice()),
        Event::Release { from } => progress.enter_release(alloc, *from),
        event => {
            enter_alone(progress, event);
            Ok(())
        }
    }
}

// It fetched so many messages.
fn fetch(progress: &mut Progress, ledger: &Ledger, count: u32)
    requires { MayTake ledger.now progress.old (Event.Fetch count) }
    ensures same { progress.new.commands ≡ progress.old.commands }
    ensures takes { (scenario : Scenario) (seen : List Entry) (rests : Rests scenario seen progress.old) → Reads seen ledger.now → HasTaken scenario seen progress.old (Event.Fetch count) rests progress.new }
{
    let messages = ledger.fetched(progress.id, count);
    progress.enter_fetch(messages);
}

// It scanned, in the entry of this number.
fn scan(
    progress: &mut Progress,
    ledger: &Ledger,
    at: u64,
    purpose: &Purpose,
) -> Result<(), NoMemory>
    requires { (count : ℕ) × MayTake ledger.now progress.old (Event.Scan purpose.now count) }
    ensures same { OnOk result (progress.new.commands ≡ progress.old.commands) }
    ensures takes { OnOk result ((scenario : Scenario) (seen : List Entry) (count : ℕ) (rests : Rests scenario seen progress.old) → Reads seen ledger.now → at ≡ length seen + 1 → HasTaken scenario seen progress.old (Event.Scan purpose.now count) rests progress.new) }
{
    let rows = ledger.scan(progress.id, purpose)?;
    progress.enter_scan(purpose, rows, at)
}

// An event that takes no memory and nothing of the ledger.
fn enter_alone(progress: &mut Progress, event: &Event)
    requires few { progress.old.finished ≤ 20000 }
    requires room { HasRoom progress.old }
    requires place { 0 < progress.old.locks.room }
    requires suits { SuitsAlone progress.old event.now }
    ensures same { progress.new.commands ≡ progress.old.commands }
    ensures takes { (scenario : Scenario) (seen : List Entry) (rests : Rests scenario seen progress.old) → HasTaken scenario seen progress.old event.now rests progress.new }
{
    match event {
        Event::Look { yes } => progress.enter_look(*yes),
        Event::FetchReset => progress.enter_reset(),
        Event::LockOk { rel, mode } => progress.enter_lock(*rel, *mode),
        Event::LockHeld {
            rel,
            mode,
            holder,
            held,
        } => progress.enter_refused(*rel, *mode, *holder, *held),
        Event::Unlock { rel, mode } => progress.enter_unlock(*rel, *mode),
        Event::ClashRow { name, rel } => progress.enter_clash(*name, Clash::Row(*rel)),
        Event::ClashRunning { name, xid } => progress.enter_clash(*name, Clash::Running(*xid)),
        Event::Visible { xid } => progress.enter_visible(*xid),
        Event::Publish { .. } => publish(progress),
        Event::Gone { from } => progress.enter_gone(*from),
        _ => unreachable!(),
    }
}

// It published what comes next of its messages.
fn publish(progress: &mut Progress)
    requires few { progress.old.finished ≤ 20000 }
    ensures same { progress.new.commands ≡ progress.old.commands }
    ensures takes { (scenario : Scenario) (seen : List Entry) (rests : Rests scenario seen progress.old) → HasTaken scenario seen progress.old (Event.Publish (length (take 64 (unsent_at progress.old)))) rests progress.new }
{
    let count = progress.unpublished().len();
    progress.enter_publish(count as u32);
}
