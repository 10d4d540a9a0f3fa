// How a write is entered into the session of its backend.

ghost use Rattle.std.specs.Prelude.{◌≡◌, ◌≤◌, ◌<◌, OnOk, List, ℕ};
ghost use Rattle.std.specs.List.{flat_map};
ghost use Rattle.base_types.specs.Scenario.{Scenario};
ghost use Rattle.event_kinds.specs.declared.entry.Entry.{Entry};
ghost use Rattle.history_ledger.specs.Held.{Reads};
ghost use Rattle.cacheless.specs.Holds.{Rests};
ghost use Rattle.cacheless.specs.Locks.{locked_by};
ghost use Rattle.cacheless.specs.State.{locks_made};
ghost use Rattle.cacheless.specs.Awaiting.{HasTaken};
ghost use Rattle.history_lines.specs.Takes.{MakesOne, MayWrite};

use base_types::{NoMemory, Oid, Row, Xid};
use cacheless::Progress;
use event_kinds::{Event, Item};
use history_ledger::Ledger;
use std::alloc::Global;

// It wrote. Condition: there is room for a lock.
pub(crate) fn write(
    progress: &mut Progress,
    alloc: Global,
    ledger: &Ledger,
    xid: Xid,
    items: &[Item],
) -> Result<(), NoMemory>
    requires few { progress.old.finished ≤ 20000 }
    requires place { 0 < progress.old.locks.room }
    requires may { MayWrite progress.old items.now }
    ensures same { OnOk result (progress.new.commands ≡ progress.old.commands) }
    ensures takes { OnOk result ((scenario : Scenario) (seen : List Entry) (rests : Rests scenario seen progress.old) → Reads seen ledger.now → HasTaken scenario seen progress.old (Event.Write xid items.now) rests progress.new) }
{
    let messages = ledger.messages_written(progress.id, items)?;
    progress.enter_write(alloc, xid, &messages, relation_made(items))
}

// The relation that items make, if they make one.
fn relation_made(items: &[Item]) -> Option<Oid>
    requires { MakesOne items.now }
    ensures { (command : ℕ) → flat_map (locked_by command) items.now ≡ locks_made command result }
{
    for item in items {
        if let Some(rel) = made_by(item) {
            return Some(rel);
        }
    }
    None
}

// The relation that an item makes, if it makes one.
fn made_by(item: &Item) -> Option<Oid>
    ensures { (command : ℕ) → locked_by command item.now ≡ locks_made command result }
{
    match item {
        Item::Add(Row::Class { oid, .. }) => Some(*oid),
        _ => None,
    }
}
