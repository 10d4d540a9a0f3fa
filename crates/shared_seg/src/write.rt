ghost use Rattle.std.specs.Prelude.{◌≡◌, ◌≤◌, ◌+◌, ◌++◌, ◌∷◌, ◌^◌, [], None, length, sum, OnOk, OnErr};
ghost use Rattle.std.specs.List.{flat_map};
ghost use Rattle.segment_rows.specs.Words.{DrawsNext, rows_after};
ghost use Rattle.event_kinds.specs.declared.entry.Event.TheVariants as events;
ghost use Rattle.history_model.specs.Held.{granted_by};
ghost use Rattle.lock_modes.specs.Excluding.{AreFree};
ghost use Rattle.seg_calls.specs.Calls.{entry_of};
ghost use Rattle.shared_seg.specs.Naming.{clash_with, refuses};

use crate::drawing::Drawn;
use crate::grants::new_grants;
use crate::naming::Taken;
use crate::places::Places;
use base_types::{Listed, NoMemory};
use event_kinds::{Entry, Event};
use lock_modes::LockTable;
use row_visibility::Clash;
use seg_calls::WriteRefusal;
use segment_rows::SegmentRows;
use std::alloc::Global;

// Makes the changes of a write, grants the relations that it adds, and enters it. Out of memory, the
// rows, the grants and the entries are as before. Conditions: nobody is in the way of the
// grants, and the oids that it draws are the next ones, in order.
pub(crate) fn enter_write(
    alloc: Global,
    rows: &mut SegmentRows,
    locks: &mut LockTable,
    places: &mut Places,
    b: u32,
    c: u32,
    drawn: Drawn,
) -> Result<(), NoMemory>
    requires free { AreFree locks.old.held (flat_map (granted_by b c) drawn.items.items) }
    requires draws { DrawsNext rows.old.next_oid (events.Write drawn.xid drawn.items.items) }
    ensures rows { OnOk result (rows.new ≡ rows_after None c (events.Write drawn.xid drawn.items.items) rows.old) }
    ensures held { OnOk result (locks.new.held ≡ locks.old.held ++ flat_map (granted_by b c) drawn.items.items) }
    ensures entries { OnOk result (places.new.entries ≡ places.old.entries ++ entry_of b c (events.Write drawn.xid drawn.items.items) ∷ []) }
    ensures promised { places.new.promised ≡ places.old.promised }
    ensures same_rows { OnErr result (rows.new ≡ rows.old) }
    ensures same_held { OnErr result (locks.new.held ≡ locks.old.held) }
    ensures same_entries { OnErr result (places.new.entries ≡ places.old.entries) }
    ensures short { OnOk result (length places.new.entries + sum places.new.promised ≤ 2 ^ 56) }
{
    let Drawn {
        xid,
        first_oid: _,
        items,
    } = drawn;
    let grants = new_grants(alloc, b, c, &items)?;
    locks.prepare(grants)?;
    places.make_room()?;
    rows.write(xid, c, &items)?;
    locks.grant_prepared();
    places.push(Entry {
        backend: b,
        command: c,
        event: Event::Write {
            xid,
            items: Listed::from_vec(items),
        },
    });
    Ok(())
}

// The entry of a clash.
pub(crate) fn clash_entry(b: u32, c: u32, taken: &Taken) -> Entry
    ensures { result ≡ entry_of b c (clash_with taken.now) }
{
    Entry {
        backend: b,
        command: c,
        event: clash_event(taken),
    }
}

// The event of a clash.
pub(crate) fn clash_event(taken: &Taken) -> Event
    ensures { result ≡ clash_with taken.now }
{
    let Taken { name, clash } = *taken;
    match clash {
        Clash::Row(rel) => Event::ClashRow { name, rel },
        Clash::Running(xid) => Event::ClashRunning { name, xid },
    }
}

// The refusal of a clash.
pub(crate) fn refusal_of(taken: &Taken) -> WriteRefusal
    ensures { result ≡ refuses taken.now }
{
    let Taken { name, clash } = *taken;
    WriteRefusal::Clash(name, clash)
}
