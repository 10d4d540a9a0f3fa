ghost use Rattle.std.specs.Prelude.{◌≡◌, ◌-◌, ◌++◌, ◌∷◌, ℕ, [], Some, None, take, vec_len, OnOk, OnErr};
ghost use Rattle.catalog_rows.specs.Index.{IsIndexed, IsCurrent, StaysCurrent, AreNoted, own_at};
ghost use Rattle.catalog_rows.specs.Slots.{IsIn, new_slots};

use crate::lists::Lists;
use crate::writing::added_row;
use base_types::{Change, NoMemory};
use row_visibility::{Stamp, Version};

// Adds the versions of a write, and notes what it ends. Out of memory, no version is added.
pub(crate) fn grow(
    slots: &mut Vec<Option<Version>>,
    lists: &mut Lists,
    committed: &[bool],
    stamp: Stamp,
    changes: &[Change],
) -> Result<(), NoMemory>
    requires indexed { IsIndexed slots.old.items lists.old }
    requires current { IsCurrent committed.now slots.old.items lists.old.indexes }
    ensures indexed { IsIndexed slots.new.items lists.new }
    ensures current { StaysCurrent slots.old.items lists.old.indexes slots.new.items lists.new.indexes }
    ensures ok { OnOk result (slots.new.items ≡ slots.old.items ++ new_slots stamp changes.now) }
    ensures noted { OnOk result (AreNoted committed.now stamp changes.now slots.new.items lists.new) }
    ensures err { OnErr result (slots.new.items ≡ slots.old.items) }
{
    let first = slots.len();
    match grow_each(slots, lists, committed, stamp, changes) {
        Ok(()) => Ok(()),
        Err(error) => {
            take_off(slots, lists, first);
            Err(error)
        }
    }
}

// The same, but out of memory some versions may have been added.
fn grow_each(
    slots: &mut Vec<Option<Version>>,
    lists: &mut Lists,
    committed: &[bool],
    stamp: Stamp,
    changes: &[Change],
) -> Result<(), NoMemory>
    requires indexed { IsIndexed slots.old.items lists.old }
    requires current { IsCurrent committed.now slots.old.items lists.old.indexes }
    ensures indexed { IsIndexed slots.new.items lists.new }
    ensures current { StaysCurrent slots.old.items lists.old.indexes slots.new.items lists.new.indexes }
    ensures before { take (vec_len slots.old) slots.new.items ≡ slots.old.items }
    ensures ok { OnOk result (slots.new.items ≡ slots.old.items ++ new_slots stamp changes.now) }
    ensures noted { OnOk result (AreNoted committed.now stamp changes.now slots.new.items lists.new) }
{
    for change in changes {
        grow_by(slots, lists, committed, stamp, change)?;
    }
    Ok(())
}

// Adds the version of a change, if it adds one, and notes what it ends. Out of memory, no version is added.
fn grow_by(
    slots: &mut Vec<Option<Version>>,
    lists: &mut Lists,
    committed: &[bool],
    stamp: Stamp,
    change: &Change,
) -> Result<(), NoMemory>
    requires indexed { IsIndexed slots.old.items lists.old }
    requires current { IsCurrent committed.now slots.old.items lists.old.indexes }
    ensures indexed { IsIndexed slots.new.items lists.new }
    ensures current { StaysCurrent slots.old.items lists.old.indexes slots.new.items lists.new.indexes }
    ensures own { (x n : ℕ) → IsIn n (own_at lists.old.touched.items x) → IsIn n (own_at lists.new.touched.items x) }
    ensures ok { OnOk result (slots.new.items ≡ slots.old.items ++ new_slots stamp (change.now ∷ [])) }
    ensures noted { OnOk result (AreNoted committed.now stamp (change.now ∷ []) slots.new.items lists.new) }
    ensures err { OnErr result (slots.new.items ≡ slots.old.items) }
{
    lists.note_ended(slots, committed, stamp, change)?;
    match added_row(change) {
        Some(row) => add_version(
            slots,
            lists,
            Version {
                row,
                by: stamp,
                ended: None,
            },
        ),
        None => Ok(()),
    }
}

// Adds a version that isn't ended. Out of memory, no version is added.
fn add_version(
    slots: &mut Vec<Option<Version>>,
    lists: &mut Lists,
    version: Version,
) -> Result<(), NoMemory>
    requires indexed { IsIndexed slots.old.items lists.old }
    requires fresh { version.ended ≡ None }
    ensures indexed { IsIndexed slots.new.items lists.new }
    ensures current { StaysCurrent slots.old.items lists.old.indexes slots.new.items lists.new.indexes }
    ensures own { (x n : ℕ) → IsIn n (own_at lists.old.touched.items x) → IsIn n (own_at lists.new.touched.items x) }
    ensures ok { OnOk result (slots.new.items ≡ slots.old.items ++ Some version ∷ []) }
    ensures err { OnErr result (slots.new.items ≡ slots.old.items) }
{
    let number = slots.len() as u64 + 1;
    lists.note(version.by.xid, number)?;
    slots.reserve(1)?;
    lists.indexes.add_row(&version.row, number)?;
    slots.push_reserved(Some(version));
    Ok(())
}

// Takes off the last versions, so that so many slots are left.
fn take_off(slots: &mut Vec<Option<Version>>, lists: &mut Lists, first: usize)
    requires { IsIndexed slots.old.items lists.old }
    ensures indexed { IsIndexed slots.new.items lists.new }
    ensures current { StaysCurrent slots.old.items lists.old.indexes slots.new.items lists.new.indexes }
    ensures slots { slots.new.items ≡ take first slots.old.items }
{
    let more = slots.len().saturating_sub(first);
    for turn in 0..more {
        take_last(slots, lists);
    }
}

// Takes off the last slot, with its version, if there is one.
fn take_last(slots: &mut Vec<Option<Version>>, lists: &mut Lists)
    requires { IsIndexed slots.old.items lists.old }
    ensures indexed { IsIndexed slots.new.items lists.new }
    ensures current { StaysCurrent slots.old.items lists.old.indexes slots.new.items lists.new.indexes }
    ensures slots { slots.new.items ≡ take (vec_len slots.old - 1) slots.old.items }
{
    let number = slots.len() as u64;
    if let Some(slot) = slots.pop() {
        lists.indexes.remove_version(slot, number);
    }
}
