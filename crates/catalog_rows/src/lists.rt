ghost use Rattle.std.specs.Prelude.{◌≡◌, ◌++◌, ◌∷◌, ℕ, true, false, Some, [], OnOk, OnErr};
ghost use Rattle.catalog_rows.specs.Index.{own_at, ends_at, listed_at, IsCurrent, IsNumbered, IsOnly, NotesMore};
ghost use Rattle.catalog_rows.specs.Slots.{IsIn};

use crate::indexes::Indexes;
use crate::slots::version_at;
use crate::writing::is_ended;
use base_types::{Change, Listed, NoMemory, Xid};
use row_visibility::{Stamp, Version};
use std::alloc::Global;

// The versions at each place, and those that a transaction wrote or ended.
#[derive(Drop)]
pub(crate) struct Lists {
    alloc: Global,
    pub indexes: Indexes,
    // by Xid
    pub touched: Vec<Listed<u64>>,
}

impl Lists {
    // Empty lists, which take no memory.
    pub(crate) fn new(alloc: Global) -> Lists
        ensures all { (place : _) → listed_at result.indexes.all place ≡ [] }
        ensures current { (place : _) → listed_at result.indexes.current place ≡ [] }
        ensures own { (x : ℕ) → own_at result.touched.items x ≡ [] }
    {
        Lists {
            alloc,
            indexes: Indexes::new(alloc),
            touched: Vec::new(alloc),
        }
    }

    // Notes the numbers of the versions that a change ends.
    pub(crate) fn note_ended(
        &mut self,
        slots: &[Option<Version>],
        committed: &[bool],
        stamp: Stamp,
        change: &Change,
    ) -> Result<(), NoMemory>
        requires numbered { IsNumbered slots.now self.old.indexes.all }
        requires only { IsOnly self.old.indexes }
        requires current { IsCurrent committed.now slots.now self.old.indexes }
        ensures notes { NotesMore self.old self.new }
        ensures ok { OnOk result ((n : ℕ) → ends_at committed.now stamp change.now slots.now n ≡ true → IsIn n (own_at self.new.touched.items stamp.xid.0)) }
    {
        touch_ended(
            self.alloc,
            &mut self.touched,
            self.indexes.ends(change),
            slots,
            committed,
            stamp,
            change,
        )
    }

    // Notes the number of a version of a transaction.
    pub(crate) fn note(&mut self, xid: Xid, number: u64) -> Result<(), NoMemory>
        ensures notes { NotesMore self.old self.new }
        ensures ok { OnOk result (IsIn number (own_at self.new.touched.items xid.0)) }
    {
        touch(self.alloc, &mut self.touched, xid, number)
    }
}

// The numbers of the versions that the transaction wrote or ended.
pub(crate) fn own(touched: &[Listed<u64>], xid: Xid) -> &[u64]
    ensures { result.now ≡ own_at touched.now xid.0 }
{
    match touched.get(xid.0 as usize) {
        Some(numbers) => numbers.as_slice(),
        None => &[],
    }
}

// Notes those of the listed versions that a change ends.
fn touch_ended(
    alloc: Global,
    touched: &mut Vec<Listed<u64>>,
    list: &[u64],
    slots: &[Option<Version>],
    committed: &[bool],
    stamp: Stamp,
    change: &Change,
) -> Result<(), NoMemory>
    ensures grows { (x j : ℕ) → IsIn j (own_at touched.old.items x) → IsIn j (own_at touched.new.items x) }
    ensures ok { OnOk result ((n : ℕ) → IsIn n list.now → ends_at committed.now stamp change.now slots.now n ≡ true → IsIn n (own_at touched.new.items stamp.xid.0)) }
{
    for number in list {
        touch_if_ended(alloc, touched, *number, slots, committed, stamp, change)?;
    }
    Ok(())
}

// Notes the number if the change ends its version.
fn touch_if_ended(
    alloc: Global,
    touched: &mut Vec<Listed<u64>>,
    number: u64,
    slots: &[Option<Version>],
    committed: &[bool],
    stamp: Stamp,
    change: &Change,
) -> Result<(), NoMemory>
    ensures grows { (x j : ℕ) → IsIn j (own_at touched.old.items x) → IsIn j (own_at touched.new.items x) }
    ensures ok { OnOk result (ends_at committed.now stamp change.now slots.now number ≡ true → IsIn number (own_at touched.new.items stamp.xid.0)) }
    ensures same { ends_at committed.now stamp change.now slots.now number ≡ false → touched.new ≡ touched.old }
{
    match version_at(slots, number) {
        Some(version) if is_ended(version, committed, stamp, change) => {
            touch(alloc, touched, stamp.xid, number)
        }
        _ => Ok(()),
    }
}

// Notes a number for a transaction.
fn touch(
    alloc: Global,
    touched: &mut Vec<Listed<u64>>,
    xid: Xid,
    number: u64,
) -> Result<(), NoMemory>
    ensures grows { (x j : ℕ) → IsIn j (own_at touched.old.items x) → IsIn j (own_at touched.new.items x) }
    ensures ok { OnOk result (IsIn number (own_at touched.new.items xid.0)) }
{
    let at = xid.0 as usize;
    let missing = (at + 1).saturating_sub(touched.len());
    for more in 0..missing {
        touched.push(Listed::new(alloc))?;
    }
    touched[at].push(number)
}
