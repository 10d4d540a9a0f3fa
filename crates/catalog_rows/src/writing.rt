ghost use Rattle.std.specs.Prelude.{◌≡◌, ◌<◌, ◌≤◌, ◌+◌, ◌++◌, ◌∷◌, [], ℕ, None, true, false, fold, map, take, length, replicate, vec_len, vec_capacity};
ghost use Rattle.std.specs.Option.{option_map_or};
ghost use Rattle.base_types.specs.RowKeys.{key_of, same_key};
ghost use Rattle.row_visibility.specs.Seen.{seen_by};
ghost use Rattle.catalog_rows.specs.Store.{counts, is_ended as does_end, ended_key as key_ended, added_row as row_added, end_if, option_items};
ghost use Rattle.catalog_rows.specs.Index.{ends_at, IsIndexed, IsCurrent, AreNoted};
ghost use Rattle.catalog_rows.specs.Slots.{IsIn, Settles, slot_changed, new_slots, after_slots};

use crate::lists::Lists;
use crate::slots::slot_of;
use crate::store::has_committed;
use base_types::{Change, Row, RowKey, Xid};
use row_visibility::{Stamp, Version, is_own, visible};

// Whether what has the stamp counts for a writer: it is committed, or its own.
pub(crate) fn does_count(stamp: Stamp, committed: &[bool], own: Option<Xid>) -> bool
    ensures { result ≡ counts committed.now own stamp }
{
    has_committed(stamp.xid, committed) || is_own(own, stamp)
}

// Whether the version counts for a writer: somebody whose deeds count wrote it, and nobody such ended it.
pub(crate) fn is_standing(version: &Version, committed: &[bool], own: Option<Xid>) -> bool
    ensures { result ≡ seen_by (counts committed.now own) version.now }
{
    let by_counts = does_count(version.by, committed, own);
    let ended_counts = match version.ended {
        Some(ended) => does_count(ended, committed, own),
        None => false,
    };
    visible(by_counts, ended_counts)
}

// Ends what all changes of a write replace or delete. The versions that they add are in the slots from
// the first on; a change ends nothing that itself or a later one adds.
pub(crate) fn end_each(
    slots: &mut [Option<Version>],
    lists: &Lists,
    committed: &[bool],
    stamp: Stamp,
    changes: &[Change],
    first: usize,
)
    requires indexed { IsIndexed slots.old lists.now }
    requires current { IsCurrent committed.now slots.old lists.now.indexes }
    requires added { slots.old ≡ take first slots.old ++ new_slots stamp changes.now }
    requires first { first ≤ length slots.old }
    requires noted { AreNoted committed.now stamp changes.now slots.old lists.now }
    ensures indexed { IsIndexed slots.new lists.now }
    ensures current { IsCurrent committed.now slots.new lists.now.indexes }
    ensures slots { slots.new ≡ fold (after_slots committed.now stamp) (take first slots.old) changes.now }
{
    let mut count = first;
    for change in changes {
        end_versions(
            &mut slots[..count],
            lists.indexes.ends(change),
            committed,
            stamp,
            change,
        );
        count += count_added(change);
    }
}

// Ends what a change replaces or deletes, among the listed versions.
fn end_versions(
    slots: &mut [Option<Version>],
    list: &[u64],
    committed: &[bool],
    stamp: Stamp,
    change: &Change,
)
    requires { (n : ℕ) → ends_at committed.now stamp change.now slots.old n ≡ true → IsIn n list.now }
    ensures { slots.new ≡ map (slot_changed (end_if (does_end committed.now stamp change.now) stamp)) slots.old }
{
    end_listed(slots, list, committed, stamp, change);
}

// The same, without the condition.
fn end_listed(
    slots: &mut [Option<Version>],
    list: &[u64],
    committed: &[bool],
    stamp: Stamp,
    change: &Change,
)
    ensures { Settles (slot_changed (end_if (does_end committed.now stamp change.now) stamp)) list.now (None ∷ slots.old) (None ∷ slots.new) }
{
    for number in list {
        end_one(slots, *number, committed, stamp, change);
    }
}

// The same for one version.
fn end_one(
    slots: &mut [Option<Version>],
    number: u64,
    committed: &[bool],
    stamp: Stamp,
    change: &Change,
)
    ensures { Settles (slot_changed (end_if (does_end committed.now stamp change.now) stamp)) (number ∷ []) (None ∷ slots.old) (None ∷ slots.new) }
{
    if let Some(at) = slot_of(slots, number) {
        end_in(&mut slots[at], committed, stamp, change);
    }
}

// The same for the version in a slot, if there is one.
fn end_in(slot: &mut Option<Version>, committed: &[bool], stamp: Stamp, change: &Change)
    ensures { slot.new ≡ slot_changed (end_if (does_end committed.now stamp change.now) stamp) slot.old }
{
    if let Some(version) = slot {
        if is_ended(version, committed, stamp, change) {
            version.ended = Some(stamp);
        }
    }
}

// Whether the change ends the version.
pub(crate) fn is_ended(version: &Version, committed: &[bool], stamp: Stamp, change: &Change) -> bool
    ensures { result ≡ does_end committed.now stamp change.now version.now }
{
    is_standing(version, committed, Some(stamp.xid)) && is_of_row(version, change)
}

// Whether the version is of the row that a change ends, if it ends one.
fn is_of_row(version: &Version, change: &Change) -> bool
    ensures { result ≡ option_map_or (same_key (key_of version.now.row)) (key_ended change.now) false }
{
    match ended_key(change) {
        Some(key) => version.row.key().is(&key),
        None => false,
    }
}

// The key of the row that a change ends.
pub(crate) fn ended_key(change: &Change) -> Option<RowKey>
    ensures { result ≡ key_ended change.now }
{
    match change {
        Change::Insert(_) => None,
        Change::Replace(row) => Some(row.key()),
        Change::Delete(key) => Some(*key),
    }
}

// The row that a change adds.
pub(crate) fn added_row(change: &Change) -> Option<Row>
    ensures { result ≡ row_added change.now }
{
    match change {
        Change::Insert(row) | Change::Replace(row) => Some(*row),
        Change::Delete(_) => None,
    }
}

// How many rows a change adds.
fn count_added(change: &Change) -> usize
    ensures { result ≡ length (option_items (row_added change.now)) }
{
    match change {
        Change::Insert(_) | Change::Replace(_) => 1,
        Change::Delete(_) => 0,
    }
}

// Adds places of transactions that aren't committed; there is room for them.
pub(crate) fn add_places(committed: &mut Vec<bool>, count: usize)
    requires { vec_len committed.old + count ≤ vec_capacity committed.old }
    ensures { committed.new.items ≡ committed.old.items ++ replicate count false }
{
    for place in 0..count {
        committed.push_reserved(false);
    }
}
