ghost use Rattle.std.specs.Prelude.{◌≡◌, ◌∷◌, ◌||◌, [], None, false, map};
ghost use Rattle.catalog_rows.specs.Store.{has_committed as is_committed_in, is_back as goes_back};
ghost use Rattle.catalog_rows.specs.Index.{IsIndexed, IsCurrent, IsNumbered, IsOnly};
ghost use Rattle.catalog_rows.specs.Slots.{Settles, slot_back};
ghost use Rattle.catalog_rows.specs.Given.{if_back};

use crate::indexes::Indexes;
use crate::lists::{Lists, own};
use crate::slots::slot_of;
use crate::store::has_committed;
use base_types::Xid;
use row_visibility::{Stamp, Version};

// Takes back what the transaction did in its commands of this number and above. If it is committed, versions that
// nobody saw any more may be seen again.
pub(crate) fn undo(
    slots: &mut [Option<Version>],
    lists: &mut Lists,
    committed: &[bool],
    xid: Xid,
    from: u32,
)
    requires indexed { IsIndexed slots.old lists.old }
    requires current { IsCurrent committed.now slots.old lists.old.indexes }
    ensures indexed { IsIndexed slots.new lists.new }
    ensures current { IsCurrent committed.now slots.new lists.new.indexes }
    ensures slots { slots.new ≡ map (slot_back (goes_back xid from)) slots.old }
    ensures whole { lists.new.indexes.whole ≡ (lists.old.indexes.whole || is_committed_in committed.now xid.0) }
{
    lists.indexes.whole |= has_committed(xid, committed);
    take_back(
        slots,
        &mut lists.indexes,
        own(&lists.touched, xid),
        xid,
        from,
    );
}

// The same for these versions, the last first.
fn take_back(
    slots: &mut [Option<Version>],
    indexes: &mut Indexes,
    list: &[u64],
    xid: Xid,
    from: u32,
)
    requires numbered { IsNumbered slots.old indexes.old.all }
    requires only { IsOnly indexes.old }
    ensures numbered { IsNumbered slots.new indexes.new.all }
    ensures only { IsOnly indexes.new }
    ensures current { (committed : _) → is_committed_in committed xid.0 ≡ false → IsCurrent committed slots.old indexes.old → IsCurrent committed slots.new indexes.new }
    ensures whole { indexes.new.whole ≡ indexes.old.whole }
    ensures settles { Settles (slot_back (goes_back xid from)) list.now (None ∷ slots.old) (None ∷ slots.new) }
{
    for turn in 0..list.len() {
        restore(slots, indexes, list[list.len() - 1 - turn], xid, from);
    }
}

// The same for one version, if it is there.
fn restore(slots: &mut [Option<Version>], indexes: &mut Indexes, number: u64, xid: Xid, from: u32)
    requires numbered { IsNumbered slots.old indexes.old.all }
    requires only { IsOnly indexes.old }
    ensures numbered { IsNumbered slots.new indexes.new.all }
    ensures only { IsOnly indexes.new }
    ensures current { (committed : _) → is_committed_in committed xid.0 ≡ false → IsCurrent committed slots.old indexes.old → IsCurrent committed slots.new indexes.new }
    ensures whole { indexes.new.whole ≡ indexes.old.whole }
    ensures settles { Settles (slot_back (goes_back xid from)) (number ∷ []) (None ∷ slots.old) (None ∷ slots.new) }
{
    if let Some(at) = slot_of(slots, number) {
        indexes.remove_version(written_by(slots[at], xid, from), number);
        slots[at] = restored(slots[at], xid, from);
    }
}

// The version, if it was added in such a command.
fn written_by(version: Option<Version>, xid: Xid, from: u32) -> Option<Version>
    ensures { result ≡ if_back (goes_back xid from) version }
{
    let version = version?;
    if is_back(version.by, xid, from) {
        Some(version)
    } else {
        None
    }
}

// Whether the transaction left the stamp in a command of this number or above.
fn is_back(stamp: Stamp, xid: Xid, from: u32) -> bool
    ensures { result ≡ goes_back xid from stamp }
{
    stamp.xid.0 == xid.0 && from <= stamp.command
}

// What is left in a slot: no version if the transaction added it in such a command, else one that isn't
// ended any more if the transaction ended it in such a command.
fn restored(version: Option<Version>, xid: Xid, from: u32) -> Option<Version>
    ensures { result ≡ slot_back (goes_back xid from) version }
{
    let mut version = version?;
    if is_back(version.by, xid, from) {
        return None;
    }
    if let Some(ended) = version.ended {
        if is_back(ended, xid, from) {
            version.ended = None;
        }
    }
    Some(version)
}
