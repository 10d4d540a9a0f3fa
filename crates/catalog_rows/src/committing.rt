ghost use Rattle.std.specs.Prelude.{◌≡◌};
ghost use Rattle.catalog_rows.specs.Index.{is_dead as is_seen_no_more, IsIndexed, IsCurrent, IsNumbered, IsOnly};

use crate::indexes::Indexes;
use crate::lists::{Lists, own};
use crate::slots::version_at;
use crate::store::has_committed;
use base_types::Xid;
use row_visibility::Version;

// Takes out of the second index what the transaction wrote or ended and nobody sees any more, now that it
// is committed.
pub(crate) fn drop_dead(slots: &[Option<Version>], lists: &mut Lists, committed: &[bool], xid: Xid)
    requires indexed { IsIndexed slots.now lists.old }
    requires current { IsCurrent committed.now slots.now lists.old.indexes }
    ensures indexed { IsIndexed slots.now lists.new }
    ensures current { IsCurrent committed.now slots.now lists.new.indexes }
{
    drop_listed(
        slots,
        &mut lists.indexes,
        own(&lists.touched, xid),
        committed,
    );
}

// The same of the listed versions, the last first.
fn drop_listed(slots: &[Option<Version>], indexes: &mut Indexes, list: &[u64], committed: &[bool])
    requires only { IsOnly indexes.old }
    requires current { IsCurrent committed.now slots.now indexes.old }
    ensures only { IsOnly indexes.new }
    ensures current { IsCurrent committed.now slots.now indexes.new }
    ensures all { indexes.new.all ≡ indexes.old.all }
{
    for turn in 0..list.len() {
        drop_if_dead(slots, indexes, list[list.len() - 1 - turn], committed);
    }
}

// The same of one version, if it is there.
fn drop_if_dead(slots: &[Option<Version>], indexes: &mut Indexes, number: u64, committed: &[bool])
    requires only { IsOnly indexes.old }
    requires current { IsCurrent committed.now slots.now indexes.old }
    ensures only { IsOnly indexes.new }
    ensures current { IsCurrent committed.now slots.now indexes.new }
    ensures all { indexes.new.all ≡ indexes.old.all }
{
    if let Some(version) = version_at(slots, number) {
        if is_dead(version, committed) {
            indexes.current.remove_row(&version.row, number);
        }
    }
}

// Whether committed transactions wrote and ended the version.
fn is_dead(version: &Version, committed: &[bool]) -> bool
    ensures { result ≡ is_seen_no_more committed.now version.now }
{
    has_committed(version.by.xid, committed)
        && match version.ended {
            Some(ended) => has_committed(ended.xid, committed),
            None => false,
        }
}
