ghost use Rattle.std.specs.Prelude.{◌≡◌, ◌&&◌};
ghost use Rattle.std.specs.List.{find, filter_map};
ghost use Rattle.row_visibility.specs.Seen.{seen_by};
ghost use Rattle.catalog_rows.specs.Store.{counts, is_named as has_name, is_claimed as does_claim, is_running_other as runs_elsewhere, is_user as does_use, is_user_stamp as is_stamp_of_user, claimant_of, relation_of as relation_in, row_clash as clash_with, clash_by};
ghost use Rattle.catalog_rows.specs.Slots.{version_numbered};

use crate::slots::version_at;
use crate::writing::{does_count, is_standing};
use base_types::{Name, Oid, Row, Xid};
use row_visibility::{Clash, Stamp, Version};

// Why a new relation may not have the name, by the listed versions.
pub(crate) fn clash_among(
    slots: &[Option<Version>],
    list: &[u64],
    committed: &[bool],
    name: &Name,
    own: Option<Xid>,
) -> Option<Clash>
    ensures { result ≡ clash_by committed.now own (find (λ v. has_name name.now v.row && does_claim committed.now own v) (filter_map (version_numbered slots.now) list.now)) (find (λ v. has_name name.now v.row && seen_by (counts committed.now own) v) (filter_map (version_numbered slots.now) list.now)) }
{
    match first_claimed(slots, list, committed, name, own) {
        Some(version) => Some(Clash::Running(claimant(&version, committed, own))),
        None => row_clash(first_standing(slots, list, committed, name, own)),
    }
}

// The first listed version of a relation of this name that a running transaction of another claims.
fn first_claimed(
    slots: &[Option<Version>],
    list: &[u64],
    committed: &[bool],
    name: &Name,
    own: Option<Xid>,
) -> Option<Version>
    ensures { result ≡ find (λ v. has_name name.now v.row && does_claim committed.now own v) (filter_map (version_numbered slots.now) list.now) }
{
    list.iter()
        .filter_map(|number| version_at(slots, *number).copied())
        .find(|version| is_named(version, name) && is_claimed(version, committed, own))
}

// The first listed version of a relation of this name that counts for the writer.
fn first_standing(
    slots: &[Option<Version>],
    list: &[u64],
    committed: &[bool],
    name: &Name,
    own: Option<Xid>,
) -> Option<Version>
    ensures { result ≡ find (λ v. has_name name.now v.row && seen_by (counts committed.now own) v) (filter_map (version_numbered slots.now) list.now) }
{
    list.iter()
        .filter_map(|number| version_at(slots, *number).copied())
        .find(|version| is_named(version, name) && is_standing(version, committed, own))
}

// The first listed version of a relation of this name that the other transaction claims.
pub(crate) fn first_used(
    slots: &[Option<Version>],
    list: &[u64],
    committed: &[bool],
    name: &Name,
    own: Option<Xid>,
    user: Xid,
) -> Option<Version>
    ensures { result ≡ find (λ v. has_name name.now v.row && does_use committed.now own user v) (filter_map (version_numbered slots.now) list.now) }
{
    list.iter()
        .filter_map(|number| version_at(slots, *number).copied())
        .find(|version| is_named(version, name) && is_used_by(version, committed, own, user))
}

// The clash with the row of this version.
fn row_clash(standing: Option<Version>) -> Option<Clash>
    ensures { result ≡ clash_with standing }
{
    match standing {
        Some(version) => relation_of(&version.row).map(Clash::Row),
        None => None,
    }
}

// Whether the version is of a relation of this name.
fn is_named(version: &Version, asked: &Name) -> bool
    ensures { result ≡ has_name asked.now version.now.row }
{
    match &version.row {
        Row::Class { name, .. } => name.as_bytes() == asked.as_bytes(),
        _ => false,
    }
}

// Whether a running transaction other than the writer's wrote or ended the version.
fn is_claimed(version: &Version, committed: &[bool], own: Option<Xid>) -> bool
    ensures { result ≡ does_claim committed.now own version.now }
{
    is_running_other(version.by, committed, own)
        || match version.ended {
            Some(ended) => is_running_other(ended, committed, own),
            None => false,
        }
}

// Whether the running transaction with this Xid, other than the writer's, wrote or ended the version.
fn is_used_by(version: &Version, committed: &[bool], own: Option<Xid>, user: Xid) -> bool
    ensures { result ≡ does_use committed.now own user version.now }
{
    is_user_stamp(version.by, committed, own, user)
        || match version.ended {
            Some(ended) => is_user_stamp(ended, committed, own, user),
            None => false,
        }
}

// Whether that transaction left the stamp.
fn is_user_stamp(stamp: Stamp, committed: &[bool], own: Option<Xid>, user: Xid) -> bool
    ensures { result ≡ is_stamp_of_user committed.now own user stamp }
{
    is_running_other(stamp, committed, own) && stamp.xid.0 == user.0
}

// The transaction that claims a version: its writer, or else the one that ended it.
fn claimant(version: &Version, committed: &[bool], own: Option<Xid>) -> Xid
    ensures { result ≡ claimant_of committed.now own version.now }
{
    if is_running_other(version.by, committed, own) {
        return version.by.xid;
    }
    match version.ended {
        Some(ended) => ended.xid,
        None => version.by.xid,
    }
}

// Whether a running transaction other than the writer's left the stamp.
fn is_running_other(stamp: Stamp, committed: &[bool], own: Option<Xid>) -> bool
    ensures { result ≡ runs_elsewhere committed.now own stamp }
{
    !does_count(stamp, committed, own)
}

// The relation of a row of pg_class.
fn relation_of(row: &Row) -> Option<Oid>
    ensures { result ≡ relation_in row.now }
{
    match row {
        Row::Class { oid, .. } => Some(*oid),
        _ => None,
    }
}
