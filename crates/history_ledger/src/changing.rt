ghost use Rattle.std.specs.Prelude.{◌≡◌, ◌||◌, Some, IfOk};
ghost use Rattle.std.specs.List.{flat_map, list_any, list_all};
ghost use Rattle.event_kinds.specs.declared.entry.Item.TheVariants as items;
ghost use Rattle.base_types.specs.Scans.{same_oid};
ghost use Rattle.lock_modes.specs.Grants.{holds as do_hold};
ghost use Rattle.history_model.specs.Drawn.{made_by};
ghost use Rattle.history_model.specs.Changing.{modes_enough, enough_with, update_where as update_if, weaker_mode as mode_weaker, mode_to_add as mode_for_added, mode_to_replace as mode_for_replaced, mode_to_remove as mode_for_removed, refills as does_refill, name_allowed as allowed_name, retargets as does_retarget, validates as does_validate, is_validation as is_validated, same_kind as kinds_match};
ghost use Rattle.segment_rows.specs.Words.{old_at};
ghost use Rattle.history_ledger.specs.Words.{guards_row as does_guard_row, guards_rows as does_guard_rows, may_change as may_be_changed};
ghost use Rattle.history_model.specs.Changing.{is_there as finds_old, leaves_kind as does_leave_kind};
ghost use Rattle.segment_rows.specs.Kept.{xid_in, reader_at};
ghost use Rattle.history_ledger.specs.Held.{standing_of};

use crate::ledger::Ledger;
use crate::own::Own;
use base_types::{ConKind, Kind, Mode, Name, NoMemory, Oid, Row, Xid};
use event_kinds::Item;
use lock_modes::GrantTable;
use segment_rows::{SegmentRows, same_row};
use std::alloc::Global;

impl Ledger {
    // Whether each change of a write is allowed by itself.
    pub(crate) fn may_change_all(&self, own: &Own, b: u32, items: &[Item]) -> Result<bool, NoMemory>
        ensures { IfOk result (λ yes. yes ≡ list_all (λ item. may_be_changed self.now.rows.store self.now.locks (xid_in (standing_of own.now).running) b (flat_map made_by items.now) item (old_at self.now.rows.store (reader_at (standing_of own.now)) item)) items.now) }
    {
        let made = relations_made(self.alloc, items)?;
        let own = own.xid();
        for item in items {
            let old = self.rows.old_row(own, item);
            if !may_change(&self.rows, &self.locks, own, b, &made, item, &old) {
                return Ok(false);
            }
        }
        Ok(true)
    }
}

// The relations that a write makes.
fn relations_made(alloc: Global, items: &[Item]) -> Result<Vec<Oid>, NoMemory>
    ensures { IfOk result (λ made. made.items ≡ flat_map made_by items.now) }
{
    let mut made = Vec::new(alloc);
    for item in items {
        if let Item::Add(Row::Class { oid, .. }) = item {
            made.push(*oid)?;
        }
    }
    Ok(made)
}

// Whether a change is allowed by itself, where this is the row that it replaces or takes away.
fn may_change(
    rows: &SegmentRows,
    locks: &GrantTable,
    own: Option<Xid>,
    b: u32,
    made: &[Oid],
    item: &Item,
    old: &Option<Row>,
) -> bool
    ensures { result ≡ may_be_changed rows.now.store locks.now own b made.now item.now old.now }
{
    is_there(item, old)
        && leaves_kind(item, old)
        && rows.frees_names(own, item, old)
        && guards_rows(locks, b, made, item, old)
}

// Whether what a change replaces or takes away is there.
fn is_there(item: &Item, old: &Option<Row>) -> bool
    ensures { result ≡ finds_old item.now old.now }
{
    match item {
        Item::Put(_) | Item::Remove(_) => old.is_some(),
        Item::Add(_) | Item::Force(_) => true,
    }
}

// Whether a change leaves the kind of a relation.
fn leaves_kind(item: &Item, old: &Option<Row>) -> bool
    ensures { result ≡ does_leave_kind item.now old.now }
{
    match (item, old) {
        (Item::Put(row), Some(had)) => same_kind(had, row),
        _ => true,
    }
}

// Whether two rows of relations are of one kind.
fn same_kind(a: &Row, b: &Row) -> bool
    ensures { result ≡ kinds_match a.now b.now }
{
    match (a, b) {
        (
            Row::Class {
                kind: Kind::Table,
                ..
            },
            Row::Class {
                kind: Kind::Index,
                ..
            },
        ) => false,
        (
            Row::Class {
                kind: Kind::Index,
                ..
            },
            Row::Class {
                kind: Kind::Table,
                ..
            },
        ) => false,
        _ => true,
    }
}

// Whether the backend holds a mode that is enough on each relation that the old row or the new one
// names, but on those that the write makes.
fn guards_rows(locks: &GrantTable, b: u32, made: &[Oid], item: &Item, old: &Option<Row>) -> bool
    ensures { result ≡ does_guard_rows locks.now b made.now item.now old.now }
{
    let old_guarded = match old {
        Some(row) => guards_row(locks, b, made, item, old, row),
        None => true,
    };
    let new_guarded = match item {
        Item::Add(row) | Item::Put(row) => guards_row(locks, b, made, item, old, row),
        Item::Remove(_) | Item::Force(_) => true,
    };
    old_guarded && new_guarded
}

// Whether the backend holds a mode that is enough on each relation of a row that is changed, but on
// those that the write makes. A foreign key is validated under a lock of its own relation alone.
fn guards_row(
    locks: &GrantTable,
    b: u32,
    made: &[Oid],
    item: &Item,
    old: &Option<Row>,
    row: &Row,
) -> bool
    ensures { result ≡ does_guard_row locks.now b made.now old.now item.now row.now }
{
    match row {
        Row::Class { oid: rel, .. }
        | Row::Att { rel, .. }
        | Row::Def { rel, .. }
        | Row::Trg { rel, .. } => guards(locks, b, made, item, old, *rel),
        Row::Ind { index, table, .. } => {
            guards(locks, b, made, item, old, *index) && guards(locks, b, made, item, old, *table)
        }
        Row::Con {
            rel,
            what: ConKind::Foreign { refrel, .. },
            ..
        } => {
            guards(locks, b, made, item, old, *rel)
                && (is_validation(old, item) || guards(locks, b, made, item, old, *refrel))
        }
        Row::Con { rel, .. } => guards(locks, b, made, item, old, *rel),
    }
}

// Whether the backend holds a mode that is enough on the relation, or the write makes it.
fn guards(
    locks: &GrantTable,
    b: u32,
    made: &[Oid],
    item: &Item,
    old: &Option<Row>,
    rel: Oid,
) -> bool
    ensures { result ≡ (list_any (same_oid rel) made.now || list_any (do_hold locks.now b rel) (modes_enough old.now item.now rel)) }
{
    is_among(made, rel) || holds_enough(locks, b, weaker_mode(old, item, rel), rel)
}

// Whether the relation is one of these.
fn is_among(relations: &[Oid], rel: Oid) -> bool
    ensures { result ≡ list_any (same_oid rel) relations.now }
{
    relations.iter().any(|other| rel.0 == other.0)
}

// Whether the backend holds AccessExclusive on the relation, or the weaker mode that is enough.
fn holds_enough(locks: &GrantTable, b: u32, weaker: Option<Mode>, rel: Oid) -> bool
    ensures { result ≡ list_any (do_hold locks.now b rel) (enough_with weaker) }
{
    match weaker {
        Some(mode) => locks.holds(b, rel, mode) || locks.holds(b, rel, Mode::AccessExclusive),
        None => locks.holds(b, rel, Mode::AccessExclusive),
    }
}

// The mode weaker than AccessExclusive that is enough for a change on a relation, if there is one.
fn weaker_mode(old: &Option<Row>, item: &Item, rel: Oid) -> Option<Mode>
    ensures { result ≡ mode_weaker old.now item.now rel }
{
    match item {
        Item::Add(row) => mode_to_add(row, rel),
        Item::Put(row) => mode_to_replace(old, row),
        Item::Remove(_) => mode_to_remove(old),
        Item::Force(_) => None,
    }
}

// The weaker mode that is enough to add a row.
fn mode_to_add(row: &Row, rel: Oid) -> Option<Mode>
    ensures { result ≡ mode_for_added row.now rel }
{
    match row {
        Row::Ind { table, .. } => {
            if table.0 == rel.0 {
                Some(Mode::Share)
            } else {
                None
            }
        }
        Row::Con {
            what: ConKind::Foreign { .. },
            ..
        }
        | Row::Trg { .. } => Some(Mode::ShareRowExclusive),
        _ => None,
    }
}

// The weaker mode that is enough to replace a row.
fn mode_to_replace(old: &Option<Row>, row: &Row) -> Option<Mode>
    ensures { result ≡ mode_for_replaced old.now row.now }
{
    match (old, row) {
        (Some(Row::Class { .. }), Row::Class { .. }) => update_where(refills(old, row)),
        (Some(Row::Att { .. }), Row::Att { .. }) => update_where(retargets(old, row)),
        (Some(Row::Con { .. }), Row::Con { .. }) => update_where(validates(old, row)),
        (Some(Row::Trg { .. }), Row::Trg { .. }) => Some(Mode::ShareRowExclusive),
        _ => None,
    }
}

// Whether nothing but a fillfactor, and the name of an index, differs between two rows of a relation.
fn refills(old: &Option<Row>, row: &Row) -> bool
    ensures { result ≡ does_refill old.now row.now }
{
    match (old, row) {
        (
            Some(
                Row::Class {
                    oid,
                    name: own,
                    kind,
                    ..
                },
            ),
            Row::Class { name, fill, .. },
        ) => same_row(
            &Row::Class {
                oid: *oid,
                name: name_allowed(*kind, *own, *name),
                kind: *kind,
                fill: *fill,
            },
            row,
        ),
        _ => false,
    }
}

// The name that the row of a relation may be given without AccessExclusive: of an index any, of a table its own.
fn name_allowed(kind: Kind, own: Name, name: Name) -> Name
    ensures { result ≡ allowed_name kind own name }
{
    match kind {
        Kind::Table => own,
        Kind::Index => name,
    }
}

// Whether nothing but a statistics target differs between two rows of a column.
fn retargets(old: &Option<Row>, row: &Row) -> bool
    ensures { result ≡ does_retarget old.now row.now }
{
    match (old, row) {
        (
            Some(
                Row::Att {
                    rel,
                    num,
                    name,
                    col_type,
                    live,
                    ..
                },
            ),
            Row::Att { stat, .. },
        ) => same_row(
            &Row::Att {
                rel: *rel,
                num: *num,
                name: *name,
                col_type: *col_type,
                stat: *stat,
                live: *live,
            },
            row,
        ),
        _ => false,
    }
}

// The weaker mode that is enough to take a row away.
fn mode_to_remove(old: &Option<Row>) -> Option<Mode>
    ensures { result ≡ mode_for_removed old.now }
{
    match old {
        Some(Row::Trg { .. }) => Some(Mode::ShareRowExclusive),
        _ => None,
    }
}

// ShareUpdateExclusive, where a change passes a test.
fn update_where(passes: bool) -> Option<Mode>
    ensures { result ≡ update_if passes }
{
    if passes {
        Some(Mode::ShareUpdateExclusive)
    } else {
        None
    }
}

// Whether a change leaves a constraint but for whether it is known to hold.
fn is_validation(old: &Option<Row>, item: &Item) -> bool
    ensures { result ≡ is_validated old.now item.now }
{
    match item {
        Item::Put(row) => validates(old, row),
        _ => false,
    }
}

// Whether two rows of a constraint differ in nothing but whether it is known to hold.
fn validates(old: &Option<Row>, row: &Row) -> bool
    ensures { result ≡ does_validate old.now row.now }
{
    match (old, row) {
        (
            Some(
                Row::Con {
                    oid,
                    rel,
                    name,
                    what,
                    ..
                },
            ),
            Row::Con { valid, .. },
        ) => same_row(
            &Row::Con {
                oid: *oid,
                rel: *rel,
                name: *name,
                valid: *valid,
                what: *what,
            },
            row,
        ),
        _ => false,
    }
}
