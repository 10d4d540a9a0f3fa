// Whether a write is the one that a command wants, by the draft that it has.

ghost use Rattle.std.specs.Prelude.{◌≡◌, ◌++◌, ◌∷◌, List, [], length, map, ◌==◌};
ghost use Rattle.std.specs.List.{list_any, flat_map};
ghost use Rattle.std.specs.Option.{option_eq};
ghost use Rattle.std.specs.Str.{bytes_eq};
ghost use Rattle.base_types.specs.RowKeys.{catalog_of};
ghost use Rattle.base_types.specs.Scans.{same_oid as oids_match};
ghost use Rattle.base_types.specs.declared.catalog.Catalog.TheVariants as catalogs;
ghost use Rattle.ddl_effect.specs.Drawing.{drawn_oid, drawn_row, drawn_change};
ghost use Rattle.ddl_effect.specs.Stages.{plan_at};
ghost use Rattle.history_model.specs.Changes.{item_of, items_of};
ghost use Rattle.history_model.specs.Covered.{same_row as rows_match, same_demand as demands_match};
ghost use Rattle.history_model.specs.Names.{has_name as is_named};
ghost use Rattle.cacheless.specs.Plays.{drafted};
ghost use Rattle.cacheless.specs.SameItems.{same_item as items_match, same_items as all_match, changes_match, forced_match};
ghost use Rattle.cacheless.specs.Rule.{is_write, is_clash, names_by};
ghost use Rattle.local_caches.specs.Caches.{kept_of};

use crate::silent::rows_kept;
use base_types::{Change, ConKind, Name, Oid, Purpose, Row, live_word, on_word, valid_word};
use ddl_effect::{Draft, Exec, OpenRelation};
use event_kinds::Item;
use local_caches::LocalCaches;

// Whether the next act writes these items, where the next new oid is this one.
pub(crate) fn writes_items(exec: &Exec, next: u32, items: &[Item]) -> bool
    ensures { (opens : List OpenRelation) → result ≡ is_write next items.now (plan_at opens exec.now) }
{
    match exec.draft() {
        Some(draft) => writes_draft(draft, next, items),
        None => false,
    }
}

// Whether these are the items of a draft.
fn writes_draft(draft: &Draft, next: u32, items: &[Item]) -> bool
    ensures { result ≡ all_match items.now (drafted next draft.now) }
{
    are_drafted(
        items,
        draft.changes.as_slice(),
        draft.forced.as_slice(),
        next,
        draft.new_oids,
    )
}

// Whether these are the items of changes, in which an oid from 1 to `new_oids` means a new one, and of
// the relations that are forced to send a message.
fn are_drafted(items: &[Item], changes: &[Change], forced: &[Oid], next: u32, new_oids: u32) -> bool
    ensures { result ≡ all_match items.now (items_of (map (drawn_change next new_oids) changes.now) forced.now) }
{
    if items.len() < changes.len() {
        return false;
    }
    are_changes(&items[..changes.len()], changes, next, new_oids)
        && are_forced(&items[changes.len()..], forced)
}

// Whether these are the items of changes, as many, in which an oid from 1 to `new_oids` means a new one.
fn are_changes(items: &[Item], changes: &[Change], next: u32, new_oids: u32) -> bool
    requires { length items.now ≡ length changes.now }
    ensures { result ≡ changes_match next new_oids items.now changes.now }
{
    for (i, change) in changes.iter().enumerate() {
        if !is_change(&items[i], change, next, new_oids) {
            return false;
        }
    }
    true
}

// Whether these are the items of the relations that are forced to send a message.
fn are_forced(items: &[Item], forced: &[Oid]) -> bool
    ensures { result ≡ forced_match items.now forced.now }
{
    if items.len() != forced.len() {
        return false;
    }
    for (i, rel) in forced.iter().enumerate() {
        if !is_forced(&items[i], *rel) {
            return false;
        }
    }
    true
}

// Whether it is the item of a change.
fn is_change(item: &Item, change: &Change, next: u32, new_oids: u32) -> bool
    ensures { result ≡ items_match item.now (item_of (drawn_change next new_oids change.now)) }
{
    match (item, change) {
        (Item::Add(row), Change::Insert(drafted)) | (Item::Put(row), Change::Replace(drafted)) => {
            is_drawn(row, drafted, next, new_oids)
        }
        (Item::Remove(key), Change::Delete(other)) => key.is(other),
        _ => false,
    }
}

// Whether it is the item of a relation that is forced to send a message.
fn is_forced(item: &Item, rel: Oid) -> bool
    ensures { result ≡ items_match item.now (Item.Force rel) }
{
    match item {
        Item::Force(other) => other.0 == rel.0,
        _ => false,
    }
}

// Whether a row is a drafted one with its new oids.
fn is_drawn(row: &Row, drafted: &Row, next: u32, new_oids: u32) -> bool
    ensures { result ≡ rows_match row.now (drawn_row next new_oids drafted.now) }
{
    match row {
        Row::Class { .. } => is_relation(row, drafted, next, new_oids),
        Row::Att { .. } => is_column(row, drafted, next, new_oids),
        Row::Def { .. } => is_default(row, drafted, next, new_oids),
        Row::Ind { .. } => is_index(row, drafted, next, new_oids),
        Row::Con { .. } => is_constraint(row, drafted, next, new_oids),
        Row::Trg { .. } => is_trigger(row, drafted, next, new_oids),
    }
}

// The same of a relation's row.
fn is_relation(row: &Row, drafted: &Row, next: u32, new_oids: u32) -> bool
    ensures { catalog_of row.now ≡ catalogs.Class → result ≡ rows_match row.now (drawn_row next new_oids drafted.now) }
{
    match (row, drafted) {
        (
            Row::Class {
                oid,
                name,
                kind,
                fill,
            },
            Row::Class {
                oid: drawn,
                name: own,
                kind: own_kind,
                fill: own_fill,
            },
        ) => {
            is_drawn_oid(*oid, *drawn, next, new_oids)
                && same_name(name, own)
                && kind.word() == own_kind.word()
                && same_fill(*fill, *own_fill)
        }
        _ => false,
    }
}

// Of a column's.
fn is_column(row: &Row, drafted: &Row, next: u32, new_oids: u32) -> bool
    ensures { catalog_of row.now ≡ catalogs.Attribute → result ≡ rows_match row.now (drawn_row next new_oids drafted.now) }
{
    match (row, drafted) {
        (
            Row::Att {
                rel,
                num,
                name,
                col_type,
                stat,
                live,
            },
            Row::Att {
                rel: drawn,
                num: own_num,
                name: own,
                col_type: own_type,
                stat: own_stat,
                live: own_live,
            },
        ) => {
            is_drawn_oid(*rel, *drawn, next, new_oids)
                && num == own_num
                && same_name(name, own)
                && col_type.word() == own_type.word()
                && stat == own_stat
                && live_word(*live) == live_word(*own_live)
        }
        _ => false,
    }
}

// Of a default's.
fn is_default(row: &Row, drafted: &Row, next: u32, new_oids: u32) -> bool
    ensures { catalog_of row.now ≡ catalogs.AttrDef → result ≡ rows_match row.now (drawn_row next new_oids drafted.now) }
{
    match (row, drafted) {
        (
            Row::Def {
                oid,
                rel,
                num,
                word,
            },
            Row::Def {
                oid: drawn,
                rel: of,
                num: own_num,
                word: own,
            },
        ) => {
            is_drawn_oid(*oid, *drawn, next, new_oids)
                && is_drawn_oid(*rel, *of, next, new_oids)
                && num == own_num
                && word.as_bytes() == own.as_bytes()
        }
        _ => false,
    }
}

// Of an index's.
fn is_index(row: &Row, drafted: &Row, next: u32, new_oids: u32) -> bool
    ensures { catalog_of row.now ≡ catalogs.Index → result ≡ rows_match row.now (drawn_row next new_oids drafted.now) }
{
    match (row, drafted) {
        (
            Row::Ind {
                index,
                table,
                state,
                nums,
            },
            Row::Ind {
                index: drawn,
                table: of,
                state: own_state,
                nums: own,
            },
        ) => {
            is_drawn_oid(*index, *drawn, next, new_oids)
                && is_drawn_oid(*table, *of, next, new_oids)
                && state.word() == own_state.word()
                && nums.as_slice() == own.as_slice()
        }
        _ => false,
    }
}

// Of a constraint's.
fn is_constraint(row: &Row, drafted: &Row, next: u32, new_oids: u32) -> bool
    ensures { catalog_of row.now ≡ catalogs.Constraint → result ≡ rows_match row.now (drawn_row next new_oids drafted.now) }
{
    match (row, drafted) {
        (
            Row::Con {
                oid,
                rel,
                name,
                valid,
                what,
            },
            Row::Con {
                oid: drawn,
                rel: of,
                name: own,
                valid: own_valid,
                what: own_what,
            },
        ) => {
            is_drawn_oid(*oid, *drawn, next, new_oids)
                && is_drawn_oid(*rel, *of, next, new_oids)
                && same_name(name, own)
                && valid_word(*valid) == valid_word(*own_valid)
                && same_demand(what, own_what)
        }
        _ => false,
    }
}

// Of a trigger's.
fn is_trigger(row: &Row, drafted: &Row, next: u32, new_oids: u32) -> bool
    ensures { catalog_of row.now ≡ catalogs.Trigger → result ≡ rows_match row.now (drawn_row next new_oids drafted.now) }
{
    match (row, drafted) {
        (
            Row::Trg { oid, rel, name, on },
            Row::Trg {
                oid: drawn,
                rel: of,
                name: own,
                on: own_on,
            },
        ) => {
            is_drawn_oid(*oid, *drawn, next, new_oids)
                && is_drawn_oid(*rel, *of, next, new_oids)
                && same_name(name, own)
                && on_word(*on) == on_word(*own_on)
        }
        _ => false,
    }
}

// Whether an oid is a drafted one, which from 1 to `new_oids` means a new one.
fn is_drawn_oid(oid: Oid, drafted: Oid, next: u32, new_oids: u32) -> bool
    ensures { result ≡ oids_match oid (drawn_oid next new_oids drafted) }
{
    if drafted.0 >= 1 && drafted.0 <= new_oids {
        u64::from(oid.0) == u64::from(next) + u64::from(drafted.0) - 1
    } else {
        oid.0 == drafted.0
    }
}

// Whether two constraints demand the same.
fn same_demand(a: &ConKind, b: &ConKind) -> bool
    ensures { result ≡ demands_match a.now b.now }
{
    match (a, b) {
        (ConKind::Check(text), ConKind::Check(other)) => text.as_bytes() == other.as_bytes(),
        (
            ConKind::Foreign {
                num,
                refrel,
                refnum,
            },
            ConKind::Foreign {
                num: own_num,
                refrel: own_rel,
                refnum: own_refnum,
            },
        ) => num == own_num && refrel.0 == own_rel.0 && refnum == own_refnum,
        _ => false,
    }
}

// Whether two fillfactors are one.
fn same_fill(a: Option<u32>, b: Option<u32>) -> bool
    ensures { result ≡ option_eq (λ x y. x == y) a b }
{
    match (a, b) {
        (Some(x), Some(y)) => x == y,
        (None, None) => true,
        _ => false,
    }
}

// Whether two names are one.
fn same_name(a: &Name, b: &Name) -> bool
    ensures { result ≡ bytes_eq a.now b.now }
{
    a.as_bytes() == b.as_bytes()
}

// Whether the next act writes a relation of this new name.
pub(crate) fn gives_name(exec: &Exec, caches: &LocalCaches, name: Name) -> bool
    ensures { (opens : List OpenRelation) → result ≡ is_clash (kept_of caches.now) name (plan_at opens exec.now) }
{
    match exec.draft() {
        Some(draft) => draft_gives(draft, caches, name),
        None => false,
    }
}

// Whether a draft gives a relation this new name.
fn draft_gives(draft: &Draft, caches: &LocalCaches, name: Name) -> bool
    ensures { result ≡ list_any (bytes_eq name) (flat_map (names_by (kept_of caches.now)) draft.now.changes) }
{
    any_gives(draft.changes.as_slice(), caches, name)
}

// Whether one of the changes gives a relation this new name.
fn any_gives(changes: &[Change], caches: &LocalCaches, name: Name) -> bool
    ensures { result ≡ list_any (λ change. list_any (bytes_eq name) (names_by (kept_of caches.now) change)) changes.now }
{
    changes
        .iter()
        .any(|change| change_gives(change, caches, name))
}

// Whether a change gives a relation this new name: a row that is put gives none which the row that is
// kept of it has already.
fn change_gives(change: &Change, caches: &LocalCaches, name: Name) -> bool
    ensures { result ≡ list_any (bytes_eq name) (names_by (kept_of caches.now) change.now) }
{
    match change {
        Change::Insert(Row::Class { name: own, .. }) => same_name(&name, own),
        Change::Replace(Row::Class { oid, name: own, .. }) => {
            same_name(&name, own) && !has_name(rows_kept(caches, Purpose::Class(*oid)), own)
        }
        _ => false,
    }
}

// Whether one of the rows is of a relation with this name.
fn has_name(given: &[Row], name: &Name) -> bool
    ensures { result ≡ list_any (is_named name.now) given.now }
{
    given.iter().any(|row| match row {
        Row::Class { name: own, .. } => same_name(own, name),
        _ => false,
    })
}
