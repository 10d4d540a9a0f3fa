ghost use Rattle.std.specs.Prelude.{◌≡◌, ◌<◌, ◌+◌, ◌^◌, map, IfOk};
ghost use Rattle.ddl_effect.specs.Drawing.{drawn_oid as oid_drawn, drawn_row as row_drawn, drawn_change as change_drawn};
ghost use Rattle.history_model.specs.Changes.{item_of as item_for, items_of as items_for};
ghost use Rattle.shared_seg.specs.Drawn.{xid_drawn};
ghost use Rattle.shared_seg.specs.IsDrawn.{IsDrawn};

use base_types::{Change, NoMemory, Oid, Row, Xid};
use ddl_effect::Draft;
use event_kinds::Item;
use std::alloc::{AllocError, Global};

// What a write draws: its Xid, its first new oid and its items.
#[derive(Drop)]
pub(crate) struct Drawn {
    pub xid: Xid,
    pub first_oid: Oid,
    pub items: Vec<Item>,
}

// Draws the Xid and the oids of a write; out of memory too where the numbers are used up.
pub(crate) fn draw(
    alloc: Global,
    own: Option<Xid>,
    draft: &Draft,
    next_oid: u64,
    last_xid: u32,
) -> Result<Drawn, NoMemory>
    ensures { IfOk result (IsDrawn own draft.now next_oid last_xid) }
{
    let Ok(first) = u32::try_from(next_oid) else {
        return Err(NoMemory);
    };
    let Some(_) = first.checked_add(draft.new_oids) else {
        return Err(NoMemory);
    };
    let xid = next_xid(own, last_xid)?;
    let changes = drawn_changes(alloc, first, draft.new_oids, draft.changes.as_slice())?;
    let items = items_of(alloc, &changes, draft.forced.as_slice())?;
    Ok(Drawn {
        xid,
        first_oid: Oid(first),
        items,
    })
}

// The Xid of a write: its transaction's, or the next one.
fn next_xid(own: Option<Xid>, last_xid: u32) -> Result<Xid, NoMemory>
    ensures { IfOk result (λ xid. xid ≡ xid_drawn own last_xid) }
{
    match own {
        Some(xid) => Ok(xid),
        None => match last_xid.checked_add(1) {
            Some(number) => Ok(Xid(number)),
            None => Err(NoMemory),
        },
    }
}

// The changes of a draft, with its new oids drawn from this one on.
pub(crate) fn drawn_changes(
    alloc: Global,
    first: u32,
    new_oids: u32,
    changes: &[Change],
) -> Result<Vec<Change>, AllocError>
    requires { first + new_oids < 2 ^ 32 }
    ensures { IfOk result (λ drawn. drawn.items ≡ map (change_drawn first new_oids) changes.now) }
{
    changes
        .iter()
        .map(|change| drawn_change(first, new_oids, change))
        .collect(alloc)
}

// A change with its new oids drawn.
fn drawn_change(first: u32, new_oids: u32, change: &Change) -> Change
    requires { first + new_oids < 2 ^ 32 }
    ensures { result ≡ change_drawn first new_oids change.now }
{
    match change {
        Change::Insert(row) => Change::Insert(drawn_row(first, new_oids, *row)),
        Change::Replace(row) => Change::Replace(drawn_row(first, new_oids, *row)),
        Change::Delete(key) => Change::Delete(*key),
    }
}

// A row with its new oids drawn.
fn drawn_row(first: u32, new_oids: u32, mut row: Row) -> Row
    requires { first + new_oids < 2 ^ 32 }
    ensures { result ≡ row_drawn first new_oids row }
{
    match &mut row {
        Row::Class { oid, .. } => *oid = drawn_oid(first, new_oids, *oid),
        Row::Att { rel, .. } => *rel = drawn_oid(first, new_oids, *rel),
        Row::Ind { index, table, .. } => {
            *index = drawn_oid(first, new_oids, *index);
            *table = drawn_oid(first, new_oids, *table);
        }
        Row::Def { oid, rel, .. } => {
            *oid = drawn_oid(first, new_oids, *oid);
            *rel = drawn_oid(first, new_oids, *rel);
        }
        Row::Con { oid, rel, .. } => {
            *oid = drawn_oid(first, new_oids, *oid);
            *rel = drawn_oid(first, new_oids, *rel);
        }
        Row::Trg { oid, rel, .. } => {
            *oid = drawn_oid(first, new_oids, *oid);
            *rel = drawn_oid(first, new_oids, *rel);
        }
    }
    row
}

// The new oid that a number up to `new_oids` means; any other oid stays.
fn drawn_oid(first: u32, new_oids: u32, oid: Oid) -> Oid
    requires { first + new_oids < 2 ^ 32 }
    ensures { result ≡ oid_drawn first new_oids oid }
{
    if 1 <= oid.0 && oid.0 <= new_oids {
        Oid(first + oid.0 - 1)
    } else {
        oid
    }
}

// The items of a write.
pub(crate) fn items_of(
    alloc: Global,
    changes: &[Change],
    forced: &[Oid],
) -> Result<Vec<Item>, NoMemory>
    ensures { IfOk result (λ items. items.items ≡ items_for changes.now forced.now) }
{
    let mut items = Vec::new(alloc);
    for change in changes {
        items.push(item_of(change))?;
    }
    for rel in forced {
        items.push(Item::Force(*rel))?;
    }
    Ok(items)
}

// The item of a change.
fn item_of(change: &Change) -> Item
    ensures { result ≡ item_for change.now }
{
    match change {
        Change::Insert(row) => Item::Add(*row),
        Change::Replace(row) => Item::Put(*row),
        Change::Delete(key) => Item::Remove(*key),
    }
}
