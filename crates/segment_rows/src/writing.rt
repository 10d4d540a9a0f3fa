ghost use Rattle.std.specs.Prelude.{◌≡◌, ◌+◌, true, length, IfOk};
ghost use Rattle.std.specs.List.{flat_map};
ghost use Rattle.std.specs.Option.{option_to_list};
ghost use Rattle.history_model.specs.Changing.{are_from};
ghost use Rattle.history_model.specs.Drawn.{drawn_by};
ghost use Rattle.segment_rows.specs.Words.{change_in, changes_in as changes_among};

use base_types::{Change, NoMemory, Row};
use event_kinds::Item;
use std::alloc::Global;

// The changes of a write's items.
pub(crate) fn changes_in(alloc: Global, items: &[Item]) -> Result<Vec<Change>, NoMemory>
    ensures { IfOk result (λ changes. changes.items ≡ changes_among items.now) }
{
    let mut changes = Vec::new(alloc);
    for item in items {
        if let Some(change) = change_of(item) {
            changes.push(change)?;
        }
    }
    Ok(changes)
}

// The change of an item, if it changes a row.
fn change_of(item: &Item) -> Option<Change>
    ensures { result ≡ change_in item.now }
{
    match item {
        Item::Add(row) => Some(Change::Insert(*row)),
        Item::Put(row) => Some(Change::Replace(*row)),
        Item::Remove(key) => Some(Change::Delete(*key)),
        Item::Force(_) => None,
    }
}

// The oid after those that changes draw, which are the next ones, in order.
pub(crate) fn after_drawn(next: u64, items: &[Item]) -> u64
    requires { are_from next (flat_map drawn_by items.now) ≡ true }
    ensures { result ≡ next + length (flat_map drawn_by items.now) }
{
    let mut after = next;
    for item in items {
        if let Some(oid) = drawn_oid(item) {
            after = oid as u64 + 1;
        }
    }
    after
}

/// The oid that a change draws.
pub fn drawn_oid(item: &Item) -> Option<u32>
    ensures { option_to_list result ≡ drawn_by item.now }
{
    match item {
        Item::Add(
            Row::Class { oid, .. }
            | Row::Def { oid, .. }
            | Row::Con { oid, .. }
            | Row::Trg { oid, .. },
        ) => Some(oid.0),
        _ => None,
    }
}
