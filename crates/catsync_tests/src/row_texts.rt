// Rows and changes by their texts in an entry, as `+class(16384,t,r,-) -att(16384,1)`.

use base_types::{Change, NoMemory, Row};
use event_kinds::{Item, changes_in, read_entry};
use std::alloc::Global;

// The changes of a text; a text that isn't one of changes has none.
pub(crate) fn changes_of(alloc: Global, text: &[u8]) -> Result<Vec<Change>, NoMemory> {
    let mut line = b"h 1 1 write 1 ".to_vec(alloc)?;
    line.extend_from_slice(text)?;
    match read_entry(alloc, &line) {
        Ok(entry) => changes_among(alloc, changes_in(&entry.event)),
        Err(_) => Ok(Vec::new(alloc)),
    }
}

fn changes_among(alloc: Global, items: &[Item]) -> Result<Vec<Change>, NoMemory> {
    let mut changes = Vec::new(alloc);
    for item in items {
        if let Some(change) = change_of(item) {
            changes.push(change)?;
        }
    }
    Ok(changes)
}

fn change_of(item: &Item) -> Option<Change> {
    match item {
        Item::Add(row) => Some(Change::Insert(*row)),
        Item::Put(row) => Some(Change::Replace(*row)),
        Item::Remove(key) => Some(Change::Delete(*key)),
        Item::Force(_) => None,
    }
}

// The rows that a text adds.
pub(crate) fn rows_of(alloc: Global, text: &[u8]) -> Result<Vec<Row>, NoMemory> {
    let mut rows = Vec::new(alloc);
    for change in changes_of(alloc, text)?.iter() {
        if let Change::Insert(row) = change {
            rows.push(*row)?;
        }
    }
    Ok(rows)
}
