ghost use Rattle.std.specs.Prelude.{◌≡◌, ◌++◌, OnOk, IfOk};
ghost use Rattle.std.specs.List.{flat_map};
ghost use Rattle.segment_rows.specs.Words.{messages_at, old_at};

use base_types::{NoMemory, Row};
use catalog_rows::RowStore;
use event_kinds::Item;
use inval_messages::{Message, messages_of};
use row_visibility::Reader;
use std::alloc::Global;

// The row that a change replaces or takes away.
pub(crate) fn old_row(store: &RowStore, reader: Reader, item: &Item) -> Option<Row>
    ensures { result ≡ old_at store.now reader item.now }
{
    match item {
        Item::Put(row) => store.row(&row.key(), reader),
        Item::Remove(key) => store.row(key, reader),
        Item::Add(_) | Item::Force(_) => None,
    }
}

// The messages of a write's items, in their order, by the rows that the reader sees.
pub(crate) fn announced(
    alloc: Global,
    store: &RowStore,
    reader: Reader,
    items: &[Item],
) -> Result<Vec<Message>, NoMemory>
    ensures { IfOk result (λ messages. messages.items ≡ flat_map (messages_at store.now reader) items.now) }
{
    let mut messages = Vec::new(alloc);
    for item in items {
        announce(store, reader, item, &mut messages)?;
    }
    Ok(messages)
}

// Adds the messages of an item, by the row that it replaces or takes away.
fn announce(
    store: &RowStore,
    reader: Reader,
    item: &Item,
    messages: &mut Vec<Message>,
) -> Result<(), NoMemory>
    ensures { OnOk result (messages.new.items ≡ messages.old.items ++ messages_at store.now reader item.now) }
{
    let old = old_row(store, reader, item);
    match item {
        Item::Add(row) | Item::Put(row) => messages_of(old.as_ref(), Some(row), messages),
        Item::Remove(_) => messages_of(old.as_ref(), None, messages),
        Item::Force(rel) => {
            messages.push(Message::Rel { rel: *rel })?;
            Ok(())
        }
    }
}
