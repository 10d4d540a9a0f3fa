ghost use Rattle.std.specs.Prelude.{◌≡◌, ◌++◌, Some, not, map, filter, fold, IfOk, OnOk};
ghost use Rattle.std.specs.List.{flat_map, list_all};
ghost use Rattle.std.specs.Option.{option_map_or};
ghost use Rattle.base_types.specs.declared.key.CacheId.TheVariants.{AttName};
ghost use Rattle.inval_messages.specs.declared.message.Message.{Message};
ghost use Rattle.base_types.specs.Scans.{goes_before, IsInOrder};
ghost use Rattle.catalog_rows.specs.Store.{rows_with_key};
ghost use Rattle.inval_messages.specs.Messages.{covers as does_cover, same_message, message_for, is_for_cache as is_of_cache};
ghost use Rattle.history_model.specs.Covered.{is_covered as has_message, scans_of as scans_giving, counted_for as counts_as, same_rows as rows_match};
ghost use Rattle.segment_rows.specs.Words.{messages_at};
ghost use Rattle.segment_rows.specs.Words.{covers_item as does_cover_item, covers_row as does_cover_row, covers_scan as does_cover_scan, keeps_given, given_after, with_added, ends_row as does_end_row};

use crate::announcing::announced;
use crate::same::same_row;
use base_types::{
    CacheId, ConKind, Key, KeyPart, NoMemory, Purpose, Row, RowKey, key_hash, put_in_order, selects,
};
use catalog_rows::RowStore;
use event_kinds::Item;
use inval_messages::Message;
use row_visibility::Reader;
use std::alloc::Global;

// Whether each scan whose answer a write changes is covered by one of its messages.
pub(crate) fn covers_all(
    alloc: Global,
    store: &RowStore,
    reader: Reader,
    items: &[Item],
) -> Result<bool, NoMemory>
    ensures { IfOk result (λ yes. yes ≡ list_all (does_cover_item store.now reader (flat_map (messages_at store.now reader) items.now) items.now) items.now) }
{
    let messages = announced(alloc, store, reader, items)?;
    covers_each(alloc, store, reader, &messages, items)
}

// The same, where these are the messages.
fn covers_each(
    alloc: Global,
    store: &RowStore,
    reader: Reader,
    messages: &[Message],
    items: &[Item],
) -> Result<bool, NoMemory>
    ensures { IfOk result (λ yes. yes ≡ list_all (does_cover_item store.now reader messages.now items.now) items.now) }
{
    for item in items {
        if !covers_item(alloc, store, reader, messages, items, item)? {
            return Ok(false);
        }
    }
    Ok(true)
}

// Whether each scan that gives a row which a change ends or adds is covered.
fn covers_item(
    alloc: Global,
    store: &RowStore,
    reader: Reader,
    messages: &[Message],
    items: &[Item],
    item: &Item,
) -> Result<bool, NoMemory>
    ensures { IfOk result (λ yes. yes ≡ does_cover_item store.now reader messages.now items.now item.now) }
{
    match item {
        Item::Add(row) => covers_row(alloc, store, reader, messages, items, row),
        Item::Put(row) => {
            if covers_ended(alloc, store, reader, messages, items, &row.key())? {
                covers_row(alloc, store, reader, messages, items, row)
            } else {
                Ok(false)
            }
        }
        Item::Remove(key) => covers_ended(alloc, store, reader, messages, items, key),
        Item::Force(_) => Ok(true),
    }
}

// Whether each scan that gives a row with this key, which the reader sees, is covered.
fn covers_ended(
    alloc: Global,
    store: &RowStore,
    reader: Reader,
    messages: &[Message],
    items: &[Item],
    key: &RowKey,
) -> Result<bool, NoMemory>
    ensures { IfOk result (λ yes. yes ≡ list_all (does_cover_row store.now reader messages.now items.now) (rows_with_key store.now key.now reader)) }
{
    for index in 0..usize::MAX {
        let Some(row) = store.row_at(key, reader, index) else {
            return Ok(true);
        };
        let covered = covers_row(alloc, store, reader, messages, items, &row)?;
        if !covered {
            return Ok(false);
        }
    }
    Err(NoMemory)
}

// Whether each scan that gives the row is covered.
fn covers_row(
    alloc: Global,
    store: &RowStore,
    reader: Reader,
    messages: &[Message],
    items: &[Item],
    row: &Row,
) -> Result<bool, NoMemory>
    ensures { IfOk result (λ yes. yes ≡ does_cover_row store.now reader messages.now items.now row.now) }
{
    let mut scans = Vec::new(alloc);
    push_scans(&mut scans, row)?;
    for scan in &scans {
        if !covers_scan(store, reader, messages, items, scan)? {
            return Ok(false);
        }
    }
    Ok(true)
}

// Whether a message covers the scan, or the write leaves its answer.
fn covers_scan(
    store: &RowStore,
    reader: Reader,
    messages: &[Message],
    items: &[Item],
    scan: &Purpose,
) -> Result<bool, NoMemory>
    ensures { IfOk result (λ yes. yes ≡ does_cover_scan store.now reader messages.now items.now scan.now) }
{
    if is_covered(messages, scan) {
        Ok(true)
    } else {
        keeps_answer(store, reader, items, scan)
    }
}

// Whether a write leaves its writer's answer of the scan.
fn keeps_answer(
    store: &RowStore,
    reader: Reader,
    items: &[Item],
    scan: &Purpose,
) -> Result<bool, NoMemory>
    ensures { IfOk result (λ yes. yes ≡ keeps_given store.now reader items.now scan.now) }
{
    let before = store.scan(scan, reader)?;
    let mut after = store.scan(scan, reader)?;
    change_rows(scan, &mut after, items)?;
    Ok(same_rows(scan, &before, &after))
}

// Appends the scans that give a row.
fn push_scans(scans: &mut Vec<Purpose>, row: &Row) -> Result<(), NoMemory>
    ensures { OnOk result (scans.new.items ≡ scans.old.items ++ scans_giving row.now) }
{
    scans.reserve(3)?;
    match row {
        Row::Class { oid, name, .. } => {
            scans.push_reserved(Purpose::RelName(*name));
            scans.push_reserved(Purpose::RelOid(*oid));
            scans.push_reserved(Purpose::Class(*oid));
        }
        Row::Att { rel, name, .. } => {
            scans.push_reserved(Purpose::AttName(*rel, *name));
            scans.push_reserved(Purpose::AttList(*rel));
            scans.push_reserved(Purpose::Attribute(*rel));
        }
        Row::Def { rel, .. } => scans.push_reserved(Purpose::AttrDef(*rel)),
        Row::Ind { index, table, .. } => {
            scans.push_reserved(Purpose::Index(*table));
            scans.push_reserved(Purpose::IndexRow(*index));
        }
        Row::Con {
            rel,
            what: ConKind::Foreign { refrel, .. },
            ..
        } => {
            scans.push_reserved(Purpose::Constraint(*rel));
            scans.push_reserved(Purpose::Constraint(*refrel));
        }
        Row::Con { rel, .. } => scans.push_reserved(Purpose::Constraint(*rel)),
        Row::Trg { rel, .. } => scans.push_reserved(Purpose::Trigger(*rel)),
    }
    Ok(())
}

// Whether one of the messages covers the scan.
fn is_covered(messages: &[Message], scan: &Purpose) -> bool
    ensures { result ≡ has_message messages.now scan.now }
{
    match covering(scan) {
        Some(wanted) => messages.iter().any(|message| message.is_same(wanted)),
        None => messages
            .iter()
            .any(|message| is_for_cache(*message, CacheId::AttName)),
    }
}

// The one message that covers the scan; none where each for the cache of columns does.
fn covering(scan: &Purpose) -> Option<Message>
    ensures { (message : Message) → does_cover scan.now message ≡ option_map_or (same_message message) result (is_of_cache AttName message) }
{
    match scan {
        Purpose::RelName(name) => {
            let key = Key::new(&[KeyPart::Name(*name)]);
            Some(message_of(CacheId::RelName, &key))
        }
        Purpose::RelOid(rel) => {
            let key = Key::new(&[KeyPart::Oid(*rel)]);
            Some(message_of(CacheId::RelOid, &key))
        }
        Purpose::AttName(rel, name) => {
            let key = Key::new(&[KeyPart::Oid(*rel), KeyPart::Name(*name)]);
            Some(message_of(CacheId::AttName, &key))
        }
        Purpose::AttList(_) => None,
        Purpose::Class(rel)
        | Purpose::Attribute(rel)
        | Purpose::AttrDef(rel)
        | Purpose::Constraint(rel)
        | Purpose::Index(rel)
        | Purpose::Trigger(rel)
        | Purpose::IndexRow(rel) => Some(Message::Rel { rel: *rel }),
    }
}

// The message for this key of a catalog cache.
fn message_of(cache: CacheId, key: &Key) -> Message
    ensures { result ≡ message_for cache key.now }
{
    Message::Cat {
        cache,
        hash: key_hash(cache, key),
    }
}

// Whether the message is for a cache.
fn is_for_cache(message: Message, cache: CacheId) -> bool
    ensures { result ≡ is_of_cache cache message }
{
    match message {
        Message::Cat { cache: own, .. } => own.number() == cache.number(),
        Message::Rel { .. } => false,
    }
}

// The rows that a scan gives after changes.
fn change_rows(scan: &Purpose, rows: &mut Vec<Row>, items: &[Item]) -> Result<(), NoMemory>
    requires { IsInOrder (goes_before scan.now) rows.old.items }
    ensures { OnOk result (rows.new.items ≡ fold (given_after scan.now) rows.old.items items.now) }
{
    for item in items {
        change_row(scan, rows, item)?;
    }
    Ok(())
}

// The rows that a scan gives after a change.
fn change_row(scan: &Purpose, rows: &mut Vec<Row>, item: &Item) -> Result<(), NoMemory>
    requires { IsInOrder (goes_before scan.now) rows.old.items }
    ensures { OnOk result (rows.new.items ≡ given_after scan.now rows.old.items item.now) }
{
    drop_ended(rows, item);
    match item {
        Item::Add(row) | Item::Put(row) => put_added(scan, rows, row),
        Item::Remove(_) | Item::Force(_) => Ok(()),
    }
}

// Drops the rows that a change ends.
fn drop_ended(rows: &mut Vec<Row>, item: &Item)
    ensures { rows.new.items ≡ filter (λ row. not (does_end_row item.now row)) rows.old.items }
{
    rows.retain(|row| !ends_row(item, row));
}

// Puts in a row that is added, if the scan asks for it.
fn put_added(scan: &Purpose, rows: &mut Vec<Row>, row: &Row) -> Result<(), NoMemory>
    requires { IsInOrder (goes_before scan.now) rows.old.items }
    ensures { OnOk result (rows.new.items ≡ with_added scan.now (Some row.now) rows.old.items) }
{
    if selects(scan, row) {
        put_in_order(scan, rows, *row)?;
    }
    Ok(())
}

// Whether a change ends the row.
fn ends_row(item: &Item, row: &Row) -> bool
    ensures { result ≡ does_end_row item.now row.now }
{
    match item {
        Item::Put(new) => row.key().is(&new.key()),
        Item::Remove(key) => row.key().is(key),
        Item::Add(_) | Item::Force(_) => false,
    }
}

// Whether two answers of a scan are equal, as far as their rows count for it.
fn same_rows(scan: &Purpose, given: &[Row], others: &[Row]) -> bool
    ensures { result ≡ rows_match (map (counts_as scan.now) given.now) (map (counts_as scan.now) others.now) }
{
    if given.len() != others.len() {
        return false;
    }
    for (at, row) in given.iter().enumerate() {
        if !same_row(&counted_for(scan, row), &counted_for(scan, &others[at])) {
            return false;
        }
    }
    true
}

// A row as it counts for a scan: a foreign key of another relation counts whether it is known to hold
// or not.
fn counted_for(scan: &Purpose, row: &Row) -> Row
    ensures { result ≡ counts_as scan.now row.now }
{
    let mut row = *row;
    if let (
        Purpose::Constraint(of),
        Row::Con {
            rel,
            valid,
            what: ConKind::Foreign { .. },
            ..
        },
    ) = (scan, &mut row)
    {
        *valid = *valid && rel.0 == of.0;
    }
    row
}
