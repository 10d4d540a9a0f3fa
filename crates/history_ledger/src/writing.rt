ghost use Rattle.std.specs.Prelude.{◌≡◌, IfOk};
ghost use Rattle.std.specs.List.{flat_map, list_any};
ghost use Rattle.std.specs.Option.{option_to_list};
ghost use Rattle.base_types.specs.RowKeys.{are_distinct_keys, same_key};
ghost use Rattle.history_model.specs.Drawn.{drawn_by};
ghost use Rattle.history_model.specs.Changing.{changed_key};
ghost use Rattle.history_model.specs.Changing.{are_from};
ghost use Rattle.history_ledger.specs.Words.{is_next_xid as has_next_xid};
ghost use Rattle.history_ledger.specs.Held.{standing_of};

use crate::ledger::Ledger;
use crate::own::Own;
use base_types::{NoMemory, RowKey, Xid};
use event_kinds::Item;
use segment_rows::drawn_oid;
use std::alloc::Global;

impl Ledger {
    ghost use Rattle.std.specs.List.{list_all};
    ghost use Rattle.segment_rows.specs.Kept.{reader_at};
    ghost use Rattle.segment_rows.specs.Words.{covers_item, messages_at};
    ghost use Rattle.history_ledger.specs.Words.{may_write_at};

    // Whether a write may follow.
    pub(crate) fn may_write(
        &self,
        own: &Own,
        b: u32,
        command: u32,
        xid: Xid,
        items: &[Item],
    ) -> Result<bool, NoMemory>
        ensures { IfOk result (λ yes. yes ≡ may_write_at self.now.rows.store self.now.locks self.now.rows.next_oid self.now.rows.last_xid b command (standing_of own.now) xid items.now) }
    {
        let keys = changed_keys(self.alloc, items)?;
        if is_next_xid(own.xid(), self.rows.last_xid(), xid)
            && draws_next(self.rows.next_oid(), items)
            && !own.is_last_write(command)
            && are_distinct(&keys)
            && self.may_change_all(own, b, items)?
        {
            self.covers_all(own, items)
        } else {
            Ok(false)
        }
    }

    // Whether each scan whose answer a write changes is covered by one of its messages.
    fn covers_all(&self, own: &Own, items: &[Item]) -> Result<bool, NoMemory>
        ensures { IfOk result (λ yes. yes ≡ list_all (covers_item self.now.rows.store (reader_at (standing_of own.now)) (flat_map (messages_at self.now.rows.store (reader_at (standing_of own.now))) items.now) items.now) items.now) }
    {
        self.rows.covers_all(own.xid(), items)
    }
}

// Whether the Xid is the transaction's own, or else the next one.
fn is_next_xid(own: Option<Xid>, last: u32, xid: Xid) -> bool
    ensures { result ≡ has_next_xid own last xid }
{
    match own {
        Some(own) => xid.0 == own.0,
        None => xid.0 as u64 == last as u64 + 1,
    }
}

// Whether the oids that changes draw are the next ones, in order.
fn draws_next(next: u64, items: &[Item]) -> bool
    ensures { result ≡ are_from next (flat_map drawn_by items.now) }
{
    let mut next = next as u128;
    for item in items {
        if let Some(oid) = drawn_oid(item) {
            if oid as u128 != next {
                return false;
            }
            next += 1;
        }
    }
    true
}

// The keys of the rows that are changed.
fn changed_keys(alloc: Global, items: &[Item]) -> Result<Vec<RowKey>, NoMemory>
    ensures { IfOk result (λ keys. keys.items ≡ flat_map changed_key items.now) }
{
    let mut keys = Vec::new(alloc);
    for item in items {
        if let Some(key) = key_of_change(item) {
            keys.push(key)?;
        }
    }
    Ok(keys)
}

// The key of the row that is changed, if one is.
fn key_of_change(item: &Item) -> Option<RowKey>
    ensures { option_to_list result ≡ changed_key item.now }
{
    match item {
        Item::Add(row) | Item::Put(row) => Some(row.key()),
        Item::Remove(key) => Some(*key),
        Item::Force(_) => None,
    }
}

// Whether no key comes twice.
fn are_distinct(keys: &[RowKey]) -> bool
    ensures { result ≡ are_distinct_keys keys.now }
{
    for (at, key) in keys.iter().enumerate() {
        if has_key(&keys[at + 1..], key) {
            return false;
        }
    }
    true
}

// Whether one of the keys is this one.
fn has_key(keys: &[RowKey], key: &RowKey) -> bool
    ensures { result ≡ list_any (same_key key.now) keys.now }
{
    keys.iter().any(|other| key.is(other))
}
