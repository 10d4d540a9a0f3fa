ghost use Rattle.std.specs.Prelude.{◌≡◌, ◌++◌, true, take, OnOk, OnErr, IfOk};
ghost use Rattle.std.specs.List.{flat_map, list_any};
ghost use Rattle.history_model.specs.Held.{granted_by, held_by};
ghost use Rattle.history_model.specs.Messages.{log_after};
ghost use Rattle.segment_rows.specs.Kept.{reader_of};
ghost use Rattle.history_ledger.specs.Held.{standing_of};
ghost use Rattle.history_ledger.specs.Words.{messages_from, makes_relation, grants_lock, is_write, is_publish, PublishesUnsent, IsCounted};

use crate::own::Own;
use base_types::{Mode, NoMemory, Row, Xid};
use event_kinds::{Event, Item};
use inval_messages::Message;
use lock_modes::{Grant, GrantTable};
use segment_rows::SegmentRows;
use std::alloc::Global;

// The locks after what a backend did in its command of this number.
pub(crate) fn enter_locks(
    locks: &mut GrantTable,
    b: u32,
    c: u32,
    event: &Event,
) -> Result<(), NoMemory>
    ensures ok { OnOk result (locks.new ≡ held_by b c event.now locks.old) }
    ensures only { OnErr result (grants_lock event.now ≡ true) }
{
    match event {
        Event::LockOk { rel, mode } => locks.grant(Grant {
            backend: b,
            command: c,
            rel: *rel,
            mode: *mode,
        }),
        Event::Unlock { rel, mode } => {
            locks.unlock(b, *rel, *mode);
            Ok(())
        }
        Event::Write { items, .. } => grant_new(locks, b, c, items.as_slice()),
        Event::Release { from } => {
            locks.release(b, *from);
            Ok(())
        }
        _ => Ok(()),
    }
}

// Grants the relations that a write makes.
fn grant_new(locks: &mut GrantTable, b: u32, c: u32, items: &[Item]) -> Result<(), NoMemory>
    ensures ok { OnOk result (locks.new ≡ locks.old ++ flat_map (granted_by b c) items.now) }
    ensures only { OnErr result (list_any makes_relation items.now ≡ true) }
{
    for item in items {
        if let Item::Add(Row::Class { oid, .. }) = item {
            locks.grant(Grant {
                backend: b,
                command: c,
                rel: *oid,
                mode: Mode::AccessExclusive,
            })?;
        }
    }
    Ok(())
}

// The log after what a backend did: a publish is of messages that are unsent, so what is published then can be counted.
pub(crate) fn enter_log(log: &mut Vec<Message>, own: &Own, event: &Event) -> Result<(), NoMemory>
    requires { PublishesUnsent (standing_of own.now) event.now }
    ensures log { OnOk result (log.new.items ≡ log_after (standing_of own.now) event.now log.old.items) }
    ensures counted { OnOk result (IsCounted event.now (standing_of own.now).running) }
    ensures only { OnErr result (is_publish event.now ≡ true) }
{
    match event {
        Event::Publish { count } => {
            log.extend_from_slice(first_of(own.unsent(), *count))?;
            Ok(())
        }
        _ => Ok(()),
    }
}

// The first of these messages, so many if there are so many.
pub(crate) fn first_of(messages: &[Message], count: u32) -> &[Message]
    ensures { result.now ≡ take count messages.now }
{
    match messages.get(..count as usize) {
        Some(first) => first,
        None => messages,
    }
}

// The messages of what a backend does, none but of a write.
pub(crate) fn messages_sent(
    alloc: Global,
    rows: &SegmentRows,
    own: Option<Xid>,
    event: &Event,
) -> Result<Vec<Message>, NoMemory>
    ensures ok { IfOk result (λ messages. messages.items ≡ messages_from rows.now.store (reader_of own) event.now) }
    ensures only { OnErr result (is_write event.now ≡ true) }
{
    match event {
        Event::Write { items, .. } => rows.announced(own, items.as_slice()),
        _ => Ok(Vec::new(alloc)),
    }
}
