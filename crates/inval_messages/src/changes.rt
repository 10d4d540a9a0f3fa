ghost use Rattle.std.specs.Prelude.{◌≡◌, ◌≤◌, ◌+◌, ◌++◌, vec_len, vec_capacity, OnOk, OnErr};
ghost use Rattle.std.specs.Option.{option_map};
ghost use Rattle.inval_messages.specs.Changes.{cat_for as message_at, rel_for as message_about, cats_at, rels_of, messages_of as messages_by};

use crate::Message;
use base_types::{CacheId, ConKind, Key, KeyPart, NoMemory, Row, key_hash};

// Two messages for each of three caches, and one for a relation.
const MOST_MESSAGES: usize = 7;

/// Appends the messages of a change of one row: those for the catalog caches, cache by cache, and
/// then the one for its relation, if there is one. An insertion has a new row, a deletion an old
/// one, and a replacement both (`CacheInvalidateHeapTuple` in `src/backend/utils/cache/inval.c`).
/// Out of memory, nothing is appended.
pub fn messages_of(
    old: Option<&Row>,
    new: Option<&Row>,
    out: &mut Vec<Message>,
) -> Result<(), NoMemory>
    ensures ok { OnOk result (out.new.items ≡ out.old.items ++ messages_by (option_map (λ row. row.now) old.entry) (option_map (λ row. row.now) new.entry)) }
    ensures err { OnErr result (out.new.items ≡ out.old.items) }
{
    out.reserve(MOST_MESSAGES)?;
    push_cats(CacheId::RelName, old, new, out);
    push_cats(CacheId::RelOid, old, new, out);
    push_cats(CacheId::AttName, old, new, out);
    push_rel(old, new, out);
    Ok(())
}

// Appends the messages of a change for one cache.
fn push_cats(cache: CacheId, old: Option<&Row>, new: Option<&Row>, out: &mut Vec<Message>)
    requires { vec_len out.old + 2 ≤ vec_capacity out.old }
    ensures items { out.new.items ≡ out.old.items ++ cats_at cache (option_map (λ row. row.now) old.entry) (option_map (λ row. row.now) new.entry) }
    ensures len { vec_len out.new ≤ vec_len out.old + 2 }
    ensures capacity { vec_capacity out.new ≡ vec_capacity out.old }
{
    let before = old.and_then(|row| cat_for(cache, row));
    let after = new.and_then(|row| cat_for(cache, row));
    match (before, after) {
        (None, None) => {}
        (None, Some(message)) | (Some(message), None) => out.push_reserved(message),
        (Some(message), Some(other)) => {
            out.push_reserved(message);
            if !message.is_same(other) {
                out.push_reserved(other);
            }
        }
    }
}

// Appends the message of a change for its relation, if there is one.
fn push_rel(old: Option<&Row>, new: Option<&Row>, out: &mut Vec<Message>)
    requires { vec_len out.old + 1 ≤ vec_capacity out.old }
    ensures { out.new.items ≡ out.old.items ++ rels_of (option_map (λ row. row.now) old.entry) (option_map (λ row. row.now) new.entry) }
{
    if let Some(message) = new.or(old).and_then(rel_for) {
        out.push_reserved(message);
    }
}

// The message for the row's key in a cache, if the cache is over its catalog.
fn cat_for(cache: CacheId, row: &Row) -> Option<Message>
    ensures { result ≡ message_at cache row.now }
{
    let key = match (cache, row) {
        (CacheId::RelName, Row::Class { name, .. }) => Key::new(&[KeyPart::Name(*name)]),
        (CacheId::RelOid, Row::Class { oid, .. }) => Key::new(&[KeyPart::Oid(*oid)]),
        (CacheId::AttName, Row::Att { rel, name, .. }) => {
            Key::new(&[KeyPart::Oid(*rel), KeyPart::Name(*name)])
        }
        _ => return None,
    };
    Some(Message::Cat {
        cache,
        hash: key_hash(cache, &key),
    })
}

// The message for the relation whose descriptor is built of the row, if the row alone tells it. The
// writers of other rows force one.
fn rel_for(row: &Row) -> Option<Message>
    ensures { result ≡ message_about row.now }
{
    match row {
        Row::Class { oid: rel, .. }
        | Row::Att { rel, .. }
        | Row::Ind { index: rel, .. }
        | Row::Con {
            rel,
            what: ConKind::Foreign { .. },
            ..
        } => Some(Message::Rel { rel: *rel }),
        Row::Con { .. } | Row::Def { .. } | Row::Trg { .. } => None,
    }
}
