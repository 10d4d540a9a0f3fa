ghost use Rattle.std.specs.Prelude.{◌≤◌, length, IfSome};

use crate::values::name;
use base_types::{CacheId, ColType, Field, Kind, Oid, Purpose, Row};
use inval_messages::Message;
use local_caches::LocalCaches;
use std::alloc::Global;

const REL: Oid = Oid(16384);

const OTHER: Oid = Oid(16385);

// A message for the relation.
const OF_REL: Message = Message::Rel { rel: REL };

// A name, the cache and the hash of a message, and at which entry a scan for the name is kept after it, or 0; two names
// have one hash.
const NAMES: &[(&[u8], CacheId, u32, u64)] = &[
    (b"an", CacheId::RelName, 4078, 0),
    (b"c0", CacheId::RelName, 4078, 0),
    (b"an", CacheId::RelName, 4079, 4),
    (b"an", CacheId::RelOid, 4078, 4),
];

// The same of a column of the relation.
const COLUMN: &[(CacheId, u32, u64)] = &[
    (CacheId::RelName, 85949054, 4),
    (CacheId::AttName, 85949054, 0),
];

// The texts of a table's fields where its own row and its columns are kept; the empty text stands for none.
const TEXTS: &[(Field, &[u8])] = &[
    (Field::Name, b"an"),
    (Field::Fillfactor, b"-"),
    (Field::Columns, b"a:int4"),
    (Field::Statistics, b"1:-1"),
    (Field::Triggers, b""),
];

// A message for all columns of a cache, or for the hash 0.
fn any_of(cache: CacheId) -> Message {
    Message::Cat { cache, hash: 0 }
}

// At which entry a scan is kept before it is put, after it, and after a message, or 0; it gave nothing at entry 4.
fn left(alloc: Global, scan: Purpose, message: Message) -> [u64; 3] {
    let Ok(mut caches) = LocalCaches::new(alloc) else {
        return [9; 3];
    };
    let before = caches.at(&scan).unwrap_or(0);
    let Ok(()) = caches.put(&scan, Vec::new(alloc), 4) else {
        return [9; 3];
    };
    let after = caches.at(&scan).unwrap_or(0);
    caches.execute(&[message]);
    [before, after, caches.at(&scan).unwrap_or(0)]
}

// The row that a scan gave.
fn one_row(alloc: Global) -> Option<Vec<Row>>
    ensures { IfSome result (λ rows. length rows.items ≤ 1) }
{
    let row = Row::Class {
        oid: REL,
        name: name(b"an"),
        kind: Kind::Table,
        fill: None,
    };
    Vec::from_slice(alloc, &[row]).ok()
}

// How many rows are kept of a scan that gave one, after it and after a reset. (Rattle cannot prove a function that has
// both a row and caches of rows, so one makes it and another one puts it there.)
fn row_counts(alloc: Global, scan: Purpose) -> [usize; 2] {
    match one_row(alloc) {
        Some(rows) => row_counts_of(alloc, scan, rows),
        None => [9; 2],
    }
}

// The same of a scan that gave these rows; its descriptor is pinned meanwhile, if there is one.
fn row_counts_of(alloc: Global, scan: Purpose, rows: Vec<Row>) -> [usize; 2]
    requires { length rows.items ≤ 1 }
{
    let Ok(mut caches) = LocalCaches::new(alloc) else {
        return [9; 2];
    };
    let Ok(()) = caches.put(&scan, rows, 4) else {
        return [9; 2];
    };
    let Ok(()) = caches.pin(REL) else {
        return [9; 2];
    };
    let after = count(&caches, &scan);
    caches.reset();
    caches.unpin_others(&[]);
    [after, count(&caches, &scan)]
}

fn count(caches: &LocalCaches, scan: &Purpose) -> usize {
    match caches.rows(scan) {
        Some(rows) => rows.len(),
        None => 0,
    }
}

// Whether the columns are what a table's descriptor lacks first once its own row is read, and an index's its row.
fn missing(alloc: Global) -> [bool; 2] {
    let Ok(mut caches) = LocalCaches::new(alloc) else {
        return [false; 2];
    };
    let Ok(()) = caches.put(&Purpose::Class(REL), Vec::new(alloc), 4) else {
        return [false; 2];
    };
    [
        matches!(
            caches.first_missing(Kind::Table, REL),
            Some(Purpose::Attribute(_))
        ),
        matches!(
            caches.first_missing(Kind::Index, REL),
            Some(Purpose::IndexRow(_))
        ),
    ]
}

// A pinned descriptor that a message covers: whether its scans are gone, whether one that is put then is kept, and
// whether the old one is back (it isn't).
fn built_anew(alloc: Global) -> [bool; 3] {
    let Ok(mut caches) = LocalCaches::new(alloc) else {
        return [false; 3];
    };
    let Ok(()) = caches.put(&Purpose::Attribute(REL), Vec::new(alloc), 4) else {
        return [false; 3];
    };
    let Ok(()) = caches.pin(REL) else {
        return [false; 3];
    };
    caches.execute(&[OF_REL]);
    let gone = !caches.has(&Purpose::Class(REL)) && !caches.has(&Purpose::Attribute(REL));
    let anew = put_again(&mut caches, alloc);
    [gone, anew, caches.has(&Purpose::Attribute(REL))]
}

// Whether a relation's own row is kept once it is put.
fn put_again(caches: &mut LocalCaches, alloc: Global) -> bool {
    let scan = Purpose::Class(REL);
    if caches.at(&scan).is_some() {
        return false;
    }
    caches.put(&scan, Vec::new(alloc), 9).is_ok() && caches.at(&scan) == Some(9)
}

// The row of a column.
fn one_column(alloc: Global) -> Option<Vec<Row>>
    ensures { IfSome result (λ rows. length rows.items ≤ 1) }
{
    let row = Row::Att {
        rel: REL,
        num: 1,
        name: name(b"a"),
        col_type: ColType::Int4,
        stat: -1,
        live: true,
    };
    Vec::from_slice(alloc, &[row]).ok()
}

// Whether fields have their texts once a table's own row and its columns are kept, and whether they have none of another
// relation, and after a message.
fn kept_texts(alloc: Global) -> [bool; 3] {
    let Some(mut caches) = with_texts(alloc) else {
        return [false; 3];
    };
    let there = has_texts(&caches);
    let others = has_none(&caches, OTHER);
    caches.execute(&[OF_REL]);
    [there, others, has_none(&caches, REL)]
}

// The caches with a table's own row and its columns.
fn with_texts(alloc: Global) -> Option<LocalCaches> {
    let mut caches = LocalCaches::new(alloc).ok()?;
    if let Some(rows) = one_row(alloc) {
        put_rows(&mut caches, Purpose::Class(REL), rows);
    }
    if let Some(rows) = one_column(alloc) {
        put_rows(&mut caches, Purpose::Attribute(REL), rows);
    }
    Some(caches)
}

// Keeps what a scan gave.
fn put_rows(caches: &mut LocalCaches, scan: Purpose, rows: Vec<Row>)
    requires { length rows.items ≤ 1 }
{
    if !caches.has(&scan) {
        let _ = caches.put(&scan, rows, 4);
    }
}

// Whether each field has its text.
fn has_texts(caches: &LocalCaches) -> bool {
    for &(field, text) in TEXTS {
        let found: &[u8] = match caches.value(REL, field) {
            Some(value) => value.as_bytes(),
            None => b"",
        };
        if found != text {
            return false;
        }
    }
    true
}

// Whether no field of a relation has a text.
fn has_none(caches: &LocalCaches, rel: Oid) -> bool {
    for &(field, _) in TEXTS {
        if caches.value(rel, field).is_some() {
            return false;
        }
    }
    true
}

#[test]
fn a_message_takes_out_what_it_covers(rt: HostRuntime) {
    for &(text, cache, hash, there) in NAMES {
        let by_name = Purpose::RelName(name(text));
        let left = left(rt.alloc(), by_name, Message::Cat { cache, hash });
        assert!(rt; left == [0, 4, there]);
    }
    for &(cache, hash, there) in COLUMN {
        let by_column = Purpose::AttName(REL, name(b"a"));
        let left = left(rt.alloc(), by_column, Message::Cat { cache, hash });
        assert!(rt; left == [0, 4, there]);
    }
    for (scan, message, there) in [
        (Purpose::AttList(REL), any_of(CacheId::AttName), 0),
        (Purpose::AttList(REL), any_of(CacheId::RelName), 4),
        (Purpose::Class(REL), any_of(CacheId::RelOid), 4),
        (Purpose::Class(REL), OF_REL, 0),
        (Purpose::Trigger(REL), OF_REL, 0),
        (Purpose::IndexRow(REL), Message::Rel { rel: OTHER }, 4),
        (Purpose::RelOid(REL), OF_REL, 4),
        (Purpose::RelName(name(b"an")), OF_REL, 4),
    ] {
        assert!(rt; left(rt.alloc(), scan, message) == [0, 4, there]);
    }
}

#[test]
fn what_scans_gave_is_kept_until_a_reset(rt: HostRuntime) {
    assert!(rt; row_counts(rt.alloc(), Purpose::RelName(name(b"an"))) == [1, 0]);
    assert!(rt; row_counts(rt.alloc(), Purpose::RelOid(REL)) == [1, 0]);
    assert!(rt; row_counts(rt.alloc(), Purpose::AttList(REL)) == [1, 0]);
    assert!(rt; row_counts(rt.alloc(), Purpose::Class(REL)) == [1, 0]);
}

#[test]
fn descriptors_are_built_scan_by_scan_and_have_texts(rt: HostRuntime) {
    assert!(rt; missing(rt.alloc()) == [true, true]);
    assert!(rt; built_anew(rt.alloc()) == [true, true, false]);
    assert!(rt; kept_texts(rt.alloc()) == [true, true, true]);
}
