use crate::values::name;
use base_types::{CacheId, Key, KeyPart, Kind, Listed, Name, NoMemory, Oid, Row, key_hash};
use cat_cache::{CatCache, Found, FoundList};
use std::alloc::Global;

// A name, the hash of a message, and what is found of the name after it; two names have one hash.
const NAMES: &[(&[u8], u32, &str)] = &[
    (b"an", 4078, "unknown"),
    (b"c0", 4078, "unknown"),
    (b"an", 4079, "absent"),
];

fn found(found: Found) -> &'static str {
    match found {
        Found::Row(_) => "row",
        Found::Absent { .. } => "absent",
        Found::Unknown => "unknown",
    }
}

fn found_list(found: FoundList) -> &'static str {
    match found {
        FoundList::List(_) => "list",
        FoundList::Unknown => "unknown",
    }
}

fn row(name: Name) -> Row {
    Row::Class {
        oid: Oid(16384),
        name,
        kind: Kind::Table,
        fill: None,
    }
}

// What is found of a name that had no row: before that is noted, after it, and after a message with this hash.
fn absent(alloc: Global, name: Name, hash: u32) -> [&'static str; 3] {
    let Ok(mut cache) = CatCache::new(alloc, CacheId::RelName) else {
        return ["no memory"; 3];
    };
    let key = Key::new(&[KeyPart::Name(name)]);
    let before = found(cache.find(&key));
    let Ok(()) = cache.put_absent(&key, 4) else {
        return ["no memory"; 3];
    };
    let after = found(cache.find(&key));
    cache.invalidate(hash);
    [before, after, found(cache.find(&key))]
}

// What is found of a name that had a row: before that is noted, after it, and after a message with its hash.
fn present(alloc: Global, name: Name) -> [&'static str; 3] {
    let Ok(mut cache) = CatCache::new(alloc, CacheId::RelName) else {
        return ["no memory"; 3];
    };
    let key = Key::new(&[KeyPart::Name(name)]);
    let before = found(cache.find(&key));
    let Ok(_) = cache.put_row(&key, row(name), 4) else {
        return ["no memory"; 3];
    };
    let after = found(cache.find(&key));
    cache.reset();
    [before, after, found(cache.find(&key))]
}

// Whether a row is shown that is in use as a message takes it out, and at which entry it was read.
fn in_use(alloc: Global, name: Name) -> (bool, u64) {
    let Ok(mut cache) = CatCache::new(alloc, CacheId::RelName) else {
        return (false, 0);
    };
    let key = Key::new(&[KeyPart::Name(name)]);
    let Ok(r) = cache.put_row(&key, row(name), 4) else {
        return (false, 0);
    };
    cache.invalidate(key_hash(CacheId::RelName, &key));
    let there = matches!(cache.row(&r), Row::Class { .. });
    let at = cache.at(&r);
    cache.release(r);
    (there, at)
}

// What is found of a list of columns: before it is noted, after it, and after a message with this hash.
fn listed(alloc: Global, rel: Oid, hash: u32) -> [&'static str; 3] {
    let Ok(mut cache) = CatCache::new(alloc, CacheId::AttName) else {
        return ["no memory"; 3];
    };
    let prefix = Key::new(&[KeyPart::Oid(rel)]);
    let before = found_list(cache.find_list(&prefix));
    let Ok(_) = cache.put_list(&prefix, Listed::new(alloc), 4) else {
        return ["no memory"; 3];
    };
    let after = found_list(cache.find_list(&prefix));
    cache.invalidate(hash);
    [before, after, found_list(cache.find_list(&prefix))]
}

#[test]
fn what_was_read_is_found_until_a_message_takes_it_out(rt: HostRuntime) {
    for (text, hash, left) in NAMES {
        assert!(rt; absent(rt.alloc(), name(text), *hash) == ["unknown", "absent", *left]);
    }
    assert!(rt; present(rt.alloc(), name(b"an")) == ["unknown", "row", "unknown"]);
    assert!(rt; listed(rt.alloc(), Oid(16384), 0) == ["unknown", "list", "unknown"]);
    assert!(rt; in_use(rt.alloc(), name(b"an")) == (true, 4));
}

// A cache in which so many oids have no row.
fn absent_oids(alloc: Global, oids: u32) -> Result<CatCache, NoMemory> {
    let mut cache = CatCache::new(alloc, CacheId::RelOid)?;
    for i in 0..oids {
        let key = Key::new(&[KeyPart::Oid(Oid(16384u32.wrapping_add(i)))]);
        if let Found::Unknown = cache.peek(key.as_slice()) {
            cache.put_absent(&key, 1)?;
        }
    }
    Ok(cache)
}

// A cache in which so many oids have a row.
fn present_oids(alloc: Global, oids: u32) -> Result<CatCache, NoMemory> {
    let mut cache = CatCache::new(alloc, CacheId::RelOid)?;
    for i in 0..oids {
        let key = Key::new(&[KeyPart::Oid(Oid(16384u32.wrapping_add(i)))]);
        if let Found::Unknown = cache.peek(key.as_slice()) {
            let _ = cache.put_row(&key, row(numbered(i)), 1)?;
        }
    }
    Ok(cache)
}

// A cache in which so many names have no row: `t00000`, `t00001` and so on.
fn absent_names(alloc: Global, names: u32) -> Result<CatCache, NoMemory> {
    let mut cache = CatCache::new(alloc, CacheId::RelName)?;
    for i in 0..names {
        let key = Key::new(&[KeyPart::Name(numbered(i))]);
        if let Found::Unknown = cache.peek(key.as_slice()) {
            cache.put_absent(&key, 1)?;
        }
    }
    Ok(cache)
}

fn numbered(i: u32) -> Name {
    name(&[
        b't',
        digit(i / 10000),
        digit(i / 1000),
        digit(i / 100),
        digit(i / 10),
        digit(i),
    ])
}

fn digit(n: u32) -> u8 {
    b'0' + (n % 10) as u8
}

// How many hashes stand in a cache's chains together, and in the longest.
fn chained(cache: &CatCache) -> (usize, usize) {
    let mut hashes = 0usize;
    let mut longest = 0usize;
    for bucket in 0..cache.buckets() {
        let chain = cache.chain(bucket).len();
        hashes = hashes.saturating_add(chain);
        longest = longest.max(chain);
    }
    (hashes, longest)
}

// How many buckets a cache has, and how many hashes stand in them together.
fn in_buckets(cache: &CatCache) -> (u32, usize) {
    (cache.buckets(), chained(cache).0)
}

// The same of a cache in which so many oids have no row, and of one in which so many have one.
fn buckets(alloc: Global, oids: u32) -> Result<((u32, usize), (u32, usize)), NoMemory> {
    let absent = in_buckets(&absent_oids(alloc, oids)?);
    let present = in_buckets(&present_oids(alloc, oids)?);
    Ok((absent, present))
}

#[test]
fn buckets_double_where_one_entry_more_would_leave_more_than_two_for_each(rt: HostRuntime) {
    let alloc = rt.alloc();
    assert!(rt; matches!(buckets(alloc, 16), Ok(((8, 16), (8, 16)))));
    assert!(rt; matches!(buckets(alloc, 17), Ok(((16, 17), (16, 17)))));
    assert!(rt; matches!(buckets(alloc, 33), Ok(((32, 33), (32, 33)))));
}

// How many hashes stand in the bucket of this hash once two absent names that have it are kept, and after its message.
fn chains_after(alloc: Global, hash: u32) -> Result<(usize, usize), NoMemory> {
    let mut cache = CatCache::new(alloc, CacheId::RelName)?;
    for text in [b"an", b"c0"] {
        let key = Key::new(&[KeyPart::Name(name(text))]);
        if let Found::Unknown = cache.peek(key.as_slice()) {
            cache.put_absent(&key, 1)?;
        }
    }
    let Some(bucket) = hash.checked_rem(cache.buckets()) else {
        return Ok((0, 0));
    };
    let before = cache.chain(bucket).len();
    cache.invalidate(hash);
    Ok((before, cache.chain(bucket).len()))
}

#[test]
fn two_names_of_one_hash_stand_in_one_chain_and_go_together(rt: HostRuntime) {
    assert!(rt; matches!(chains_after(rt.alloc(), 4078), Ok((2, 0))));
}

// A number of entries, and how many hashes a lookup passes over at most, among oids and among names: worked out apart from the
// program, by the hash alone.
const LONGEST: &[(u32, usize, usize)] = &[(10, 2, 2), (1000, 4, 5), (20000, 9, 7)];

// The longest chain, of so many oids and of so many names.
fn longest(alloc: Global, entries: u32) -> Result<(usize, usize), NoMemory> {
    let oids = chained(&absent_oids(alloc, entries)?);
    let names = chained(&absent_names(alloc, entries)?);
    Ok((oids.1, names.1))
}

#[test]
fn a_lookup_passes_over_few_hashes_however_many_entries_there_are(rt: HostRuntime) {
    for (entries, oids, names) in LONGEST {
        assert!(rt; matches!(longest(rt.alloc(), *entries), Ok(found) if found == (*oids, *names)));
    }
}
