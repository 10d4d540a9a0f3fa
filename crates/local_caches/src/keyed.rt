// What a catalog cache has of a key, or of the first parts of one.

ghost use Rattle.std.specs.Prelude.{◌≡◌, ◌≤◌, None, length, OnOk, OnErr};
ghost use Rattle.std.specs.Option.{option_map};
ghost use Rattle.cat_cache.specs.Caches.{entry_of, list_of, HasSame};
ghost use Rattle.local_caches.specs.Reads.{given, read_in, read_listed};
ghost use Rattle.local_caches.specs.Keyed.{PutsKey, PutsList};
ghost use Rattle.local_caches.specs.Whole.{IsUnpinned};

use crate::given::Given;
use base_types::{Key, KeyPart, Listed, NoMemory, Row};
use cat_cache::{CatCache, Found, FoundList};

// What a key was found to have.
pub(crate) fn find_key<'a>(cache: &'a CatCache, key: &[KeyPart]) -> Option<Given<'a>>
    ensures { option_map given result ≡ option_map read_in (entry_of cache.now key.now) }
{
    match cache.peek(key) {
        Found::Row(r) => Some(Given {
            rows: std::slice::from_ref(cache.row(&r)),
            at: cache.at(&r),
        }),
        Found::Absent { at } => Some(Given { rows: &[], at }),
        Found::Unknown => None,
    }
}

// What the keys were found to have that begin with these parts.
pub(crate) fn find_list<'a>(cache: &'a CatCache, prefix: &[KeyPart]) -> Option<Given<'a>>
    ensures { option_map given result ≡ option_map read_listed (list_of cache.now prefix.now) }
{
    match cache.peek_list(prefix) {
        FoundList::List(r) => Some(Given {
            rows: cache.rows(&r),
            at: cache.at(&r),
        }),
        FoundList::Unknown => None,
    }
}

// Keeps the row that a key was found to have, or that it has none. Out of memory, nothing changes.
#[tactic(auto, using(crate::proofs::Unpinned::put_unpinned, crate::proofs::Unpinned::same_unpinned))]
pub(crate) fn put_key(
    cache: &mut CatCache,
    key: &Key,
    rows: &[Row],
    at: u64,
) -> Result<(), NoMemory>
    requires new { entry_of cache.old key.now ≡ None }
    requires one { length rows.now ≤ 1 }
    ensures ok { OnOk result (PutsKey cache.old cache.new key.now rows.now at) }
    ensures err { OnErr result (HasSame cache.old cache.new) }
    ensures pins { IsUnpinned cache.old → IsUnpinned cache.new }
{
    match rows.first() {
        Some(row) => {
            let r = cache.put_row(key, *row, at)?;
            cache.release(r);
            Ok(())
        }
        None => cache.put_absent(key, at),
    }
}

// Keeps what the keys were found to have that begin with these parts. Out of memory, nothing changes.
#[tactic(auto, using(crate::proofs::Unpinned::put_unpinned, crate::proofs::Unpinned::same_unpinned))]
pub(crate) fn put_list(
    cache: &mut CatCache,
    prefix: &Key,
    rows: Listed<Row>,
    at: u64,
) -> Result<(), NoMemory>
    requires new { list_of cache.old prefix.now ≡ None }
    ensures ok { OnOk result (PutsList cache.old cache.new prefix.now rows at) }
    ensures err { OnErr result (HasSame cache.old cache.new) }
    ensures pins { IsUnpinned cache.old → IsUnpinned cache.new }
{
    let r = cache.put_list(prefix, rows, at)?;
    cache.release(r);
    Ok(())
}
