ghost use Rattle.std.specs.Prelude.{◌≡◌};
ghost use Rattle.base_types.specs.CacheKeys.{part_bytes, hash_byte as hash_after, hash_bytes as hash_after_all, key_hash as hash_of};

use crate::{CacheId, Key, KeyPart};

/// The hash of a key in a cache: from the cache's number on, 31 times the hash plus the next byte,
/// modulo 2^32. (The server has hashes of its own, `CatalogCacheComputeHashValue` in
/// `src/backend/utils/cache/catcache.c`.)
pub fn key_hash(cache: CacheId, key: &Key) -> u32
    ensures { result ≡ hash_of cache key.now }
{
    let mut hash = cache.number();
    for part in key.as_slice() {
        hash = hash_part(hash, part);
    }
    hash
}

fn hash_part(hash: u32, part: &KeyPart) -> u32
    ensures { result ≡ hash_after_all hash (part_bytes part.now) }
{
    match part {
        KeyPart::Oid(oid) => hash_bytes(hash, &oid.0.to_be_bytes()),
        KeyPart::Name(name) => hash_bytes(hash, name.as_bytes()),
    }
}

fn hash_bytes(hash: u32, bytes: &[u8]) -> u32
    ensures { result ≡ hash_after_all hash bytes.now }
{
    bytes
        .iter()
        .fold(hash, |so_far, byte| hash_byte(so_far, *byte))
}

fn hash_byte(hash: u32, byte: u8) -> u32
    ensures { result ≡ hash_after hash byte }
{
    ((u64::from(hash) * 31 + u64::from(byte)) % (1 << 32)) as u32
}
