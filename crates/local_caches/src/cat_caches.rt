ghost use Rattle.std.specs.Prelude.{◌≡◌, ◌≤◌, true, None, cond, length, IfOk, OnOk, OnErr};
ghost use Rattle.std.specs.Option.{option_map};
ghost use Rattle.inval_messages.specs.declared.message.Message.TheVariants as messages;
ghost use Rattle.local_caches.specs.Homes.{is_whole_key, covers_lookup};
ghost use Rattle.local_caches.specs.Reads.{given};
ghost use Rattle.local_caches.specs.Whole.{AreOfTheirs, AreUnpinned};

use crate::given::Given;
use crate::home::Lookup;
use crate::keyed::{find_key, find_list, put_key, put_list};
use base_types::{CacheId, KeyPart, Listed, NoMemory, Row};
use cat_cache::CatCache;
use std::alloc::Global;

// The catalog caches of a backend (`SysCache` in `src/backend/utils/cache/syscache.c`).
#[derive(Drop)]
pub(crate) struct CatCaches {
    names: CatCache,
    oids: CatCache,
    columns: CatCache,
    // each is of its catalog,
    ghost theirs: { AreOfTheirs names oids columns },
    // and what was put there isn't pinned any more
    ghost pins: { AreUnpinned names oids columns },
}

#[tactic(auto, unfolding(crate::specs::CatCaches::looked_up), using(crate::proofs::Unpinned::nothing_pinned, crate::proofs::Unpinned::gone_unpinned))]
impl CatCaches {
    ghost use Rattle.local_caches.specs.CatCaches.{cache_of, looked_up, PutsLookup, HasAll};
    ghost use Rattle.local_caches.specs.declared.home.Lookup.TheVariants as lookups;

    // Nothing is kept.
    pub(crate) fn new(alloc: Global) -> Result<CatCaches, NoMemory>
        ensures { IfOk result (λ caches. (lookup : _) → looked_up caches lookup ≡ None) }
    {
        let names = CatCache::new(alloc, CacheId::RelName)?;
        let oids = CatCache::new(alloc, CacheId::RelOid)?;
        let columns = CatCache::new(alloc, CacheId::AttName)?;
        Ok(CatCaches {
            names,
            oids,
            columns,
        })
    }

    // What is kept of the key of these parts.
    pub(crate) fn find_key(&self, id: CacheId, key: &[KeyPart]) -> Option<Given<'_>>
        ensures { option_map given result ≡ looked_up self.now (lookups.Key id key.now) }
    {
        find_key(self.cache(id), key)
    }

    // What is kept of the keys that begin with these parts.
    pub(crate) fn find_list(&self, prefix: &[KeyPart]) -> Option<Given<'_>>
        ensures { option_map given result ≡ looked_up self.now (lookups.List prefix.now) }
    {
        find_list(&self.columns, prefix)
    }

    // The cache of a catalog.
    fn cache(&self, id: CacheId) -> &CatCache
        ensures { result.now ≡ cache_of self.now id }
    {
        match id {
            CacheId::RelName => &self.names,
            CacheId::RelOid => &self.oids,
            CacheId::AttName => &self.columns,
        }
    }

    // Keeps what a scan gave. Out of memory, nothing changes.
    pub(crate) fn put(
        &mut self,
        lookup: &Lookup,
        rows: Listed<Row>,
        at: u64,
    ) -> Result<(), NoMemory>
        requires new { looked_up self.old lookup.now ≡ None }
        requires one { is_whole_key lookup.now ≡ true → length rows ≤ 1 }
        ensures ok { OnOk result (PutsLookup self.old self.new lookup.now rows at) }
        ensures err { OnErr result (HasAll self.old self.new) }
    {
        match lookup {
            Lookup::Key(CacheId::RelName, key) => {
                put_key(&mut self.names, key, rows.as_slice(), at)
            }
            Lookup::Key(CacheId::RelOid, key) => put_key(&mut self.oids, key, rows.as_slice(), at),
            Lookup::Key(CacheId::AttName, key) => {
                put_key(&mut self.columns, key, rows.as_slice(), at)
            }
            Lookup::List(prefix) => put_list(&mut self.columns, prefix, rows, at),
        }
    }

    // Executes a message for a cache and a hash (`CatCacheInvalidate` in
    // `src/backend/utils/cache/catcache.c`).
    pub(crate) fn execute(&mut self, cache: CacheId, hash: u32)
        ensures { (lookup : _) → looked_up self.new lookup ≡ cond (covers_lookup (messages.Cat cache hash) lookup) None (looked_up self.old lookup) }
    {
        match cache {
            CacheId::RelName => self.names.invalidate(hash),
            CacheId::RelOid => self.oids.invalidate(hash),
            CacheId::AttName => self.columns.invalidate(hash),
        }
    }

    // Takes everything out (`ResetCatalogCaches` in `src/backend/utils/cache/catcache.c`).
    pub(crate) fn reset(&mut self)
        ensures { (lookup : _) → looked_up self.new lookup ≡ None }
    {
        self.names.reset();
        self.oids.reset();
        self.columns.reset();
    }
}
