ghost use Rattle.std.specs.Prelude.{◌≡◌, ◌≢◌, ◌≤◌, ◌∷◌, ◌&&◌, [], true, false, None, not, length, IfOk, OnOk, OnErr};
ghost use Rattle.std.specs.Option.{option_copied, option_map};
ghost use Rattle.std.specs.List.{find};
ghost use Rattle.base_types.specs.Scans.{build_scans};
ghost use Rattle.base_types.specs.Fields.{field_text, read_by};
ghost use Rattle.local_caches.specs.Homes.{home_of as home_at};
ghost use Rattle.local_caches.specs.Reads.{given};
ghost use Rattle.local_caches.specs.Whole.{is_one_of};
ghost use Rattle.local_caches.specs.declared.home.Home.TheVariants as homes;

use crate::cat_caches::CatCaches;
use crate::descriptors::Descriptors;
use crate::given::Given;
use crate::home::{Home, home_of};
use crate::parts::first_missing_of;
use base_types::{CacheId, Field, KeyPart, Kind, Listed, NoMemory, Oid, Purpose, Row};
use event_kinds::LineText;
use inval_messages::Message;
use std::alloc::Global;

/// All that a backend has cached of the catalogs: its catalog caches (`SysCache` in
/// `src/backend/utils/cache/syscache.c`) and its relation cache (`RelationIdCache` in
/// `src/backend/utils/cache/relcache.c`). Contracts see for each scan nothing, or what it gave and at which
/// entry of the history, and of each relation whether its descriptor is pinned.
pub struct LocalCaches {
    catalogs: CatCaches,
    descriptors: Descriptors,
}

// Written out, and not derived: so it is proved here, and not again wherever one is dropped.
impl Drop for LocalCaches {
    fn drop(self) {
        let LocalCaches {
            catalogs: _,
            descriptors: _,
        } = self;
    }
}

#[tactic(auto, unfolding(crate::specs::Caches::kept_of, crate::specs::Caches::is_pinned))]
impl LocalCaches {
    ghost use Rattle.local_caches.specs.Caches.{kept_of, is_pinned, KeepsPins};
    ghost use Rattle.local_caches.specs.Kept.{nothing_kept, kept_with, kept_spared, is_kept, is_keyed};

    /// Nothing is kept (`InitCatalogCache` in `src/backend/utils/cache/syscache.c`,
    /// `RelationCacheInitialize` in `src/backend/utils/cache/relcache.c`).
    pub fn new(alloc: Global) -> Result<LocalCaches, NoMemory>
        ensures kept { IfOk result (λ caches. kept_of caches ≡ nothing_kept) }
        ensures pins { IfOk result (λ caches. (rel : _) → is_pinned caches rel ≡ false) }
    {
        let catalogs = CatCaches::new(alloc)?;
        Ok(LocalCaches {
            catalogs,
            descriptors: Descriptors::new(alloc),
        })
    }

    /// Whether something is kept of the scan.
    pub fn has(&self, scan: &Purpose) -> bool
        ensures { result ≡ is_kept (kept_of self.now) scan.now }
    {
        self.find(scan).is_some()
    }

    /// The rows that are kept of a scan (`SearchCatCache` and `SearchCatCacheList` in
    /// `src/backend/utils/cache/catcache.c`, `RelationIdGetRelation` in
    /// `src/backend/utils/cache/relcache.c`). `None`: exactly where nothing is kept of it.
    pub fn rows(&self, scan: &Purpose) -> Option<&[Row]>
        ensures { option_copied result ≡ option_map (λ read. read.rows) (kept_of self.now scan.now) }
    {
        match self.find(scan) {
            Some(found) => Some(found.rows),
            None => None,
        }
    }

    /// The number of the entry of the history at which a scan was made that is kept, from 1. `None`: exactly
    /// where nothing is kept of it.
    pub fn at(&self, scan: &Purpose) -> Option<u64>
        ensures { result ≡ option_map (λ read. read.at) (kept_of self.now scan.now) }
    {
        match self.find(scan) {
            Some(found) => Some(found.at),
            None => None,
        }
    }

    /// The text of a field of a relation, of the rows that the scan which reads it gave. `None`: exactly
    /// where nothing is kept of that scan. It takes no memory.
    pub fn value(&self, rel: Oid, field: Field) -> Option<&LineText>
        ensures { option_copied result ≡ option_map (λ read. field_text field rel read.rows) (kept_of self.now (read_by field rel)) }
    {
        self.descriptors.value(rel, field)
    }

    // What is kept of a scan, at its home. The parts of its key are passed as they are: to build a whole key
    // would take longer than to look it up.
    fn find(&self, scan: &Purpose) -> Option<Given<'_>>
        ensures { option_map given result ≡ kept_of self.now scan.now }
    {
        let catalogs = &self.catalogs;
        match scan {
            Purpose::RelName(name) => {
                catalogs.find_key(CacheId::RelName, &[KeyPart::Name(*name)])
            }
            Purpose::RelOid(rel) => catalogs.find_key(CacheId::RelOid, &[KeyPart::Oid(*rel)]),
            Purpose::AttName(rel, name) => {
                catalogs.find_key(
                    CacheId::AttName,
                    &[KeyPart::Oid(*rel), KeyPart::Name(*name)],
                )
            }
            Purpose::AttList(rel) => catalogs.find_list(&[KeyPart::Oid(*rel)]),
            Purpose::Class(rel)
            | Purpose::Attribute(rel)
            | Purpose::AttrDef(rel)
            | Purpose::Constraint(rel)
            | Purpose::Index(rel)
            | Purpose::Trigger(rel)
            | Purpose::IndexRow(rel) => self.descriptors.find(*rel, scan),
        }
    }

    /// The first scan of a relation's descriptor of which nothing is kept.
    pub fn first_missing(&self, kind: Kind, rel: Oid) -> Option<Purpose>
        ensures { result ≡ find (λ scan. not (is_kept (kept_of self.now) scan)) (build_scans kind rel) }
    {
        first_missing_of(self.descriptors.parts(rel), kind, rel)
    }

    /// Keeps what a scan gave at an entry of the history (`CatalogCacheCreateEntry` in
    /// `src/backend/utils/cache/catcache.c`, `RelationBuildDesc` in `src/backend/utils/cache/relcache.c`).
    /// Out of memory, nothing changes. Conditions: nothing is kept of the scan, and a scan for the row of a
    /// key gave one at most.
    pub fn put(&mut self, scan: &Purpose, rows: Vec<Row>, at: u64) -> Result<(), NoMemory>
        requires new { kept_of self.old scan.now ≡ None }
        requires one { is_keyed scan.now ≡ true → length rows.items ≤ 1 }
        ensures ok { OnOk result (kept_of self.new ≡ kept_with scan.now rows.items at (kept_of self.old)) }
        ensures err { OnErr result (kept_of self.new ≡ kept_of self.old) }
        ensures pins { KeepsPins self.old self.new }
    {
        let rows = Listed::from_vec(rows);
        match home_of(scan) {
            Home::Cat(lookup) => self.catalogs.put(&lookup, rows, at),
            Home::Rel(rel) => {
                let part = self.descriptors.part(rel, scan, rows, at)?;
                self.descriptors.put(rel, part)
            }
        }
    }

    /// Executes messages: of the scans that they cover nothing is kept any more
    /// (`LocalExecuteInvalidationMessage` in `src/backend/utils/cache/inval.c`).
    pub fn execute(&mut self, messages: &[Message])
        ensures kept { kept_of self.new ≡ kept_spared messages.now (kept_of self.old) }
        ensures pins { KeepsPins self.old self.new }
    {
        for message in messages {
            self.execute_one(*message);
        }
    }

    // The same for one message.
    fn execute_one(&mut self, message: Message)
        ensures kept { kept_of self.new ≡ kept_spared (message ∷ []) (kept_of self.old) }
        ensures pins { KeepsPins self.old self.new }
    {
        match message {
            Message::Cat { cache, hash } => self.catalogs.execute(cache, hash),
            Message::Rel { rel } => self.descriptors.execute(rel),
        }
    }

    /// A reset, after which nobody knows what has changed: nothing is kept any more
    /// (`InvalidateSystemCaches` in `src/backend/utils/cache/inval.c`).
    pub fn reset(&mut self)
        ensures kept { kept_of self.new ≡ nothing_kept }
        ensures pins { KeepsPins self.old self.new }
    {
        self.catalogs.reset();
        self.descriptors.reset();
    }

    /// Pins the descriptor of a relation, if there is one (`RelationIncrementReferenceCount` in
    /// `src/backend/utils/cache/relcache.c`): until it is let go, a message or a reset marks it to be built
    /// anew and leaves it in its place. There is one where something is kept of a scan of it, and what is kept is
    /// the same with a pin and without. One that is pinned isn't pinned again. Out of memory, nothing changes.
    pub fn pin(&mut self, rel: Oid) -> Result<(), NoMemory>
        ensures kept { kept_of self.new ≡ kept_of self.old }
        ensures pinned { OnOk result ((scan : _) → home_at scan ≡ homes.Rel rel → is_kept (kept_of self.old) scan ≡ true → is_pinned self.new rel ≡ true) }
        ensures others { (other : _) → other ≢ rel → is_pinned self.new other ≡ is_pinned self.old other }
        ensures err { OnErr result (KeepsPins self.old self.new) }
    {
        self.descriptors.pin(rel)
    }

    /// Lets go of all descriptors that are pinned but those of these relations
    /// (`RelationDecrementReferenceCount` in `src/backend/utils/cache/relcache.c`). They stay, also without pins.
    pub fn unpin_others(&mut self, kept: &[Oid])
        ensures kept { kept_of self.new ≡ kept_of self.old }
        ensures pins { (rel : _) → is_pinned self.new rel ≡ (is_one_of rel kept.now && is_pinned self.old rel) }
    {
        self.descriptors.unpin_others(kept);
    }
}
