ghost use Rattle.std.specs.Prelude.{◌≡◌, ◌≢◌, ◌<◌, ◌+◌, ◌++◌, [], true, Some, cond, take, drop, slice_get, IfOk, OnOk, OnErr};
ghost use Rattle.std.specs.Option.{option_copied, option_map};
ghost use Rattle.base_types.specs.Scans.{same_oid};
ghost use Rattle.base_types.specs.Fields.{field_text, read_by as scan_for};
ghost use Rattle.local_caches.specs.declared.home.Home.TheVariants as homes;
ghost use Rattle.local_caches.specs.Homes.{home_of};
ghost use Rattle.local_caches.specs.Reads.{given};
ghost use Rattle.local_caches.specs.Parts.{part_kept, IsPartOf};
ghost use Rattle.local_caches.specs.Whole.{ArePinned, is_one_of};

use crate::given::Given;
use crate::part::Part;
use crate::parts::{part_made, part_of, put_part};
use base_types::{Field, Listed, NoMemory, Oid, Purpose, Row, read_by};
use event_kinds::LineText;
use rel_cache::{Opened, RelCache};
use rel_desc::value_in;
use std::alloc::Global;

// The descriptors of a backend (`RelationIdCache` in `src/backend/utils/cache/relcache.c`), each as the
// scans that it is built of.
#[derive(Drop)]
pub(crate) struct Descriptors {
    alloc: Global,
    relations: RelCache<Listed<Part>>,
    // the relations whose descriptors are pinned
    pinned: Vec<Oid>,
    ghost pins: { ArePinned relations pinned.items },
}

#[tactic(auto, unfolding(crate::specs::Descriptors::has_descriptor, crate::specs::Descriptors::parts_of, crate::specs::Descriptors::pins_of))]
impl Descriptors {
    ghost use Rattle.local_caches.specs.Descriptors.{has_descriptor, parts_of, pins_of, HasParts, HasPins, AddsPart};

    // No descriptors, which takes no memory.
    pub(crate) fn new(alloc: Global) -> Descriptors
        ensures parts { (rel : _) → parts_of result rel ≡ [] }
        ensures pins { (rel : _) → pins_of result rel ≡ 0 }
    {
        Descriptors {
            alloc,
            relations: RelCache::new(alloc),
            pinned: Vec::new(alloc),
        }
    }

    // The scans that a relation's descriptor is built of; none where it is to be built anew.
    pub(crate) fn parts(&self, rel: Oid) -> &[Part]
        ensures { result.now ≡ parts_of self.now rel }
    {
        match self.relations.find(rel) {
            Some(parts) => parts.as_slice(),
            None => &[],
        }
    }

    // What a scan gave for a relation's descriptor.
    pub(crate) fn find(&self, rel: Oid, scan: &Purpose) -> Option<Given<'_>>
        ensures { option_map given result ≡ part_kept (parts_of self.now rel) scan.now }
    {
        match part_of(self.parts(rel), scan) {
            Some(part) => Some(Given {
                rows: part.rows.as_slice(),
                at: part.at,
            }),
            None => None,
        }
    }

    // The text of a field of a relation, of the rows that the scan which reads it gave.
    pub(crate) fn value(&self, rel: Oid, field: Field) -> Option<&LineText>
        ensures { option_copied result ≡ option_map (λ read. field_text field rel read.rows) (part_kept (parts_of self.now rel) (scan_for field rel)) }
    {
        match part_of(self.parts(rel), &read_by(field, rel)) {
            Some(part) => value_in(part.texts.as_slice(), field),
            None => None,
        }
    }

    // What a scan gave for a relation's descriptor, to be put there.
    pub(crate) fn part(
        &self,
        rel: Oid,
        scan: &Purpose,
        rows: Listed<Row>,
        at: u64,
    ) -> Result<Part, NoMemory>
        requires { home_of scan.now ≡ homes.Rel rel }
        ensures { IfOk result (λ part. IsPartOf part scan.now rows at) }
    {
        part_made(self.alloc, rel, scan, rows, at)
    }

    // Keeps what a scan gave for a relation's descriptor. Out of memory, nothing changes.
    pub(crate) fn put(&mut self, rel: Oid, part: Part) -> Result<(), NoMemory>
        ensures ok { OnOk result (AddsPart self.old self.new rel part) }
        ensures err { OnErr result (HasParts self.old self.new) }
        ensures pins { HasPins self.old self.new }
    {
        put_part(self.alloc, &mut self.relations, rel, part)
    }

    // Executes a message for a relation: its descriptor goes, or is to be built anew where it is pinned
    // (`RelationCacheInvalidateEntry` in `src/backend/utils/cache/relcache.c`).
    pub(crate) fn execute(&mut self, rel: Oid)
        ensures parts { (other : _) → parts_of self.new other ≡ cond (same_oid rel other) [] (parts_of self.old other) }
        ensures pins { HasPins self.old self.new }
    {
        let _ = self.relations.note_message(rel);
    }

    // The same for all of them (`RelationCacheInvalidate` in `src/backend/utils/cache/relcache.c`).
    pub(crate) fn reset(&mut self)
        ensures parts { (rel : _) → parts_of self.new rel ≡ [] }
        ensures pins { HasPins self.old self.new }
    {
        self.relations.note_reset();
    }

    // Pins a relation's descriptor, if there is one and it isn't pinned yet. Out of memory, nothing changes.
    pub(crate) fn pin(&mut self, rel: Oid) -> Result<(), NoMemory>
        ensures parts { HasParts self.old self.new }
        ensures pinned { OnOk result (has_descriptor self.old rel ≡ true → 0 < pins_of self.new rel) }
        ensures others { (other : _) → other ≢ rel → pins_of self.new other ≡ pins_of self.old other }
        ensures err { OnErr result (HasPins self.old self.new) }
    {
        if is_among(&self.pinned, rel) {
            return Ok(());
        }
        self.pinned.reserve(1)?;
        match self.relations.open(rel) {
            Opened::Unknown => {}
            Opened::Valid(_) | Opened::Invalid(_) => self.pinned.push_reserved(rel),
        }
        Ok(())
    }

    // Lets go of all descriptors that are pinned but those of these relations. They stay, also without pins.
    pub(crate) fn unpin_others(&mut self, kept: &[Oid])
        ensures parts { HasParts self.old self.new }
        ensures pins { (rel : _) → pins_of self.new rel ≡ cond (is_one_of rel kept.now) (pins_of self.old rel) 0 }
    {
        let mut at = self.pinned.len();
        while at > 0 {
            at -= 1;
            let rel = self.pinned[at];
            if !is_among_at(kept, at, rel) {
                self.unpin_at(at, rel);
            }
        }
    }

    // Lets go of the relation at a place of those that are pinned.
    fn unpin_at(&mut self, at: usize, rel: Oid)
        requires { slice_get self.old.pinned.items at ≡ Some rel }
        ensures parts { HasParts self.old self.new }
        ensures left { self.new.pinned.items ≡ take at self.old.pinned.items ++ drop (at + 1) self.old.pinned.items }
        ensures others { (other : _) → other ≢ rel → pins_of self.new other ≡ pins_of self.old other }
    {
        self.pinned.remove(at);
        if let Some(r) = self.relations.reference(rel) {
            self.relations.close(r);
        }
    }
}

// Whether a relation is among these, first at this place, where it stands in most lists.
fn is_among_at(rels: &[Oid], at: usize, rel: Oid) -> bool
    ensures { result ≡ is_one_of rel rels.now }
{
    if at < rels.len() && rels[at].0 == rel.0 {
        return true;
    }
    is_among(rels, rel)
}

// Whether a relation is among these.
fn is_among(rels: &[Oid], rel: Oid) -> bool
    ensures { result ≡ is_one_of rel rels.now }
{
    rels.iter().any(|other| other.0 == rel.0)
}
