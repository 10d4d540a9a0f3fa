ghost use Rattle.std.specs.Prelude.{◌≡◌, ◌≢◌, ◌⊎◌, ◌<◌, ◌≤◌, ◌+◌, ◌&&◌, ℕ, true, false, not, nat_lt, nat_eq, Some, None, Option, IsSome, IfSome, IfNone, IfOk, IfErr, OnErr, IsSomeAnd, IsTrue};
ghost use Rattle.std.specs.Option.{option_copied, option_map, option_and_then, option_map_or, ForSome};
ghost use Rattle.indexmap.specs.IndexMap.{get as place_of, index_map_len, keys, spare};
ghost use Rattle.rel_cache.specs.Named.{AreIndexed, ArePlaced, with_mark};

use crate::kept::{Kept, Place};
use crate::{Need, Opened};
use base_types::Oid;
use indexmap::IndexMap;
use pin_pool::{Back, Pool, Ref};
use std::alloc::Global;

/// Descriptors by relation (`RelationIdCache` in `src/backend/utils/cache/relcache.c`).
pub struct RelCache<D> {
    descriptors: Pool<Kept<D>>,
    // by the number of the relation
    index: IndexMap<u32, Place>,
    // each place has a descriptor of its relation,
    ghost indexed: { AreIndexed descriptors index },
    // and each descriptor has its place
    ghost placed: { ArePlaced descriptors index },
}

// Written out, and not derived: so it is proved here, and not again wherever one is dropped.
impl<D: Drop> Drop for RelCache<D> {
    fn drop(self) {
        let RelCache {
            descriptors: _,
            index: _,
        } = self;
    }
}

#[tactic(auto, unfolding(crate::specs::Caches::held_of))]
impl<D: Drop> RelCache<D> {
    ghost use Rattle.rel_cache.specs.Descriptors.{Held, valid_value, opened, need, new_held, opened_once, closed_once, renewed, told};
    ghost use Rattle.rel_cache.specs.Caches.{held_of, HeldUnder, HasGoneFrom, StaysGone, ChangesHeld, awaits, AreTold, relation_at};

    /// No descriptors, which takes no memory.
    pub fn new(alloc: Global) -> RelCache<D>
        ensures none { (rel : _) → held_of result rel ≡ None }
        ensures gone { (r : _) → HasGoneFrom result r → ⊥ }
    {
        RelCache {
            descriptors: Pool::new(alloc),
            index: IndexMap::new(alloc),
        }
    }

    /// Looks for the descriptor of a relation, and pins it (`RelationIdGetRelation` in
    /// `src/backend/utils/cache/relcache.c`). `Unknown`: exactly where none is held. `Invalid`: exactly where
    /// a message or a reset has marked it and no `replace` has come since. Condition: it has fewer than
    /// 4,294,967,295 pins.
    pub fn open(&mut self, rel: Oid) -> Opened
        requires { ForSome (held_of self.old rel) (λ h. h.pins < 4294967295) }
        ensures result { result ≡ opened (held_of self.old rel) }
        ensures held { ChangesHeld self.old self.new rel (option_map opened_once (held_of self.old rel)) }
        ensures gone { StaysGone self.old self.new }
    {
        let Some(place) = self.index.get(&rel.0) else {
            return Opened::Unknown;
        };
        let Place { at, valid } = *place;
        self.descriptors.pin(&at);
        if valid {
            Opened::Valid(at)
        } else {
            Opened::Invalid(at)
        }
    }

    /// The descriptor of a relation, without a pin (`RelationIdCacheLookup` in
    /// `src/backend/utils/cache/relcache.c`). `None`: exactly where none is held that nothing has made out of
    /// date.
    pub fn find(&self, rel: Oid) -> Option<&D>
        ensures { option_copied result ≡ option_and_then valid_value (held_of self.now rel) }
    {
        match self.index.get(&rel.0) {
            Some(Place { at, valid: true }) => Some(&self.descriptors.get(at).value),
            _ => None,
        }
    }

    /// The reference under which the descriptor of a relation is held, without a pin. `None`: exactly where
    /// none is.
    pub fn reference(&self, rel: Oid) -> Option<Ref>
        ensures { result ≡ option_map (λ h. h.at) (held_of self.now rel) }
    {
        Some(self.index.get(&rel.0)?.at)
    }

    /// Takes one pin away; the descriptor stays, also without pins (`RelationClose` and
    /// `RelationDecrementReferenceCount` in `src/backend/utils/cache/relcache.c`). Conditions: a descriptor is
    /// held under the reference, and has a pin.
    pub fn close(&mut self, r: Ref)
        requires { (rel : _) × HeldUnder self.old rel r × IsSomeAnd (held_of self.old rel) (λ h. 0 < h.pins) }
        ensures held { (rel : _) → HeldUnder self.old rel r → ChangesHeld self.old self.new rel (option_map closed_once (held_of self.old rel)) }
        ensures gone { StaysGone self.old self.new }
    {
        let _ = self.descriptors.unpin(&r);
    }

    /// The descriptor under a reference, which is of one relation alone. Condition: one is held under it.
    pub fn get(&self, r: &Ref) -> &D
        requires { (rel : _) × HeldUnder self.now rel r.now }
        ensures value { (rel : _) → HeldUnder self.now rel r.now → option_map (λ h. h.value) (held_of self.now rel) ≡ Some result.now }
        ensures one { (rel : _) → (other : _) → HeldUnder self.now rel r.now → HeldUnder self.now other r.now → other ≡ rel }
    {
        &self.descriptors.get(r).value
    }

    /// Whether nothing has made the descriptor under a reference out of date (`rd_isvalid` of a relation in
    /// `src/include/utils/rel.h`). Condition: one is held under it.
    pub fn is_valid(&self, r: &Ref) -> bool
        requires { (rel : _) × HeldUnder self.now rel r.now }
        ensures { (rel : _) → HeldUnder self.now rel r.now → option_map (λ h. h.valid) (held_of self.now rel) ≡ Some result }
    {
        let rel = self.descriptors.get(r).rel;
        let Some(place) = self.index.get(&rel.0) else {
            unreachable!()
        };
        place.valid
    }

    /// A message for a relation (`RelationCacheInvalidateEntry` and `RelationFlushRelation` in
    /// `src/backend/utils/cache/relcache.c`): its descriptor goes where nobody pins it, and is marked where
    /// somebody does. `Rebuild`: exactly where it is held and pinned.
    pub fn note_message(&mut self, rel: Oid) -> Need
        ensures result { result ≡ need (held_of self.old rel) }
        ensures held { ChangesHeld self.old self.new rel (option_and_then told (held_of self.old rel)) }
        ensures gone { StaysGone self.old self.new }
    {
        let Some(place) = self.index.get_index_of(&rel.0) else {
            return Need::Nothing;
        };
        self.note_at(place)
    }

    /// A reset, after which nobody knows what has changed (`RelationCacheInvalidate` in
    /// `src/backend/utils/cache/relcache.c`): every descriptor without pins goes, and every other is marked.
    pub fn note_reset(&mut self)
        ensures held { (rel : _) → held_of self.new rel ≡ option_and_then told (held_of self.old rel) }
        ensures gone { StaysGone self.old self.new }
    {
        let mut place = self.index.len();
        while place > 0 {
            place -= 1;
            self.note_at(place);
        }
    }

    // A message for the relation at a place of the index. Where its descriptor goes, the last place of the
    // index takes the place.
    fn note_at(&mut self, place: usize) -> Need
        requires { place < index_map_len self.old.index }
        ensures result { result ≡ need (held_of self.old (relation_at self.old place)) }
        ensures held { ChangesHeld self.old self.new (relation_at self.old place) (option_and_then told (held_of self.old (relation_at self.old place))) }
        ensures told { AreTold self.old (place + 1) → AreTold self.new place }
        ensures within { place ≤ index_map_len self.new.index }
        ensures gone { StaysGone self.old self.new }
    {
        let Some((rel, kept)) = self.index.get_index(place) else {
            unreachable!()
        };
        let rel = *rel;
        let at = kept.at;
        if self.descriptors.pins(&at) > 0 {
            set_valid(&mut self.index, rel, false);
            return Need::Rebuild(at);
        }
        let _ = self.descriptors.mark_dead(&at);
        let _ = self.index.swap_remove_index(place);
        Need::Nothing
    }

    /// The least relation whose descriptor is pinned and to be built anew, of those above another one, where
    /// one is given. `None`: exactly where there is none.
    pub fn least_invalid(&self, above: Option<Oid>) -> Option<Oid>
        ensures some { IfSome result (λ rel. IsTrue (awaits self.now above rel)) }
        ensures least { IfSome result (λ rel. (other : _) → IsTrue (awaits self.now above other) → rel.0 ≤ other.0) }
        ensures none { IfNone result ((rel : _) → awaits self.now above rel ≡ false) }
    {
        let mut least = None;
        for place in 0..self.index.len() {
            if self.is_waiting(place, above) {
                least = Some(lesser(self.relation(place), least));
            }
        }
        least
    }

    // The relation at a place of the index.
    fn relation(&self, place: usize) -> Oid
        requires { place < index_map_len self.now.index }
        ensures { result ≡ relation_at self.now place }
    {
        let Some((rel, _)) = self.index.get_index(place) else {
            unreachable!()
        };
        Oid(*rel)
    }

    // Whether the relation at a place of the index is above another one, if one is given, and its descriptor
    // is pinned and to be built anew.
    fn is_waiting(&self, place: usize, above: Option<Oid>) -> bool
        requires { place < index_map_len self.now.index }
        ensures { result ≡ awaits self.now above (relation_at self.now place) }
    {
        let Some((rel, kept)) = self.index.get_index(place) else {
            unreachable!()
        };
        let pins = self.descriptors.pins(&kept.at);
        is_left(*rel, above, kept.valid, pins)
    }

    /// Puts a descriptor in the place of the one under a reference, which is handed out. It is valid, and pins
    /// and reference stay (`RelationRebuildRelation` in `src/backend/utils/cache/relcache.c`). Condition: a
    /// descriptor is held under the reference.
    pub fn replace(&mut self, r: &Ref, value: D) -> D
        requires { (rel : _) × HeldUnder self.old rel r.now }
        ensures value { (rel : _) → HeldUnder self.old rel r.now → option_map (λ h. h.value) (held_of self.old rel) ≡ Some result }
        ensures held { (rel : _) → HeldUnder self.old rel r.now → ChangesHeld self.old self.new rel (option_map (renewed value) (held_of self.old rel)) }
        ensures gone { StaysGone self.old self.new }
    {
        let rel = self.descriptors.get(r).rel;
        set_valid(&mut self.index, rel.0, true);
        let Kept { rel: _, value: old } = self.descriptors.replace(r, Kept { rel, value });
        old
    }

    /// Keeps a descriptor of a relation, with one pin (`RelationBuildDesc` with `insertIt` in
    /// `src/backend/utils/cache/relcache.c`), under a reference that was never given before. Out of memory,
    /// it comes back and the cache is as it was. Condition: none of the relation is held.
    pub fn insert(&mut self, rel: Oid, value: D) -> Result<Ref, Back<D>>
        requires { held_of self.old rel ≡ None }
        ensures unnamed { IfOk result (λ r. (other : _) → HeldUnder self.old other r → ⊥) }
        ensures fresh { IfOk result (λ r. HasGoneFrom self.old r → ⊥) }
        ensures held { IfOk result (λ r. ChangesHeld self.old self.new rel (Some (new_held r value))) }
        ensures back { IfErr result (λ back. back.value ≡ value) }
        ensures same { OnErr result ((other : _) → held_of self.new other ≡ held_of self.old other) }
        ensures gone { StaysGone self.old self.new }
    {
        let Ok(()) = self.index.reserve(1) else {
            return Err(Back { value });
        };
        match self.descriptors.add(Kept { rel, value }) {
            Ok(at) => {
                put(&mut self.index, rel.0, Place { at, valid: true });
                Ok(at)
            }
            Err(Back { value: kept }) => {
                let Kept { rel: _, value } = kept;
                Err(Back { value })
            }
        }
    }
}

// Whether a relation is above another one, if one is given, and its descriptor isn't valid and has pins.
fn is_left(rel: u32, above: Option<Oid>, valid: bool, pins: u32) -> bool
    ensures { result ≡ (option_map_or (λ other. nat_lt other.0 rel) above true && (not valid && nat_lt 0 pins)) }
{
    match above {
        Some(other) => other.0 < rel && (!valid && 0 < pins),
        None => !valid && 0 < pins,
    }
}

// The lesser of two relations, or the one that is given.
fn lesser(rel: Oid, other: Option<Oid>) -> Oid
    ensures one { (result ≡ rel) ⊎ (other ≡ Some result) }
    ensures least { result.0 ≤ rel.0 }
    ensures less { ForSome other (λ o. result.0 ≤ o.0) }
{
    match other {
        Some(other) if other.0 < rel.0 => other,
        _ => rel,
    }
}

// Sets the mark at a relation's place.
fn set_valid(index: &mut IndexMap<u32, Place>, rel: u32, valid: bool)
    ensures at { place_of nat_eq index.new rel ≡ option_map (with_mark valid) (place_of nat_eq index.old rel) }
    ensures others { (k : ℕ) → k ≢ rel → place_of nat_eq index.new k ≡ place_of nat_eq index.old k }
    ensures keys { keys index.new ≡ keys index.old }
{
    if let Some(place) = index.get_mut(&rel) {
        place.valid = valid;
    }
}

// Adds a relation's place, for which there is room.
fn put(index: &mut IndexMap<u32, Place>, rel: u32, place: Place)
    requires { 0 < spare index.old }
    ensures at { place_of nat_eq index.new rel ≡ Some place }
    ensures others { (k : ℕ) → k ≢ rel → place_of nat_eq index.new k ≡ place_of nat_eq index.old k }
{
    let _ = index.insert(rel, place).unwrap();
}
