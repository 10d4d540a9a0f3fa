ghost use Rattle.std.specs.Prelude.{◌≡◌, ◌≢◌, ◌<◌, Some, IsSomeAnd};
ghost use Rattle.std.specs.Option.{option_map};
ghost use Rattle.rel_cache.specs.Descriptors.{closed_once, renewed};
ghost use Rattle.rel_cache.specs.Caches.{held_of, HeldUnder, ChangesHeld};

use base_types::Oid;
use pin_pool::Ref;
use rel_cache::{Need, Opened, RelCache};
use std::alloc::Global;

const REL: Oid = Oid(16384);

const OTHER: Oid = Oid(16385);

fn opened(opened: Opened) -> &'static str {
    match opened {
        Opened::Valid(_) => "valid",
        Opened::Invalid(_) => "invalid",
        Opened::Unknown => "unknown",
    }
}

fn need(need: Need) -> &'static str {
    match need {
        Need::Rebuild(_) => "rebuild",
        Need::Nothing => "nothing",
    }
}

// Takes one pin of a relation's descriptor away.
fn close(cache: &mut RelCache<u32>, rel: Oid, r: Ref)
    requires under { HeldUnder cache.old rel r }
    requires pinned { IsSomeAnd (held_of cache.old rel) (λ h. 0 < h.pins) }
    ensures { ChangesHeld cache.old cache.new rel (option_map closed_once (held_of cache.old rel)) }
{
    cache.close(r);
}

// Puts a descriptor in the place of a relation's, and gives the old one and what is there then.
fn replace(cache: &mut RelCache<u32>, rel: Oid, r: Ref, value: u32) -> (u32, u32)
    requires { HeldUnder cache.old rel r }
    ensures { ChangesHeld cache.old cache.new rel (option_map (renewed value) (held_of cache.old rel)) }
{
    let old = cache.replace(&r, value);
    (old, value_under(cache, rel, r))
}

// The descriptor of a relation.
fn value_under(cache: &RelCache<u32>, rel: Oid, r: Ref) -> u32
    requires { HeldUnder cache.now rel r }
{
    let _ = rel;
    *cache.get(&r)
}

// What is found of a relation before its descriptor is inserted and after it is closed, and what a message for it
// leaves.
fn found(alloc: Global, rel: Oid) -> [&'static str; 4] {
    let mut cache = RelCache::new(alloc);
    let before = opened(cache.open(rel));
    let Ok(r) = cache.insert(rel, 7u32) else {
        return ["no memory"; 4];
    };
    close(&mut cache, rel, r);
    let after = opened(cache.open(rel));
    close(&mut cache, rel, r);
    let told = need(cache.note_message(rel));
    [before, after, told, opened(cache.open(rel))]
}

// What comes out as a marked descriptor is built anew, what is there then, and how it is found.
fn built_anew(alloc: Global, rel: Oid) -> (u32, u32, &'static str) {
    let mut cache = RelCache::new(alloc);
    let Ok(r) = cache.insert(rel, 7u32) else {
        return (0, 0, "no memory");
    };
    let _ = cache.note_message(rel);
    let (old, value) = replace(&mut cache, rel, r, 8);
    (old, value, opened(cache.open(rel)))
}

// The number of a relation, or 0.
fn number(rel: Option<Oid>) -> u32 {
    match rel {
        Some(rel) => rel.0,
        None => 0,
    }
}

// The relations that are to be built anew, in order, before a message for one whose descriptor is in use, and after
// it; what the message needs, and how the descriptor is found then.
fn told(alloc: Global, rel: Oid) -> ([u32; 3], [&'static str; 2]) {
    let mut cache = RelCache::new(alloc);
    let Ok(_) = cache.insert(rel, 8u32) else {
        return ([0; 3], ["no memory"; 2]);
    };
    let before = number(cache.least_invalid(None));
    let told = need(cache.note_message(rel));
    let after = number(cache.least_invalid(None));
    let next = number(cache.least_invalid(Some(rel)));
    ([before, after, next], [told, opened(cache.open(rel))])
}

// Those of two relations that are to be built anew after a reset, in order.
fn reset(alloc: Global, rel: Oid, other: Oid) -> [u32; 3]
    requires { rel ≢ other }
{
    let mut cache = RelCache::new(alloc);
    let Ok(_) = cache.insert(other, 8u32) else {
        return [0; 3];
    };
    let Ok(_) = cache.insert(rel, 7u32) else {
        return [0; 3];
    };
    cache.note_reset();
    let first = cache.least_invalid(None);
    let second = cache.least_invalid(first);
    [
        number(first),
        number(second),
        number(cache.least_invalid(second)),
    ]
}

// How a descriptor that isn't in use is found after a reset.
fn reset_unused(alloc: Global, rel: Oid) -> &'static str {
    let mut cache = RelCache::new(alloc);
    let Ok(r) = cache.insert(rel, 7u32) else {
        return "no memory";
    };
    close(&mut cache, rel, r);
    cache.note_reset();
    opened(cache.open(rel))
}

#[test]
fn descriptors_are_kept_until_messages_and_resets_mark_them(rt: HostRuntime) {
    assert!(rt; found(rt.alloc(), REL) == ["unknown", "valid", "nothing", "unknown"]);

    assert!(rt; built_anew(rt.alloc(), REL) == (7, 8, "valid"));
    assert!(rt; told(rt.alloc(), REL) == ([0, 16384, 0], ["rebuild", "invalid"]));
    assert!(rt; reset(rt.alloc(), REL, OTHER) == [16384, 16385, 0]);
    assert!(rt; reset_unused(rt.alloc(), REL) == "unknown");
}
