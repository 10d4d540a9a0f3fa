use pin_pool::{Pool, Ref};
use std::alloc::Global;

// The pins of an entry with one user, with two, and with one again, and its value; what comes out as that is
// replaced, and what is there then.
fn pinned_twice(alloc: Global) -> ([u32; 4], [u32; 3]) {
    let mut pool = Pool::new(alloc);
    let Ok(r) = pool.add(7u32) else {
        return ([0; 4], [0; 3]);
    };
    let first = pool.pins(&r);
    pool.pin(&r);
    let second = pool.pins(&r);
    let old = pool.replace(&r, 8);
    let replaced = [old, *pool.get(&r), pool.pins(&r)];
    let _ = pool.replace(&r, 7);
    let _ = pool.unpin(&r);
    ([first, second, pool.pins(&r), *pool.get(&r)], replaced)
}

// What comes out of a pinned entry that is marked, and as its pins go.
fn marked(alloc: Global) -> [Option<u32>; 3] {
    let mut pool = Pool::new(alloc);
    let Ok(r) = pool.add(7u32) else {
        return [None; 3];
    };
    pool.pin(&r);
    let at_mark = pool.mark_dead(&r);
    let at_first = pool.unpin(&r);
    [at_mark, at_first, pool.unpin(&r)]
}

// The values of an entry, and of one that is added after it.
fn two(alloc: Global) -> [u32; 2] {
    let mut pool = Pool::new(alloc);
    let Ok(r) = pool.add(7u32) else {
        return [0; 2];
    };
    let Ok(s) = pool.add(8u32) else {
        return [0; 2];
    };
    [*pool.get(&r), *pool.get(&s)]
}

// What comes out as the only pin of an entry goes, and as the entry is marked then; and the value and the pins of one
// that is added in its place.
fn added_again(alloc: Global) -> ([Option<u32>; 2], [u32; 2]) {
    let mut pool = Pool::new(alloc);
    let Ok(r) = pool.add(7u32) else {
        return ([None; 2], [0; 2]);
    };
    let at_unpin = pool.unpin(&r);
    let gone = pool.mark_dead(&r);
    let Ok(s) = pool.add(8u32) else {
        return ([None; 2], [0; 2]);
    };
    ([at_unpin, gone], [*pool.get(&s), pool.pins(&s)])
}

#[test]
fn values_stay_in_places_of_their_own_while_they_are_pinned(rt: HostRuntime) {
    assert!(rt; pinned_twice(rt.alloc()) == ([1, 2, 1, 7], [7, 8, 2]));
    assert!(rt; marked(rt.alloc()) == [None, None, Some(7)]);
    assert!(rt; two(rt.alloc()) == [7, 8]);
    assert!(rt; added_again(rt.alloc()) == ([None, Some(7)], [8, 1]));
}

// Whether the first of two entries, which has gone, and the second one are live, what the second one is, and whether there
// is room for three more.
fn reserved(alloc: Global) -> Option<([bool; 2], u32, bool)> {
    let mut pool = Pool::new(alloc);
    let gone = pool.add(7u32).ok()?;
    let _ = pool.mark_dead(&gone);
    let _ = pool.unpin(&gone);
    let there = pool.add(8).ok()?;
    pool.reserve(3).ok()?;
    Some((
        [pool.live(&gone), pool.live(&there)],
        *pool.get(&there),
        pool.spare() >= 3,
    ))
}

#[test]
fn a_reference_whose_entry_has_gone_is_dead_whatever_is_added(rt: HostRuntime) {
    assert!(rt; reserved(rt.alloc()) == Some(([false, true], 8, true)));
}

const MANY: usize = 200;

// Many entries, whose values are their places among the references.
fn add_many(alloc: Global, pool: &mut Pool<usize>) -> Option<Vec<Ref>> {
    let mut refs = Vec::new(alloc);
    for i in 0..MANY {
        let r = pool.add(i).ok()?;
        refs.push(r).ok()?;
    }
    Some(refs)
}

// Whether each value is its place among the references.
fn are_right(pool: &Pool<usize>, refs: &[Ref]) -> bool {
    for i in 0..refs.len() {
        if !pool.live(&refs[i]) || *pool.get(&refs[i]) != i {
            return false;
        }
    }
    refs.len() == MANY
}

// The value of an entry, which is taken out.
fn taken_out(pool: &mut Pool<usize>, r: &Ref) -> Option<usize> {
    if !pool.live(r) {
        return None;
    }
    let _ = pool.mark_dead(r);
    if pool.live(r) && pool.pins(r) > 0 {
        return pool.unpin(r);
    }
    None
}

// Whether each is taken out, and its value is its place.
fn are_taken_out(pool: &mut Pool<usize>, refs: &[Ref]) -> bool {
    for i in 0..refs.len() {
        if taken_out(pool, &refs[i]) != Some(i) {
            return false;
        }
    }
    true
}

// Whether there is room for many entries once it was made, whether each is right beside the others, and whether as
// much room is there again as they are taken out.
fn many(alloc: Global) -> Option<[bool; 3]> {
    let mut pool = Pool::new(alloc);
    pool.reserve(MANY).ok()?;
    let room = pool.spare();
    let refs = add_many(alloc, &mut pool)?;
    let right = are_right(&pool, &refs);
    let out = are_taken_out(&mut pool, &refs);
    Some([room >= MANY, right, out && pool.spare() == room])
}

#[test]
fn many_entries_stand_beside_one_another_and_leave_their_room(rt: HostRuntime) {
    assert!(rt; many(rt.alloc()) == Some([true, true, true]));
}
