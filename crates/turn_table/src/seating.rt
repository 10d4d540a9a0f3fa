//! How the seats of a table are made, dealt out as passes, and gathered in again.
ghost use Rattle.std.specs.Prelude.{◌≡◌, ℕ, ◌+◌, ◌*◌, ◌<◌, ◌≤◌, [], false, IfOk, length, map, vec_len, vec_capacity};
ghost use Rattle.std.specs.List.{AllByRecursion};
ghost use Rattle.turn_table.specs.declared.view.Stage.TheVariants.{Resting};
ghost use Rattle.turn_table.specs.Views.{view_of, at_rest, AllIn};
ghost use Rattle.turn_table.specs.Kept.{parts_from, first_view};
ghost use Rattle.turn_table.specs.Numbered.{Numbered};

use crate::pass::Pass;
use crate::plays::{Cut, Glue};
use crate::rule::Turns;
use crate::turned::Turned;
use crate::view::{Setup, View};
use atomic_table::{Seat, Shared, Table};
use std::alloc::{AllocError, Global};
use std::snapshot::Snapshot;

pub(crate) type Board<V> = Table<Option<V>, View<V, <V as Turned>::Entry>, Setup<V>, Turns, Global>;

pub(crate) type Place<V> = Seat<Option<V>, View<V, <V as Turned>::Entry>>;

pub(crate) type Steps<V> = Shared<Option<V>, View<V, <V as Turned>::Entry>, Setup<V>, Turns>;

// The table, and a seat that stands for all seats.
pub(crate) fn lay<V: Turned>(
    alloc: Global,
    value: V,
    seats: u32,
) -> Result<(Board<V>, Place<V>), AllocError>
    requires seats { seats ≤ 64 }
    requires quiet { (k : ℕ) → 0 < k → k ≤ seats → V.waiting (V.history value) k ≡ false }
    ensures told { IfOk result (λ r. (r.0.shared.key.seats ≡ seats) × (r.0.shared.key.start.value ≡ value)) }
    ensures size { IfOk result (λ r. (r.0.shared.table_id.words ≡ 2 * seats + 2) × (r.0.shared.table_id.slots ≡ 1)) }
    ensures seat { IfOk result (λ r. (r.1.table_id ≡ r.0.shared.table_id) × (r.1.me ≡ (first_view V.fixed V.history V.owner V.waiting V.room r.0.shared.key, []))) }
{
    let setup = Setup {
        start: Snapshot::of(&value),
        seats: seats as u64,
    };
    let words = Vec::from_elem(alloc, 0u64, 2 * seats as usize + 2)?;
    let mut slots = Vec::with_capacity(alloc, 1)?;
    slots.push_reserved(Some(value));
    match Table::new(alloc, words.as_slice(), slots, &setup) {
        Ok(made) => Ok(made),
        Err(_) => Err(AllocError),
    }
}

// A pass for each seat.
pub(crate) fn deal<V: Turned>(
    shared: &Steps<V>,
    mut seat: Place<V>,
    seats: u32,
    mut passes: Vec<Pass<V>>,
) -> Vec<Pass<V>>
    requires seat { (seat.table_id ≡ shared.now.table_id) × (seat.me ≡ (view_of Resting (parts_from V.fixed V.history V.owner V.waiting V.room shared.now.key 1 seats), [])) }
    requires size { (shared.now.table_id.words ≡ 2 * seats + 2) × (0 < seats) }
    requires spare { (passes.items ≡ []) × (vec_len passes ≡ 0) × (seats ≤ vec_capacity passes) }
    ensures { (length result.items ≡ seats) × Numbered V.history V.room shared.now.table_id shared.now.key 1 (map (λ p. (p.number, p.seat)) result.items) }
{
    let mut number = 1;
    while number < seats {
        let rest = shared.split_seat::<Cut>(&mut seat);
        passes.push_reserved(Pass { number, seat });
        seat = rest;
        number += 1;
    }
    passes.push_reserved(Pass { number, seat });
    passes
}

// One seat that stands for all these.
pub(crate) fn gather<V: Turned>(
    shared: &Steps<V>,
    mut seat: Place<V>,
    mut passes: Vec<Pass<V>>,
) -> Place<V>
    requires seat { (seat.table_id ≡ shared.now.table_id) × (seat.me ≡ at_rest seat.me) }
    requires words { 0 < shared.now.table_id.words }
    requires of { AllByRecursion (λ p. p.seat.table_id ≡ shared.now.table_id) passes.items }
    ensures seat { (result.table_id ≡ seat.table_id) × (result.id ≡ seat.id) × (result.me ≡ at_rest result.me) }
    ensures first { AllIn seat.me.0.parts result.me.0.parts }
    ensures others { AllByRecursion (λ p. AllIn p.seat.me.0.parts result.me.0.parts) passes.items }
{
    while let Some(
        Pass {
            number: _,
            seat: other,
        },
    ) = passes.pop()
    {
        shared.join_seat::<Glue>(&mut seat, other);
    }
    seat
}
