//! What each thread is lent, and how that is put together and taken apart again.
ghost use Rattle.std.specs.Prelude.{◌≡◌, ◌<◌, ◌≤◌, ◌+◌, ◌++◌, [], length, map, vec_len, vec_capacity, OnOk};
ghost use Rattle.std.specs.List.{AllByRecursion};
ghost use Rattle.turn_table.specs.Passes.{start_of};
ghost use Rattle.thread_run.specs.Seats.{AllPairs, MaySit, HasDone, IsSeated, HasWorked, from_last, number_of, first_end, end_of, StopsTogether, AskedTogether};
ghost use Rattle.ddl_effect.specs.Commands.{commands_of};
ghost use Rattle.thread_run.specs.Asks.{AsksBy};
ghost use Rattle.thread_run.specs.Stops.{StopsBy};

use crate::RunRefusal;
use crate::shared_play::SharedPlay;
use crate::worker::Worker;
use backend_core::Backend;
use edge_io::Gate;
use std::alloc::Global;
use std::sync::Wait;
use std::thread;
use std::thread::Threads;
use turn_table::{Pass, TurnTable};

/// A backend with its gate, and how its work ended.
pub(crate) struct Seat<G> {
    worker: Option<Worker>,
    gate: G,
    end: Result<(), RunRefusal>,
}

// Lets a backend work in this thread.
fn work_at<R: Wait, G: Gate>(
    rt: &R,
    alloc: Global,
    table: &TurnTable<SharedPlay>,
    seat: &mut Seat<G>,
)
    requires seated { IsSeated table.now seat.old }
    ensures worked { HasWorked table.now seat.new }
    ensures number { number_of seat.new ≡ number_of seat.old }
    ensures stops { StopsBy (G.stops seat.old.gate) (G.stops seat.new.gate) seat.new.end }
    ensures asked { AsksBy seat.new.end (number_of seat.old) (length (commands_of (start_of table.now).whole (number_of seat.old))) (G.asked seat.old.gate) (G.asked seat.new.gate) }
{
    let Some(worker) = seat.worker.take() else {
        unreachable!()
    };
    let (worker, end) = worker.work(rt, alloc, table, &mut seat.gate);
    seat.worker = Some(worker);
    seat.end = end;
}

// Each in a thread of its own.
pub(crate) fn work_all<R: Threads + Wait + Sync, G: Gate>(
    rt: &R,
    alloc: Global,
    table: &TurnTable<SharedPlay>,
    seats: &mut [Seat<G>],
)
    requires some { 0 < length seats.old }
    requires seated { AllByRecursion (IsSeated table.now) seats.old }
    ensures worked { AllByRecursion (HasWorked table.now) seats.new }
    ensures numbers { map number_of seats.new ≡ map number_of seats.old }
    ensures stops { StopsTogether G.stops seats.old seats.new }
    ensures asked { AskedTogether (start_of table.now).whole G.asked seats.old seats.new }
{
    let threads = seats.len();
    thread::for_each_mut(
        rt,
        seats,
        threads,
        &|_, seat: &mut Seat<G>|
            requires { IsSeated table.now seat.old }
            ensures { HasWorked table.entry.now seat.new × (number_of seat.new ≡ number_of seat.old) × StopsBy (G.stops seat.old.gate) (G.stops seat.new.gate) seat.new.end × AsksBy seat.new.end (number_of seat.old) (length (commands_of (start_of table.entry.now).whole (number_of seat.old))) (G.asked seat.old.gate) (G.asked seat.new.gate) }
        { work_at(rt, alloc, table, seat) },
    );
}

// A seat for each backend, the last one first, with a pass and a gate. The table is there for what is said of
// it.
pub(crate) fn seat_all<G>(
    table: &TurnTable<SharedPlay>,
    passes: &mut Vec<Pass<SharedPlay>>,
    backends: &mut Vec<Backend>,
    gates: &mut Vec<G>,
    seats: &mut Vec<Seat<G>>,
)
    requires may { AllPairs (MaySit table.now) passes.old.items backends.old.items }
    requires counts { (vec_len backends.old ≡ vec_len passes.old) × (vec_len passes.old ≤ vec_len gates.old) }
    requires none { seats.old.items ≡ [] }
    requires spare { vec_len passes.old + vec_len seats.old ≤ vec_capacity seats.old }
    ensures taken { (passes.new.items ≡ []) × (backends.new.items ≡ []) }
    ensures seated { AllByRecursion (IsSeated table.now) seats.new.items }
    ensures count { vec_len seats.new ≡ vec_len passes.old }
    ensures numbers { from_last number_of seats.new.items ≡ map (λ p. p.number) passes.old.items }
    ensures gates { gates.new.items ++ from_last (λ s. s.gate) seats.new.items ≡ gates.old.items }
    ensures spare { (vec_len passes.new + vec_len seats.new ≤ vec_capacity passes.new) × (vec_len backends.new + vec_len seats.new ≤ vec_capacity backends.new) × (vec_len gates.new + vec_len seats.new ≤ vec_capacity gates.new) }
{
    while let Some(pass) = passes.pop() {
        let Some(backend) = backends.pop() else {
            unreachable!()
        };
        let Some(gate) = gates.pop() else {
            unreachable!()
        };
        let seat = Seat {
            worker: Some(Worker::new(pass, backend)),
            gate,
            end: Ok(()),
        };
        seats.push_reserved(seat);
    }
}

// Passes, backends and gates in order again, and the first end that isn't well.
pub(crate) fn unseat_all<G>(
    table: &TurnTable<SharedPlay>,
    passes: &mut Vec<Pass<SharedPlay>>,
    backends: &mut Vec<Backend>,
    gates: &mut Vec<G>,
    seats: &mut Vec<Seat<G>>,
) -> Result<(), RunRefusal>
    requires worked { AllByRecursion (HasWorked table.now) seats.old.items }
    requires none { (passes.old.items ≡ []) × (backends.old.items ≡ []) }
    requires spare { (vec_len passes.old + vec_len seats.old ≤ vec_capacity passes.old) × (vec_len backends.old + vec_len seats.old ≤ vec_capacity backends.old) × (vec_len gates.old + vec_len seats.old ≤ vec_capacity gates.old) }
    ensures end { result ≡ end_of seats.old.items }
    ensures done { OnOk result (AllPairs (HasDone table.now) passes.new.items backends.new.items) }
    ensures numbers { map (λ p. p.number) passes.new.items ≡ from_last number_of seats.old.items }
    ensures gates { gates.new.items ≡ gates.old.items ++ from_last (λ s. s.gate) seats.old.items }
    ensures empty { vec_len seats.new ≡ 0 }
{
    let mut ended = Ok(());
    while let Some(seat) = seats.pop() {
        let Seat { worker, gate, end } = seat;
        let Some(worker) = worker else { unreachable!() };
        let Worker {
            pass,
            backend,
            held: _,
            turns: _,
            halt_refused: _,
        } = worker;
        gates.push_reserved(gate);
        passes.push_reserved(pass);
        backends.push_reserved(backend);
        ended = sooner(ended, end);
    }
    ended
}

// The first of two ends that isn't well.
fn sooner(first: Result<(), RunRefusal>, second: Result<(), RunRefusal>) -> Result<(), RunRefusal>
    ensures { result ≡ first_end first second }
{
    match first {
        Ok(()) => second,
        Err(refusal) => Err(refusal),
    }
}
