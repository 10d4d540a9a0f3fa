ghost use Rattle.std.specs.Prelude.{◌≡◌, ◌≤◌, ◌<◌, ◌+◌, [], true, length, map, vec_len, IfOk, IfErr, OnOk};
ghost use Rattle.std.specs.List.{All, range_with_len};
ghost use Rattle.backend_core.specs.Agrees.{Stands};
ghost use Rattle.backend_core.specs.Coherent.{IsCoherent};
ghost use Rattle.script_backends.specs.Sessions.{AreSessions};
ghost use Rattle.turn_table.specs.Passes.{start_of};
ghost use Rattle.thread_run.specs.Asks.{AskedEach};
ghost use Rattle.thread_run.specs.Runs.{IsRun};
ghost use Rattle.thread_run.specs.Seats.{AllPairs, MaySit, HasDone};
ghost use Rattle.thread_run.specs.Prepared.{IsPrepared};
ghost use Rattle.thread_run.specs.Stops.{NoneFell, OneRose, StopTogether};

use crate::RunRefusal;
use crate::seats::{seat_all, unseat_all, work_all};
use crate::shared_play::SharedPlay;
use backend_core::Backend;
use base_types::{Listed, NoMemory};
use edge_io::Gate;
use event_kinds::{Entry, Line};
use script_backends::{all_lines, new_backends};
use script_text::Script;
use std::alloc::Global;
use std::sync::Wait;
use std::thread::Threads;
use turn_table::{Pass, TurnTable};

/// What a run made.
#[derive(Drop)]
pub struct Ran {
    /// The history, oldest entry first.
    pub entries: Listed<Entry>,
    /// The lines of all backends, in order of backend and command.
    pub lines: Listed<Line>,
    /// The backends that were run, in order of their numbers.
    pub backends: Listed<Backend>,
}

/// The run of a script: each backend works in a thread of its own. Condition: there is a gate for each
/// backend. As many gates come back, in the same places, none with a lower count; each of the first was asked for
/// the backend of its place alone, before each of its commands in order and after the last one, up to some of
/// them where the run fails, and the others nothing. `Stopped`, `NoMemory`: the
/// refusal of the first backend, by number, whose work failed; the work of the others went on. `NoMemory`
/// also before and after the threads.
pub fn run<R: Threads + Wait + Sync, G: Gate>(
    rt: &R,
    alloc: Global,
    script: &Script,
    gates: &mut Vec<G>,
) -> Result<Ran, RunRefusal>
    requires gates { script.now.backends ≤ length gates.old.items }
    ensures kept { NoneFell (map G.stops gates.old.items) (map G.stops gates.new.items) }
    ensures steady { OnOk result (map G.stops gates.new.items ≡ map G.stops gates.old.items) }
    ensures cause { IfErr result (λ refusal. refusal ≡ RunRefusal.Stopped → OneRose (map G.stops gates.old.items) (map G.stops gates.new.items)) }
    ensures asked { AskedEach result script.now (range_with_len 1 script.now.backends) (map G.asked gates.old.items) (map G.asked gates.new.items) }
    ensures run { IfOk result (λ ran. IsRun script.now ran.entries ran.lines) }
    ensures sessions { IfOk result (λ ran. AreSessions script.now ran.entries ran.lines ran.backends) }
    ensures stand { IfOk result (λ ran. All (Stands script.now ran.entries) ran.backends) }
    ensures coherent { IfOk result (λ ran. All (IsCoherent script.now ran.entries) ran.backends) }
{
    let Ok((table, mut passes, mut backends)) = prepare(alloc, script) else {
        return Err(RunRefusal::NoMemory);
    };
    run_backends(rt, alloc, &table, &mut passes, &mut backends, gates)?;
    let entries = table.finish(passes).into_history();
    let Ok(lines) = all_lines(alloc, &backends) else {
        return Err(RunRefusal::NoMemory);
    };
    Ok(Ran {
        entries: Listed::from_vec(entries),
        lines: Listed::from_vec(lines),
        backends: Listed::from_vec(backends),
    })
}

// A table with an empty history, the passes of all backends, and the backends.
fn prepare(
    alloc: Global,
    script: &Script,
) -> Result<(TurnTable<SharedPlay>, Vec<Pass<SharedPlay>>, Vec<Backend>), NoMemory>
    ensures { IfOk result (λ r. IsPrepared script.now r.0 r.1.items r.2.items) }
{
    let backends = new_backends(alloc, script)?;
    let play = SharedPlay::new(alloc, script)?;
    let (table, passes) = TurnTable::new(alloc, play, script.backends())?;
    Ok((table, passes, backends))
}

// Gives each backend its pass and its gate, lets all work, and takes them apart again.
fn run_backends<R: Threads + Wait + Sync, G: Gate>(
    rt: &R,
    alloc: Global,
    table: &TurnTable<SharedPlay>,
    passes: &mut Vec<Pass<SharedPlay>>,
    backends: &mut Vec<Backend>,
    gates: &mut Vec<G>,
) -> Result<(), RunRefusal>
    requires may { AllPairs (MaySit table.now) passes.old.items backends.old.items }
    requires some { 0 < vec_len passes.old }
    requires counts { (vec_len backends.old ≡ vec_len passes.old) × (vec_len passes.old ≤ vec_len gates.old) }
    ensures done { OnOk result (AllPairs (HasDone table.now) passes.new.items backends.new.items) }
    ensures numbers { OnOk result (map (λ p. p.number) passes.new.items ≡ map (λ p. p.number) passes.old.items) }
    ensures stops { StopTogether (map G.stops gates.old.items) (map G.stops gates.new.items) result }
    ensures asked { AskedEach result (start_of table.now).whole (map (λ p. p.number) passes.old.items) (map G.asked gates.old.items) (map G.asked gates.new.items) }
{
    let count = passes.len();
    let Ok(mut seats) = Vec::with_capacity(alloc, count) else {
        return Err(RunRefusal::NoMemory);
    };
    gates.rotate_left(count);
    seat_all(table, passes, backends, gates, &mut seats);
    work_all(rt, alloc, table, seats.as_mut_slice());
    let ended = unseat_all(table, passes, backends, gates, &mut seats);
    seats.destroy_empty();
    gates.rotate_right(count);
    ended
}
