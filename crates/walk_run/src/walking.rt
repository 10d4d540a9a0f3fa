ghost use Rattle.std.specs.Prelude.{◌≡◌, ◌≢◌, ◌-◌, ℕ, [], ◌∷◌, replicate, OnOk, OnErr, IfOk};
ghost use Rattle.std.specs.List.{All, AllByRecursion};
ghost use Rattle.base_types.specs.Scenario.{IsBackend, AreTurns, turns_of, schedule_of};
ghost use Rattle.cacheless.specs.Schedule.{FollowsSchedule};
ghost use Rattle.backend_core.specs.Agrees.{Stands};
ghost use Rattle.backend_core.specs.Coherent.{IsCoherent};
ghost use Rattle.script_backends.specs.Sessions.{transcripts_of, AreSessions};
ghost use Rattle.walk_run.specs.Walks.{IsWalk, LeavesWell};

use backend_core::Backend;
use base_types::{Listed, NoMemory, Turns};
use event_kinds::{Entry, Line};
use script_backends::{all_lines, new_backends};
use script_text::Script;
use seg_calls::Seg;
use shared_seg::Shared;
use std::alloc::Global;

/// What a walk made.
#[derive(Drop)]
pub struct World {
    /// The history, oldest entry first.
    pub entries: Listed<Entry>,
    /// The lines of all backends, in order of backend and command.
    pub lines: Listed<Line>,
    /// The backends that were run, in order of their numbers.
    pub backends: Listed<Backend>,
}

// How many places in the history are promised to a backend before its step, where it wants no more.
const PLACES: u32 = 2;

/// The walk of a script in plain memory.
pub fn walk(alloc: Global, script: &Script) -> Result<World, NoMemory>
    ensures walk { IfOk result (λ world. IsWalk script.now world.entries world.lines) }
    ensures sessions { IfOk result (λ world. AreSessions script.now world.entries world.lines world.backends) }
    ensures stand { IfOk result (λ world. All (Stands script.now world.entries) world.backends) }
    ensures coherent { IfOk result (λ world. All (IsCoherent script.now world.entries) world.backends) }
{
    let mut seg = Shared::new(alloc, script)?;
    let backends = walk_on(alloc, script, &mut seg)?;
    let lines = all_lines(alloc, &backends)?;
    Ok(World {
        entries: Listed::from_vec(seg.into_history()),
        lines: Listed::from_vec(lines),
        backends: Listed::from_vec(backends),
    })
}

/// The walk of a script on a segment: the backends that were run, in order of their numbers.
/// Conditions: the segment was made for the script, and its history is empty. Out of memory too, the segment's
/// history is one that the script plays so far, by its schedule, and promises to others than the script's backends
/// are as they were.
pub fn walk_on<L: Seg>(
    alloc: Global,
    script: &Script,
    seg: &mut L,
) -> Result<Vec<Backend>, NoMemory>
    requires script { L.script seg.old ≡ script.now }
    requires start { L.history seg.old ≡ [] }
    ensures script { L.script seg.new ≡ L.script seg.old }
    ensures leaves { LeavesWell script.now (L.history seg.old) (L.history seg.new) (L.promised seg.old) (L.promised seg.new) }
    ensures follows { FollowsSchedule script.now (L.history seg.new) }
    ensures walk { IfOk result (λ backends. IsWalk script.now (L.history seg.new) (transcripts_of backends.items)) }
    ensures sessions { IfOk result (λ backends. AreSessions script.now (L.history seg.new) (transcripts_of backends.items) backends.items) }
    ensures stand { IfOk result (λ backends. All (Stands script.now (L.history seg.new)) backends.items) }
    ensures coherent { IfOk result (λ backends. All (IsCoherent script.now (L.history seg.new)) backends.items) }
{
    let mut walker = Walker::new(alloc, script)?;
    if script.steps().is_empty() {
        walker.to_the_stops(script, seg)?;
        return Ok(walker.backends);
    }
    walker.by_schedule(script, seg)?;
    Ok(walker.backends)
}

// The backends of a walk.
#[derive(Drop)]
struct Walker {
    alloc: Global,
    backends: Vec<Backend>,
}

impl Walker {
    ghost use Rattle.walk_run.specs.Walks.{AllStand, Goes, GoesOn, Makes, IsRunning, FollowsTurn, FollowsSteps, FollowsStops};

    // All backends of the script, none of which has joined.
    fn new(alloc: Global, script: &Script) -> Result<Walker, NoMemory>
        ensures { IfOk result (λ walker. AllStand script.now [] walker.backends.items) }
    {
        let backends = new_backends(alloc, script)?;
        Ok(Walker { alloc, backends })
    }

    // A step of a backend: one entry, or none where it has stopped.
    fn step<L: Seg>(&mut self, seg: &mut L, b: u32) -> Result<(), NoMemory>
        requires backend { IsBackend (L.script seg.old).backends b }
        requires stand { AllStand (L.script seg.old) (L.history seg.old) self.old.backends.items }
        ensures script { L.script seg.new ≡ L.script seg.old }
        ensures leaves { LeavesWell (L.script seg.old) (L.history seg.old) (L.history seg.new) (L.promised seg.old) (L.promised seg.new) }
        ensures follows { OnErr result (FollowsSteps (L.script seg.old) (L.history seg.old) (L.history seg.new) (b ∷ [])) }
        ensures goes { OnOk result (Goes (L.script seg.old) (L.history seg.old) (L.history seg.new) self.new.backends.items (b ∷ [])) }
    {
        if self.backends[b as usize - 1].is_stopped() {
            return Ok(());
        }
        self.make_step(seg, b)
    }

    // A step of a backend that hasn't stopped.
    fn make_step<L: Seg>(&mut self, seg: &mut L, b: u32) -> Result<(), NoMemory>
        requires backend { IsBackend (L.script seg.old).backends b }
        requires stand { AllStand (L.script seg.old) (L.history seg.old) self.old.backends.items }
        requires running { IsRunning self.old.backends.items b }
        ensures script { L.script seg.new ≡ L.script seg.old }
        ensures leaves { LeavesWell (L.script seg.old) (L.history seg.old) (L.history seg.new) (L.promised seg.old) (L.promised seg.new) }
        ensures follows { OnErr result (FollowsTurn (L.script seg.old) (L.history seg.old) (L.history seg.new) b) }
        ensures others { (a : ℕ) → a ≢ b → L.promised seg.new a ≡ L.promised seg.old a }
        ensures makes { OnOk result (Makes (L.script seg.old) (L.history seg.old) (L.history seg.new) self.old.backends.items self.new.backends.items b) }
    {
        let wanted = self.backends[b as usize - 1].places_wanted();
        seg.promise(b, wanted.max(PLACES))?;
        let backend = &mut self.backends[b as usize - 1];
        backend.step(self.alloc, seg)
    }

    // The steps of one item of the schedule.
    fn by_turns<L: Seg>(&mut self, seg: &mut L, turns: Turns) -> Result<(), NoMemory>
        requires turns { AreTurns (L.script seg.old).backends turns }
        requires stand { AllStand (L.script seg.old) (L.history seg.old) self.old.backends.items }
        ensures script { L.script seg.new ≡ L.script seg.old }
        ensures leaves { LeavesWell (L.script seg.old) (L.history seg.old) (L.history seg.new) (L.promised seg.old) (L.promised seg.new) }
        ensures follows { OnErr result (FollowsSteps (L.script seg.old) (L.history seg.old) (L.history seg.new) (replicate turns.count turns.backend)) }
        ensures goes { OnOk result (Goes (L.script seg.old) (L.history seg.old) (L.history seg.new) self.new.backends.items (replicate turns.count turns.backend)) }
    {
        'steps: for _step in 0..turns.count {
            self.step(seg, turns.backend)?;
        }
        Ok(())
    }

    // The steps of one line of the schedule.
    fn by_line<L: Seg>(&mut self, seg: &mut L, line: &[Turns]) -> Result<(), NoMemory>
        requires turns { AllByRecursion (AreTurns (L.script seg.old).backends) line.now }
        requires stand { AllStand (L.script seg.old) (L.history seg.old) self.old.backends.items }
        ensures script { L.script seg.new ≡ L.script seg.old }
        ensures leaves { LeavesWell (L.script seg.old) (L.history seg.old) (L.history seg.new) (L.promised seg.old) (L.promised seg.new) }
        ensures follows { OnErr result (FollowsSteps (L.script seg.old) (L.history seg.old) (L.history seg.new) (turns_of line.now)) }
        ensures goes { OnOk result (Goes (L.script seg.old) (L.history seg.old) (L.history seg.new) self.new.backends.items (turns_of line.now)) }
    {
        for turns in line {
            self.by_turns(seg, *turns)?;
        }
        Ok(())
    }

    // All steps of the schedule.
    fn by_schedule<L: Seg>(&mut self, script: &Script, seg: &mut L) -> Result<(), NoMemory>
        requires script { L.script seg.old ≡ script.now }
        requires stand { AllStand script.now (L.history seg.old) self.old.backends.items }
        ensures script { L.script seg.new ≡ L.script seg.old }
        ensures leaves { LeavesWell script.now (L.history seg.old) (L.history seg.new) (L.promised seg.old) (L.promised seg.new) }
        ensures follows { OnErr result (FollowsSteps script.now (L.history seg.old) (L.history seg.new) (schedule_of script.now)) }
        ensures goes { OnOk result (Goes script.now (L.history seg.old) (L.history seg.new) self.new.backends.items (schedule_of script.now)) }
    {
        let lines = script.steps();
        for line in lines {
            self.by_line(seg, line.as_slice())?;
        }
        Ok(())
    }

    // Each backend to its stop, one after another.
    fn to_the_stops<L: Seg>(&mut self, script: &Script, seg: &mut L) -> Result<(), NoMemory>
        requires script { L.script seg.old ≡ script.now }
        requires stand { AllStand script.now (L.history seg.old) self.old.backends.items }
        ensures script { L.script seg.new ≡ L.script seg.old }
        ensures leaves { LeavesWell script.now (L.history seg.old) (L.history seg.new) (L.promised seg.old) (L.promised seg.new) }
        ensures follows { OnErr result (FollowsStops script.now (L.history seg.old) 0 (L.history seg.new)) }
        ensures goes { OnOk result (GoesOn script.now (L.history seg.old) 0 (L.history seg.new) self.new.backends.items script.now.backends) }
    {
        for number in 0..script.backends() {
            self.to_its_stop(seg, number + 1)?;
        }
        Ok(())
    }

    // One backend to its stop.
    fn to_its_stop<L: Seg>(&mut self, seg: &mut L, b: u32) -> Result<(), NoMemory>
        requires backend { IsBackend (L.script seg.old).backends b }
        requires stand { AllStand (L.script seg.old) (L.history seg.old) self.old.backends.items }
        ensures script { L.script seg.new ≡ L.script seg.old }
        ensures leaves { LeavesWell (L.script seg.old) (L.history seg.old) (L.history seg.new) (L.promised seg.old) (L.promised seg.new) }
        ensures follows { OnErr result (FollowsStops (L.script seg.old) (L.history seg.old) (b - 1) (L.history seg.new)) }
        ensures goes { OnOk result (GoesOn (L.script seg.old) (L.history seg.old) (b - 1) (L.history seg.new) self.new.backends.items b) }
    {
        'running: while !self.backends[b as usize - 1].is_stopped() {
            self.make_step(seg, b)?;
        }
        Ok(())
    }
}
