ghost use Rattle.std.specs.Prelude.{◌≡◌, ◌≢◌, ◌≤◌, ◌<◌, ◌+◌, ℕ, [], true, false, length, IfOk, OnOk};
ghost use Rattle.base_types.specs.Scenario.{IsBackend};
ghost use Rattle.cacheless.specs.State.{one_if};

use crate::halted_at::HaltedAt;
use crate::turn_work::{hand_over, stop_in_turn, work_in_turn};
use backend_core::{Backend, HeldLook, PLACES};
use base_types::NoMemory;
use event_kinds::Entry;
use ghost_list::GhostValue;
use script_text::Script;
use seg_calls::Seg;
use shared_seg::{Retold, Shared};
use std::alloc::Global;
use std::marker::Model;
use std::sync::Wait;
use turn_table::{Tells, Turned};

/// What the backends of a run share: a segment of which the history so far was played by the script, or by what
/// is left of it where backends were halted.
#[derive(Drop)]
pub(crate) struct SharedPlay {
    shared: Shared,
    whole: GhostValue<Script>,
}

impl Model for SharedPlay {
    ghost use Rattle.thread_run.specs.Runs.{IsRunSoFar};
    ghost use Rattle.thread_run.specs.Scripts.{Play, IsLeft};

    ghost Value = { Play };

    ghost view = { λ play. record { shared = play.shared; whole = play.whole.value } };

    ghost invariant = { λ play. IsRunSoFar play.shared.script play.shared.history × IsLeft play.whole.value play.shared.script };
}

impl Turned for SharedPlay {
    ghost use Rattle.history_model.specs.Log.{is_waiting};
    ghost use Rattle.history_model.proofs.Waiting.{waiting-other};
    ghost use Rattle.thread_run.specs.Scripts.{commands_left};

    type Entry = Entry;

    type Fixed = Script;

    ghost fixed = { λ play. play.whole };

    ghost history = { λ play. play.shared.history };

    ghost owner = { λ e. e.backend };

    ghost waiting = { is_waiting };

    ghost room = { commands_left };

    ghost stays = { waiting-other };
}

impl Tells for SharedPlay {
    fn waits_for(&self, seat: u32) -> bool {
        self.shared.waits(seat)
    }
}

// A backend that was halted makes no more than its first commands.
impl Retold for HaltedAt {
    ghost use Rattle.std.specs.Prelude.{refl};
    ghost use Rattle.backend_core.specs.Cuts.{cut};
    ghost use Rattle.thread_run.specs.CutScripts.{cut_script};

    ghost retold = { λ at scenario. cut at.backend at.commands scenario };

    ghost backends = { λ at scenario. refl };

    ghost size = { λ at scenario. refl };

    ghost from = { λ at scenario. refl };

    ghost is_script = { λ at scenario is. cut_script at.backend at.commands scenario is };
}

impl SharedPlay {
    ghost use Rattle.shared_seg.specs.Kept.{places_in};
    ghost use Rattle.backend_core.specs.Agrees.{AreSpelled, IsPlayed, Stands};
    ghost use Rattle.backend_core.specs.Apart.{IsHolding};
    ghost use Rattle.backend_core.specs.Cuts.{cut};
    ghost use Rattle.backend_core.specs.Words.{has_left, has_joined};
    ghost use Rattle.turn_table.specs.Histories.{Grew};
    ghost use Rattle.backend_core.specs.Places.{PromisesOnly};
    ghost use Rattle.thread_run.specs.AskedBefore.{asked_before};
    ghost use Rattle.thread_run.specs.Runs.{IsRunSoFar};
    ghost use Rattle.thread_run.specs.Scripts.{IsLeft, commands_left};
    ghost use Rattle.thread_run.specs.Turns.{backend_of, right_before, EntersInTurn, MakesAll, HasTakenTurn, IsHalting};

    /// An empty history, for this script, with places promised to each backend.
    pub(crate) fn new(alloc: Global, script: &Script) -> Result<SharedPlay, NoMemory>
        requires spelled { AreSpelled script.now }
        ensures history { IfOk result (λ play. play.shared.history ≡ []) }
        ensures script { IfOk result (λ play. (play.whole ≡ script.now) × (play.shared.script ≡ script.now)) }
        ensures places { IfOk result (λ play. (b : ℕ) → IsBackend script.now.backends b → places_in play.shared b ≡ 48) }
    {
        let mut shared = Shared::new(alloc, script)?;
        promise_all(&mut shared, script.backends())?;
        Ok(SharedPlay {
            shared,
            whole: GhostValue::of(script),
        })
    }

    /// The work of the backend of this number in its turn: it hands over the looks that it held back, in order, and
    /// where it `enters`, makes its next entry, and goes on until it is at a command, which is the answer, has left,
    /// or has made `most` entries more. Out of memory, the history has grown by own entries alone, and the backend
    /// may not be used any more.
    pub(crate) fn work(
        &mut self,
        alloc: Global,
        b: u32,
        backend: &mut Backend,
        looks: &[HeldLook],
        enters: bool,
        most: u32,
    ) -> Result<bool, NoMemory>
        requires backend { IsBackend self.old.whole.backends b }
        requires few { length looks.now ≤ 16 }
        requires alive { enters ≡ true → has_left backend.old.life ≡ false }
        requires holds { IsLeft self.old.whole self.old.shared.script → IsPlayed self.old.shared.script self.old.shared.history → IsHolding (right_before enters) self.old.shared.script b self.old.shared.history looks.now backend.old }
        ensures whole { self.new.whole ≡ self.old.whole }
        ensures script { self.new.shared.script ≡ self.old.shared.script }
        ensures left { IsLeft self.new.whole self.new.shared.script }
        ensures grew { Grew backend_of b self.old.shared.history self.new.shared.history }
        ensures promises { (a : ℕ) → a ≢ b → places_in self.new.shared a ≡ places_in self.old.shared a }
        ensures own { PromisesOnly self.old.shared.script b self.old.shared.history self.new.shared.history (places_in self.old.shared b) (places_in self.new.shared b) }
        ensures none { enters ≡ false → 32 ≤ places_in self.old.shared b → places_in self.new.shared b ≤ places_in self.old.shared b }
        ensures few { length self.new.shared.history ≤ length self.old.shared.history + length looks.now + (1 + most) }
        ensures enters { OnOk result (EntersInTurn enters b looks.now self.old.shared.history self.new.shared.history) }
        ensures full { enters ≡ true → IfOk result (λ over. MakesAll over backend.new (length looks.now + (1 + most)) self.old.shared.history self.new.shared.history) }
        ensures works { IfOk result (λ over. HasTakenTurn self.new.shared.script b self.new.shared.history over backend.new) }
        ensures number { IfOk result (λ over. has_joined backend.old.life ≡ true → backend.new.progress.finished ≡ backend.old.progress.finished + one_if over) }
        ensures first { IfOk result (λ over. has_joined backend.old.life ≡ false → asked_before over backend.new ≡ 0) }
    {
        work_in_turn(&mut self.shared, alloc, b, backend, looks, enters, most)
    }

    /// The last turn of a backend that was halted: it hands over the looks that it held back, and then makes what it
    /// makes after its last command, until it has left. Out of memory, the history has grown by own entries alone.
    pub(crate) fn stop<R: Wait>(
        &mut self,
        rt: &R,
        alloc: Global,
        at: &HaltedAt,
        backend: &mut Backend,
        looks: &[HeldLook],
    ) -> Result<(), NoMemory>
        requires backend { IsBackend self.old.whole.backends at.now.backend }
        requires few { length looks.now ≤ 16 }
        requires halts { IsLeft self.old.whole self.old.shared.script → IsPlayed self.old.shared.script self.old.shared.history → IsHalting self.old.shared.script at.now.backend at.now.commands self.old.shared.history looks.now backend.old }
        ensures whole { self.new.whole ≡ self.old.whole }
        ensures others { (a : ℕ) → a ≢ at.now.backend → commands_left self.new a ≡ commands_left self.old a }
        ensures promises { (a : ℕ) → a ≢ at.now.backend → places_in self.new.shared a ≡ places_in self.old.shared a }
        ensures own { PromisesOnly self.new.shared.script at.now.backend self.old.shared.history self.new.shared.history (places_in self.old.shared at.now.backend) (places_in self.new.shared at.now.backend) }
        ensures grew { Grew backend_of at.now.backend self.old.shared.history self.new.shared.history }
        ensures left { OnOk result (has_left backend.new.life ≡ true) }
        ensures stands { OnOk result (Stands self.new.shared.script self.new.shared.history backend.new) }
        ensures finished { OnOk result (backend.new.progress.finished ≤ at.now.commands) }
        ensures script { OnOk result (self.new.shared.script ≡ cut at.now.backend at.now.commands self.old.shared.script) }
    {
        hand_over(&mut self.shared, at.backend, backend, looks)?;
        self.shared.retell(at);
        stop_in_turn(rt, &mut self.shared, alloc, at.backend, backend)
    }

    /// The history, which was played by what is left of the script.
    pub(crate) fn into_history(self) -> Vec<Entry>
        ensures history { result.items ≡ self.shared.history }
        ensures run { IsRunSoFar self.shared.script self.shared.history }
        ensures left { IsLeft self.whole self.shared.script }
    {
        let SharedPlay { shared, whole: _ } = self;
        shared.into_history()
    }
}

// Promises places to each backend.
fn promise_all<L: Seg>(seg: &mut L, backends: u32) -> Result<(), NoMemory>
    requires backends { (L.script seg.old).backends ≡ backends }
    requires none { (b : ℕ) → L.promised seg.old b ≡ 0 }
    ensures script { L.script seg.new ≡ L.script seg.old }
    ensures history { L.history seg.new ≡ L.history seg.old }
    ensures places { OnOk result ((b : ℕ) → IsBackend backends b → L.promised seg.new b ≡ 48) }
{
    'promising: for number in 0..backends {
        seg.promise(number + 1, PLACES)?;
    }
    Ok(())
}
