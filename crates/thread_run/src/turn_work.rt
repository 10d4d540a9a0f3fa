//! What a backend does in its turn, on any segment.

ghost use Rattle.std.specs.Prelude.{◌≡◌, ◌≢◌, ◌≤◌, ◌+◌, ◌++◌, ◌⊎◌, ℕ, true, false, length, max, IfOk, OnOk, OnErr};
ghost use Rattle.base_types.specs.Scenario.{IsBackend};
ghost use Rattle.turn_table.specs.Histories.{Grew};
ghost use Rattle.cacheless.specs.State.{one_if};
ghost use Rattle.backend_core.specs.Agrees.{Stands};
ghost use Rattle.backend_core.specs.Apart.{IsHolding};
ghost use Rattle.backend_core.specs.Looks.{entries_of, MayCallAll};
ghost use Rattle.backend_core.specs.Places.{PromisesOnly};
ghost use Rattle.backend_core.specs.Words.{has_left, has_joined};
ghost use Rattle.thread_run.specs.AskedBefore.{asked_before};
ghost use Rattle.thread_run.specs.Runs.{IsRunSoFar};
ghost use Rattle.thread_run.specs.Turns.{backend_of, right_before, HasMore, EntersInTurn, MakesAll, HasTakenTurn};
ghost use Rattle.thread_run.specs.Entering.{MayEnterNext, PlaysOn, PromisesWanted, ComesTo};

use backend_core::{Backend, HeldLook, PLACES};
use base_types::NoMemory;
use seg_calls::Seg;
use std::alloc::Global;
use std::sync::Wait;

// Where so many places in the history are left, none has to be promised for looks that are handed over: there
// are as many again for those that are held back after them.
const FOR_LOOKS: u32 = 32;

// The same before an entry: a place for it, and for each look that is held back after it.
const FOR_ENTRY: u32 = 17;

/// The work of the backend of this number in its turn: it hands over the looks that it held back, in order, and
/// where it `enters`, makes its next entry, and goes on until it is at a command, which is the answer, has left,
/// or has made `most` entries more. Out of memory, the history has grown by own entries alone, and the backend
/// may not be used any more.
pub(crate) fn work_in_turn<L: Seg>(
    seg: &mut L,
    alloc: Global,
    b: u32,
    backend: &mut Backend,
    looks: &[HeldLook],
    enters: bool,
    most: u32,
) -> Result<bool, NoMemory>
    requires backend { IsBackend (L.script seg.old).backends b }
    requires few { length looks.now ≤ 16 }
    requires alive { enters ≡ true → has_left backend.old.life ≡ false }
    requires run { IsRunSoFar (L.script seg.old) (L.history seg.old) }
    requires holds { IsHolding (right_before enters) (L.script seg.old) b (L.history seg.old) looks.now backend.old }
    ensures script { L.script seg.new ≡ L.script seg.old }
    ensures run { IsRunSoFar (L.script seg.new) (L.history seg.new) }
    ensures grew { Grew backend_of b (L.history seg.old) (L.history seg.new) }
    ensures others { (a : ℕ) → a ≢ b → L.promised seg.new a ≡ L.promised seg.old a }
    ensures own { PromisesOnly (L.script seg.old) b (L.history seg.old) (L.history seg.new) (L.promised seg.old b) (L.promised seg.new b) }
    ensures none { enters ≡ false → 32 ≤ L.promised seg.old b → L.promised seg.new b ≤ L.promised seg.old b }
    ensures few { length (L.history seg.new) ≤ length (L.history seg.old) + length looks.now + (1 + most) }
    ensures enters { OnOk result (EntersInTurn enters b looks.now (L.history seg.old) (L.history seg.new)) }
    ensures full { enters ≡ true → IfOk result (λ over. MakesAll over backend.new (length looks.now + (1 + most)) (L.history seg.old) (L.history seg.new)) }
    ensures works { IfOk result (λ over. HasTakenTurn (L.script seg.new) b (L.history seg.new) over backend.new) }
    ensures number { IfOk result (λ over. has_joined backend.old.life ≡ true → backend.new.progress.finished ≡ backend.old.progress.finished + one_if over) }
    ensures first { IfOk result (λ over. has_joined backend.old.life ≡ false → asked_before over backend.new ≡ 0) }
{
    hand_over(seg, b, backend, looks)?;
    if !enters {
        return Ok(false);
    }
    enter_all(seg, alloc, b, backend, most)
}

/// Hands over the looks that a backend held back, in order, with places for them and for as many after them. Out
/// of memory, none is handed over.
pub(crate) fn hand_over<L: Seg>(
    seg: &mut L,
    b: u32,
    backend: &Backend,
    looks: &[HeldLook],
) -> Result<(), NoMemory>
    requires backend { IsBackend (L.script seg.old).backends b }
    requires id { backend.now.progress.id ≡ b }
    requires few { length looks.now ≤ 16 }
    requires calls { MayCallAll (L.script seg.old) (L.history seg.old) (entries_of b looks.now) }
    ensures script { L.script seg.new ≡ L.script seg.old }
    ensures hands { OnOk result (L.history seg.new ≡ L.history seg.old ++ entries_of b looks.now) }
    ensures room { OnOk result (16 ≤ L.promised seg.new b) }
    ensures most { L.promised seg.new b ≤ max (L.promised seg.old b) 48 }
    ensures none { 32 ≤ L.promised seg.old b → L.promised seg.new b ≤ L.promised seg.old b }
    ensures refused { OnErr result (L.history seg.new ≡ L.history seg.old) }
    ensures others { (a : ℕ) → a ≢ b → L.promised seg.new a ≡ L.promised seg.old a }
{
    renew(seg, b, 0, FOR_LOOKS)?;
    backend.hand_looks(seg, looks);
    Ok(())
}

// Promises so many places, and no fewer than it has always; where that is 0, none as long as there are `enough`.
// Out of memory, nothing has changed.
fn renew<L: Seg>(seg: &mut L, b: u32, wanted: u32, enough: u32) -> Result<(), NoMemory>
    requires backend { IsBackend (L.script seg.old).backends b }
    requires enough { enough ≤ 48 }
    ensures script { L.script seg.new ≡ L.script seg.old }
    ensures history { L.history seg.new ≡ L.history seg.old }
    ensures room { OnOk result (enough ≤ L.promised seg.new b) }
    ensures wanted { OnOk result (wanted ≤ L.promised seg.new b) }
    ensures most { OnOk result (L.promised seg.new b ≤ max (L.promised seg.old b) (max wanted 48)) }
    ensures least { OnOk result ((L.promised seg.new b ≡ L.promised seg.old b) ⊎ (48 ≤ L.promised seg.new b)) }
    ensures kept { OnErr result (L.promised seg.new b ≡ L.promised seg.old b) }
    ensures none { OnOk result (wanted ≡ 0 → enough ≤ L.promised seg.old b → L.promised seg.new b ≡ L.promised seg.old b) }
    ensures others { (a : ℕ) → a ≢ b → L.promised seg.new a ≡ L.promised seg.old a }
{
    if wanted == 0 && enough <= seg.promised(b) {
        return Ok(());
    }
    seg.promise(b, wanted.max(PLACES))
}

// Its next entry, and those after it until the turn ends. A backend that joins is at its first command then.
fn enter_all<L: Seg>(
    seg: &mut L,
    alloc: Global,
    b: u32,
    backend: &mut Backend,
    most: u32,
) -> Result<bool, NoMemory>
    requires may { MayEnterNext (L.script seg.old) b (L.history seg.old) backend.old }
    ensures plays { PlaysOn b (L.script seg.old) (L.script seg.new) (L.history seg.old) (L.history seg.new) (L.promised seg.old) (L.promised seg.new) }
    ensures few { length (L.history seg.new) ≤ length (L.history seg.old) + (1 + most) }
    ensures full { IfOk result (λ over. MakesAll over backend.new (1 + most) (L.history seg.old) (L.history seg.new)) }
    ensures more { OnOk result (HasMore b (L.history seg.old) (L.history seg.new)) }
    ensures comes { IfOk result (λ over. ComesTo (L.script seg.new) b (L.history seg.new) over backend.old backend.new) }
{
    if enter_one(seg, alloc, b, backend)? {
        return Ok(true);
    }
    enter_more(seg, alloc, b, backend, most)
}

// Makes its next entry, a look by what waits for it now: whether it has joined by that, and is at its first
// command.
fn enter_one<L: Seg>(
    seg: &mut L,
    alloc: Global,
    b: u32,
    backend: &mut Backend,
) -> Result<bool, NoMemory>
    requires may { MayEnterNext (L.script seg.old) b (L.history seg.old) backend.old }
    ensures plays { PlaysOn b (L.script seg.old) (L.script seg.new) (L.history seg.old) (L.history seg.new) (L.promised seg.old) (L.promised seg.new) }
    ensures few { length (L.history seg.new) ≤ length (L.history seg.old) + 1 }
    ensures promises { OnOk result (PromisesWanted backend.old (L.promised seg.old b) (L.promised seg.new b)) }
    ensures more { OnOk result (HasMore b (L.history seg.old) (L.history seg.new)) }
    ensures comes { IfOk result (λ over. ComesTo (L.script seg.new) b (L.history seg.new) over backend.old backend.new) }
{
    renew(seg, b, backend.places_wanted(), FOR_ENTRY)?;
    let joins = !backend.has_joined();
    backend.enter_in_turn(alloc, seg)?;
    Ok(joins)
}

// Goes on after an entry until it is at a command, which is the answer, has left, or has made so many entries more.
fn enter_more<L: Seg>(
    seg: &mut L,
    alloc: Global,
    b: u32,
    backend: &mut Backend,
    most: u32,
) -> Result<bool, NoMemory>
    requires backend { IsBackend (L.script seg.old).backends b }
    requires taken { HasTakenTurn (L.script seg.old) b (L.history seg.old) false backend.old }
    ensures plays { PlaysOn b (L.script seg.old) (L.script seg.new) (L.history seg.old) (L.history seg.new) (L.promised seg.old) (L.promised seg.new) }
    ensures few { length (L.history seg.new) ≤ length (L.history seg.old) + most }
    ensures full { IfOk result (λ over. MakesAll over backend.new most (L.history seg.old) (L.history seg.new)) }
    ensures comes { IfOk result (λ over. ComesTo (L.script seg.new) b (L.history seg.new) over backend.old backend.new) }
{
    'entering: for _made in 0..most {
        if backend.is_stopped() {
            return Ok(false);
        }
        if backend.go_to_command(alloc)? {
            return Ok(true);
        }
        if enter_one(seg, alloc, b, backend)? {
            return Ok(true);
        }
    }
    Ok(false)
}

/// Makes what a backend makes until it has left. Out of memory, the history has grown by own entries alone, and
/// the backend may not be used any more.
pub(crate) fn stop_in_turn<R: Wait, L: Seg>(
    rt: &R,
    seg: &mut L,
    alloc: Global,
    b: u32,
    backend: &mut Backend,
) -> Result<(), NoMemory>
    requires backend { IsBackend (L.script seg.old).backends b }
    requires id { backend.old.progress.id ≡ b }
    requires run { IsRunSoFar (L.script seg.old) (L.history seg.old) }
    requires stands { Stands (L.script seg.old) (L.history seg.old) backend.old }
    ensures script { L.script seg.new ≡ L.script seg.old }
    ensures run { IsRunSoFar (L.script seg.new) (L.history seg.new) }
    ensures grew { Grew backend_of b (L.history seg.old) (L.history seg.new) }
    ensures others { (a : ℕ) → a ≢ b → L.promised seg.new a ≡ L.promised seg.old a }
    ensures own { PromisesOnly (L.script seg.old) b (L.history seg.old) (L.history seg.new) (L.promised seg.old b) (L.promised seg.new b) }
    ensures left { OnOk result (has_left backend.new.life ≡ true) }
    ensures id { OnOk result (backend.new.progress.id ≡ b) }
    ensures stands { OnOk result (Stands (L.script seg.new) (L.history seg.new) backend.new) }
{
    'stopping: for _ in rt.forever() {
        if backend.is_stopped() {
            return Ok(());
        }
        step_in_turn(seg, alloc, b, backend)?;
    }
    unreachable!()
}

// Makes its next entry, and goes on until it waits for another.
fn step_in_turn<L: Seg>(
    seg: &mut L,
    alloc: Global,
    b: u32,
    backend: &mut Backend,
) -> Result<(), NoMemory>
    requires may { MayEnterNext (L.script seg.old) b (L.history seg.old) backend.old }
    ensures plays { PlaysOn b (L.script seg.old) (L.script seg.new) (L.history seg.old) (L.history seg.new) (L.promised seg.old) (L.promised seg.new) }
    ensures promises { OnOk result (PromisesWanted backend.old (L.promised seg.old b) (L.promised seg.new b)) }
    ensures more { OnOk result (HasMore b (L.history seg.old) (L.history seg.new)) }
    ensures id { OnOk result (backend.new.progress.id ≡ b) }
    ensures stands { OnOk result (Stands (L.script seg.new) (L.history seg.new) backend.new) }
{
    let wanted = backend.places_wanted();
    renew(seg, b, wanted, FOR_ENTRY)?;
    backend.step(alloc, seg)
}
