ghost use Rattle.std.specs.Prelude.{◌≡◌, ◌≤◌, ◌<◌, ◌+◌, ◌++◌, ℕ, [], ◌∷◌, true, false, length, IfOk, OnOk, OnErr};
ghost use Rattle.backend_core.specs.Looks.{IsOnItsWay};
ghost use Rattle.thread_run.specs.Turns.{WaitsWherever, IsAtCommand};
ghost use Rattle.thread_run.specs.Stops.{StopsBy};
ghost use Rattle.thread_run.specs.Asks.{ask_of, AsksTo, AsksSome, StopsBefore};
ghost use Rattle.thread_run.specs.AskedBefore.{asked_before};

use crate::RunRefusal;
use crate::halted_at::HaltedAt;
use crate::shared_play::SharedPlay;
use arrayvec::ArrayVec;
use backend_core::{Backend, HeldLook, LookFor, Want};
use base_types::NoMemory;
use edge_io::{Gate, Go};
use std::alloc::Global;
use std::sync::Wait;
use turn_table::{Pass, TurnTable};

// How many looks a backend may hold back until its next turn.
const MOST_HELD: usize = 16;

// The most entries of a turn after its first. It ends sooner where the backend is at its next command, or has left.
const MORE_ENTRIES: u32 = 63;

// Some turns are short, so that others' entries come between those of one command: so many first turns of a backend,
// and then each whose number is a multiple of the other.
const FIRST_SHORT: u32 = 64;

const SHORT_EVERY: u32 = 16;

// A short turn makes fewer entries than this after its first: none, one, two and so on, and then none again.
const SHORT_ENTRIES: u32 = 8;

/// A backend at work. Between two of its turns it holds back the looks that it has made since the last.
#[derive(Drop)]
pub(crate) struct Worker {
    /// The right to its turns.
    pub(crate) pass: Pass<SharedPlay>,
    /// The backend, which has the number of the pass.
    pub(crate) backend: Backend,
    pub(crate) held: ArrayVec<HeldLook, MOST_HELD>,
    // how many turns it has taken in which it made its next entry, by which `more_entries` goes
    pub(crate) turns: u32,
    // whether memory was refused in its last turn, which it takes where its gate has stopped it
    pub(crate) halt_refused: bool,
}

impl Worker {
    ghost use Rattle.backend_core.specs.Looks.{Wants};
    ghost use Rattle.backend_core.specs.Words.{has_left};
    ghost use Rattle.backend_core.specs.Halts.{HaltsWherever};
    ghost use Rattle.turn_table.specs.Passes.{start_of, seen_by, was_told};
    ghost use Rattle.thread_run.specs.Workers.{IsAt, IsNewAt, HasAllAt, Goes, HasLooked, TakesTurn, MakesALook, DoesNext, HasStepped, WasStopped};
    ghost use Rattle.ddl_effect.specs.Commands.{commands_of};
    ghost use Rattle.thread_run.specs.Asks.{AsksBy};
    ghost use Rattle.thread_run.specs.AskedBefore.{GoesAsked, asked_so_far};
    ghost use Rattle.thread_run.specs.Turns.{MayTakeTurn, MayHalt, IsBetween, IsUnderway, HasEnded};

    /// A backend with its pass, before its first turn.
    pub(crate) fn new(pass: Pass<SharedPlay>, backend: Backend) -> Worker
        ensures { (result.pass ≡ pass) × (result.backend ≡ backend) × (result.held.items ≡ []) }
    {
        Worker {
            pass,
            backend,
            held: ArrayVec::new(),
            turns: 0,
            halt_refused: false,
        }
    }

    /// Its whole work, from its first entry to its last. It ends early where memory is refused (`NoMemory`); where
    /// the gate stops it (`Stopped`), it takes back what it hasn't committed, and leaves, or says that memory was
    /// refused for that.
    pub(crate) fn work<R: Wait, G: Gate>(
        self,
        rt: &R,
        alloc: Global,
        table: &TurnTable<SharedPlay>,
        gate: &mut G,
    ) -> (Worker, Result<(), RunRefusal>)
        requires at { IsAt table.now self }
        requires new { IsNewAt table.now self }
        ensures goes { Goes table.now self result.0 }
        ensures ended { OnOk result.1 (HasEnded (start_of table.now).whole self.pass.number (seen_by result.0.pass) result.0.backend × HasAllAt table.now result.0) }
        ensures halted { result.1 ≡ Err RunRefusal.Stopped → result.0.halt_refused ≡ false → has_left result.0.backend.life ≡ true }
        ensures stops { StopsBy (G.stops gate.old) (G.stops gate.new) result.1 }
        ensures asked { AsksBy result.1 self.pass.number (length (commands_of (start_of table.now).whole self.pass.number)) (G.asked gate.old) (G.asked gate.new) }
        ensures stopped { result.1 ≡ Err RunRefusal.Stopped → WasStopped G.stops G.asked self.pass.number 0 gate.old gate.new result.0 }
    {
        let mut worker = self;
        'working: for _ in rt.forever() {
            if worker.backend.is_stopped() {
                return (worker, Ok(()));
            }
            let (next, made) = worker.step(rt, alloc, table, gate);
            worker = next;
            let Ok(()) = made else {
                return (worker, made);
            };
        }
        unreachable!()
    }

    // What it wants next, and then what needs neither a look nor a turn; its last turn, where the gate stops it.
    fn step<R: Wait, G: Gate>(
        self,
        rt: &R,
        alloc: Global,
        table: &TurnTable<SharedPlay>,
        gate: &mut G,
    ) -> (Worker, Result<(), RunRefusal>)
        requires at { IsAt table.now self }
        requires all { HasAllAt table.now self }
        requires between { IsBetween (start_of table.now).whole self.pass.number (seen_by self.pass) self.held.items self.backend }
        ensures goes { Goes table.now self result.0 }
        ensures all { OnOk result.1 (HasAllAt table.now result.0) }
        ensures between { OnOk result.1 (IsBetween (start_of table.now).whole self.pass.number (seen_by result.0.pass) result.0.held.items result.0.backend) }
        ensures halted { result.1 ≡ Err RunRefusal.Stopped → result.0.halt_refused ≡ false → has_left result.0.backend.life ≡ true }
        ensures stops { StopsBy (G.stops gate.old) (G.stops gate.new) result.1 }
        ensures steps { OnOk result.1 (HasStepped self result.0) }
        ensures asked { OnOk result.1 (AsksTo self.pass.number (asked_so_far self.backend) (asked_so_far result.0.backend) (G.asked gate.old) (G.asked gate.new)) }
        ensures some { AsksSome self.pass.number (asked_so_far self.backend) (G.asked gate.old) (G.asked gate.new) }
        ensures stopped { result.1 ≡ Err RunRefusal.Stopped → WasStopped G.stops G.asked self.pass.number (asked_so_far self.backend) gate.old gate.new result.0 }
    {
        let (mut worker, made) = self.next(rt, alloc, table);
        let Ok(over) = made else {
            return (worker, Err(RunRefusal::NoMemory));
        };
        if worker.backend.is_stopped() {
            return (worker, Ok(()));
        }
        match go_on(rt, alloc, &mut worker.backend, gate, over) {
            Ok(()) => (worker, Ok(())),
            Err(RunRefusal::NoMemory) => (worker, Err(RunRefusal::NoMemory)),
            Err(RunRefusal::Stopped) => {
                (worker.halt(rt, alloc, table), Err(RunRefusal::Stopped))
            }
        }
    }

    // A look or a turn, as it wants; none, if it has left. The answer: whether it is at a command.
    fn next<R: Wait>(
        self,
        rt: &R,
        alloc: Global,
        table: &TurnTable<SharedPlay>,
    ) -> (Worker, Result<bool, NoMemory>)
        requires at { IsAt table.now self }
        requires all { HasAllAt table.now self }
        requires between { IsBetween (start_of table.now).whole self.pass.number (seen_by self.pass) self.held.items self.backend }
        ensures goes { Goes table.now self result.0 }
        ensures all { OnOk result.1 (HasAllAt table.now result.0) }
        ensures underway { IfOk result.1 (λ over. IsUnderway (start_of table.now).whole self.pass.number (seen_by result.0.pass) result.0.held.items over result.0.backend) }
        ensures does { DoesNext self result.0 result.1 }
        ensures id { OnOk result.1 (result.0.backend.progress.id ≡ self.pass.number) }
    {
        match self.backend.wants() {
            Want::Look(look) => self.make_look(rt, alloc, table, look),
            Want::Turn => self.take_turn(rt, alloc, table, true),
            Want::Ended => (self, Ok(false)),
        }
    }

    // A look. Only where that says yes, or where it would hold back too many looks, a turn comes of it, in which it
    // hands them over.
    fn make_look<R: Wait>(
        self,
        rt: &R,
        alloc: Global,
        table: &TurnTable<SharedPlay>,
        look: LookFor,
    ) -> (Worker, Result<bool, NoMemory>)
        requires at { IsAt table.now self }
        requires all { HasAllAt table.now self }
        requires between { IsBetween (start_of table.now).whole self.pass.number (seen_by self.pass) self.held.items self.backend }
        requires wants { Wants self.backend (Want.Look look) }
        ensures goes { Goes table.now self result.0 }
        ensures all { OnOk result.1 (HasAllAt table.now result.0) }
        ensures underway { IfOk result.1 (λ over. IsUnderway (start_of table.now).whole self.pass.number (seen_by result.0.pass) result.0.held.items over result.0.backend) }
        ensures looks { MakesALook self result.0 result.1 }
        ensures id { OnOk result.1 (result.0.backend.progress.id ≡ self.pass.number) }
    {
        let (worker, hands_over) = self.look(table, look);
        if hands_over {
            return worker.take_turn(rt, alloc, table, false);
        }
        (worker, Ok(false))
    }

    // Looks by its word, and holds the look back: whether its looks are to be handed over. It takes no turn, and waits for
    // nobody.
    fn look(self, table: &TurnTable<SharedPlay>, look: LookFor) -> (Worker, bool)
        requires at { IsAt table.now self }
        requires between { IsBetween (start_of table.now).whole self.pass.number (seen_by self.pass) self.held.items self.backend }
        requires wants { Wants self.backend (Want.Look look) }
        ensures goes { Goes table.now self result.0 }
        ensures looked { HasLooked self result.0 result.1 }
    {
        let Worker {
            mut pass,
            mut backend,
            mut held,
            turns,
            halt_refused,
        } = self;
        let some_wait = table.look(&mut pass);
        held.push(backend.look_by_word(look, some_wait));
        let hands_over = some_wait || held.is_full();
        let worker = Worker {
            pass,
            backend,
            held,
            turns,
            halt_refused,
        };
        (worker, hands_over)
    }

    // Takes a turn: hands over the looks that it holds back and, where it `enters`, makes its next entry and maybe more.
    fn take_turn<R: Wait>(
        self,
        rt: &R,
        alloc: Global,
        table: &TurnTable<SharedPlay>,
        enters: bool,
    ) -> (Worker, Result<bool, NoMemory>)
        requires at { IsAt table.now self }
        requires all { HasAllAt table.now self }
        requires may { MayTakeTurn (start_of table.now).whole enters self.pass.number (seen_by self.pass) (was_told self.pass) self.held.items self.backend }
        ensures goes { Goes table.now self result.0 }
        ensures all { HasAllAt table.now result.0 }
        ensures underway { IfOk result.1 (λ over. IsUnderway (start_of table.now).whole self.pass.number (seen_by result.0.pass) result.0.held.items over result.0.backend) }
        ensures takes { OnOk result.1 (TakesTurn enters self result.0) }
        ensures asked { IfOk result.1 (λ over. GoesAsked self.pass.number over self.backend result.0.backend) }
    {
        let Worker {
            pass,
            mut backend,
            mut held,
            turns,
            halt_refused,
        } = self;
        let number = pass.number;
        let mut turn = table.open(rt, pass);
        let done = turn.value().work(
            alloc,
            number,
            &mut backend,
            held.as_slice(),
            enters,
            more_entries(turns),
        );
        turn.tell();
        let pass = table.close(turn);
        held.clear();
        (
            Worker {
                pass,
                backend,
                held,
                turns: turns.wrapping_add(u32::from(enters)),
                halt_refused,
            },
            done,
        )
    }

    // Its last turn, once the gate has stopped it: it takes back what it hasn't committed, releases, and leaves. Out of
    // memory, it may not have left.
    fn halt<R: Wait>(self, rt: &R, alloc: Global, table: &TurnTable<SharedPlay>) -> Worker
        requires at { IsAt table.now self }
        requires all { HasAllAt table.now self }
        requires may { (now : Backend) → HaltsWherever self.backend now → MayHalt (start_of table.now).whole self.pass.number (length self.backend.lines) (seen_by self.pass) self.held.items now }
        ensures goes { Goes table.now self result }
        ensures left { result.halt_refused ≡ false → has_left result.backend.life ≡ true }
        ensures most { result.halt_refused ≡ false → result.backend.progress.finished ≤ length self.backend.lines }
    {
        let Worker {
            pass,
            mut backend,
            mut held,
            turns,
            halt_refused: _,
        } = self;
        let at = HaltedAt {
            backend: pass.number,
            commands: backend.transcript().len(),
        };
        backend.halt(alloc);
        let mut last = table.open(rt, pass);
        let done = last
            .value()
            .stop(rt, alloc, &at, &mut backend, held.as_slice());
        last.tell();
        let pass = table.close(last);
        held.clear();
        Worker {
            pass,
            backend,
            held,
            turns,
            halt_refused: done.is_err(),
        }
    }
}

// The most entries that a backend's next turn makes after its first, by how many such turns it has taken.
fn more_entries(turns: u32) -> u32
    ensures few { result ≤ 63 }
{
    if turns < FIRST_SHORT {
        return turns % SHORT_ENTRIES;
    }
    if turns % SHORT_EVERY == 0 {
        return turns / SHORT_EVERY % SHORT_ENTRIES;
    }
    MORE_ENTRIES
}

// Goes on as far as it can without a look and without a turn; before each command, and after the last one,
// the gate is asked. It may be at a command already.
fn go_on<R: Wait, G: Gate>(
    rt: &R,
    alloc: Global,
    backend: &mut Backend,
    gate: &mut G,
    over: bool,
) -> Result<(), RunRefusal>
    requires right { IsOnItsWay backend.old }
    ensures waits { OnOk result (WaitsWherever backend.old backend.new) }
    ensures command { result ≡ Err RunRefusal.Stopped → IsAtCommand over backend.old backend.new }
    ensures stops { StopsBy (G.stops gate.old) (G.stops gate.new) result }
    ensures asks { OnOk result (AsksTo backend.old.progress.id (asked_before over backend.old) (backend.new.progress.finished + 1) (G.asked gate.old) (G.asked gate.new)) }
    ensures stopped { result ≡ Err RunRefusal.Stopped → StopsBefore G.stops G.asked backend.old.progress.id (asked_before over backend.old) backend.new.progress.finished gate.old gate.new }
    ensures some { AsksSome backend.old.progress.id (asked_before over backend.old) (G.asked gate.old) (G.asked gate.new) }
{
    ask_at(rt, gate, backend, over)?;
    'going: for _ in rt.forever() {
        if !backend.go_to_command(alloc)? {
            return Ok(());
        }
        ask(rt, gate, backend)?;
    }
    unreachable!()
}

// Asks the gate where the backend is at its next command.
fn ask_at<R: Wait, G: Gate>(
    rt: &R,
    gate: &mut G,
    backend: &Backend,
    over: bool,
) -> Result<(), RunRefusal>
    requires few { length backend.now.lines ≤ 20000 }
    requires count { length backend.now.lines ≡ backend.now.progress.finished }
    ensures stops { StopsBy (G.stops gate.old) (G.stops gate.new) result }
    ensures command { OnErr result (over ≡ true) }
    ensures asked { OnErr result (G.asked gate.new ≡ G.asked gate.old ++ ask_of backend.now.progress.id (backend.now.progress.finished + 1) ∷ []) }
    ensures asks { AsksTo backend.now.progress.id (asked_before over backend.now) (backend.now.progress.finished + 1) (G.asked gate.old) (G.asked gate.new) }
{
    if over {
        return ask(rt, gate, backend);
    }
    Ok(())
}

// Asks the gate whether the backend goes on to its next command.
fn ask<R: Wait, G: Gate>(rt: &R, gate: &mut G, backend: &Backend) -> Result<(), RunRefusal>
    requires few { length backend.now.lines ≤ 20000 }
    ensures stops { StopsBy (G.stops gate.old) (G.stops gate.new) result }
    ensures asked { G.asked gate.new ≡ G.asked gate.old ++ ask_of backend.now.progress.id (length backend.now.lines + 1) ∷ [] }
{
    let finished = backend.transcript().len() as u32;
    match gate.pass(rt, backend.id(), finished + 1) {
        Go::On => Ok(()),
        Go::Stop => Err(RunRefusal::Stopped),
    }
}
