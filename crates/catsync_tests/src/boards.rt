// Gates that note on a board what they are asked, and go by what is on it.

ghost use Rattle.std.specs.Prelude.{◌≡◌, ℕ, [], ◌∷◌, ◌++◌};

use base_types::NoMemory;
use edge_io::{Asked as Question, Gate, Go};
use ghost_list::GhostList;
use std::alloc::Global;
use std::sync::{Condvar, Mutex, Wait};

// What a gate was asked.
#[derive(Clone, Copy, Debug)]
struct Asked {
    gate: u32,
    backend: u32,
    command: u32,
}

// What all gates were asked, in order.
#[derive(Drop)]
pub(crate) struct Board {
    asked: Mutex<Vec<Asked>>,
    more: Condvar,
}

// More than the gates of a test are asked, so that a board takes memory once.
const MOST_ASKED: usize = 1024;

impl Board {
    pub(crate) fn new(alloc: Global) -> Result<Board, NoMemory> {
        let asked = Vec::with_capacity(alloc, MOST_ASKED)?;
        Ok(Board {
            asked: Mutex::new(asked),
            more: Condvar::new(),
        })
    }

    fn note<R: Wait>(&self, rt: &R, asked: Asked) {
        let _ = self.asked.lock(rt).push(asked);
        self.more.notify_all();
    }

    // Waits until this backend was asked for a command of at least this number.
    fn wait_for<R: Wait>(&self, rt: &R, backend: u32, command: u32) {
        let _asked = self.more.wait_while(
            rt,
            self.asked.lock(rt),
            |asked| !has_come(asked, backend, command),
        );
    }

    // Whether the gate of this number was asked so many times: for the backend of its number, and for the
    // commands from 1 on, one after another.
    pub(crate) fn was_asked<R: Wait>(&self, rt: &R, gate: u32, times: u32) -> bool {
        let asked = self.asked.lock(rt);
        let mut count = 0u32;
        for one in asked.iter() {
            if one.gate == gate {
                count = count.saturating_add(1);
                if one.backend != gate || one.command != count {
                    return false;
                }
            }
        }
        count == times
    }
}

fn has_come(asked: &[Asked], backend: u32, command: u32) -> bool {
    for one in asked {
        if one.backend == backend && one.command >= command {
            return true;
        }
    }
    false
}

// What a gate does.
#[derive(Clone, Copy, Debug)]
pub(crate) enum Plan {
    // It lets all pass.
    Open,
    // It stops its backend before this command.
    Stop {
        command: u32,
    },
    // Before this command it waits until another backend is asked for that one.
    After {
        command: u32,
        backend: u32,
        until: u32,
    },
    // Before each command from this number on it waits until each of so many backends is asked for that of the same
    // number.
    Meet {
        from: u32,
        backends: u32,
    },
}

// A gate of a board. It stops its backend once at most.
#[derive(Drop)]
pub(crate) struct BoardGate<'a> {
    board: &'a Board,
    number: u32,
    plan: Plan,
    stops: u32,
    questions: GhostList<Question>,
}

impl BoardGate<'_> {
    // Whether it is the gate of this number, and has stopped its backend so often.
    pub(crate) fn is(&self, number: u32, stops: u32) -> bool {
        self.number == number && self.stops == stops
    }

    fn hold<R: Wait>(&self, rt: &R, command: u32) {
        match self.plan {
            Plan::Open | Plan::Stop { .. } => (),
            Plan::After {
                command: at,
                backend,
                until,
            } => {
                if command == at {
                    self.board.wait_for(rt, backend, until);
                }
            }
            Plan::Meet { from, backends } => {
                if command >= from {
                    self.meet(rt, backends, command);
                }
            }
        }
    }

    fn meet<R: Wait>(&self, rt: &R, backends: u32, command: u32) {
        for number in 0..backends {
            self.board.wait_for(rt, number + 1, command);
        }
    }

    fn is_to_stop(&self, command: u32) -> bool {
        match self.plan {
            Plan::Stop { command: at } => command == at,
            _ => false,
        }
    }
}

impl Gate for BoardGate<'_> {
    ghost use Rattle.edge_io.specs.Gates.{StopHasCause};

    ghost stops = { λ gate. gate.stops };

    ghost asked = { λ gate. gate.questions.items };

    fn pass<R: Wait>(&mut self, rt: &R, backend: u32, command: u32) -> Go
        ensures cause { StopHasCause self.old.stops self.new.stops result }
        ensures asked { self.new.questions.items ≡ self.old.questions.items ++ record { backend = backend; command = command } ∷ [] }
    {
        self.questions.push(&Question { backend, command });
        let asked = Asked {
            gate: self.number,
            backend,
            command,
        };
        self.board.note(rt, asked);
        self.hold(rt, command);
        if self.stops == 0 && self.is_to_stop(command) {
            self.stops = 1;
            Go::Stop
        } else {
            Go::On
        }
    }
}

// A gate of the board for each plan, numbered from 1.
pub(crate) fn gates_on<'a>(
    alloc: Global,
    board: &'a Board,
    plans: &[Plan],
) -> Result<Vec<BoardGate<'a>>, NoMemory> {
    let mut gates = Vec::new(alloc);
    for plan in plans {
        let number = u32::try_from(gates.len())
            .unwrap_or(u32::MAX)
            .saturating_add(1);
        gates.push(BoardGate {
            board,
            number,
            plan: *plan,
            stops: 0,
            questions: GhostList::new(),
        })?;
    }
    Ok(gates)
}
