ghost use Rattle.std.specs.Prelude.{◌≡◌, ℕ, List, [], ◌∷◌, ◌++◌, IfOk, length};
ghost use Rattle.std.specs.List.{All};

use ghost_list::GhostList;
use std::alloc::{AllocError, Global};
use std::marker::Model;
use std::sync::Wait;

// Gates wait for the program that runs its backends on threads; the walk asks none.

/// What a gate answers.
#[derive(Clone, Copy)]
pub enum Go {
    /// The backend goes on.
    On,
    /// The backend stops before this command.
    Stop,
}

/// What a gate was asked: whether this backend goes on to its command of this number.
#[derive(Clone, Copy)]
pub struct Asked {
    /// The number of the backend, from 1.
    pub backend: u32,
    /// The number of the command, from 1; after the last command one more.
    pub command: u32,
}

/// What is asked before each command of a backend; it may wait.
pub trait Gate: Send {
    ghost use Rattle.edge_io.specs.Gates.{StopHasCause};
    ghost use Rattle.edge_io.specs.declared.gates.Asked.{Asked};

    /// How often it has answered `Stop`; it never falls.
    ghost stops: { Self → ℕ };

    /// What it was asked, in order.
    ghost asked: { Self → List Asked };

    /// Whether `backend` goes on to its command number `command`.
    fn pass<R: Wait>(&mut self, rt: &R, backend: u32, command: u32) -> Go
        ensures cause { StopHasCause (stops self.old) (stops self.new) result }
        ensures asked { asked self.new ≡ asked self.old ++ record { backend = backend; command = command } ∷ [] };
}

/// A gate that never stops.
#[derive(Drop)]
pub struct OpenGate {
    asked: GhostList<Asked>,
}

impl OpenGate {
    /// A gate that was asked nothing.
    pub fn new() -> OpenGate
        ensures { result.asked.items ≡ [] }
    {
        OpenGate {
            asked: GhostList::new(),
        }
    }
}

/// So many gates that never stop, and were asked nothing.
pub fn open_gates(alloc: Global, count: usize) -> Result<Vec<OpenGate>, AllocError>
    ensures count { IfOk result (λ gates. length gates.items ≡ count) }
    ensures unasked { IfOk result (λ gates. All (λ g. g.asked.items ≡ []) gates.items) }
{
    let mut gates = Vec::with_capacity(alloc, count)?;
    'opening: for _number in 0..count {
        gates.push(OpenGate::new())?;
    }
    Ok(gates)
}

impl Gate for OpenGate {
    ghost use Rattle.edge_io.specs.Gates.{StopHasCause};

    ghost stops = { λ _. 0 };

    ghost asked = { λ gate. gate.asked.items };

    fn pass<R: Wait>(&mut self, _rt: &R, backend: u32, command: u32) -> Go
        ensures cause { StopHasCause 0 0 result }
        ensures on { result ≡ Go.On }
        ensures asked { self.new.asked.items ≡ self.old.asked.items ++ record { backend = backend; command = command } ∷ [] }
    {
        self.asked.push(&Asked { backend, command });
        Go::On
    }
}

/// A gate that stops at one of its passes and at no other.
#[derive(Drop)]
pub struct StopGate {
    left: u64,
    stops: u64,
    asked: GhostList<Asked>,
}

impl Model for StopGate {
    ghost use Rattle.std.specs.Prelude.{◌≡◌, ◌<◌};
    ghost use Rattle.edge_io.specs.Gates.{Countdown};

    ghost Value = { Countdown };

    ghost view = { λ gate. record { left = gate.left; stops = gate.stops; asked = gate.asked.items } };

    ghost invariant = { λ gate. 0 < gate.left → gate.stops ≡ 0 };
}

impl StopGate {
    /// A gate that stops at its pass of number `pass`, counted from 1; with 0 it never stops.
    pub fn new(pass: u64) -> StopGate
        ensures { result ≡ record { left = pass; stops = 0; asked = [] } }
    {
        StopGate {
            left: pass,
            stops: 0,
            asked: GhostList::new(),
        }
    }
}

impl Gate for StopGate {
    ghost use Rattle.edge_io.specs.Gates.{StopHasCause, passed, answer};

    ghost stops = { λ gate. gate.stops };

    ghost asked = { λ gate. gate.asked };

    fn pass<R: Wait>(&mut self, _rt: &R, backend: u32, command: u32) -> Go
        ensures cause { StopHasCause self.old.stops self.new.stops result }
        ensures asked { self.new.asked ≡ self.old.asked ++ record { backend = backend; command = command } ∷ [] }
        ensures answer { result ≡ answer self.old }
        ensures passed { self.new ≡ passed (record { backend = backend; command = command }) self.old }
    {
        self.asked.push(&Asked { backend, command });
        let stopping = self.left == 1;
        self.left = self.left.saturating_sub(1);
        if stopping {
            self.stops = 1;
            Go::Stop
        } else {
            Go::On
        }
    }
}
