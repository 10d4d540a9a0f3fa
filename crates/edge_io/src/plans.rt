ghost use Rattle.std.specs.Prelude.{◌≡◌, ◌≤◌, is_err};
ghost use Rattle.edge_io.specs.Causes.{HasCause, Rose};
ghost use Rattle.edge_io.specs.InMemory.{next_fails, after_call, with_fault};

use crate::Failed;
use std::marker::Model;

// Which calls of an object in memory fail, how many were made, and how many failed.
#[derive(Drop)]
pub(crate) struct Plan {
    failing: Vec<u64>,
    made: u64,
    faults: u64,
}

impl Model for Plan {
    ghost use Rattle.edge_io.specs.InMemory.{Calls};

    ghost Value = { Calls };

    ghost view = { λ plan. record { failing = plan.failing.items; made = plan.made; faults = plan.faults } };
}

impl Plan {
    // No call was made yet; those with the numbers `failing`, from 1, will fail.
    pub(crate) fn new(failing: Vec<u64>) -> Plan
        ensures { result ≡ record { failing = failing.items; made = 0; faults = 0 } }
    {
        Plan {
            failing,
            made: 0,
            faults: 0,
        }
    }

    // One more call; `Failed` where it is one that fails.
    pub(crate) fn call(&mut self) -> Result<(), Failed>
        ensures err { is_err result ≡ next_fails self.old }
        ensures after { self.new ≡ after_call self.old }
        ensures cause { HasCause self.old.faults self.new.faults result }
    {
        self.made = self.made.saturating_add(1);
        let failing = self.failing.contains(&self.made);
        if failing {
            self.fault();
            return Err(Failed);
        }
        Ok(())
    }

    // The call at hand fails for another cause.
    pub(crate) fn fault(&mut self)
        ensures after { self.new ≡ with_fault self.old }
        ensures cause { (self.old.faults ≤ self.new.faults) × Rose self.old.faults self.new.faults }
    {
        self.faults = self.faults.saturating_add(1);
    }
}
