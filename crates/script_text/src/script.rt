ghost use Rattle.std.specs.Prelude.{◌≡◌};
ghost use Rattle.base_types.specs.Scenario.{Scenario, IsScript, IsBackend};

use base_types::{Listed, Placed, Turns};
use std::marker::Model;

/// A script within its ranges and limits.
pub struct Script {
    size: u32,
    from: u64,
    backends: u32,
    commands: Listed<Placed>,
    steps: Listed<Listed<Turns>>,
}

// Written out, and not derived: so it is proved here, and not again wherever one is dropped.
impl Drop for Script {
    fn drop(self) {
        let Script {
            size: _,
            from: _,
            backends: _,
            commands: _,
            steps: _,
        } = self;
    }
}

impl Model for Script {
    ghost use Rattle.base_types.specs.Scenario.{Scenario, IsScript};

    ghost Value = { Scenario };

    ghost view = { λ s. record { size = s.size; from = s.from; backends = s.backends; commands = s.commands; steps = s.steps } };

    ghost invariant = { λ s. IsScript (record { size = s.size; from = s.from; backends = s.backends; commands = s.commands; steps = s.steps }) };
}

impl Script {
    /// The script of these parts. Condition: they keep the ranges and limits.
    pub fn new(
        size: u32,
        from: u64,
        backends: u32,
        commands: Listed<Placed>,
        steps: Listed<Listed<Turns>>,
    ) -> Script
        requires { IsScript (record { size = size; from = from; backends = backends; commands = commands; steps = steps }) }
        ensures { result ≡ record { size = size; from = from; backends = backends; commands = commands; steps = steps } }
    {
        Script {
            size,
            from,
            backends,
            commands,
            steps,
        }
    }

    /// The number of messages that the queue holds, a power of two from 64 to 4,096.
    pub fn size(&self) -> u32
        ensures { result ≡ self.now.size }
    {
        self.size
    }

    /// The number of the queue's first message.
    pub fn from(&self) -> u64
        ensures { result ≡ self.now.from }
    {
        self.from
    }

    /// The number of backends, 1 to 64.
    pub fn backends(&self) -> u32
        ensures value { result ≡ self.now.backends }
        ensures kept { IsScript self.now }
    {
        self.backends
    }

    /// The commands of all backends, in the order of their lines.
    pub fn commands(&self) -> &[Placed]
        ensures value { result.now ≡ self.now.commands }
        ensures kept { IsScript self.now }
    {
        self.commands.as_slice()
    }

    /// The lines of steps, each with its items; none where there is no schedule.
    pub fn steps(&self) -> &[Listed<Turns>]
        ensures value { result.now ≡ self.now.steps }
        ensures kept { IsScript self.now }
    {
        self.steps.as_slice()
    }
}
