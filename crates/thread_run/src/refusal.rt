use base_types::NoMemory;
use std::alloc::AllocError;

/// Why a run has no output.
#[derive(Clone, Copy, Debug)]
pub enum RunRefusal {
    /// A gate stopped a backend.
    Stopped,
    /// Out of memory.
    NoMemory,
}

impl From<NoMemory> for RunRefusal {
    ghost use Rattle.std.specs.Prelude.{◌≡◌};
    ghost use Rattle.thread_run.specs.declared.refusal.RunRefusal.TheVariants as refusals;

    ghost from_gives = { λ _ refusal. refusal ≡ refusals.NoMemory };

    fn from(_error: NoMemory) -> RunRefusal {
        RunRefusal::NoMemory
    }
}

impl From<AllocError> for RunRefusal {
    ghost use Rattle.std.specs.Prelude.{◌≡◌};
    ghost use Rattle.thread_run.specs.declared.refusal.RunRefusal.TheVariants as refusals;

    ghost from_gives = { λ _ refusal. refusal ≡ refusals.NoMemory };

    fn from(_error: AllocError) -> RunRefusal {
        RunRefusal::NoMemory
    }
}
