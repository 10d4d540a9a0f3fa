ghost use Rattle.std.specs.Prelude.{◌≡◌, Ok, Err};
ghost use Rattle.ddl_effect.specs.declared.leave.Leave.TheVariants.{NoMemory as OutOfMemory};

use crate::{Step, Told};
use base_types::{Name, NoMemory};
use command_answers::CommandError;
use std::alloc::{AllocError, AllocFailed};

/// Why a command stops: an act isn't done yet, it failed, or memory was short.
#[derive(Drop)]
pub(crate) enum Leave {
    /// This is what it does next, or how it failed.
    At(Step),
    /// Out of memory.
    NoMemory,
}

impl From<NoMemory> for Leave {
    ghost from_gives = { λ _ e. e ≡ OutOfMemory };

    fn from(_e: NoMemory) -> Leave {
        Leave::NoMemory
    }
}

impl From<AllocError> for Leave {
    ghost from_gives = { λ _ e. e ≡ OutOfMemory };

    fn from(_e: AllocError) -> Leave {
        Leave::NoMemory
    }
}

impl<T: Drop> From<AllocFailed<T>> for Leave {
    ghost from_gives = { λ _ e. e ≡ OutOfMemory };

    fn from(_e: AllocFailed<T>) -> Leave {
        Leave::NoMemory
    }
}

/// The command fails.
pub(crate) fn fails<T>(error: CommandError) -> Result<T, Leave>
    ensures { result ≡ Err (Leave.At (Step.Fails error)) }
{
    Err(Leave::At(Step::Fails(error)))
}

/// The command fails: no relation has the name.
pub(crate) fn absent<T>(name: Name) -> Result<T, Leave>
    ensures { result ≡ Err (Leave.At (Step.Absent name)) }
{
    Err(Leave::At(Step::Absent(name)))
}

/// The command has done what it says, and answers this.
pub(crate) fn done(told: Told) -> Result<Step, Leave>
    ensures { result ≡ Ok (Step.Done told) }
{
    Ok(Step::Done(told))
}
