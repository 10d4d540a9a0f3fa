ghost use Rattle.std.specs.Prelude.{◌≡◌};
ghost use Rattle.catsync_top.specs.Top.{exit_code_of};

use script_text::ScriptCause;
use thiserror::Error;

/// How a call of the program ended. Its text is the one that the program prints.
#[derive(Clone, Copy, Debug, Error)]
pub enum Status {
    /// All was written, and the input was read to its end.
    #[error("done")]
    Done,
    /// The arguments are none of `walk`, `run`, `check walk`, `check run`, and `make` with a number from 1 to 1,000.
    #[error("the arguments are none of walk, run, check walk, check run, and make N with N from 1 to 1000")]
    Usage,
    /// The input isn't a script: the first line that breaks a rule, from 1, and the first rule that
    /// it breaks.
    #[error("line {line}: {cause}")]
    BadScript { line: u32, cause: ScriptCause },
    /// The input is longer than that of these arguments may be.
    #[error("the input has more than 1048576 bytes, or 268435456 for check")]
    TooLong,
    /// The source failed.
    #[error("reading failed")]
    ReadFault,
    /// The sink failed.
    #[error("writing failed")]
    WriteFault,
    /// Out of memory.
    #[error("want of memory")]
    NoMemory,
    /// The bytes after the script are none of its outputs, as far as the entries of these have texts: numbers of
    /// four bytes, names as they may be, and at least one change in a write. The first entry, from 1, that may not
    /// come there; the number after the last where all of them may, and one is missing or what follows them
    /// differs.
    #[error("entry {entry} differs")]
    Differs { entry: u64 },
    /// A gate stopped a backend.
    #[error("stopped")]
    Stopped,
}

impl Status {
    /// The exit status of the program.
    pub fn exit_code(self) -> u8
        ensures { result ≡ exit_code_of self }
    {
        match self {
            Status::Done => 0,
            Status::Usage => 1,
            Status::BadScript { .. } => 2,
            Status::TooLong => 3,
            Status::ReadFault => 4,
            Status::WriteFault => 5,
            Status::NoMemory => 6,
            Status::Differs { .. } => 7,
            Status::Stopped => 8,
        }
    }
}
