ghost use Rattle.std.specs.Prelude.{◌≡◌};
ghost use Rattle.script_text.specs.declared.fault.LineFault.TheVariants.{NoMemory};
ghost use Rattle.script_text.specs.Drafts.{fault_at};

use thiserror::Error;

/// The rule that a line breaks, in the order in which a line is tested. Its text is its name and
/// what is wrong with the line.
#[derive(Clone, Copy, Debug, Error)]
pub enum ScriptCause {
    /// A line that counts holds printable ASCII and tabs alone.
    #[error("BadByte: the line holds a byte that is neither printable ASCII nor a tab")]
    BadByte,
    /// A `ring` line has its form and comes before the others.
    #[error("BadRing: a ring line must come first and read 'ring N' or 'ring N from M', with N a power of two from 64 to 4096 and M below 262144 times N")]
    BadRing,
    /// The first line that counts, but for a `ring` line, is a `backends` line.
    #[error("NoBackends: the first line, but for a ring line, must read 'backends N'")]
    NoBackends,
    /// A `backends` line has its form, with 1 to 64 backends.
    #[error("BadCount: a backends line must read 'backends N' with N from 1 to 64")]
    BadCount,
    /// The input has an `end` line.
    #[error("NoEnd: the input ends without an 'end' line")]
    NoEnd,
    /// A `steps` line has its form, with backends of the script.
    #[error("BadSteps: a steps line must name backends of the script, as B or B*COUNT with COUNT from 1 to 1000000")]
    BadSteps,
    /// There are at most 1,000,000 steps.
    #[error("TooManySteps: the script has more than 1000000 steps")]
    TooManySteps,
    /// A command line begins with a backend of the script and a colon.
    #[error("UnknownBackend: a command line must begin with a backend of the script and a colon")]
    UnknownBackend,
    /// No command follows a `steps` line.
    #[error("LateCommand: no command may follow a steps line")]
    LateCommand,
    /// A command has one of the forms of commands.
    #[error("BadCommand: the line has none of the forms of a command")]
    BadCommand,
    /// There are at most 20,000 commands.
    #[error("TooManyCommands: the script has more than 20000 commands")]
    TooManyCommands,
    /// Nothing that counts follows the `end` line, where no rest is allowed.
    #[error("AfterEnd: only blank lines and comments may follow the 'end' line")]
    AfterEnd,
}

/// Whether the input may go on after the `end` line.
#[derive(Clone, Copy)]
pub enum Rest {
    /// Nothing that counts may follow.
    Refused,
    /// Reading stops after the `end` line.
    Given,
}

// Why a line was not taken.
#[derive(Clone, Copy)]
pub(crate) enum LineFault {
    // It breaks a rule.
    Breaks(ScriptCause),
    // Memory was refused.
    NoMemory,
}

impl From<base_types::NoMemory> for LineFault {
    ghost from_gives = { λ _ fault. fault ≡ NoMemory };

    fn from(_error: base_types::NoMemory) -> LineFault {
        LineFault::NoMemory
    }
}

/// Why there is no script.
#[derive(Clone, Copy)]
pub enum ScriptFault {
    /// The first line that breaks a rule, from 1, and the first rule that it breaks. A fault of the
    /// input's end names the line after the last one.
    Bad { line: u32, cause: ScriptCause },
    /// Memory was refused.
    NoMemory,
}

impl LineFault {
    // The fault of a script whose line with this number has this one.
    pub(crate) fn at_line(self, line: u32) -> ScriptFault
        ensures { result ≡ fault_at self line }
    {
        match self {
            LineFault::Breaks(cause) => ScriptFault::Bad { line, cause },
            LineFault::NoMemory => ScriptFault::NoMemory,
        }
    }
}
