ghost use Rattle.std.specs.Prelude.{◌≡◌};

use base_types::NoMemory;
use std::error::Error;
use std::fmt;

/// Why no entry was read of a line.
#[derive(Clone, Copy, Debug)]
pub enum EntryFault {
    /// No entry has this text.
    Bad,
    /// Out of memory.
    NoMemory,
}

impl fmt::Display for EntryFault {
    ghost use Rattle.std.specs.Prelude.{Some};
    ghost use Rattle.event_kinds.specs.Faults.{fault_text};

    ghost output = { λ fault. Some (fault_text fault) };

    fn fmt<W: fmt::Write>(&self, f: &mut fmt::Formatter<W>) -> fmt::Result {
        match self {
            EntryFault::Bad => f.write_str("no entry has this text"),
            EntryFault::NoMemory => f.write_str("want of memory"),
        }
    }
}

impl Error for EntryFault {}

impl From<NoMemory> for EntryFault {
    ghost use Rattle.event_kinds.specs.declared.fault.EntryFault.TheVariants as faults;

    ghost from_gives = { λ _ fault. fault ≡ faults.NoMemory };

    fn from(_error: NoMemory) -> EntryFault {
        EntryFault::NoMemory
    }
}
