ghost use Rattle.std.specs.Prelude.{◌≡◌};
ghost use Rattle.lock_modes.specs.Grants.{is_lock};
ghost use Rattle.lock_modes.specs.Changes.{is_released};

use crate::Grant;
use base_types::{Mode, Oid};

// What a backend releases.
#[derive(Clone, Copy)]
pub(crate) enum Released {
    // A mode on a relation.
    Lock { backend: u32, rel: Oid, mode: Mode },
    // What it was granted in commands of this number and above.
    From { backend: u32, from: u32 },
}

impl Released {
    // Whether a grant is released.
    pub(crate) fn includes(&self, grant: &Grant) -> bool
        ensures { result ≡ is_released self.now grant.now }
    {
        match *self {
            Released::Lock { backend, rel, mode } => is_of(grant, backend, rel, mode),
            Released::From { backend, from } => grant.backend == backend && from <= grant.command,
        }
    }
}

// What becomes of the grants of a table.
#[derive(Clone, Copy)]
pub(crate) enum LockChange {
    // One more is given.
    Grant(Grant),
    // Some are released.
    Release(Released),
}

// Whether a grant is of this mode on this relation to this backend.
pub(crate) fn is_of(grant: &Grant, backend: u32, rel: Oid, mode: Mode) -> bool
    ensures { result ≡ is_lock backend rel mode grant.now }
{
    grant.backend == backend && grant.rel.0 == rel.0 && grant.mode.number() == mode.number()
}
