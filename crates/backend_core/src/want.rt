use crate::{LookFor, Next};

/// What a backend needs to go on.
#[derive(Clone, Copy)]
pub enum Want {
    /// A look whether messages wait, which takes no turn.
    Look(LookFor),
    /// A turn with the segment, for its next entry.
    Turn,
    /// Nothing: it has left.
    Ended,
}

impl Next {
    ghost use Rattle.std.specs.Prelude.{◌≡◌};
    ghost use Rattle.backend_core.specs.Looks.{want_of_next};

    // What this entry needs.
    pub(crate) fn want(&self) -> Want
        ensures { result ≡ want_of_next self.now }
    {
        match self {
            Next::Look => Want::Look(LookFor::Accept),
            Next::LookBeforeScan { rebuilds } => Want::Look(LookFor::Scan {
                rebuilds: *rebuilds,
            }),
            Next::LookBeforeAbsent => Want::Look(LookFor::Absent),
            _ => Want::Turn,
        }
    }
}
