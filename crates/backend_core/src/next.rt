ghost use Rattle.std.specs.Prelude.{◌≡◌, ◌↔◌, IsTrue};

use base_types::{Mode, Oid, Purpose, Xid};

/// The entry that a backend makes next.
#[derive(Clone, Copy)]
pub enum Next {
    /// The look at its transaction's start, after a grant, or after a fetch of the most messages.
    Look,
    /// The look before a scan: one of the rebuild on top, or one of the next act.
    LookBeforeScan { rebuilds: bool },
    /// The look of a lookup that found no relation, before it says so.
    LookBeforeAbsent,
    /// It fetches the messages that wait.
    Fetch,
    /// A scan, of the rebuild on top, or of the next act.
    Scan { scan: Purpose, rebuilds: bool },
    /// It asks for a lock.
    Lock { rel: Oid, mode: Mode },
    /// It unlocks a relation that its lookup no longer finds.
    Unlock { rel: Oid, mode: Mode },
    /// It writes its draft.
    Write,
    /// It commits.
    Commit { xid: Xid },
    /// It publishes the next messages of its commit.
    Publish,
    /// It takes back what it wrote from this command on.
    TakeBack { from: u32 },
    /// It releases the locks from this command on.
    Release { from: u32 },
    /// It leaves.
    Leave,
}

impl Next {
    ghost use Rattle.backend_core.specs.declared.next.Next.TheVariants as nexts;

    // Whether it is the last entry.
    pub(crate) fn leaves(&self) -> bool
        ensures { IsTrue result ↔ (self.now ≡ nexts.Leave) }
    {
        matches!(self, Next::Leave)
    }
}
