ghost use Rattle.std.specs.Prelude.{◌≡◌, ◌&&◌, not};
ghost use Rattle.row_visibility.specs.Seen.{is_committed, is_own as own_did, sees_stamp};

use crate::{Reader, Stamp};
use base_types::Xid;

/// Whether a transaction is committed or still runs (`TransactionIdDidCommit` in
/// `src/backend/access/transam/transam.c`). What was rolled back has no stamp.
#[derive(Clone, Copy)]
pub enum StampState {
    Running,
    Committed,
}

/// Whether a reader sees what a transaction in this state did in one of its commands
/// (`XidInMVCCSnapshot` in `src/backend/utils/time/snapmgr.c`; `HeapTupleSatisfiesMVCC` tests the
/// command of the reader's own).
pub fn sees(state: StampState, stamp: Stamp, reader: Reader) -> bool
    ensures { result ≡ sees_stamp (λ xid. is_committed state) reader stamp }
{
    matches!(state, StampState::Committed)
        || (is_own(reader.xid, stamp) && stamp.command < reader.command)
}

/// Whether the reader's own transaction, if it has an Xid, left the stamp.
pub fn is_own(own: Option<Xid>, stamp: Stamp) -> bool
    ensures { result ≡ own_did own stamp }
{
    match own {
        Some(xid) => xid.0 == stamp.xid.0,
        None => false,
    }
}

/// Whether a version is seen, if its writer is or isn't, and its ender is or isn't (`false` where
/// nobody ended it).
pub fn visible(by_seen: bool, ended_seen: bool) -> bool
    ensures { result ≡ (by_seen && not ended_seen) }
{
    by_seen && !ended_seen
}
