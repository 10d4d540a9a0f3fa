//! What the backends share, as a backend sees it: the trait [`Seg`].
//!
//! PostgreSQL's backends work on one shared memory segment: the rows of the catalogs, the lock table
//! and the queue of invalidation messages. Here whatever keeps these is a `Seg`, with a call for each
//! event that a backend may leave in the history. A backend is written over any `Seg`, so no new body
//! of rows, locks or queue changes a proof about backends.
//!
//! The promise: each call appends exactly one entry, which the entries before it allow, or it answers
//! that it is out of memory, and then nothing has changed. A call chooses its entry where the segment
//! knows what the backend doesn't: how many rows a scan gives, whether a lock is granted, whether a
//! new name is taken.
//!
//! What must not fail has its place promised beforehand. A call without a `Result` needs one promised
//! place of its backend and takes at most that one; a `scan`, `lock` or `write` takes none. So a
//! commit that has become visible is always published and released, whatever memory others take
//! meanwhile:
//!
//! ```text
//! seg.promise(b, 48)?;
//! let written = seg.write(b, c, &draft)?;
//! seg.visible(b, c, written.xid);
//! let cleaned = seg.publish(b, c, written.messages.as_slice());
//! seg.release(b, c, first);
//! ```
//!
//! The answer of a `publish` says whom a cleanup of the queue put into reset state and who is to be
//! signaled; it is for whoever runs the backends.
//!
//! Contracts speak of a segment by three meanings: its `history`, the `script` that it was made for,
//! and how many places are `promised` to each backend. `specs/Calls.antt` has one word for what each
//! class of call needs, and one for what it does.
#![tactic(auto)]

mod refusal;
mod seg;

pub use lock_modes::LockRefusal;
pub use refusal::{WriteRefusal, Written};
pub use seg::Seg;
pub use sinval_ring::Cleaned;
