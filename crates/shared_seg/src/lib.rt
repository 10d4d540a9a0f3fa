//! What the backends share, kept in plain memory: [`Shared`] is a [`Seg`](seg_calls::Seg).
//!
//! It keeps the history, the versions of all rows, the locks that are held, the running transaction of
//! each backend, and the next numbers to be drawn. The history alone says what all of these are: each is
//! what the definitions read off it, so that is the invariant, with one law of one more entry for each
//! (`specs/KeepsFolds.antt`, `proofs/Keeps.antt`). Rows with the numbers to be drawn, locks and messages
//! are kept by the crates below, a [`SegmentRows`](segment_rows::SegmentRows), a
//! [`LockTable`](lock_modes::LockTable), which is one list to the contracts, and a
//! [`Ring`](sinval_ring::Ring), which is all messages that were ever sent and a reader for each backend
//! (`specs/KeepsQueue.antt`): a reader is in reset state exactly where its backend is lapped. And the
//! history is sound: each of its entries may follow those before it.
//!
//! The promise to the layers above is the contract of `Seg`: a call appends its one entry, which the
//! history allows, or it is out of memory and has changed nothing. A call that must not fail takes a
//! place that was promised before: the history's vector always has room for all promised places, and no
//! other call eats into them.
//!
//! ```text
//! let mut shared = Shared::new(alloc, &script)?;
//! shared.promise(1, 48)?;
//! shared.start(1);
//! let scanned = shared.scan(1, 1, &purpose)?;
//! ```
//!
//! The script exists in contracts alone. Where what is played turns out to be another one, as where a backend leaves before
//! its last commands, [`Shared::retell`] makes that of it, by a [`Retold`], and nothing else changes: the history of the one
//! is a history of the other as far as `Seg` goes.
//!
//! It has the meanings that a turn table asks of the value that goes from hand to hand
//! ([`Turned`](turn_table::Turned)).
//!
//! Different from the server: a lock is never waited for, and the first holder in the way is named; a new
//! name that a running transaction has in use is refused where the server would wait; Xids and oids that
//! would pass 32 bits are answered as out of memory.
#![tactic(auto)]

mod drawing;
mod grants;
mod naming;
mod places;
mod played_script;
mod retold;
mod shared;
mod transaction;
mod turns;
mod write;

pub use retold::Retold;
pub use shared::Shared;
