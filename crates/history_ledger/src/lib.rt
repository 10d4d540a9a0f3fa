//! What a history of entries leaves, kept entry by entry, and the longest legal prefix of any list of
//! entries.
//!
//! A [`Ledger`] holds exactly what the definitions read off the history that was entered into it: the
//! versions of all rows and which transactions are committed, the locks that are held, all messages
//! that were published, the next oid and the last Xid; and of each backend how far its life has come,
//! what its last event asks of its next one, its running transaction, the messages of the writes that
//! weren't taken back, its position among the published messages, whether a message waited at its last
//! entry that is no look, and the command of its last write.
//!
//! The promise to the layers above: [`Ledger::may_follow`] says yes exactly where the definitions let the
//! entry follow, in each history that is read here (`specs/Held.antt`), and [`Ledger::enter`] keeps that.
//! [`Ledger::scan`], [`Ledger::fetched`] and [`Ledger::messages_written`] are what a backend gets by an
//! entry. Nothing else is asked of the history: it may be one that no program would make, with locks on
//! relations that don't exist yet, with keys that are used twice, and with any backends. So
//! [`legal_prefix`] is the longest prefix of whichever entries.
//!
//! ```text
//! let mut ledger = Ledger::new(alloc);
//! for entry in entries {
//!     if !ledger.may_follow(entry, size)? {
//!         break;
//!     }
//!     ledger.enter(entry)?;
//! }
//! ```
//!
//! The rows and the two numbers are kept by the crate below, a [`SegmentRows`](segment_rows::SegmentRows).
//!
//! How it is proved: what the code answers is a definition over what it holds (`specs/Words.antt`), and these
//! decide the definitions (`proofs/MayFollow.antt`).
//!
//! An entry whose command has no successor in 32 bits is answered as out of memory too.
#![tactic(auto)]

mod backends;
mod changing;
mod entering;
mod following;
mod ledger;
mod own;
mod own_entering;
mod prefix;
mod reading;
mod writing;

pub use ledger::Ledger;
pub use own_entering::running_after;
pub use prefix::legal_prefix;
