//! What the backends of a script answer by a list of entries, whoever made it, and how many of these the
//! script allows.
//!
//! [`lines`] takes any list of entries. It holds a ledger, which says what a history allows whichever
//! commands run, and for each backend a session, which says what its commands let come next and works out
//! what they answer. An entry that neither refuses is taken by the session of its backend, and then
//! entered into the ledger. The first one that is refused ends the history: no longer list that begins
//! so is allowed.
//!
//! The promise: the number of entries is that of the longest prefix that the script allows, and the lines
//! are those of the commands that it finishes. There is only one such answer (`proofs/Once.antt`).
//!
//! ```text
//! let answered = lines(alloc, &script, entries)?;
//! let is_allowed = answered.entries == entries.len() as u64;
//! ```
//!
//! No `fail` is allowed, since no command's rules have one yet. Besides want of memory two things alone are
//! answered as out of memory: more entries than any memory holds, and a next oid above 32 bits. What a session's
//! call asks for holds of each entry that a script allows (`proofs/Allowing.antt`).
#![tactic(auto)]

mod answering;
mod entering;
mod session;
mod taking;
mod writing;

pub use answering::{Answered, lines};
