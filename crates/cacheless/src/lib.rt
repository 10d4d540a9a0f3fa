//! What the program may write for a script: the order in which backends do what their commands say,
//! what each command answers, and the texts that follow; and how far a backend is in that, in code.
//!
//! How far a backend is, is a fold over its own entries: its session. What it may do next is a
//! function of its session and of a few facts of its entries: what it has to do first (a look at its
//! has-messages word, the scans on which its next act rests), the next act of its command's plan, or
//! the end of the command. An act that needs no entry, and a command that needs none, are passed over
//! at once. What a command answers is read off the history alone, as a backend without any cache
//! would answer.
//!
//! specs/ is to be read in this order: Facts, Locks, Session, Work, Owed, Ends, Settled, Sessions, Plays,
//! Protected, Lines, Schedule, Output. Rule computes what Plays says as a relation. The worked examples
//! hold of them by computation (proofs/). ActsDone, how far a command is by the rows that its acts gave,
//! and Typed, what has a text of all that entries are made of, are for the proofs, here and above.
//!
//! A [`Progress`] is what these folds give of one backend, kept up to date entry by entry: its session,
//! its running transaction and the messages of its writes, what its last entry asks for, the scans that
//! serve, and what its command answers, once that is worked out. [`Progress::may_play`] is exactly what
//! the definitions allow next, and a call `enter_..` takes any entry that the backend may leave, whoever
//! chose it. What needs no entry (an act, the answer of a command that has come out, the passage to the
//! next command, which gives the line) a backend of the program does one by one, as
//! [`Progress::silent`] says; who reads a given history lets [`Progress::settle`] do all of it:
//!
//! ```text
//! let mut backend = Progress::new(alloc, 1, commands)?;
//! let mut lines = Listed::new(alloc);
//! backend.enter_start();
//! backend.settle(alloc, &mut lines)?;
//! if backend.may_play(next_oid, &Event::Look { yes: false }) {
//!     backend.enter_look(false);
//!     backend.settle(alloc, &mut lines)?;
//! }
//! ```
//!
//! The promise is in specs/Holds.antt: before an entry the code `Rests` in a history, after it `Holds`
//! the session of the longer one, after `settle` it rests again. The history stands in the contracts
//! alone. specs/State has what the code holds in the definitions' words, May how it searches for what is
//! lacking, Silently what is done without an entry, Answering what a command answers by them. The promise
//! of what it answers is in Telling: that is the command's line.
//!
//! specs/Awaiting says where a session is between two entries of its backend, and right after one. The laws of it are in
//! proofs: OwnPlaces and OwnAnswers (over EndEntries) for an entry of its own, OthersEntries for another backend's. After either, its
//! answer and lines are those of the longer history. Who makes the entry cites them: backend_core does, and
//! history_lines, which judges a given history.
#![tactic(auto)]

mod answering;
mod begun;
mod check_kind;
mod draft_items;
mod ending;
mod enter;
mod enter_ends;
mod enter_locks;
mod enter_scans;
mod enter_writes;
mod may;
mod opening;
mod opens;
mod progress;
mod scans;
mod silent;
mod suspects;
mod unstarted;

pub use check_kind::CheckKind;
pub use ending::Ending;
pub use opening::Opening;
pub use progress::{Counts, Due, Progress};
pub use scans::lacks_scan;
pub use silent::Silent;
pub use suspects::Suspects;
