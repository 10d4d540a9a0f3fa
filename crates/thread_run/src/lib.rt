//! A script on threads: each backend has a thread of its own.
//!
//! The backends share one segment, which goes from hand to hand by turns (`turn_table`): in a turn a backend
//! hands over the looks that it has made since its last one, makes its next entry and maybe some more, until
//! it is at a command, and tells whom something waits for. Between its turns it does what needs no segment: it
//! goes on by what it has read, answers, and looks by its word whether messages wait for it, while another has
//! the segment. A [`Gate`] is asked before each of its commands, and after the last one. A backend that a gate
//! stops takes one turn more, in which it takes back what it hasn't committed, releases its locks, and leaves.
//! The others go on; from then on what is played is the script as it is where it ends there for that backend
//! (`specs/Scripts.antt`).
//!
//! `SharedPlay` is what goes round: the segment, of which it is known whoever opens a turn that the history
//! so far was played by what is left of the script. `Worker` is one backend at work, and [`run`] gives each a
//! thread and puts together what they leave.
//!
//! The promise, whatever the threads' order: the history is one that the definitions allow, and the lines are
//! exactly its lines (`specs/Runs.antt`). Out of memory in any thread, or stopped by a gate, nothing of the
//! run is handed out; the gates always come back.
//!
//! ```text
//! // `gates`: a vector with a gate for each backend, as `OpenGate`
//! let ran = run(&rt, alloc, &script, &mut gates)?;
//! for entry in ran.entries.as_slice() { .. }
//! ```
//!
//! Nothing is said of how long a turn is waited for, or of the order of turns.
#![tactic(auto)]

mod halted_at;
mod refusal;
mod running;
mod seats;
mod shared_play;
mod turn_work;
mod worker;

pub use refusal::RunRefusal;
pub use running::{Ran, run};
