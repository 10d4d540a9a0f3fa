//! The top call of the program, from the bytes of a script to the bytes of its output.
//!
//! The order is: arguments, reading, script, work, writing. Each step may refuse, and then nothing
//! is written. Writing comes when all else is done and takes no memory, so an output is cut short
//! only where the sink fails.
//!
//! The promise: after `Done` of `walk` or `run` the sink took the text of one history that the script allows, and then
//! exactly the lines that backends without caches print on it. The history of `walk` is complete and by its schedule;
//! that of `run` has the backends' entries in any order, each backend's to its stop. No other history and lines have such
//! a text, so who reads the bytes reads these. After `Done` of a check the bytes that follow the script are such an output
//! of `walk`, or one of `run`. Each other answer has
//! its cause; only `NoMemory` may come at any time. All of this is said of the bytes that the source
//! and the sink tell. Those over standard input and output tell none: there the clauses fix `Usage`,
//! and that `ReadFault` and `WriteFault` come exactly where a count of faults rose; for the bytes
//! one relies on its being the same generic code.
//!
//! `run` alone waits and starts threads: the work of the other words stands in functions that are
//! proved to return.
//!
//! ```text
//! let status = catsync(&rt, alloc, &arguments, &mut source, &mut sink, &mut gates, &mut sessions);
//! ```
#![tactic(auto)]

mod arguments;
mod checking;
mod making;
mod running;
mod status;
mod top;
mod walking;

pub use arguments::{Word, word_of};
pub use check_tool::CheckKind;
pub use script_text::MOST_BACKENDS;
pub use status::Status;
pub use top::{MOST_CHECKED, MOST_INPUT, catsync};
