//! Whether some bytes are what `walk` or `run` writes for a script, by the definitions alone: nothing is run.
//!
//! [`check`] reads the entries that the bytes begin with, line by line, and asks how many of these, from the first
//! on, are right: how many the script allows (`history_lines`), and for `walk`, how many look truly and how many
//! come in the order of the script's schedule. Then nothing may be left to come: for `walk` no turn of the
//! schedule, for `run` no backend that hasn't stopped. What follows the entries has to be the answer lines of the
//! history and the line `end`, byte for byte.
//!
//! The promise: `Output` comes exactly where the bytes are an output of the script of that kind (`IsOutput`), with
//! the number of its entries. Else the answer names one entry: the first of the leading ones that may not
//! come there, or the one after the last where all of them are right.
//!
//! ```text
//! let checked = check(alloc, &script, CheckKind::Walk, &bytes)?;
//! let is_output = matches!(checked, Checked::Output { .. });
//! ```
//!
//! Each question is one pass over the entries, in order. No clause speaks of time: what an entry costs in the
//! first is that of the ledger and the sessions in `history_lines`, which is more where more locks, versions of
//! rows or messages are held; `bench/check.sh` measures. Numbers that are too large to be counted are answered as
//! out of memory.
#![tactic(auto)]

mod answer_lines;
mod checking;
mod interleaved;
mod leading;
mod looking;
mod reached;
mod scheduled;
mod stopped;

pub use answer_lines::after_line;
pub use cacheless::CheckKind;
pub use checking::{Checked, check};
pub use leading::{Leading, leading_entries};
pub use reached::{Reached, reached_prefix};
