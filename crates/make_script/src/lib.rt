//! Scripts to order: a script of 1,000 commands for each number from 1 to 1,000.
//!
//! A linear generator draws the commands one after another: which of four backends runs it, which of
//! ten kinds it is, on which of eight tables, and what the kind needs beside. The queue is as small as
//! it may be, and the schedule takes the backends in turn, so they meet in each other's tables all the
//! time. What such a script is good for is its length: it is long, and known to all who know its number.
//!
//! The promise to the layers above: the script is the definition's (specs/), to the last command, and
//! it is one that the grammar has, so what `write_script` makes of it is read back as the same script.
//!
//! ```text
//! let script = make(alloc, 7)?; // 1: alter table t4 rename column b to c4 ..
//! ```
#![tactic(auto)]

mod commands;
mod draws;
mod making;
mod text;

pub use making::{MOST_NUMBER, make};
pub use text::made_text;
