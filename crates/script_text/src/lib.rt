//! Scripts: what a run is asked to do.
//!
//! A script says how large the queue is, how many backends there are, which commands each of them
//! runs, and, if wanted, whose step comes next at each moment. A [`Script`] keeps the ranges and
//! limits of scripts, so that every one of them can be run: 1 to 64 backends, at most 20,000
//! commands and 1,000,000 steps, a queue of 64 to 4,096 messages, and in each command names and
//! numbers that a line can say.
//!
//! A text is a list of lines, and each line that counts is a list of tokens. The grammar is in
//! specs/: the lines of a text (`TextLines`), their tokens and what single ones mean (`Tokens`,
//! `Operands`), the forms of commands and of the other lines (`Commands`, `LineForms`), and what
//! each line adds to what the lines before it said (`Grammar`). [`read_script`] follows it, one
//! function a form, in time linear in the text. [`write_script`] writes the one spelling of a script
//! (`Spelling`).
//!
//! The promise to the layers above: contracts see a script as the scenario that it asks for; each
//! text of the grammar is read as its script; any other is refused with the first line that breaks
//! a rule, and the first rule that it breaks; and what is written is read back as the same script
//! (`ReadBack`).
//!
//! Commands are spelled as in SQL, but a line is a command, names have no quotes, and a form that
//! isn't in `Commands` is refused.
//!
//! ```text
//! let text = b"backends 1\n1: create table t (a int4)\nend\n";
//! let read = read_script(alloc, text, Rest::Refused)?;
//! let backends = read.script.backends(); // 1
//! ```
#![tactic(auto)]

mod adding_pieces;
mod alterations;
mod command_writing;
mod fault;
mod limits;
mod line_forms;
mod lines_so_far;
mod list_commands;
mod operands;
mod reading;
mod script;
mod short_commands;
mod steps;
mod text_lines;
mod tokens;
mod typed_tokens;
mod writing;

pub use fault::{Rest, ScriptCause, ScriptFault};
pub use limits::{MOST_BACKENDS, MOST_COMMANDS, MOST_STEPS, QUEUE_ROUNDS, QUEUE_SIZE};
pub use reading::{ScriptRead, read_script};
pub use script::Script;
pub use writing::write_script;
