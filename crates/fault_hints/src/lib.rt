//! What the program says where it refuses: of a script, which word of a faulty command goes wrong and what could stand there,
//! and which byte of a line is none that a script may have; of an output, which rule its first wrong entry breaks and what a
//! walk makes in its place, or which line should come where one differs; of arguments, how the program is called, and which
//! one is wrong.
//!
//! That a script is refused, in which line and for which cause, is the reader's and the top call's to
//! say, and proved of them (`script_text`, `catsync_top`). So is that an output is refused and at which entry, what it begins
//! with, how far `walk` or `run` may have made that and whose entry comes then (`check_tool`). The texts here are made of these,
//! only after a refusal. Their wording is tested and not proved.
//!
//! Those of a script are worked out anew of its bytes, which [`KeptSource`] has kept as the top call read them. The forms of
//! commands are a table (`FORMS`), walked beside the tokens of the line. The hint is about the place which the form that
//! goes furthest comes to.
//!
//! ```text
//! let hint = hint(alloc, b"backends 1\n1: creat table t ()\n", 2, ScriptCause::BadCommand)?;
//! // BadCommand: a command begins with "alter", "begin", ..; found "creat" (near "create")
//! let why = difference(alloc, CheckKind::Walk, &input)?;
//! // entry 22 differs: h 2 2 fetch 6: 7 messages wait; next comes h 2 2 fetch 7
//! let calls = usage(alloc)?;
//! ```
#![tactic(auto)]

mod answers;
mod apart;
mod arguments;
mod bytes;
mod coming;
mod commands;
mod counts;
mod differing;
mod few;
mod following;
mod forms;
mod hints;
mod holding;
mod kept;
mod lines;
mod near;
mod nexts;
mod numbers;
mod reasons;
mod rings;
mod server_words;
mod symbols;
mod tokens;
mod tool_lines;
mod usage_text;
mod watched;

pub use arguments::argument_hint;
pub use differing::difference;
pub use hints::hint;
pub use kept::KeptSource;
pub use usage_text::usage;
