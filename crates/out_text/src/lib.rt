//! Histories, answer lines and answers written out as text.
//!
//! An output is the lines of a history in order, the answer lines of the commands, and the line
//! `end`. It goes to any [`edge_io::Sink`] gathered, in pieces of 4,096 bytes and a last one, so
//! that a long history costs few writes. A line is gathered in parts of bounded length (its head,
//! each change of a write, its end), so that writing takes no memory however long a write is. All
//! that was gathered is handed on before `Ok`; after a call that fails the sink has taken a prefix
//! of the text, and nothing else.
//!
//! The promise to the layers above: the bytes are exactly those of the definitions `text_of`,
//! `entry_text` and `line_text` of event_kinds. Entries and lines are what their types say, also
//! where writing fails, and among such entries and lines no others have the text (`SpellsOnly`,
//! `proofs/OneHistory.antt`).
//!
//! ```text
//! put_output(&mut sink, &history, &lines)?; // h 1 0 start .. l 1 1 ok .. end
//! ```
//!
//! The server writes no such text; nothing here has a counterpart there. The text of an answer is
//! made in command_answers ([`answer_text`]).
#![tactic(auto)]

mod entries;
mod lines;
mod output;
mod typed;

pub use command_answers::answer_text;
pub use entries::put_entry;
pub use lines::put_line;
pub use output::put_output;
