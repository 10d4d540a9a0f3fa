//! What a command answers, and the text of each answer.
//!
//! An [`Answer`] says that a command did what it says, or shows fields of a relation, columns or the
//! name of an oid, or says why the command failed. A field that no other backend can change under the
//! lock that is held is shown plainly; any other says at which entry of the history it was read, as
//! ` as of 12`:
//!
//! ```text
//! let value = LineText::new(b"a:int4".to_vec(alloc)?);
//! let answer = Answer::One(Shown { field: Field::Columns, value, at: Some(12) });
//! answer_text(&answer, &mut text)?; // text is "columns a:int4 as of 12"
//! ```
//!
//! The promise to the layers above: each answer has one text, the one of its definition in
//! `specs/Answers.antt`, and that text holds no line's end, since neither a value nor a name does.
//! [`answer_text`] adds it to a vector; running out of memory leaves the vector as it was.
//!
//! A [`CommandError`] has the SQLSTATE of PostgreSQL's own (`src/backend/utils/errcodes.txt`) and a
//! text of this project: it names what is in the way, where the server's message may say less.
#![tactic(auto)]

mod answer;
mod answer_parts;
mod error;
mod text;

pub use answer::{Answer, Column, Shown};
pub use error::CommandError;
pub use text::answer_text;
