//! The entries of a history, the answer lines of commands, and the text that each has.
//!
//! One entry is one atomic action of one backend: it joined the queue, scanned a catalog, asked for a
//! lock, wrote catalog rows, became visible, and so on. A history is a plain list of entries, oldest
//! first, and an entry's text is one line. Which entries are read back from their text is the
//! definition `IsEntry`: numbers of four bytes, names, words and texts of their bytes, 1 to 32
//! columns of an index, at least one change in a write. The types hold all of this but the last, so
//! it holds for every entry that can be made, except a write with no change.
//!
//! The promise to the layers above: what is written of an entry is exactly the text of its
//! definition, byte for byte; what is read of a line is the one entry that has it as its text, and
//! `Bad` comes exactly where no entry has it. Different histories and answer lines have different
//! texts (`TextsDiffer` of `specs/Entries.antt`, proved in `proofs/Outputs.antt`).
//!
//! [`write_entry`] adds a whole entry to a vector, and [`read_entry`] reads it back. Running out of
//! memory leaves the vector as it was:
//!
//! ```text
//! let entry = read_entry(alloc, b"h 1 2 scan relname t rows 1")?;
//! let mut out = Vec::new(alloc);
//! write_entry(&entry, &mut out)?; // out is the line again
//! ```
//!
//! Where no memory may be taken, texts are made in a [`base_types::LineBuffer`]:
//! [`push_entry_head`] writes an entry up to its changes, and [`push_item`] one change.
//!
//! The server has no such text: an entry is what one of its functions does under one lock, and each
//! variant of [`Event`] names that function. How a line is read is a function on lists of bytes, put
//! together of few kinds of readers; for each kind it is proved once that what is read is spelled
//! so, and that what is spelled so is read (`proofs/Spelling.antt`).
#![tactic(auto)]

mod cursor;
mod entry;
mod entry_text;
mod event_reading;
mod event_text;
mod fault;
mod line_text;
mod reading;
mod row_reading;
mod row_text;
mod value;

pub use entry::{Entry, Event, Item, Line};
pub use entry_text::write_entry;
pub use event_text::{changes_in, push_entry_head, push_item, push_line_head};
pub use fault::EntryFault;
pub use line_text::LineText;
pub use reading::read_entry;
