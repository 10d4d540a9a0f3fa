//! The values that all crates share: names, lock modes, catalog rows, scans and commands.
//!
//! Everything here is plain data in the terms of PostgreSQL's catalogs, with the tables that the
//! whole project relies on: which lock modes conflict, which rows a catalog scan gives and in which
//! order, which lock modes the writers of a field take, and how a field's text is made of rows. They
//! are definitions in specs/, and the functions here compute exactly those: that is the promise to
//! the layers above. What a scan gives is put in order row by row; that it has the selected rows,
//! each once for each time that it is seen, and no row after one that it comes before, is the
//! theorem `scan_of-answers` of proofs/ScanOrder.
//!
//! A list inside a public type is a [`Listed`], which contracts see as its list. Names, rows, keys
//! and scans are `Copy`: they keep their bytes in place, and a copy allocates nothing. A line of
//! text is built in a [`LineBuffer`], which allocates nothing either:
//!
//! ```text
//! let mut line = LineBuffer::new();
//! line.push(b"lock ");
//! line.push_number(rel.0);
//! line.push(b" ");
//! line.push(mode.word());
//! ```
//!
//! Longer texts are added to a vector by [`add_text`]; [`whole_or_nothing`] takes a half-added one
//! back.
//!
//! Names, words and texts are made of bytes by [`Name::new`], [`Word::new`] and [`Text::new`], which
//! report the first fault of any others, and the types keep it: each [`Name`] is spelled as a column
//! of PostgreSQL may be. A dropped column has a name of another form, as in the server;
//! [`Name::dropped`] makes it and [`Name::new_or_dropped`] reads it.
//!
//! Where it differs from the server: a name has small letters, digits and `_` alone (no quoted names
//! and no other letters); there are two kinds of relations, eight types of columns and six catalogs,
//! each with the columns that the caches read; there are no schemas, so a relation is found by its
//! name alone; and the hash of a cache's key is one that can be computed by hand.
#![tactic(auto)]

mod adding;
mod catalog;
mod change;
mod col_type;
mod command;
mod digits;
mod dropped;
mod fetched;
mod field;
mod field_item;
mod field_rows;
mod fields;
mod ids;
mod index_state;
mod key;
mod key_bytes;
mod kind;
mod line_buffer;
mod listed;
mod lock_modes;
mod memory;
mod mode;
mod mode_set;
mod name;
mod name_bytes;
mod name_fault;
mod nums;
mod row;
mod row_key;
mod scan;
mod scan_rows;
mod scanned;
mod short_text;
mod words;

pub use adding::{add_text, whole_or_nothing};
pub use catalog::Catalog;
pub use change::Change;
pub use col_type::ColType;
pub use command::{Command, NewColumn, Placed, Turns};
pub use digits::{is_digit, number_up_to};
pub use dropped::MOST_COLUMNS;
pub use fetched::Fetched;
pub use field::Field;
pub use field_item::{item_of, push_fill, push_nums};
pub use field_rows::field_text;
pub use fields::{fields_of, has_field, read_by};
pub use ids::{FIRST_OID, Oid, Xid};
pub use index_state::IndexState;
pub use key::{CacheId, Key, KeyPart};
pub use key_bytes::key_hash;
pub use kind::Kind;
pub use line_buffer::{LINE_ROOM, LineBuffer};
pub use listed::Listed;
pub use lock_modes::{conflicts, writers};
pub use memory::NoMemory;
pub use mode::Mode;
pub use mode_set::ModeSet;
pub use name::{Name, Text, Word};
pub use name_fault::NameFault;
pub use nums::{MOST_INDEX_COLUMNS, Nums};
pub use row::{ConKind, Row};
pub use row_key::RowKey;
pub use scan::Purpose;
pub use scan_rows::{goes_before, put_in_order, same_scan, selects, table_scans};
pub use scanned::Scanned;
pub use short_text::{LONGEST_TEXT, ShortText};
pub use words::{live_word, on_word, valid_word};
