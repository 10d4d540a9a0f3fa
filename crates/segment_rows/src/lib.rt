//! The rows of a segment: what a backend sees of them, what a write of them announces, and what an event
//! makes of them.
//!
//! A [`SegmentRows`] keeps the versions of all rows, which transactions are committed, and the numbers that
//! writes draw. Of a segment that a history leaves it keeps the rows (`KeepsRows` in `specs/Kept.antt`): the
//! same versions, in the order in which they were written, and the same transactions committed. A backend
//! is named by the Xid of its running transaction, and sees all that this wrote.
//!
//! The promise to the layers above: a scan gives the answer that the definitions give in any segment whose
//! rows are kept, a write's messages are those of its items, and after an event that the segment allows the
//! rows of the next one are kept. Whether a change's new names are free, and whether a write's messages
//! cover the scans that it changes, is answered by the rows that are kept, and is what the segment says
//! (`proofs/FreeNames.antt`, `proofs/CoverTests.antt`).
//!
//! ```text
//! let mut rows = SegmentRows::new(alloc);
//! rows.write(xid, command, &items)?;
//! rows.commit(xid);
//! let given = rows.scan(None, &purpose)?;
//! ```
//!
//! A scan that a write changes is first looked for among those that its messages cover; only if no
//! message covers it are the answers before and after compared.
#![tactic(auto)]

mod announcing;
mod covering;
mod naming;
mod rows;
mod same;
mod writing;

pub use rows::SegmentRows;
pub use same::same_row;
pub use writing::drawn_oid;
