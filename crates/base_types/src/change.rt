use crate::{Row, RowKey};

/// A change of one row of a catalog.
#[derive(Clone, Copy)]
pub enum Change {
    Insert(Row),
    /// The row with the same key is replaced.
    Replace(Row),
    Delete(RowKey),
}
