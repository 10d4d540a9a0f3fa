use crate::Row;

/// What a scan gave.
#[derive(Drop)]
pub struct Scanned {
    pub rows: Vec<Row>,
    /// The number of the scan's entry in the history, from 1.
    pub at: u64,
}
