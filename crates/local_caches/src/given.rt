use base_types::Row;

// What a scan gave, and the number of its entry in the history, from 1.
#[derive(Clone, Copy)]
pub(crate) struct Given<'a> {
    pub(crate) rows: &'a [Row],
    pub(crate) at: u64,
}
