use base_types::Name;

/// A foreign key that is to be added: the column of its table, and the table and the column to which it refers.
#[derive(Clone, Copy)]
pub struct ForeignKey {
    pub constraint: Name,
    pub column: Name,
    pub refers: Name,
    pub ref_column: Name,
    pub valid: bool,
}
