use base_types::Name;

/// A level of a block: its first command, and the savepoint that began it, if one did.
#[derive(Clone, Copy)]
pub struct Level {
    pub first: u32,
    pub savepoint: Option<Name>,
}
