use base_types::Name;

/// Why the blocks refuse a command.
#[derive(Clone, Copy)]
pub enum BlockCause {
    /// 25P02: the block has failed.
    Failed,
    /// 25P01: no block is open, and the command needs one.
    NoBlock,
    /// 3B001: the block has no savepoint of that name.
    NoSavepoint { name: Name },
}
