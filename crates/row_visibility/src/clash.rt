use base_types::{Oid, Xid};

/// Why a new relation may not have its name.
#[derive(Clone, Copy)]
pub enum Clash {
    /// This relation has it.
    Row(Oid),
    /// This transaction of another backend still runs, and has added or ended a row of that name.
    Running(Xid),
}
