use base_types::{Kind, Name, Oid};

/// A relation that a session has open: the name under which it was opened, and the number of the command that
/// opened it, from 1.
#[derive(Clone, Copy)]
pub struct OpenRelation {
    pub name: Name,
    pub rel: Oid,
    pub kind: Kind,
    pub command: u32,
}
