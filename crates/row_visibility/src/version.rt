use base_types::{Row, Xid};

/// Who did something: a transaction, in one of its commands.
#[derive(Clone, Copy)]
pub struct Stamp {
    pub xid: Xid,
    pub command: u32,
}

/// A version of a catalog row: the row, who wrote it, and who ended it, if it was ended.
#[derive(Clone, Copy)]
pub struct Version {
    pub row: Row,
    pub by: Stamp,
    pub ended: Option<Stamp>,
}

/// Who reads: the own transaction, once it has an Xid, and the command that reads.
#[derive(Clone, Copy)]
pub struct Reader {
    pub xid: Option<Xid>,
    pub command: u32,
}
