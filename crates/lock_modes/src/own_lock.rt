use base_types::{Mode, Oid};

/// A lock that a backend holds, and the command in which it was granted. It is clear once the backend
/// has taken all messages that were sent before the grant.
#[derive(Clone, Copy)]
pub struct OwnLock {
    pub rel: Oid,
    pub mode: Mode,
    pub command: u32,
    pub clear: bool,
}
