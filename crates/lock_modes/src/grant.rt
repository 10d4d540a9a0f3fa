use base_types::{Mode, Oid};

/// A lock that a backend was granted in a command.
#[derive(Clone, Copy)]
pub struct Grant {
    pub backend: u32,
    pub command: u32,
    pub rel: Oid,
    pub mode: Mode,
}
