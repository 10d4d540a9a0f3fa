use base_types::{Kind, Oid};

/// A relation whose descriptor is held: the session has it open, or the running command has opened its descriptor.
#[derive(Clone, Copy)]
pub struct Opening {
    pub rel: Oid,
    pub kind: Kind,
}
