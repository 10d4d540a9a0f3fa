use base_types::{Name, Oid, Xid};
use inval_messages::Message;
use row_visibility::Clash;

/// What a write has drawn, and the messages that it leaves.
#[derive(Drop)]
pub struct Written {
    /// The transaction's Xid.
    pub xid: Xid,
    /// The first of the new oids, if there are any.
    pub first_oid: Oid,
    /// The messages of its changes, in their order.
    pub messages: Vec<Message>,
}

/// Why a write isn't made.
#[derive(Clone, Copy)]
pub enum WriteRefusal {
    /// This new name is taken.
    Clash(Name, Clash),
    /// Out of memory.
    NoMemory,
}
