/// Whether a backend has joined and whether it has left.
#[derive(Clone, Copy)]
pub enum Life {
    Unstarted,
    Alive,
    Stopped,
}
