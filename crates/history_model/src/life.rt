/// How far the life of a backend has come.
#[derive(Clone, Copy)]
pub enum Life {
    /// Before its start.
    Unstarted,
    /// Between start and stop, with the command of its last entry.
    Alive(u32),
    /// After its stop.
    Stopped,
}

/// What the last event of a backend asks of its next one.
#[derive(Clone, Copy)]
pub enum Asked {
    /// Nothing.
    Nothing,
    /// A look said yes: it may fetch.
    LookedYes,
    /// It took back what it wrote from this command on, and releases it next.
    TookBack(u32),
}
