/// What a backend gets from the queue of invalidation messages (`SIGetDataEntries` in
/// `src/backend/storage/ipc/sinvaladt.c`).
#[derive(Clone, Copy)]
pub enum Fetched {
    /// So many messages.
    Messages(u32),
    /// It had fallen too far back, so it has to drop all that it cached.
    Reset,
}
