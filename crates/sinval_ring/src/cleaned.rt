/// What a cleanup did (`SICleanupQueue` in `src/backend/storage/ipc/sinvaladt.c`).
#[derive(Clone, Copy)]
pub struct Cleaned {
    /// Whether a cleanup ran at all.
    pub ran: bool,
    /// The backends that it put into reset state: bit b - 1 stands for backend b.
    pub reset: u64,
    /// The backend that is to be signaled, so that it catches up.
    pub signal: Option<u32>,
}
