use base_types::Mode;

/// How a lock comes to be held (`LockAcquireResult` in `src/include/storage/lock.h`).
#[derive(Clone, Copy)]
pub enum Granted {
    /// By this request (`LOCKACQUIRE_OK`).
    New,
    /// The backend held it already (`LOCKACQUIRE_ALREADY_HELD`).
    Held,
}

/// Why a lock isn't granted.
#[derive(Clone, Copy)]
pub enum LockRefusal {
    /// The first other holder of a conflicting mode, in the order of grants, and that mode
    /// (`LOCKACQUIRE_NOT_AVAIL`).
    Conflict { holder: u32, mode: Mode },
    /// Out of memory.
    NoMemory,
}
