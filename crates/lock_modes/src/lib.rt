//! Locks on relations: who holds which, and which a backend knows that it holds.
//!
//! A [`LockTable`] has the locks of all backends (the shared hash tables of
//! `src/backend/storage/lmgr/lock.c`). A request is granted unless another backend holds a mode on the
//! relation that conflicts; it is refused then, and the first such holder is named. A backend's own
//! modes are never in its way. [`OwnLocks`] are the locks of one backend, each with a mark (the
//! `LOCALLOCK`s of the same file): a lock is clear once the backend has taken all messages that were
//! sent before the grant. What it has cached of the relation may be older than the lock until then.
//! A [`GrantTable`] keeps grants that were read somewhere, whether they exclude each other or not.
//!
//! The promise to the layers above: contracts see a table as the list of all grants in the order in
//! which they were given, and own locks as their list. Each call does to that list exactly what the words
//! of `specs/Grants.antt`, `specs/Requests.antt`, `specs/Own.antt` and `specs/States.antt` say, and a call
//! without a `Result` takes no memory.
//!
//! ```text
//! own.reserve()?;
//! match table.request(1, 3, rel, Mode::Share) {
//!     Ok(Granted::New) => own.add(rel, Mode::Share, 3),    // and accept messages, and own.clear(..)
//!     Ok(Granted::Held) => {}
//!     Err(LockRefusal::Conflict { holder, mode }) => return Err(locked(rel, holder, mode)),
//!     Err(LockRefusal::NoMemory) => return Err(NoMemory),
//! }
//! table.release(1, 3);                                     // of commands 3 and above
//! ```
//!
//! The grants are kept by relation and by backend. A request passes over those of its relation, a release
//! over those of its backend and of the relations on which it releases something. A relation that
//! nobody holds any more is forgotten (`CleanUpLock`); a backend's list keeps its memory. All changes of
//! the grants are a list that takes none: contracts alone see it, and the grants are what it leaves.
//!
//! Different from the server: a request never waits, so there are no wait queues and no deadlocks; there
//! is no fast path; a mode is held once however often it is asked for, and in the command of its
//! grant, where the server counts by resource owner.
#![tactic(auto)]

mod change;
mod grant;
mod grant_list;
mod grant_lists;
mod grant_table;
mod granted;
mod lock_table;
mod own_lock;
mod own_locks;

pub use grant::Grant;
pub use grant_table::GrantTable;
pub use granted::{Granted, LockRefusal};
pub use lock_table::LockTable;
pub use own_lock::OwnLock;
pub use own_locks::OwnLocks;
