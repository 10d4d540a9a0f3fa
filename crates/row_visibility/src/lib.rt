//! Which versions of a catalog row a reader sees.
//!
//! Rows are never changed in place: a change of a row ends one version and adds another, and each
//! end and each addition carries the transaction and the command that did it (`xmin`, `cmin`, `xmax`
//! and `cmax` of a tuple, `src/include/access/htup_details.h`). A version is seen where its writer is
//! seen and its ender isn't (`HeapTupleSatisfiesMVCC` in `src/backend/access/heap/heapam_visibility.c`).
//! What a committed transaction did is seen, and what the reader's own transaction did in earlier
//! commands. A [`Clash`] says why a new row may not have a name that must be unique.
#![tactic(auto)]

mod clash;
mod seen;
mod version;

pub use clash::Clash;
pub use seen::{StampState, is_own, sees, visible};
pub use version::{Reader, Stamp, Version};
