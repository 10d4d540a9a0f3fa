//! The descriptors that a backend keeps, by relation, and which of them are to be built anew.
//!
//! A descriptor is worth keeping, since it takes several scans to build. It is right until a message says
//! that its relation has changed. Where nobody uses it then, it goes, and who opens the relation next
//! builds it again. Where it is in use it stays under its reference, marked, until it is built anew in its
//! place; a reset, after which nobody knows what has changed, does so with all of them.
//!
//! The promise to the layers above: contracts see a [`RelCache`] as a map from relations to what is held
//! of each: the reference, the descriptor, its pins and whether it is valid (`held_of` in
//! `specs/Caches.antt`). Each call but a reset changes what is held of one relation alone, as the words of
//! `specs/Descriptors.antt` say. Only `insert` takes memory.
//!
//! ```text
//! let r = match cache.open(rel) {
//!     Opened::Valid(r) => r,
//!     Opened::Invalid(r) => { cache.replace(&r, build(rel)); r }
//!     Opened::Unknown => cache.insert(rel, build(rel))?,
//! };
//! if let Need::Rebuild(r) = cache.note_message(rel) { cache.replace(&r, build(rel)); }
//! cache.close(r);                                // it stays for the next one who opens the relation
//! ```
//!
//! An index finds a relation's reference, so that a relation that is opened and a message for it don't pass
//! over the others. A reset and `least_invalid` do.
//!
//! Different from the server: a descriptor that is built comes from the caller, and this crate knows
//! nothing of it; there are no nailed descriptors; and one that is to be built anew isn't built by the
//! message, as in `RelationFlushRelation` of `src/backend/utils/cache/relcache.c`, but by whoever asked.
#![tactic(auto)]

mod kept;
mod opened;
mod rel_cache;

pub use opened::{Need, Opened};
pub use rel_cache::RelCache;
