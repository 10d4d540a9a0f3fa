//! Invalidation messages: which a change of a catalog row has, and what each of them covers.
//!
//! A backend that changes a row tells the others what it has made stale. For each catalog cache over
//! the row's catalog there is a message with the hash of the row's key: by the old row, and by the new
//! one where that hashes otherwise. A row that a relation's descriptor is built of gives one more, for
//! the relation. (`CacheInvalidateHeapTuple` in `src/backend/utils/cache/inval.c`,
//! `PrepareToInvalidateCacheTuple` in `src/backend/utils/cache/catcache.c`.)
//!
//! The promise to the layers above: [`messages_of`] appends exactly the list of
//! `specs/Changes.antt`, and a scan that gives the old row or the new one is covered by a message of
//! that list (`proofs/Covers.antt`), but for rows of which the server tells nothing by themselves
//! either: defaults, triggers, checks, and what a table's indexes and the foreign keys that refer to
//! it are to the table. Whoever writes those forces a message for the relation
//! (`CacheInvalidateRelcache`).
//!
//! ```text
//! let mut messages = Vec::new(alloc);
//! messages_of(None, Some(&row), &mut messages)?;             // an insertion
//! messages_of(Some(&row), Some(&changed), &mut messages)?;   // a replacement
//! ```
//!
//! `specs/Lists.antt` has the messages of a transaction, command by command, and what a commit sends
//! of them: all catalog parts in order, and then all relation parts.
//!
//! Different from the server: there are three catalog caches, each of one catalog, and one database;
//! a cache's hash can be computed by hand; there are no messages for whole catalogs, storage or
//! snapshots.
#![tactic(auto)]

mod changes;
mod message;

pub use changes::messages_of;
pub use message::Message;
