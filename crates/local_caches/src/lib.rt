//! All that one backend has cached of the catalogs.
//!
//! A backend reads the catalogs by scans. What a scan gave is kept until a message, a reset or the backend's
//! own change says that it may be wrong: what was looked up by a name, an oid or a column's name in a
//! catalog cache (`src/backend/utils/cache/catcache.c`), as a row or as a negative entry; the columns of a
//! relation as a list; and the scans that a descriptor is built of in the relation cache
//! (`src/backend/utils/cache/relcache.c`).
//!
//! The promise to the layers above: contracts see [`LocalCaches`] as a function from scans, which gives
//! nothing, or the rows that the scan gave and the entry of the history at which it was made (`Kept` in
//! `specs/Kept.antt`). Messages take out exactly the scans that they cover, a reset all. The texts of a
//! relation's fields are worked out where a scan of its descriptor is put, so `value` only shows them. Only
//! `new`, `put` and `pin` take memory.
//!
//! ```text
//! if caches.at(&scan).is_none() {
//!     let scanned = seg.scan(backend, command, &scan)?;
//!     caches.put(&scan, scanned.rows, scanned.at)?;
//! }
//! let rows = caches.rows(&scan);                 // until a message covers the scan
//! caches.execute(&messages);
//! ```
//!
//! A lookup goes by the hash of its key or by its relation, and a message to what it takes out: neither
//! passes over anything else, but for the lists of columns, all of which a message for a column takes out. For
//! these it passes over their buckets, which never get fewer, and over none where no list is there.
//!
//! Different from the server: a descriptor is kept scan by scan as it is built, and serves as soon as the
//! scan is there that is asked for; one that is pinned and to be built anew keeps its place, and its rows,
//! which nothing finds, until the next scan is put there.
#![tactic(auto)]

mod cat_caches;
mod descriptors;
mod given;
mod home;
mod keyed;
mod local_caches;
mod part;
mod parts;

pub use home::is_keyed;
pub use local_caches::LocalCaches;
