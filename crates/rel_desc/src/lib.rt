//! Descriptors of relations, built scan by scan.
//!
//! A [`Descriptor`] is what the relation cache keeps of a relation (`RelationData`,
//! `src/backend/utils/cache/relcache.c`). It is built scan by scan: a [`DescBuild`] says which scan
//! comes next, the relation's own row first and then those of the kind in that row, and takes what the
//! scan gave with the number of its entry in the history. So each field has the text of the rows of the
//! scan that reads it, and the place of that scan. The fields' texts are worked out as the scans come,
//! and the last step takes no memory:
//!
//! ```text
//! let mut build = DescBuild::new(alloc, rel);
//! while let Some(scan) = build.wants() {
//!     let scanned = seg.scan(backend, command, &scan)?;
//!     build.take(scanned.rows, scanned.at)?;
//! }
//! let descriptor = build.done();
//! // descriptor.field(Field::Columns) is "a:int4", read at descriptor.read_at(Field::Columns)
//! ```
//!
//! The promise to the layers above: a descriptor is its relation and the list of its scans, each with
//! its rows and its place (`specs/Descriptors.antt`), and `field`, `read_at`, `kind` and `rows` are the
//! functions of that list that are defined there. A step that is out of memory leaves the build as it
//! was. Where it differs from the server: a descriptor keeps the rows themselves, and a build that a
//! message marked starts over by [`DescBuild::restart`] before its next scan, not at its end.
//!
//! [`values_read`] and [`value_in`] give the texts of the fields of one scan, for a cache that keeps scans one by one.
#![tactic(auto)]

mod desc_build;
mod descriptor;
mod kept_scans;
mod part;

pub use desc_build::DescBuild;
pub use descriptor::Descriptor;
pub use part::{FieldValue, value_in, values_read};
