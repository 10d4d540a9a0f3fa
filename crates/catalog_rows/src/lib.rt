//! The rows of the catalogs, as versions, and who sees which.
//!
//! A row is never changed in place. A write adds versions and ends others, each under the stamp of its
//! transaction and command; a commit makes all stamps of a transaction count for everybody; a rollback
//! takes away what the transaction added and opens again what it ended. A scan gives the rows of the
//! versions that its reader sees, in the order of the scan's index.
//!
//! The promise to the layers above: contracts see a [`RowStore`] as its versions with their numbers, how
//! many were ever written, and which Xids are committed, and each call does exactly what the definitions
//! of `specs/Store.antt` say of these. So whoever can say which versions a history leaves has the store
//! that serves it.
//!
//! ```text
//! let mut store = RowStore::new(alloc);
//! store.apply(Xid(1), 1, &[Change::Insert(row)])?;
//! store.commit(Xid(1));
//! let rows = store.scan(&purpose, Reader { xid: None, command: 1 })?;
//! ```
//!
//! Each version has a number, from 1 in the order of writing. An index (`src/index.rt`) keeps the numbers
//! by place: that of a row's key, of a relation's or a column's name, or of all rows of one catalog that
//! belong to a relation or refer to it. There are two (`src/indexes.rt`). The first has exactly the versions that no undo
//! took back, and [`RowStore::under`] shows its list for a scan. Out of the second a commit takes those
//! that committed transactions wrote and ended, since nobody sees them any more. So a scan, a look-up, a
//! test of a name and a change pass over the versions of one place that somebody may see yet or that a
//! running transaction has replaced, as the server's do by its indexes once dead rows are pruned; a scan
//! puts each row among those before it, and an undo passes over what its transaction wrote or ended.
//! A write first adds all its versions, or none where memory is out, and then ends others.
//!
//! Different from the server: there are no pages; a commit prunes at once, and what it prunes keeps its
//! slot; a unique name is tested by [`RowStore::name_clash`], which answers where the unique index of
//! pg_class would wait (`_bt_check_unique` in `src/backend/access/nbtree/nbtinsert.c`).
#![tactic(auto)]

mod committing;
mod growing;
mod index;
mod indexes;
mod lists;
mod naming;
mod numbers;
mod place;
mod slots;
mod store;
mod undoing;
mod writing;

pub use store::RowStore;
