//! Transaction blocks: what `begin`, `commit` and `rollback` do, the levels of savepoints, and what blocks
//! refuse; and the transaction that a backend runs.
//!
//! A command outside a block is a transaction of its own. `begin` opens a block, which lasts until
//! `commit` or `rollback`. A command that fails inside a block fails the block: until it is ended,
//! every other command is refused (25P02), and `commit` rolls back. That is `TBlockState` of
//! `src/backend/access/transam/xact.c`, less the states that last only while a command is on its way.
//!
//! `savepoint` begins a level inside those that are open. A command that fails takes back the innermost
//! level. `rollback to` takes back the level of the latest savepoint of a name with all inside it, which
//! mends a failed block; that level begins anew. `release` makes it part of the level around it. Where the
//! block has no savepoint of the name they are refused (3B001).
//!
//! A [`RunningTransaction`] is what the backend itself and the segment keep of a transaction: its first
//! command, its Xid, what it has published, and whether it is committed. A release of the locks of its
//! first command on ends it (`specs/Transactions.antt`).
//!
//! The promise to the layers above: contracts see a [`TxnBlocks`] as the definition's `Blocks`
//! (`specs/Blocks.antt`), and each call is the definition of that name.
//!
//! ```text
//! blocks.admit(&command)?;             // 25P02, 25P01 or 3B001
//! blocks.ended_well(7, &command)?;     // after command 7 came out well
//! ```
//!
//! Different from the server: `begin` inside a block and `commit` outside one do nothing, without a
//! warning. `begin` and `savepoint` alone take memory. A savepoint is sought from the innermost level on,
//! so the latest is found at once.
#![tactic(auto)]

mod blocks;
mod cause;
mod level;
mod transaction;

pub use blocks::TxnBlocks;
pub use cause::BlockCause;
pub use level::Level;
pub use transaction::RunningTransaction;
