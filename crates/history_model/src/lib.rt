//! What a history of entries means, whichever commands the backends run.
//!
//! A history is the list of all entries, oldest first. What it "has" is a fold over it: the versions
//! of catalog rows, the transaction that a backend runs, the messages that its commit will send, the
//! log of all messages, the locks that are held, and the scans that a backend may still rely on.
//! What may come next is a relation of an entry and the entries before it, and a history is legal
//! where that holds of each of its entries. Nothing here is a cache, a queue or an index.
//!
//! specs/ is to be read in this order: Prefixes, Lives, Transactions, Versions, Changes, Sent, Log,
//! Held, Drawn, Names, Covered, Writes, Legal, Read, Orderly. Which messages a change has, and which
//! scans a message covers, is said in inval_messages.
//!
//! What each sound history keeps is proved in proofs/Ordered.antt: locks exclude each other, what a
//! running transaction has touched it holds locked, and no backend sees two versions of one row.
#![tactic(auto)]

mod life;

pub use life::{Asked, Life};
