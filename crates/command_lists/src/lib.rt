//! The invalidation messages of a transaction, command by command, until they are executed and sent.
//!
//! What a command writes makes cached things stale: at once for the backend itself, and for the others
//! when it commits. So its messages are kept in a list, with a catalog part and a relation part, in
//! which no message stands twice. As the command ends the backend executes the list and keeps it with
//! the earlier ones (`AppendInvalidationMessages` in `src/backend/utils/cache/inval.c`); a commit sends
//! all of them; the lists of commands that are taken back are executed again and forgotten, so nobody
//! else hears of them.
//!
//! The promise to the layers above: contracts see an [`InvalLists`] as the lists of the commands that
//! have ended and the running one's, and how many messages can be registered without memory
//! (`specs/Lists.antt`), and each call does to them what the definition of its name says. What a write
//! registers, and what is left after a rollback, is in `proofs/Writes.antt`.
//!
//! ```text
//! lists.reserve(messages.len())?;
//! for message in &messages {
//!     lists.register(command, *message);
//! }
//! // execute lists.cats_from(command), then lists.rels_from(command)
//! lists.end_command();
//! // at the commit send lists.cats_from(first), then lists.rels_from(first)
//! lists.clear();
//! ```
//!
//! All catalog parts are in one vector and all relation parts in another, so they are lent as they are.
//!
//! Different from the server: a command has one list, not one for each inner command; a level is known
//! by its first command and has no list of its own; and what the running command has registered is
//! executed too where it is taken back, while the server forgets it.
#![tactic(auto)]

mod lists;
mod start;

pub use lists::InvalLists;
