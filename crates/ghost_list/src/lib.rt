//! A list and a value that contracts alone see.
//!
//! What a structure has held in all, of which it keeps a part, is a list that the program doesn't need: its contracts do.
//! A [`GhostList`] is that list. It takes no memory and owns nothing; it can be made, and appended to. A [`GhostValue`] is
//! one such value, as what a structure was made for.
//!
//! The promise: contracts see the list as `items`, in the order in which they were appended, and the value as `value`.
//!
//! ```text
//! let mut log = GhostList::new();
//! log.push(&message);                 // log.items: message ∷ []
//! log.extend(&more);
//! let first = GhostValue::of(&number); // first.value: number
//! ```
#![tactic(auto)]

mod ghost_list;
mod ghost_value;

pub use ghost_list::GhostList;
pub use ghost_value::GhostValue;
