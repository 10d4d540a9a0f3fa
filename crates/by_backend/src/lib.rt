//! The commands of a script backend by backend, each backend's in a list of its own, and copies of answer
//! lines.
#![tactic(auto)]

mod copies;
mod own_commands;

pub use copies::push_copies;
pub use own_commands::commands_by_backend;
