//! The backends of a script: made anew, and their lines together.
//!
//! [`new_backends`] gives each backend of a script its commands, in order. [`all_lines`] copies the
//! transcripts of backends, one after another. Whoever runs a script, on one thread or on many, begins with
//! the first and ends with the second.
//!
//! The promise: each new backend stands before the first entry; and where the backends of a script stand in a
//! history, one behind another by their numbers, their transcripts are exactly its lines (`proofs/Sessions`).
#![tactic(auto)]

mod backends;
mod lines;

pub use backends::new_backends;
pub use lines::all_lines;
