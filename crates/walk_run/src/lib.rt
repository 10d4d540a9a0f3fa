//! The walk: all backends of a script on one thread, step by step.
//!
//! Each step of the schedule is one backend's, and makes one entry of the history; then the backend
//! goes on as far as it can without another. A step of a backend that has stopped makes none. Without
//! a schedule each backend runs to its stop, one after another. The backends share one [`Seg`]
//! (`seg_calls`), and reach the rows, the locks and the history by its calls alone. [`walk_on`] takes
//! a segment that is handed in, [`walk`] makes one in plain memory.
//!
//! Before a step the walk promises the backend the places in the history that it wants, and two at
//! least. A step that is out of memory, before its entry or after it, ends the walk.
//!
//! The promise to the layer above: the history of a walk is legal, played by the commands of its
//! backends, economical, and follows the schedule to its end; and its lines are exactly those of the
//! definition, which reads them off the history alone. They are the transcripts of the backends,
//! which are handed back.
//!
//! ```text
//! let world = walk(alloc, &script)?;
//! ```
#![tactic(auto)]

mod walking;

pub use walking::{World, walk, walk_on};
