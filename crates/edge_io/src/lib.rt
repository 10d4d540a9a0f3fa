//! Where the program meets the outside: sources of bytes, sinks for bytes, and gates.
//!
//! A [`Source`] gives bytes until its end, a [`Sink`] takes bytes, and a [`Gate`] says before a
//! command whether a backend goes on. Each has a count that never falls: faults of a source or a
//! sink, stops of a gate. A call answers `Failed` or `Stop` only where its count rose, and a call
//! that answers otherwise leaves the count as it was. So whoever is told that a run failed can look
//! at the count, and whoever is told that it succeeded knows that nothing failed on the way. Of a
//! gate contracts also see what it was asked, in order.
//!
//! A source may tell which bytes it has left, and a sink which bytes it has taken. Everything above
//! is proved against what these tell; where they tell nothing, it says nothing of the bytes. The
//! promise of every function that writes is `Sends`: what the sink tells grows by the text at `Ok`,
//! and by a prefix of the text at `Err`.
//!
//! [`send`] writes the whole of a text, [`read_all`] reads to the end or past a limit. The lemmas of
//! `proofs/Sending.antt` join several sends into one. A [`GatheringSink`] gathers small texts for a
//! sink and hands them on in large pieces, since each write may be a system call:
//!
//! ```text
//! let mut out = GatheringSink::new(sink);
//! out.send(first)?;
//! out.send(second)?;
//! out.flush()
//! ```
//!
//! The lemmas of `proofs/Gathering.antt` say what the sink has taken after that: both texts at `Ok`,
//! and a prefix of the two at any `Err`.
//!
//! [`MemorySource`], [`MemorySink`], [`SteadySource`] and [`SteadySink`] live in memory and have exact
//! contracts. [`StdSource`] tells what its reader of std tells, and [`StdSink`] tells nothing.
//!
//! A counter stops at 18,446,744,073,709,551,615, so "rose" means: rose, or is at that number.
#![tactic(auto)]

mod fault;
mod gates;
mod gathered;
mod held;
mod memory_sinks;
mod memory_sources;
mod over_std;
mod plans;
mod reading;
mod sinks;
mod sources;
mod writing;

pub use fault::Failed;
pub use gates::{Asked, Gate, Go, OpenGate, StopGate, open_gates};
pub use gathered::GatheringSink;
pub use memory_sinks::{MEMORY_SINK_ROOM, MemorySink, SteadySink};
pub use memory_sources::{MemorySource, SteadySource};
pub use over_std::{StdSink, StdSource};
pub use reading::{PIECE, ReadRefusal, read_all};
pub use sinks::Sink;
pub use sources::Source;
pub use writing::send;
