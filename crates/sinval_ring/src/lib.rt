//! The queue of shared invalidation messages (`src/backend/storage/ipc/sinvaladt.c`).
//!
//! A backend that changes a catalog row inserts messages, and every backend fetches all of them in
//! order, each at its own pace. Messages wait for a backend until it comes to fetch them, so the queue
//! would grow without end behind one that sleeps. It has a fixed size instead: it keeps the last
//! messages of all, and a backend whose next message would have to go is put into reset state. Its next
//! fetch then answers [`Fetched::Reset`](base_types::Fetched) in place of messages: it has missed some,
//! so it drops all that it cached, and goes on from the end.
//!
//! The promise to the layers above is in terms of the log of all messages, of which the queue keeps the
//! last: a fetch gives the next 32 of the log, or all that are left; and an insertion puts exactly those
//! backends into reset state for which the queue can't keep the next message beside the new ones.
//! `specs/Queues.antt` says what a queue is, and `specs/Cleaning.antt` what an insertion makes of it and
//! answers.
//!
//! - **Quanta.** One insertion takes 1 to 64 messages, and one fetch gives 32 at most.
//! - **Cleanup.** It runs before an insertion for which there is no room, and where the queue holds as
//!   many messages as a threshold says. It resets backends that are too far back, finds out what all
//!   others are past, and sets the threshold anew: to half the queue, or above that to the next whole
//!   sixteenth. So it runs once for many insertions, and needs no second turn.
//! - **Signals.** A cleanup names the backend furthest back, if that is half a queue behind: it is to be
//!   signaled, so that it catches up before it is lapped. It isn't named again before it has.
//! - **Numbers.** Messages are numbered in order. Where all readers are past 262,144 times the size of the
//!   queue, a cleanup moves all numbers back by that (`MSGNUMWRAPAROUND`), so they stay small.
//!   [`Ring::number`] is the next one. Contracts count the messages from the first one on instead, and
//!   those counts never go back.
//! - **Who has something to fetch.** The server keeps a word for each backend, `hasMessages`, raised by
//!   each insertion and lowered by a fetch that gave all. [`Ring::has`] gives the value that it has then:
//!   the backend is in reset state, or messages wait for it.
//!
//! Different from the server: nothing is locked, since each call takes the whole queue; whoever calls
//! sends the signals; the cleanup's minimum, the distance for a signal and the step of the threshold
//! follow from the size, which is chosen; numbers begin where the caller says.
//!
//! ```text
//! let mut ring = Ring::new(alloc, 4096, 2)?;      // no later call takes memory
//! ring.start(1);
//! ring.start(2);
//! let cleaned = ring.insert(&messages);           // cleaned.signal: whom to signal
//! let mut buffer = ArrayVec::new();
//! match ring.fetch(2, &mut buffer) {
//!     Fetched::Messages(count) => {}              // they are in the buffer; 32 of them: there may be more
//!     Fetched::Reset => {}                        // drop all that is cached
//! }
//! ```
#![tactic(auto)]

mod call;
mod cleaned;
mod cleanup;
mod reader;
mod ring;
mod window;

pub use cleaned::Cleaned;
pub use ring::Ring;
