//! One backend: how it does what its commands say, and which entries that leaves in the history.
//!
//! A command is a plan (`ddl_effect`): a lookup of a name with a lock, the opening of a descriptor,
//! a search of a catalog cache, rows of the descriptor, a write. A [`Backend`] takes its commands' plans
//! act by act. Before an act comes what it rests on: a look whether messages wait
//! (`AcceptInvalidationMessages` in `src/backend/utils/cache/inval.c`) at a transaction's start,
//! after each grant and before each scan, and the scans that the act needs and that aren't kept
//! from earlier ones. Where messages wait it fetches them, at most 32, and drops the scans that one
//! of them covers; after a fetch of 32 it looks again. A held descriptor that a message is for is rebuilt at
//! once, each scan after a look of its own; where messages ask for several rebuilds, or one of them for
//! another, the last one comes first (`src/rebuilds.rt`). A backend that the queue has lapped fetches a reset in
//! their place: all scans are dropped, a build that has made its first scan starts over with another look,
//! and the held descriptors are rebuilt in the order of their oids before the command goes on. A command that
//! has come out is answered, and then ended: a transaction of its own is committed or taken back, a block goes
//! on, fails or ends, and a rollback to a savepoint takes back that level of it
//! (`src/backend/access/transam/xact.c`); after its release the backend holds what outer levels have open, and
//! rebuilds what that lacks as after a reset. A commit publishes the messages of its writes between its
//! visibility step and its release, at most 64 at a time, all for the catalog caches before all for
//! descriptors; what a rollback takes back is never published. One step makes exactly one entry;
//! what needs no entry (to go on by rows that are there, to open a descriptor whose scans are made,
//! to answer, to pass to the next command) is done at once after it.
//!
//! The only way to rows, locks and the history is a segment ([`Seg`] of `seg_calls`), whichever it
//! is, so no new body of these changes a proof here.
//!
//! How far a backend is, what its transaction holds and what it has read is its `Progress` (crate
//! cacheless), which takes any entry that the definitions allow and works out what a command answers. Here
//! is the choice among them (`choice.rt`), and the calls of the segment.
//!
//! The promise: a backend *stands* in the history of its segment (`specs/Agrees.antt`): its progress holds
//! its session there, its transcript is its part of the lines. A step keeps that, and its entry is one that
//! the history allows and that the script's commands make next (`specs/Steps.antt`). An entry of another
//! backend changes nothing that a backend holds. Its next step rests on laws of histories whose writes
//! keep columns, indexes and names (cacheless, `TableWrites`): a relation that it has found and locked is there
//! (`FoundKept`), and its columns are whole (`WholeColumns`). What a backend shows of a field under locks that
//! protect it is the field's text as it is now by another law (cacheless, `ProtectedFields`); any other field is
//! shown as it was read.
//!
//! ```text
//! let mut backend = Backend::new(alloc, 1, commands)?;
//! while !backend.is_stopped() {
//!     seg.promise(1, backend.places_wanted().max(1))?;
//!     backend.step(alloc, &mut seg)?;
//! }
//! ```
//!
//! Where backends share their segment by turns, a backend looks between two of its own by its word alone, and
//! hands these looks over in its next turn (`src/turns.rt`, `specs/Apart.antt`).
//!
//! Different from the server: a request for a lock never waits, and scans are kept one by one, not a
//! descriptor as a whole.
#![tactic(auto)]

mod backend;
mod choice;
mod ends;
mod field;
mod frame;
mod frames;
mod join;
mod life;
mod locks;
mod look_for;
mod looks;
mod next;
mod places;
mod rebuilds;
mod scans;
mod settle;
mod steps;
mod turns;
mod want;
mod writes;

pub use backend::Backend;
pub(crate) use frame::Frame;
pub(crate) use frames::Frames;
pub use life::Life;
pub use look_for::LookFor;
pub(crate) use next::Next;
pub use places::PLACES;
pub use turns::HeldLook;
pub use want::Want;
