ghost use Rattle.local_caches.specs.Caches.{kept_of};
ghost use Rattle.local_caches.specs.Kept.{is_kept};
ghost use Rattle.cacheless.specs.Suspects.{AreKnown};

use crate::{Opening, Suspects};
use base_types::{Command, Listed, Oid};
use command_lists::InvalLists;
use ddl_effect::{Exec, OpenRelation};
use event_kinds::LineText;
use local_caches::LocalCaches;
use lock_modes::OwnLocks;
use txn_blocks::{RunningTransaction, TxnBlocks};

/// What has to come right after the last entry of a backend.
#[derive(Clone, Copy)]
pub enum Due {
    Nothing,
    /// Nothing: its look said that no message waits.
    Quiet,
    /// It was granted a lock, or fetched as many messages as one fetch gives.
    Look,
    /// Its look said that messages wait.
    Fetch,
    /// Nothing first: it took back what was written from this command on, and the release of its end comes next.
    Gone { from: u32 },
}

/// How many looks, scans and fetches the running command has made, how many locks it was granted
/// and gave back before its end, and after how many of its fetches of 32 messages no scan for a descriptor was owed.
#[derive(Clone, Copy)]
pub struct Counts {
    pub looks: u64,
    pub scans: u64,
    pub grants: u64,
    pub unlocks: u64,
    pub fetches: u64,
    pub full: u64,
}

/// How far a backend is in its commands: what the definitions' session and the facts of its own entries
/// hold of it, and what its command answers, once that is worked out. It changes by the calls of this
/// crate; what uses it may put another form of the same plan in its place.
pub struct Progress {
    pub id: u32,
    pub commands: Listed<Command>,
    pub finished: u32,
    // the running command: what is left of it, whether the blocks refused it and nothing is taken back,
    // whether the release of its end is made, and what it has done so far
    pub exec: Exec,
    pub blocked: bool,
    pub ended: bool,
    pub tally: Counts,
    pub due: Due,
    // the blocks before it, the transaction, and the messages of its writes that weren't taken back
    pub blocks: TxnBlocks,
    // the relations that were open before it
    pub opens: Listed<OpenRelation>,
    pub running: Option<RunningTransaction>,
    pub lists: InvalLists,
    // the relation that the running lookup has newly locked, and hasn't unlocked
    pub taken: Option<Oid>,
    // the descriptors that are held: of the relations that are open, and those that it has opened
    pub opened: Listed<Opening>,
    pub locks: OwnLocks,
    // what it has read of the catalogs
    pub caches: LocalCaches,
    // which of the held descriptors may lack a scan
    pub suspects: Suspects,
    // what the running command answers, where that is worked out
    pub answer: Option<LineText>,
    // all that lack one are among those
    ghost known: { AreKnown (is_kept (kept_of caches)) opened suspects },
}

// Written out, and not derived: so it is proved here, and not again wherever one is dropped.
impl Drop for Progress {
    fn drop(self) {
        let Progress {
            id: _,
            commands: _,
            finished: _,
            exec: _,
            blocked: _,
            ended: _,
            tally: _,
            due: _,
            blocks: _,
            opens: _,
            running: _,
            lists: _,
            taken: _,
            opened: _,
            locks: _,
            caches: _,
            suspects: _,
            answer: _,
        } = self;
    }
}
