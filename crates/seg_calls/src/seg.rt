use crate::{LockRefusal, WriteRefusal, Written};
use arrayvec::ArrayVec;
use base_types::{Fetched, Mode, NoMemory, Oid, Purpose, Scanned, Xid};
use ddl_effect::Draft;
use event_kinds::Event;
use inval_messages::Message;
use sinval_ring::Cleaned;

/// What the backends share. The backend is 1 to the script's number of backends; the command is 0 at
/// its start, then 1 to the number of its commands, and one more for what comes after the last one.
pub trait Seg {
    ghost use Rattle.std.specs.Prelude.{◌≡◌, ◌≤◌, ◌<◌, ◌+◌, ◌^◌, ℕ, false, List, [], length};
    ghost use Rattle.base_types.specs.Scenario.{Scenario, IsBackend};
    ghost use Rattle.event_kinds.specs.declared.entry.Entry.{Entry};
    ghost use Rattle.lock_modes.specs.Grants.{holds};
    ghost use Rattle.history_model.specs.Drawn.{next_oid};
    ghost use Rattle.history_model.specs.Held.{held_of};
    ghost use Rattle.history_model.specs.Log.{is_waiting};
    ghost use Rattle.seg_calls.specs.Calls.{entry_of, MayCall, MayRequest, MayWrite, Promises, Appends, due_to, Fetches, Scans, Locks, Writes, ArePublishedNext, all_promised};
    ghost use Rattle.seg_calls.specs.Queue.{queue_of};
    ghost use Rattle.sinval_ring.specs.Cleaning.{room_answer};

    ghost history: { Self → List Entry };

    ghost script: { Self → Scenario };

    ghost promised: { Self → ℕ → ℕ };

    /// Promises the backend so many places in the history, if it has fewer. Out of memory, nothing
    /// changes.
    fn promise(&mut self, b: u32, n: u32) -> Result<(), NoMemory>
        requires { IsBackend (script self.old).backends b }
        ensures script { script self.new ≡ script self.old }
        ensures promises { Promises (history self.old) (history self.new) (promised self.old) (promised self.new) b n result };

    /// How many places are promised to the backend.
    fn promised(&self, b: u32) -> u32
        ensures { result ≡ promised self.now b };

    /// Whether messages wait for the backend (`hasMessages` in
    /// `src/backend/storage/ipc/sinvaladt.c`).
    fn waits(&self, b: u32) -> bool
        ensures { result ≡ is_waiting (history self.now) b };

    /// The backend joins (`SharedInvalBackendInit` in `src/backend/storage/ipc/sinvaladt.c`).
    fn start(&mut self, b: u32)
        requires call { MayCall (script self.old) (history self.old) (entry_of b 0 Event.Start) }
        requires place { 0 < promised self.old b }
        ensures script { script self.new ≡ script self.old }
        ensures appends { Appends (history self.old) (history self.new) (promised self.old) (promised self.new) (entry_of b 0 Event.Start) };

    /// It has looked whether messages wait for it (`AcceptInvalidationMessages` in
    /// `src/backend/utils/cache/inval.c`).
    fn looked(&mut self, b: u32, c: u32, yes: bool)
        requires call { MayCall (script self.old) (history self.old) (entry_of b c (Event.Look yes)) }
        requires place { 0 < promised self.old b }
        ensures script { script self.new ≡ script self.old }
        ensures appends { Appends (history self.old) (history self.new) (promised self.old) (promised self.new) (entry_of b c (Event.Look yes)) };

    /// It takes the next messages of the queue, at most 32, into an empty buffer (`SIGetDataEntries`
    /// in `src/backend/storage/ipc/sinvaladt.c`). `Reset`: exactly where more messages waited for it
    /// than the queue keeps; it gets none of them, and is past all then. Condition: its last look said
    /// that messages wait.
    fn fetch(&mut self, b: u32, c: u32, into: &mut ArrayVec<Message, 32>) -> Fetched
        requires call { MayCall (script self.old) (history self.old) (entry_of b c (Event.Fetch (due_to (history self.old) b))) }
        requires place { 0 < promised self.old b }
        requires empty { into.old.items ≡ [] }
        ensures script { script self.new ≡ script self.old }
        ensures fetches { Fetches (script self.old).size (history self.old) (history self.new) (promised self.old) (promised self.new) b c into.new.items result };

    /// What a scan gives it, its own writes among it (`systable_beginscan` and `systable_getnext` in
    /// `src/backend/access/index/genam.c`). Out of memory, nothing changes.
    fn scan(&mut self, b: u32, c: u32, purpose: &Purpose) -> Result<Scanned, NoMemory>
        requires call { MayRequest (script self.old) (history self.old) b c }
        ensures script { script self.new ≡ script self.old }
        ensures scans { Scans (history self.old) (history self.new) (promised self.old) (promised self.new) b c purpose.now result };

    /// It asks for a lock, and doesn't wait for it (`LockAcquire` with `dontWait` in
    /// `src/backend/storage/lmgr/lock.c`). Conditions: it doesn't hold the mode, and the relation's
    /// oid has been drawn. Out of memory, nothing changes.
    fn lock(&mut self, b: u32, c: u32, rel: Oid, mode: Mode) -> Result<(), LockRefusal>
        requires call { MayRequest (script self.old) (history self.old) b c }
        requires new { holds (held_of (history self.old)) b rel mode ≡ false }
        requires drawn { rel.0 < next_oid (history self.old) }
        ensures script { script self.new ≡ script self.old }
        ensures locks { Locks (history self.old) (history self.new) (promised self.old) (promised self.new) b c rel mode result };

    /// It unlocks a relation: the lock was granted in this command, by a lookup whose name means another
    /// relation by now, or none (`UnlockRelationOid` in `src/backend/storage/lmgr/lmgr.c`,
    /// for `RangeVarGetRelidExtended` in `src/backend/catalog/namespace.c`). No write of the command
    /// stands.
    fn unlock(&mut self, b: u32, c: u32, rel: Oid, mode: Mode)
        requires call { MayCall (script self.old) (history self.old) (entry_of b c (Event.Unlock rel mode)) }
        requires place { 0 < promised self.old b }
        ensures script { script self.new ≡ script self.old }
        ensures appends { Appends (history self.old) (history self.new) (promised self.old) (promised self.new) (entry_of b c (Event.Unlock rel mode)) };

    /// It makes all changes of a draft at once, and holds the relations that are new in
    /// AccessExclusive (`CatalogTupleInsert` and its like in `src/backend/catalog/indexing.c`).
    /// `Clash`: exactly where a new name of a relation is taken.
    /// Out of memory, nothing changes.
    fn write(&mut self, b: u32, c: u32, draft: &Draft) -> Result<Written, WriteRefusal>
        requires call { MayRequest (script self.old) (history self.old) b c }
        requires write { MayWrite (history self.old) b c draft.now }
        ensures script { script self.new ≡ script self.old }
        ensures writes { Writes (history self.old) (history self.new) (promised self.old) (promised self.new) b c draft.now result };

    /// Its transaction is committed, and what it wrote counts for everybody
    /// (`TransactionIdCommitTree` in `src/backend/access/transam/transam.c`, and
    /// `ProcArrayEndTransaction` in `src/backend/storage/ipc/procarray.c`).
    fn visible(&mut self, b: u32, c: u32, xid: Xid)
        requires call { MayCall (script self.old) (history self.old) (entry_of b c (Event.Visible xid)) }
        requires place { 0 < promised self.old b }
        ensures script { script self.new ≡ script self.old }
        ensures appends { Appends (history self.old) (history self.new) (promised self.old) (promised self.new) (entry_of b c (Event.Visible xid)) };

    /// It puts messages of its commit into the queue (`SIInsertDataEntries` in
    /// `src/backend/storage/ipc/sinvaladt.c`). Conditions: its transaction is committed, and these are
    /// the next of its messages, 1 to 64 of them. It answers what the cleanup did that makes room for
    /// them, if one ran: who was put into reset state, and who is to be signaled.
    fn publish(&mut self, b: u32, c: u32, messages: &[Message]) -> Cleaned
        requires call { MayCall (script self.old) (history self.old) (entry_of b c (Event.Publish (length messages.now))) }
        requires place { 0 < promised self.old b }
        requires next { ArePublishedNext (history self.old) b messages.now }
        ensures cleaned { result ≡ room_answer (queue_of (script self.old) (history self.old)) (length messages.now) }
        ensures script { script self.new ≡ script self.old }
        ensures appends { Appends (history self.old) (history self.new) (promised self.old) (promised self.new) (entry_of b c (Event.Publish (length messages.now))) };

    /// It releases the locks that it was granted in commands of this number and above
    /// (`LockReleaseAll` in `src/backend/storage/lmgr/lock.c`).
    fn release(&mut self, b: u32, c: u32, from: u32)
        requires call { MayCall (script self.old) (history self.old) (entry_of b c (Event.Release from)) }
        requires place { 0 < promised self.old b }
        ensures script { script self.new ≡ script self.old }
        ensures appends { Appends (history self.old) (history self.new) (promised self.old) (promised self.new) (entry_of b c (Event.Release from)) };

    /// What it wrote in commands of this number and above is taken back (`AbortSubTransaction` in
    /// `src/backend/access/transam/xact.c`).
    fn gone(&mut self, b: u32, c: u32, from: u32)
        requires call { MayCall (script self.old) (history self.old) (entry_of b c (Event.Gone from)) }
        requires place { 0 < promised self.old b }
        ensures script { script self.new ≡ script self.old }
        ensures appends { Appends (history self.old) (history self.new) (promised self.old) (promised self.new) (entry_of b c (Event.Gone from)) };

    /// It leaves (`CleanupInvalidationState` in `src/backend/storage/ipc/sinvaladt.c`).
    fn stop(&mut self, b: u32, c: u32)
        requires call { MayCall (script self.old) (history self.old) (entry_of b c Event.Stop) }
        requires place { 0 < promised self.old b }
        ensures script { script self.new ≡ script self.old }
        ensures appends { Appends (history self.old) (history self.new) (promised self.old) (promised self.new) (entry_of b c Event.Stop) };

    ghost short: { (s : Self) → length (history s) + all_promised (promised s) (script s).backends ≤ 2 ^ 56 };
}
