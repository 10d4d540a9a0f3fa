ghost use Rattle.std.specs.Prelude.{◌≡◌, ◌==◌, true, IfOk, OnErr, length};
ghost use Rattle.history_model.specs.Allows.{is_holder as does_hold};
ghost use Rattle.segment_rows.specs.Kept.{xid_in, reader_at};
ghost use Rattle.history_ledger.specs.Held.{standing_of};

use crate::ledger::Ledger;
use crate::own::Own;
use base_types::{Mode, Name, NoMemory, Oid, Purpose};
use event_kinds::{Entry, Event};
use lock_modes::Grant;

impl Ledger {
    ghost use Rattle.std.specs.Prelude.{List};
    ghost use Rattle.std.specs.Bool.{Decides};
    ghost use Rattle.event_kinds.specs.declared.entry.Entry.{Entry};
    ghost use Rattle.history_model.specs.Lapped.{FetchesFrom};
    ghost use Rattle.history_model.specs.MayFollow.{MayFollow};
    ghost use Rattle.history_ledger.specs.Held.{Keeps, Reads};
    ghost use Rattle.history_ledger.specs.Words.{may_do_at, may_follow_at, may_come, takes_memory, follows_in_memory};
    ghost use Rattle.catalog_rows.specs.Store.{rows_of_scan};
    ghost use Rattle.history_model.specs.Segment.{Segment};
    ghost use Rattle.history_model.specs.Allows.{may_lock as does_allow_lock, may_refuse as does_refuse, may_unlock as does_allow_unlock};
    ghost use Rattle.segment_rows.specs.Words.{may_clash as does_allow_clash};

    /// Whether the entry may follow, and a fetch be of a queue of this size: exactly what the
    /// definitions say of each history that is read here. Out of memory only where rows, keys or messages
    /// are asked for.
    pub fn may_follow(&self, e: &Entry, size: u32) -> Result<bool, NoMemory>
        ensures now { IfOk result (λ yes. yes ≡ may_follow_at self.now size e.now) }
        ensures rule { (s : Segment) → Keeps s self.now → IfOk result (λ yes. yes ≡ may_come size s e.now) }
        ensures decides { (seen : List Entry) → Reads seen self.now → IfOk result (λ yes. Decides yes (MayFollow seen e.now × FetchesFrom size seen e.now.backend e.now.event)) }
        ensures only { OnErr result (follows_in_memory self.now size e.now ≡ true) }
    {
        self.may_follow_now(e, size)
    }

    // The same, by what is held.
    fn may_follow_now(&self, e: &Entry, size: u32) -> Result<bool, NoMemory>
        ensures now { IfOk result (λ yes. yes ≡ may_follow_at self.now size e.now) }
        ensures only { OnErr result (follows_in_memory self.now size e.now ≡ true) }
    {
        let none = Own::new(self.alloc);
        let own = self.backends.get(e.backend, &none);
        if own.follows(e.command, &e.event) && own.fetches_from(size, self.log.len(), &e.event) {
            self.may_do(own, e.backend, e.command, &e.event)
        } else {
            Ok(false)
        }
    }

    // Whether the backend of this standing may do this next.
    fn may_do(&self, own: &Own, b: u32, command: u32, event: &Event) -> Result<bool, NoMemory>
        ensures now { IfOk result (λ yes. yes ≡ may_do_at self.now.rows.store self.now.locks (length self.now.log.items) self.now.rows.next_oid self.now.rows.last_xid b command (standing_of own.now) event.now) }
        ensures only { OnErr result (takes_memory event.now ≡ true) }
    {
        let end = self.log.len();
        match event {
            Event::Start => Ok(true),
            Event::Look { yes } => Ok(own.may_look(end, *yes)),
            Event::Fetch { count } => Ok(own.may_fetch(end, *count)),
            Event::FetchReset => Ok(own.has_looked()),
            Event::Scan { purpose, rows } => self.gives(own, purpose, *rows),
            Event::LockOk { rel, mode } => Ok(self.may_lock(b, *rel, *mode)),
            Event::LockHeld {
                rel,
                mode,
                holder,
                held,
            } => Ok(self.may_refuse(b, *rel, *mode, *holder, *held)),
            Event::Unlock { rel, mode } => Ok(self.may_unlock(own, b, command, *rel, *mode)),
            Event::Write { xid, items } => {
                self.may_write(own, b, command, *xid, items.as_slice())
            }
            Event::ClashRunning { name, xid } => Ok(self.rows.is_used(own.xid(), name, *xid)),
            Event::ClashRow { name, rel } => self.may_clash(own, name, *rel),
            _ => Ok(own.may_end(command, event)),
        }
    }

    // Whether a scan gives so many rows.
    fn gives(&self, own: &Own, purpose: &Purpose, rows: u32) -> Result<bool, NoMemory>
        ensures { IfOk result (λ yes. yes ≡ (rows == length (rows_of_scan self.now.rows.store purpose.now (reader_at (standing_of own.now))))) }
    {
        let given = self.rows.scan(own.xid(), purpose)?;
        Ok(given.len() == rows as usize)
    }

    // Whether a lock may be granted.
    fn may_lock(&self, backend: u32, rel: Oid, mode: Mode) -> bool
        ensures { result ≡ does_allow_lock self.now.locks backend rel mode }
    {
        !self.locks.holds(backend, rel, mode)
            && self.locks.first_conflict(backend, rel, mode).is_none()
    }

    // Whether a lock may be refused, by this holder of that mode.
    fn may_refuse(&self, backend: u32, rel: Oid, mode: Mode, holder: u32, held: Mode) -> bool
        ensures { result ≡ does_refuse self.now.locks backend rel mode holder held }
    {
        !self.locks.holds(backend, rel, mode)
            && is_holder(self.locks.first_conflict(backend, rel, mode), holder, held)
    }

    // Whether a relation may be unlocked in this command.
    fn may_unlock(&self, own: &Own, backend: u32, command: u32, rel: Oid, mode: Mode) -> bool
        ensures { result ≡ does_allow_unlock self.now.locks backend command (standing_of own.now) rel mode }
    {
        self.locks.has_granted(backend, command, rel, mode) && !own.has_write_from(command)
    }

    // Whether a write may be refused since this relation has the name.
    fn may_clash(&self, own: &Own, name: &Name, rel: Oid) -> Result<bool, NoMemory>
        ensures { IfOk result (λ yes. yes ≡ does_allow_clash self.now.rows.store (xid_in (standing_of own.now).running) name.now rel) }
    {
        self.rows.may_clash(own.xid(), name, rel)
    }
}

// Whether the first conflict is of this holder, with this mode.
fn is_holder(first: Option<Grant>, holder: u32, mode: Mode) -> bool
    ensures { result ≡ does_hold holder mode first }
{
    match first {
        Some(grant) => grant.backend == holder && grant.mode.number() == mode.number(),
        None => false,
    }
}
