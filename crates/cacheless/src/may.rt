// What may come next.

ghost use Rattle.std.specs.Prelude.{◌≡◌, ◌+◌, ◌&&◌, ◌||◌, ◌≤◌, false, not, slice_get};
ghost use Rattle.std.specs.List.{list_any};
ghost use Rattle.base_types.specs.Modes.{same_mode as modes_match};
ghost use Rattle.std.specs.Option.{option_map_or};
ghost use Rattle.base_types.specs.Scans.{is_build_scan, same_oid as is_same_oid};
ghost use Rattle.ddl_effect.specs.Stages.{plan_at, want_of};
ghost use Rattle.txn_blocks.specs.Blocks.{ends_block as does_end_block};
ghost use Rattle.cacheless.specs.May.{is_first_missing as is_first, is_missing as lacks};
ghost use Rattle.cacheless.specs.Rule.{names_relation as names};
ghost use Rattle.local_caches.specs.Caches.{kept_of};

use crate::draft_items::{gives_name, writes_items};
use crate::{Due, Opening, Progress};
use base_types::{Command, Kind, Mode, Name, Oid, Purpose, Row, same_scan};
use ddl_effect::Want;
use event_kinds::{Event, Item};
use local_caches::LocalCaches;

impl Progress {
    ghost use Rattle.std.specs.Prelude.{List, ℕ};
    ghost use Rattle.base_types.specs.Scenario.{Scenario};
    ghost use Rattle.event_kinds.specs.declared.entry.Entry.{Entry};
    ghost use Rattle.history_model.specs.Changing.{is_empty as none_in};
    ghost use Rattle.cacheless.specs.Facts.{facts_of};
    ghost use Rattle.cacheless.specs.Plays.{MayPlayIn};
    ghost use Rattle.cacheless.specs.State.{facts_at, work_at, kept_at, session_at};
    ghost use Rattle.cacheless.specs.Owed.{owed_after, owed_first_in, act_owed, scans_owed_in, is_free, is_next_in, owes_build_in, started_in, has_looked_in};
    ghost use Rattle.cacheless.specs.Rule.{may_look_in, may_scan as scans_next, may_lock as locks_next, is_lock as asks_for, is_unlock as gives_back, is_write, is_clash, may_play as plays_in, may_last as plays_last, may_come};
    ghost use Rattle.cacheless.specs.Holds.{Holds};
    ghost use Rattle.cacheless.specs.May.{HasRoom, has_failed as failed, lacks_opened, lacks_any, lacks_to_build, is_next_of_act};
    ghost use Rattle.std.specs.Bool.{Decides};

    /// Whether the event may come next, where the next new oid is this one: exactly where the
    /// definitions allow it, in each history of which this is the session. Condition: its counts are
    /// small enough to be summed.
    pub fn may_play(&self, next_oid: u32, event: &Event) -> bool
        requires few { self.now.finished ≤ 20000 }
        requires room { HasRoom self.now }
        ensures now { result ≡ may_come next_oid (facts_at self.now) (slice_get self.now.commands self.now.finished) (work_at self.now) event.now }
        ensures decides { (scenario : Scenario) (seen : List Entry) (holds : Holds scenario seen self.now) → Decides result (MayPlayIn next_oid (facts_of seen self.now.id) (slice_get self.now.commands self.now.finished) (session_at self.now holds.rest) event.now) }
    {
        self.may_now(next_oid, event)
    }

    // The same, by what it holds.
    fn may_now(&self, next_oid: u32, event: &Event) -> bool
        requires few { self.now.finished ≤ 20000 }
        requires room { HasRoom self.now }
        ensures { result ≡ may_come next_oid (facts_at self.now) (slice_get self.now.commands self.now.finished) (work_at self.now) event.now }
    {
        match self.commands.as_slice().get(self.finished as usize) {
            Some(command) => self.may_play_in(next_oid, command, event),
            None => self.may_last(event),
        }
    }

    // Whether the event may come next in this command.
    fn may_play_in(&self, next_oid: u32, command: &Command, event: &Event) -> bool
        requires few { self.now.finished ≤ 20000 }
        requires room { HasRoom self.now }
        ensures { result ≡ plays_in next_oid (facts_at self.now) command.now (work_at self.now) event.now }
    {
        match event {
            Event::Look { .. } => self.may_look(),
            Event::Fetch { .. } | Event::FetchReset => true,
            Event::Scan { purpose, .. } => self.may_scan(purpose),
            Event::LockOk { rel, mode } | Event::LockHeld { rel, mode, .. } => {
                self.may_lock(command, *rel, *mode)
            }
            Event::Write { items, .. } => self.may_write(next_oid, command, items.as_slice()),
            Event::ClashRow { name, .. } | Event::ClashRunning { name, .. } => {
                self.may_clash(command, *name)
            }
            Event::Visible { .. }
            | Event::Publish { .. }
            | Event::Gone { .. }
            | Event::Release { .. } => self.may_end(command, event),
            Event::Unlock { rel, mode } => self.may_unlock(command, *rel, *mode),
            Event::Start | Event::Fail | Event::Stop => false,
        }
    }

    // Whether the event may come next after the last command.
    fn may_last(&self, event: &Event) -> bool
        requires few { self.now.finished ≤ 20000 }
        requires room { HasRoom self.now }
        ensures { result ≡ plays_last (facts_at self.now) (work_at self.now) event.now }
    {
        match event {
            Event::Look { .. } => self.running.is_some() && self.may_look(),
            Event::Fetch { .. } | Event::FetchReset => true,
            Event::Scan { purpose, .. } => self.may_scan(purpose),
            Event::Gone { .. } | Event::Release { .. } => self.may_end_last(event),
            Event::Stop => self.running.is_none(),
            _ => false,
        }
    }

    // Whether a look may come next.
    fn may_look(&self) -> bool
        requires room { HasRoom self.now }
        ensures { result ≡ may_look_in (facts_at self.now) (work_at self.now) }
    {
        match self.due {
            Due::Fetch => false,
            _ => {
                self.tally.looks + 1
                    <= self.tally.scans
                        + self.tally.grants
                        + self.tally.unlocks
                        + 2 * self.tally.fetches
                        + 3
            }
        }
    }

    // Whether there was a look for one more scan.
    pub(crate) fn has_looked(&self) -> bool
        requires few { self.now.finished ≤ 20000 }
        ensures { result ≡ has_looked_in (facts_at self.now) (work_at self.now) }
    {
        let counted = (self.tally.scans as u128)
            + (self.tally.grants as u128)
            + (self.started() as u128)
            + (self.tally.full as u128);
        counted < (self.tally.looks as u128)
    }

    // 1 if the running transaction started in the running command.
    fn started(&self) -> u64
        requires few { self.now.finished ≤ 20000 }
        ensures is { result ≡ started_in (self.now.finished + 1) (facts_at self.now) }
        ensures most { result ≤ 1 }
    {
        match self.running {
            Some(t) if t.first == self.finished + 1 => 1,
            _ => 0,
        }
    }

    // Whether the scan may come next.
    fn may_scan(&self, scan: &Purpose) -> bool
        requires few { self.now.finished ≤ 20000 }
        ensures { result ≡ scans_next scan.now (facts_at self.now) (work_at self.now) }
    {
        self.is_past_accept() && self.is_next(scan) && self.has_looked()
    }

    // Whether no look and no fetch is owed in an accept of messages.
    pub(crate) fn is_past_accept(&self) -> bool
        ensures { result ≡ none_in (owed_after self.now.due) }
    {
        matches!(self.due, Due::Nothing | Due::Quiet | Due::Gone { .. })
    }

    // Whether the scan is the first that an opened descriptor or the next act lacks.
    fn is_next(&self, scan: &Purpose) -> bool
        ensures { result ≡ is_next_in scan.now (facts_at self.now) (work_at self.now) }
    {
        self.is_first_lacked(scan)
    }

    // Split off for its proof: the clause as the code tests it.
    fn is_first_lacked(&self, scan: &Purpose) -> bool
        ensures { result ≡ (not (failed self.now) && (list_any (λ o. is_first scan.now (kept_at self.now) o.kind o.rel) self.now.opened || is_next_of_act scan.now (kept_at self.now) (plan_at self.now.opens self.now.exec))) }
    {
        !self.has_failed() && (self.is_next_build(scan) || self.is_next_of(scan, &self.exec.next()))
    }

    // Whether the scan is the first that an opened descriptor lacks.
    fn is_next_build(&self, scan: &Purpose) -> bool
        ensures { result ≡ list_any (λ o. is_first scan.now (kept_at self.now) o.kind o.rel) self.now.opened }
    {
        match self.suspects.noted() {
            Some(found) => is_first_of(scan, &self.caches, found),
            None => is_first_of(scan, &self.caches, self.opened.as_slice()),
        }
    }

    // Whether the scan is the first that the next act or the answer lacks.
    fn is_next_of(&self, scan: &Purpose, want: &Want) -> bool
        requires want { want_of (plan_at self.now.opens self.now.exec) ≡ want.now }
        ensures { result ≡ is_next_of_act scan.now (kept_at self.now) (plan_at self.now.opens self.now.exec) }
    {
        match want {
            Want::Lookup { name, .. } => {
                is_missing(scan, &self.caches, &Purpose::RelName(*name))
            }
            Want::Search(wanted) => is_missing(scan, &self.caches, wanted),
            Want::Open { rel, kind } => is_first_missing(scan, &self.caches, *kind, *rel),
            Want::Done(told) => match told {
                Some(wanted) => is_missing(scan, &self.caches, wanted),
                None => false,
            },
            _ => false,
        }
    }

    // Whether the lock, granted or refused, may come next.
    fn may_lock(&self, command: &Command, rel: Oid, mode: Mode) -> bool
        ensures { result ≡ locks_next (facts_at self.now) command.now (work_at self.now) rel mode }
    {
        self.owes_nothing(command) && self.taken.is_none() && self.is_lock(rel, mode)
    }

    // Whether the relation may be unlocked next.
    fn may_unlock(&self, command: &Command, rel: Oid, mode: Mode) -> bool
        ensures { result ≡ (is_free (facts_at self.now) command.now (work_at self.now) && gives_back (facts_at self.now) self.now.taken (plan_at self.now.opens self.now.exec) rel mode) }
    {
        self.owes_nothing(command) && self.is_unlock(rel, mode)
    }

    // Whether the next act releases this lock.
    fn is_unlock(&self, rel: Oid, mode: Mode) -> bool
        ensures { result ≡ gives_back (facts_at self.now) self.now.taken (plan_at self.now.opens self.now.exec) rel mode }
    {
        match self.exec.next() {
            Want::Lookup { name, mode: wanted } => {
                self.has_taken(rel)
                    && same_mode(mode, wanted)
                    && !names_relation(rel, self.row_sought(name))
            }
            _ => false,
        }
    }

    // Whether the running lookup has newly locked the relation.
    fn has_taken(&self, rel: Oid) -> bool
        ensures { result ≡ option_map_or (is_same_oid rel) self.now.taken false }
    {
        match self.taken {
            Some(taken) => rel.0 == taken.0,
            None => false,
        }
    }

    // Whether the next act asks for this lock.
    fn is_lock(&self, rel: Oid, mode: Mode) -> bool
        ensures { result ≡ asks_for (facts_at self.now) (plan_at self.now.opens self.now.exec) rel mode }
    {
        match self.exec.next() {
            Want::Lookup { name, mode: wanted } => {
                names_relation(rel, self.row_sought(name)) && same_mode(mode, wanted)
            }
            Want::Lock {
                rel: other,
                mode: wanted,
            } => rel.0 == other.0 && same_mode(mode, wanted),
            _ => false,
        }
    }

    // Whether a write of these items may come next.
    fn may_write(&self, next_oid: u32, command: &Command, items: &[Item]) -> bool
        ensures { result ≡ (is_free (facts_at self.now) command.now (work_at self.now) && is_write next_oid items.now (plan_at self.now.opens self.now.exec)) }
    {
        self.owes_nothing(command) && writes_items(&self.exec, next_oid, items)
    }

    // Whether a write that is refused for this name may come next.
    fn may_clash(&self, command: &Command, name: Name) -> bool
        ensures { result ≡ (is_free (facts_at self.now) command.now (work_at self.now) && is_clash (kept_at self.now) name (plan_at self.now.opens self.now.exec)) }
    {
        self.owes_nothing(command) && gives_name(&self.exec, &self.caches, name)
    }

    /// Whether nothing has to come before the next act.
    pub fn owes_nothing(&self, command: &Command) -> bool
        ensures { result ≡ is_free (facts_at self.now) command.now (work_at self.now) }
    {
        self.lacks_nothing(command)
    }

    // Split off for its proof: the clause as the code tests it.
    fn lacks_nothing(&self, command: &Command) -> bool
        ensures { result ≡ (none_in (owed_first_in (facts_at self.now) command.now (work_at self.now)) && none_in (owed_after self.now.due) && not (lacks_any self.now)) }
    {
        !self.owes_first_look(command) && self.is_past_accept() && !self.lacks_scan()
    }

    /// Whether the look at the start of its transaction is owed.
    pub fn owes_first_look(&self, command: &Command) -> bool
        ensures { not result ≡ none_in (owed_first_in (facts_at self.now) command.now (work_at self.now)) }
    {
        !self.blocks.is_open()
            && !ends_block(command)
            && !self.ended
            && self.blocks.admit(command).is_ok()
            && self.running.is_none()
    }

    // Whether a scan has to come before the next act.
    fn lacks_scan(&self) -> bool
        ensures { result ≡ lacks_any self.now }
    {
        !self.has_failed() && (self.lacks_build() || self.act_lacks(&self.exec.next()))
    }

    // Whether a scan for a descriptor has to come before the next act: of an opened one, or of the one
    // that is opened next.
    pub(crate) fn lacks_build_scan(&self) -> bool
        ensures { result ≡ list_any is_build_scan (scans_owed_in (facts_at self.now) (work_at self.now)) }
    {
        self.lacks_a_build()
    }

    // Split off for its proof: the clause as the code tests it.
    fn lacks_a_build(&self) -> bool
        ensures { result ≡ (not (failed self.now) && (lacks_opened (kept_at self.now) self.now.opened || lacks_to_build (kept_at self.now) (plan_at self.now.opens self.now.exec))) }
    {
        !self.has_failed() && (self.lacks_build() || self.act_lacks_build())
    }

    // Whether an opened descriptor lacks a scan.
    fn lacks_build(&self) -> bool
        ensures { result ≡ lacks_opened (kept_at self.now) self.now.opened }
    {
        self.suspects.lack(&self.caches, &self.opened)
    }

    // Whether an opened descriptor lacks a scan, in a command that hasn't failed.
    pub(crate) fn lacks_builds(&self) -> bool
        ensures { result ≡ owes_build_in (facts_at self.now) (work_at self.now) }
    {
        self.lacks_serving()
    }

    // Split off for its proof: the clause as the code tests it.
    fn lacks_serving(&self) -> bool
        ensures { result ≡ (not (failed self.now) && lacks_opened (kept_at self.now) self.now.opened) }
    {
        !self.has_failed() && self.lacks_build()
    }

    /// Whether the command has failed.
    pub fn has_failed(&self) -> bool
        ensures { result ≡ failed self.now }
    {
        matches!(self.exec.next(), Want::Fails(_) | Want::Absent(_))
    }

    // Whether the next act lacks a scan for a descriptor.
    fn act_lacks_build(&self) -> bool
        ensures { result ≡ lacks_to_build (kept_at self.now) (plan_at self.now.opens self.now.exec) }
    {
        match self.exec.next() {
            Want::Open { rel, kind } => self.caches.first_missing(kind, rel).is_some(),
            Want::Read(scan) => !self.caches.has(&scan),
            _ => false,
        }
    }

    // Whether the next act or the answer lacks a scan.
    fn act_lacks(&self, want: &Want) -> bool
        requires want { want_of (plan_at self.now.opens self.now.exec) ≡ want.now }
        ensures { not result ≡ none_in (act_owed (facts_at self.now) (plan_at self.now.opens self.now.exec)) }
    {
        match want {
            Want::Lookup { name, .. } => { !self.caches.has(&Purpose::RelName(*name)) }
            Want::Search(scan) => !self.caches.has(scan),
            Want::Read(scan) => !self.caches.has(scan),
            Want::Open { rel, kind } => self.caches.first_missing(*kind, *rel).is_some(),
            Want::Done(told) => match told {
                Some(scan) => !self.caches.has(scan),
                None => false,
            },
            _ => false,
        }
    }
}

// Whether the scan is the first that one of these descriptors lacks.
fn is_first_of(scan: &Purpose, caches: &LocalCaches, opened: &[Opening]) -> bool
    ensures { result ≡ list_any (λ o. is_first scan.now (kept_of caches.now) o.kind o.rel) opened.now }
{
    opened
        .iter()
        .any(|o| is_first_missing(scan, caches, o.kind, o.rel))
}

// Whether the scan is the first that a descriptor lacks.
fn is_first_missing(scan: &Purpose, caches: &LocalCaches, kind: Kind, rel: Oid) -> bool
    ensures { result ≡ is_first scan.now (kept_of caches.now) kind rel }
{
    match caches.first_missing(kind, rel) {
        Some(first) => same_scan(scan, &first),
        None => false,
    }
}

// Whether the scan is this one, and isn't kept.
fn is_missing(scan: &Purpose, caches: &LocalCaches, wanted: &Purpose) -> bool
    ensures { result ≡ lacks scan.now (kept_of caches.now) wanted.now }
{
    !caches.has(wanted) && same_scan(scan, wanted)
}

// Whether there is a row, and it is that of the relation.
fn names_relation(rel: Oid, given: Option<Row>) -> bool
    ensures { result ≡ names rel given }
{
    match given {
        Some(Row::Class { oid, .. }) => rel.0 == oid.0,
        _ => false,
    }
}

// Whether two modes are one.
fn same_mode(a: Mode, b: Mode) -> bool
    ensures { result ≡ modes_match a b }
{
    a.number() == b.number()
}

// Whether the command ends a block.
fn ends_block(command: &Command) -> bool
    ensures { result ≡ does_end_block command.now }
{
    matches!(command, Command::Commit | Command::Rollback)
}
