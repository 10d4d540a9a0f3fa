// How a session changes with the entries of a command's end.

ghost use Rattle.std.specs.Prelude.{◌≡◌, ◌≤◌, ◌<◌, ◌+◌, ◌^◌, true, false, Some, OnOk};
ghost use Rattle.base_types.specs.Scenario.{Scenario};
ghost use Rattle.event_kinds.specs.declared.entry.Entry.{Entry};
ghost use Rattle.cacheless.specs.State.{lists_left};
ghost use Rattle.command_lists.specs.Lists.{all_lists};

use crate::enter::accept;
use crate::opens::{opened_before, openings_of, unpin_others};
use crate::{Due, Progress};
use base_types::{NoMemory, Xid};
use command_lists::InvalLists;
use event_kinds::Event;
use std::alloc::Global;
use txn_blocks::RunningTransaction;

impl Progress {
    ghost use Rattle.std.specs.Prelude.{List};
    ghost use Rattle.inval_messages.specs.Lists.{cats_in, rels_in, lists_from};
    ghost use Rattle.cacheless.specs.State.{kept_at, published_at, lists_at, kept_spared, is_out};
    ghost use Rattle.cacheless.specs.Holds.{Rests, HasEntered};

    /// Its transaction is committed (`ProcArrayEndTransaction` in
    /// `src/backend/storage/ipc/procarray.c`).
    pub fn enter_visible(&mut self, xid: Xid)
        requires few { self.old.finished ≤ 20000 }
        ensures kept { kept_at self.new ≡ kept_at self.old }
        ensures answer { self.new.answer ≡ self.old.answer }
        ensures holds { (scenario : Scenario) (seen : List Entry) → (rests : Rests scenario seen self.old) → HasEntered scenario seen self.old (Event.Visible xid) rests self.new }
        ensures same { self.new.commands ≡ self.old.commands }
    {
        let _xid = xid;
        self.running = Some(RunningTransaction {
            visible: true,
            ..RunningTransaction::begun(self.finished + 1, self.running)
        });
        self.due = Due::Nothing;
        let accepting = self.is_in_acceptance();
        accept(&mut self.locks, accepting);
    }

    /// It published its next messages, so many of them (`SIInsertDataEntries` in
    /// `src/backend/storage/ipc/sinvaladt.c`). Condition: all that it has published can be counted.
    pub fn enter_publish(&mut self, count: u32)
        requires few { self.old.finished ≤ 20000 }
        requires fits { published_at self.old + count < 2 ^ 64 }
        ensures kept { kept_at self.new ≡ kept_at self.old }
        ensures answer { self.new.answer ≡ self.old.answer }
        ensures holds { (scenario : Scenario) (seen : List Entry) → (rests : Rests scenario seen self.old) → HasEntered scenario seen self.old (Event.Publish count) rests self.new }
        ensures same { self.new.commands ≡ self.old.commands }
    {
        let own = RunningTransaction::begun(self.finished + 1, self.running);
        self.running = Some(RunningTransaction {
            published: own.published + count as usize,
            ..own
        });
        self.due = Due::Nothing;
        let accepting = self.is_in_acceptance();
        accept(&mut self.locks, accepting);
    }

    /// What it wrote from this command on is taken back: what its messages cover isn't usable any more,
    /// and nobody else hears of them (`AtEOXact_Inval` and `AtEOSubXact_Inval` in
    /// `src/backend/utils/cache/inval.c`).
    pub fn enter_gone(&mut self, from: u32)
        requires few { self.old.finished ≤ 20000 }
        ensures kept { kept_at self.new ≡ kept_spared (rels_in (lists_from from (lists_at self.old))) (kept_spared (cats_in (lists_from from (lists_at self.old))) (kept_at self.old)) }
        ensures answer { self.new.answer ≡ self.old.answer }
        ensures holds { (scenario : Scenario) (seen : List Entry) → (rests : Rests scenario seen self.old) → HasEntered scenario seen self.old (Event.Gone from) rests self.new }
        ensures same { self.new.commands ≡ self.old.commands }
    {
        self.running = Some(RunningTransaction::begun(self.finished + 1, self.running));
        self.caches.execute(self.lists.cats_from(from));
        self.caches.execute(self.lists.rels_from(from));
        self.suspects.find(&self.caches, &self.opened);
        self.lists.abort_from(from);
        self.due = Due::Gone { from };
        let accepting = self.is_in_acceptance();
        accept(&mut self.locks, accepting);
    }

    /// It released the locks that it was granted in commands of this number and above; where that is
    /// the first command of its transaction, the transaction ends (`LockReleaseAll` in
    /// `src/backend/storage/lmgr/lock.c`). Of the descriptors that it held those stay whose relations were
    /// opened before that command. Condition: its command has come out. Out of memory, it may not be used any
    /// more.
    pub fn enter_release(&mut self, alloc: Global, from: u32) -> Result<(), NoMemory>
        requires few { self.old.finished ≤ 20000 }
        requires out { is_out self.old ≡ true }
        ensures kept { OnOk result (kept_at self.new ≡ kept_at self.old) }
        ensures answer { OnOk result (self.new.answer ≡ self.old.answer) }
        ensures holds { OnOk result ((scenario : Scenario) (seen : List Entry) → (rests : Rests scenario seen self.old) → HasEntered scenario seen self.old (Event.Release from) rests self.new) }
        ensures same { OnOk result (self.new.commands ≡ self.old.commands) }
    {
        let left = opened_before(alloc, from, self.opens.as_slice())?;
        clear_if(
            &mut self.lists,
            RunningTransaction::ends(from, self.running),
        );
        self.running = RunningTransaction::begun(self.finished + 1, self.running).released(from);
        self.locks.release(from);
        self.suspects.forget();
        self.opened = openings_of(alloc, left.as_slice())?;
        // what this end closes counts as open until its command is passed
        unpin_others(alloc, &mut self.caches, self.opens.as_slice())?;
        self.suspects.find(&self.caches, &self.opened);
        self.ended = true;
        self.due = Due::Nothing;
        let accepting = self.is_in_acceptance();
        accept(&mut self.locks, accepting);
        Ok(())
    }
}

// Takes away all lists where the transaction has ended.
fn clear_if(lists: &mut InvalLists, ended: bool)
    ensures { all_lists lists.new.lists ≡ lists_left ended (all_lists lists.old.lists) }
{
    if ended {
        lists.clear();
    }
}
