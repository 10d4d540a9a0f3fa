// How a session changes with its locks, and with the error of a refused one.

ghost use Rattle.std.specs.Prelude.{◌≡◌, ◌≤◌, ◌<◌, true, false, None, OnOk};
ghost use Rattle.base_types.specs.Scenario.{Scenario};
ghost use Rattle.event_kinds.specs.declared.entry.Entry.{Entry};
ghost use Rattle.lock_modes.specs.Own.{has_lock};

use crate::enter::accept;
use crate::{Due, Progress};
use base_types::{Mode, NoMemory, Oid};
use command_answers::CommandError;
use ddl_effect::Exec;
use event_kinds::Event;
use txn_blocks::RunningTransaction;

impl Progress {
    ghost use Rattle.std.specs.Prelude.{List};
    ghost use Rattle.cacheless.specs.State.{kept_at, FailsWith, IsLockedIn};
    ghost use Rattle.cacheless.specs.May.{HasRoom};
    ghost use Rattle.cacheless.specs.Holds.{Rests, HasEntered};

    /// Makes room for one more lock. Out of memory, nothing changes.
    pub fn reserve_lock(&mut self) -> Result<(), NoMemory>
        ensures same { IsLockedIn self.old.locks.items self.old self.new }
        ensures ok { OnOk result (0 < self.new.locks.room) }
        ensures rests { (scenario : Scenario) (seen : List Entry) → Rests scenario seen self.old → Rests scenario seen self.new }
    {
        self.locks.reserve()
    }

    /// It was granted a lock. Conditions: there is room for it, it doesn't hold it, and its counts are small
    /// enough to be summed.
    pub fn enter_lock(&mut self, rel: Oid, mode: Mode)
        requires few { self.old.finished ≤ 20000 }
        requires room { HasRoom self.old }
        requires place { 0 < self.old.locks.room }
        requires new { has_lock self.old.locks.items rel mode ≡ false }
        ensures kept { kept_at self.new ≡ kept_at self.old }
        ensures answer { self.new.answer ≡ None }
        ensures holds { (scenario : Scenario) (seen : List Entry) → (rests : Rests scenario seen self.old) → HasEntered scenario seen self.old (Event.LockOk rel mode) rests self.new }
        ensures same { self.new.commands ≡ self.old.commands }
    {
        self.running = Some(RunningTransaction::begun(self.finished + 1, self.running));
        self.due = Due::Look;
        self.tally.grants += 1;
        self.taken = Some(rel);
        self.locks.add(rel, mode, self.finished + 1);
        self.answer = None;
    }

    /// It gave a lock back (`UnlockRelationOid` in `src/backend/storage/lmgr/lmgr.c`). Conditions: it holds it, and
    /// its counts are small enough to be summed.
    pub fn enter_unlock(&mut self, rel: Oid, mode: Mode)
        requires few { self.old.finished ≤ 20000 }
        requires room { HasRoom self.old }
        requires held { has_lock self.old.locks.items rel mode ≡ true }
        ensures kept { kept_at self.new ≡ kept_at self.old }
        ensures answer { self.new.answer ≡ None }
        ensures holds { (scenario : Scenario) (seen : List Entry) → (rests : Rests scenario seen self.old) → HasEntered scenario seen self.old (Event.Unlock rel mode) rests self.new }
        ensures same { self.new.commands ≡ self.old.commands }
    {
        self.running = Some(RunningTransaction::begun(self.finished + 1, self.running));
        self.due = Due::Nothing;
        self.tally.unlocks += 1;
        self.taken = None;
        self.locks.remove(rel, mode);
        let accepting = self.is_in_acceptance();
        accept(&mut self.locks, accepting);
        self.answer = None;
    }

    /// It was refused a lock, which ends its command: this is the first other holder of a mode that
    /// conflicts, and that mode.
    pub fn enter_refused(&mut self, rel: Oid, mode: Mode, holder: u32, held: Mode)
        requires few { self.old.finished ≤ 20000 }
        ensures kept { kept_at self.new ≡ kept_at self.old }
        ensures answer { self.new.answer ≡ None }
        ensures holds { (scenario : Scenario) (seen : List Entry) → (rests : Rests scenario seen self.old) → HasEntered scenario seen self.old (Event.LockHeld rel mode holder held) rests self.new }
        ensures same { self.new.commands ≡ self.old.commands }
    {
        let _mode = mode;
        let error = CommandError::Locked {
            rel,
            holder,
            mode: held,
        };
        self.fail(error);
    }

    // An entry showed this error, which ends the command.
    pub(crate) fn fail(&mut self, error: CommandError)
        requires few { self.old.finished ≤ 20000 }
        ensures { FailsWith error self.old self.new }
    {
        self.running = Some(RunningTransaction::begun(self.finished + 1, self.running));
        self.due = Due::Nothing;
        self.exec = Exec::Failing(error);
        self.locks.clear_all();
        self.answer = None;
    }
}
