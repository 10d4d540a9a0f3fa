// How a session changes with its scans.

ghost use Rattle.std.specs.Prelude.{◌≡◌, ◌≤◌, ◌+◌, true, None, OnOk};
ghost use Rattle.base_types.specs.Scenario.{Scenario};
ghost use Rattle.event_kinds.specs.declared.entry.Entry.{Entry};
ghost use Rattle.history_model.specs.Versions.{answer_of};

use crate::enter::accept;
use crate::{Due, Progress};
use base_types::{NoMemory, Purpose, Row};
use event_kinds::Event;
use txn_blocks::RunningTransaction;

impl Progress {
    ghost use Rattle.std.specs.Prelude.{List, ℕ, length};
    ghost use Rattle.local_caches.specs.Kept.{kept_with, is_keyed};
    ghost use Rattle.cacheless.specs.State.{facts_at, work_at, kept_at};
    ghost use Rattle.cacheless.specs.Owed.{is_next_in};
    ghost use Rattle.cacheless.specs.May.{HasRoom};
    ghost use Rattle.cacheless.specs.Holds.{Rests, HasEntered};

    /// A scan gave it these rows, in the entry of this number. Conditions: it is the first that an
    /// opened descriptor, the next act or the answer lacks, a scan for the row of a key gave one at most,
    /// and the counts are small enough to be summed. Out of memory, it may not be used any more.
    pub fn enter_scan(&mut self, scan: &Purpose, rows: Vec<Row>, at: u64) -> Result<(), NoMemory>
        requires few { self.old.finished ≤ 20000 }
        requires room { HasRoom self.old }
        requires next { is_next_in scan.now (facts_at self.old) (work_at self.old) ≡ true }
        requires one { is_keyed scan.now ≡ true → length rows.items ≤ 1 }
        ensures kept { OnOk result (kept_at self.new ≡ kept_with scan.now rows.items at (kept_at self.old)) }
        ensures answer { OnOk result (self.new.answer ≡ None) }
        ensures holds { OnOk result ((scenario : Scenario) (seen : List Entry) (count : ℕ) → (rests : Rests scenario seen self.old) → rows.items ≡ answer_of seen self.old.id scan.now → at ≡ length seen + 1 → HasEntered scenario seen self.old (Event.Scan scan.now count) rests self.new) }
        ensures same { OnOk result (self.new.commands ≡ self.old.commands) }
    {
        self.caches.put(scan, rows, at)?;
        self.suspects.go_on(&self.caches);
        self.running = Some(RunningTransaction::begun(self.finished + 1, self.running));
        self.due = Due::Nothing;
        self.tally.scans += 1;
        let accepting = self.is_in_acceptance();
        accept(&mut self.locks, accepting);
        self.answer = None;
        Ok(())
    }
}
