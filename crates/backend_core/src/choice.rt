// Which entry comes next: the program's choice among those that may come. Where something is owed, a look,
// a fetch or a scan, it comes first; then the act of the plan, or the next entry of the command's end.

ghost use Rattle.std.specs.Prelude.{◌≡◌, ◌≤◌, [], None, Some, true, false, slice_get};
ghost use Rattle.ddl_effect.specs.Stages.{plan_at, want_of};
ghost use Rattle.cacheless.specs.OpenedReads.{ReadsOpened};
ghost use Rattle.cacheless.specs.Silently.{IsAtRest};
ghost use Rattle.cacheless.specs.Ends.{next_of_commit as commit_next, next_of_taking_back as back_next};
ghost use Rattle.cacheless.specs.State.{owed_after, is_out, row_sought, facts_at, work_at};
ghost use Rattle.cacheless.specs.May.{has_failed, lacks_opened, owes_nothing};
ghost use Rattle.backend_core.specs.Frames.{top};
ghost use Rattle.backend_core.specs.Words.{relation_named};
ghost use Rattle.backend_core.specs.Choice.{accepts_again as accepts_once_more, noted_of, look_or_scan, next_by_name, as_next, next_by_end, next_by_want, next_on_top, next_if_going, next_after_last, next_of as choice_of, next_at};
ghost use Rattle.backend_core.specs.Steps.{IsNextOf, IsChoiceSound, IsFree, IsWhole, WaitsForNone, IsScanNext};

use crate::{Backend, Frame, Next};
use base_types::{Command, Mode, Name, Oid, Purpose, Row, Xid};
use cacheless::{Due, Ending};
use ddl_effect::Want;

impl Backend {
    ghost use Rattle.cacheless.specs.State.{kept_at};

    // What it does next. Conditions: nothing is left to be done without an entry, and what its plan reads
    // is of a descriptor that it has opened.
    pub(crate) fn next(&self) -> Next
        requires few { self.now.progress.finished ≤ 20000 }
        requires still { IsAtRest self.now.progress }
        requires chosen { IsChoiceSound self.now }
        requires reads { ReadsOpened self.now.progress.opened (plan_at self.now.progress.opens self.now.progress.exec) }
        ensures next { IsNextOf self.now result }
        ensures is { next_at self.now ≡ Some result }
    {
        match self
            .progress
            .commands
            .as_slice()
            .get(self.progress.finished as usize)
        {
            Some(command) => self.next_of_command(command),
            None => self.next_after_all(),
        }
    }

    // After the last command: it takes back what its transaction holds still, and leaves.
    fn next_after_all(&self) -> Next
        requires chosen { IsChoiceSound self.now }
        requires none { slice_get self.now.progress.commands self.now.progress.finished ≡ None }
        ensures next { IsNextOf self.now result }
        ensures is { next_after_last (facts_at self.now.progress) ≡ Some result }
    {
        match self.progress.running {
            None => Next::Leave,
            Some(t) => self.next_of_back(t.first),
        }
    }

    // In a command.
    fn next_of_command(&self, command: &Command) -> Next
        requires few { self.now.progress.finished ≤ 20000 }
        requires still { IsAtRest self.now.progress }
        requires chosen { IsChoiceSound self.now }
        requires reads { ReadsOpened self.now.progress.opened (plan_at self.now.progress.opens self.now.progress.exec) }
        requires at { slice_get self.now.progress.commands self.now.progress.finished ≡ Some command.now }
        ensures next { IsNextOf self.now result }
        ensures is { choice_of (facts_at self.now.progress) (Some command.now) (work_at self.now.progress) (noted_of self.now) ≡ Some result }
    {
        match self.progress.due {
            Due::Look => Next::Look,
            Due::Fetch => Next::Fetch,
            Due::Nothing | Due::Quiet | Due::Gone { .. } => self.next_of_free(command),
        }
    }

    // Where its last entry asks for nothing.
    fn next_of_free(&self, command: &Command) -> Next
        requires few { self.now.progress.finished ≤ 20000 }
        requires still { IsAtRest self.now.progress }
        requires chosen { IsChoiceSound self.now }
        requires reads { ReadsOpened self.now.progress.opened (plan_at self.now.progress.opens self.now.progress.exec) }
        requires at { slice_get self.now.progress.commands self.now.progress.finished ≡ Some command.now }
        requires due { owed_after self.now.progress.due ≡ [] }
        ensures next { IsNextOf self.now result }
        ensures is { choice_of (facts_at self.now.progress) (Some command.now) (work_at self.now.progress) (noted_of self.now) ≡ Some result }
    {
        if self.progress.owes_first_look(command) {
            return Next::Look;
        }
        if self.accepts_again() {
            return Next::LookBeforeAbsent;
        }
        if self.progress.has_failed() {
            return self.next_of_end(command);
        }
        self.next_of_going(command, &self.progress.exec.next())
    }

    // Whether its lookup has found no relation, but messages came since it began, or since it looked
    // whether some wait: it looks once more before it says so.
    fn accepts_again(&self) -> bool
        ensures { result ≡ accepts_once_more self.now }
    {
        self.says_absent() && matches!(self.progress.due, Due::Quiet) && (!self.looked || self.told)
    }

    // In a command that hasn't failed: first the rebuild on top.
    fn next_of_going(&self, command: &Command, want: &Want) -> Next
        requires few { self.now.progress.finished ≤ 20000 }
        requires still { IsAtRest self.now.progress }
        requires chosen { IsChoiceSound self.now }
        requires reads { ReadsOpened self.now.progress.opened (plan_at self.now.progress.opens self.now.progress.exec) }
        requires free { IsFree self.now.progress command.now }
        requires want { want_of (plan_at self.now.progress.opens self.now.progress.exec) ≡ want.now }
        requires goes { has_failed self.now.progress ≡ false }
        ensures next { IsNextOf self.now result }
        ensures is { next_if_going (facts_at self.now.progress) command.now (work_at self.now.progress) (noted_of self.now) ≡ Some result }
    {
        match self.frames.top() {
            Some(frame) => self.next_of_rebuild(command, &frame),
            None => self.next_of_want(command, want),
        }
    }

    // The rebuild on top: the look for its next scan, or that scan.
    fn next_of_rebuild(&self, command: &Command, frame: &Frame) -> Next
        requires chosen { IsChoiceSound self.now }
        requires free { IsFree self.now.progress command.now }
        requires goes { has_failed self.now.progress ≡ false }
        requires top { top self.now.frames ≡ Some frame.now }
        ensures next { IsNextOf self.now result }
        ensures is { next_on_top (facts_at self.now.progress) frame.now ≡ Some result }
    {
        if !frame.looked {
            return Next::LookBeforeScan { rebuilds: true };
        }
        let o = frame.opening;
        match self.progress.caches.first_missing(o.kind, o.rel) {
            Some(scan) => Next::Scan {
                scan,
                rebuilds: true,
            },
            None => unreachable!(),
        }
    }

    // The act itself, or what it lacks.
    fn next_of_want(&self, command: &Command, want: &Want) -> Next
        requires few { self.now.progress.finished ≤ 20000 }
        requires still { IsAtRest self.now.progress }
        requires chosen { IsChoiceSound self.now }
        requires reads { ReadsOpened self.now.progress.opened (plan_at self.now.progress.opens self.now.progress.exec) }
        requires free { IsFree self.now.progress command.now }
        requires want { want_of (plan_at self.now.progress.opens self.now.progress.exec) ≡ want.now }
        requires goes { has_failed self.now.progress ≡ false }
        requires bare { self.now.frames ≡ [] }
        requires whole { IsWhole self.now command.now }
        ensures next { IsNextOf self.now result }
        ensures is { next_by_want (facts_at self.now.progress) command.now (work_at self.now.progress) self.now.looked want.now ≡ Some result }
    {
        match want {
            Want::Lookup { name, mode } => self.next_of_lookup(command, *name, *mode),
            Want::Search(scan) => self.next_of_act(*scan),
            Want::Open { rel, kind } => match self.progress.caches.first_missing(*kind, *rel) {
                Some(scan) => self.next_of_act(scan),
                None => unreachable!(),
            },
            Want::Lock { rel, mode } => Next::Lock {
                rel: *rel,
                mode: *mode,
            },
            Want::Write => Next::Write,
            Want::Done(Some(scan)) if !self.progress.owes_nothing(command) => {
                self.next_of_act(*scan)
            }
            Want::Done(_) => self.next_of_end(command),
            Want::Read(_) | Want::Fails(_) | Want::Absent(_) => unreachable!(),
        }
    }

    // A scan that the act lacks, which has a look of its own before it.
    fn next_of_act(&self, scan: Purpose) -> Next
        requires next { IsScanNext self.now scan false }
        ensures next { IsNextOf self.now result }
        ensures is { result ≡ look_or_scan false self.now.looked scan }
    {
        if self.looked {
            Next::Scan {
                scan,
                rebuilds: false,
            }
        } else {
            Next::LookBeforeScan { rebuilds: false }
        }
    }

    // Where a relation is to be found by its name: its scan, or what locks the relation that it names.
    fn next_of_lookup(&self, command: &Command, name: Name, mode: Mode) -> Next
        requires still { IsAtRest self.now.progress }
        requires chosen { IsChoiceSound self.now }
        requires free { IsFree self.now.progress command.now }
        requires want { want_of (plan_at self.now.progress.opens self.now.progress.exec) ≡ Want.Lookup name mode }
        requires bare { self.now.frames ≡ [] }
        requires whole { lacks_opened (kept_at self.now.progress) self.now.progress.opened ≡ false }
        ensures next { IsNextOf self.now result }
        ensures is { next_by_want (facts_at self.now.progress) command.now (work_at self.now.progress) self.now.looked (Want.Lookup name mode) ≡ Some result }
    {
        if !self.progress.owes_nothing(command) {
            return self.next_of_act(Purpose::RelName(name));
        }
        match relation_of(&self.progress.row_sought(name)) {
            Some(rel) => self.next_of_found(command, name, rel, mode),
            None => self.next_of_unfound(command, name, mode),
        }
    }

    // A relation has the name: its lock, after the lookup has unlocked the other one that it took.
    fn next_of_found(&self, command: &Command, name: Name, rel: Oid, mode: Mode) -> Next
        requires still { IsAtRest self.now.progress }
        requires chosen { IsChoiceSound self.now }
        requires free { IsFree self.now.progress command.now }
        requires want { want_of (plan_at self.now.progress.opens self.now.progress.exec) ≡ Want.Lookup name mode }
        requires owes { owes_nothing command.now self.now.progress ≡ true }
        requires found { relation_named (row_sought self.now.progress name) ≡ Some rel }
        ensures next { IsNextOf self.now result }
        ensures is { result ≡ next_by_name self.now.progress.taken (Some rel) mode }
    {
        match self.progress.taken {
            None => Next::Lock { rel, mode },
            Some(taken) => {
                if taken.0 == rel.0 {
                    unreachable!();
                }
                Next::Unlock { rel: taken, mode }
            }
        }
    }

    // None has it: it unlocks what the lookup took, and looks before it says so.
    fn next_of_unfound(&self, command: &Command, name: Name, mode: Mode) -> Next
        requires still { IsAtRest self.now.progress }
        requires chosen { IsChoiceSound self.now }
        requires free { IsFree self.now.progress command.now }
        requires want { want_of (plan_at self.now.progress.opens self.now.progress.exec) ≡ Want.Lookup name mode }
        requires owes { owes_nothing command.now self.now.progress ≡ true }
        requires unfound { relation_named (row_sought self.now.progress name) ≡ None }
        ensures next { IsNextOf self.now result }
        ensures is { result ≡ next_by_name self.now.progress.taken None mode }
    {
        match self.progress.taken {
            Some(taken) => Next::Unlock { rel: taken, mode },
            None => {
                if self.looked {
                    unreachable!();
                }
                Next::LookBeforeAbsent
            }
        }
    }

    // Where nothing is owed before the end of a command that has come out.
    fn next_of_end(&self, command: &Command) -> Next
        requires few { self.now.progress.finished ≤ 20000 }
        requires still { IsAtRest self.now.progress }
        requires free { IsFree self.now.progress command.now }
        requires out { is_out self.now.progress ≡ true }
        requires whole { WaitsForNone self.now command.now }
        requires bare { self.now.frames ≡ [] }
        requires accepted { accepts_once_more self.now ≡ false }
        ensures next { IsNextOf self.now result }
        ensures is { next_by_end (facts_at self.now.progress) command.now (work_at self.now.progress) ≡ Some result }
    {
        match self.progress.end(command) {
            Ending::Ends => unreachable!(),
            Ending::Commits { first } => self.next_of_commit(first),
            Ending::TakesBack { from } => self.next_of_back(from),
        }
    }

    // The next entry of a commit: the visibility step if it has a write, the publishes, the release.
    fn next_of_commit(&self, first: u32) -> Next
        ensures { as_next (commit_next (facts_at self.now.progress) first) ≡ Some result }
    {
        if !self.progress.has_write_since(first) {
            return Next::Release { from: first };
        }
        if !self.progress.is_visible() {
            return Next::Commit {
                xid: Xid(self.progress.own_xid()),
            };
        }
        if self.progress.unpublished().is_empty() {
            return Next::Release { from: first };
        }
        Next::Publish
    }

    // The next entry of taking back: that the commands from this one on are gone, if one has written, and
    // the release.
    fn next_of_back(&self, from: u32) -> Next
        ensures { as_next (back_next (facts_at self.now.progress) from) ≡ Some result }
    {
        if self.progress.has_write_since(from) {
            Next::TakeBack { from }
        } else {
            Next::Release { from }
        }
    }
}

// The relation of a row, if there is one and it is a relation's.
pub(crate) fn relation_of(row: &Option<Row>) -> Option<Oid>
    ensures { result ≡ relation_named row.now }
{
    match row {
        Some(Row::Class { oid, .. }) => Some(*oid),
        _ => None,
    }
}
