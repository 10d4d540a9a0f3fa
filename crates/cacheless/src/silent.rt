// What a backend does without an entry.

ghost use Rattle.std.specs.Prelude.{◌≡◌, ◌≤◌, ◌<◌, ◌&&◌, ◌||◌, List, [], None, true, OnOk, OnErr, IfOk, is_none, is_some, length};
ghost use Rattle.ddl_effect.specs.Stages.{plan_at, told_of, want_of};
ghost use Rattle.cacheless.specs.Told.{tells_of_scans as rests_on_scans};
ghost use Rattle.cacheless.specs.State.{blocks_passed, rows_kept as kept_rows};
ghost use Rattle.cacheless.specs.Silently.{rows_for as gives_rows};
ghost use Rattle.local_caches.specs.Caches.{kept_of};

use crate::begun::begun;
use crate::opens::{held_in, opens_after, unpin_others};
use crate::{Counts, Due, Opening, Progress};
use base_types::{Command, Kind, Listed, Mode, Name, NoMemory, Oid, Purpose, Row};
use ddl_effect::{Exec, OpenRelation, Told, Want};
use event_kinds::Line;
use local_caches::LocalCaches;
use std::alloc::Global;
use txn_blocks::TxnBlocks;

/// What a backend does without an entry: the next act of its command, its answer, or the end of it, or
/// nothing.
#[derive(Clone, Copy)]
pub enum Silent {
    Act,
    Answer,
    Finish,
    Rest,
}

impl Progress {
    ghost use Rattle.base_types.specs.Scenario.{Scenario};
    ghost use Rattle.event_kinds.specs.declared.entry.Entry.{Entry};
    ghost use Rattle.cacheless.specs.State.{facts_at, work_at, kept_at, is_out as has_come_out, row_next as next_row};
    ghost use Rattle.std.specs.List.{cons_option};
    ghost use Rattle.cacheless.specs.Owed.{is_free};
    ghost use Rattle.cacheless.specs.Ends.{end_in};
    ghost use Rattle.cacheless.specs.Rule.{row_of_name};
    ghost use Rattle.cacheless.specs.Settled.{has_taken_no_other as no_other, has_accepted_in, looked_up_in, gives_left, is_finished_in};
    ghost use Rattle.cacheless.specs.Silently.{opened_for, acts_on, is_ends as ends_silently_by, is_to_answer, is_to_answer_at, is_finished_at, Acts, Answers, Finishes, IsSilentOf, HasAnswered, IsLineOf, left_of};
    ghost use Rattle.cacheless.specs.Holds.{Holds, Rests, HasActed, HasPassed};
    ghost use Rattle.cacheless.specs.Answering.{KeepsAbsent};
    ghost use Rattle.cacheless.specs.Telling.{TellsNow, HasGoneOn};

    /// Goes on as far as it can without an entry, and adds the lines of the commands that it passes over.
    /// Out of memory, it may not be used any more.
    pub fn settle(&mut self, alloc: Global, lines: &mut Listed<Line>) -> Result<(), NoMemory>
        requires few { length self.old.commands ≤ 20000 }
        ensures rests { OnOk result ((scenario : Scenario) (seen : List Entry) → Holds scenario seen self.old → Rests scenario seen self.new) }
        ensures answered { OnOk result (is_to_answer_at self.new ≡ true → is_some self.new.answer ≡ true) }
        ensures goes_on { OnOk result ((scenario : Scenario) (seen : List Entry) (held : Holds scenario seen self.old) → TellsNow scenario seen self.old held → KeepsAbsent seen self.old → HasGoneOn scenario seen self.old held lines.old self.new lines.new) }
        ensures kept { OnOk result (kept_at self.new ≡ kept_at self.old) }
        ensures same { OnOk result (self.new.commands ≡ self.old.commands) }
    {
        'settling: loop {
            match self.silent() {
                Silent::Act => self.act(alloc)?,
                Silent::Answer => self.answer(alloc)?,
                Silent::Finish => lines.push(self.finish(alloc)?)?,
                Silent::Rest => return Ok(()),
            }
        }
    }

    /// What it does without an entry.
    pub fn silent(&self) -> Silent
        requires few { length self.now.commands ≤ 20000 }
        ensures { IsSilentOf self.now result }
    {
        let Some(command) = self.commands.as_slice().get(self.finished as usize) else {
            return Silent::Rest;
        };
        if self.acts(command) {
            return Silent::Act;
        }
        if self.answers(command) {
            return Silent::Answer;
        }
        if self.is_finished(command) {
            return Silent::Finish;
        }
        Silent::Rest
    }

    // Whether its next act is done without an entry.
    fn acts(&self, command: &Command) -> bool
        requires few { self.now.finished ≤ 20000 }
        ensures { result ≡ acts_on command.now self.now }
    {
        self.owes_nothing(command) && self.gives()
    }

    // Whether its next act gives rows, if nothing has to come before it.
    fn gives(&self) -> bool
        requires few { self.now.finished ≤ 20000 }
        ensures { result ≡ gives_left (facts_at self.now) (work_at self.now) (plan_at self.now.opens self.now.exec) }
    {
        match self.exec.next() {
            Want::Lookup { name, mode } => self.looks_up(mode, &self.row_sought(name)),
            Want::Lock { rel, mode } => self.locks.state(rel, mode).is_some(),
            Want::Open { .. } | Want::Search(_) | Want::Read(_) => true,
            _ => false,
        }
    }

    // Whether a lookup that found this row, or none, goes on: it holds the lock on the relation, and has
    // newly taken no other; or there is none, it has accepted messages since it found that, and none came
    // (`RangeVarGetRelidExtended` in `src/backend/catalog/namespace.c`).
    fn looks_up(&self, mode: Mode, row: &Option<Row>) -> bool
        requires few { self.now.finished ≤ 20000 }
        ensures { result ≡ is_some (looked_up_in (facts_at self.now) (work_at self.now) mode (cons_option row.now [])) }
    {
        match row {
            Some(Row::Class { oid, .. }) => {
                self.locks.state(*oid, mode).is_some() && self.has_taken_no_other(*oid)
            }
            _ => self.has_accepted(),
        }
    }

    // Whether the running lookup has newly locked no relation but this one.
    fn has_taken_no_other(&self, rel: Oid) -> bool
        ensures { result ≡ no_other self.now.taken rel }
    {
        match self.taken {
            Some(taken) => rel.0 == taken.0,
            None => true,
        }
    }

    // Whether a lookup that found no relation ends.
    fn has_accepted(&self) -> bool
        requires few { self.now.finished ≤ 20000 }
        ensures { result ≡ has_accepted_in (facts_at self.now) (work_at self.now) }
    {
        self.taken.is_none() && matches!(self.due, Due::Quiet) && self.has_looked()
    }

    /// The row by which a lookup of the name goes on: the first of those that are kept.
    pub fn row_sought(&self, name: Name) -> Option<Row>
        ensures { result ≡ row_of_name (facts_at self.now) name }
    {
        rows_kept(&self.caches, Purpose::RelName(name))
            .first()
            .copied()
    }

    // That of its next act, if it is a lookup.
    pub(crate) fn row_next(&self) -> Option<Row>
        ensures { result ≡ next_row self.now (plan_at self.now.opens self.now.exec) }
    {
        match self.exec.next() {
            Want::Lookup { name, .. } => self.row_sought(name),
            _ => None,
        }
    }

    // Whether the command is to be answered, and isn't yet.
    fn answers(&self, command: &Command) -> bool
        ensures { result ≡ (is_none self.now.answer && is_to_answer command.now self.now) }
    {
        self.answer.is_none()
            && self.is_out()
            && (self.has_failed() || !self.tells_of_scans() || self.owes_nothing(command))
    }

    // Whether what it answers rests on scans, and not only on the command.
    fn tells_of_scans(&self) -> bool
        ensures { result ≡ rests_on_scans (told_of (plan_at self.now.opens self.now.exec)) }
    {
        match self.exec.told() {
            Some(told) => is_of_scans(told),
            None => false,
        }
    }

    // Whether the command is finished.
    fn is_finished(&self, command: &Command) -> bool
        requires few { self.now.finished ≤ 20000 }
        ensures { result ≡ is_finished_at command.now self.now }
    {
        self.has_ended(command)
    }

    // Split off for its proof: the clause as the code tests it.
    fn has_ended(&self, command: &Command) -> bool
        requires few { self.now.finished ≤ 20000 }
        ensures { result ≡ (has_come_out self.now && (self.now.ended || ends_silently_by (end_in (facts_at self.now) command.now (work_at self.now))) && is_free (facts_at self.now) command.now (work_at self.now)) }
    {
        self.is_out() && (self.ended || self.ends_silently(command)) && self.owes_nothing(command)
    }

    /// Whether the command has come out.
    pub fn is_out(&self) -> bool
        ensures { result ≡ has_come_out self.now }
    {
        matches!(
            self.exec.next(),
            Want::Done(_) | Want::Fails(_) | Want::Absent(_)
        )
    }

    /// It does its next act, which needs no entry. Out of memory, it may not be used any more.
    pub fn act(&mut self, alloc: Global) -> Result<(), NoMemory>
        requires acts { Acts self.old }
        ensures acts { OnOk result ((scenario : Scenario) (seen : List Entry) (held : Holds scenario seen self.old) → HasActed scenario seen self.old held self.new) }
        ensures kept { OnOk result (kept_at self.new ≡ kept_at self.old) }
        ensures answer { OnOk result (self.new.answer ≡ self.old.answer) }
        ensures less { OnOk result (left_of self.new < left_of self.old) }
        ensures same { OnOk result (self.new.commands ≡ self.old.commands) }
    {
        match self.exec.next() {
            Want::Open { rel, kind } => self.open(alloc, rel, kind),
            _ => self.find(alloc),
        }
    }

    // It opens a descriptor.
    fn open(&mut self, alloc: Global, rel: Oid, kind: Kind) -> Result<(), NoMemory>
        requires acts { Acts self.old }
        requires opens { want_of (plan_at self.old.opens self.old.exec) ≡ Want.Open rel kind }
        ensures acts { OnOk result ((scenario : Scenario) (seen : List Entry) (held : Holds scenario seen self.old) → HasActed scenario seen self.old held self.new) }
        ensures kept { OnOk result (kept_at self.new ≡ kept_at self.old) }
        ensures answer { OnOk result (self.new.answer ≡ self.old.answer) }
        ensures less { OnOk result (left_of self.new < left_of self.old) }
        ensures same { OnOk result (self.new.commands ≡ self.old.commands) }
    {
        let opening = Opening { rel, kind };
        self.caches.pin(rel)?;
        self.opened.push(opening)?;
        self.suspects.hold(&self.caches, &self.opened, &opening);
        self.exec.give(alloc, &[])?;
        self.taken = None;
        Ok(())
    }

    // It goes on by rows that are there.
    fn find(&mut self, alloc: Global) -> Result<(), NoMemory>
        requires acts { Acts self.old }
        requires other { opened_for (want_of (plan_at self.old.opens self.old.exec)) ≡ [] }
        ensures acts { OnOk result ((scenario : Scenario) (seen : List Entry) (held : Holds scenario seen self.old) → HasActed scenario seen self.old held self.new) }
        ensures kept { OnOk result (kept_at self.new ≡ kept_at self.old) }
        ensures answer { OnOk result (self.new.answer ≡ self.old.answer) }
        ensures less { OnOk result (left_of self.new < left_of self.old) }
        ensures same { OnOk result (self.new.commands ≡ self.old.commands) }
    {
        let want = self.exec.next();
        let row = self.row_next();
        let rows = rows_for(&want, &row, &self.caches);
        self.exec.give(alloc, rows)?;
        self.taken = None;
        Ok(())
    }

    /// It works out what its command answers. Condition: the command is to be answered, and isn't yet. Out
    /// of memory, nothing changes.
    pub fn answer(&mut self, alloc: Global) -> Result<(), NoMemory>
        requires answers { Answers self.old }
        ensures answers { OnOk result (HasAnswered self.old self.new) }
        ensures less { OnOk result (left_of self.new < left_of self.old) }
        ensures err { OnErr result (self.new ≡ self.old) }
    {
        let Some(command) = self.commands.as_slice().get(self.finished as usize) else {
            unreachable!()
        };
        let text = self.told_text(alloc, command)?;
        self.answer = Some(text);
        Ok(())
    }

    /// It passes to its next command, and gives the line of the one before. Condition: the running one is
    /// finished and answered. Out of memory, it may not be used any more.
    pub fn finish(&mut self, alloc: Global) -> Result<Line, NoMemory>
        requires few { length self.old.commands ≤ 20000 }
        requires finishes { Finishes self.old }
        ensures passes { OnOk result ((scenario : Scenario) (seen : List Entry) (held : Holds scenario seen self.old) → HasPassed scenario seen self.old held self.new) }
        ensures kept { OnOk result (kept_at self.new ≡ kept_at self.old) }
        ensures answer { OnOk result (self.new.answer ≡ None) }
        ensures line { IfOk result (λ line. IsLineOf self.old line) }
        ensures less { OnOk result (left_of self.new < left_of self.old) }
        ensures same { OnOk result (self.new.commands ≡ self.old.commands) }
    {
        let number = self.finished + 1;
        let Some(command) = self.commands.as_slice().get(self.finished as usize) else {
            unreachable!()
        };
        let opens = opens_after(
            alloc,
            number,
            command,
            &self.exec,
            self.blocked,
            &self.blocks,
            self.opened.as_slice(),
            self.opens.as_slice(),
        )?;
        pass(&mut self.blocks, &self.exec, number, command)?;
        let next = begun(
            alloc,
            &self.blocks,
            opens.as_slice(),
            self.commands.as_slice(),
            number,
        )?;
        let Some(text) = self.answer.take() else {
            unreachable!()
        };
        self.finished = number;
        self.exec = next.exec;
        self.blocked = next.blocked;
        self.ended = false;
        self.tally = Counts::none();
        self.taken = None;
        let opened = held_in(alloc, &self.blocks, opens.as_slice())?;
        self.opens = opens;
        unpin_others(alloc, &mut self.caches, self.opens.as_slice())?;
        self.suspects
            .hold_others(&self.caches, &self.opened, &opened);
        self.opened = opened;
        Ok(Line {
            backend: self.id,
            command: number,
            text,
        })
    }
}

// Whether what is told rests on scans.
fn is_of_scans(told: &Told) -> bool
    ensures { result ≡ rests_on_scans told.now }
{
    !matches!(told, Told::Ok | Told::Commit)
}

// The command of this number has come out.
fn pass(blocks: &mut TxnBlocks, exec: &Exec, number: u32, command: &Command) -> Result<(), NoMemory>
    ensures { OnOk result ((opens : List OpenRelation) → blocks.new ≡ blocks_passed (plan_at opens exec.now) number command.now blocks.old) }
{
    match exec.next() {
        Want::Done(_) => blocks.ended_well(number, command)?,
        _ => blocks.fail(),
    }
    Ok(())
}

// The rows that are given to an act: the row that a lookup found, or those that are kept of its scan.
fn rows_for<'a>(want: &Want, row: &'a Option<Row>, caches: &'a LocalCaches) -> &'a [Row]
    ensures { result.now ≡ gives_rows want.now row.now (kept_of caches.now) }
{
    match want {
        Want::Lookup { .. } => match row {
            Some(row) => std::slice::from_ref(row),
            None => &[],
        },
        Want::Search(scan) | Want::Read(scan) => rows_kept(caches, *scan),
        _ => &[],
    }
}

// The rows that are kept of a scan.
pub(crate) fn rows_kept(caches: &LocalCaches, scan: Purpose) -> &[Row]
    ensures { result.now ≡ kept_rows (kept_of caches.now) scan }
{
    match caches.rows(&scan) {
        Some(rows) => rows,
        None => &[],
    }
}
