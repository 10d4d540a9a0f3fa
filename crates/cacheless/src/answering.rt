// What the running command answers, by the scans that are kept and the locks.

ghost use Rattle.std.specs.Prelude.{◌≡◌, None, Some, IfOk, true, map};
ghost use Rattle.lock_modes.specs.Own.{clear_modes};
ghost use Rattle.command_answers.specs.declared.answer.Answer.TheVariants as answers;
ghost use Rattle.base_types.specs.Fields.{fields_of as all_fields};
ghost use Rattle.cacheless.specs.Lines.{name_in, commit_answer};
ghost use Rattle.cacheless.specs.Protected.{protects};
ghost use Rattle.cacheless.specs.State.{rows_kept as kept_rows, place_kept as kept_place};
ghost use Rattle.cacheless.specs.Told.{told_field, told_well};
ghost use Rattle.local_caches.specs.Caches.{kept_of};

use crate::Progress;
use crate::silent::rows_kept;
use base_types::{
    Command, Field, Kind, Listed, Name, NoMemory, Oid, Purpose, Row, field_text, fields_of,
    read_by, writers,
};
use command_answers::{Answer, Column, Shown, answer_text};
use ddl_effect::{Told, Want, absent_error};
use event_kinds::LineText;
use local_caches::LocalCaches;
use lock_modes::OwnLocks;
use std::alloc::Global;

impl Progress {
    ghost use Rattle.cacheless.specs.State.{kept_at, is_out as has_come_out};
    ghost use Rattle.cacheless.specs.Answering.{told_at, IsToldText};

    // The text of what its command answers, worked out of the scans that it keeps and of its locks.
    pub(crate) fn told_text(&self, alloc: Global, command: &Command) -> Result<LineText, NoMemory>
        requires out { has_come_out self.now ≡ true }
        ensures { IfOk result (IsToldText command.now self.now) }
    {
        let told = self.told(alloc, command)?;
        let mut text = Vec::new(alloc);
        answer_text(&told, &mut text)?;
        Ok(LineText::new(text))
    }

    // What this command answers.
    fn told(&self, alloc: Global, command: &Command) -> Result<Answer, NoMemory>
        requires { has_come_out self.now ≡ true }
        ensures { IfOk result (λ answer. answer ≡ told_at command.now self.now) }
    {
        match self.exec.next() {
            Want::Fails(error) => Ok(Answer::Error(error)),
            Want::Absent(name) => Ok(Answer::Error(absent_error(
                command,
                name,
                place_kept(&self.caches, Purpose::RelName(name)),
            ))),
            Want::Done(_) => match self.exec.told() {
                Some(told) => self.told_by(alloc, told),
                None => Ok(Answer::Ok),
            },
            _ => unreachable!(),
        }
    }

    // What a command answers that came out well, by what it tells.
    fn told_by(&self, alloc: Global, told: &Told) -> Result<Answer, NoMemory>
        ensures { IfOk result (λ answer. answer ≡ told_well (kept_rows (kept_at self.now)) (kept_place (kept_at self.now)) self.now.locks.items self.now.blocks.block told.now) }
    {
        match told {
            Told::Ok => Ok(Answer::Ok),
            Told::Relation { rel, kind } => {
                shown_all(alloc, &self.caches, &self.locks, *rel, *kind)
            }
            Told::Field { rel, kind, field } => {
                shown_one(alloc, &self.caches, &self.locks, *rel, *kind, *field)
            }
            Told::Columns(columns) => Ok(Answer::Columns(copied(alloc, columns.as_slice())?)),
            Told::Column { num, col_type } => Ok(Answer::Column {
                num: *num,
                col_type: *col_type,
            }),
            Told::Regclass(oid) => Ok(Answer::Regclass {
                rel: *oid,
                name: name_of(rows_kept(&self.caches, Purpose::RelOid(*oid))),
                at: place_kept(&self.caches, Purpose::RelOid(*oid)),
            }),
            Told::Commit => Ok(self.told_commit()),
        }
    }

    // What a commit answers.
    fn told_commit(&self) -> Answer
        ensures { result ≡ commit_answer self.now.blocks.block }
    {
        if self.blocks.is_failed() {
            Answer::RolledBack
        } else {
            Answer::Ok
        }
    }
}

// A copy of columns.
fn copied(alloc: Global, columns: &[Column]) -> Result<Listed<Column>, NoMemory>
    ensures { IfOk result (λ copy. copy ≡ columns.now) }
{
    Ok(Listed::from_vec(columns.to_vec(alloc)?))
}

// The name of a relation, by its row.
fn name_of(rows: &[Row]) -> Option<Name>
    ensures { result ≡ name_in rows.now }
{
    match rows.first() {
        Some(Row::Class { name, .. }) => Some(*name),
        _ => None,
    }
}

// The place of a scan that is kept.
fn place_kept(caches: &LocalCaches, scan: Purpose) -> u64
    ensures { result ≡ kept_place (kept_of caches.now) scan }
{
    caches.at(&scan).unwrap_or(0)
}

// All fields of a relation.
fn shown_all(
    alloc: Global,
    caches: &LocalCaches,
    locks: &OwnLocks,
    rel: Oid,
    kind: Kind,
) -> Result<Answer, NoMemory>
    ensures { IfOk result (λ answer. answer ≡ answers.Shown kind rel (map (told_field (kept_rows (kept_of caches.now)) (kept_place (kept_of caches.now)) locks.now.items rel kind) (all_fields kind))) }
{
    let mut fields = Listed::new(alloc);
    for field in fields_of(kind) {
        fields.push(shown_field(alloc, caches, locks, rel, kind, *field)?)?;
    }
    Ok(Answer::Shown { kind, rel, fields })
}

// One of its fields.
fn shown_one(
    alloc: Global,
    caches: &LocalCaches,
    locks: &OwnLocks,
    rel: Oid,
    kind: Kind,
    field: Field,
) -> Result<Answer, NoMemory>
    ensures { IfOk result (λ answer. answer ≡ answers.One (told_field (kept_rows (kept_of caches.now)) (kept_place (kept_of caches.now)) locks.now.items rel kind field)) }
{
    let shown = shown_field(alloc, caches, locks, rel, kind, field)?;
    Ok(Answer::One(shown))
}

// A field of a relation.
fn shown_field(
    alloc: Global,
    caches: &LocalCaches,
    locks: &OwnLocks,
    rel: Oid,
    kind: Kind,
    field: Field,
) -> Result<Shown, NoMemory>
    ensures { IfOk result (λ shown. shown ≡ told_field (kept_rows (kept_of caches.now)) (kept_place (kept_of caches.now)) locks.now.items rel kind field) }
{
    let scan = read_by(field, rel);
    Ok(Shown {
        field,
        value: LineText::new(field_text(alloc, field, rel, rows_kept(caches, scan))?),
        at: if is_protected(locks, rel, kind, field) {
            None
        } else {
            Some(place_kept(caches, scan))
        },
    })
}

// Whether the locks keep all others from changing the field.
fn is_protected(locks: &OwnLocks, rel: Oid, kind: Kind, field: Field) -> bool
    ensures { result ≡ protects (clear_modes locks.now.items rel) kind field }
{
    writers(kind, field)
        .as_slice()
        .iter()
        .all(|writer| locks.keeps_out(rel, *writer))
}
