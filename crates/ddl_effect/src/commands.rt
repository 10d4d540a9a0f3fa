// What each command does next, by what its acts gave.

ghost use Rattle.std.specs.Prelude.{◌≡◌, List, IfOk};
ghost use Rattle.ddl_effect.specs.Indexes.{create_index as creating_index};
ghost use Rattle.ddl_effect.specs.Parts.{looking_up, altering};
ghost use Rattle.ddl_effect.specs.Tables.{drop_table as dropping_table};
ghost use Rattle.ddl_effect.specs.Commands.{plan_of};
ghost use Rattle.ddl_effect.specs.Replays.{Comes, after_all, step_of};
ghost use Rattle.ddl_effect.specs.Stages.{alteration_plan, altered as alters};

use crate::alteration::{Altered, alteration_of, kind, mode};
use crate::altered_tables::{rename, set_fillfactor};
use crate::columns::{add_column, drop_column, rename_column, set_default, set_statistics};
use crate::constraints::{add_check, add_foreign, drop_constraint, validate};
use crate::drop_table::drop_table;
use crate::indexes::{create_index, drop_index};
use crate::leave::done;
use crate::reads::{
    close_rel, column, columns, lock_table, open_rel, peek, regclass, show, show_field,
};
use crate::table::create_table;
use crate::triggers::{create_trigger, set_trigger};
use crate::{Alteration, Leave, OpenRelation, Replay, Step, Told};
use base_types::{Command, Kind, Listed, Mode, Name, NoMemory, Oid, Row};
use std::alloc::Global;

/// What a command does next, whose acts gave these rows.
pub(crate) fn step_at(
    alloc: Global,
    opens: &[OpenRelation],
    command: &Command,
    given: &[Listed<Row>],
) -> Result<Step, NoMemory>
    ensures { IfOk result (λ step. step ≡ step_of (after_all given.now (plan_of opens.now command.now))) }
{
    match next_step(alloc, opens, command, &mut Replay::new(given)) {
        Ok(step) => Ok(step),
        Err(Leave::At(step)) => Ok(step),
        Err(Leave::NoMemory) => Err(NoMemory),
    }
}

// Runs a command over what its acts gave: its next step, or where it stopped.
#[tactic(auto, using(crate::proofs::Replays::settled))]
fn next_step(
    alloc: Global,
    opens: &[OpenRelation],
    command: &Command,
    given: &mut Replay,
) -> Result<Step, Leave>
    ensures { Comes result given.old (plan_of opens.now command.now) }
{
    match command {
        Command::Begin
        | Command::Rollback
        | Command::Savepoint(_)
        | Command::Release(_)
        | Command::RollbackTo(_) => done(Told::Ok),
        Command::Commit => done(Told::Commit),
        Command::Show { name, field: None } => show(given, *name),
        Command::Show {
            name,
            field: Some(field),
        } => show_field(given, *name, *field),
        Command::Columns(name) => columns(alloc, given, *name),
        Command::Column { name, column: own } => column(given, *name, *own),
        Command::Regclass(oid) => regclass(given, *oid),
        Command::LockTable { name, mode } => lock_table(given, *name, *mode),
        Command::OpenRel(name) => open_rel(given, *name),
        Command::Peek { name, field } => peek(opens, given, *name, *field),
        Command::CloseRel(name) => close_rel(opens, given, *name),
        Command::CreateTable { name, columns } => {
            create_table(alloc, given, *name, columns.as_slice())
        }
        Command::DropTable(name) => drop_named(alloc, opens, given, *name),
        Command::CreateIndex {
            name,
            on_table,
            columns,
        } => create_on(alloc, opens, given, *name, *on_table, columns.as_slice()),
        _ => match alteration_of(command) {
            Some(a) => alter(alloc, opens, given, &a),
            None => unreachable!(),
        },
    }
}

// `drop table`, by its name.
#[tactic(auto, using(crate::proofs::Replays::settled, crate::proofs::Replays::left_table))]
fn drop_named(
    alloc: Global,
    opens: &[OpenRelation],
    given: &mut Replay,
    name: Name,
) -> Result<Step, Leave>
    ensures { Comes result given.old (looking_up name Mode.AccessExclusive (altering opens.now name (dropping_table opens.now name))) }
{
    let rel = given.alter_table(opens, name, Mode::AccessExclusive)?;
    drop_table(alloc, opens, given, rel, name)
}

// `create index`, by the name of its table.
#[tactic(auto, using(crate::proofs::Replays::settled, crate::proofs::Replays::left_table))]
fn create_on(
    alloc: Global,
    opens: &[OpenRelation],
    given: &mut Replay,
    name: Name,
    on_table: Name,
    columns: &[Name],
) -> Result<Step, Leave>
    ensures { Comes result given.old (looking_up on_table Mode.Share (altering opens.now on_table (creating_index name columns.now))) }
{
    let rel = given.alter_table(opens, on_table, Mode::Share)?;
    create_index(alloc, given, rel, name, columns)
}

// An alteration.
#[tactic(auto, using(crate::proofs::Replays::settled, crate::proofs::Replays::left_table, crate::proofs::Replays::left_index))]
fn alter(
    alloc: Global,
    opens: &[OpenRelation],
    given: &mut Replay,
    a: &Altered,
) -> Result<Step, Leave>
    ensures { Comes result given.old (alteration_plan opens.now a.now) }
{
    let mode = mode(&a.alteration);
    match kind(&a.alteration) {
        Kind::Table => {
            let rel = given.alter_table(opens, a.name, mode)?;
            altered(alloc, opens, given, rel, &a.alteration)
        }
        Kind::Index => {
            let rel = given.alter_index(opens, a.name, mode)?;
            altered(alloc, opens, given, rel, &a.alteration)
        }
    }
}

// An alteration, once the descriptor of its relation is open.
fn altered(
    alloc: Global,
    opens: &[OpenRelation],
    given: &mut Replay,
    rel: Oid,
    alteration: &Alteration,
) -> Result<Step, Leave>
    ensures { Comes result given.old (alters opens.now alteration.now rel) }
{
    match alteration {
        Alteration::AddColumn { column, col_type } => {
            add_column(alloc, given, rel, *column, *col_type)
        }
        Alteration::DropColumn { column } => drop_column(alloc, given, rel, *column),
        Alteration::RenameColumn { column, to } => rename_column(alloc, given, rel, *column, *to),
        Alteration::SetDefault { column, word } => set_default(alloc, given, rel, *column, *word),
        Alteration::SetStatistics { column, stat } => {
            set_statistics(alloc, given, rel, *column, *stat)
        }
        Alteration::SetFillfactor { fill } => set_fillfactor(alloc, given, rel, *fill),
        Alteration::RenameTable { to } | Alteration::RenameIndex { to } => {
            rename(alloc, given, rel, *to)
        }
        Alteration::AddCheck {
            constraint,
            text,
            valid,
        } => add_check(alloc, given, rel, *constraint, *text, *valid),
        Alteration::AddForeign { key } => add_foreign(alloc, given, rel, key),
        Alteration::ValidateConstraint { constraint } => validate(alloc, given, rel, *constraint),
        Alteration::DropConstraint { constraint } => {
            drop_constraint(alloc, opens, given, rel, *constraint)
        }
        Alteration::SetTrigger { trigger, on } => set_trigger(alloc, given, rel, *trigger, *on),
        Alteration::CreateTrigger { trigger } => create_trigger(alloc, given, rel, *trigger),
        Alteration::DropIndex => drop_index(alloc, opens, given, rel),
    }
}
