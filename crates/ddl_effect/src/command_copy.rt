ghost use Rattle.std.specs.Prelude.{◌≡◌, true, IfOk};
ghost use Rattle.ddl_effect.specs.Stages.{alters_table};

use base_types::{Command, Listed, Name, NewColumn, NoMemory};
use std::alloc::{AllocError, Global};

/// A copy of a command.
pub fn copied_command(alloc: Global, command: &Command) -> Result<Command, NoMemory>
    ensures { IfOk result (λ copy. copy ≡ command.now) }
{
    Ok(match command {
        Command::Begin => Command::Begin,
        Command::Commit => Command::Commit,
        Command::Rollback => Command::Rollback,
        Command::Savepoint(name) => Command::Savepoint(*name),
        Command::Release(name) => Command::Release(*name),
        Command::RollbackTo(name) => Command::RollbackTo(*name),
        Command::Show { name, field } => Command::Show {
            name: *name,
            field: *field,
        },
        Command::Columns(name) => Command::Columns(*name),
        Command::Column { name, column } => Command::Column {
            name: *name,
            column: *column,
        },
        Command::Regclass(oid) => Command::Regclass(*oid),
        Command::LockTable { name, mode } => Command::LockTable {
            name: *name,
            mode: *mode,
        },
        Command::CreateTable { name, columns } => Command::CreateTable {
            name: *name,
            columns: copied_columns(alloc, columns)?,
        },
        Command::CreateIndex {
            name,
            on_table,
            columns,
        } => Command::CreateIndex {
            name: *name,
            on_table: *on_table,
            columns: copied_names(alloc, columns)?,
        },
        Command::DropTable(name) => Command::DropTable(*name),
        Command::OpenRel(name) => Command::OpenRel(*name),
        Command::Peek { name, field } => Command::Peek {
            name: *name,
            field: *field,
        },
        Command::CloseRel(name) => Command::CloseRel(*name),
        _ => copied_alteration(command),
    })
}

// A copy of an alteration of a table or an index.
fn copied_alteration(command: &Command) -> Command
    requires { alters_table command.now ≡ true }
    ensures { result ≡ command.now }
{
    match command {
        Command::AddColumn {
            name,
            column,
            col_type,
        } => Command::AddColumn {
            name: *name,
            column: *column,
            col_type: *col_type,
        },
        Command::DropColumn { name, column } => Command::DropColumn {
            name: *name,
            column: *column,
        },
        Command::RenameColumn { name, column, to } => Command::RenameColumn {
            name: *name,
            column: *column,
            to: *to,
        },
        Command::SetStatistics { name, column, stat } => Command::SetStatistics {
            name: *name,
            column: *column,
            stat: *stat,
        },
        Command::SetFillfactor { name, fill } => Command::SetFillfactor {
            name: *name,
            fill: *fill,
        },
        Command::RenameTable { name, to } => Command::RenameTable {
            name: *name,
            to: *to,
        },
        Command::SetDefault { name, column, word } => Command::SetDefault {
            name: *name,
            column: *column,
            word: *word,
        },
        Command::AddCheck {
            name,
            constraint,
            text,
            valid,
        } => Command::AddCheck {
            name: *name,
            constraint: *constraint,
            text: *text,
            valid: *valid,
        },
        Command::AddForeign {
            name,
            constraint,
            column,
            refers,
            ref_column,
            valid,
        } => Command::AddForeign {
            name: *name,
            constraint: *constraint,
            column: *column,
            refers: *refers,
            ref_column: *ref_column,
            valid: *valid,
        },
        Command::ValidateConstraint { name, constraint } => Command::ValidateConstraint {
            name: *name,
            constraint: *constraint,
        },
        Command::DropConstraint { name, constraint } => Command::DropConstraint {
            name: *name,
            constraint: *constraint,
        },
        Command::SetTrigger { name, trigger, on } => Command::SetTrigger {
            name: *name,
            trigger: *trigger,
            on: *on,
        },
        Command::CreateTrigger { name, trigger } => Command::CreateTrigger {
            name: *name,
            trigger: *trigger,
        },
        Command::DropIndex(name) => Command::DropIndex(*name),
        Command::RenameIndex { name, to } => Command::RenameIndex {
            name: *name,
            to: *to,
        },
        _ => unreachable!(),
    }
}

// A copy of a list of names.
fn copied_names(alloc: Global, names: &Listed<Name>) -> Result<Listed<Name>, AllocError>
    ensures { IfOk result (λ copy. copy ≡ names.now) }
{
    Ok(Listed::from_vec(names.as_slice().to_vec(alloc)?))
}

// A copy of a list of columns.
fn copied_columns(
    alloc: Global,
    columns: &Listed<NewColumn>,
) -> Result<Listed<NewColumn>, AllocError>
    ensures { IfOk result (λ copy. copy ≡ columns.now) }
{
    Ok(Listed::from_vec(columns.as_slice().to_vec(alloc)?))
}
