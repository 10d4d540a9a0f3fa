ghost use Rattle.std.specs.Prelude.{◌≡◌, ◌≤◌, [], map, length, IfOk};
ghost use Rattle.base_types.specs.declared.dropped.TheConstants.{MOST_COLUMNS};
ghost use Rattle.ddl_effect.specs.Tables.{creating, first_twice as first_repeated, new_table as table_draft, new_column as column_change, table_row};
ghost use Rattle.ddl_effect.specs.Replays.{Comes};

use crate::draft::NEW;
use crate::leave::{done, fails};
use crate::{Draft, Leave, Replay, Step, Told};
use base_types::{Change, Kind, Listed, MOST_COLUMNS, Name, NewColumn, NoMemory, Row};
use command_answers::CommandError;
use std::alloc::{AllocError, Global};
use std::collections::BTreeSet;

/// `create table` (`DefineRelation` in `src/backend/commands/tablecmds.c`): not too many
/// columns, and none twice (`CheckAttributeNamesTypes` in `src/backend/catalog/heap.c`).
#[tactic(auto, using(crate::proofs::Replays::settled))]
pub(crate) fn create_table(
    alloc: Global,
    given: &mut Replay,
    name: Name,
    columns: &[NewColumn],
) -> Result<Step, Leave>
    ensures { Comes result given.old (creating name columns.now) }
{
    if columns.len() > MOST_COLUMNS as usize {
        return fails(CommandError::TooManyColumns);
    }
    let names = column_names(alloc, columns)?;
    if let Some(name) = first_twice(alloc, &names)? {
        return fails(CommandError::ColumnExists { name });
    }
    if given.wrote() {
        return done(Told::Ok);
    }
    given.write(new_table(alloc, name, columns)?)
}

// The names of columns in order.
fn column_names(alloc: Global, columns: &[NewColumn]) -> Result<Vec<Name>, AllocError>
    ensures { IfOk result (λ names. names.items ≡ map (λ c. c.name) columns.now) }
{
    columns.iter().map(|column| column.name).collect(alloc)
}

// The first name that repeats an earlier one.
fn first_twice(alloc: Global, names: &[Name]) -> Result<Option<Name>, NoMemory>
    ensures { IfOk result (λ found. found ≡ first_repeated [] names.now) }
{
    let mut seen = BTreeSet::new(alloc);
    for name in names {
        if !seen.insert(name.as_bytes())? {
            return Ok(Some(*name));
        }
    }
    Ok(None)
}

// The rows of a new table: its own, and one for each column.
fn new_table(alloc: Global, name: Name, columns: &[NewColumn]) -> Result<Draft, NoMemory>
    requires { length columns.now ≤ MOST_COLUMNS }
    ensures { IfOk result (λ draft. draft ≡ table_draft name columns.now) }
{
    let mut changes = Listed::new(alloc);
    changes.push(Change::Insert(class_row(name)))?;
    for (i, column) in columns.iter().enumerate() {
        changes.push(Change::Insert(column_row(i as u32 + 1, column)))?;
    }
    Ok(Draft {
        changes,
        forced: Listed::new(alloc),
        new_oids: 1,
    })
}

// The row of a new table.
fn class_row(name: Name) -> Row
    ensures { Change.Insert result ≡ table_row name }
{
    Row::Class {
        oid: NEW,
        name,
        kind: Kind::Table,
        fill: None,
    }
}

// The row of a new table's column.
fn column_row(num: u32, column: &NewColumn) -> Row
    ensures { Change.Insert result ≡ column_change (num, column.now) }
{
    Row::Att {
        rel: NEW,
        num,
        name: column.name,
        col_type: column.col_type,
        stat: -1,
        live: true,
    }
}
