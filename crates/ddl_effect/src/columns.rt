// Alterations of the columns of a table, once its descriptor is open.

ghost use Rattle.std.specs.Prelude.{◌≡◌, ◌==◌, IfOk};
ghost use Rattle.std.specs.List.{list_any};
ghost use Rattle.ddl_effect.specs.Parts.{reading, writing};
ghost use Rattle.ddl_effect.specs.Columns.{uses_column, add_column as adding_column, drop_column as dropping_column, drop_found as dropping_found, dropping, defaulting, rename_column as renaming_column, set_default as setting_default, set_statistics as setting_statistics};
ghost use Rattle.ddl_effect.specs.Replays.{Comes};

use crate::altered_rows::{MOST_STAT, column_number, default_of, dropped, renamed, targeted};
use crate::draft::{NEW, adding_draft, inserting, replacing};
use crate::leave::fails;
use crate::{Draft, Leave, Replay, Step};
use base_types::{ColType, ConKind, MOST_COLUMNS, Name, NoMemory, Oid, Purpose, Row, Word};
use command_answers::CommandError;
use std::alloc::Global;

/// `add column` (`ATExecAddColumn` in `src/backend/commands/tablecmds.c`).
#[tactic(auto, using(crate::proofs::Replays::settled))]
pub(crate) fn add_column(
    alloc: Global,
    given: &mut Replay,
    rel: Oid,
    column: Name,
    col_type: ColType,
) -> Result<Step, Leave>
    ensures { Comes result given.old (adding_column column col_type rel) }
{
    if !given.search(Purpose::AttName(rel, column))?.is_empty() {
        return fails(CommandError::ColumnExists { name: column });
    }
    let columns = given.read(Purpose::Attribute(rel))?;
    if columns.len() >= MOST_COLUMNS as usize {
        return fails(CommandError::TooManyColumns);
    }
    let row = Row::Att {
        rel,
        num: columns.len() as u32 + 1,
        name: column,
        col_type,
        stat: -1,
        live: true,
    };
    given.write(inserting(alloc, row)?)
}

/// `drop column` (`ATExecDropColumn` in `src/backend/commands/tablecmds.c`).
#[tactic(auto, using(crate::proofs::Replays::settled))]
pub(crate) fn drop_column(
    alloc: Global,
    given: &mut Replay,
    rel: Oid,
    column: Name,
) -> Result<Step, Leave>
    ensures { Comes result given.old (dropping_column column rel) }
{
    let Some(row) = given.search(Purpose::AttName(rel, column))?.first() else {
        return fails(CommandError::NoColumn { name: column });
    };
    drop_unless_used(alloc, given, rel, column, row)
}

// `drop column`, by the row of the column, which no constraint and no index may use.
#[tactic(auto, using(crate::proofs::Replays::settled))]
fn drop_unless_used(
    alloc: Global,
    given: &mut Replay,
    rel: Oid,
    column: Name,
    row: &Row,
) -> Result<Step, Leave>
    ensures { Comes result given.old (dropping_found column rel row.now) }
{
    let num = column_number(row);
    let constraints = given.read(Purpose::Constraint(rel))?;
    if is_used(rel, num, constraints) {
        return fails(CommandError::ColumnUsed { name: column });
    }
    let indexes = given.read(Purpose::Index(rel))?;
    if is_used(rel, num, indexes) {
        return fails(CommandError::ColumnUsed { name: column });
    }
    drop_unused(alloc, given, rel, row)
}

// `drop column`, where nothing uses the column; its default goes with it.
#[tactic(auto, using(crate::proofs::Replays::settled))]
fn drop_unused(alloc: Global, given: &mut Replay, rel: Oid, row: &Row) -> Result<Step, Leave>
    ensures { Comes result given.old (reading (Purpose.AttrDef rel) (dropping row.now)) }
{
    let defaults = given.read(Purpose::AttrDef(rel))?;
    given.write(without_default(alloc, row, defaults)?)
}

// The draft of a dropped column, with which its default goes.
fn without_default(alloc: Global, row: &Row, defaults: &[Row]) -> Result<Draft, NoMemory>
    ensures { IfOk result (λ draft. writing draft ≡ dropping row.now defaults.now) }
{
    let deleted = default_of(column_number(row), defaults);
    replacing(alloc, deleted, dropped(row))
}

/// `rename column` (`renameatt_internal` in `src/backend/commands/tablecmds.c`).
#[tactic(auto, using(crate::proofs::Replays::settled))]
pub(crate) fn rename_column(
    alloc: Global,
    given: &mut Replay,
    rel: Oid,
    column: Name,
    to: Name,
) -> Result<Step, Leave>
    ensures { Comes result given.old (renaming_column column to rel) }
{
    let Some(row) = given.search(Purpose::AttName(rel, column))?.first() else {
        return fails(CommandError::NoColumn { name: column });
    };
    if !given.search(Purpose::AttName(rel, to))?.is_empty() {
        return fails(CommandError::ColumnExists { name: to });
    }
    given.write(replacing(alloc, None, renamed(row, to))?)
}

/// `set default` (`ATExecColumnDefault` in `src/backend/commands/tablecmds.c`): the old one goes.
#[tactic(auto, using(crate::proofs::Replays::settled))]
pub(crate) fn set_default(
    alloc: Global,
    given: &mut Replay,
    rel: Oid,
    column: Name,
    word: Word,
) -> Result<Step, Leave>
    ensures { Comes result given.old (setting_default column word rel) }
{
    let Some(row) = given.search(Purpose::AttName(rel, column))?.first() else {
        return fails(CommandError::NoColumn { name: column });
    };
    let defaults = given.read(Purpose::AttrDef(rel))?;
    given.write(with_default(alloc, rel, row, word, defaults)?)
}

// The draft of a column's new default, with which the old one goes.
fn with_default(
    alloc: Global,
    rel: Oid,
    row: &Row,
    word: Word,
    defaults: &[Row],
) -> Result<Draft, NoMemory>
    ensures { IfOk result (λ draft. writing draft ≡ defaulting word rel row.now defaults.now) }
{
    let num = column_number(row);
    let default = Row::Def {
        oid: NEW,
        rel,
        num,
        word,
    };
    adding_draft(alloc, default_of(num, defaults), default, rel)
}

/// `set statistics` (`ATExecSetStatistics` in `src/backend/commands/tablecmds.c`): -1 is the least target.
#[tactic(auto, using(crate::proofs::Replays::settled))]
pub(crate) fn set_statistics(
    alloc: Global,
    given: &mut Replay,
    rel: Oid,
    column: Name,
    stat: i32,
) -> Result<Step, Leave>
    ensures { Comes result given.old (setting_statistics column stat rel) }
{
    if stat < -1 {
        return fails(CommandError::OutOfRange {
            value: i64::from(stat),
        });
    }
    let Some(row) = given.search(Purpose::AttName(rel, column))?.first() else {
        return fails(CommandError::NoColumn { name: column });
    };
    given.write(replacing(alloc, None, targeted(row, stat.min(MOST_STAT)))?)
}

// Whether one of these rows uses the column of a relation with this number.
fn is_used(rel: Oid, num: u32, rows: &[Row]) -> bool
    ensures { result ≡ list_any (uses_column rel num) rows.now }
{
    rows.iter().any(|row| uses(rel, num, row))
}

// Whether an index has the column, or a foreign key on whichever side.
fn uses(rel: Oid, num: u32, row: &Row) -> bool
    ensures { result ≡ uses_column rel num row.now }
{
    match row {
        Row::Ind { nums, .. } => has_number(nums.as_slice(), num),
        Row::Con {
            rel: of,
            what: ConKind::Foreign {
                num: own_num,
                refrel,
                refnum,
            },
            ..
        } => of.0 == rel.0 && *own_num == num || refrel.0 == rel.0 && *refnum == num,
        _ => false,
    }
}

// Whether a number is one of these.
fn has_number(nums: &[u32], num: u32) -> bool
    ensures { result ≡ list_any (λ n. n == num) nums.now }
{
    nums.iter().any(|n| *n == num)
}
