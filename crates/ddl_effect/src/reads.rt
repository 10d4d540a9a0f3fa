// Commands that write nothing.

ghost use Rattle.std.specs.Prelude.{◌≡◌, Some, None, IfOk};
ghost use Rattle.std.specs.List.{filter_map};
ghost use Rattle.ddl_effect.specs.Opens.{latest_open as the_latest};
ghost use Rattle.ddl_effect.specs.Parts.{looking_up};
ghost use Rattle.ddl_effect.specs.Reads.{live_column as column_live, told_fields, showing, showing_field, columns_of, column_of, regclass_of, keeping, peeking, closing, locking};
ghost use Rattle.ddl_effect.specs.Replays.{Comes};

use crate::leave::{absent, done, fails};
use crate::opens::latest_open;
use crate::{Leave, OpenRelation, Replay, Step, Told};
use base_types::{Field, Kind, Listed, Mode, Name, NoMemory, Oid, Purpose, Row, has_field};
use command_answers::{Column, CommandError};
use std::alloc::Global;

/// `show T`.
#[tactic(auto, using(crate::proofs::Replays::settled))]
pub(crate) fn show(given: &mut Replay, name: Name) -> Result<Step, Leave>
    ensures { Comes result given.old (looking_up name Mode.AccessShare (showing None)) }
{
    let Some(Row::Class { oid, kind, .. }) = given.look_up(name, Mode::AccessShare)?.first() else {
        return absent(name);
    };
    given.open(*oid, *kind)?;
    done(shown(None, *oid, *kind))
}

/// `show T FIELD`: the relation has to have the field.
#[tactic(auto, using(crate::proofs::Replays::settled))]
pub(crate) fn show_field(given: &mut Replay, name: Name, field: Field) -> Result<Step, Leave>
    ensures { Comes result given.old (looking_up name Mode.AccessShare (showing_field name field)) }
{
    let Some(Row::Class { oid, kind, .. }) = given.look_up(name, Mode::AccessShare)?.first() else {
        return absent(name);
    };
    if !has_field(*kind, field) {
        return fails(CommandError::NoField { name, field });
    }
    given.open(*oid, *kind)?;
    done(shown(Some(field), *oid, *kind))
}

/// `columns`: the relation has to be a table.
#[tactic(auto, using(crate::proofs::Replays::settled))]
pub(crate) fn columns(alloc: Global, given: &mut Replay, name: Name) -> Result<Step, Leave>
    ensures { Comes result given.old (columns_of name) }
{
    let Some(Row::Class { oid, kind, .. }) = given.look_up(name, Mode::AccessShare)?.first() else {
        return absent(name);
    };
    let Kind::Table = *kind else {
        return fails(CommandError::NotTable { name });
    };
    let rows = given.search(Purpose::AttList(*oid))?;
    let columns = live_columns(alloc, rows)?;
    done(Told::Columns(columns))
}

/// `column`: the relation has to be a table.
#[tactic(auto, using(crate::proofs::Replays::settled))]
pub(crate) fn column(given: &mut Replay, name: Name, column: Name) -> Result<Step, Leave>
    ensures { Comes result given.old (column_of name column) }
{
    let Some(Row::Class { oid, kind, .. }) = given.look_up(name, Mode::AccessShare)?.first() else {
        return absent(name);
    };
    let Kind::Table = *kind else {
        return fails(CommandError::NotTable { name });
    };
    match given.search(Purpose::AttName(*oid, column))?.first() {
        Some(Row::Att { num, col_type, .. }) => done(Told::Column {
            num: *num,
            col_type: *col_type,
        }),
        _ => fails(CommandError::NoColumn { name: column }),
    }
}

/// `regclass` (`regclassout` in `src/backend/utils/adt/regproc.c`).
#[tactic(auto, using(crate::proofs::Replays::settled))]
pub(crate) fn regclass(given: &mut Replay, oid: Oid) -> Result<Step, Leave>
    ensures { Comes result given.old (regclass_of oid) }
{
    given.search(Purpose::RelOid(oid))?;
    done(Told::Regclass(oid))
}

/// `lock table` (`LockTableCommand` in `src/backend/commands/lockcmds.c`): the relation has to be a table.
#[tactic(auto, using(crate::proofs::Replays::settled))]
pub(crate) fn lock_table(given: &mut Replay, name: Name, mode: Mode) -> Result<Step, Leave>
    ensures { Comes result given.old (looking_up name mode (locking name)) }
{
    let Some(Row::Class { kind, .. }) = given.look_up(name, mode)?.first() else {
        return absent(name);
    };
    match kind {
        Kind::Table => done(Told::Ok),
        Kind::Index => fails(CommandError::NotTable { name }),
    }
}

/// `open`.
#[tactic(auto, using(crate::proofs::Replays::settled))]
pub(crate) fn open_rel(given: &mut Replay, name: Name) -> Result<Step, Leave>
    ensures { Comes result given.old (looking_up name Mode.AccessShare keeping) }
{
    let Some(Row::Class { oid, kind, .. }) = given.look_up(name, Mode::AccessShare)?.first() else {
        return absent(name);
    };
    given.open(*oid, *kind)?;
    done(Told::Ok)
}

/// `peek`, by the latest relation that was opened under the name.
#[tactic(auto, using(crate::proofs::Replays::settled))]
pub(crate) fn peek(
    opens: &[OpenRelation],
    given: &Replay,
    name: Name,
    field: Option<Field>,
) -> Result<Step, Leave>
    ensures { Comes result given.now (peeking name field (the_latest name opens.now)) }
{
    let Some(o) = latest_open(&name, opens) else {
        return fails(CommandError::NotOpen { name });
    };
    if let Some(field) = field {
        if !has_field(o.kind, field) {
            return fails(CommandError::NoField { name, field });
        }
    }
    done(shown(field, o.rel, o.kind))
}

/// `close`, by the latest relation that was opened under the name.
#[tactic(auto, using(crate::proofs::Replays::settled))]
pub(crate) fn close_rel(opens: &[OpenRelation], given: &Replay, name: Name) -> Result<Step, Leave>
    ensures { Comes result given.now (closing name (the_latest name opens.now)) }
{
    match latest_open(&name, opens) {
        Some(_) => done(Told::Ok),
        None => fails(CommandError::NotOpen { name }),
    }
}

// What is told of a relation that is shown.
fn shown(field: Option<Field>, rel: Oid, kind: Kind) -> Told
    ensures { result ≡ told_fields field rel kind }
{
    match field {
        None => Told::Relation { rel, kind },
        Some(field) => Told::Field { rel, kind, field },
    }
}

// The live columns of a table, by the rows of its columns.
fn live_columns(alloc: Global, rows: &[Row]) -> Result<Listed<Column>, NoMemory>
    ensures { IfOk result (λ columns. columns ≡ filter_map column_live rows.now) }
{
    let mut columns = Listed::new(alloc);
    for row in rows {
        if let Some(column) = live_column(row) {
            columns.push(column)?;
        }
    }
    Ok(columns)
}

// The column of a row, if it is live.
fn live_column(row: &Row) -> Option<Column>
    ensures { result ≡ column_live row.now }
{
    match row {
        Row::Att {
            name,
            col_type,
            live: true,
            ..
        } => Some(Column {
            name: *name,
            col_type: *col_type,
        }),
        _ => None,
    }
}
