ghost use Rattle.std.specs.Prelude.{◌≡◌};
ghost use Rattle.std.specs.List.{find};
ghost use Rattle.ddl_effect.specs.Parts.{column_number as number_of};
ghost use Rattle.ddl_effect.specs.Columns.{as_dropped, name_dropped, is_default_of, with_name, with_stat};
ghost use Rattle.ddl_effect.specs.Tables.{with_fill, with_own_name};

use base_types::{MOST_COLUMNS, Name, Row};

/// The greatest statistics target.
pub(crate) const MOST_STAT: i32 = 10_000;

/// The number of a column, by its row.
pub(crate) fn column_number(row: &Row) -> u32
    ensures { result ≡ number_of row.now }
{
    match row {
        Row::Att { num, .. } => *num,
        _ => 0,
    }
}

/// The row of a column once it is dropped (`RemoveAttributeById` in `src/backend/catalog/heap.c`):
/// its type and its statistics target stay.
pub(crate) fn dropped(row: &Row) -> Row
    ensures { result ≡ as_dropped row.now }
{
    match row {
        Row::Att {
            rel,
            num,
            name,
            col_type,
            stat,
            ..
        } => Row::Att {
            rel: *rel,
            num: *num,
            name: dropped_name(*num, *name),
            col_type: *col_type,
            stat: *stat,
            live: false,
        },
        other => *other,
    }
}

// The name that a column of this number and name has once it is dropped.
fn dropped_name(num: u32, name: Name) -> Name
    ensures { result ≡ name_dropped num name }
{
    if num >= 1 && num <= MOST_COLUMNS {
        Name::dropped(num)
    } else {
        name
    }
}

/// The default of the column of this number, among rows of defaults.
pub(crate) fn default_of(num: u32, defaults: &[Row]) -> Option<Row>
    ensures { result ≡ find (is_default_of num) defaults.now }
{
    defaults.iter().find(|row| is_default(num, row)).copied()
}

// Whether a row is the default of the column of this number.
fn is_default(num: u32, row: &Row) -> bool
    ensures { result ≡ is_default_of num row.now }
{
    match row {
        Row::Def { num: of, .. } => *of == num,
        _ => false,
    }
}

/// The row of a column with another name.
pub(crate) fn renamed(row: &Row, to: Name) -> Row
    ensures { result ≡ with_name to row.now }
{
    match row {
        Row::Att {
            rel,
            num,
            col_type,
            stat,
            live,
            ..
        } => Row::Att {
            rel: *rel,
            num: *num,
            name: to,
            col_type: *col_type,
            stat: *stat,
            live: *live,
        },
        other => *other,
    }
}

/// The row of a column with another statistics target.
pub(crate) fn targeted(row: &Row, stat: i32) -> Row
    ensures { result ≡ with_stat stat row.now }
{
    match row {
        Row::Att {
            rel,
            num,
            name,
            col_type,
            live,
            ..
        } => Row::Att {
            rel: *rel,
            num: *num,
            name: *name,
            col_type: *col_type,
            stat,
            live: *live,
        },
        other => *other,
    }
}

/// The row of a relation with another fillfactor.
pub(crate) fn filled(row: &Row, fill: u32) -> Row
    ensures { result ≡ with_fill fill row.now }
{
    match row {
        Row::Class {
            oid,
            name,
            kind,
            ..
        } => Row::Class {
            oid: *oid,
            name: *name,
            kind: *kind,
            fill: Some(fill),
        },
        other => *other,
    }
}

/// The row of a relation with another name.
pub(crate) fn renamed_relation(row: &Row, to: Name) -> Row
    ensures { result ≡ with_own_name to row.now }
{
    match row {
        Row::Class {
            oid,
            kind,
            fill,
            ..
        } => Row::Class {
            oid: *oid,
            name: to,
            kind: *kind,
            fill: *fill,
        },
        other => *other,
    }
}
