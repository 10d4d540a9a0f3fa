ghost use Rattle.std.specs.Prelude.{◌≡◌, ◌≤◌, length};
ghost use Rattle.std.specs.List.{list_any};
ghost use Rattle.base_types.specs.Modes.{same_mode, conflicting_modes as modes_against, conflicts as do_conflict, writers_of};

use crate::{Field, Kind, Mode, ModeSet};

/// Whether one backend may not take mode `a` on a relation while another holds mode `b`
/// (`LockConflicts` in `src/backend/storage/lmgr/lock.c`).
pub fn conflicts(a: Mode, b: Mode) -> bool
    ensures { result ≡ do_conflict a b }
{
    is_among(b, conflicting_modes(a))
}

/// The lock modes of the commands that change a field of a relation; none where the kind lacks the
/// field.
pub fn writers(kind: Kind, field: Field) -> ModeSet
    ensures { result ≡ writers_of kind field }
{
    match kind {
        Kind::Table => ModeSet::new(table_writers(field)),
        Kind::Index => ModeSet::new(index_writers(field)),
    }
}

// Whether the mode is one of these.
pub(crate) fn is_among(mode: Mode, modes: &[Mode]) -> bool
    ensures { result ≡ list_any (same_mode mode) modes.now }
{
    modes.iter().any(|other| mode.number() == other.number())
}

// The modes that conflict with a mode, in rising order.
#[rattlefmt::skip]
fn conflicting_modes(mode: Mode) -> &'static [Mode]
    ensures { result.now ≡ modes_against mode }
{
    match mode {
        Mode::AccessShare => &[Mode::AccessExclusive],
        Mode::RowShare => &[Mode::Exclusive, Mode::AccessExclusive],
        Mode::RowExclusive =>
            &[Mode::Share, Mode::ShareRowExclusive, Mode::Exclusive, Mode::AccessExclusive],
        Mode::ShareUpdateExclusive =>
            &[Mode::ShareUpdateExclusive, Mode::Share, Mode::ShareRowExclusive, Mode::Exclusive,
              Mode::AccessExclusive],
        Mode::Share =>
            &[Mode::RowExclusive, Mode::ShareUpdateExclusive, Mode::ShareRowExclusive,
              Mode::Exclusive, Mode::AccessExclusive],
        Mode::ShareRowExclusive =>
            &[Mode::RowExclusive, Mode::ShareUpdateExclusive, Mode::Share,
              Mode::ShareRowExclusive, Mode::Exclusive, Mode::AccessExclusive],
        Mode::Exclusive =>
            &[Mode::RowShare, Mode::RowExclusive, Mode::ShareUpdateExclusive, Mode::Share,
              Mode::ShareRowExclusive, Mode::Exclusive, Mode::AccessExclusive],
        Mode::AccessExclusive =>
            &[Mode::AccessShare, Mode::RowShare, Mode::RowExclusive, Mode::ShareUpdateExclusive,
              Mode::Share, Mode::ShareRowExclusive, Mode::Exclusive, Mode::AccessExclusive],
    }
}

// The modes of the writers of a table's field, in rising order.
fn table_writers(field: Field) -> &'static [Mode]
    ensures modes { result.now ≡ writers_of Kind.Table field }
    ensures short { length result.now ≤ 8 }
{
    match field {
        Field::Name | Field::Columns | Field::Defaults => &[Mode::AccessExclusive],
        Field::Statistics | Field::Fillfactor => &[
            Mode::ShareUpdateExclusive,
            Mode::AccessExclusive,
        ],
        Field::Constraints => &[
            Mode::ShareUpdateExclusive,
            Mode::ShareRowExclusive,
            Mode::AccessExclusive,
        ],
        Field::Referenced | Field::Triggers => &[Mode::ShareRowExclusive, Mode::AccessExclusive],
        Field::Indexes => &[Mode::Share, Mode::AccessExclusive],
        Field::Of | Field::Valid => &[],
    }
}

// The modes of the writers of an index's field, in rising order.
fn index_writers(field: Field) -> &'static [Mode]
    ensures modes { result.now ≡ writers_of Kind.Index field }
    ensures short { length result.now ≤ 8 }
{
    match field {
        Field::Name => &[Mode::ShareUpdateExclusive, Mode::AccessExclusive],
        Field::Of | Field::Valid => &[Mode::AccessExclusive],
        _ => &[],
    }
}
