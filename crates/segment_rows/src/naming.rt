ghost use Rattle.std.specs.Prelude.{◌≡◌, Some};
ghost use Rattle.std.specs.List.{list_any};
ghost use Rattle.std.specs.Option.{option_to_list};
ghost use Rattle.history_model.specs.Names.{is_row_of as is_of_relation, new_name as names_changed};
ghost use Rattle.history_model.specs.Versions.{added_row as row_added};
ghost use Rattle.segment_rows.specs.Words.{is_unused as is_not_used};

use base_types::{Name, Oid, Row};
use event_kinds::Item;
use row_visibility::Clash;

// The name that a change gives a relation, unless the relation has it already.
pub(crate) fn new_name(item: &Item, old: &Option<Row>) -> Option<Name>
    ensures { option_to_list result ≡ names_changed old.now (row_added item.now) }
{
    match item {
        Item::Add(row) | Item::Put(row) => changed_name(old, row),
        Item::Remove(_) | Item::Force(_) => None,
    }
}

// The name of a relation's new row, unless the old row has it.
fn changed_name(old: &Option<Row>, row: &Row) -> Option<Name>
    ensures { option_to_list result ≡ names_changed old.now (Some row.now) }
{
    match (old, row) {
        (Some(Row::Class { name: had, .. }), Row::Class { name, .. }) => {
            if had.as_bytes() == name.as_bytes() {
                None
            } else {
                Some(*name)
            }
        }
        (_, Row::Class { name, .. }) => Some(*name),
        _ => None,
    }
}

// Whether no running transaction of another has the name in use.
pub(crate) fn is_unused(clash: Option<Clash>) -> bool
    ensures { result ≡ is_not_used clash }
{
    !matches!(clash, Some(Clash::Running(_)))
}

// Whether one of the rows is of this relation.
pub(crate) fn has_row_of(rows: &[Row], rel: Oid) -> bool
    ensures { result ≡ list_any (is_of_relation rel) rows.now }
{
    rows.iter().any(|row| is_row_of(row, rel))
}

// Whether the row is of this relation.
fn is_row_of(row: &Row, rel: Oid) -> bool
    ensures { result ≡ is_of_relation rel row.now }
{
    match row {
        Row::Class { oid, .. } => oid.0 == rel.0,
        _ => false,
    }
}
