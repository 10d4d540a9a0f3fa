ghost use Rattle.std.specs.Prelude.{◌≡◌, IfOk};
ghost use Rattle.std.specs.Option.{option_map, option_and_then, option_copied};
ghost use Rattle.base_types.specs.Fields.{field_number as number_of, same_field as is_same_field};
ghost use Rattle.rel_desc.specs.KeptRows.{part_for as part_of, value_in as value_of_field, value_made as made_value, values_read as read_values, fields_read as read_fields};

use base_types::{Field, Listed, NoMemory, Oid, Purpose, Row, field_text, same_scan};
use event_kinds::LineText;
use std::alloc::Global;

/// The text of a field of a relation.
#[derive(Drop)]
pub struct FieldValue {
    pub(crate) field: Field,
    pub(crate) value: LineText,
}

// A scan that was made for a descriptor: the number of its entry in the history, how many rows it gave,
// and the values of the fields that it reads.
#[derive(Drop)]
pub(crate) struct Part {
    pub(crate) scan: Purpose,
    pub(crate) at: u64,
    pub(crate) count: usize,
    pub(crate) values: Listed<FieldValue>,
}

// The part of a scan.
fn part_for(parts: &[Part], scan: Purpose) -> Option<&Part>
    ensures { option_copied result ≡ part_of parts.now scan }
{
    parts.iter().find(|p| same_scan(&p.scan, &scan))
}

/// The text of a field among these.
pub fn value_in(values: &[FieldValue], field: Field) -> Option<&LineText>
    ensures { option_copied result ≡ value_of_field values.now field }
{
    match values.iter().find(|v| same_field(v.field, field)) {
        Some(found) => Some(&found.value),
        None => None,
    }
}

// The place of a scan.
pub(crate) fn place_for(parts: &[Part], scan: Purpose) -> Option<u64>
    ensures { result ≡ option_map (λ p. p.at) (part_of parts.now scan) }
{
    match part_for(parts, scan) {
        Some(part) => Some(part.at),
        None => None,
    }
}

// The value of a field in the part of a scan.
pub(crate) fn value_for(parts: &[Part], scan: Purpose, field: Field) -> Option<&LineText>
    ensures { option_copied result ≡ option_and_then (λ p. value_of_field p.values field) (part_of parts.now scan) }
{
    match part_for(parts, scan) {
        Some(part) => value_in(part.values.as_slice(), field),
        None => None,
    }
}

/// The texts of the fields that a scan reads, of the rows that it gave.
pub fn values_read(
    alloc: Global,
    rel: Oid,
    scan: &Purpose,
    rows: &[Row],
) -> Result<Listed<FieldValue>, NoMemory>
    ensures { IfOk result (λ values. values ≡ read_values rel scan.now rows.now) }
{
    let mut values = Listed::new(alloc);
    for field in fields_read(scan) {
        values.push(value_made(alloc, rel, rows, *field)?)?;
    }
    Ok(values)
}

// The fields that a scan reads, of both kinds.
fn fields_read(scan: &Purpose) -> &'static [Field]
    ensures { result.now ≡ read_fields scan.now }
{
    match scan {
        Purpose::Class(_) => &[Field::Name, Field::Fillfactor],
        Purpose::Attribute(_) => &[Field::Columns, Field::Statistics],
        Purpose::AttrDef(_) => &[Field::Defaults],
        Purpose::Constraint(_) => &[Field::Constraints, Field::Referenced],
        Purpose::Index(_) => &[Field::Indexes],
        Purpose::Trigger(_) => &[Field::Triggers],
        Purpose::IndexRow(_) => &[Field::Of, Field::Valid],
        Purpose::RelName(_) | Purpose::RelOid(_) | Purpose::AttName(..) | Purpose::AttList(_) =>
            &[],
    }
}

// The value of a field, of these rows.
fn value_made(alloc: Global, rel: Oid, rows: &[Row], field: Field) -> Result<FieldValue, NoMemory>
    ensures { IfOk result (λ value. value ≡ made_value rel rows.now field) }
{
    let text = field_text(alloc, field, rel, rows)?;
    Ok(FieldValue {
        field,
        value: LineText::new(text),
    })
}

// Whether two fields are one.
fn same_field(a: Field, b: Field) -> bool
    ensures { result ≡ is_same_field a b }
{
    field_number(a) == field_number(b)
}

// The place of a field in its type.
fn field_number(field: Field) -> u32
    ensures { result ≡ number_of field }
{
    match field {
        Field::Name => 0,
        Field::Columns => 1,
        Field::Defaults => 2,
        Field::Statistics => 3,
        Field::Fillfactor => 4,
        Field::Constraints => 5,
        Field::Referenced => 6,
        Field::Indexes => 7,
        Field::Triggers => 8,
        Field::Of => 9,
        Field::Valid => 10,
    }
}
