ghost use Rattle.std.specs.Prelude.{◌≡◌};
ghost use Rattle.base_types.specs.Fields.{fields_of as shown_fields, has_field as is_field_of, read_by as scan_for};

use crate::{Field, Kind, Oid, Purpose};

/// The fields of a kind, in the order in which they are shown.
pub fn fields_of(kind: Kind) -> &'static [Field]
    ensures { result.now ≡ shown_fields kind }
{
    match kind {
        Kind::Table => &[
            Field::Name,
            Field::Columns,
            Field::Defaults,
            Field::Statistics,
            Field::Fillfactor,
            Field::Constraints,
            Field::Referenced,
            Field::Indexes,
            Field::Triggers,
        ],
        Kind::Index => &[Field::Name, Field::Of, Field::Valid],
    }
}

/// Whether relations of this kind have the field.
pub fn has_field(kind: Kind, field: Field) -> bool
    ensures { result ≡ is_field_of kind field }
{
    match kind {
        Kind::Table => !matches!(field, Field::Of | Field::Valid),
        Kind::Index => matches!(field, Field::Name | Field::Of | Field::Valid),
    }
}

/// The scan whose rows give a field of a relation.
pub fn read_by(field: Field, rel: Oid) -> Purpose
    ensures { result ≡ scan_for field rel }
{
    match field {
        Field::Name | Field::Fillfactor => Purpose::Class(rel),
        Field::Columns | Field::Statistics => Purpose::Attribute(rel),
        Field::Defaults => Purpose::AttrDef(rel),
        Field::Constraints | Field::Referenced => Purpose::Constraint(rel),
        Field::Indexes => Purpose::Index(rel),
        Field::Triggers => Purpose::Trigger(rel),
        Field::Of | Field::Valid => Purpose::IndexRow(rel),
    }
}
