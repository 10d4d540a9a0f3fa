/// A field of a relation's descriptor. `Name` is a field of both kinds.
#[derive(Clone, Copy)]
pub enum Field {
    Name,
    Columns,
    Defaults,
    Statistics,
    Fillfactor,
    Constraints,
    Referenced,
    Indexes,
    Triggers,
    Of,
    Valid,
}

impl Field {
    ghost use Rattle.std.specs.Prelude.{◌≡◌, ◌≤◌, length};
    ghost use Rattle.base_types.specs.Words.{field_word};

    /// All fields.
    pub const ALL: [Field; 11] = [
        Field::Name,
        Field::Columns,
        Field::Defaults,
        Field::Statistics,
        Field::Fillfactor,
        Field::Constraints,
        Field::Referenced,
        Field::Indexes,
        Field::Triggers,
        Field::Of,
        Field::Valid,
    ];

    /// The name of the field.
    pub fn word(self) -> &'static [u8]
        ensures text { result.now ≡ field_word self }
        ensures short { length result.now ≤ 12 }
    {
        match self {
            Field::Name => b"name",
            Field::Columns => b"columns",
            Field::Defaults => b"defaults",
            Field::Statistics => b"statistics",
            Field::Fillfactor => b"fillfactor",
            Field::Constraints => b"constraints",
            Field::Referenced => b"referenced",
            Field::Indexes => b"indexes",
            Field::Triggers => b"triggers",
            Field::Of => b"of",
            Field::Valid => b"valid",
        }
    }
}
