/// The types that a column may have.
#[derive(Clone, Copy)]
pub enum ColType {
    Bool,
    Int2,
    Int4,
    Int8,
    Text,
    Bytea,
    Date,
    Timestamptz,
}

impl ColType {
    ghost use Rattle.std.specs.Prelude.{◌≡◌, ◌≤◌, length};
    ghost use Rattle.base_types.specs.Words.{type_word};

    /// All types.
    pub const ALL: [ColType; 8] = [
        ColType::Bool,
        ColType::Int2,
        ColType::Int4,
        ColType::Int8,
        ColType::Text,
        ColType::Bytea,
        ColType::Date,
        ColType::Timestamptz,
    ];

    /// The name of the type.
    pub fn word(self) -> &'static [u8]
        ensures text { result.now ≡ type_word self }
        ensures short { length result.now ≤ 12 }
    {
        match self {
            ColType::Bool => b"bool",
            ColType::Int2 => b"int2",
            ColType::Int4 => b"int4",
            ColType::Int8 => b"int8",
            ColType::Text => b"text",
            ColType::Bytea => b"bytea",
            ColType::Date => b"date",
            ColType::Timestamptz => b"timestamptz",
        }
    }
}
