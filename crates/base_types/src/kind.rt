/// What a relation is.
#[derive(Clone, Copy)]
pub enum Kind {
    Table,
    Index,
}

impl Kind {
    ghost use Rattle.std.specs.Prelude.{◌≡◌, ◌≤◌, length};
    ghost use Rattle.base_types.specs.Words.{kind_word};

    /// The letter of the kind (`RELKIND_RELATION` and `RELKIND_INDEX`).
    pub fn word(self) -> &'static [u8]
        ensures text { result.now ≡ kind_word self }
        ensures short { length result.now ≤ 1 }
    {
        match self {
            Kind::Table => b"r",
            Kind::Index => b"i",
        }
    }
}
