use crate::Oid;

/// What identifies a row within its catalog.
#[derive(Clone, Copy)]
pub enum RowKey {
    Class(Oid),
    Att(Oid, u32),
    Def(Oid),
    Ind(Oid),
    Con(Oid),
    Trg(Oid),
}

impl RowKey {
    ghost use Rattle.std.specs.Prelude.{◌≡◌};
    ghost use Rattle.base_types.specs.RowKeys.{same_key};

    /// Whether two keys are one.
    pub fn is(&self, other: &RowKey) -> bool
        ensures { result ≡ same_key self.now other.now }
    {
        match (self, other) {
            (RowKey::Att(rel, num), RowKey::Att(of, other_num)) => {
                rel.0 == of.0 && num == other_num
            }
            (RowKey::Class(oid), RowKey::Class(of))
            | (RowKey::Def(oid), RowKey::Def(of))
            | (RowKey::Ind(oid), RowKey::Ind(of))
            | (RowKey::Con(oid), RowKey::Con(of))
            | (RowKey::Trg(oid), RowKey::Trg(of)) => oid.0 == of.0,
            _ => false,
        }
    }
}
