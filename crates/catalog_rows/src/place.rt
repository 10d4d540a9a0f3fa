ghost use Rattle.std.specs.Prelude.{◌≡◌, ◌++◌, ◌∷◌, [], nat_eq};
ghost use Rattle.std.specs.Hash as fed;
ghost use Rattle.std.specs.Cmp.Lexicographic.{pointwise};
ghost use Rattle.std.specs.Ordering.{on, eq_of_both};
ghost use Rattle.std.specs.Cmp.Rules.{comparing, hashing};
ghost use Rattle.std.proofs.Common.{rules};
ghost use Rattle.catalog_rows.specs.Places.{kind_number, oid_place, relation_place, column_place, key_place, scan_place, owner_place, referred_place, other_place};

use base_types::{ConKind, Name, Oid, Purpose, Row, RowKey, ShortText};
use std::hash::{Hash, Hasher};

// By what kind of key the versions of a list are found.
#[derive(Clone, Copy)]
pub(crate) enum KeyKind {
    RelationName,
    Relation,
    ColumnName,
    Column,
    Columns,
    Default,
    Defaults,
    Constraint,
    Constraints,
    Index,
    Indexes,
    Trigger,
    Triggers,
}

impl KeyKind {
    // The number of this kind.
    fn number(self) -> u32
        ensures { result ≡ kind_number self }
    {
        match self {
            KeyKind::RelationName => 1,
            KeyKind::Relation => 2,
            KeyKind::ColumnName => 3,
            KeyKind::Column => 4,
            KeyKind::Columns => 5,
            KeyKind::Default => 6,
            KeyKind::Defaults => 7,
            KeyKind::Constraint => 8,
            KeyKind::Constraints => 9,
            KeyKind::Index => 10,
            KeyKind::Indexes => 11,
            KeyKind::Trigger => 12,
            KeyKind::Triggers => 13,
        }
    }
}

// What the versions of one list have in common: the oid, the column and the name, where keys of the kind have these.
#[derive(Clone, Copy)]
pub(crate) struct Place {
    kind: KeyKind,
    oid: u32,
    column: u32,
    name: ShortText,
}

impl PartialEq for Place {
    ghost eq = { eq_of_both (on (λ p. kind_number p.kind) nat_eq) (eq_of_both (on (λ p. p.name) (pointwise nat_eq)) (eq_of_both (on (λ p. p.column) nat_eq) (on (λ p. p.oid) nat_eq))) };

    ghost laws = { Prim.search (comparing, rules) depth 9 };

    fn eq(&self, other: &Place) -> bool {
        self.kind.number() == other.kind.number()
            && self.name.as_bytes() == other.name.as_bytes()
            && self.column == other.column
            && self.oid == other.oid
    }
}

impl Eq for Place {
    ghost laws = { Prim.search (comparing, rules) depth 9 };
}

impl Hash for Place {
    ghost hash_input = { λ p. fed.u32 (kind_number p.kind) ++ fed.u32 p.oid ++ fed.u32 p.column ++ p.name ∷ [] };

    ghost respects_eq = { Prim.search (hashing, rules) };

    fn hash<H: Hasher>(&self, state: &mut H) {
        state.write_u32(self.kind.number());
        state.write_u32(self.oid);
        state.write_u32(self.column);
        state.write(self.name.as_bytes());
    }
}

impl Place {
    // The place of an oid, by keys of this kind.
    fn of_oid(kind: KeyKind, oid: Oid) -> Place
        ensures { result ≡ oid_place kind oid }
    {
        Place {
            kind,
            oid: oid.0,
            column: 0,
            name: ShortText::new(&[]),
        }
    }

    // The place of a relation's name.
    pub(crate) fn of_relation(name: &Name) -> Place
        ensures { result ≡ relation_place name.now }
    {
        Place {
            kind: KeyKind::RelationName,
            oid: 0,
            column: 0,
            name: ShortText::new(name.as_bytes()),
        }
    }

    // The place of the name of a relation's column.
    fn of_column(rel: Oid, name: &Name) -> Place
        ensures { result ≡ column_place rel name.now }
    {
        Place {
            kind: KeyKind::ColumnName,
            oid: rel.0,
            column: 0,
            name: ShortText::new(name.as_bytes()),
        }
    }

    // The place of the row with a key.
    pub(crate) fn of_key(key: &RowKey) -> Place
        ensures { result ≡ key_place key.now }
    {
        match key {
            RowKey::Class(oid) => Place::of_oid(KeyKind::Relation, *oid),
            RowKey::Att(rel, num) => Place {
                kind: KeyKind::Column,
                oid: rel.0,
                column: *num,
                name: ShortText::new(&[]),
            },
            RowKey::Def(oid) => Place::of_oid(KeyKind::Default, *oid),
            RowKey::Ind(oid) => Place::of_oid(KeyKind::Index, *oid),
            RowKey::Con(oid) => Place::of_oid(KeyKind::Constraint, *oid),
            RowKey::Trg(oid) => Place::of_oid(KeyKind::Trigger, *oid),
        }
    }

    // The place of what a scan asks for.
    pub(crate) fn of_scan(purpose: &Purpose) -> Place
        ensures { result ≡ scan_place purpose.now }
    {
        match purpose {
            Purpose::RelName(name) => Place::of_relation(name),
            Purpose::RelOid(rel) | Purpose::Class(rel) => Place::of_oid(KeyKind::Relation, *rel),
            Purpose::AttName(rel, name) => Place::of_column(*rel, name),
            Purpose::AttList(rel) | Purpose::Attribute(rel) => Place::of_oid(
                KeyKind::Columns,
                *rel,
            ),
            Purpose::AttrDef(rel) => Place::of_oid(KeyKind::Defaults, *rel),
            Purpose::Constraint(rel) => Place::of_oid(KeyKind::Constraints, *rel),
            Purpose::Index(rel) => Place::of_oid(KeyKind::Indexes, *rel),
            Purpose::Trigger(rel) => Place::of_oid(KeyKind::Triggers, *rel),
            Purpose::IndexRow(rel) => Place::of_oid(KeyKind::Index, *rel),
        }
    }

    // The place of all rows like this one of its relation.
    pub(crate) fn of_owner(row: &Row) -> Option<Place>
        ensures { result ≡ owner_place row.now }
    {
        match row {
            Row::Class { .. } => None,
            Row::Att { rel, .. } => Some(Place::of_oid(KeyKind::Columns, *rel)),
            Row::Def { rel, .. } => Some(Place::of_oid(KeyKind::Defaults, *rel)),
            Row::Ind { table, .. } => Some(Place::of_oid(KeyKind::Indexes, *table)),
            Row::Con { rel, .. } => Some(Place::of_oid(KeyKind::Constraints, *rel)),
            Row::Trg { rel, .. } => Some(Place::of_oid(KeyKind::Triggers, *rel)),
        }
    }

    // The place of a row's name, or of the relation that it refers to.
    pub(crate) fn of_other(row: &Row) -> Option<Place>
        ensures { result ≡ other_place row.now }
    {
        match row {
            Row::Class { name, .. } => Some(Place::of_relation(name)),
            Row::Att { rel, name, .. } => Some(Place::of_column(*rel, name)),
            Row::Con { rel, what, .. } => Place::of_referred(*rel, what),
            Row::Def { .. } | Row::Ind { .. } | Row::Trg { .. } => None,
        }
    }

    // The place of another relation's constraints, to which a foreign key refers.
    fn of_referred(rel: Oid, what: &ConKind) -> Option<Place>
        ensures { result ≡ referred_place rel what.now }
    {
        match what {
            ConKind::Foreign { refrel, .. } if rel.0 != refrel.0 => {
                Some(Place::of_oid(KeyKind::Constraints, *refrel))
            }
            _ => None,
        }
    }
}
