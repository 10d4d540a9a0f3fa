use crate::{Name, Oid};

/// A scan of a catalog: which rows it asks for.
#[derive(Clone, Copy)]
pub enum Purpose {
    /// The `pg_class` row of a name.
    RelName(Name),
    /// The `pg_class` row of an oid, for a catalog cache.
    RelOid(Oid),
    /// The `pg_attribute` row of a relation's column of that name.
    AttName(Oid, Name),
    /// All `pg_attribute` rows of a relation, by name.
    AttList(Oid),
    /// The `pg_class` row of an oid, for a descriptor.
    Class(Oid),
    /// All `pg_attribute` rows of a relation, by number.
    Attribute(Oid),
    /// All `pg_attrdef` rows of a relation, by column number.
    AttrDef(Oid),
    /// All `pg_constraint` rows of a relation or of foreign keys that refer to it, by oid.
    Constraint(Oid),
    /// All `pg_index` rows of a table's indexes, by oid.
    Index(Oid),
    /// All `pg_trigger` rows of a relation, by name.
    Trigger(Oid),
    /// The `pg_index` row of an index.
    IndexRow(Oid),
}
