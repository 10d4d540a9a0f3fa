use crate::{Catalog, ColType, IndexState, Kind, Name, Nums, Oid, RowKey, Text, Word};

/// What a constraint demands.
#[derive(Clone, Copy)]
pub enum ConKind {
    Check(Text),
    Foreign { num: u32, refrel: Oid, refnum: u32 },
}

/// A row of a catalog, with the columns that the caches read.
#[derive(Clone, Copy)]
pub enum Row {
    /// `pg_class`: `fill` is the fillfactor, where one is set.
    Class {
        oid: Oid,
        name: Name,
        kind: Kind,
        fill: Option<u32>,
    },
    /// `pg_attribute`: `num` from 1, `stat` the statistics target, -1 to 10,000; a dropped column isn't live.
    Att {
        rel: Oid,
        num: u32,
        name: Name,
        col_type: ColType,
        stat: i32,
        live: bool,
    },
    /// `pg_attrdef`: the default of one column.
    Def {
        oid: Oid,
        rel: Oid,
        num: u32,
        word: Word,
    },
    /// `pg_index`: the columns of an index, by number.
    Ind {
        index: Oid,
        table: Oid,
        state: IndexState,
        nums: Nums,
    },
    /// `pg_constraint`: a check or a foreign key.
    Con {
        oid: Oid,
        rel: Oid,
        name: Name,
        valid: bool,
        what: ConKind,
    },
    /// `pg_trigger`: a trigger, enabled or not.
    Trg {
        oid: Oid,
        rel: Oid,
        name: Name,
        on: bool,
    },
}

impl Row {
    ghost use Rattle.std.specs.Prelude.{◌≡◌};
    ghost use Rattle.base_types.specs.RowKeys.{catalog_of};
    ghost use Rattle.base_types.specs.RowKeys.{key_of};

    /// The catalog of the row.
    pub fn catalog(&self) -> Catalog
        ensures { result ≡ catalog_of self.now }
    {
        match self {
            Row::Class { .. } => Catalog::Class,
            Row::Att { .. } => Catalog::Attribute,
            Row::Def { .. } => Catalog::AttrDef,
            Row::Ind { .. } => Catalog::Index,
            Row::Con { .. } => Catalog::Constraint,
            Row::Trg { .. } => Catalog::Trigger,
        }
    }

    /// What identifies the row within its catalog.
    pub fn key(&self) -> RowKey
        ensures { result ≡ key_of self.now }
    {
        match self {
            Row::Class { oid, .. } => RowKey::Class(*oid),
            Row::Att { rel, num, .. } => RowKey::Att(*rel, *num),
            Row::Def { oid, .. } => RowKey::Def(*oid),
            Row::Ind { index, .. } => RowKey::Ind(*index),
            Row::Con { oid, .. } => RowKey::Con(*oid),
            Row::Trg { oid, .. } => RowKey::Trg(*oid),
        }
    }
}
