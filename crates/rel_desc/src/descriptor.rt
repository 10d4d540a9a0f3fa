use crate::kept_scans::KeptScans;
use base_types::{Field, Kind, Oid, Row, has_field};
use event_kinds::LineText;
use std::marker::Model;

/// What the relation cache keeps of a relation (`RelationData` in `src/include/utils/rel.h`): the rows
/// that its scans gave, the text of each field, and where it was read.
#[derive(Drop)]
pub struct Descriptor {
    scans: KeptScans,
}

impl Model for Descriptor {
    ghost use Rattle.rel_desc.specs.Descriptors.{Described, IsBuilt};

    ghost Value = { Described };

    ghost view = { λ d. d.scans };

    ghost invariant = { λ d. IsBuilt d.scans };
}

impl Descriptor {
    ghost use Rattle.std.specs.Prelude.{◌≡◌, is_some};
    ghost use Rattle.std.specs.Option.{option_copied};
    ghost use Rattle.base_types.specs.Fields.{has_field as is_field_of};
    ghost use Rattle.rel_desc.specs.Descriptors.{rows_of, kind_of, field_of, place_of, IsBuilt};

    // The descriptor of a build that has made all its scans.
    pub(crate) fn new(scans: KeptScans) -> Descriptor
        requires { IsBuilt scans }
        ensures { result ≡ scans }
    {
        Descriptor { scans }
    }

    /// The relation (`RelationGetRelid` in `src/include/utils/rel.h`).
    pub fn rel(&self) -> Oid
        ensures rel { result ≡ self.now.rel }
        ensures built { IsBuilt self.now }
    {
        self.scans.rel()
    }

    /// The kind of the relation, by its own row (`rd_rel->relkind`).
    pub fn kind(&self) -> Kind
        ensures { result ≡ kind_of self.now }
    {
        self.scans.kind()
    }

    /// The text of a field, or none where the kind lacks the field.
    pub fn field(&self, field: Field) -> Option<&LineText>
        ensures value { option_copied result ≡ field_of self.now field }
        ensures has { is_some result ≡ is_field_of (kind_of self.now) field }
    {
        if has_field(self.scans.kind(), field) {
            self.scans.value(field)
        } else {
            None
        }
    }

    /// The place of a field: the number in the history, from 1, of the entry of the scan that read it. None
    /// where the kind lacks the field.
    pub fn read_at(&self, field: Field) -> Option<u64>
        ensures place { result ≡ place_of self.now field }
        ensures has { is_some result ≡ is_field_of (kind_of self.now) field }
    {
        if has_field(self.scans.kind(), field) {
            self.scans.place(field)
        } else {
            None
        }
    }

    /// The rows that it was built of, in the order of its scans.
    pub fn rows(&self) -> &[Row]
        ensures { result.now ≡ rows_of self.now }
    {
        self.scans.rows()
    }
}
