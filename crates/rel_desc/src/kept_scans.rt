ghost use Rattle.std.specs.Prelude.{◌≡◌};
ghost use Rattle.rel_desc.specs.Descriptors.{kind_in as kind_by};

use crate::part::{Part, place_for, value_for, values_read};
use base_types::{Field, Kind, NoMemory, Oid, Purpose, Row, read_by};
use event_kinds::LineText;
use std::alloc::Global;
use std::marker::Model;

// A relation and the scans that were made for its descriptor. All rows lie in one list.
#[derive(Drop)]
pub(crate) struct KeptScans {
    rel: Oid,
    rows: Vec<Row>,
    parts: Vec<Part>,
}

impl Model for KeptScans {
    ghost use Rattle.rel_desc.specs.Descriptors.{Described};
    ghost use Rattle.rel_desc.specs.KeptRows.{kept_in, IsKept};

    ghost Value = { Described };

    ghost view = { λ s. record { rel = s.rel; kept = kept_in s.parts.items s.rows.items } };

    ghost invariant = { λ s. IsKept s.rel s.parts.items s.rows.items };
}

impl KeptScans {
    ghost use Rattle.std.specs.Prelude.{◌≡◌, length, OnOk, OnErr};
    ghost use Rattle.std.specs.Option.{option_map, option_copied};
    ghost use Rattle.base_types.specs.Fields.{field_text as text_of, read_by as scan_for};
    ghost use Rattle.rel_desc.specs.Descriptors.{unread, rows_of, kind_of, with_scan, kept_for};

    // No scan, which takes no memory.
    pub(crate) fn new(alloc: Global, rel: Oid) -> KeptScans
        ensures { result ≡ unread rel }
    {
        KeptScans {
            rel,
            rows: Vec::new(alloc),
            parts: Vec::new(alloc),
        }
    }

    pub(crate) fn rel(&self) -> Oid
        ensures { result ≡ self.now.rel }
    {
        self.rel
    }

    // How many scans.
    pub(crate) fn count(&self) -> usize
        ensures { result ≡ length self.now.kept }
    {
        self.parts.len()
    }

    pub(crate) fn rows(&self) -> &[Row]
        ensures { result.now ≡ rows_of self.now }
    {
        self.rows.as_slice()
    }

    pub(crate) fn kind(&self) -> Kind
        ensures { result ≡ kind_of self.now }
    {
        kind_in(self.rows())
    }

    // The value of a field, if its scan was made.
    pub(crate) fn value(&self, field: Field) -> Option<&LineText>
        ensures { option_copied result ≡ option_map (λ k. text_of field self.now.rel k.rows) (kept_for self.now.kept (scan_for field self.now.rel)) }
    {
        value_for(self.parts.as_slice(), read_by(field, self.rel), field)
    }

    // The place of the scan that reads a field, if it was made.
    pub(crate) fn place(&self, field: Field) -> Option<u64>
        ensures { result ≡ option_map (λ k. k.at) (kept_for self.now.kept (scan_for field self.now.rel)) }
    {
        place_for(self.parts.as_slice(), read_by(field, self.rel))
    }

    // Adds a scan and works out the fields that it reads. Out of memory, nothing changes.
    pub(crate) fn push(
        &mut self,
        alloc: Global,
        scan: Purpose,
        mut rows: Vec<Row>,
        at: u64,
    ) -> Result<(), NoMemory>
        ensures ok { OnOk result (self.new ≡ with_scan self.old scan rows.items at) }
        ensures err { OnErr result (self.new ≡ self.old) }
    {
        let values = values_read(alloc, self.rel, &scan, rows.as_slice())?;
        self.parts.reserve(1)?;
        let count = rows.len();
        self.rows.append(&mut rows)?;
        self.parts.push_reserved(Part {
            scan,
            at,
            count,
            values,
        });
        Ok(())
    }

    // Gives up all scans, which takes no memory.
    pub(crate) fn clear(&mut self)
        ensures { self.new ≡ unread self.old.rel }
    {
        self.rows.clear();
        self.parts.clear();
    }
}

// The kind of a relation, by its own row, which is read first.
fn kind_in(rows: &[Row]) -> Kind
    ensures { result ≡ kind_by rows.now }
{
    match rows.first() {
        Some(Row::Class { kind, .. }) => *kind,
        _ => Kind::Table,
    }
}
