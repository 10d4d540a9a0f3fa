ghost use Rattle.std.specs.Prelude.{◌≡◌, slice_get};
ghost use Rattle.base_types.specs.Scans.{build_scans};

use crate::Descriptor;
use crate::kept_scans::KeptScans;
use base_types::{Kind, NoMemory, Oid, Purpose, Row, table_scans};
use std::alloc::Global;
use std::marker::Model;

/// A descriptor that is being built, scan by scan (`RelationBuildDesc` in
/// `src/backend/utils/cache/relcache.c`).
#[derive(Drop)]
pub struct DescBuild {
    alloc: Global,
    scans: KeptScans,
}

impl Model for DescBuild {
    ghost use Rattle.rel_desc.specs.Descriptors.{Described, IsBegun};

    ghost Value = { Described };

    ghost view = { λ b. b.scans };

    ghost invariant = { λ b. IsBegun b.scans };
}

impl DescBuild {
    ghost use Rattle.std.specs.Prelude.{◌↔◌, None, IsSomeAnd, OnOk, OnErr};
    ghost use Rattle.rel_desc.specs.Descriptors.{unread, wanted, taken, IsGiven, IsBegun, IsBuilt};

    /// A build for which nothing was read. It takes no memory.
    pub fn new(alloc: Global, rel: Oid) -> DescBuild
        ensures { result ≡ unread rel }
    {
        DescBuild {
            alloc,
            scans: KeptScans::new(alloc, rel),
        }
    }

    /// The relation.
    pub fn rel(&self) -> Oid
        ensures rel { result ≡ self.now.rel }
        ensures begun { IsBegun self.now }
    {
        self.scans.rel()
    }

    /// The scan that comes next: first the relation's own row (`ScanPgRelation`), then those of its kind,
    /// as for a table its columns (`RelationBuildTupleDesc`) and so on, all in
    /// `src/backend/utils/cache/relcache.c`. None where all were made.
    pub fn wants(&self) -> Option<Purpose>
        ensures scan { result ≡ wanted self.now }
        ensures all { (result ≡ None) ↔ IsBuilt self.now }
    {
        build_scan(self.scans.kind(), self.scans.rel(), self.scans.count())
    }

    /// Takes what the wanted scan gave in the entry of this number, from 1, and works out the fields that
    /// it reads. Conditions: it wants a scan, which asks for each of the rows, and the relation's own row is
    /// one. Out of memory, nothing changes.
    pub fn take(&mut self, rows: Vec<Row>, at: u64) -> Result<(), NoMemory>
        requires { IsSomeAnd (wanted self.old) (λ scan. IsGiven scan rows.items) }
        ensures ok { OnOk result (self.new ≡ taken self.old rows.items at) }
        ensures err { OnErr result (self.new ≡ self.old) }
    {
        match self.wants() {
            Some(scan) => self.scans.push(self.alloc, scan, rows, at),
            None => unreachable!(),
        }
    }

    /// Starts over, as a build does that a message marked meanwhile (`in_progress_list` in
    /// `src/backend/utils/cache/relcache.c`). It takes no memory.
    pub fn restart(&mut self)
        ensures { self.new ≡ unread self.old.rel }
    {
        self.scans.clear();
    }

    /// The descriptor. Condition: it wants no scan. It takes no memory.
    pub fn done(self) -> Descriptor
        requires { wanted self ≡ None }
        ensures { result ≡ self }
    {
        Descriptor::new(self.scans)
    }
}

// The scan of this number, from 0, for a descriptor of this kind.
fn build_scan(kind: Kind, rel: Oid, number: usize) -> Option<Purpose>
    ensures { result ≡ slice_get (build_scans kind rel) number }
{
    match kind {
        Kind::Table => table_scans(rel).get(number).copied(),
        Kind::Index => [Purpose::Class(rel), Purpose::IndexRow(rel)]
            .get(number)
            .copied(),
    }
}
