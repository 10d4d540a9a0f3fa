ghost use Rattle.std.specs.Prelude.{◌≡◌, ℕ, false, true, [], OnOk, OnErr};
ghost use Rattle.catalog_rows.specs.Places.{is_under};
ghost use Rattle.catalog_rows.specs.Index.{ends_at, is_listed, listed_at, AddsBoth, AreSame, IsBelow, IsCurrent, IsInOrder, IsNumbered, IsOnly, RemovesBoth, Serves};
ghost use Rattle.catalog_rows.specs.Slots.{IsIn};

use crate::index::Index;
use crate::place::Place;
use crate::writing::ended_key;
use base_types::{Change, NoMemory, Row};
use row_visibility::Version;
use std::alloc::Global;

// The numbers of the versions at each place.
#[derive(Drop)]
pub(crate) struct Indexes {
    // of all but those that an undo took back
    pub all: Index,
    // without those that committed transactions wrote and ended, as far as commits took them out
    pub current: Index,
    // an undo took back what was committed, so that the first index is asked from then on
    pub whole: bool,
}

impl Indexes {
    // No numbers, which takes no memory.
    pub(crate) fn new(alloc: Global) -> Indexes
        ensures all { (place : _) → listed_at result.all place ≡ [] }
        ensures current { (place : _) → listed_at result.current place ≡ [] }
    {
        Indexes {
            all: Index::new(alloc),
            current: Index::new(alloc),
            whole: false,
        }
    }

    // The numbers of the versions at a place that somebody may see yet, and perhaps of others.
    pub(crate) fn at(&self, place: Place) -> &[u64]
        ensures { (committed : _) (slots : _) → IsNumbered slots self.now.all → IsOnly self.now → IsCurrent committed slots self.now → Serves committed slots place result.now }
    {
        if self.whole {
            self.all.at(place)
        } else {
            self.current.at(place)
        }
    }

    // The numbers of the versions that a change may end.
    pub(crate) fn ends(&self, change: &Change) -> &[u64]
        ensures { (committed : _) (slots : _) (stamp : _) → IsNumbered slots self.now.all → IsOnly self.now → IsCurrent committed slots self.now → (n : ℕ) → ends_at committed stamp change.now slots n ≡ true → IsIn n result.now }
    {
        match ended_key(change) {
            Some(key) => self.at(Place::of_key(&key)),
            None => &[],
        }
    }

    // Adds a number, above all others, at each place of a row; out of memory, nothing changes.
    pub(crate) fn add_row(&mut self, row: &Row, number: u64) -> Result<(), NoMemory>
        requires all { IsBelow number self.old.all }
        requires current { IsBelow number self.old.current }
        ensures ok { OnOk result (AddsBoth (λ place. is_under place row.now) number self.old self.new) }
        ensures err { OnErr result (AreSame self.old self.new) }
    {
        self.all.add_row(row, number)?;
        match self.current.add_row(row, number) {
            Ok(()) => Ok(()),
            Err(error) => {
                self.all.remove_row(row, number);
                Err(error)
            }
        }
    }

    // Takes a number out at each place of a version, if there is one.
    pub(crate) fn remove_version(&mut self, version: Option<Version>, number: u64)
        requires all { IsInOrder self.old.all }
        requires current { IsInOrder self.old.current }
        ensures { RemovesBoth (is_listed version) number self.old self.new }
    {
        if let Some(version) = version {
            self.all.remove_row(&version.row, number);
            self.current.remove_row(&version.row, number);
        }
    }
}
