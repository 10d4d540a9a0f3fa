ghost use Rattle.std.specs.Prelude.{◌≡◌, [], OnOk, OnErr};
ghost use Rattle.catalog_rows.specs.Places.{same_place, is_place, is_under};
ghost use Rattle.catalog_rows.specs.Index.{listed_at, AddsWhere, AddsOrNot, RemovesWhere, IsBelow, IsInOrder, IsSame};

use crate::numbers::Numbers;
use crate::place::Place;
use base_types::{NoMemory, Row};
use std::alloc::Global;
use std::collections::HashMap;

// For each place the numbers of the versions whose rows are listed there, ascending.
#[derive(Drop)]
pub(crate) struct Index {
    alloc: Global,
    lists: HashMap<Place, Numbers>,
}

impl Index {
    // No numbers, which takes no memory.
    pub(crate) fn new(alloc: Global) -> Index
        ensures { (place : _) → listed_at result place ≡ [] }
    {
        Index {
            alloc,
            lists: HashMap::new(alloc),
        }
    }

    // The numbers at a place.
    pub(crate) fn at(&self, place: Place) -> &[u64]
        ensures { result.now ≡ listed_at self.now place }
    {
        match self.lists.get(&place) {
            Some(numbers) => numbers.as_slice(),
            None => &[],
        }
    }

    // Adds a number, above all others, at each place of a row; out of memory, nothing changes.
    pub(crate) fn add_row(&mut self, row: &Row, number: u64) -> Result<(), NoMemory>
        requires { IsBelow number self.old }
        ensures ok { OnOk result (AddsWhere (λ place. is_under place row.now) number self.old self.new) }
        ensures err { OnErr result (IsSame self.old self.new) }
    {
        match self.add_each(row, number) {
            Ok(()) => Ok(()),
            Err(error) => {
                self.remove_row(row, number);
                Err(error)
            }
        }
    }

    // Takes a number out at each place of a row.
    pub(crate) fn remove_row(&mut self, row: &Row, number: u64)
        requires { IsInOrder self.old }
        ensures { RemovesWhere (λ place. is_under place row.now) number self.old self.new }
    {
        self.remove(Some(Place::of_key(&row.key())), number);
        self.remove(Place::of_owner(row), number);
        self.remove(Place::of_other(row), number);
    }

    // Adds a number at each place of a row; out of memory, it may be added at some of them.
    fn add_each(&mut self, row: &Row, number: u64) -> Result<(), NoMemory>
        ensures some { AddsOrNot (λ place. is_under place row.now) number self.old self.new }
        ensures ok { OnOk result (AddsWhere (λ place. is_under place row.now) number self.old self.new) }
    {
        self.add(Some(Place::of_key(&row.key())), number)?;
        self.add(Place::of_owner(row), number)?;
        self.add(Place::of_other(row), number)
    }

    // Adds a number at a place, if there is one; out of memory, nothing changes.
    fn add(&mut self, place: Option<Place>, number: u64) -> Result<(), NoMemory>
        ensures ok { OnOk result (AddsWhere (is_place place) number self.old self.new) }
        ensures err { OnErr result (IsSame self.old self.new) }
    {
        match place {
            Some(place) => self.add_at(place, number),
            None => Ok(()),
        }
    }

    // Adds a number at a place; out of memory, nothing changes.
    fn add_at(&mut self, place: Place, number: u64) -> Result<(), NoMemory>
        ensures ok { OnOk result (AddsWhere (same_place place) number self.old self.new) }
        ensures err { OnErr result (IsSame self.old self.new) }
    {
        if let Some(numbers) = self.lists.get_mut(&place) {
            return match numbers.push(number) {
                Ok(()) => Ok(()),
                Err(error) => Err(error),
            };
        }
        let mut numbers = Numbers::new(self.alloc);
        numbers.push(number)?;
        self.lists.insert(place, numbers)?;
        Ok(())
    }

    // Takes a number out at a place, if there is one.
    fn remove(&mut self, place: Option<Place>, number: u64)
        requires { IsInOrder self.old }
        ensures { RemovesWhere (is_place place) number self.old self.new }
    {
        if let Some(place) = place {
            self.remove_at(place, number);
        }
    }

    // Takes a number out at a place.
    fn remove_at(&mut self, place: Place, number: u64)
        requires { IsInOrder self.old }
        ensures { RemovesWhere (same_place place) number self.old self.new }
    {
        if let Some(numbers) = self.lists.get_mut(&place) {
            numbers.remove(number);
        }
    }
}
