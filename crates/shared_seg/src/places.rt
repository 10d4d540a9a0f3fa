ghost use Rattle.std.specs.Prelude.{◌≡◌, ◌++◌, ◌∷◌, [], ◌+◌, ◌-◌, ◌<◌, ◌≤◌, ◌^◌, sum, length, replicate, slice_set, vec_len, vec_capacity, max, IfOk, OnOk, OnErr};

use base_types::NoMemory;
use event_kinds::Entry;
use std::alloc::Global;
use std::marker::Model;

// The most entries and promised places.
const MOST: usize = 1 << 56;

// The history, and the places in it that are promised to backends.
#[derive(Drop)]
pub(crate) struct Places {
    entries: Vec<Entry>,
    // by backend
    promised: Vec<u32>,
    total: usize,
}

impl Model for Places {
    ghost use Rattle.shared_seg.specs.Places.{Placed};

    ghost Value = { Placed };

    ghost use Rattle.shared_seg.specs.KeepsPlaces.{placed, KeepsPlaces};

    ghost view = { placed };

    ghost invariant = { KeepsPlaces };
}

impl Places {
    ghost use Rattle.shared_seg.specs.Places.{places_of, SamePlaces};

    // An empty history, and no promises to so many backends.
    pub(crate) fn new(alloc: Global, backends: u32) -> Result<Places, NoMemory>
        ensures { IfOk result (λ places. (places.entries ≡ []) × (places.promised ≡ replicate (backends + 1) 0)) }
    {
        let mut promised = Vec::new(alloc);
        promised.reserve(backends as usize + 1)?;
        add_none(&mut promised, backends as usize + 1);
        Ok(Places {
            entries: Vec::new(alloc),
            promised,
            total: 0,
        })
    }

    pub(crate) fn entries(&self) -> &[Entry]
        ensures { result.now ≡ self.now.entries }
    {
        self.entries.as_slice()
    }

    pub(crate) fn into_entries(self) -> Vec<Entry>
        ensures { result.items ≡ self.entries }
    {
        let Places {
            entries,
            promised: _,
            total: _,
        } = self;
        entries
    }

    // How many entries there are.
    pub(crate) fn len(&self) -> usize
        ensures value { result ≡ length self.now.entries }
        ensures short { length self.now.entries + sum self.now.promised ≤ 2 ^ 56 }
    {
        self.entries.len()
    }

    // How many places are promised to a backend.
    pub(crate) fn promised(&self, b: u32) -> u32
        ensures { result ≡ places_of self.now b }
    {
        self.promised.get(b as usize).copied().unwrap_or(0)
    }

    // Promises a backend so many places, if it has fewer.
    pub(crate) fn promise(&mut self, b: u32, n: u32) -> Result<(), NoMemory>
        requires { b < length self.old.promised }
        ensures entries { self.new.entries ≡ self.old.entries }
        ensures ok { OnOk result (self.new.promised ≡ slice_set self.old.promised b (max (places_of self.old b) n)) }
        ensures err { OnErr result (self.new.promised ≡ self.old.promised) }
        ensures more { OnErr result (places_of self.old b < n) }
        ensures short { length self.new.entries + sum self.new.promised ≤ 2 ^ 56 }
    {
        let Places {
            entries,
            promised,
            total,
        } = self;
        let had = promised[b as usize];
        if n <= had {
            return Ok(());
        }
        let more = (n - had) as usize;
        if MOST - entries.len() - *total < more {
            return Err(NoMemory);
        }
        entries.reserve(*total + more)?;
        promised[b as usize] = n;
        *total += more;
        Ok(())
    }

    // Appends an entry, which takes a promised place of its backend.
    pub(crate) fn append(&mut self, entry: Entry)
        requires within { entry.backend < length self.old.promised }
        requires place { 0 < places_of self.old entry.backend }
        ensures entries { self.new.entries ≡ self.old.entries ++ entry ∷ [] }
        ensures promised { self.new.promised ≡ slice_set self.old.promised entry.backend (places_of self.old entry.backend - 1) }
        ensures short { length self.new.entries + sum self.new.promised ≤ 2 ^ 56 }
    {
        let Places {
            entries,
            promised,
            total,
        } = self;
        let had = promised[entry.backend as usize];
        promised[entry.backend as usize] = had - 1;
        *total -= 1;
        entries.push_reserved(entry);
    }

    // Appends an entry that takes no promised place.
    pub(crate) fn add(&mut self, entry: Entry) -> Result<(), NoMemory>
        ensures ok { OnOk result (self.new.entries ≡ self.old.entries ++ entry ∷ []) }
        ensures promised { self.new.promised ≡ self.old.promised }
        ensures err { OnErr result (self.new.entries ≡ self.old.entries) }
        ensures short { length self.new.entries + sum self.new.promised ≤ 2 ^ 56 }
    {
        self.make_room()?;
        self.push(entry);
        Ok(())
    }

    // Makes room for an entry that takes no promised place.
    pub(crate) fn make_room(&mut self) -> Result<(), NoMemory>
        ensures same { SamePlaces self.old self.new }
        ensures ok { OnOk result (0 < self.new.room) }
        ensures short { length self.new.entries + sum self.new.promised ≤ 2 ^ 56 }
    {
        let Places {
            entries,
            promised: _,
            total,
        } = self;
        if MOST - entries.len() - *total < 1 {
            return Err(NoMemory);
        }
        entries.reserve(*total + 1)?;
        Ok(())
    }

    // Appends an entry, for which there is room.
    pub(crate) fn push(&mut self, entry: Entry)
        requires { 0 < self.old.room }
        ensures entries { self.new.entries ≡ self.old.entries ++ entry ∷ [] }
        ensures promised { self.new.promised ≡ self.old.promised }
        ensures short { length self.new.entries + sum self.new.promised ≤ 2 ^ 56 }
    {
        self.entries.push_reserved(entry);
    }
}

// Adds so many places for numbers, for which there is room.
fn add_none(promised: &mut Vec<u32>, count: usize)
    requires { vec_len promised.old + count ≤ vec_capacity promised.old }
    ensures { promised.new.items ≡ promised.old.items ++ replicate count 0 }
{
    for place in 0..count {
        promised.push_reserved(0);
    }
}
