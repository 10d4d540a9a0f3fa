ghost use Rattle.std.specs.Prelude.{◌≡◌, ◌==◌, ℕ, false, if◌then◌else◌, OnOk};

use crate::own::Own;
use base_types::NoMemory;
use indexmap::IndexMap;
use std::alloc::Global;

// What the history so far leaves of each backend that has an entry.
#[derive(Drop)]
pub(crate) struct Backends {
    alloc: Global,
    map: IndexMap<u32, Own>,
}

impl Backends {
    ghost use Rattle.history_model.specs.Segment.{no_standing};
    ghost use Rattle.history_ledger.specs.Held.{standing_of};
    ghost use Rattle.history_ledger.specs.Held.{standing_at};

    // No entries.
    pub(crate) fn new(alloc: Global) -> Backends
        ensures { (b : ℕ) → standing_at result b ≡ no_standing }
    {
        Backends {
            alloc,
            map: IndexMap::new(alloc),
        }
    }

    // What is held of a backend, or of one without entries.
    pub(crate) fn get<'a>(&'a self, b: u32, none: &'a Own) -> &'a Own
        requires { standing_of none.now ≡ no_standing }
        ensures { standing_of result.now ≡ standing_at self.now b }
    {
        match self.map.get(&b) {
            Some(own) => own,
            None => none,
        }
    }

    // Takes out what is held of a backend.
    pub(crate) fn take(&mut self, b: u32) -> Own
        ensures own { standing_of result ≡ standing_at self.old b }
        ensures others { (other : ℕ) → (b == other) ≡ false → standing_at self.new other ≡ standing_at self.old other }
    {
        match self.map.swap_remove(&b) {
            Some(own) => own,
            None => Own::new(self.alloc),
        }
    }

    // Puts in what is held of a backend.
    pub(crate) fn put(&mut self, b: u32, own: Own) -> Result<(), NoMemory>
        ensures { OnOk result ((other : ℕ) → standing_at self.new other ≡ (if b == other then standing_of own else standing_at self.old other)) }
    {
        self.map.insert(b, own)?;
        Ok(())
    }
}
