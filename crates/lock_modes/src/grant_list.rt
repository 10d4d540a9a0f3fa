ghost use Rattle.std.specs.Prelude.{◌≡◌, ◌≤◌, ◌<◌, ◌+◌, ◌++◌, ◌∷◌, ◌↔◌, [], filter, OnOk, IsTrue};
ghost use Rattle.lock_modes.specs.Changes.{is_kept};

use crate::Grant;
use crate::change::Released;
use base_types::NoMemory;
use std::alloc::Global;
use std::marker::Model;

// Grants in the order in which they were given, with room for more.
#[derive(Drop)]
pub(crate) struct GrantList {
    items: Vec<Grant>,
}

impl Model for GrantList {
    ghost use Rattle.std.specs.Prelude.{◌-◌, vec_len, vec_capacity};
    ghost use Rattle.lock_modes.specs.declared.grant.Grant.{Grant};
    ghost use Rattle.lock_modes.specs.Rooms.{Roomy};

    ghost Value = { Roomy Grant };

    ghost view = { λ list. record { items = list.items.items; room = vec_capacity list.items - vec_len list.items } };
}

impl GrantList {
    // No grants, which takes no memory.
    pub(crate) fn new(alloc: Global) -> GrantList
        ensures { result.items ≡ [] }
    {
        GrantList {
            items: Vec::new(alloc),
        }
    }

    // The grants in order.
    pub(crate) fn as_slice(&self) -> &[Grant]
        ensures { result.now ≡ self.now.items }
    {
        &self.items
    }

    // Whether there are none.
    pub(crate) fn is_empty(&self) -> bool
        ensures { IsTrue result ↔ (self.now.items ≡ []) }
    {
        self.items.is_empty()
    }

    // Makes room for so many more.
    pub(crate) fn reserve(&mut self, count: usize) -> Result<(), NoMemory>
        ensures same { self.new.items ≡ self.old.items }
        ensures more { self.old.room ≤ self.new.room }
        ensures ok { OnOk result (count ≤ self.new.room) }
    {
        self.items.reserve(count)?;
        Ok(())
    }

    // Adds a grant, for which there is room.
    pub(crate) fn push(&mut self, grant: Grant)
        requires { 0 < self.old.room }
        ensures items { self.new.items ≡ self.old.items ++ grant ∷ [] }
        ensures room { self.old.room ≤ self.new.room + 1 }
    {
        self.items.push_reserved(grant);
    }

    // Takes out what is released.
    pub(crate) fn take_out(&mut self, released: &Released)
        ensures { self.new.items ≡ filter (is_kept released.now) self.old.items }
    {
        self.items.retain(|grant| !released.includes(grant));
    }
}
