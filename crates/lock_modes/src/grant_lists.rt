ghost use Rattle.std.specs.Prelude.{◌≡◌, ◌≤◌, ◌<◌, ◌+◌, ◌++◌, ◌∷◌, ◌==◌, ℕ, [], None, nat_eq, cond, filter, OnOk};
ghost use Rattle.indexmap.specs.IndexMap.{get};
ghost use Rattle.lock_modes.specs.Changes.{is_kept};
ghost use Rattle.lock_modes.specs.GrantLists.{grants_at, room_at};

use crate::Grant;
use crate::change::Released;
use crate::grant_list::GrantList;
use base_types::NoMemory;
use indexmap::IndexMap;
use std::alloc::Global;

// Lists of grants by number.
#[derive(Drop)]
pub(crate) struct GrantLists {
    alloc: Global,
    lists: IndexMap<u32, GrantList>,
}

impl GrantLists {
    // Empty lists, which take no memory.
    pub(crate) fn new(alloc: Global) -> GrantLists
        ensures { (key : ℕ) → grants_at result key ≡ [] }
    {
        GrantLists {
            alloc,
            lists: IndexMap::new(alloc),
        }
    }

    // The grants of a number, in order.
    pub(crate) fn get(&self, key: u32) -> &[Grant]
        ensures { result.now ≡ grants_at self.now key }
    {
        match self.lists.get(&key) {
            Some(list) => list.as_slice(),
            None => &[],
        }
    }

    // Makes room for so many more grants of a number.
    pub(crate) fn reserve(&mut self, key: u32, count: usize) -> Result<(), NoMemory>
        ensures same { (other : ℕ) → grants_at self.new other ≡ grants_at self.old other }
        ensures more { (other : ℕ) → room_at self.old other ≤ room_at self.new other }
        ensures ok { OnOk result (count ≤ room_at self.new key) }
    {
        if let Some(list) = self.lists.get_mut(&key) {
            return match list.reserve(count) {
                Ok(()) => Ok(()),
                Err(error) => Err(error),
            };
        }
        self.begin(key, count)
    }

    // Begins the list of a number that has none, with room for so many grants.
    fn begin(&mut self, key: u32, count: usize) -> Result<(), NoMemory>
        requires { get nat_eq self.old.lists key ≡ None }
        ensures same { (other : ℕ) → grants_at self.new other ≡ grants_at self.old other }
        ensures more { (other : ℕ) → room_at self.old other ≤ room_at self.new other }
        ensures ok { OnOk result (count ≤ room_at self.new key) }
    {
        let mut list = GrantList::new(self.alloc);
        let Ok(()) = list.reserve(count) else {
            return Err(NoMemory);
        };
        let Ok(_) = self.lists.insert(key, list) else {
            return Err(NoMemory);
        };
        Ok(())
    }

    // Adds a grant of a number, for which there is room.
    pub(crate) fn push(&mut self, key: u32, grant: Grant)
        requires { 0 < room_at self.old key }
        ensures grants { (other : ℕ) → grants_at self.new other ≡ grants_at self.old other ++ cond (key == other) (grant ∷ []) [] }
        ensures room { (other : ℕ) → room_at self.old other ≤ room_at self.new other + 1 }
    {
        if let Some(list) = self.lists.get_mut(&key) {
            list.push(grant);
        }
    }

    // Takes out what is released of a number.
    pub(crate) fn take_out(&mut self, key: u32, released: &Released)
        ensures { (other : ℕ) → grants_at self.new other ≡ cond (key == other) (filter (is_kept released.now) (grants_at self.old other)) (grants_at self.old other) }
    {
        if let Some(list) = self.lists.get_mut(&key) {
            list.take_out(released);
        }
    }

    // Forgets the list of a number, and its room, if it is empty.
    pub(crate) fn trim(&mut self, key: u32)
        ensures same { (other : ℕ) → grants_at self.new other ≡ grants_at self.old other }
        ensures forgets { grants_at self.old key ≡ [] → get nat_eq self.new.lists key ≡ None }
    {
        if self.get(key).is_empty() {
            self.lists.swap_remove(&key);
        }
    }
}
