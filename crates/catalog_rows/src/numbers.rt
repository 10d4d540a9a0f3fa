ghost use Rattle.std.specs.Prelude.{◌≡◌, ◌≢◌, ◌++◌, ◌∷◌, ◌-◌, [], true, false, Some, length, slice_get, OnOk, OnErr};
ghost use Rattle.catalog_rows.specs.Numbers.{IsAscending, removed};

use base_types::NoMemory;
use smallvec::SmallVec;
use std::alloc::Global;
use std::marker::Model;

// Numbers of versions, ascending. At most places there are one or two, which take no memory of their own.
#[derive(Drop)]
pub(crate) struct Numbers {
    items: SmallVec<u64, 2>,
}

impl Model for Numbers {
    ghost use Rattle.std.specs.Prelude.{List, ℕ};

    ghost Value = { List ℕ };

    ghost view = { λ numbers. numbers.items.items };
}

impl Numbers {
    // No numbers, which takes no memory.
    pub(crate) fn new(alloc: Global) -> Numbers
        ensures { result ≡ [] }
    {
        Numbers {
            items: SmallVec::new(alloc),
        }
    }

    pub(crate) fn as_slice(&self) -> &[u64]
        ensures { result.now ≡ self.now }
    {
        self.items.as_slice()
    }

    // Adds a number at the end; out of memory, nothing changes.
    pub(crate) fn push(&mut self, number: u64) -> Result<(), NoMemory>
        ensures ok { OnOk result (self.new ≡ self.old ++ number ∷ []) }
        ensures err { OnErr result (self.new ≡ self.old) }
    {
        self.items.push(number)?;
        Ok(())
    }

    // Takes a number out, if it is there.
    pub(crate) fn remove(&mut self, number: u64)
        requires { IsAscending self.old }
        ensures { self.new ≡ removed true number self.old }
    {
        if self.is_last(number) {
            self.items.pop();
        } else {
            self.items.retain(|other| *other != number);
        }
    }

    // Whether the number is the last one.
    fn is_last(&self, number: u64) -> bool
        ensures yes { result ≡ true → slice_get self.now (length self.now - 1) ≡ Some number }
        ensures no { result ≡ false → slice_get self.now (length self.now - 1) ≢ Some number }
    {
        match self.items.as_slice().last() {
            Some(last) => *last == number,
            None => false,
        }
    }
}
