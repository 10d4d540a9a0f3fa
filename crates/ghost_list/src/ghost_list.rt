ghost use Rattle.std.specs.Prelude.{◌≡◌, ◌∷◌, ◌++◌, List, []};
ghost use Rattle.std.specs.Coded.{coded_list};

use std::marker::{Model, PhantomData};

/// A list that contracts alone see.
pub struct GhostList<T> {
    marker: PhantomData<T>,
    pub ghost items: { List T } by { coded_list T.code },
}

impl<T> Model for GhostList<T> {
    ghost use Rattle.std.specs.Borrow.{ftrue};

    ghost also_owns = { λ _. ftrue };
}

// It owns nothing, so it may go to another thread.
unsafe impl<T> Send for GhostList<T> {}

impl<T> Drop for GhostList<T> {
    fn drop(self) {
        let Self { marker: _ } = self;
    }
}

impl<T> GhostList<T> {
    /// The empty list.
    pub fn new() -> GhostList<T>
        ensures { result.items ≡ [] }
    {
        GhostList {
            marker: PhantomData,
        }
    }

    // A list and one item more.
    fn after(before: &GhostList<T>, item: &T) -> GhostList<T>
        ensures { result.items ≡ before.now.items ++ item.now ∷ [] }
    {
        let _ = before;
        let _ = item;
        GhostList {
            marker: PhantomData,
        }
    }

    /// Appends an item.
    pub fn push(&mut self, item: &T)
        ensures { self.new.items ≡ self.old.items ++ item.now ∷ [] }
    {
        let after = GhostList::after(self, item);
        *self = after;
    }

    /// Appends items in order.
    pub fn extend(&mut self, items: &[T])
        ensures { self.new.items ≡ self.old.items ++ items.now }
    {
        for item in items {
            self.push(item);
        }
    }
}
