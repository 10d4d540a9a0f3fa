ghost use Rattle.std.specs.Prelude.{◌≡◌};

use std::marker::{Model, PhantomData};

/// A value that contracts alone see, of any type. Unlike std's `Snapshot` it lets the type that has it go to
/// another thread.
pub struct GhostValue<T> {
    marker: PhantomData<T>,
    pub ghost value: { T },
}

impl<T> Model for GhostValue<T> {
    ghost use Rattle.std.specs.Borrow.{ftrue};

    ghost also_owns = { λ _. ftrue };
}

// It owns nothing, so it may go to another thread.
unsafe impl<T> Send for GhostValue<T> {}

impl<T> Drop for GhostValue<T> {
    fn drop(self) {
        let Self { marker: _ } = self;
    }
}

impl<T> GhostValue<T> {
    /// What a reference shows.
    pub fn of(item: &T) -> GhostValue<T>
        ensures { result.value ≡ item.now }
    {
        let _ = item;
        GhostValue {
            marker: PhantomData,
        }
    }
}
