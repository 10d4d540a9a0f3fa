ghost use Rattle.std.specs.Prelude.{◌≡◌, ℕ, List, Option};
ghost use Rattle.edge_io.specs.Causes.{HasCause};
ghost use Rattle.edge_io.specs.Taken.{TakesSome, Takes};

use crate::Failed;

/// What takes bytes, one piece after the other.
pub trait Sink {
    /// The bytes that it has taken, where it tells them. One that stops telling never tells again.
    ghost taken: { Self → Option (List ℕ) };

    /// How many calls have failed; it never falls.
    ghost faults: { Self → ℕ };

    /// Takes the first bytes of `from` and says how many: at least one of a piece that isn't empty.
    /// `Failed` where the sink failed; then it took none.
    fn write(&mut self, from: &[u8]) -> Result<usize, Failed>
        ensures short { TakesSome result from.now }
        ensures bytes { Takes (taken self.old) (taken self.new) result from.now }
        ensures cause { HasCause (faults self.old) (faults self.new) result };
}
