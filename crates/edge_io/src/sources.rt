ghost use Rattle.std.specs.Prelude.{◌≡◌, ℕ, List, Option};
ghost use Rattle.std.specs.Io.{ReadsAtMost};
ghost use Rattle.std.specs.Io.KnownBytes.{ReadConsumes};
ghost use Rattle.edge_io.specs.Causes.{HasCause};

use crate::Failed;

/// What gives bytes, one piece after the other, until its end.
pub trait Source {
    /// The bytes that it has left, where it tells them.
    ghost left: { Self → Option (List ℕ) };

    /// How many calls have failed; it never falls.
    ghost faults: { Self → ℕ };

    /// Gives the next bytes into the start of `into` and says how many: at most its length, and 0 of
    /// a piece that isn't empty only at the end. `Failed` where the source failed.
    fn read(&mut self, into: &mut [u8]) -> Result<usize, Failed>
        ensures short { ReadsAtMost result into.new }
        ensures bytes { ReadConsumes (left self.old) (left self.new) result into.new }
        ensures cause { HasCause (faults self.old) (faults self.new) result };
}
