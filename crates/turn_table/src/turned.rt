/// A value with a history that only grows, of which each entry is of one seat. Seats are numbered from 1.
pub trait Turned: Drop {
    ghost use Rattle.std.specs.Prelude.{◌≡◌, ◌≢◌, ℕ, List, [], ◌∷◌, ◌++◌, Bool, true};

    type Entry;

    type Fixed;

    /// What never changes.
    ghost fixed: { Self → Self.Fixed };

    /// The entries, oldest first.
    ghost history: { Self → List Self.Entry };

    /// The seat of an entry.
    ghost owner: { Self.Entry → ℕ };

    /// Whether something waits for a seat.
    ghost waiting: { List Self.Entry → ℕ → Bool };

    /// The room that it keeps for a seat, which the turns of other seats leave to it.
    ghost room: { Self → ℕ → ℕ };

    /// Entries of other seats never end a seat's waiting.
    ghost stays: { (history : List Self.Entry) (e : Self.Entry) (seat : ℕ) → owner e ≢ seat → waiting history seat ≡ true → waiting (history ++ e ∷ []) seat ≡ true };
}

/// A value that says itself whether something waits for a seat.
pub trait Tells: Turned {
    ghost use Rattle.std.specs.Prelude.{◌≡◌};

    fn waits_for(&self, seat: u32) -> bool
        ensures { result ≡ Self.Turned.waiting (Self.Turned.history self.now) seat };
}
