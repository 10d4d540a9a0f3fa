ghost use Rattle.std.specs.Prelude.{◌≡◌, ◌≤◌, length};
ghost use Rattle.base_types.specs.Padded.{filled as with_filler};

use crate::Mode;
use crate::lock_modes::is_among;
use std::marker::Model;

/// A set of lock modes, kept in place: contracts see its modes in rising order.
#[derive(Clone, Copy)]
pub struct ModeSet {
    len: usize,
    modes: [Mode; 8],
}

impl Model for ModeSet {
    ghost use Rattle.std.specs.Prelude.{List, ℕ, length, take};
    ghost use Rattle.base_types.specs.Padded.{IsFilled, filled, filled_again};
    ghost use Rattle.base_types.specs.Types.{Mode, AccessShare};

    ghost Value = { List Mode };

    ghost view = { λ s. take s.len s.modes };

    ghost invariant = { λ s. IsFilled AccessShare 8 s.len s.modes };

    ghost inverse = { λ modes. record { len = length modes; modes = filled AccessShare 8 modes } };

    ghost inverse_ok = { λ s kept. filled_again (λ n xs. record { len = n; modes = xs }) AccessShare 8 s.len s.modes kept };
}

impl ModeSet {
    ghost use Rattle.std.specs.Prelude.{◌≡◌, ◌≤◌, length};
    ghost use Rattle.std.specs.List.{list_any};
    ghost use Rattle.base_types.specs.Modes.{same_mode};

    // The set of these modes, which are in rising order.
    pub(crate) fn new(modes: &[Mode]) -> ModeSet
        requires { length modes.now ≤ 8 }
        ensures { result ≡ modes.now }
    {
        ModeSet {
            len: modes.len(),
            modes: filled(modes),
        }
    }

    /// Whether the mode is in the set.
    pub fn has(&self, mode: Mode) -> bool
        ensures { result ≡ list_any (same_mode mode) self.now }
    {
        is_among(mode, self.as_slice())
    }

    /// The modes in rising order, at most eight.
    pub fn as_slice(&self) -> &[Mode]
        ensures modes { result.now ≡ self.now }
        ensures short { length self.now ≤ 8 }
    {
        &self.modes[..self.len]
    }
}

// The modes in an array, with the weakest mode after them.
fn filled(modes: &[Mode]) -> [Mode; 8]
    requires { length modes.now ≤ 8 }
    ensures { result ≡ with_filler Mode.AccessShare 8 modes.now }
{
    let mut array = [Mode::AccessShare; 8];
    array[..modes.len()].copy_from_slice(modes);
    array
}
