ghost use Rattle.std.specs.Prelude.{◌≡◌, ◌≤◌, length};
ghost use Rattle.base_types.specs.Words.{valid_word as word_of_valid, live_word as word_of_live, on_word as word_of_on};

/// The letter of a constraint that is known to hold, or isn't.
pub fn valid_word(valid: bool) -> &'static [u8]
    ensures text { result.now ≡ word_of_valid valid }
    ensures short { length result.now ≤ 1 }
{
    if valid { b"v" } else { b"n" }
}

/// The letter of a live column, or of a dropped one.
pub fn live_word(live: bool) -> &'static [u8]
    ensures text { result.now ≡ word_of_live live }
    ensures short { length result.now ≤ 1 }
{
    if live { b"l" } else { b"d" }
}

/// The letter of a trigger that is enabled, or isn't.
pub fn on_word(on: bool) -> &'static [u8]
    ensures text { result.now ≡ word_of_on on }
    ensures short { length result.now ≤ 1 }
{
    if on { b"e" } else { b"d" }
}
