ghost use Rattle.std.specs.Prelude.{◌≡◌};

use std::marker::Model;

/// The text of an answer line, without a line's end.
#[derive(Drop)]
pub struct LineText {
    bytes: Vec<u8>,
}

impl Model for LineText {
    ghost use Rattle.std.specs.Prelude.{List, ℕ};
    ghost use Rattle.base_types.specs.Names.{IsInLine};

    ghost Value = { List ℕ };

    ghost view = { λ text. text.bytes.items };

    ghost invariant = { λ text. IsInLine text.bytes.items };
}

impl LineText {
    ghost use Rattle.base_types.specs.Names.{IsInLine};

    /// The text of these bytes. Condition: none of them ends a line.
    pub fn new(bytes: Vec<u8>) -> LineText
        requires { IsInLine bytes.items }
        ensures { result ≡ bytes.items }
    {
        LineText { bytes }
    }

    /// The bytes of the text.
    pub fn as_bytes(&self) -> &[u8]
        ensures text { result.now ≡ self.now }
        ensures in_line { IsInLine self.now }
    {
        self.bytes.as_slice()
    }
}
