ghost use Rattle.std.specs.Prelude.{◌≡◌, ◌≤◌, length};
ghost use Rattle.base_types.specs.Padded.{padded as with_zeros};

use std::marker::Model;

/// The longest text of a name, a word or a check (`NAMEDATALEN` less its end).
pub const LONGEST_TEXT: usize = 63;

/// A text of at most 63 bytes, kept in place, so that it is `Copy` and takes no memory.
#[derive(Clone, Copy)]
pub struct ShortText {
    len: usize,
    bytes: [u8; LONGEST_TEXT],
}

impl Model for ShortText {
    ghost use Rattle.std.specs.Prelude.{List, ℕ, length, take};
    ghost use Rattle.base_types.specs.Padded.{IsPadded, padded, made_again};
    ghost use Rattle.base_types.specs.declared.short_text.TheConstants.{LONGEST_TEXT};

    ghost Value = { List ℕ };

    ghost view = { λ t. take t.len t.bytes };

    ghost invariant = { λ t. IsPadded LONGEST_TEXT t.len t.bytes };

    ghost inverse = { λ text. record { len = length text; bytes = padded LONGEST_TEXT text } };

    ghost inverse_ok = { λ t kept. made_again (λ n xs. record { len = n; bytes = xs }) LONGEST_TEXT t.len t.bytes kept };
}

impl ShortText {
    /// The text of these bytes. Condition: at most 63.
    pub fn new(text: &[u8]) -> ShortText
        requires { length text.now ≤ LONGEST_TEXT }
        ensures { result ≡ text.now }
    {
        ShortText {
            len: text.len(),
            bytes: padded(text),
        }
    }

    /// The bytes of the text, at most 63.
    pub fn as_bytes(&self) -> &[u8]
        ensures text { result.now ≡ self.now }
        ensures short { length self.now ≤ LONGEST_TEXT }
    {
        &self.bytes[..self.len]
    }
}

// The text in an array, with zeros after it.
fn padded(text: &[u8]) -> [u8; LONGEST_TEXT]
    requires { length text.now ≤ LONGEST_TEXT }
    ensures { result ≡ with_zeros LONGEST_TEXT text.now }
{
    let mut bytes = [0; LONGEST_TEXT];
    bytes[..text.len()].copy_from_slice(text);
    bytes
}
