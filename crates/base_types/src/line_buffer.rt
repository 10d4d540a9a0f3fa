ghost use Rattle.std.specs.Prelude.{◌≡◌, ◌≤◌, ◌+◌, ◌++◌, length, [], decimal};
ghost use Rattle.std.specs.Fmt.{signed_decimal};

use itoa::Buffer;
use std::marker::Model;

/// The most bytes of a line.
pub const LINE_ROOM: usize = 512;

/// A line of text that is being built, of at most 512 bytes. It allocates nothing.
#[derive(Drop)]
pub struct LineBuffer {
    bytes: [u8; LINE_ROOM],
    len: usize,
}

impl Model for LineBuffer {
    ghost use Rattle.std.specs.Prelude.{List, ℕ, ◌≤◌, take};
    ghost use Rattle.base_types.specs.declared.line_buffer.TheConstants.{LINE_ROOM};

    ghost Value = { List ℕ };

    ghost view = { λ line. take line.len line.bytes };

    ghost invariant = { λ line. line.len ≤ LINE_ROOM };
}

impl LineBuffer {
    /// The empty line.
    pub fn new() -> LineBuffer
        ensures { result ≡ [] }
    {
        LineBuffer {
            bytes: [0; LINE_ROOM],
            len: 0,
        }
    }

    /// Adds a text at the end. Condition: there is room.
    pub fn push(&mut self, text: &[u8])
        requires { length self.old + length text.now ≤ LINE_ROOM }
        ensures text { self.new ≡ self.old ++ text.now }
        ensures short { length self.new ≤ length self.old + length text.now }
    {
        let end = self.len + text.len();
        self.bytes[self.len..end].copy_from_slice(text);
        self.len = end;
    }

    /// Adds a number in decimal. Condition: there is room for ten digits.
    pub fn push_number(&mut self, number: u32)
        requires { length self.old + 10 ≤ LINE_ROOM }
        ensures text { self.new ≡ self.old ++ decimal number }
        ensures short { length self.new ≤ length self.old + 10 }
    {
        let mut buffer = Buffer::new();
        self.push(buffer.format(number).as_bytes());
    }

    /// Adds a number that may be below 0 in decimal. Condition: there is room for eleven bytes.
    pub fn push_signed(&mut self, number: i32)
        requires { length self.old + 11 ≤ LINE_ROOM }
        ensures text { self.new ≡ self.old ++ signed_decimal number }
        ensures short { length self.new ≤ length self.old + 11 }
    {
        let mut buffer = Buffer::new();
        self.push(buffer.format(number).as_bytes());
    }

    /// Adds a long number that may be below 0 in decimal. Condition: there is room for twenty bytes.
    pub fn push_i64(&mut self, number: i64)
        requires { length self.old + 20 ≤ LINE_ROOM }
        ensures text { self.new ≡ self.old ++ signed_decimal number }
        ensures short { length self.new ≤ length self.old + 20 }
    {
        let mut buffer = Buffer::new();
        self.push(buffer.format(number).as_bytes());
    }

    /// Adds a long number in decimal. Condition: there is room for twenty digits.
    pub fn push_u64(&mut self, number: u64)
        requires { length self.old + 20 ≤ LINE_ROOM }
        ensures text { self.new ≡ self.old ++ decimal number }
        ensures short { length self.new ≤ length self.old + 20 }
    {
        let mut buffer = Buffer::new();
        self.push(buffer.format(number).as_bytes());
    }

    /// The bytes of the line, at most 512.
    pub fn as_bytes(&self) -> &[u8]
        ensures text { result.now ≡ self.now }
        ensures short { length self.now ≤ LINE_ROOM }
    {
        &self.bytes[..self.len]
    }
}
