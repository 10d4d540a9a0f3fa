ghost use Rattle.std.specs.Prelude.{◌≡◌, ℕ, ◌-◌, ◌≤◌, ◌==◌, [], ◌++◌, length, take, drop, min};

use std::marker::Model;

// How many bytes are gathered before they are handed on.
pub(crate) const MOST_HELD: usize = 4096;

// Bytes that wait to be handed on.
#[derive(Drop)]
pub(crate) struct Held {
    bytes: [u8; MOST_HELD],
    len: usize,
}

impl Model for Held {
    ghost use Rattle.std.specs.Prelude.{ℕ, ◌≤◌, List, take};
    ghost use Rattle.edge_io.specs.declared.held.TheConstants.{MOST_HELD};

    ghost Value = { List ℕ };

    ghost view = { λ held. take held.len held.bytes };

    ghost invariant = { λ held. held.len ≤ MOST_HELD };
}

// Room for the bytes.
fn blank() -> [u8; MOST_HELD]
    ensures { length result ≡ MOST_HELD }
{
    [0; MOST_HELD]
}

impl Held {
    pub(crate) fn new() -> Held
        ensures { result ≡ [] }
    {
        Held {
            bytes: blank(),
            len: 0,
        }
    }

    pub(crate) fn is_empty(&self) -> bool
        ensures { result ≡ (length self.now == 0) }
    {
        self.len == 0
    }

    pub(crate) fn is_full(&self) -> bool
        ensures full { result ≡ (length self.now == MOST_HELD) }
        ensures short { length self.now ≤ MOST_HELD }
    {
        self.len == MOST_HELD
    }

    pub(crate) fn as_slice(&self) -> &[u8]
        ensures { result.now ≡ self.now }
    {
        &self.bytes[..self.len]
    }

    // Keeps the prefix of a piece for which there is room, and says how long it is.
    pub(crate) fn keep(&mut self, piece: &[u8]) -> usize
        ensures count { result ≡ min (length piece.now) (MOST_HELD - length self.old) }
        ensures kept { self.new ≡ self.old ++ take result piece.now }
    {
        let count = piece.len().min(MOST_HELD - self.len);
        self.bytes[self.len..self.len + count].copy_from_slice(&piece[..count]);
        self.len += count;
        count
    }

    // Lets go of its first bytes.
    pub(crate) fn let_go(&mut self, count: usize)
        requires { count ≤ length self.old }
        ensures { self.new ≡ drop count self.old }
    {
        self.bytes.copy_within(count..self.len, 0);
        self.len -= count;
    }
}
