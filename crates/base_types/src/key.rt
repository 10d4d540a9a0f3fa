ghost use Rattle.std.specs.Prelude.{◌≡◌, ◌≤◌, length};
ghost use Rattle.base_types.specs.Padded.{filled as with_filler};
ghost use Rattle.base_types.specs.CacheKeys.{no_part as filler};

use crate::{Name, Oid};
use std::marker::Model;

/// The catalog caches: relations by name, relations by oid, and columns by relation and name.
#[derive(Clone, Copy)]
pub enum CacheId {
    RelName,
    RelOid,
    AttName,
}

impl CacheId {
    ghost use Rattle.base_types.specs.CacheKeys.{cache_number};

    /// The number of the cache, 1 to 3.
    pub fn number(self) -> u32
        ensures { result ≡ cache_number self }
    {
        match self {
            CacheId::RelName => 1,
            CacheId::RelOid => 2,
            CacheId::AttName => 3,
        }
    }
}

/// A part of a key.
#[derive(Clone, Copy)]
pub enum KeyPart {
    Oid(Oid),
    Name(Name),
}

/// A key of a catalog cache, or a prefix of one, of 1 to 4 parts kept in place.
#[derive(Clone, Copy)]
pub struct Key {
    len: usize,
    parts: [KeyPart; 4],
}

impl Model for Key {
    ghost use Rattle.std.specs.Prelude.{List, ℕ, length, take};
    ghost use Rattle.base_types.specs.Padded.{IsFilled, filled, filled_again};
    ghost use Rattle.base_types.specs.declared.key.KeyPart.{KeyPart};
    ghost use Rattle.base_types.specs.CacheKeys.{no_part};

    ghost Value = { List KeyPart };

    ghost view = { λ k. take k.len k.parts };

    ghost invariant = { λ k. IsFilled no_part 4 k.len k.parts };

    ghost inverse = { λ parts. record { len = length parts; parts = filled no_part 4 parts } };

    ghost inverse_ok = { λ k kept. filled_again (λ n xs. record { len = n; parts = xs }) no_part 4 k.len k.parts kept };
}

impl Key {
    ghost use Rattle.std.specs.Prelude.{◌<◌};

    /// The key of these parts. Condition: 1 to 4 of them.
    pub fn new(parts: &[KeyPart]) -> Key
        requires some { 0 < length parts.now }
        requires few { length parts.now ≤ 4 }
        ensures { result ≡ parts.now }
    {
        Key {
            len: parts.len(),
            parts: filled(parts),
        }
    }

    /// The parts in order, at most four.
    pub fn as_slice(&self) -> &[KeyPart]
        ensures parts { result.now ≡ self.now }
        ensures short { length self.now ≤ 4 }
    {
        &self.parts[..self.len]
    }
}

// The parts in an array, with the oid 0 after them.
fn filled(parts: &[KeyPart]) -> [KeyPart; 4]
    requires { length parts.now ≤ 4 }
    ensures { result ≡ with_filler filler 4 parts.now }
{
    let mut array = [KeyPart::Oid(Oid(0)); 4];
    array[..parts.len()].copy_from_slice(parts);
    array
}
