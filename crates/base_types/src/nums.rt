ghost use Rattle.std.specs.Prelude.{◌≡◌, ◌<◌, ◌≤◌, length};
ghost use Rattle.base_types.specs.Padded.{padded as with_zeros};

use std::marker::Model;

/// The most columns of an index (`INDEX_MAX_KEYS`).
pub const MOST_INDEX_COLUMNS: usize = 32;

/// The numbers of an index's columns, 1 to 32 of them, kept in place.
#[derive(Clone, Copy)]
pub struct Nums {
    len: usize,
    nums: [u32; MOST_INDEX_COLUMNS],
}

impl Model for Nums {
    ghost use Rattle.std.specs.Prelude.{List, ℕ, ◌<◌, length, take};
    ghost use Rattle.base_types.specs.Padded.{IsPadded, padded, made_again};
    ghost use Rattle.base_types.specs.declared.nums.TheConstants.{MOST_INDEX_COLUMNS};

    ghost Value = { List ℕ };

    ghost view = { λ t. take t.len t.nums };

    ghost invariant = { λ t. (0 < t.len) × IsPadded MOST_INDEX_COLUMNS t.len t.nums };

    ghost inverse = { λ nums. record { len = length nums; nums = padded MOST_INDEX_COLUMNS nums } };

    ghost inverse_ok = { λ t kept. made_again (λ n xs. record { len = n; nums = xs }) MOST_INDEX_COLUMNS t.len t.nums kept.1 };
}

impl Nums {
    /// The numbers of these columns. Condition: 1 to 32 of them.
    pub fn new(nums: &[u32]) -> Nums
        requires some { 0 < length nums.now }
        requires few { length nums.now ≤ MOST_INDEX_COLUMNS }
        ensures { result ≡ nums.now }
    {
        Nums {
            len: nums.len(),
            nums: padded(nums),
        }
    }

    /// The numbers in order, 1 to 32.
    pub fn as_slice(&self) -> &[u32]
        ensures nums { result.now ≡ self.now }
        ensures some { 0 < length self.now }
        ensures short { length self.now ≤ MOST_INDEX_COLUMNS }
    {
        &self.nums[..self.len]
    }
}

// The numbers in an array, with zeros after them.
fn padded(nums: &[u32]) -> [u32; MOST_INDEX_COLUMNS]
    requires { length nums.now ≤ MOST_INDEX_COLUMNS }
    ensures { result ≡ with_zeros MOST_INDEX_COLUMNS nums.now }
{
    let mut array = [0; MOST_INDEX_COLUMNS];
    array[..nums.len()].copy_from_slice(nums);
    array
}
