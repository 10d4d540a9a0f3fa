ghost use Rattle.std.specs.Prelude.{◌≡◌, ℕ, ◌≤◌, ◌<◌, IfSome, IfNone, IsTrue, ◌↔◌};
ghost use Rattle.base_types.specs.Names.{IsDroppedName, IsDropped};

use crate::{Name, number_up_to};

/// The most columns of a table, with those that were dropped (`MaxHeapAttributeNumber`).
pub const MOST_COLUMNS: u32 = 1600;

// How many bytes of such a name come before its number, and how many after it.
const BEFORE: usize = 19;

const AFTER: usize = 8;

// The number of the dropped column that has this name.
pub(crate) fn dropped_number(text: &[u8]) -> Option<u32>
    ensures some { IfSome result (λ num. IsDropped num text.now) }
    ensures none { IfNone result (IsDroppedName text.now → ⊥) }
{
    match shown_number(text) {
        Some(num) if is_dropped(text, num) => Some(num),
        _ => None,
    }
}

// Whether the bytes are the name of the dropped column of this number.
fn is_dropped(text: &[u8], num: u32) -> bool
    requires { num ≤ MOST_COLUMNS }
    ensures { IsTrue result ↔ IsDropped num text.now }
{
    num > 0 && Name::dropped(num).as_bytes() == text
}

// The number at the place where such a name has one.
fn shown_number(text: &[u8]) -> Option<u32>
    ensures some { IfSome result (λ num. num ≤ MOST_COLUMNS) }
    ensures same { IfSome result (λ num. (m : ℕ) → IsDropped m text.now → m ≡ num) }
    ensures none { IfNone result ((m : ℕ) → IsDropped m text.now → ⊥) }
{
    if text.len() < BEFORE + 1 + AFTER {
        return None;
    }
    let number = number_up_to(u64::from(MOST_COLUMNS), &text[BEFORE..text.len() - AFTER])?;
    Some(number as u32)
}
