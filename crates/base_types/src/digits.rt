ghost use Rattle.std.specs.Prelude.{◌≡◌, ◌≤◌, ◌<◌, IfSome, IfNone};
ghost use Rattle.base_types.specs.Names.{is_digit as digit, number_of_digits};

/// Whether the byte is a digit.
pub fn is_digit(byte: u8) -> bool
    ensures { result ≡ digit byte }
{
    byte.is_ascii_digit()
}

/// The number that digits write, unless it is above `most`. A byte below `0` counts as 0.
pub fn number_up_to(most: u64, digits: &[u8]) -> Option<u64>
    ensures some { IfSome result (λ number. (number ≡ number_of_digits digits.now) × (number ≤ most)) }
    ensures none { IfNone result (most < number_of_digits digits.now) }
{
    let mut number: u128 = 0;
    for byte in digits {
        number = number * 10 + u128::from(byte.saturating_sub(b'0'));
        if number > u128::from(most) {
            return None;
        }
    }
    Some(number as u64)
}
