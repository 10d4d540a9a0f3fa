use crate::lines::{push_ascii, push_quoted};
use crate::tokens::begins_comment;
use base_types::NoMemory;

// How much of a token is shown.
const MOST_SHOWN: usize = 60;

// A number of at most so many digits.
pub(crate) fn number_of(token: &[u8], digits: usize) -> Option<u64> {
    if token.is_empty() || token.len() > digits {
        return None;
    }
    let mut number: u64 = 0;
    for byte in token {
        if !byte.is_ascii_digit() {
            return None;
        }
        let digit = u64::from(byte.wrapping_sub(b'0'));
        number = number.saturating_mul(10).saturating_add(digit);
    }
    Some(number)
}

// Whether a token is a number of at most nine digits from 1 to this one.
pub(crate) fn is_within(token: &[u8], most: u64) -> bool {
    match number_of(token, 9) {
        Some(number) => 1 <= number && number <= most,
        None => false,
    }
}

// Puts to the end what was found where a line goes wrong; nothing stands for its end.
pub(crate) fn push_found(text: &mut String, token: &[u8]) -> Result<(), NoMemory> {
    text.push_str("; found ")?;
    if token.is_empty() {
        return push_ascii(text, b"the end of the line");
    }
    push_quoted(text, token.get(..MOST_SHOWN).unwrap_or(token))?;
    if begins_comment(token) {
        text.push_str(" (a comment has a line of its own, which begins with --)")?;
    }
    Ok(())
}

// The same, where a number of at most nine digits is wanted.
pub(crate) fn push_found_number(text: &mut String, token: &[u8]) -> Result<(), NoMemory> {
    push_found(text, token)?;
    let is_number = token.iter().all(|byte| byte.is_ascii_digit());
    if is_number && token.len() > 9 {
        text.push_str(" (a number has at most nine digits)")?;
    }
    Ok(())
}
