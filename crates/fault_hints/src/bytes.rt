use base_types::NoMemory;
use std::alloc::Global;
use std::fmt::Write;

// Which byte of a line is none that a line of a script may have, from 1; `None` where all may be there.
pub(crate) fn byte_hint(alloc: Global, line: &[u8]) -> Result<Option<String>, NoMemory> {
    let Some(at) = line.iter().position(|byte| !is_good(*byte)) else {
        return Ok(None);
    };
    let rest = line.get(at..).unwrap_or(&[]);
    let byte = rest.first().copied().unwrap_or(0);
    let column = at.saturating_add(1);
    let mut text = String::from_str(alloc, "BadByte: ")?;
    write!(text, "the byte 0x{byte:02X} in column {column}")?;
    push_what(&mut text, byte, rest)?;
    text.push_str(" is neither printable ASCII nor a tab")?;
    Ok(Some(text))
}

fn is_good(byte: u8) -> bool {
    byte == b'\t' || matches!(byte, b' '..=b'~')
}

// What a byte is, where it has a name or begins a character of UTF-8.
fn push_what(text: &mut String, byte: u8, rest: &[u8]) -> Result<(), NoMemory> {
    match (byte, code_point(rest)) {
        (b'\r', _) => text.push_str(" (a carriage return that no line feed follows)")?,
        (0, _) => text.push_str(" (NUL)")?,
        (_, Some(0xFEFF)) => text.push_str(" (a byte order mark)")?,
        (_, Some(code)) => write!(text, " (of the character U+{code:04X})")?,
        (_, None) => {}
    }
    Ok(())
}

// The character of two to four bytes that a text begins with.
fn code_point(text: &[u8]) -> Option<u32> {
    let first = *text.first()?;
    let (count, high) = match first {
        0xC2..=0xDF => (1, first & 0x1F),
        0xE0..=0xEF => (2, first & 0x0F),
        0xF0..=0xF4 => (3, first & 0x07),
        _ => return None,
    };
    let mut code = u32::from(high);
    for at in 1..4 {
        if at <= count {
            let byte = *text.get(at)?;
            if byte & 0xC0 != 0x80 {
                return None;
            }
            code = code.wrapping_mul(64) | u32::from(byte & 0x3F);
        }
    }
    Some(code)
}
