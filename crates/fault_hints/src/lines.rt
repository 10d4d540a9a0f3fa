use crate::tokens::{Span, text_at};
use base_types::NoMemory;

// The line of this number, from 1, without its line feed and a carriage return before that.
pub(crate) fn line_at(text: &[u8], number: u32) -> &[u8] {
    let mut number_here: u32 = 0;
    for line in text.split_inclusive(|byte| *byte == b'\n') {
        number_here = number_here.saturating_add(1);
        if number_here == number {
            return bare(line);
        }
    }
    &[]
}

// A line without its line feed and a carriage return before that.
pub(crate) fn bare(line: &[u8]) -> &[u8] {
    match line {
        [front @ .., b'\r', b'\n'] => front,
        [front @ .., b'\n'] => front,
        _ => line,
    }
}

// The text of a command's line after its colon.
pub(crate) fn command_of(line: &[u8]) -> &[u8] {
    match line.iter().position(|byte| *byte == b':') {
        Some(colon) => line.get(colon.saturating_add(1)..).unwrap_or(&[]),
        None => &[],
    }
}

// Puts ASCII text to the end.
pub(crate) fn push_ascii(text: &mut String, bytes: &[u8]) -> Result<(), NoMemory> {
    for byte in bytes {
        text.push(char::from(*byte))?;
    }
    Ok(())
}

// The same in quotation marks.
pub(crate) fn push_quoted(text: &mut String, bytes: &[u8]) -> Result<(), NoMemory> {
    text.push('"')?;
    push_ascii(text, bytes)?;
    text.push('"')?;
    Ok(())
}

// The token after so many others; empty at the end of the line.
pub(crate) fn token_of<'a>(line: &'a [u8], spans: &[Span], count: usize) -> &'a [u8] {
    match spans.get(count) {
        Some(span) => text_at(line, *span),
        None => &[],
    }
}
