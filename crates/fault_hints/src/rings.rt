use crate::lines::{bare, token_of};
use crate::numbers::{number_of, push_found};
use crate::tokens::{Span, is, text_at, tokens_of};
use base_types::NoMemory;
use std::alloc::Global;
use std::fmt::Write;

// How many messages a queue can hold.
const SIZES: [u64; 7] = [64, 128, 256, 512, 1024, 2048, 4096];

// As many times its size the number of its first message stays below.
const ROUNDS: u64 = 262_144;

// What is wrong in the `ring` line of this number, from 1: its place, its size, the number of its first message, or
// its form.
pub(crate) fn ring_hint(
    alloc: Global,
    script: &[u8],
    number: u32,
    line: &[u8],
) -> Result<Option<String>, NoMemory> {
    if is_late(alloc, script, number)? {
        let text = "BadRing: the 'ring' line comes before all other lines that count, and once";
        return Ok(Some(String::from_str(alloc, text)?));
    }
    let mut small = line.to_vec(alloc)?;
    small.make_ascii_lowercase();
    let spans = tokens_of(alloc, &small)?;
    let size = token_of(&small, &spans, 1);
    let mut text = String::from_str(alloc, "BadRing: ")?;
    match size_of(size) {
        None => {
            text.push_str("a queue holds 64, 128, 256, 512, 1024, 2048 or 4096 messages")?;
            push_found(&mut text, size)?;
        }
        Some(size) => push_rest(&mut text, &small, &spans, size)?,
    }
    Ok(Some(text))
}

// Whether a line before this one counts.
fn is_late(alloc: Global, script: &[u8], number: u32) -> Result<bool, NoMemory> {
    let mut number_here: u32 = 1;
    for line in script.split_inclusive(|byte| *byte == b'\n') {
        if number_here >= number {
            return Ok(false);
        }
        let line = bare(line);
        let spans = tokens_of(alloc, line)?;
        if let Some(first) = spans.first() {
            if !text_at(line, *first).starts_with(b"--") {
                return Ok(true);
            }
        }
        number_here = number_here.saturating_add(1);
    }
    Ok(false)
}

// The size that a queue may have.
fn size_of(token: &[u8]) -> Option<u64> {
    let number = number_of(token, 10)?;
    SIZES.iter().copied().find(|size| *size == number)
}

// What is wrong after the size.
fn push_rest(text: &mut String, line: &[u8], spans: &[Span], size: u64) -> Result<(), NoMemory> {
    let from = token_of(line, spans, 3);
    let most = size.saturating_mul(ROUNDS);
    if !is(token_of(line, spans, 2), "from") {
        write!(
            text,
            "after \"ring {size}\" comes \"from\", the end of the line"
        )?;
        return push_found(text, token_of(line, spans, 2));
    }
    match number_of(from, 10) {
        None => {
            write!(
                text,
                "after \"ring {size} from\" comes a number of at most ten digits"
            )?;
            push_found(text, from)
        }
        Some(number) if number >= most => {
            write!(
                text,
                "the first message's number is below {size} times {ROUNDS}, {most}"
            )?;
            push_found(text, from)
        }
        Some(number) => {
            write!(
                text,
                "after \"ring {size} from {number}\" comes the end of the line"
            )?;
            push_found(text, token_of(line, spans, 4))
        }
    }
}
