ghost use Rattle.std.specs.Prelude.{◌≡◌, ◌≤◌, ◌<◌, IfOk, IfSome, Option, None, Some, ◌∷◌, ℕ, length, take, drop, map, min, ◌+◌, not, ◌==◌, if◌then◌else◌};
ghost use Rattle.std.specs.List.{list_any, prefix_len};
ghost use Rattle.script_text.specs.TextLines.{text_lines, line_len as length_of_line, ends_in as text_ends_in, but_last, bare as bare_of, begins_comment as comment, rest_counts as front_of_line_counts, counts as line_counts, is_bad_byte as bad_byte, small as small_of, is_blank};

use crate::tokens::without_blanks;
use base_types::NoMemory;
use std::alloc::Global;

// The length of a text's first line with its line feed.
#[tactic(auto, using(crate::proofs::LineLengths::first_line))]
pub(crate) fn line_len(text: &[u8]) -> usize
    requires { 0 < length text.now }
    ensures first { text_lines text.now ≡ take result text.now ∷ text_lines (drop result text.now) }
    ensures some { 0 < result }
    ensures within { result ≤ length text.now }
{
    let before = before_lf(text);
    if before < text.len() {
        before + 1
    } else {
        before
    }
}

// A line without its line feed and the carriage return before that.
#[tactic(auto, unfolding(crate::specs::TextLines::bare))]
pub(crate) fn bare(line: &[u8]) -> &[u8]
    ensures { result.now ≡ bare_of line.now }
{
    if !ends_in(line, b'\n') {
        return line;
    }
    let front = &line[..line.len() - 1];
    if !ends_in(front, b'\r') {
        return front;
    }
    &front[..front.len() - 1]
}

// A line counts: it has more than blanks and isn't a comment.
#[tactic(auto, using(crate::proofs::LineLengths::counts_after_blanks))]
pub(crate) fn counts(line: &[u8]) -> bool
    ensures { result ≡ line_counts line.now }
{
    rest_counts(without_blanks(line))
}

// The line has a byte that no line that counts may have.
pub(crate) fn has_bad_byte(line: &[u8]) -> bool
    ensures { result ≡ list_any bad_byte line.now }
{
    line.iter().any(|byte| is_bad_byte(*byte))
}

// The line in small letters.
pub(crate) fn in_small_letters(alloc: Global, line: &[u8]) -> Result<Vec<u8>, NoMemory>
    ensures { IfOk result (λ folded. folded.items ≡ map small_of line.now) }
{
    let mut folded = Vec::with_capacity(alloc, line.len())?;
    for byte in line {
        folded.push(small(*byte))?;
    }
    Ok(folded)
}

// The number of bytes before the first line feed.
fn before_lf(text: &[u8]) -> usize
    ensures value { result ≡ prefix_len (λ byte. not (byte == 10)) text.now }
    ensures within { result ≤ length text.now }
{
    text.iter().take_while(|byte| **byte != b'\n').count()
}

// The text ends in this byte.
fn ends_in(text: &[u8], byte: u8) -> bool
    ensures value { result ≡ text_ends_in byte text.now }
{
    !text.is_empty() && text[text.len() - 1] == byte
}

// The text that a line has after its blanks makes it count.
fn rest_counts(text: &[u8]) -> bool
    ensures { result ≡ front_of_line_counts text.now }
{
    !text.is_empty() && !begins_comment(text)
}

// The text begins with two dashes.
fn begins_comment(text: &[u8]) -> bool
    ensures { result ≡ comment text.now }
{
    matches!(text, [b'-', b'-', ..])
}

fn is_bad_byte(byte: u8) -> bool
    ensures { result ≡ bad_byte byte }
{
    !(byte == b'\t' || matches!(byte, b' '..=b'~'))
}

fn small(byte: u8) -> u8
    ensures { result ≡ small_of byte }
{
    if matches!(byte, b'A'..=b'Z') {
        byte + 32
    } else {
        byte
    }
}
