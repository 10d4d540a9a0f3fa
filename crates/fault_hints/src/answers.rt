use crate::apart::{places_apart, push_apart};
use crate::differing::{first_line, push_line};
use crate::holding::held;
use crate::watched::{Watched, is_of_both};
use base_types::{LineBuffer, NoMemory};
use check_tool::after_line;
use event_kinds::{Entry, Event, Line, push_line_head};
use std::alloc::Global;
use std::fmt::Write;

// What should come in the place of the first line that differs, after these entries and none left to come, over a queue of this size.
pub(crate) fn wrong_line(
    alloc: Global,
    size: u32,
    entries: &[Entry],
    lines: &[Line],
    rest: &[u8],
) -> Result<String, NoMemory> {
    let mut text = String::new(alloc);
    write!(text, "after {} entries ", entries.len())?;
    let mut number = entries.len().saturating_add(1);
    let mut left = rest;
    let mut last: &[u8] = &[];
    for line in lines {
        let Some(after) = after_line(left, line) else {
            let expected = text_of(alloc, line)?;
            push_expected(&mut text, number, &expected, left, last)?;
            push_stale(alloc, &mut text, size, entries, &expected, left)?;
            return Ok(text);
        };
        last = first_line(left);
        left = after;
        number = number.saturating_add(1);
    }
    match left.strip_prefix(b"end\n".as_slice()) {
        Some(_) => write!(
            text,
            "line {} differs: nothing follows the line 'end'",
            number.saturating_add(1)
        )?,
        None => push_expected(&mut text, number, b"end\n", left, last)?,
    }
    Ok(text)
}

// An answer line with its end.
fn text_of(alloc: Global, line: &Line) -> Result<Vec<u8>, NoMemory> {
    let mut head = LineBuffer::new();
    push_line_head(&mut head, line);
    let mut text = Vec::new(alloc);
    text.extend_from_slice(head.as_bytes())?;
    text.extend_from_slice(line.text.as_bytes())?;
    text.push(b'\n')?;
    Ok(text)
}

// Puts to the end what the line of this number should be, and what is there; `last` is the line before, without its end.
fn push_expected(
    text: &mut String,
    number: usize,
    expected: &[u8],
    found: &[u8],
    last: &[u8],
) -> Result<(), NoMemory> {
    write!(text, "line {number} differs")?;
    if !last.is_empty() && first_line(found) == last {
        text.push_str(": it should be '")?;
        push_line(text, expected)?;
        write!(text, "', and is line {} again", number.saturating_sub(1))?;
        return Ok(());
    }
    if !found.is_empty() {
        return push_apart(text, expected, found);
    }
    text.push_str(": it should be '")?;
    push_line(text, expected)?;
    text.push_str("', and the output ends")?;
    Ok(())
}

// Says of an answer that is as of an earlier scan than it should be since when what that read is stale.
fn push_stale(
    alloc: Global,
    text: &mut String,
    size: u32,
    entries: &[Entry],
    expected: &[u8],
    found: &[u8],
) -> Result<(), NoMemory> {
    let Some((due, place)) = places_apart(expected, found) else {
        return Ok(());
    };
    let before = entries.get(..number_before(due)).unwrap_or(entries);
    let (mut own, mut next) = (read_at(before, number_before(place)), None);
    let again = read_at(entries, number_before(due));
    if !is_of_both(own, again) {
        return Ok(());
    }
    held(alloc, size, before, &mut own, &mut next)?;
    if let Some(own) = own {
        if number_before(place).saturating_add(1) == own.read && own.stale > 0 {
            write!(
                text,
                ": a stale serve, as what entry {} read is stale by entry {}",
                own.read, own.stale
            )?;
        }
    }
    Ok(())
}

// How many entries are before the one of this number.
fn number_before(number: u64) -> usize {
    usize::try_from(number.saturating_sub(1)).unwrap_or(usize::MAX)
}

// What a backend reads by the scan that stands after so many entries.
fn read_at(entries: &[Entry], before: usize) -> Option<Watched> {
    let e = entries.get(before)?;
    match &e.event {
        Event::Scan { purpose, .. } => Some(Watched::new(e.backend, *purpose)),
        _ => None,
    }
}
