use crate::coming::{Coming, entry_line, scan_coming};
use crate::differing::push_line;
use crate::watched::Watched;
use base_types::{LineBuffer, NoMemory};
use event_kinds::{Entry, Event, Item, changes_in, push_item};
use std::alloc::Global;
use std::fmt::Write;

// How many of the entries that may come are said.
const MOST_SAID: usize = 4;

// Says what comes after so many entries in the place of one that may not: of a write for another one, where they differ. Where a
// walk makes another entry before, it is that one, and then what may come. `read` is what the scan that comes reads, of which
// `is_said` tells that the text says already since when it is stale.
pub(crate) fn push_next(
    alloc: Global,
    text: &mut String,
    coming: &Coming,
    before: usize,
    e: Option<&Entry>,
    read: Option<Watched>,
    is_said: bool,
) -> Result<(), NoMemory> {
    let Some(next) = coming.entries.first() else {
        return push_few(text, coming.few.as_slice(), &[]);
    };
    let after = coming.after(before);
    if after.is_empty() {
        let line = entry_line(alloc, next)?;
        write!(text, "; a walk makes entry {} otherwise: ", coming.number)?;
        push_line(text, &line)?;
        return push_few(text, coming.few.as_slice(), &line);
    }
    if let Some(e) = e {
        if is_write(next) && is_write(e) {
            return push_difference(text, e, next);
        }
    }
    text.push_str("; next comes ")?;
    push_line(text, &entry_line(alloc, next)?)?;
    push_scan(alloc, text, after, e, read, is_said)
}

// Some entries of which one may come; in place of the line that was said last, that it is that one.
fn push_few(text: &mut String, few: &[Vec<u8>], last: &[u8]) -> Result<(), NoMemory> {
    match few.len() {
        0 => return Ok(()),
        1 => text.push_str("; here may come ")?,
        _ => text.push_str("; here may come one of: ")?,
    }
    for (i, line) in few.get(..MOST_SAID).unwrap_or(few).iter().enumerate() {
        if i > 0 {
            text.push_str(", ")?;
        }
        if line.as_slice() == last {
            text.push_str("that one")?;
        } else {
            push_line(text, line)?;
        }
    }
    if few.len() > MOST_SAID {
        write!(text, ", or {} more", few.len().saturating_sub(MOST_SAID))?;
    }
    Ok(())
}

// The scan that comes after a look, and since when it is due.
fn push_scan(
    alloc: Global,
    text: &mut String,
    coming: &[Entry],
    e: Option<&Entry>,
    read: Option<Watched>,
    is_said: bool,
) -> Result<(), NoMemory> {
    let (Some(scan), Some(read)) = (scan_coming(coming), read) else {
        return Ok(());
    };
    if read.stale == 0 {
        return Ok(());
    }
    if !matches!(coming.first(), Some(first) if matches!(first.event, Event::Scan { .. })) {
        text.push_str(", and then ")?;
        push_then(alloc, text, scan, e)?;
    }
    if !is_said {
        write!(
            text,
            ", since what entry {} read is stale by entry {}",
            read.read, read.stale
        )?;
    }
    Ok(())
}

// Puts a scan to the end, in a text of an entry that may be the same.
fn push_then(
    alloc: Global,
    text: &mut String,
    scan: &Entry,
    e: Option<&Entry>,
) -> Result<(), NoMemory> {
    let line = entry_line(alloc, scan)?;
    if let Some(e) = e {
        if entry_line(alloc, e)?.as_slice() == line.as_slice() {
            return Ok(text.push_str("this scan")?);
        }
    }
    push_line(text, &line)
}

fn is_write(e: &Entry) -> bool {
    matches!(e.event, Event::Write { .. })
}

// In what a write differs from the one that comes: its number, or its first other change.
fn push_difference(text: &mut String, e: &Entry, next: &Entry) -> Result<(), NoMemory> {
    if let (Event::Write { xid, .. }, Event::Write { xid: own, .. }) = (&next.event, &e.event) {
        if xid.0 != own.0 {
            write!(text, "; the transaction's number is {}", xid.0)?;
            return Ok(());
        }
    }
    push_change(text, changes_in(&e.event), changes_in(&next.event))
}

// The first change that is another than it should be.
fn push_change(text: &mut String, found: &[Item], expected: &[Item]) -> Result<(), NoMemory> {
    let mut number = 1usize;
    for item in expected {
        let here = found.get(number.saturating_sub(1));
        if !is_item(item, here) {
            write!(text, "; change {number} should be ")?;
            push_item_text(text, item)?;
            if let Some(other) = here {
                text.push_str(" and is ")?;
                push_item_text(text, other)?;
            }
            return Ok(());
        }
        number = number.saturating_add(1);
    }
    write!(text, "; change {number} is too many")?;
    Ok(())
}

fn is_item(item: &Item, other: Option<&Item>) -> bool {
    match other {
        Some(other) => {
            let mut a = LineBuffer::new();
            push_item(&mut a, item);
            let mut b = LineBuffer::new();
            push_item(&mut b, other);
            a.as_bytes() == b.as_bytes()
        }
        None => false,
    }
}

fn push_item_text(text: &mut String, item: &Item) -> Result<(), NoMemory> {
    let mut line = LineBuffer::new();
    push_item(&mut line, item);
    for byte in line.as_bytes() {
        text.push(char::from(*byte))?;
    }
    Ok(())
}
