use crate::coming::entry_line;
use crate::holding::held;
use crate::reasons::{MOST_FETCHED, waiting};
use base_types::NoMemory;
use check_tool::{CheckKind, leading_entries, reached_prefix};
use event_kinds::{Entry, Event};
use history_ledger::Ledger;
use script_text::Script;
use std::alloc::Global;
use std::fmt::Write;

// How many entries are read in all, since each line that is tried is judged after all entries before it.
const MOST_READ: usize = 12_000;

// How many lines are tried, and how many of these are of the walk.
const MOST_TRIED: usize = 64;

const MOST_WALKED: usize = 24;

// What is tried whatever the commands are, beside a fetch and scans.
const WITHOUT_NUMBERS: &[&str] = &["look no", "look yes", "fetch reset", "stop"];

// A place in an output: what is before it, and whose entry comes.
#[derive(Clone, Copy)]
pub(crate) struct Place<'a> {
    pub(crate) kind: CheckKind,
    pub(crate) script: &'a Script,
    pub(crate) output: &'a [u8],
    pub(crate) before: &'a [Entry],
    pub(crate) backend: u32,
}

// The lines of entries that may come at a place, each once, among those that are tried: what a walk makes that has made another
// entry before, looks, a fetch, a stop, and scans that the backend has made before.
pub(crate) fn few_that_may_come(
    alloc: Global,
    place: &Place,
    walked: &[Entry],
) -> Result<Vec<Vec<u8>>, NoMemory> {
    let mut few: Vec<Vec<u8>> = Vec::new(alloc);
    let (mut own, mut next) = (None, None);
    let size = place.script.size();
    let Some(ledger) = held(alloc, size, place.before, &mut own, &mut next)? else {
        return Ok(few);
    };
    let made = lines_before(alloc, place)?;
    let mut read = 0usize;
    for line in tried(alloc, place, walked, &ledger)? {
        if follows(alloc, &ledger, size, &line)? {
            read = read.saturating_add(place.before.len());
            if read > MOST_READ {
                return Ok(few);
            }
            if may_come(alloc, place, &made, &line)? {
                few.push(line)?;
            }
        }
    }
    Ok(few)
}

// Whether the entries before allow the entry of this line, whatever the commands are.
fn follows(alloc: Global, ledger: &Ledger, size: u32, line: &[u8]) -> Result<bool, NoMemory> {
    let leading = leading_entries(alloc, line)?;
    match leading.entries.as_slice().first() {
        Some(e) => Ok(ledger.may_follow(e, size)?),
        None => Ok(false),
    }
}

// Whether an entry of this line may come after those of the lines before it.
fn may_come(alloc: Global, place: &Place, made: &[u8], line: &[u8]) -> Result<bool, NoMemory> {
    let mut text = made.to_vec(alloc)?;
    text.extend_from_slice(line)?;
    let leading = leading_entries(alloc, &text)?;
    let entries = leading.entries.as_slice();
    let reached = reached_prefix(alloc, place.script, place.kind, entries)?;
    Ok(reached.entries > place.before.len())
}

// The lines before the place.
fn lines_before(alloc: Global, place: &Place) -> Result<Vec<u8>, NoMemory> {
    let mut text = Vec::new(alloc);
    let mut number = 0usize;
    for line in place.output.split_inclusive(|byte| *byte == b'\n') {
        if number < place.before.len() {
            text.extend_from_slice(line)?;
        }
        number = number.saturating_add(1);
    }
    Ok(text)
}

// The lines that are tried, each once.
fn tried(
    alloc: Global,
    place: &Place,
    walked: &[Entry],
    ledger: &Ledger,
) -> Result<Vec<Vec<u8>>, NoMemory> {
    let mut lines = Vec::new(alloc);
    for e in walked {
        if e.backend == place.backend && lines.len() < MOST_WALKED {
            push_new(&mut lines, entry_line(alloc, e)?)?;
        }
    }
    let last = place
        .before
        .iter()
        .rev()
        .find(|e| e.backend == place.backend);
    let command = last.map(|e| e.command).unwrap_or(0);
    let further = command.saturating_add(1);
    push_own(alloc, &mut lines, place, ledger, command)?;
    push_own(alloc, &mut lines, place, ledger, further)?;
    push_scans(alloc, &mut lines, place, ledger, command)?;
    push_scans(alloc, &mut lines, place, ledger, further)?;
    Ok(lines)
}

// Puts a line to the end, unless it is there.
fn push_new(lines: &mut Vec<Vec<u8>>, line: Vec<u8>) -> Result<(), NoMemory> {
    let is_there = lines
        .iter()
        .any(|other| other.as_slice() == line.as_slice());
    if !is_there {
        lines.push(line)?;
    }
    Ok(())
}

// Looks, fetches and a stop in a command.
fn push_own(
    alloc: Global,
    lines: &mut Vec<Vec<u8>>,
    place: &Place,
    ledger: &Ledger,
    command: u32,
) -> Result<(), NoMemory> {
    let b = place.backend;
    for &words in WITHOUT_NUMBERS {
        let mut line = String::new(alloc);
        write!(line, "h {b} {command} {words}\n")?;
        push_new(lines, line.as_bytes().to_vec(alloc)?)?;
    }
    let count = waiting(ledger, b).min(MOST_FETCHED);
    let mut line = String::new(alloc);
    write!(line, "h {b} {command} fetch {count}\n")?;
    push_new(lines, line.as_bytes().to_vec(alloc)?)
}

// The scans that the backend has made, the last ones first, with as many rows as they give now.
fn push_scans(
    alloc: Global,
    lines: &mut Vec<Vec<u8>>,
    place: &Place,
    ledger: &Ledger,
    command: u32,
) -> Result<(), NoMemory> {
    for e in place.before.iter().rev() {
        if e.backend == place.backend && lines.len() < MOST_TRIED {
            if let Event::Scan { purpose, .. } = &e.event {
                let rows = ledger.scan(e.backend, purpose)?.len();
                let again = Entry {
                    backend: e.backend,
                    command,
                    event: Event::Scan {
                        purpose: *purpose,
                        rows: u32::try_from(rows).unwrap_or(u32::MAX),
                    },
                };
                push_new(lines, entry_line(alloc, &again)?)?;
            }
        }
    }
    Ok(())
}
