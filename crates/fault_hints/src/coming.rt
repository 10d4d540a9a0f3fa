use crate::lines::bare;
use crate::tokens::{is, text_at, tokens_of};
use base_types::{Listed, NoMemory};
use event_kinds::{Entry, Event, write_entry};
use script_text::{Rest, Script, ScriptFault, read_script};
use std::alloc::Global;
use std::fmt::Write;
use walk_run::{World, walk};

// The most bytes that a script is read of.
const MOST_READ: usize = 4_294_967_294;

// How many steps of a backend are walked on: a look, a fetch, a look and the scan after these; and more, where the entries before
// have fewer than a walk.
const MORE: usize = 16;

// What a walk makes, from the first entry on that is another than the one given, or that comes after those given.
#[derive(Drop)]
pub(crate) struct Coming {
    // The number of the first of these, from 1.
    pub(crate) number: usize,
    pub(crate) entries: Vec<Entry>,
    // The lines of some entries that may come after those given, where a walk makes another one before.
    pub(crate) few: Vec<Vec<u8>>,
}

impl Coming {
    // What comes after so many entries, where a walk makes these; else nothing.
    pub(crate) fn after(&self, before: usize) -> &[Entry] {
        if self.number == before.saturating_add(1) {
            self.entries.as_slice()
        } else {
            &[]
        }
    }
}

// What a walk of the script makes by the turns of these entries, and then by some of this backend. `made` begins with the
// lines of the entries.
pub(crate) fn entries_to_come(
    alloc: Global,
    script: &[u8],
    before: &[Entry],
    made: &[u8],
    b: u32,
) -> Result<Coming, NoMemory> {
    let text = with_turns(alloc, script, before, b)?;
    if text.len() > MOST_READ {
        return Ok(no_walk(alloc));
    }
    let read = match read_script(alloc, &text, Rest::Refused) {
        Ok(read) => read,
        Err(ScriptFault::NoMemory) => return Err(NoMemory),
        Err(_) => return Ok(no_walk(alloc)),
    };
    after_these(alloc, walked(alloc, &read.script)?, before.len(), made)
}

// The history of a walk.
fn walked(alloc: Global, script: &Script) -> Result<Vec<Entry>, NoMemory> {
    let World {
        entries,
        lines: _,
        backends: _,
    } = walk(alloc, script)?;
    Ok(entries.into_vec())
}

// The script with these turns in the place of its own.
fn with_turns(alloc: Global, script: &[u8], before: &[Entry], b: u32) -> Result<Vec<u8>, NoMemory> {
    let mut text = Vec::new(alloc);
    for line in script.split_inclusive(|byte| *byte == b'\n') {
        if !is_of_turns(alloc, line)? {
            text.extend_from_slice(line)?;
        }
    }
    for e in before {
        push_turns(alloc, &mut text, e.backend, 1)?;
    }
    push_turns(alloc, &mut text, b, MORE)?;
    text.extend_from_slice(b"end\n")?;
    Ok(text)
}

// Whether a line is one of turns, or the last one.
fn is_of_turns(alloc: Global, line: &[u8]) -> Result<bool, NoMemory> {
    let mut small = bare(line).to_vec(alloc)?;
    small.make_ascii_lowercase();
    match tokens_of(alloc, &small)?.first() {
        Some(span) => {
            let first = text_at(&small, *span);
            Ok(is(first, "steps") || is(first, "end"))
        }
        None => Ok(false),
    }
}

fn push_turns(alloc: Global, text: &mut Vec<u8>, b: u32, count: usize) -> Result<(), NoMemory> {
    let mut line = String::new(alloc);
    write!(line, "steps {b}*{count}\n")?;
    text.extend_from_slice(line.as_bytes())?;
    Ok(())
}

// Nothing, where there is no walk.
fn no_walk(alloc: Global) -> Coming {
    Coming {
        number: 0,
        entries: Vec::new(alloc),
        few: Vec::new(alloc),
    }
}

// What a walk has after those of so many entries with which the text begins.
fn after_these(
    alloc: Global,
    walked: Vec<Entry>,
    count: usize,
    made: &[u8],
) -> Result<Coming, NoMemory> {
    let mut entries = Vec::new(alloc);
    let mut left = made;
    let mut number = 1usize;
    for e in walked {
        if number <= count && entries.is_empty() {
            let line = entry_line(alloc, &e)?;
            if let Some(rest) = left.strip_prefix(line.as_slice()) {
                left = rest;
                number = number.saturating_add(1);
                continue;
            }
        }
        entries.push(e)?;
    }
    Ok(Coming {
        number,
        entries,
        few: Vec::new(alloc),
    })
}

// The line of an entry, with its end.
pub(crate) fn entry_line(alloc: Global, e: &Entry) -> Result<Vec<u8>, NoMemory> {
    let mut line = Vec::new(alloc);
    write_entry(e, &mut line)?;
    line.push(b'\n')?;
    Ok(line)
}

// The scan that comes, with no more than looks and fetches before it.
pub(crate) fn scan_coming(coming: &[Entry]) -> Option<&Entry> {
    for e in coming {
        match &e.event {
            Event::Look { .. } | Event::Fetch { .. } | Event::FetchReset => {}
            Event::Scan { .. } => return Some(e),
            _ => return None,
        }
    }
    None
}
