ghost use Rattle.std.specs.Prelude.{◌≡◌, ◌≤◌, length, drop, IfOk, MatchOption};
ghost use Rattle.std.specs.List.{prefix_len};
ghost use Rattle.base_types.specs.Names.{in_line};
ghost use Rattle.check_tool.specs.Leading.{Leads, HasEntryFirst, HasNoEntryFirst};

use base_types::NoMemory;
use event_kinds::{Entry, EntryFault, read_entry};
use std::alloc::Global;

/// The entries that a text begins with.
#[derive(Drop)]
pub struct Leading {
    /// The entries, each on a line of its own.
    pub entries: Vec<Entry>,
    /// How many bytes their lines have.
    pub size: usize,
}

/// The entries that a text begins with, each on a line of its own. `NoMemory` comes where memory is short.
pub fn leading_entries(alloc: Global, text: &[u8]) -> Result<Leading, NoMemory>
    ensures leads { IfOk result (λ l. Leads text.now l.entries.items (drop l.size text.now)) }
    ensures within { IfOk result (λ l. l.size ≤ length text.now) }
{
    let mut entries = Vec::new(alloc);
    let mut size = 0usize;
    'lines: while size < text.len() {
        match first_entry(alloc, &text[size..])? {
            Some(first) => {
                entries.push(first.entry)?;
                size += first.size;
            }
            None => return Ok(Leading { entries, size }),
        }
    }
    Ok(Leading { entries, size })
}

// An entry, and how many bytes its line has with the line's end.
#[derive(Drop)]
struct First {
    entry: Entry,
    size: usize,
}

// The entry whose line comes first, if there is one. A line has an end.
fn first_entry(alloc: Global, text: &[u8]) -> Result<Option<First>, NoMemory>
    ensures { IfOk result (λ found. MatchOption found (HasNoEntryFirst text.now) (λ f. HasEntryFirst text.now f.entry f.size)) }
{
    let len = line_len(text);
    if len == text.len() {
        return Ok(None);
    }
    match read_entry(alloc, &text[..len]) {
        Ok(entry) => Ok(Some(First {
            entry,
            size: len + 1,
        })),
        Err(EntryFault::Bad) => Ok(None),
        Err(EntryFault::NoMemory) => Err(NoMemory),
    }
}

// The number of bytes before the first line's end.
fn line_len(text: &[u8]) -> usize
    ensures value { result ≡ prefix_len in_line text.now }
    ensures within { result ≤ length text.now }
{
    text.iter().take_while(|byte| **byte != b'\n').count()
}
