use crate::answers::wrong_line;
use crate::coming::{Coming, entries_to_come};
use crate::few::{Place, few_that_may_come};
use crate::nexts::push_next;
use crate::reasons::{Case, push_needless_too, reason};
use base_types::NoMemory;
use check_tool::{CheckKind, leading_entries, reached_prefix};
use event_kinds::Entry;
use script_text::{Rest, Script, ScriptFault, read_script};
use std::alloc::Global;
use std::fmt::Write;

// The most bytes that a script is read of.
const MOST_READ: usize = 4_294_967_294;

// How much of a line is shown.
pub(crate) const MOST_SHOWN: usize = 200;

/// Where and why the output that the input has after its script isn't one of `walk` or of `run` for it: at the entry that
/// the checker names, or at the line after all entries. `None` where the input isn't one that is checked.
pub fn difference(
    alloc: Global,
    kind: CheckKind,
    input: &[u8],
) -> Result<Option<String>, NoMemory> {
    if input.len() > MOST_READ {
        return Ok(None);
    }
    let read = match read_script(alloc, input, Rest::Given) {
        Ok(read) => read,
        Err(ScriptFault::NoMemory) => return Err(NoMemory),
        Err(_) => return Ok(None),
    };
    let checked = Checked {
        kind,
        script: &read.script,
        text: input.get(..read.rest_at).unwrap_or(&[]),
        output: input.get(read.rest_at..).unwrap_or(&[]),
    };
    Ok(Some(of_output(alloc, &checked)?))
}

// What is checked: the script, its text, and what follows that.
#[derive(Clone, Copy)]
struct Checked<'a> {
    kind: CheckKind,
    script: &'a Script,
    text: &'a [u8],
    output: &'a [u8],
}

// The same of a script and an output.
fn of_output(alloc: Global, checked: &Checked) -> Result<String, NoMemory> {
    let leading = leading_entries(alloc, checked.output)?;
    let entries = leading.entries.as_slice();
    let reached = reached_prefix(alloc, checked.script, checked.kind, entries)?;
    let rest = checked.output.get(leading.size..).unwrap_or(&[]);
    let before = entries.get(..reached.entries).unwrap_or(entries);
    match (entries.get(reached.entries), reached.due) {
        (Some(e), due) => {
            let mut text = headed(alloc, before.len())?;
            push_line(&mut text, whole_line(checked.output, before.len()))?;
            text.push_str(": ")?;
            wrong_entry(alloc, &mut text, checked, before, e, due)?;
            Ok(text)
        }
        (None, Some(b)) => missing_entry(alloc, checked, before, b, rest),
        (None, None) => {
            let size = checked.script.size();
            wrong_line(alloc, size, entries, reached.lines.as_slice(), rest)
        },
    }
}

// That the entry after so many differs.
fn headed(alloc: Global, before: usize) -> Result<String, NoMemory> {
    let mut text = String::new(alloc);
    write!(text, "entry {} differs: ", before.saturating_add(1))?;
    Ok(text)
}

// The line of this number, from 0, with its end.
fn whole_line(text: &[u8], number: usize) -> &[u8] {
    text.split_inclusive(|byte| *byte == b'\n')
        .nth(number)
        .unwrap_or(&[])
}

// Why an entry may not be made after these, where this is the backend whose entry is due, and what comes in its place.
fn wrong_entry(
    alloc: Global,
    text: &mut String,
    checked: &Checked,
    before: &[Entry],
    e: &Entry,
    due: Option<u32>,
) -> Result<(), NoMemory> {
    let size = checked.script.size();
    let turn = match (checked.kind, due) {
        (CheckKind::Walk, None) => {
            text.push_str("no turn is left")?;
            return push_needless_too(alloc, text, size, before, e);
        }
        (CheckKind::Walk, Some(b)) => b,
        (CheckKind::Run, _) => e.backend,
    };
    let next = next_of(alloc, checked, before, turn)?;
    if turn != e.backend {
        write!(text, "it is backend {turn}'s turn")?;
        push_needless_too(alloc, text, size, before, e)?;
        return push_next(alloc, text, &next, before.len(), None, None, false);
    }
    let case = Case {
        kind: checked.kind,
        size,
        before,
        coming: &next,
    };
    reason(alloc, text, &case, e)
}

// What a walk makes after these entries, where this backend is next; and what may come there, where it makes another entry before.
fn next_of(alloc: Global, checked: &Checked, before: &[Entry], b: u32) -> Result<Coming, NoMemory> {
    let next = entries_to_come(alloc, checked.text, before, checked.output, b)?;
    if next.number > before.len() {
        return Ok(next);
    }
    let place = Place {
        kind: checked.kind,
        script: checked.script,
        output: checked.output,
        before,
        backend: b,
    };
    let few = few_that_may_come(alloc, &place, next.entries.as_slice())?;
    let Coming {
        number,
        entries,
        few: _,
    } = next;
    Ok(Coming {
        number,
        entries,
        few,
    })
}

// No entry, where one of this backend should come.
fn missing_entry(
    alloc: Global,
    checked: &Checked,
    before: &[Entry],
    b: u32,
    rest: &[u8],
) -> Result<String, NoMemory> {
    let mut text = headed(alloc, before.len())?;
    text.push_str(if rest.starts_with(b"h") {
        "this line is none, and "
    } else {
        "there is none, and "
    })?;
    match checked.kind {
        CheckKind::Walk => write!(text, "it is backend {b}'s turn: ")?,
        CheckKind::Run => write!(text, "backend {b} hasn't stopped: ")?,
    }
    if rest.is_empty() {
        text.push_str("the output ends")?;
    } else {
        push_line(&mut text, rest)?;
    }
    let next = next_of(alloc, checked, before, b)?;
    push_next(alloc, &mut text, &next, before.len(), None, None, false)?;
    Ok(text)
}

// The first line of a text, without its end.
pub(crate) fn first_line(rest: &[u8]) -> &[u8] {
    let end = rest.iter().position(|byte| *byte == b'\n');
    rest.get(..end.unwrap_or(rest.len())).unwrap_or(&[])
}

// Puts the first line of a text to the end.
pub(crate) fn push_line(text: &mut String, rest: &[u8]) -> Result<(), NoMemory> {
    let line = first_line(rest);
    push_shown(text, line)?;
    if line.len() == rest.len() {
        text.push_str(" (without a line's end)")?;
    }
    Ok(())
}

// Puts a line or a part of one to the end.
pub(crate) fn push_shown(text: &mut String, line: &[u8]) -> Result<(), NoMemory> {
    let shown = line.strip_suffix(b"\r".as_slice()).unwrap_or(line);
    for byte in shown.get(..MOST_SHOWN).unwrap_or(shown) {
        text.push(if byte.is_ascii_graphic() || *byte == b' ' {
            char::from(*byte)
        } else {
            '?'
        })?;
    }
    if shown.len() > MOST_SHOWN {
        text.push_str(" ..")?;
    }
    if shown.len() < line.len() {
        text.push_str(" (with a carriage return at its end)")?;
    }
    Ok(())
}
