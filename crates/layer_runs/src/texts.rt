//! What the scripts of `bench` measure of texts, from standard input: a script read and written back (`script`),
//! the lines of a history read (`read`), and read and written back (`copy`); a script walked, and no text
//! written of it (`walk`). It fails where a text, memory or the outside does.

use crate::MOST_INPUT;
use edge_io::{Sink, StdSink, StdSource, read_all, send};
use event_kinds::{Entry, read_entry};
use out_text::put_output;
use script_text::{Rest, read_script, write_script};
use std::alloc::Global;
use walk_run::walk;

/// What is done with standard input.
#[derive(Clone, Copy)]
pub(crate) enum Task {
    Script,
    Read,
    Copy,
    Walk,
}

impl Task {
    /// The task that an argument names.
    pub fn named(word: &str) -> Option<Task> {
        match word {
            "script" => Some(Task::Script),
            "read" => Some(Task::Read),
            "copy" => Some(Task::Copy),
            "walk" => Some(Task::Walk),
            _ => None,
        }
    }
}

/// Does a task with standard input.
pub(crate) fn run<R: Input + Print>(rt: &R, alloc: Global, task: Task) -> Option<()> {
    let mut source = StdSource::new(rt.reader());
    let mut sink = StdSink::new(std::io::writer(rt));
    let input = read_all(alloc, &mut source, MOST_INPUT).ok()?;
    match task {
        Task::Script => copy_script(alloc, &input, &mut sink),
        Task::Read => read_entries(alloc, &input).map(|_| ()),
        Task::Copy => put_output(&mut sink, &read_entries(alloc, &input)?, &[]).ok(),
        Task::Walk => walk_script(alloc, &input),
    }
}

// Reads a script and writes it back.
fn copy_script<K: Sink>(alloc: Global, input: &[u8], sink: &mut K) -> Option<()> {
    if input.len() > MOST_INPUT {
        return None;
    }
    let read = read_script(alloc, input, Rest::Refused).ok()?;
    send(sink, &write_script(alloc, &read.script).ok()?).ok()
}

// Reads a script and walks it.
fn walk_script(alloc: Global, input: &[u8]) -> Option<()> {
    if input.len() > MOST_INPUT {
        return None;
    }
    let read = read_script(alloc, input, Rest::Refused).ok()?;
    walk(alloc, &read.script).ok().map(|_| ())
}

// Reads the entries of a history's lines.
fn read_entries(alloc: Global, input: &[u8]) -> Option<Vec<Entry>> {
    let mut history = Vec::new(alloc);
    for line in input.split(|byte| *byte == b'\n') {
        if !line.is_empty() {
            history.push(read_entry(alloc, line).ok()?).ok()?;
        }
    }
    Some(history)
}
