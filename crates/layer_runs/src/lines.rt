//! Asks `history_lines` how much of a history each script allows, whoever made it, and what the backends
//! answer by that: `tests/lines_agree.py` compares this with a second reading of the rules, `bench/lines.sh` measures it.
//!
//! Standard input has cases, one after another: a script with its `end` line, and then the lines of an output
//! until one more `end` line. The entries of the output are the lines from the first on that are texts of
//! entries; what follows them is passed over.
//!
//! Each case is answered by `N of M entries`, where M is the number of the entries and N that of the longest
//! prefix of them that the script allows, and by the answer lines of the commands that these N finish; or by
//! `N/A of M entries` where memory is short, or a number can't be counted.
//!
//! With `count` the answer lines are left out, with `read` nothing is asked: a case is answered by `M entries`. It fails
//! where a text, memory or the outside does.

use crate::MOST_INPUT;
use edge_io::{StdSink, StdSource, read_all};
use event_kinds::{Entry, read_entry};
use history_lines::lines;
use out_text::put_line;
use script_text::{Rest, Script, read_script};
use std::alloc::Global;

// The most bytes of a script's text.
const MOST_SCRIPT: usize = 1_048_576;

/// What is asked of each case.
#[derive(Clone, Copy)]
pub(crate) enum Task {
    Answers,
    Count,
    Read,
}

impl Task {
    /// The task that an argument names.
    pub fn named(word: &str) -> Option<Task> {
        match word {
            "answers" => Some(Task::Answers),
            "count" => Some(Task::Count),
            "read" => Some(Task::Read),
            _ => None,
        }
    }
}

/// Answers the cases of standard input.
pub(crate) fn run<R: Input + Print>(rt: &R, alloc: Global, task: Task) -> Option<()> {
    let mut source = StdSource::new(rt.reader());
    let input = read_all(alloc, &mut source, MOST_INPUT).ok()?;
    let mut case = Case::new(alloc);
    for line in input.split(|byte| *byte == b'\n') {
        case.take(rt, alloc, task, line)?;
    }
    Some(())
}

// How far a case is: its script, its entries, and whether these are over.
#[derive(Drop)]
struct Case {
    text: Vec<u8>,
    script: Option<Script>,
    entries: Vec<Entry>,
    is_over: bool,
}

impl Case {
    // Before its first line.
    fn new(alloc: Global) -> Case {
        Case {
            text: Vec::new(alloc),
            script: None,
            entries: Vec::new(alloc),
            is_over: false,
        }
    }

    // Takes the next line, and answers the case at its end; none where a text, memory or the outside fails.
    fn take<R: Print>(&mut self, rt: &R, alloc: Global, task: Task, line: &[u8]) -> Option<()> {
        match &self.script {
            None => self.take_script(alloc, line),
            Some(script) => {
                if line == b"end".as_slice() {
                    answer(rt, alloc, task, script, &self.entries)?;
                    *self = Case::new(alloc);
                    Some(())
                } else {
                    self.take_entry(alloc, line)
                }
            }
        }
    }

    // Takes a line of its script.
    fn take_script(&mut self, alloc: Global, line: &[u8]) -> Option<()> {
        self.text.extend_from_slice(line).ok()?;
        self.text.push(b'\n').ok()?;
        if line == b"end".as_slice() {
            if self.text.len() > MOST_SCRIPT {
                return None;
            }
            let script = read_script(alloc, &self.text, Rest::Refused).ok()?.script;
            self.script = Some(script);
        }
        Some(())
    }

    // Takes a line of its output.
    fn take_entry(&mut self, alloc: Global, line: &[u8]) -> Option<()> {
        if !self.is_over {
            match read_entry(alloc, line) {
                Ok(entry) => self.entries.push(entry).ok()?,
                Err(_) => self.is_over = true,
            }
        }
        Some(())
    }
}

// Prints what is wanted of a script and entries.
fn answer<R: Print>(
    rt: &R,
    alloc: Global,
    task: Task,
    script: &Script,
    entries: &[Entry],
) -> Option<()> {
    let count = entries.len();
    if matches!(task, Task::Read) {
        return println!(rt; "{count} entries").ok();
    }
    let Ok(answered) = lines(alloc, script, entries) else {
        return println!(rt; "N/A of {count} entries").ok();
    };
    println!(rt; "{} of {count} entries", answered.entries).ok()?;
    if matches!(task, Task::Answers) {
        let mut sink = StdSink::new(std::io::writer(rt));
        for line in answered.lines.as_slice() {
            put_line(&mut sink, line).ok()?;
        }
    }
    Some(())
}
