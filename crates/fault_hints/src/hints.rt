use crate::bytes::byte_hint;
use crate::commands::command_hint;
use crate::counts::count_hint;
use crate::lines::line_at;
use crate::rings::ring_hint;
use crate::tool_lines::{after_end_hint, backend_hint, first_hint, steps_hint};
use base_types::NoMemory;
use script_text::ScriptCause;
use std::alloc::Global;

/// What to say of a faulty line in place of its cause's sentence: the cause's name, and where the
/// line goes wrong. `None` where the sentence says all.
///
/// - `BadCommand`: after which words no form of a command goes on, what could stand there, and what
///   stands there; with the word that is near, or the reason, where one is known.
/// - `BadByte`: the byte, and its column from 1.
/// - `BadRing`: whether its place, its size, its first number or its form is wrong.
/// - `NoBackends`, `AfterEnd`: that a comment isn't one here, where it is one of another language.
/// - `BadCount`, `BadSteps`: what comes where the line goes wrong, with its limits, and what was found.
/// - `UnknownBackend`: how many backends there are, and what was found; or what the line is in place of a command's.
/// - `BadSteps`, and that too: which tool reads a line of this form, where one does.
///
/// `text` is the script, and `line` the line's number, from 1. `Err` where out of memory.
pub fn hint(
    alloc: Global,
    text: &[u8],
    line: u32,
    cause: ScriptCause,
) -> Result<Option<String>, NoMemory> {
    match cause {
        ScriptCause::BadCommand => command_hint(alloc, line_at(text, line)),
        ScriptCause::BadByte => byte_hint(alloc, line_at(text, line)),
        ScriptCause::NoBackends => first_hint(alloc, line_at(text, line)),
        ScriptCause::BadCount => count_hint(alloc, line_at(text, line)),
        ScriptCause::BadSteps => steps_hint(alloc, text, line_at(text, line)),
        ScriptCause::UnknownBackend => backend_hint(alloc, text, line_at(text, line)),
        ScriptCause::BadRing => ring_hint(alloc, text, line, line_at(text, line)),
        ScriptCause::AfterEnd => after_end_hint(alloc, line_at(text, line)),
        _ => Ok(None),
    }
}
