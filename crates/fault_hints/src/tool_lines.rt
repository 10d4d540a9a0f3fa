use crate::counts::items_hint;
use crate::lines::{bare, push_ascii, push_quoted, token_of};
use crate::numbers::number_of;
use crate::tokens::{Span, begins_comment, is, text_at, tokens_of};
use base_types::NoMemory;
use std::alloc::Global;

// How much of a token is shown.
const MOST_SHOWN: usize = 60;

// What is said of a faulty line of steps: that only the tools read a line of its form, or where it goes wrong.
pub(crate) fn steps_hint(
    alloc: Global,
    script: &[u8],
    line: &[u8],
) -> Result<Option<String>, NoMemory> {
    let mut small = line.to_vec(alloc)?;
    small.make_ascii_lowercase();
    for span in tokens_of(alloc, &small)? {
        if is(text_at(&small, span), "to") {
            return said(
                alloc,
                "BadSteps: 'B to ..' is read by the tools alone: tools/schedule < SCRIPT | ./catsync walk",
            );
        }
    }
    let count = backends_of(alloc, script)?;
    items_hint(alloc, line, number_of(&count, 9).unwrap_or(0))
}

// What is said of a line in the place of the one of backends, where it is a comment that the tools read; `None` of any other.
pub(crate) fn first_hint(alloc: Global, line: &[u8]) -> Result<Option<String>, NoMemory> {
    let spans = tokens_of(alloc, line)?;
    if is(token_of(line, &spans, 0), "/") && is(token_of(line, &spans, 1), "*") {
        return said(
            alloc,
            "NoBackends: a comment is a line that begins with --; the tools alone read /* .. */: tools/schedule < SCRIPT | ./catsync walk",
        );
    }
    if is_comment(token_of(line, &spans, 0)) {
        return said(alloc, "NoBackends: a comment is a line that begins with --");
    }
    Ok(None)
}

// What is said of a line after the last one, where it is a comment of another language.
pub(crate) fn after_end_hint(alloc: Global, line: &[u8]) -> Result<Option<String>, NoMemory> {
    let spans = tokens_of(alloc, line)?;
    if is_comment(token_of(line, &spans, 0)) {
        return said(alloc, "AfterEnd: a comment is a line that begins with --");
    }
    Ok(None)
}

// The same of a line that begins with no backend of the script, which the text of the script tells.
pub(crate) fn backend_hint(
    alloc: Global,
    script: &[u8],
    line: &[u8],
) -> Result<Option<String>, NoMemory> {
    let mut small = line.to_vec(alloc)?;
    small.make_ascii_lowercase();
    let spans = tokens_of(alloc, &small)?;
    let first = token_of(&small, &spans, 0);
    let second = token_of(&small, &spans, 1);
    match of_tools(first).or(of_words(first, second)) {
        Some(text) => said(alloc, text),
        None => found_hint(alloc, script, line, &spans),
    }
}

// A line that the tools read.
fn of_tools(first: &[u8]) -> Option<&'static str> {
    if is(first, "setup") {
        return Some(
            "UnknownBackend: a 'setup' line is read by the tools alone: tools/schedule < SCRIPT | ./catsync walk",
        );
    }
    if is(first, "expect") {
        return Some(
            "UnknownBackend: an 'expect' line is read by the tools alone: tools/expect SCRIPT",
        );
    }
    None
}

// A line of a form that comes elsewhere, or a comment of another language.
fn of_words(first: &[u8], second: &[u8]) -> Option<&'static str> {
    if is(first, "end") {
        return Some("UnknownBackend: the line 'end' has that word alone, without a semicolon");
    }
    if is(first, "backends") {
        return Some("UnknownBackend: a script has one 'backends' line");
    }
    if is(first, "/") && is(second, "*") {
        return Some(
            "UnknownBackend: a comment is a line that begins with --; the tools alone read /* .. */: tools/schedule < SCRIPT | ./catsync walk",
        );
    }
    is_comment(first).then_some("UnknownBackend: a comment is a line that begins with --")
}

// Whether a line that begins so is a comment of another language.
fn is_comment(first: &[u8]) -> bool {
    begins_comment(first) || is(first, "*") || is(first, ";")
}

// What a command's line begins with, and what this one does.
fn found_hint(
    alloc: Global,
    script: &[u8],
    line: &[u8],
    spans: &[Span],
) -> Result<Option<String>, NoMemory> {
    let first = token_of(line, spans, 0);
    let count = backends_of(alloc, script)?;
    let mut text = String::from_str(
        alloc,
        "UnknownBackend: a command line begins with a backend",
    )?;
    if is(&count, "1") {
        text.push_str(", which is 1,")?;
    } else if !count.is_empty() {
        text.push_str(" from 1 to ")?;
        push_ascii(&mut text, &count)?;
    }
    text.push_str(" and a colon; found ")?;
    push_quoted(&mut text, first.get(..MOST_SHOWN).unwrap_or(first))?;
    let is_number = first.iter().all(|byte| byte.is_ascii_digit());
    if is_number && !is(token_of(line, spans, 1), ":") {
        text.push_str(" without a colon")?;
    }
    Ok(Some(text))
}

// The number of backends, as the script has it; empty where no line says it.
fn backends_of(alloc: Global, script: &[u8]) -> Result<Vec<u8>, NoMemory> {
    for line in script.split_inclusive(|byte| *byte == b'\n') {
        let mut small = bare(line).to_vec(alloc)?;
        small.make_ascii_lowercase();
        let spans = tokens_of(alloc, &small)?;
        if is(token_of(&small, &spans, 0), "backends") {
            return Ok(token_of(&small, &spans, 1).to_vec(alloc)?);
        }
    }
    Ok(Vec::new(alloc))
}

fn said(alloc: Global, text: &str) -> Result<Option<String>, NoMemory> {
    Ok(Some(String::from_str(alloc, text)?))
}
