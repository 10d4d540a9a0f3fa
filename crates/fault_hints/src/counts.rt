use crate::commands::push_before;
use crate::lines::{push_ascii, token_of};
use crate::numbers::{is_within, push_found, push_found_number};
use crate::tokens::{Span, is, text_at, tokens_of};
use base_types::NoMemory;
use std::alloc::Global;
use std::fmt::Write;

// The most backends and steps of a script.
const MOST_BACKENDS: u64 = 64;

const MOST_STEPS: u64 = 1_000_000;

// What is wrong in a `backends` line: the number, or what follows it.
pub(crate) fn count_hint(alloc: Global, line: &[u8]) -> Result<Option<String>, NoMemory> {
    let spans = tokens_of(alloc, line)?;
    let count = token_of(line, &spans, 1);
    let mut text = String::from_str(alloc, "BadCount: after \"backends")?;
    if is_within(count, MOST_BACKENDS) {
        text.push_str(" ")?;
        push_ascii(&mut text, count)?;
        text.push_str("\" comes the end of the line")?;
        push_found(&mut text, token_of(line, &spans, 2))?;
    } else {
        write!(text, "\" comes a number from 1 to {MOST_BACKENDS}")?;
        push_found_number(&mut text, count)?;
    }
    Ok(Some(text))
}

// What comes next in a line of steps.
#[derive(Clone, Copy, Debug)]
enum Next {
    // A backend, and nothing else: after the line's word.
    Backend,
    // An asterisk, a backend or the end: after a backend.
    Times,
    // After an asterisk.
    Count,
    // A backend or the end: after a count.
    More,
}

// What is wrong in a line of steps of a script with so many backends; `None` where nothing is.
pub(crate) fn items_hint(
    alloc: Global,
    line: &[u8],
    backends: u64,
) -> Result<Option<String>, NoMemory> {
    let spans = tokens_of(alloc, line)?;
    let mut next = Next::Backend;
    let mut count = 1usize;
    for span in spans.get(1..).unwrap_or(&[]) {
        match next_after(next, text_at(line, *span), backends) {
            Some(further) => next = further,
            None => return Ok(Some(wrong_item(alloc, line, &spans, count, next, backends)?)),
        }
        count = count.saturating_add(1);
    }
    match next {
        Next::Backend | Next::Count => {
            Ok(Some(wrong_item(alloc, line, &spans, count, next, backends)?))
        }
        Next::Times | Next::More => Ok(None),
    }
}

// What comes after one more token, if it may come there.
fn next_after(next: Next, token: &[u8], backends: u64) -> Option<Next> {
    match next {
        Next::Count => is_within(token, MOST_STEPS).then_some(Next::More),
        Next::Times if is(token, "*") => Some(Next::Count),
        _ => is_within(token, backends).then_some(Next::Times),
    }
}

// What should come after so many tokens, and what does.
fn wrong_item(
    alloc: Global,
    line: &[u8],
    spans: &[Span],
    count: usize,
    next: Next,
    backends: u64,
) -> Result<String, NoMemory> {
    let mut text = String::from_str(alloc, "BadSteps: ")?;
    push_before(&mut text, line, spans, count)?;
    match next {
        Next::Count => write!(text, "a number from 1 to {MOST_STEPS}")?,
        Next::Backend => write!(text, "a backend from 1 to {backends}")?,
        Next::Times => write!(
            text,
            "\"*\", a backend from 1 to {backends}, the end of the line"
        )?,
        Next::More => write!(text, "a backend from 1 to {backends}, the end of the line")?,
    }
    push_found_number(&mut text, token_of(line, spans, count))?;
    Ok(text)
}
