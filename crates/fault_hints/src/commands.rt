use crate::following::{most_taken, wanted_after};
use crate::lines::{command_of, push_ascii, push_quoted, token_of};
use crate::near::is_near;
use crate::server_words::{of_column_alone, of_server};
use crate::symbols::{FIELDS, INDEX_FIELDS, Symbol, TABLE_FIELDS, TYPES, is_wanted};
use crate::tokens::{Span, begins_comment, is, text_at, tokens_of};
use base_types::{Name, NameFault, NoMemory};
use std::alloc::Global;

// How much of a line is shown.
const MOST_SHOWN: usize = 60;

// What is wrong in a line that has none of the forms of a command; `None` where no word is.
pub(crate) fn command_hint(alloc: Global, line: &[u8]) -> Result<Option<String>, NoMemory> {
    let command = command_of(line);
    let mut small = command.to_vec(alloc)?;
    small.make_ascii_lowercase();
    let spans = tokens_of(alloc, command)?;
    let spans = without_semicolon(command, &spans);
    let count = most_taken(&small, spans);
    let wanted = wanted_after(alloc, &small, spans, count)?;
    if count >= spans.len() && wanted.iter().any(|symbol| matches!(symbol, Symbol::End)) {
        return Ok(None);
    }
    let mut text = String::from_str(alloc, "BadCommand: ")?;
    push_before(&mut text, command, spans, count)?;
    push_wanted(&mut text, &wanted)?;
    push_found(&mut text, token_of(command, spans, count))?;
    push_help(&mut text, &small, spans, count, &wanted)?;
    Ok(Some(text))
}

// Without the one semicolon at the end that a command may have.
fn without_semicolon<'a>(line: &[u8], spans: &'a [Span]) -> &'a [Span] {
    match spans {
        [front @ .., last] if is(text_at(line, *last), ";") => front,
        _ => spans,
    }
}

// What the line has up to the fault; only the end of it where that is long.
pub(crate) fn push_before(
    text: &mut String,
    command: &[u8],
    spans: &[Span],
    count: usize,
) -> Result<(), NoMemory> {
    let taken = spans.get(..count).unwrap_or(&[]);
    let (Some(first), Some(last)) = (taken.first(), taken.last()) else {
        text.push_str("a command begins with ")?;
        return Ok(());
    };
    let least = last.end.saturating_sub(MOST_SHOWN);
    let start = taken
        .iter()
        .map(|span| span.start)
        .find(|start| *start >= least)
        .unwrap_or(last.start);
    text.push_str("after \"")?;
    if start > first.start {
        text.push_str(".. ")?;
    }
    push_ascii(
        text,
        text_at(
            command,
            Span {
                start,
                end: last.end,
            },
        ),
    )?;
    text.push_str("\" comes ")?;
    Ok(())
}

fn push_wanted(text: &mut String, wanted: &[Symbol]) -> Result<(), NoMemory> {
    for (i, symbol) in wanted.iter().enumerate() {
        if i > 0 {
            text.push_str(", ")?;
        }
        if symbol.is_literal() {
            push_quoted(text, symbol.text().as_bytes())?;
        } else {
            text.push_str(symbol.text())?;
        }
    }
    Ok(())
}

fn push_found(text: &mut String, found: &[u8]) -> Result<(), NoMemory> {
    text.push_str("; found ")?;
    if found.is_empty() {
        text.push_str(Symbol::End.text())?;
        return Ok(());
    }
    match found.get(..MOST_SHOWN) {
        Some(front) => {
            push_quoted(text, front)?;
            text.push_str(" ..")?;
        }
        None => push_quoted(text, found)?,
    }
    Ok(())
}

// The word that was meant, or why the word can't be what is wanted, or which words could stand there.
fn push_help(
    text: &mut String,
    line: &[u8],
    spans: &[Span],
    count: usize,
    wanted: &[Symbol],
) -> Result<(), NoMemory> {
    let found = token_of(line, spans, count);
    let last = token_of(line, spans, count.saturating_sub(1));
    let next = token_of(line, spans, count.saturating_add(1));
    if let Some(why) = of_column_alone(last, next, wanted) {
        text.push_str(why)?;
    } else if let Some(word) = near_word(found, wanted) {
        push_near(text, word, wanted)?;
    } else if found.starts_with(b"--") {
        text.push_str(" (a comment has a line of its own)")?;
    } else if begins_comment(found) {
        text.push_str(" (a comment has a line of its own, which begins with --)")?;
    } else if let Some(why) = of_server(found, last, next, wanted) {
        text.push_str(why)?;
    } else if is_wanted(wanted, Symbol::Type) {
        push_words(text, " (types:", &TYPES)?;
        text.push_str(")")?;
    } else if is_wanted(wanted, Symbol::Field) && !found.is_empty() && !is_mark(found) {
        push_fields(text, " (")?;
    } else if let Some(why) = why_not(found, wanted) {
        text.push_str(why)?;
    }
    Ok(())
}

// The word that is near; of a field all of them.
fn push_near(text: &mut String, word: &str, wanted: &[Symbol]) -> Result<(), NoMemory> {
    text.push_str(" (near \"")?;
    text.push_str(word)?;
    text.push_str("\"")?;
    if is_wanted(wanted, Symbol::Field) {
        return push_fields(text, "; ");
    }
    text.push_str(")")?;
    Ok(())
}

// The fields of tables and indexes, up to the closing parenthesis.
fn push_fields(text: &mut String, head: &str) -> Result<(), NoMemory> {
    text.push_str(head)?;
    push_words(text, "fields of a table:", &TABLE_FIELDS)?;
    push_words(text, "; of an index:", &INDEX_FIELDS)?;
    text.push_str(")")?;
    Ok(())
}

fn push_words(text: &mut String, head: &str, words: &[&'static str]) -> Result<(), NoMemory> {
    text.push_str(head)?;
    for word in words {
        text.push_str(" ")?;
        text.push_str(word)?;
    }
    Ok(())
}

// The first of the words that could stand there that is near.
fn near_word(found: &[u8], wanted: &[Symbol]) -> Option<&'static str> {
    for symbol in wanted {
        let near = match symbol {
            Symbol::Word(word) => first_near(found, &[*word]),
            Symbol::Type => first_near(found, &TYPES),
            Symbol::Field => first_near(found, &FIELDS),
            _ => None,
        };
        if near.is_some() {
            return near;
        }
    }
    None
}

fn first_near(found: &[u8], words: &[&'static str]) -> Option<&'static str> {
    for word in words {
        if is_near(found, word.as_bytes()) {
            return Some(*word);
        }
    }
    None
}

// Whether a token is one of the marks, which stand by themselves.
fn is_mark(found: &[u8]) -> bool {
    matches!(found, [b'(' | b')' | b',' | b'=' | b':' | b'*' | b';'])
}

// Why a word is no name, no statistics target, or no number, where one is wanted.
fn why_not(found: &[u8], wanted: &[Symbol]) -> Option<&'static str> {
    if is_wanted(wanted, Symbol::Name) {
        return match Name::new(found) {
            Err(NameFault::TooLong) => Some(" (a name has at most 63 bytes)"),
            Err(NameFault::BadByte { at: 0 }) if found.first().is_some_and(u8::is_ascii_digit) => {
                Some(" (a name doesn't begin with a digit)")
            }
            Err(NameFault::BadByte { .. }) if !is_mark(found) => Some(
                " (a name has letters, digits and _ alone)",
            ),
            _ => None,
        };
    }
    if is_wanted(wanted, Symbol::Value) && !found.is_empty() && !is_mark(found) {
        return Some(" (a value has letters, digits, _ and - alone)");
    }
    if is_wanted(wanted, Symbol::Target) && !found.is_empty() {
        return Some(" (a statistics target is from -1 to 10000, and has at most nine digits)");
    }
    let is_number = found.iter().all(|byte| byte.is_ascii_digit());
    if is_wanted(wanted, Symbol::Number) && is_number && found.len() > 9 {
        return Some(" (a number has at most nine digits)");
    }
    None
}
