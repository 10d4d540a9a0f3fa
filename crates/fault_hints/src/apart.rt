use crate::differing::{MOST_SHOWN, first_line, push_shown};
use crate::numbers::number_of;
use crate::tokens::is;
use base_types::NoMemory;
use std::fmt::Write;

// Where two lines differ: the number of a field, from 1, and what each has from there. Where all fields of one are the other's
// first, it has nothing.
#[derive(Clone, Copy)]
struct Apart<'a> {
    number: usize,
    expected: &'a [u8],
    found: &'a [u8],
}

// Puts to the end what a line should be and is, or its first field that differs.
pub(crate) fn push_apart(text: &mut String, expected: &[u8], found: &[u8]) -> Result<(), NoMemory> {
    let (line, other) = (first_line(expected), first_line(found));
    let apart = where_apart(line, other);
    if line == other {
        text.push_str(": no line feed follows '")?;
        push_shown(text, line)?;
        text.push('\'')?;
    } else if apart.number == 1 {
        text.push(':')?;
        push_both(text, line, other)?;
    } else {
        push_field(text, &apart)?;
    }
    Ok(())
}

// Which entries the first field that differs is as of, where both have one.
pub(crate) fn places_apart(expected: &[u8], found: &[u8]) -> Option<(u64, u64)> {
    let apart = where_apart(first_line(expected), first_line(found));
    Some((place_of(apart.expected)?, place_of(apart.found)?))
}

// Which entry a field is as of, where it ends so.
fn place_of(field: &[u8]) -> Option<u64> {
    let mut before: &[u8] = &[];
    let mut place = None;
    for word in field.split(|byte| *byte == b' ') {
        place = if is(before, "of") {
            number_of(word, 9)
        } else {
            None
        };
        before = word;
    }
    place
}

// The first field in which two lines differ.
fn where_apart<'a>(expected: &'a [u8], found: &'a [u8]) -> Apart<'a> {
    let mut number = 1usize;
    let mut passed = 0usize;
    for (own, other) in expected
        .split(|byte| *byte == b';')
        .zip(found.split(|byte| *byte == b';'))
    {
        if own != other {
            return Apart {
                number,
                expected: own,
                found: other,
            };
        }
        number = number.saturating_add(1);
        passed = passed.saturating_add(own.len()).saturating_add(1);
    }
    Apart {
        number,
        expected: expected.get(passed..).unwrap_or(&[]),
        found: found.get(passed..).unwrap_or(&[]),
    }
}

// Puts to the end what a field should be and is.
fn push_field(text: &mut String, apart: &Apart) -> Result<(), NoMemory> {
    let expected = without_blank(apart.expected);
    let found = without_blank(apart.found);
    write!(text, " at field {}:", apart.number)?;
    if expected.is_empty() {
        text.push_str(" the line should end, and has '")?;
        push_shown(text, found)?;
        text.push('\'')?;
    } else if found.is_empty() {
        text.push_str(" it should be '")?;
        push_shown(text, expected)?;
        text.push_str("', and the line ends")?;
    } else {
        push_both(text, expected, found)?;
    }
    Ok(())
}

// A field without the blank before it.
fn without_blank(field: &[u8]) -> &[u8] {
    field.strip_prefix(b" ".as_slice()).unwrap_or(field)
}

// Puts to the end what should be there and what is, from the first word that differs where that is long.
fn push_both(text: &mut String, expected: &[u8], found: &[u8]) -> Result<(), NoMemory> {
    let start = word_apart(expected, found);
    text.push_str(" it should be '")?;
    push_from(text, expected, start)?;
    text.push_str("' and is '")?;
    push_from(text, found, start)?;
    text.push('\'')?;
    Ok(())
}

// Where the first word begins in which two texts differ.
fn word_apart(expected: &[u8], found: &[u8]) -> usize {
    let mut start = 0usize;
    let mut passed = 0usize;
    for (x, y) in expected.iter().zip(found.iter()) {
        if *x != *y {
            return start;
        }
        passed = passed.saturating_add(1);
        if *x == b' ' {
            start = passed;
        }
    }
    start
}

// Puts a text to the end; of a long one what stands from a place on.
fn push_from(text: &mut String, field: &[u8], start: usize) -> Result<(), NoMemory> {
    if field.len() <= MOST_SHOWN || start == 0 {
        return push_shown(text, field);
    }
    text.push_str(".. ")?;
    push_shown(text, field.get(start..).unwrap_or(&[]))
}
