use crate::forms::FORMS;
use crate::symbols::Symbol;
use crate::tokens::{Span, is, text_at};
use base_types::NoMemory;
use std::alloc::Global;

// How far a line follows a form: by so many tokens, which come to this place of the form.
#[derive(Clone, Copy, Debug)]
struct Reach {
    count: usize,
    at: usize,
}

// By how many tokens the line follows the form that goes furthest.
pub(crate) fn most_taken(line: &[u8], spans: &[Span]) -> usize {
    let mut most = 0;
    for &form in FORMS {
        most = most.max(reach_of(form, line, spans).count);
    }
    most
}

// What could stand after so many tokens, by all forms that the line follows so far, each once.
pub(crate) fn wanted_after(
    alloc: Global,
    line: &[u8],
    spans: &[Span],
    count: usize,
) -> Result<Vec<Symbol>, NoMemory> {
    let mut wanted = Vec::new(alloc);
    for &form in FORMS {
        let reach = reach_of(form, line, spans);
        if reach.count == count {
            put(&mut wanted, symbol_at(form, reach.at))?;
            if matches!(symbol_at(form, reach.at), Symbol::More(_)) {
                put(&mut wanted, Symbol::Word(")"))?;
            }
        }
    }
    Ok(wanted)
}

// Puts a symbol to the end, unless one that is called so is there.
fn put(wanted: &mut Vec<Symbol>, symbol: Symbol) -> Result<(), NoMemory> {
    if !wanted.iter().any(|other| other.is_same(symbol)) {
        wanted.push(symbol)?;
    }
    Ok(())
}

fn reach_of(form: &'static str, line: &[u8], spans: &[Span]) -> Reach {
    let mut reach = Reach { count: 0, at: 0 };
    for span in spans {
        match place_after(form, reach.at, text_at(line, *span)) {
            Some(at) => {
                reach = Reach {
                    count: reach.count.saturating_add(1),
                    at,
                }
            }
            None => return reach,
        }
    }
    reach
}

// The place of the form to which a token leads.
fn place_after(form: &'static str, at: usize, token: &[u8]) -> Option<usize> {
    let next = at.saturating_add(1);
    match symbol_at(form, at) {
        Symbol::More(back) if is(token, ",") => Some(at.saturating_sub(back)),
        Symbol::Rest if is(token, ")") => Some(next.saturating_add(1)),
        Symbol::Rest => Some(at),
        symbol => symbol.takes(token).then_some(next),
    }
}

// What stands at a place of the form.
fn symbol_at(form: &'static str, at: usize) -> Symbol {
    match form.split_whitespace().nth(at) {
        Some(word) => Symbol::of(word),
        None => Symbol::End,
    }
}
