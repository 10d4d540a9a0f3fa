use base_types::NoMemory;
use std::alloc::Global;

// Where a token of a line stands.
#[derive(Clone, Copy, Debug)]
pub(crate) struct Span {
    pub(crate) start: usize,
    pub(crate) end: usize,
}

// The text of a token.
pub(crate) fn text_at(line: &[u8], span: Span) -> &[u8] {
    line.get(span.start..span.end).unwrap_or(&[])
}

// Whether a token is this word, or this mark.
pub(crate) fn is(token: &[u8], word: &str) -> bool {
    token == word.as_bytes()
}

// Whether a comment begins with this token, in a script or in another language.
pub(crate) fn begins_comment(token: &[u8]) -> bool {
    token.starts_with(b"--")
        || token.starts_with(b"#")
        || token.starts_with(b"//")
        || is(token, "/")
}

// The tokens of a line: words, and each of `( ) , = : * ;` by itself.
pub(crate) fn tokens_of(alloc: Global, line: &[u8]) -> Result<Vec<Span>, NoMemory> {
    let mut spans = Vec::new(alloc);
    let mut word: Option<usize> = None;
    for (at, byte) in line.iter().enumerate() {
        if !is_blank(*byte) && !is_mark(*byte) {
            word = Some(word.unwrap_or(at));
            continue;
        }
        if let Some(start) = word {
            spans.push(Span { start, end: at })?;
        }
        word = None;
        if is_mark(*byte) {
            spans.push(mark_at(at))?;
        }
    }
    if let Some(start) = word {
        let end = line.len();
        spans.push(Span { start, end })?;
    }
    Ok(spans)
}

fn mark_at(at: usize) -> Span {
    Span {
        start: at,
        end: at.saturating_add(1),
    }
}

fn is_blank(byte: u8) -> bool {
    byte == b' ' || byte == b'\t'
}

fn is_mark(byte: u8) -> bool {
    matches!(byte, b'(' | b')' | b',' | b'=' | b':' | b'*' | b';')
}
