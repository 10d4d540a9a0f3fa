ghost use Rattle.std.specs.Prelude.{◌≡◌, [], ◌∷◌, decimal};
ghost use Rattle.std.specs.Fmt.{signed_decimal};
ghost use Rattle.script_text.specs.Spelling.{needs_blank as gap, AddsPieces};

use base_types::{LineBuffer, Name, NoMemory};

// Adds a piece at the end of a text, with a blank where one is due.
#[tactic(auto, unfolding(crate::specs::Spelling::with_piece))]
pub(crate) fn piece(out: &mut Vec<u8>, piece: &[u8]) -> Result<(), NoMemory>
    ensures { AddsPieces out.old.items out.new.items result (piece.now ∷ []) }
{
    if needs_blank(out.as_slice(), piece) {
        out.push(b' ')?;
    }
    out.extend_from_slice(piece)?;
    Ok(())
}

// Adds words.
pub(crate) fn words(out: &mut Vec<u8>, words: &str) -> Result<(), NoMemory>
    ensures { AddsPieces out.old.items out.new.items result (words.now ∷ []) }
{
    piece(out, words.as_bytes())
}

// Adds the end of a line.
pub(crate) fn line_end(out: &mut Vec<u8>) -> Result<(), NoMemory>
    ensures { AddsPieces out.old.items out.new.items result ((10 ∷ []) ∷ []) }
{
    words(out, "\n")
}

// Adds words and a name.
pub(crate) fn named(out: &mut Vec<u8>, text: &str, name: &Name) -> Result<(), NoMemory>
    ensures { AddsPieces out.old.items out.new.items result (text.now ∷ name.now ∷ []) }
{
    words(out, text)?;
    piece(out, name.as_bytes())
}

// Adds words and a name, and further words and another name.
pub(crate) fn two_names(
    out: &mut Vec<u8>,
    text: &str,
    first: &Name,
    further: &str,
    second: &Name,
) -> Result<(), NoMemory>
    ensures { AddsPieces out.old.items out.new.items result (text.now ∷ first.now ∷ further.now ∷ second.now ∷ []) }
{
    named(out, text, first)?;
    named(out, further, second)
}

// Adds a number.
pub(crate) fn number(out: &mut Vec<u8>, number: u64) -> Result<(), NoMemory>
    ensures { AddsPieces out.old.items out.new.items result (decimal number ∷ []) }
{
    let mut line = LineBuffer::new();
    line.push_u64(number);
    piece(out, line.as_bytes())
}

// Adds a number that may be below 0.
pub(crate) fn signed(out: &mut Vec<u8>, number: i32) -> Result<(), NoMemory>
    ensures { AddsPieces out.old.items out.new.items result (signed_decimal number ∷ []) }
{
    let mut line = LineBuffer::new();
    line.push_signed(number);
    piece(out, line.as_bytes())
}

// A blank is due between a text and the piece after it.
fn needs_blank(text: &[u8], piece: &[u8]) -> bool
    ensures { result ≡ gap text.now piece.now }
{
    let last = if text.is_empty() {
        b'\n'
    } else {
        text[text.len() - 1]
    };
    let first = if piece.is_empty() { b'\n' } else { piece[0] };
    !matches!(last, b'\n' | b'(' | b'*') && !matches!(first, b'\n' | b')' | b',' | b':' | b'*')
}
