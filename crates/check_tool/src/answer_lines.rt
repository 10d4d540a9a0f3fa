ghost use Rattle.std.specs.Prelude.{◌≡◌, ◌++◌, true, ℕ, List, All, IfSome, codes, MatchOption};
ghost use Rattle.std.specs.Bool.{Decides};
ghost use Rattle.event_kinds.specs.Entries.{IsLine};
ghost use Rattle.event_kinds.specs.Texts.{line_text, lines_text, ended};

use base_types::LineBuffer;
use event_kinds::{Line, push_line_head};

// Whether the bytes are these answer lines and the line `end`.
pub(crate) fn are_lines(bytes: &[u8], lines: &[Line]) -> bool
    ensures same { Decides result (bytes.now ≡ lines_text lines.now ++ codes "end\n") }
    ensures typed { result ≡ true → All IsLine lines.now }
{
    let mut left = bytes;
    for line in lines {
        let Some(rest) = after_line(left, line) else {
            return false;
        };
        left = rest;
    }
    left == b"end\n".as_slice()
}

/// What comes after an answer line, where the bytes begin with it and its line's end.
pub fn after_line<'a>(bytes: &'a [u8], line: &Line) -> Option<&'a [u8]>
    ensures rest { MatchOption result ((rest : List ℕ) → bytes.now ≡ ended (line_text line.now) ++ rest → ⊥) (λ rest. bytes.now ≡ ended (line_text line.now) ++ rest.now) }
    ensures typed { IfSome result (λ rest. IsLine line.now) }
{
    let mut head = LineBuffer::new();
    push_line_head(&mut head, line);
    let text = after(bytes, head.as_bytes())?;
    let end = after(text, line.text.as_bytes())?;
    after(end, b"\n")
}

// What comes after a text, where the bytes begin with it.
fn after<'a>(bytes: &'a [u8], text: &[u8]) -> Option<&'a [u8]>
    ensures { MatchOption result ((rest : List ℕ) → bytes.now ≡ text.now ++ rest → ⊥) (λ rest. bytes.now ≡ text.now ++ rest.now) }
{
    bytes.strip_prefix(text)
}
