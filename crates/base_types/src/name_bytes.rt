ghost use Rattle.std.specs.Prelude.{◌≡◌, ◌<◌, IfSome, length};
ghost use Rattle.base_types.specs.ByteKinds.{is_byte_of};
ghost use Rattle.base_types.specs.Names.{is_name_byte as byte_of_name, is_word_byte as byte_of_word, is_text_byte as byte_of_text, bad_byte as fault_at, name_fault as fault_of_name, short_fault as fault_of_short, first_refused};

use crate::{LONGEST_TEXT, NameFault, is_digit};

// Which bytes a short text may have.
#[derive(Clone, Copy)]
pub(crate) enum ByteKind {
    Name,
    Word,
    Text,
}

// The first fault of a name.
pub(crate) fn name_fault(text: &[u8]) -> Option<NameFault>
    ensures { result ≡ fault_of_name text.now }
{
    if text.is_empty() {
        return Some(NameFault::Empty);
    }
    if text.len() > LONGEST_TEXT {
        return Some(NameFault::TooLong);
    }
    if is_digit(text[0]) {
        return Some(NameFault::BadByte { at: 0 });
    }
    bad_byte(refused(ByteKind::Name, text))
}

// The first fault of a word or of a check's text.
pub(crate) fn short_fault(kind: ByteKind, text: &[u8]) -> Option<NameFault>
    ensures { result ≡ fault_of_short (is_byte_of kind) text.now }
{
    if text.is_empty() {
        return Some(NameFault::Empty);
    }
    if text.len() > LONGEST_TEXT {
        return Some(NameFault::TooLong);
    }
    bad_byte(refused(kind, text))
}

// The first byte that isn't of this kind.
fn refused(kind: ByteKind, text: &[u8]) -> Option<usize>
    ensures place { result ≡ first_refused (is_byte_of kind) text.now }
    ensures within { IfSome result (λ place. place < length text.now) }
{
    text.iter().position(|byte| !is_of(kind, *byte))
}

// Whether a byte is of this kind.
fn is_of(kind: ByteKind, byte: u8) -> bool
    ensures { result ≡ is_byte_of kind byte }
{
    match kind {
        ByteKind::Name => is_name_byte(byte),
        ByteKind::Word => is_word_byte(byte),
        ByteKind::Text => is_text_byte(byte),
    }
}

// The fault of a byte at a place below 64.
fn bad_byte(at: Option<usize>) -> Option<NameFault>
    requires { IfSome at (λ place. place < 64) }
    ensures { result ≡ fault_at at }
{
    let at = at? as u32;
    Some(NameFault::BadByte { at })
}

fn is_name_byte(byte: u8) -> bool
    ensures { result ≡ byte_of_name byte }
{
    byte.is_ascii_lowercase() || is_digit(byte) || byte == b'_'
}

fn is_word_byte(byte: u8) -> bool
    ensures { result ≡ byte_of_word byte }
{
    is_name_byte(byte) || byte == b'-'
}

fn is_text_byte(byte: u8) -> bool
    ensures { result ≡ byte_of_text byte }
{
    is_word_byte(byte) || matches!(byte, b'<'..=b'>' | b'*'..=b'+')
}
