ghost use Rattle.std.specs.Prelude.{◌≡◌};
ghost use Rattle.base_types.specs.Words.{mode_word, kind_word, type_word, state_word, valid_word as word_of_valid, live_word as word_of_live, on_word as word_of_on, modes, col_types};
ghost use Rattle.event_kinds.specs.Reading.{in_token, number_of as number_in, any_name_of as name_in, word_of as word_in, check_text_of as text_in, worded, kinds_listed, states, flags};

use base_types::{ColType, IndexState, Kind, LineBuffer, Mode, Name, Text, Word, number_up_to};

// Whether the byte is none of blank, comma, parenthesis and line's end.
pub(crate) fn is_token_byte(byte: u8) -> bool
    ensures { result ≡ in_token byte }
{
    !matches!(byte, b' ' | b',' | b'(' | b')' | b'\n')
}

// The number of four bytes that is written so.
#[tactic(auto, unfolding(crate::specs::Reading::number_of))]
pub(crate) fn number_of(text: &[u8]) -> Option<u32>
    ensures { result ≡ number_in text.now }
{
    let number = number_up_to(u64::from(u32::MAX), text)? as u32;
    let mut line = LineBuffer::new();
    line.push_number(number);
    if line.as_bytes() == text {
        Some(number)
    } else {
        None
    }
}

// A name, also the one of a dropped column.
pub(crate) fn name_of(text: &[u8]) -> Option<Name>
    ensures { result ≡ name_in text.now }
{
    Name::new_or_dropped(text).ok()
}

// The word of a default.
pub(crate) fn word_of(text: &[u8]) -> Option<Word>
    ensures { result ≡ word_in text.now }
{
    Word::new(text).ok()
}

// The text of a check.
pub(crate) fn text_of(text: &[u8]) -> Option<Text>
    ensures { result ≡ text_in text.now }
{
    Text::new(text).ok()
}

// The lock mode of this word.
pub(crate) fn mode_of(text: &[u8]) -> Option<Mode>
    ensures { result ≡ worded mode_word modes text.now }
{
    Mode::ALL.iter().copied().find(|mode| mode.word() == text)
}

// The type of this name.
pub(crate) fn type_of(text: &[u8]) -> Option<ColType>
    ensures { result ≡ worded type_word col_types text.now }
{
    ColType::ALL
        .iter()
        .copied()
        .find(|col_type| col_type.word() == text)
}

// The kind of this letter.
pub(crate) fn kind_of(text: &[u8]) -> Option<Kind>
    ensures { result ≡ worded kind_word kinds_listed text.now }
{
    match text {
        b"r" => Some(Kind::Table),
        b"i" => Some(Kind::Index),
        _ => None,
    }
}

// The state of this letter.
pub(crate) fn state_of(text: &[u8]) -> Option<IndexState>
    ensures { result ≡ worded state_word states text.now }
{
    match text {
        b"n" => Some(IndexState::Neither),
        b"v" => Some(IndexState::Valid),
        _ => None,
    }
}

// Whether a constraint is known to hold, by its letter.
pub(crate) fn valid_of(text: &[u8]) -> Option<bool>
    ensures { result ≡ worded word_of_valid flags text.now }
{
    match text {
        b"v" => Some(true),
        b"n" => Some(false),
        _ => None,
    }
}

// Whether a column is live, by its letter.
pub(crate) fn live_of(text: &[u8]) -> Option<bool>
    ensures { result ≡ worded word_of_live flags text.now }
{
    match text {
        b"l" => Some(true),
        b"d" => Some(false),
        _ => None,
    }
}

// Whether a trigger is enabled, by its letter.
pub(crate) fn on_of(text: &[u8]) -> Option<bool>
    ensures { result ≡ worded word_of_on flags text.now }
{
    match text {
        b"e" => Some(true),
        b"d" => Some(false),
        _ => None,
    }
}
