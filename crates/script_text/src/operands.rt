ghost use Rattle.std.specs.Prelude.{◌≡◌, ◌≤◌, ◌<◌, ◌^◌, ◌||◌, true, Some, IfSome, length};
ghost use Rattle.std.specs.List.{list_all};
ghost use Rattle.std.specs.Str.{bytes_eq};
ghost use Rattle.base_types.specs.Names.{is_digit as digit, number_of_digits};
ghost use Rattle.base_types.specs.Words.{type_word};
ghost use Rattle.script_text.specs.Operands.{number_of, number_within as within_bounds, stat_of, plain_name_of, word_of, check_text_of, type_of, field_of, is_other_word as other_word, lock_words as words_of_lock};

use base_types::{ColType, Field, Mode, Name, Text, Word, is_digit, number_up_to};

// The greatest number of ten digits.
const TEN_DIGITS: u64 = 9_999_999_999;

// The number of a text of at most so many digits, 10 or fewer; `None` for any other text.
#[tactic(auto, using(crate::proofs::DigitBounds::few_digits), unfolding(crate::specs::Operands::number_of))]
pub(crate) fn number(text: &[u8], most: usize) -> Option<u64>
    requires { most ≤ 10 }
    ensures value { result ≡ number_of most text.now }
    ensures bound { IfSome result (λ n. n < 10 ^ most) }
{
    if text.is_empty() || text.len() > most || !are_digits(text) {
        return None;
    }
    digits(text)
}

// A number of at most nine digits that lies within bounds.
#[tactic(auto, unfolding(crate::specs::Operands::number_within))]
pub(crate) fn number_within(text: &[u8], least: u32, most: u32) -> Option<u32>
    ensures value { result ≡ within_bounds least most text.now }
    ensures bounds { IfSome result (λ n. (least ≤ n) × (n ≤ most)) }
{
    let number = number(text, 9)? as u32;
    if least <= number && number <= most {
        Some(number)
    } else {
        None
    }
}

// A number of at most nine digits that may begin with a minus.
#[tactic(auto, unfolding(crate::specs::Operands::stat_of))]
pub(crate) fn stat(text: &[u8]) -> Option<i32>
    ensures { result ≡ stat_of text.now }
{
    let [first, digits @ ..] = text else {
        return None;
    };
    if *first == b'-' {
        Some(-(number(digits, 9)? as i32))
    } else {
        Some(number(text, 9)? as i32)
    }
}

// The name that a text is.
#[tactic(auto, unfolding(crate::specs::Operands::plain_name_of))]
pub(crate) fn name(text: &[u8]) -> Option<Name>
    ensures { result ≡ plain_name_of text.now }
{
    Name::new(text).ok()
}

// The word of a default that a text is.
#[tactic(auto, unfolding(crate::specs::Operands::word_of))]
pub(crate) fn word(text: &[u8]) -> Option<Word>
    ensures { result ≡ word_of text.now }
{
    Word::new(text).ok()
}

// The text of a check that a text is.
#[tactic(auto, unfolding(crate::specs::Operands::check_text_of))]
pub(crate) fn check_text(text: &[u8]) -> Option<Text>
    ensures { result ≡ check_text_of text.now }
{
    Text::new(text).ok()
}

// The type of a column, by its name or another word for it.
#[tactic(auto, using(crate::proofs::Finding::finds, crate::proofs::Finding::finds_later, crate::proofs::Finding::finds_none), unfolding(crate::specs::Operands::type_of))]
pub(crate) fn col_type(text: &[u8]) -> Option<ColType>
    ensures { result ≡ type_of text.now }
{
    for col_type in ColType::ALL {
        if is_type(text, col_type) {
            return Some(col_type);
        }
    }
    None
}

// The field of a descriptor with this name.
#[tactic(auto, using(crate::proofs::Finding::finds, crate::proofs::Finding::finds_later, crate::proofs::Finding::finds_none), unfolding(crate::specs::Operands::field_of))]
pub(crate) fn field(text: &[u8]) -> Option<Field>
    ensures { result ≡ field_of text.now }
{
    for field in Field::ALL {
        if text == field.word() {
            return Some(field);
        }
    }
    None
}

// A text is this word.
pub(crate) fn is(text: &[u8], word: &str) -> bool
    ensures { result ≡ bytes_eq text.now word.now }
{
    text == word.as_bytes()
}

// How `lock table` says a lock mode.
pub(crate) fn lock_words(mode: Mode) -> &'static str
    ensures { result.now ≡ words_of_lock mode }
{
    match mode {
        Mode::AccessShare => "in access share mode",
        Mode::RowShare => "in row share mode",
        Mode::RowExclusive => "in row exclusive mode",
        Mode::ShareUpdateExclusive => "in share update exclusive mode",
        Mode::Share => "in share mode",
        Mode::ShareRowExclusive => "in share row exclusive mode",
        Mode::Exclusive => "in exclusive mode",
        Mode::AccessExclusive => "in access exclusive mode",
    }
}

// All bytes are digits.
fn are_digits(text: &[u8]) -> bool
    ensures { result ≡ list_all digit text.now }
{
    text.iter().all(|byte| is_digit(*byte))
}

// The number that at most ten digits write.
fn digits(text: &[u8]) -> Option<u64>
    requires few { length text.now ≤ 10 }
    requires digits { list_all digit text.now ≡ true }
    ensures { result ≡ Some (number_of_digits text.now) }
{
    number_up_to(TEN_DIGITS, text)
}

// The type has this name, or this other word.
fn is_type(text: &[u8], col_type: ColType) -> bool
    ensures { result ≡ bytes_eq text.now (type_word col_type) || other_word text.now col_type }
{
    text == col_type.word() || is_other_word(text, col_type)
}

// A text is another word for the type.
fn is_other_word(text: &[u8], col_type: ColType) -> bool
    ensures { result ≡ other_word text.now col_type }
{
    match col_type {
        ColType::Bool => is(text, "boolean"),
        ColType::Int2 => is(text, "smallint"),
        ColType::Int4 => is(text, "integer") || is(text, "int"),
        ColType::Int8 => is(text, "bigint"),
        _ => false,
    }
}
