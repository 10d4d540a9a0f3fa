ghost use Rattle.std.specs.Prelude.{◌≡◌, ◌≤◌, None, Some, MatchOption, length};
ghost use Rattle.std.specs.List.{prefix_len};
ghost use Rattle.base_types.specs.Names.{is_digit as digit};
ghost use Rattle.event_kinds.specs.Reading.{in_token};

use crate::value::{
    is_token_byte, kind_of, live_of, mode_of, name_of, number_of, on_of, state_of, text_of,
    type_of, valid_of, word_of,
};
use base_types::{ColType, IndexState, Kind, Mode, Name, Text, Word, is_digit};
use std::marker::Model;

// The bytes of a line that are still to be read.
#[derive(Drop)]
pub(crate) struct Cursor<'a> {
    rest: &'a [u8],
}

impl<'a> Model for Cursor<'a> {
    ghost use Rattle.std.specs.Prelude.{List, ℕ};

    ghost Value = { List ℕ };

    ghost view = { λ cursor. cursor.rest.now };
}

// Single values. Each is what its definition gives of the bytes that are left; where it gives
// nothing, it doesn't matter what is left.
impl<'a> Cursor<'a> {
    ghost use Rattle.base_types.specs.Words.{valid_word, live_word, on_word};
    ghost use Rattle.event_kinds.specs.Readers.{Gives, lit_at};
    ghost use Rattle.event_kinds.specs.Reading.{number_at, digits_at, name_at, word_at, text_at, mode_at, kind_at, type_at, state_at, flag_at};

    pub(crate) fn new(line: &'a [u8]) -> Cursor<'a>
        ensures { result ≡ line.now }
    {
        Cursor { rest: line }
    }

    // How many bytes are left.
    pub(crate) fn len(&self) -> usize
        ensures { result ≡ length self.now }
    {
        self.rest.len()
    }

    // A fixed text. Where the bytes don't begin with it, nothing is read.
    #[tactic(auto, unfolding(crate::specs::Readers::lit_at))]
    pub(crate) fn eat(&mut self, text: &[u8]) -> Option<()>
        ensures { MatchOption result ((lit_at text.now self.old ≡ None) × (self.new ≡ self.old)) (λ _. lit_at text.now self.old ≡ Some self.new) }
    {
        if !self.rest.starts_with(text) {
            return None;
        }
        self.rest = &self.rest[text.len()..];
        Some(())
    }

    // A number.
    #[tactic(auto, unfolding(crate::specs::Reading::number_at))]
    pub(crate) fn number(&mut self) -> Option<u32>
        ensures { Gives result self.new (number_at self.old) }
    {
        let (token, rest) = self.rest.split_at(token_len(self.rest));
        let value = number_of(token)?;
        self.rest = rest;
        Some(value)
    }

    // A number that any byte but a digit ends.
    #[tactic(auto, unfolding(crate::specs::Reading::digits_at))]
    pub(crate) fn digits(&mut self) -> Option<u32>
        ensures { Gives result self.new (digits_at self.old) }
    {
        let (token, rest) = self.rest.split_at(digits_len(self.rest));
        let value = number_of(token)?;
        self.rest = rest;
        Some(value)
    }

    // A name, also the one of a dropped column.
    #[tactic(auto, unfolding(crate::specs::Reading::name_at))]
    pub(crate) fn name(&mut self) -> Option<Name>
        ensures { Gives result self.new (name_at self.old) }
    {
        let (token, rest) = self.rest.split_at(token_len(self.rest));
        let value = name_of(token)?;
        self.rest = rest;
        Some(value)
    }

    // The word of a default.
    #[tactic(auto, unfolding(crate::specs::Reading::word_at))]
    pub(crate) fn word(&mut self) -> Option<Word>
        ensures { Gives result self.new (word_at self.old) }
    {
        let (token, rest) = self.rest.split_at(token_len(self.rest));
        let value = word_of(token)?;
        self.rest = rest;
        Some(value)
    }

    // The text of a check.
    #[tactic(auto, unfolding(crate::specs::Reading::text_at))]
    pub(crate) fn text(&mut self) -> Option<Text>
        ensures { Gives result self.new (text_at self.old) }
    {
        let (token, rest) = self.rest.split_at(token_len(self.rest));
        let value = text_of(token)?;
        self.rest = rest;
        Some(value)
    }

    // A lock mode.
    #[tactic(auto, unfolding(crate::specs::Reading::mode_at))]
    pub(crate) fn mode(&mut self) -> Option<Mode>
        ensures { Gives result self.new (mode_at self.old) }
    {
        let (token, rest) = self.rest.split_at(token_len(self.rest));
        let value = mode_of(token)?;
        self.rest = rest;
        Some(value)
    }

    // A table or an index.
    #[tactic(auto, unfolding(crate::specs::Reading::kind_at))]
    pub(crate) fn kind(&mut self) -> Option<Kind>
        ensures { Gives result self.new (kind_at self.old) }
    {
        let (token, rest) = self.rest.split_at(token_len(self.rest));
        let value = kind_of(token)?;
        self.rest = rest;
        Some(value)
    }

    // The type of a column.
    #[tactic(auto, unfolding(crate::specs::Reading::type_at))]
    pub(crate) fn col_type(&mut self) -> Option<ColType>
        ensures { Gives result self.new (type_at self.old) }
    {
        let (token, rest) = self.rest.split_at(token_len(self.rest));
        let value = type_of(token)?;
        self.rest = rest;
        Some(value)
    }

    // Whether an index is valid.
    #[tactic(auto, unfolding(crate::specs::Reading::state_at))]
    pub(crate) fn state(&mut self) -> Option<IndexState>
        ensures { Gives result self.new (state_at self.old) }
    {
        let (token, rest) = self.rest.split_at(token_len(self.rest));
        let value = state_of(token)?;
        self.rest = rest;
        Some(value)
    }

    // Whether a constraint is known to hold.
    #[tactic(auto, unfolding(crate::specs::Reading::flag_at))]
    pub(crate) fn valid(&mut self) -> Option<bool>
        ensures { Gives result self.new (flag_at valid_word self.old) }
    {
        let (token, rest) = self.rest.split_at(token_len(self.rest));
        let value = valid_of(token)?;
        self.rest = rest;
        Some(value)
    }

    // Whether a column is live.
    #[tactic(auto, unfolding(crate::specs::Reading::flag_at))]
    pub(crate) fn live(&mut self) -> Option<bool>
        ensures { Gives result self.new (flag_at live_word self.old) }
    {
        let (token, rest) = self.rest.split_at(token_len(self.rest));
        let value = live_of(token)?;
        self.rest = rest;
        Some(value)
    }

    // Whether a trigger is enabled.
    #[tactic(auto, unfolding(crate::specs::Reading::flag_at))]
    pub(crate) fn on(&mut self) -> Option<bool>
        ensures { Gives result self.new (flag_at on_word self.old) }
    {
        let (token, rest) = self.rest.split_at(token_len(self.rest));
        let value = on_of(token)?;
        self.rest = rest;
        Some(value)
    }
}

// How many bytes come before a blank, a comma, a parenthesis or a line's end.
fn token_len(bytes: &[u8]) -> usize
    ensures text { result ≡ prefix_len in_token bytes.now }
    ensures short { result ≤ length bytes.now }
{
    for (i, byte) in bytes.iter().enumerate() {
        if !is_token_byte(*byte) {
            return i;
        }
    }
    bytes.len()
}

// How many digits come first.
fn digits_len(bytes: &[u8]) -> usize
    ensures text { result ≡ prefix_len digit bytes.now }
    ensures short { result ≤ length bytes.now }
{
    for (i, byte) in bytes.iter().enumerate() {
        if !is_digit(*byte) {
            return i;
        }
    }
    bytes.len()
}
