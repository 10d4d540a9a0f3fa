ghost use Rattle.std.specs.Prelude.{◌≡◌, ◌≤◌, ◌<◌, true, IsTrue, MatchOption, List, [], ◌∷◌, ℕ, None, Some, length, take, drop, codes};
ghost use Rattle.std.specs.List.{prefix_len};
ghost use Rattle.script_text.specs.TextLines.{is_blank as blank, counts as line_counts};
ghost use Rattle.script_text.specs.LineForms.{none_left, begins as first_is};
ghost use Rattle.script_text.specs.Tokens.{tokens, after_words, said, ends, is_mark as mark, in_word as inside, goes_on, StartsToken, IsApart};

use std::marker::Model;

// The tokens of a line that aren't taken yet, which contracts see as a list.
#[derive(Drop)]
pub(crate) struct Tokens<'a> {
    rest: &'a [u8],
}

impl<'a> Model for Tokens<'a> {
    ghost use Rattle.std.specs.Prelude.{List, ℕ};
    ghost use Rattle.script_text.specs.Tokens.{tokens};

    ghost Value = { List (List ℕ) };

    ghost view = { λ t. tokens t.rest.now };
}

impl<'a> Tokens<'a> {
    // The tokens of a line.
    pub(crate) fn of(line: &'a [u8]) -> Tokens<'a>
        ensures { result ≡ tokens line.now }
    {
        Tokens { rest: line }
    }

    // The text after what was taken.
    pub(crate) fn text(&self) -> &'a [u8]
        ensures { tokens result.now ≡ self.now }
    {
        self.rest
    }

    // No token is left.
    pub(crate) fn is_empty(&self) -> bool
        ensures { result ≡ none_left self.now }
    {
        Tokens::of(self.rest).next().is_none()
    }

    // The next token is this word.
    pub(crate) fn begins(&self, word: &str) -> bool
        ensures { result ≡ first_is word.now self.now }
    {
        match Tokens::of(self.rest).next() {
            None => false,
            Some(token) => token == word.as_bytes(),
        }
    }

    // Takes the next token; `None` where none is left.
    pub(crate) fn next(&mut self) -> Option<&'a [u8]>
        ensures { MatchOption result ((self.old ≡ []) × (self.new ≡ [])) (λ token. self.old ≡ token.now ∷ self.new) }
    {
        let line = without_blanks(self.rest);
        self.rest = line;
        if line.is_empty() {
            return None;
        }
        let (token, rest) = line.split_at(token_len(line));
        self.rest = rest;
        Some(token)
    }

    // Takes the tokens of these words; `None` where the next ones are others.
    #[tactic(auto, unfolding(crate::specs::Tokens::after_words))]
    pub(crate) fn words(&mut self, words: &str) -> Option<()>
        ensures { MatchOption result (said words.now self.old ≡ None) (λ _. said words.now self.old ≡ Some self.new) }
    {
        if begin_apart(self.rest, words.as_bytes()) {
            return None;
        }
        let mut wanted = Tokens::of(words.as_bytes());
        'words: while let Some(word) = wanted.next() {
            let token = self.next()?;
            if token != word {
                return None;
            }
        }
        Some(())
    }
}

// Two lines begin with other bytes, neither of them a blank, and so with other tokens. Most of the words that
// a command is tried for are ruled out by this, without a look for the ends of tokens.
#[tactic(auto, using(crate::proofs::FirstBytes::other_words))]
fn begin_apart(line: &[u8], words: &[u8]) -> bool
    ensures { result ≡ true → after_words (tokens words.now) (tokens line.now) ≡ None }
{
    if line.is_empty() || words.is_empty() {
        return false;
    }
    are_apart(line[0], words[0])
}

// Two bytes differ, and neither is a blank.
fn are_apart(byte: u8, wanted: u8) -> bool
    ensures { result ≡ true → IsApart byte wanted }
{
    byte != wanted && !is_blank(byte) && !is_blank(wanted)
}

// A line without the blanks that it begins with.
pub(crate) fn without_blanks(line: &[u8]) -> &[u8]
    ensures value { result.now ≡ drop (prefix_len blank line.now) line.now }
    ensures same { tokens result.now ≡ tokens line.now }
    ensures starts { StartsToken result.now }
{
    &line[blanks(line)..]
}

// The number of blanks before a line's first token.
fn blanks(line: &[u8]) -> usize
    ensures value { result ≡ prefix_len blank line.now }
    ensures within { result ≤ length line.now }
{
    line.iter().take_while(|byte| is_blank(**byte)).count()
}

// The number of bytes of a longer token that a line begins with.
fn word_len(line: &[u8]) -> usize
    ensures value { result ≡ prefix_len inside line.now }
    ensures within { result ≤ length line.now }
{
    line.iter().take_while(|byte| in_word(**byte)).count()
}

// The length of the first token of a line that begins with no blank.
fn token_len(line: &[u8]) -> usize
    requires starts { StartsToken line.now }
    requires some { 0 < length line.now }
    ensures within { result ≤ length line.now }
    ensures token { tokens line.now ≡ take result line.now ∷ tokens (drop result line.now) }
{
    if in_word(line[0]) { word_len(line) } else { 1 }
}

fn is_blank(byte: u8) -> bool
    ensures { result ≡ blank byte }
{
    byte == b' ' || byte == b'\t'
}

fn in_word(byte: u8) -> bool
    ensures { result ≡ inside byte }
{
    !is_blank(byte) && !matches!(byte, b'(' | b')' | b',' | b'=' | b':' | b'*' | b';')
}
