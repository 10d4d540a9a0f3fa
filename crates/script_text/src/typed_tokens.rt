ghost use Rattle.std.specs.Prelude.{◌≡◌, ◌≤◌, MatchOption, None, Some, List, ℕ};
ghost use Rattle.script_text.specs.Tokens.{after, taken, said, is_end as end_of_command, ends as ends_behind};
ghost use Rattle.script_text.specs.Commands.{names_after as two_names_after};
ghost use Rattle.script_text.specs.Operands.{number_of, number_within, stat_of, plain_name_of, word_of, type_of, field_of};

use crate::operands;
use crate::tokens::Tokens;
use base_types::{ColType, Field, Name, Word};

impl<'a> Tokens<'a> {
    // Takes these words and a name after them.
    #[tactic(auto, unfolding(crate::specs::Tokens::after))]
    pub(crate) fn name_after(&mut self, words: &str) -> Option<Name>
        ensures { MatchOption result (after words.now plain_name_of self.old ≡ None) (λ x. after words.now plain_name_of self.old ≡ Some (x, self.new)) }
    {
        self.words(words)?;
        operands::name(self.next()?)
    }

    // Takes these words, a name, further words and another name.
    #[tactic(auto, unfolding(crate::specs::Commands::names_after))]
    pub(crate) fn names_after(&mut self, words: &str, further: &str) -> Option<(Name, Name)>
        ensures { MatchOption result (two_names_after words.now further.now self.old ≡ None) (λ x. two_names_after words.now further.now self.old ≡ Some (x, self.new)) }
    {
        let first = self.name_after(words)?;
        let second = self.name_after(further)?;
        Some((first, second))
    }

    // Takes these words and a word of a default after them.
    #[tactic(auto, unfolding(crate::specs::Tokens::after))]
    pub(crate) fn word_after(&mut self, words: &str) -> Option<Word>
        ensures { MatchOption result (after words.now word_of self.old ≡ None) (λ x. after words.now word_of self.old ≡ Some (x, self.new)) }
    {
        self.words(words)?;
        operands::word(self.next()?)
    }

    // Takes these words and a number after them, of at most nine digits.
    #[tactic(auto, unfolding(crate::specs::Tokens::after))]
    pub(crate) fn number_after(&mut self, words: &str) -> Option<u32>
        ensures { MatchOption result (after words.now (number_of 9) self.old ≡ None) (λ x. after words.now (number_of 9) self.old ≡ Some (x, self.new)) }
    {
        self.words(words)?;
        let number = operands::number(self.next()?, 9)?;
        Some(number as u32)
    }

    // Takes these words and a number after them that may have a minus.
    #[tactic(auto, unfolding(crate::specs::Tokens::after))]
    pub(crate) fn stat_after(&mut self, words: &str) -> Option<i32>
        ensures { MatchOption result (after words.now stat_of self.old ≡ None) (λ x. after words.now stat_of self.old ≡ Some (x, self.new)) }
    {
        self.words(words)?;
        operands::stat(self.next()?)
    }

    // Takes the type of a column.
    pub(crate) fn col_type(&mut self) -> Option<ColType>
        ensures { MatchOption result (taken type_of self.old ≡ None) (λ x. taken type_of self.old ≡ Some (x, self.new)) }
    {
        operands::col_type(self.next()?)
    }

    // Takes the name of a field.
    pub(crate) fn field(&mut self) -> Option<Field>
        ensures { MatchOption result (taken field_of self.old ≡ None) (λ x. taken field_of self.old ≡ Some (x, self.new)) }
    {
        operands::field(self.next()?)
    }

    // A command ends here, with or without a semicolon.
    #[tactic(auto, unfolding(crate::specs::Tokens::is_end))]
    pub(crate) fn is_end(&self) -> bool
        ensures { result ≡ end_of_command self.now }
    {
        let mut tokens = Tokens::of(self.text());
        match tokens.next() {
            None => true,
            Some(token) => operands::is(token, ";") && tokens.next().is_none(),
        }
    }

    // A command ends after these words.
    #[tactic(auto, unfolding(crate::specs::Tokens::ends))]
    pub(crate) fn ends(&self, words: &str) -> bool
        ensures { result ≡ ends_behind words.now self.now }
    {
        let mut tokens = Tokens::of(self.text());
        match tokens.words(words) {
            None => false,
            Some(()) => tokens.is_end(),
        }
    }
}
