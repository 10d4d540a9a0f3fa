use crate::dropped::dropped_number;
use crate::name_bytes::{ByteKind, name_fault, short_fault};
use crate::{LONGEST_TEXT, LineBuffer, MOST_COLUMNS, NameFault, ShortText};
use std::marker::Model;

/// A name of SQL, folded to small letters: 1 to 63 bytes, or the name that a dropped column has.
#[derive(Clone, Copy)]
pub struct Name {
    text: ShortText,
}

impl Model for Name {
    ghost use Rattle.std.specs.Prelude.{List, ℕ};
    ghost use Rattle.base_types.specs.Names.{IsAnyName};

    ghost Value = { List ℕ };

    ghost view = { λ n. n.text };

    ghost invariant = { λ n. IsAnyName n.text };

    ghost inverse = { λ bytes. record { text = bytes } };
}

impl Name {
    ghost use Rattle.std.specs.Prelude.{◌≡◌, ◌≤◌, length, IfOk, IfErr, Some};
    ghost use Rattle.std.specs.Prelude.{◌<◌};
    ghost use Rattle.base_types.specs.Names.{IsName, IsAnyName, IsDroppedName, dropped_name, name_fault as first_fault};

    /// The name of these bytes: 1 to 63 small letters, digits and `_`, and no digit first.
    /// `Err` has the first fault.
    pub fn new(text: &[u8]) -> Result<Name, NameFault>
        ensures ok { IfOk result (λ name. (name ≡ text.now) × IsName text.now) }
        ensures err { IfErr result (λ fault. first_fault text.now ≡ Some fault) }
    {
        match name_fault(text) {
            None => Ok(Name {
                text: ShortText::new(text),
            }),
            Some(fault) => Err(fault),
        }
    }

    /// The name that the dropped column of this number has (`RemoveAttributeById` in
    /// `src/backend/catalog/heap.c`). Condition: 1 to 1,600.
    pub fn dropped(num: u32) -> Name
        requires some { 0 < num }
        requires most { num ≤ MOST_COLUMNS }
        ensures { result ≡ dropped_name num }
    {
        let mut line = LineBuffer::new();
        line.push(b"........pg.dropped.");
        line.push_number(num);
        line.push(b"........");
        Name {
            text: ShortText::new(line.as_bytes()),
        }
    }

    /// The name of these bytes, also where they are the name of a dropped column. `Err` has the
    /// first fault as a name.
    pub fn new_or_dropped(text: &[u8]) -> Result<Name, NameFault>
        ensures ok { IfOk result (λ name. (name ≡ text.now) × IsAnyName text.now) }
        ensures err { IfErr result (λ fault. (first_fault text.now ≡ Some fault) × (IsDroppedName text.now → ⊥)) }
    {
        match dropped_number(text) {
            Some(num) => Ok(Name::dropped(num)),
            None => Name::new(text),
        }
    }

    /// The bytes of the name, at most 63.
    pub fn as_bytes(&self) -> &[u8]
        ensures text { result.now ≡ self.now }
        ensures spelled { IsAnyName self.now }
        ensures short { length self.now ≤ LONGEST_TEXT }
    {
        self.text.as_bytes()
    }
}

/// The word of a column's default.
#[derive(Clone, Copy)]
pub struct Word {
    text: ShortText,
}

impl Model for Word {
    ghost use Rattle.std.specs.Prelude.{List, ℕ};
    ghost use Rattle.base_types.specs.Names.{IsWord};

    ghost Value = { List ℕ };

    ghost view = { λ t. t.text };

    ghost invariant = { λ t. IsWord t.text };

    ghost inverse = { λ bytes. record { text = bytes } };
}

impl Word {
    ghost use Rattle.std.specs.Prelude.{◌≡◌, ◌≤◌, length, IfOk, IfErr, Some};
    ghost use Rattle.base_types.specs.Names.{IsWord, is_word_byte as allowed, short_fault as first_fault};

    /// The word of these bytes: 1 to 63 small letters, digits, `_` and `-`.
    /// `Err` has the first fault.
    pub fn new(text: &[u8]) -> Result<Word, NameFault>
        ensures ok { IfOk result (λ made. (made ≡ text.now) × IsWord text.now) }
        ensures err { IfErr result (λ fault. first_fault allowed text.now ≡ Some fault) }
    {
        match short_fault(ByteKind::Word, text) {
            None => Ok(Word {
                text: ShortText::new(text),
            }),
            Some(fault) => Err(fault),
        }
    }

    /// The bytes of the word, at most 63.
    pub fn as_bytes(&self) -> &[u8]
        ensures text { result.now ≡ self.now }
        ensures spelled { IsWord self.now }
        ensures short { length self.now ≤ LONGEST_TEXT }
    {
        self.text.as_bytes()
    }
}

/// The text of a check, without its blanks.
#[derive(Clone, Copy)]
pub struct Text {
    text: ShortText,
}

impl Model for Text {
    ghost use Rattle.std.specs.Prelude.{List, ℕ};
    ghost use Rattle.base_types.specs.Names.{IsText};

    ghost Value = { List ℕ };

    ghost view = { λ t. t.text };

    ghost invariant = { λ t. IsText t.text };

    ghost inverse = { λ bytes. record { text = bytes } };
}

impl Text {
    ghost use Rattle.std.specs.Prelude.{◌≡◌, ◌≤◌, length, IfOk, IfErr, Some};
    ghost use Rattle.base_types.specs.Names.{IsText, is_text_byte as allowed, short_fault as first_fault};

    /// The text of these bytes: 1 to 63 small letters, digits and `_ - < > = + *`.
    /// `Err` has the first fault.
    pub fn new(text: &[u8]) -> Result<Text, NameFault>
        ensures ok { IfOk result (λ made. (made ≡ text.now) × IsText text.now) }
        ensures err { IfErr result (λ fault. first_fault allowed text.now ≡ Some fault) }
    {
        match short_fault(ByteKind::Text, text) {
            None => Ok(Text {
                text: ShortText::new(text),
            }),
            Some(fault) => Err(fault),
        }
    }

    /// The bytes of the text, at most 63.
    pub fn as_bytes(&self) -> &[u8]
        ensures text { result.now ≡ self.now }
        ensures spelled { IsText self.now }
        ensures short { length self.now ≤ LONGEST_TEXT }
    {
        self.text.as_bytes()
    }
}
