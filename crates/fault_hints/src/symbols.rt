use crate::tokens::is;
use base_types::{Name, Word};

// What can stand at one place of a form.
#[derive(Clone, Copy, Debug)]
pub(crate) enum Symbol {
    // This word, or this mark.
    Word(&'static str),
    Name,
    Type,
    Field,
    // At most nine digits.
    Number,
    // The same, or with a minus.
    Target,
    // The value of a default.
    Value,
    // The first token of a check's condition, and what follows up to the closing parenthesis.
    Condition,
    Rest,
    // A comma, and then what stood so many places before; or a closing parenthesis.
    More(usize),
    // Nothing more.
    End,
}

// The words for types, and those for fields.
pub(crate) const TYPES: [&str; 13] = [
    "bool",
    "boolean",
    "int2",
    "smallint",
    "int4",
    "integer",
    "int",
    "int8",
    "bigint",
    "text",
    "bytea",
    "date",
    "timestamptz",
];

pub(crate) const FIELDS: [&str; 11] = [
    "name",
    "columns",
    "defaults",
    "statistics",
    "fillfactor",
    "constraints",
    "referenced",
    "indexes",
    "triggers",
    "of",
    "valid",
];

// Those of a table, and those of an index.
pub(crate) const TABLE_FIELDS: [&str; 9] = [
    "name",
    "columns",
    "defaults",
    "statistics",
    "fillfactor",
    "constraints",
    "referenced",
    "indexes",
    "triggers",
];

pub(crate) const INDEX_FIELDS: [&str; 3] = ["name", "of", "valid"];

// Whether one of the symbols is called so.
pub(crate) fn is_wanted(wanted: &[Symbol], symbol: Symbol) -> bool {
    wanted.iter().any(|other| other.is_same(symbol))
}

impl Symbol {
    // What a word of a form means.
    pub(crate) fn of(word: &'static str) -> Symbol {
        match word {
            "NAME" => Symbol::Name,
            "TYPE" => Symbol::Type,
            "FIELD" => Symbol::Field,
            "NUMBER" => Symbol::Number,
            "TARGET" => Symbol::Target,
            "VALUE" => Symbol::Value,
            "CONDITION" => Symbol::Condition,
            "REST" => Symbol::Rest,
            "MORE-NAMES" => Symbol::More(1),
            "MORE-COLUMNS" => Symbol::More(2),
            _ => Symbol::Word(word),
        }
    }

    // Whether this token can stand here.
    pub(crate) fn takes(self, token: &[u8]) -> bool {
        match self {
            Symbol::Word(word) => is(token, word),
            Symbol::Name => Name::new(token).is_ok(),
            Symbol::Type => is_among(token, &TYPES),
            Symbol::Field => is_among(token, &FIELDS),
            Symbol::Number => is_number(token),
            Symbol::Target => is_number(token.strip_prefix(b"-").unwrap_or(token)),
            Symbol::Value => Word::new(token).is_ok(),
            Symbol::Condition | Symbol::Rest => !is(token, ")"),
            Symbol::More(_) => is(token, ",") || is(token, ")"),
            Symbol::End => false,
        }
    }

    // What it is called.
    pub(crate) fn text(self) -> &'static str {
        match self {
            Symbol::Word(word) => word,
            Symbol::Name => "a name",
            Symbol::Type => "a type",
            Symbol::Field => "a field",
            Symbol::Number => "a number",
            Symbol::Target => "a statistics target",
            Symbol::Value => "a value",
            Symbol::Condition => "a condition",
            Symbol::Rest => ")",
            Symbol::More(_) => ",",
            Symbol::End => "the end of the line",
        }
    }

    // Whether that stands in the line as it is.
    pub(crate) fn is_literal(self) -> bool {
        matches!(self, Symbol::Word(_) | Symbol::Rest | Symbol::More(_))
    }

    // Whether two symbols are called the same.
    pub(crate) fn is_same(self, other: Symbol) -> bool {
        self.is_literal() == other.is_literal() && self.text() == other.text()
    }
}

fn is_among(token: &[u8], words: &[&'static str]) -> bool {
    words.iter().any(|word| is(token, word))
}

// At most nine digits.
fn is_number(token: &[u8]) -> bool {
    !token.is_empty() && token.len() <= 9 && token.iter().all(|byte| byte.is_ascii_digit())
}
