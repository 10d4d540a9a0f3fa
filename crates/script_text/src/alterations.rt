ghost use Rattle.std.specs.Prelude.{◌≡◌, MatchOption, Option, None, Some, List, ℕ};
ghost use Rattle.script_text.specs.Tokens.{tokens};
ghost use Rattle.script_text.specs.Commands.{add_column_command, rename_column_command, default_command, statistics_command, fillfactor_command, validity as valid_of_constraint, referred_part as column_referred_to, key_part as key_at, foreign_command, enclosed_text as text_enclosed, check_part as check_at, check_command, alter_command};

use crate::operands;
use crate::tokens::Tokens;
use base_types::{Command, LONGEST_TEXT, LineBuffer, Name, Text};

// The alteration of a table with operands of its own that a line's text is, if it is one.
#[tactic(auto, unfolding(crate::specs::Commands::alter_command))]
pub(crate) fn alter(line: &[u8]) -> Option<Command>
    ensures { result ≡ alter_command (tokens line.now) }
{
    if let Some(command) = add_column(line) {
        return Some(command);
    }
    if let Some(command) = rename_column(line) {
        return Some(command);
    }
    if let Some(command) = set_default(line) {
        return Some(command);
    }
    if let Some(command) = set_statistics(line) {
        return Some(command);
    }
    if let Some(command) = set_fillfactor(line) {
        return Some(command);
    }
    if let Some(command) = add_check(line) {
        return Some(command);
    }
    add_foreign(line)
}

// alter table NAME add column NAME TYPE
#[tactic(auto, unfolding(crate::specs::Commands::add_column_command))]
fn add_column(line: &[u8]) -> Option<Command>
    ensures { result ≡ add_column_command (tokens line.now) }
{
    let mut tokens = Tokens::of(line);
    let (name, column) = tokens.names_after("alter table", "add column")?;
    let col_type = tokens.col_type()?;
    if tokens.ends("") {
        Some(Command::AddColumn {
            name,
            column,
            col_type,
        })
    } else {
        None
    }
}

// alter table NAME rename column NAME to NAME
#[tactic(auto, unfolding(crate::specs::Commands::rename_column_command))]
fn rename_column(line: &[u8]) -> Option<Command>
    ensures { result ≡ rename_column_command (tokens line.now) }
{
    let mut tokens = Tokens::of(line);
    let (name, column) = tokens.names_after("alter table", "rename column")?;
    let to = tokens.name_after("to")?;
    if tokens.ends("") {
        Some(Command::RenameColumn { name, column, to })
    } else {
        None
    }
}

// alter table NAME alter column NAME set default WORD
#[tactic(auto, unfolding(crate::specs::Commands::default_command))]
fn set_default(line: &[u8]) -> Option<Command>
    ensures { result ≡ default_command (tokens line.now) }
{
    let mut tokens = Tokens::of(line);
    let (name, column) = tokens.names_after("alter table", "alter column")?;
    let word = tokens.word_after("set default")?;
    if tokens.ends("") {
        Some(Command::SetDefault { name, column, word })
    } else {
        None
    }
}

// alter table NAME alter column NAME set statistics STAT
#[tactic(auto, unfolding(crate::specs::Commands::statistics_command))]
fn set_statistics(line: &[u8]) -> Option<Command>
    ensures { result ≡ statistics_command (tokens line.now) }
{
    let mut tokens = Tokens::of(line);
    let (name, column) = tokens.names_after("alter table", "alter column")?;
    let stat = tokens.stat_after("set statistics")?;
    if tokens.ends("") {
        Some(Command::SetStatistics { name, column, stat })
    } else {
        None
    }
}

// alter table NAME set (fillfactor = NUMBER)
#[tactic(auto, unfolding(crate::specs::Commands::fillfactor_command))]
fn set_fillfactor(line: &[u8]) -> Option<Command>
    ensures { result ≡ fillfactor_command (tokens line.now) }
{
    let mut tokens = Tokens::of(line);
    let name = tokens.name_after("alter table")?;
    let fill = tokens.number_after("set (fillfactor =")?;
    if tokens.ends(")") {
        Some(Command::SetFillfactor { name, fill })
    } else {
        None
    }
}

// alter table NAME add constraint NAME check (TEXT)
#[tactic(auto, unfolding(crate::specs::Commands::check_command))]
fn add_check(line: &[u8]) -> Option<Command>
    ensures { result ≡ check_command (tokens line.now) }
{
    let mut tokens = Tokens::of(line);
    let (name, constraint) = tokens.names_after("alter table", "add constraint")?;
    let (text, valid) = check_part(&mut tokens)?;
    Some(Command::AddCheck {
        name,
        constraint,
        text,
        valid,
    })
}

// check (TEXT), and whether it is valid at once.
#[tactic(auto, unfolding(crate::specs::Commands::check_part))]
fn check_part(tokens: &mut Tokens) -> Option<(Text, bool)>
    ensures { result ≡ check_at tokens.old }
{
    tokens.words("check (")?;
    let text = enclosed_text(tokens)?;
    let valid = validity(tokens)?;
    Some((text, valid))
}

// The text up to a closing parenthesis, where it is the text of a check.
fn enclosed_text(tokens: &mut Tokens) -> Option<Text>
    ensures { MatchOption result (text_enclosed tokens.old ≡ None) (λ x. text_enclosed tokens.old ≡ Some (x, tokens.new)) }
{
    let mut text = LineBuffer::new();
    'tokens: loop {
        let token = tokens.next()?;
        if operands::is(token, ")") {
            return operands::check_text(text.as_bytes());
        }
        if token.len() > LONGEST_TEXT - text.as_bytes().len() {
            return None;
        }
        text.push(token);
    }
}

// alter table NAME add constraint NAME foreign key (NAME) references NAME (NAME)
#[tactic(auto, unfolding(crate::specs::Commands::foreign_command))]
fn add_foreign(line: &[u8]) -> Option<Command>
    ensures { result ≡ foreign_command (tokens line.now) }
{
    let mut tokens = Tokens::of(line);
    let (name, constraint) = tokens.names_after("alter table", "add constraint")?;
    let (column, refers, ref_column, valid) = key_part(&mut tokens)?;
    Some(Command::AddForeign {
        name,
        constraint,
        column,
        refers,
        ref_column,
        valid,
    })
}

// The columns and the table of a foreign key, and whether it is valid at once.
#[tactic(auto, unfolding(crate::specs::Commands::key_part))]
fn key_part(tokens: &mut Tokens) -> Option<(Name, Name, Name, bool)>
    ensures { result ≡ key_at tokens.old }
{
    let (column, refers) = tokens.names_after("foreign key (", ") references")?;
    let (ref_column, valid) = referred_part(tokens)?;
    Some((column, refers, ref_column, valid))
}

// The column that a foreign key refers to, and whether the key is valid at once.
#[tactic(auto, unfolding(crate::specs::Commands::referred_part))]
fn referred_part(tokens: &mut Tokens) -> Option<(Name, bool)>
    ensures { result ≡ column_referred_to tokens.old }
{
    let ref_column = tokens.name_after("(")?;
    tokens.words(")")?;
    let valid = validity(tokens)?;
    Some((ref_column, valid))
}

// Nothing for a constraint that is valid at once, or `not valid`.
#[tactic(auto, unfolding(crate::specs::Commands::validity))]
fn validity(tokens: &Tokens) -> Option<bool>
    ensures { result ≡ valid_of_constraint tokens.now }
{
    if tokens.is_end() {
        Some(true)
    } else if tokens.ends("not valid") {
        Some(false)
    } else {
        None
    }
}
