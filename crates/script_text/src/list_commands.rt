ghost use Rattle.std.specs.Prelude.{◌≡◌, ◌<◌, MatchOption, IfOk, OnSome, option_map, Option, None, Some, List, ℕ, length};
ghost use Rattle.script_text.specs.Tokens.{tokens};
ghost use Rattle.script_text.specs.Commands.{Item, names_at as names_in, columns_at as columns_in, enclosed_names as names_enclosed, enclosed_columns as columns_enclosed, create_index_command, create_table_command, long_command};

use crate::operands;
use crate::tokens::Tokens;
use base_types::{Command, Listed, Name, NewColumn, NoMemory};
use std::alloc::Global;

// The command with a list that a line's text is, if it is one.
#[tactic(auto, unfolding(crate::specs::Commands::long_command))]
pub(crate) fn long(alloc: Global, line: &[u8]) -> Result<Option<Command>, NoMemory>
    ensures { IfOk result (λ found. found ≡ long_command (tokens line.now)) }
{
    if let Some(command) = create_table(alloc, line)? {
        return Ok(Some(command));
    }
    create_index(alloc, line)
}

// create table NAME (NAME TYPE, ..)
#[tactic(auto, unfolding(crate::specs::Commands::create_table_command))]
fn create_table(alloc: Global, line: &[u8]) -> Result<Option<Command>, NoMemory>
    ensures { IfOk result (λ found. found ≡ create_table_command (tokens line.now)) }
{
    let mut tokens = Tokens::of(line);
    let Some(name) = tokens.name_after("create table") else {
        return Ok(None);
    };
    let Some(columns) = enclosed_columns(alloc, &mut tokens)? else {
        return Ok(None);
    };
    Ok(Some(Command::CreateTable { name, columns }))
}

// (NAME TYPE, ..), or empty parentheses.
#[tactic(auto, unfolding(crate::specs::Commands::enclosed_columns))]
fn enclosed_columns(
    alloc: Global,
    tokens: &mut Tokens,
) -> Result<Option<Listed<NewColumn>>, NoMemory>
    ensures { IfOk result (λ found. found ≡ columns_enclosed tokens.old) }
{
    if tokens.ends("()") {
        return Ok(Some(Listed::new(alloc)));
    }
    match tokens.words("(") {
        None => Ok(None),
        Some(()) => columns_at(alloc, tokens),
    }
}

// The columns up to a closing parenthesis; `None` where they have no such form.
fn columns_at(alloc: Global, tokens: &mut Tokens) -> Result<Option<Listed<NewColumn>>, NoMemory>
    ensures { IfOk result (λ found. found ≡ columns_in tokens.old) }
{
    let mut columns = Listed::new(alloc);
    'items: loop {
        let Some((column, more)) = next_column(tokens) else {
            return Ok(None);
        };
        columns.push(column)?;
        if !more {
            return Ok(Some(columns));
        }
    }
}

// Takes a column, and whether others follow it.
#[tactic(auto, unfolding(crate::specs::Commands::columns_at))]
fn next_column(tokens: &mut Tokens) -> Option<(NewColumn, bool)>
    ensures item { Item columns_in tokens.old tokens.new result }
    ensures shorter { OnSome result (length tokens.new < length tokens.old) }
{
    let name = operands::name(tokens.next()?)?;
    let col_type = operands::col_type(tokens.next()?)?;
    let mark = tokens.next()?;
    let column = NewColumn { name, col_type };
    if operands::is(mark, ",") {
        return Some((column, true));
    }
    (operands::is(mark, ")") && tokens.is_end()).then_some((column, false))
}

// create index NAME on NAME (NAME, ..)
#[tactic(auto, unfolding(crate::specs::Commands::create_index_command))]
fn create_index(alloc: Global, line: &[u8]) -> Result<Option<Command>, NoMemory>
    ensures { IfOk result (λ found. found ≡ create_index_command (tokens line.now)) }
{
    let mut tokens = Tokens::of(line);
    let Some((name, on_table)) = tokens.names_after("create index", "on") else {
        return Ok(None);
    };
    let Some(columns) = enclosed_names(alloc, &mut tokens)? else {
        return Ok(None);
    };
    Ok(Some(Command::CreateIndex {
        name,
        on_table,
        columns,
    }))
}

// (NAME, ..)
#[tactic(auto, unfolding(crate::specs::Commands::enclosed_names))]
fn enclosed_names(alloc: Global, tokens: &mut Tokens) -> Result<Option<Listed<Name>>, NoMemory>
    ensures { IfOk result (λ found. found ≡ names_enclosed tokens.old) }
{
    match tokens.words("(") {
        None => Ok(None),
        Some(()) => names_at(alloc, tokens),
    }
}

// The names up to a closing parenthesis; `None` where they have no such form.
fn names_at(alloc: Global, tokens: &mut Tokens) -> Result<Option<Listed<Name>>, NoMemory>
    ensures { IfOk result (λ found. found ≡ names_in tokens.old) }
{
    let mut names = Listed::new(alloc);
    'items: loop {
        let Some((name, more)) = next_name(tokens) else {
            return Ok(None);
        };
        names.push(name)?;
        if !more {
            return Ok(Some(names));
        }
    }
}

// Takes a name, and whether others follow it.
#[tactic(auto, unfolding(crate::specs::Commands::names_at))]
fn next_name(tokens: &mut Tokens) -> Option<(Name, bool)>
    ensures item { Item names_in tokens.old tokens.new result }
    ensures shorter { OnSome result (length tokens.new < length tokens.old) }
{
    let name = operands::name(tokens.next()?)?;
    let mark = tokens.next()?;
    if operands::is(mark, ",") {
        return Some((name, true));
    }
    (operands::is(mark, ")") && tokens.is_end()).then_some((name, false))
}
