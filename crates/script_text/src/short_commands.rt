ghost use Rattle.std.specs.Prelude.{◌≡◌, Option, List, ℕ};
ghost use Rattle.script_text.specs.Tokens.{tokens};
ghost use Rattle.script_text.specs.Commands.{one_name as one_name_of, two_names as two_names_of, bare_command, savepoint_command, name_command, optional_field as field_of_show, shown_after, show_command, table_command, pair_command, regclass_command, lock_mode as mode_of_lock, lock_command, short_command};

use crate::operands;
use crate::tokens::Tokens;
use base_types::{Command, Field, Mode, Name, Oid};

// The command without a list or operands of an alteration that a line is, if it is one. The groups are
// there for the check, which reads a function of many forms slowly.
#[tactic(auto, unfolding(crate::specs::Commands::short_command))]
pub(crate) fn short(line: &[u8]) -> Option<Command>
    ensures { result ≡ short_command (tokens line.now) }
{
    if let Some(command) = bare(line) {
        return Some(command);
    }
    if let Some(command) = savepoint(line) {
        return Some(command);
    }
    if let Some(command) = named(line) {
        return Some(command);
    }
    if let Some(command) = show(line) {
        return Some(command);
    }
    if let Some(command) = table(line) {
        return Some(command);
    }
    if let Some(command) = pair(line) {
        return Some(command);
    }
    if let Some(command) = regclass(line) {
        return Some(command);
    }
    lock(line)
}

// begin, commit, rollback
#[tactic(auto, unfolding(crate::specs::Commands::bare_command))]
fn bare(line: &[u8]) -> Option<Command>
    ensures { result ≡ bare_command (tokens line.now) }
{
    let tokens = Tokens::of(line);
    if tokens.ends("begin") {
        Some(Command::Begin)
    } else if tokens.ends("commit") {
        Some(Command::Commit)
    } else if tokens.ends("rollback") {
        Some(Command::Rollback)
    } else {
        None
    }
}

// savepoint, release, rollback to
#[tactic(auto, unfolding(crate::specs::Commands::savepoint_command))]
fn savepoint(line: &[u8]) -> Option<Command>
    ensures { result ≡ savepoint_command (tokens line.now) }
{
    if let Some(name) = one_name(line, "savepoint") {
        return Some(Command::Savepoint(name));
    }
    if let Some(name) = one_name(line, "release") {
        return Some(Command::Release(name));
    }
    if let Some(name) = one_name(line, "release savepoint") {
        return Some(Command::Release(name));
    }
    if let Some(name) = one_name(line, "rollback to") {
        return Some(Command::RollbackTo(name));
    }
    let name = one_name(line, "rollback to savepoint")?;
    Some(Command::RollbackTo(name))
}

// The other commands with one name.
#[tactic(auto, unfolding(crate::specs::Commands::name_command))]
fn named(line: &[u8]) -> Option<Command>
    ensures { result ≡ name_command (tokens line.now) }
{
    if let Some(name) = one_name(line, "columns") {
        return Some(Command::Columns(name));
    }
    if let Some(name) = one_name(line, "open") {
        return Some(Command::OpenRel(name));
    }
    if let Some(name) = one_name(line, "close") {
        return Some(Command::CloseRel(name));
    }
    if let Some(name) = one_name(line, "drop table") {
        return Some(Command::DropTable(name));
    }
    let name = one_name(line, "drop index")?;
    Some(Command::DropIndex(name))
}

// These words, a name, and the end.
#[tactic(auto, unfolding(crate::specs::Commands::one_name))]
fn one_name(line: &[u8], words: &str) -> Option<Name>
    ensures { result ≡ one_name_of words.now (tokens line.now) }
{
    let mut tokens = Tokens::of(line);
    let name = tokens.name_after(words)?;
    tokens.ends("").then_some(name)
}

// show NAME, peek NAME, with a field or none
#[tactic(auto, unfolding(crate::specs::Commands::show_command))]
fn show(line: &[u8]) -> Option<Command>
    ensures { result ≡ show_command (tokens line.now) }
{
    if let Some((name, field)) = shown(line, "show") {
        return Some(Command::Show { name, field });
    }
    let (name, field) = shown(line, "peek")?;
    Some(Command::Peek { name, field })
}

// These words, a name, and a field or none.
#[tactic(auto, unfolding(crate::specs::Commands::shown_after))]
fn shown(line: &[u8], words: &str) -> Option<(Name, Option<Field>)>
    ensures { result ≡ shown_after words.now (tokens line.now) }
{
    let mut tokens = Tokens::of(line);
    let name = tokens.name_after(words)?;
    let field = optional_field(tokens)?;
    Some((name, field))
}

// Nothing, or a field.
#[tactic(auto, unfolding(crate::specs::Commands::optional_field))]
fn optional_field(mut tokens: Tokens) -> Option<Option<Field>>
    ensures { result ≡ field_of_show tokens.entry }
{
    if tokens.is_end() {
        return Some(None);
    }
    let field = tokens.field()?;
    tokens.ends("").then_some(Some(field))
}

// Commands of a table and one more name.
#[tactic(auto, unfolding(crate::specs::Commands::table_command))]
fn table(line: &[u8]) -> Option<Command>
    ensures { result ≡ table_command (tokens line.now) }
{
    if let Some((name, column)) = two_names(line, "column", "") {
        return Some(Command::Column { name, column });
    }
    if let Some((name, to)) = two_names(line, "alter table", "rename to") {
        return Some(Command::RenameTable { name, to });
    }
    if let Some((name, column)) = two_names(line, "alter table", "drop column") {
        return Some(Command::DropColumn { name, column });
    }
    if let Some((name, constraint)) = two_names(line, "alter table", "validate constraint") {
        return Some(Command::ValidateConstraint { name, constraint });
    }
    let (name, constraint) = two_names(line, "alter table", "drop constraint")?;
    Some(Command::DropConstraint { name, constraint })
}

// These words, a name, further words, a name, and the end.
#[tactic(auto, unfolding(crate::specs::Commands::two_names))]
fn two_names(line: &[u8], words: &str, further: &str) -> Option<(Name, Name)>
    ensures { result ≡ two_names_of words.now further.now (tokens line.now) }
{
    let mut tokens = Tokens::of(line);
    let names = tokens.names_after(words, further)?;
    tokens.ends("").then_some(names)
}

// Commands of triggers, and the renaming of an index.
#[tactic(auto, unfolding(crate::specs::Commands::pair_command))]
fn pair(line: &[u8]) -> Option<Command>
    ensures { result ≡ pair_command (tokens line.now) }
{
    if let Some((name, trigger)) = two_names(line, "alter table", "enable trigger") {
        return Some(Command::SetTrigger {
            name,
            trigger,
            on: true,
        });
    }
    if let Some((name, trigger)) = two_names(line, "alter table", "disable trigger") {
        return Some(Command::SetTrigger {
            name,
            trigger,
            on: false,
        });
    }
    if let Some((trigger, name)) = two_names(line, "create trigger", "on") {
        return Some(Command::CreateTrigger { name, trigger });
    }
    let (name, to) = two_names(line, "alter index", "rename to")?;
    Some(Command::RenameIndex { name, to })
}

// regclass OID
#[tactic(auto, unfolding(crate::specs::Commands::regclass_command))]
fn regclass(line: &[u8]) -> Option<Command>
    ensures { result ≡ regclass_command (tokens line.now) }
{
    let mut tokens = Tokens::of(line);
    let oid = tokens.number_after("regclass")?;
    if tokens.ends("") {
        Some(Command::Regclass(Oid(oid)))
    } else {
        None
    }
}

// lock table NAME in MODE mode
#[tactic(auto, unfolding(crate::specs::Commands::lock_command))]
fn lock(line: &[u8]) -> Option<Command>
    ensures { result ≡ lock_command (tokens line.now) }
{
    let mut tokens = Tokens::of(line);
    let name = tokens.name_after("lock table")?;
    let mode = lock_mode(&tokens)?;
    Some(Command::LockTable { name, mode })
}

// A lock mode by its words, and the end.
#[tactic(auto, using(crate::proofs::Finding::finds, crate::proofs::Finding::finds_later, crate::proofs::Finding::finds_none), unfolding(crate::specs::Commands::lock_mode))]
fn lock_mode(tokens: &Tokens) -> Option<Mode>
    ensures { result ≡ mode_of_lock tokens.now }
{
    for mode in Mode::ALL {
        if tokens.ends(operands::lock_words(mode)) {
            return Some(mode);
        }
    }
    None
}
