ghost use Rattle.std.specs.Prelude.{◌≡◌, ◌++◌, true, [], ◌∷◌, decimal, flat_map, codes};
ghost use Rattle.std.specs.Fmt.{signed_decimal};
ghost use Rattle.base_types.specs.Words.{type_word};
ghost use Rattle.script_text.specs.Operands.{lock_words};
ghost use Rattle.script_text.specs.Alterations.{is_alteration};
ghost use Rattle.script_text.specs.Spelling.{AddsPieces, command_pieces, shown_pieces, valid_pieces, trigger_words as words_of_trigger, listed, column_pieces, name_pieces};

use crate::adding_pieces::{named, number, piece, signed, two_names, words};
use crate::operands;
use base_types::{
    ColType, Command, Field, Listed, Mode, Name, NewColumn, NoMemory, Oid, Text, Word,
};

// A command: one call for each form.
#[rattlefmt::skip]
pub(crate) fn command(out: &mut Vec<u8>, command: &Command) -> Result<(), NoMemory>
    ensures { AddsPieces out.old.items out.new.items result (command_pieces command.now) }
{
    match command {
        Command::Begin => words(out, "begin"),
        Command::Commit => words(out, "commit"),
        Command::Rollback => words(out, "rollback"),
        Command::Savepoint(name) => named(out, "savepoint", name),
        Command::Release(name) => named(out, "release", name),
        Command::RollbackTo(name) => named(out, "rollback to", name),
        Command::Show { name, field } => shown(out, "show", name, *field),
        Command::Columns(name) => named(out, "columns", name),
        Command::Column { name, column } => one_column(out, name, column),
        Command::Regclass(oid) => regclass(out, *oid),
        Command::LockTable { name, mode } => lock_table(out, name, *mode),
        Command::OpenRel(name) => named(out, "open", name),
        Command::Peek { name, field } => shown(out, "peek", name, *field),
        Command::CloseRel(name) => named(out, "close", name),
        Command::CreateTable { name, columns } => create_table(out, name, columns),
        Command::DropTable(name) => named(out, "drop table", name),
        Command::CreateTrigger { name, trigger } => create_trigger(out, name, trigger),
        Command::CreateIndex { name, on_table, columns } =>
            create_index(out, name, on_table, columns),
        Command::DropIndex(name) => named(out, "drop index", name),
        Command::RenameIndex { name, to } => two_names(out, "alter index", name, "rename to", to),
        _ => alteration(out, command),
    }
}

// An alteration of a table: one call for each form.
#[rattlefmt::skip]
fn alteration(out: &mut Vec<u8>, command: &Command) -> Result<(), NoMemory>
    requires { is_alteration command.now ≡ true }
    ensures { AddsPieces out.old.items out.new.items result (command_pieces command.now) }
{
    match command {
        Command::RenameTable { name, to } => altered(out, name, "rename to", to),
        Command::AddColumn { name, column, col_type } => add_column(out, name, column, *col_type),
        Command::DropColumn { name, column } => altered(out, name, "drop column", column),
        Command::RenameColumn { name, column, to } => rename_column(out, name, column, to),
        Command::SetDefault { name, column, word } => set_default(out, name, column, word),
        Command::SetStatistics { name, column, stat } => set_statistics(out, name, column, *stat),
        Command::SetFillfactor { name, fill } => set_fillfactor(out, name, *fill),
        Command::AddCheck { name, constraint, text, valid } =>
            add_check(out, name, constraint, text, *valid),
        Command::AddForeign { name, constraint, column, refers, ref_column, valid } =>
            add_foreign(out, name, constraint, column, refers, ref_column, *valid),
        Command::ValidateConstraint { name, constraint } =>
            altered(out, name, "validate constraint", constraint),
        Command::DropConstraint { name, constraint } =>
            altered(out, name, "drop constraint", constraint),
        Command::SetTrigger { name, trigger, on } => set_trigger(out, name, trigger, *on),
        _ => unreachable!(),
    }
}

// Words, a name, and a field if one is asked for.
fn shown(out: &mut Vec<u8>, text: &str, name: &Name, field: Option<Field>) -> Result<(), NoMemory>
    ensures { AddsPieces out.old.items out.new.items result (shown_pieces text.now name.now field) }
{
    named(out, text, name)?;
    match field {
        None => Ok(()),
        Some(field) => piece(out, field.word()),
    }
}

// column NAME NAME
fn one_column(out: &mut Vec<u8>, name: &Name, column: &Name) -> Result<(), NoMemory>
    ensures { AddsPieces out.old.items out.new.items result (codes "column" ∷ name.now ∷ column.now ∷ []) }
{
    named(out, "column", name)?;
    piece(out, column.as_bytes())
}

// regclass OID
fn regclass(out: &mut Vec<u8>, oid: Oid) -> Result<(), NoMemory>
    ensures { AddsPieces out.old.items out.new.items result (codes "regclass" ∷ decimal oid.0 ∷ []) }
{
    words(out, "regclass")?;
    number(out, u64::from(oid.0))
}

// lock table NAME in MODE mode
fn lock_table(out: &mut Vec<u8>, name: &Name, mode: Mode) -> Result<(), NoMemory>
    ensures { AddsPieces out.old.items out.new.items result (codes "lock table" ∷ name.now ∷ lock_words mode ∷ []) }
{
    named(out, "lock table", name)?;
    words(out, operands::lock_words(mode))
}

// create table NAME (NAME TYPE, ..)
fn create_table(out: &mut Vec<u8>, name: &Name, items: &Listed<NewColumn>) -> Result<(), NoMemory>
    ensures { AddsPieces out.old.items out.new.items result (codes "create table" ∷ name.now ∷ codes "(" ∷ listed column_pieces items.now ++ codes ")" ∷ []) }
{
    named(out, "create table", name)?;
    enclosed_columns(out, items.as_slice())
}

// Columns in parentheses.
fn enclosed_columns(out: &mut Vec<u8>, items: &[NewColumn]) -> Result<(), NoMemory>
    ensures { AddsPieces out.old.items out.new.items result (codes "(" ∷ listed column_pieces items.now ++ codes ")" ∷ []) }
{
    words(out, "(")?;
    columns(out, items)?;
    words(out, ")")
}

// Columns with commas between them.
#[tactic(auto, unfolding(crate::specs::Spelling::listed))]
fn columns(out: &mut Vec<u8>, columns: &[NewColumn]) -> Result<(), NoMemory>
    ensures { AddsPieces out.old.items out.new.items result (listed column_pieces columns.now) }
{
    let [first, others @ ..] = columns else {
        return Ok(());
    };
    column(out, first)?;
    more_columns(out, others)
}

// Columns, each after a comma.
fn more_columns(out: &mut Vec<u8>, columns: &[NewColumn]) -> Result<(), NoMemory>
    ensures { AddsPieces out.old.items out.new.items result (flat_map (λ c. codes "," ∷ column_pieces c) columns.now) }
{
    for item in columns {
        words(out, ",")?;
        column(out, item)?;
    }
    Ok(())
}

// A column.
fn column(out: &mut Vec<u8>, column: &NewColumn) -> Result<(), NoMemory>
    ensures { AddsPieces out.old.items out.new.items result (column_pieces column.now) }
{
    piece(out, column.name.as_bytes())?;
    piece(out, column.col_type.word())
}

// alter table NAME, words, and another name
fn altered(out: &mut Vec<u8>, name: &Name, text: &str, second: &Name) -> Result<(), NoMemory>
    ensures { AddsPieces out.old.items out.new.items result (codes "alter table" ∷ name.now ∷ text.now ∷ second.now ∷ []) }
{
    two_names(out, "alter table", name, text, second)
}

// alter table NAME add column NAME TYPE
fn add_column(
    out: &mut Vec<u8>,
    name: &Name,
    column: &Name,
    col_type: ColType,
) -> Result<(), NoMemory>
    ensures { AddsPieces out.old.items out.new.items result (codes "alter table" ∷ name.now ∷ codes "add column" ∷ column.now ∷ type_word col_type ∷ []) }
{
    altered(out, name, "add column", column)?;
    piece(out, col_type.word())
}

// alter table NAME rename column NAME to NAME
fn rename_column(out: &mut Vec<u8>, name: &Name, column: &Name, to: &Name) -> Result<(), NoMemory>
    ensures { AddsPieces out.old.items out.new.items result (codes "alter table" ∷ name.now ∷ codes "rename column" ∷ column.now ∷ codes "to" ∷ to.now ∷ []) }
{
    altered(out, name, "rename column", column)?;
    named(out, "to", to)
}

// alter table NAME alter column NAME set default WORD
fn set_default(out: &mut Vec<u8>, name: &Name, column: &Name, word: &Word) -> Result<(), NoMemory>
    ensures { AddsPieces out.old.items out.new.items result (codes "alter table" ∷ name.now ∷ codes "alter column" ∷ column.now ∷ codes "set default" ∷ word.now ∷ []) }
{
    altered(out, name, "alter column", column)?;
    words(out, "set default")?;
    piece(out, word.as_bytes())
}

// alter table NAME alter column NAME set statistics STAT
fn set_statistics(out: &mut Vec<u8>, name: &Name, column: &Name, stat: i32) -> Result<(), NoMemory>
    ensures { AddsPieces out.old.items out.new.items result (codes "alter table" ∷ name.now ∷ codes "alter column" ∷ column.now ∷ codes "set statistics" ∷ signed_decimal stat ∷ []) }
{
    altered(out, name, "alter column", column)?;
    words(out, "set statistics")?;
    signed(out, stat)
}

// alter table NAME set (fillfactor = NUMBER)
fn set_fillfactor(out: &mut Vec<u8>, name: &Name, fill: u32) -> Result<(), NoMemory>
    ensures { AddsPieces out.old.items out.new.items result (codes "alter table" ∷ name.now ∷ codes "set (fillfactor =" ∷ decimal fill ∷ codes ")" ∷ []) }
{
    named(out, "alter table", name)?;
    words(out, "set (fillfactor =")?;
    number(out, u64::from(fill))?;
    words(out, ")")
}

// alter table NAME add constraint NAME check (TEXT)
fn add_check(
    out: &mut Vec<u8>,
    name: &Name,
    constraint: &Name,
    text: &Text,
    is_valid: bool,
) -> Result<(), NoMemory>
    ensures { AddsPieces out.old.items out.new.items result (codes "alter table" ∷ name.now ∷ codes "add constraint" ∷ constraint.now ∷ codes "check (" ∷ text.now ∷ codes ")" ∷ valid_pieces is_valid) }
{
    altered(out, name, "add constraint", constraint)?;
    words(out, "check (")?;
    piece(out, text.as_bytes())?;
    words(out, ")")?;
    valid(out, is_valid)
}

// alter table NAME add constraint NAME foreign key (NAME) references NAME (NAME)
fn add_foreign(
    out: &mut Vec<u8>,
    name: &Name,
    constraint: &Name,
    column: &Name,
    refers: &Name,
    ref_column: &Name,
    is_valid: bool,
) -> Result<(), NoMemory>
    ensures { AddsPieces out.old.items out.new.items result (codes "alter table" ∷ name.now ∷ codes "add constraint" ∷ constraint.now ∷ codes "foreign key (" ∷ column.now ∷ codes ") references" ∷ refers.now ∷ codes "(" ∷ ref_column.now ∷ codes ")" ∷ valid_pieces is_valid) }
{
    altered(out, name, "add constraint", constraint)?;
    foreign_key(out, column, refers, ref_column, is_valid)
}

// The columns and the table of a foreign key, and whether it is valid at once.
fn foreign_key(
    out: &mut Vec<u8>,
    column: &Name,
    refers: &Name,
    ref_column: &Name,
    is_valid: bool,
) -> Result<(), NoMemory>
    ensures { AddsPieces out.old.items out.new.items result (codes "foreign key (" ∷ column.now ∷ codes ") references" ∷ refers.now ∷ codes "(" ∷ ref_column.now ∷ codes ")" ∷ valid_pieces is_valid) }
{
    two_names(out, "foreign key (", column, ") references", refers)?;
    referred(out, ref_column, is_valid)
}

// The column that a foreign key refers to, and whether it is valid at once.
fn referred(out: &mut Vec<u8>, ref_column: &Name, is_valid: bool) -> Result<(), NoMemory>
    ensures { AddsPieces out.old.items out.new.items result (codes "(" ∷ ref_column.now ∷ codes ")" ∷ valid_pieces is_valid) }
{
    named(out, "(", ref_column)?;
    words(out, ")")?;
    valid(out, is_valid)
}

// Whether a constraint is valid at once.
fn valid(out: &mut Vec<u8>, valid: bool) -> Result<(), NoMemory>
    ensures { AddsPieces out.old.items out.new.items result (valid_pieces valid) }
{
    if valid {
        Ok(())
    } else {
        words(out, "not valid")
    }
}

// alter table NAME enable trigger NAME, or disable
fn set_trigger(out: &mut Vec<u8>, name: &Name, trigger: &Name, on: bool) -> Result<(), NoMemory>
    ensures { AddsPieces out.old.items out.new.items result (codes "alter table" ∷ name.now ∷ words_of_trigger on ∷ trigger.now ∷ []) }
{
    altered(out, name, trigger_words(on), trigger)
}

// A trigger is enabled or disabled.
fn trigger_words(on: bool) -> &'static str
    ensures { result.now ≡ words_of_trigger on }
{
    if on {
        "enable trigger"
    } else {
        "disable trigger"
    }
}

// create trigger NAME on NAME
fn create_trigger(out: &mut Vec<u8>, name: &Name, trigger: &Name) -> Result<(), NoMemory>
    ensures { AddsPieces out.old.items out.new.items result (codes "create trigger" ∷ trigger.now ∷ codes "on" ∷ name.now ∷ []) }
{
    two_names(out, "create trigger", trigger, "on", name)
}

// create index NAME on NAME (NAME, ..)
fn create_index(
    out: &mut Vec<u8>,
    name: &Name,
    on_table: &Name,
    items: &Listed<Name>,
) -> Result<(), NoMemory>
    ensures { AddsPieces out.old.items out.new.items result (codes "create index" ∷ name.now ∷ codes "on" ∷ on_table.now ∷ codes "(" ∷ listed name_pieces items.now ++ codes ")" ∷ []) }
{
    two_names(out, "create index", name, "on", on_table)?;
    words(out, "(")?;
    names(out, items.as_slice())?;
    words(out, ")")
}

// Names with commas between them.
#[tactic(auto, unfolding(crate::specs::Spelling::listed))]
fn names(out: &mut Vec<u8>, names: &[Name]) -> Result<(), NoMemory>
    ensures { AddsPieces out.old.items out.new.items result (listed name_pieces names.now) }
{
    let [first, others @ ..] = names else {
        return Ok(());
    };
    piece(out, first.as_bytes())?;
    more_names(out, others)
}

// Names, each after a comma.
fn more_names(out: &mut Vec<u8>, names: &[Name]) -> Result<(), NoMemory>
    ensures { AddsPieces out.old.items out.new.items result (flat_map (λ n. codes "," ∷ name_pieces n) names.now) }
{
    for name in names {
        named(out, ",", name)?;
    }
    Ok(())
}
