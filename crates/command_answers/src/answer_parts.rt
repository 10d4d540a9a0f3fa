ghost use Rattle.std.specs.Prelude.{◌≡◌, ◌≤◌, ◌+◌, ◌++◌, length, codes, decimal, Some};
ghost use Rattle.std.specs.Fmt.{signed_decimal};
ghost use Rattle.base_types.specs.Names.{IsInLine};
ghost use Rattle.base_types.specs.Words.{mode_word, field_word};
ghost use Rattle.base_types.specs.declared.line_buffer.TheConstants.{LINE_ROOM};
ghost use Rattle.command_answers.specs.Answers.{relation_word, column_text, as_of_text, regclass_text, error_name, error_text};

use crate::{Column, CommandError};
use base_types::{Field, Kind, LineBuffer, Mode, Name, Oid, Xid};

// Adds the word and the number of a relation.
pub(crate) fn push_relation(line: &mut LineBuffer, kind: Kind, rel: Oid)
    requires { length line.old + 16 ≤ LINE_ROOM }
    ensures text { line.new ≡ line.old ++ (relation_word kind ++ decimal rel.0) }
    ensures short { length line.new ≤ length line.old + 16 }
{
    match kind {
        Kind::Table => line.push(b"table "),
        Kind::Index => line.push(b"index "),
    }
    line.push_number(rel.0);
}

// Adds a column of a list.
#[tactic(auto, using(base_types::proofs::InLine::name_in_line))]
pub(crate) fn push_column(line: &mut LineBuffer, column: &Column)
    requires { length line.old + 80 ≤ LINE_ROOM }
    ensures text { line.new ≡ line.old ++ column_text column.now }
    ensures short { length line.new ≤ length line.old + 80 }
    ensures in_line { IsInLine column.now.name }
{
    line.push(column.name.as_bytes());
    line.push(b":");
    line.push(column.col_type.word());
}

// Adds where a value was read, if others may change it.
pub(crate) fn push_as_of(line: &mut LineBuffer, at: Option<u64>)
    requires { length line.old + 27 ≤ LINE_ROOM }
    ensures text { line.new ≡ line.old ++ as_of_text at }
    ensures short { length line.new ≤ length line.old + 27 }
{
    if let Some(entry) = at {
        line.push(b" as of ");
        line.push_u64(entry);
    }
}

// Adds the name of an oid, or that there is none.
pub(crate) fn push_regclass(line: &mut LineBuffer, rel: Oid, name: &Option<Name>)
    requires { length line.old + 63 ≤ LINE_ROOM }
    ensures text { line.new ≡ line.old ++ regclass_text rel name.now }
    ensures short { length line.new ≤ length line.old + 63 }
    ensures in_line { IsInLine (regclass_text rel name.now) }
{
    match name {
        None => {
            line.push_number(rel.0);
            line.push(b" none");
        }
        Some(name) => line.push(name.as_bytes()),
    }
}

// Adds the SQLSTATE of an error and what is wrong.
pub(crate) fn push_error(line: &mut LineBuffer, error: &CommandError)
    requires { length line.old + 200 ≤ LINE_ROOM }
    ensures text { line.new ≡ line.old ++ error_text error.now }
    ensures short { length line.new ≤ length line.old + 200 }
    ensures in_line { IsInLine (error_name error.now) }
{
    match error {
        CommandError::BlockFailed => line.push(b"25P02 the transaction block has failed"),
        CommandError::NoBlock => line.push(b"25P01 no transaction block"),
        CommandError::NoSavepoint { name } => push_absent(line, b"3B001 savepoint ", name),
        CommandError::NotOpen { name } => push_around(line, b"55000 ", name, b" is not open"),
        CommandError::NoRelation { name, at } => push_missing(line, b"42P01 relation ", name, *at),
        CommandError::NoIndex { name, at } => push_missing(line, b"42704 index ", name, *at),
        CommandError::NoConstraint { name } => push_absent(line, b"42704 constraint ", name),
        CommandError::NoTrigger { name } => push_absent(line, b"42704 trigger ", name),
        CommandError::Locked { rel, holder, mode } => push_locked(line, *rel, *holder, *mode),
        CommandError::NameInUse { name, xid } => push_in_use(line, name, *xid),
        CommandError::RelationExists { name } => push_present(line, b"42P07 relation ", name),
        CommandError::NotTable { name } => push_around(line, b"42809 ", name, b" is not a table"),
        CommandError::NotIndex { name } => push_around(line, b"42809 ", name, b" is not an index"),
        CommandError::NoField { name, field } => push_no_field(line, name, *field),
        CommandError::InUse { rel } => push_open(line, *rel),
        CommandError::Depends { name } => push_depends(line, name),
        CommandError::ColumnUsed { name } => push_column_used(line, name),
        CommandError::ColumnExists { name } => push_present(line, b"42701 column ", name),
        CommandError::NoColumn { name } => push_absent(line, b"42703 column ", name),
        CommandError::ConstraintExists { name } => push_present(line, b"42710 constraint ", name),
        CommandError::TriggerExists { name } => push_present(line, b"42710 trigger ", name),
        CommandError::OutOfRange { value } => push_out_of_range(line, value),
        CommandError::TooManyColumns => line.push(b"54011 too many columns"),
        CommandError::WantOfMemory => line.push(b"53200 want of memory"),
    }
}

// Nothing has a name.
fn push_absent(line: &mut LineBuffer, before: &[u8], name: &Name)
    requires room { length line.old + 150 ≤ LINE_ROOM }
    requires before { length before.now ≤ 40 }
    ensures text { line.new ≡ line.old ++ (before.now ++ name.now ++ codes " does not exist") }
    ensures short { length line.new ≤ length line.old + 150 }
    ensures in_line { IsInLine name.now }
{
    push_around(line, before, name, b" does not exist");
}

// Something has a name.
fn push_present(line: &mut LineBuffer, before: &[u8], name: &Name)
    requires room { length line.old + 150 ≤ LINE_ROOM }
    requires before { length before.now ≤ 40 }
    ensures text { line.new ≡ line.old ++ (before.now ++ name.now ++ codes " already exists") }
    ensures short { length line.new ≤ length line.old + 150 }
    ensures in_line { IsInLine name.now }
{
    push_around(line, before, name, b" already exists");
}

// A column is in use.
fn push_column_used(line: &mut LineBuffer, name: &Name)
    requires { length line.old + 150 ≤ LINE_ROOM }
    ensures text { line.new ≡ line.old ++ (codes "0A000 column " ++ name.now ++ codes " is used by an index or constraint") }
    ensures short { length line.new ≤ length line.old + 150 }
    ensures in_line { IsInLine name.now }
{
    push_around(
        line,
        b"0A000 column ",
        name,
        b" is used by an index or constraint",
    );
}

// A relation is open in the session.
fn push_open(line: &mut LineBuffer, rel: Oid)
    requires { length line.old + 90 ≤ LINE_ROOM }
    ensures text { line.new ≡ line.old ++ (codes "55006 relation " ++ decimal rel.0 ++ codes " is open in this session") }
    ensures short { length line.new ≤ length line.old + 90 }
{
    push_between(line, b"55006 relation ", rel.0, b" is open in this session");
}

// A number is out of range.
fn push_out_of_range(line: &mut LineBuffer, value: &i64)
    requires { length line.old + 100 ≤ LINE_ROOM }
    ensures text { line.new ≡ line.old ++ (codes "22023 value " ++ signed_decimal value.now ++ codes " is out of range") }
    ensures short { length line.new ≤ length line.old + 100 }
{
    push_signed_between(line, b"22023 value ", value, b" is out of range");
}

// A name between two texts.
#[tactic(auto, using(base_types::proofs::InLine::name_in_line))]
fn push_around(line: &mut LineBuffer, before: &[u8], name: &Name, after: &[u8])
    requires room { length line.old + 150 ≤ LINE_ROOM }
    requires before { length before.now ≤ 40 }
    requires after { length after.now ≤ 40 }
    ensures text { line.new ≡ line.old ++ (before.now ++ name.now ++ after.now) }
    ensures short { length line.new ≤ length line.old + 150 }
    ensures in_line { IsInLine name.now }
{
    line.push(before);
    line.push(name.as_bytes());
    line.push(after);
}

// Another backend holds a relation.
fn push_locked(line: &mut LineBuffer, rel: Oid, holder: u32, mode: Mode)
    requires { length line.old + 110 ≤ LINE_ROOM }
    ensures text { line.new ≡ line.old ++ (codes "55P03 relation " ++ decimal rel.0 ++ codes " is locked by backend " ++ decimal holder ++ codes " in " ++ mode_word mode) }
    ensures short { length line.new ≤ length line.old + 110 }
{
    push_between(line, b"55P03 relation ", rel.0, b" is locked by backend ");
    line.push_number(holder);
    line.push(b" in ");
    line.push(mode.word());
}

// A relation has no such field.
fn push_no_field(line: &mut LineBuffer, name: &Name, field: Field)
    requires { length line.old + 170 ≤ LINE_ROOM }
    ensures text { line.new ≡ line.old ++ (codes "42809 " ++ name.now ++ codes " has no field " ++ field_word field) }
    ensures short { length line.new ≤ length line.old + 170 }
    ensures in_line { IsInLine name.now }
{
    push_around(line, b"42809 ", name, b" has no field ");
    line.push(field.word());
}

// No relation or index has a name, and where that was read.
fn push_missing(line: &mut LineBuffer, before: &[u8], name: &Name, at: u64)
    requires room { length line.old + 180 ≤ LINE_ROOM }
    requires before { length before.now ≤ 40 }
    ensures text { line.new ≡ line.old ++ (before.now ++ name.now ++ codes " does not exist" ++ as_of_text (Some at)) }
    ensures short { length line.new ≤ length line.old + 180 }
    ensures in_line { IsInLine name.now }
{
    push_around(line, before, name, b" does not exist");
    push_as_of(line, Some(at));
}

// A name is in use by a transaction.
fn push_in_use(line: &mut LineBuffer, name: &Name, xid: Xid)
    requires { length line.old + 160 ≤ LINE_ROOM }
    ensures text { line.new ≡ line.old ++ (codes "55P03 name " ++ name.now ++ codes " is in use by transaction " ++ decimal xid.0) }
    ensures short { length line.new ≤ length line.old + 160 }
    ensures in_line { IsInLine name.now }
{
    push_around(line, b"55P03 name ", name, b" is in use by transaction ");
    line.push_number(xid.0);
}

// A number between two texts.
fn push_between(line: &mut LineBuffer, before: &[u8], number: u32, after: &[u8])
    requires room { length line.old + 90 ≤ LINE_ROOM }
    requires before { length before.now ≤ 40 }
    requires after { length after.now ≤ 40 }
    ensures text { line.new ≡ line.old ++ (before.now ++ decimal number ++ after.now) }
    ensures short { length line.new ≤ length line.old + 90 }
{
    line.push(before);
    line.push_number(number);
    line.push(after);
}

// Other objects depend on a relation.
#[tactic(auto, using(base_types::proofs::InLine::name_in_line))]
fn push_depends(line: &mut LineBuffer, name: &Name)
    requires { length line.old + 110 ≤ LINE_ROOM }
    ensures text { line.new ≡ line.old ++ (codes "2BP01 other objects depend on relation " ++ name.now) }
    ensures short { length line.new ≤ length line.old + 110 }
    ensures in_line { IsInLine name.now }
{
    line.push(b"2BP01 other objects depend on relation ");
    line.push(name.as_bytes());
}

// A number that may be below 0 between two texts.
fn push_signed_between(line: &mut LineBuffer, before: &[u8], number: &i64, after: &[u8])
    requires room { length line.old + 100 ≤ LINE_ROOM }
    requires before { length before.now ≤ 40 }
    requires after { length after.now ≤ 40 }
    ensures text { line.new ≡ line.old ++ (before.now ++ signed_decimal number.now ++ after.now) }
    ensures short { length line.new ≤ length line.old + 100 }
{
    line.push(before);
    line.push_i64(*number);
    line.push(after);
}
