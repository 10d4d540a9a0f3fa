ghost use Rattle.std.specs.Prelude.{◌≡◌, ◌++◌, ◌∷◌, codes, decimal, OnOk, OnErr};
ghost use Rattle.std.specs.List.{flat_map};
ghost use Rattle.base_types.specs.Adding.{Adds};
ghost use Rattle.base_types.specs.Names.{IsInLine};
ghost use Rattle.command_answers.specs.Answers.{answer_text as text_of_answer, relation_word, shown_text, shown_list, column_text, columns_text, as_of_text};

use crate::answer_parts::{push_as_of, push_column, push_error, push_regclass, push_relation};
use crate::{Answer, Column, Shown};
use base_types::{Kind, LineBuffer, NoMemory, Oid, add_text, whole_or_nothing};
use event_kinds::LineText;

/// Adds the text of an answer to `out`; out of memory leaves `out` as it was.
pub fn answer_text(answer: &Answer, out: &mut Vec<u8>) -> Result<(), NoMemory>
    ensures ok { OnOk result (out.new.items ≡ out.old.items ++ text_of_answer answer.now) }
    ensures err { OnErr result (out.new.items ≡ out.old.items) }
    ensures in_line { OnOk result (IsInLine (text_of_answer answer.now)) }
{
    let before = out.len();
    let added = add_answer(answer, out);
    whole_or_nothing(out, before, added)
}

// The text of an answer, or a prefix of it.
#[tactic(auto, using(crate::proofs::InLine::one_column_in_line, crate::proofs::InLine::regclass_in_line, crate::proofs::InLine::error_in_line))]
fn add_answer(answer: &Answer, out: &mut Vec<u8>) -> Result<(), NoMemory>
    ensures text { Adds out.old.items out.new.items result (text_of_answer answer.now) }
    ensures in_line { OnOk result (IsInLine (text_of_answer answer.now)) }
{
    match answer {
        Answer::Ok => add_text(b"ok", out),
        Answer::RolledBack => add_text(b"rolled back", out),
        Answer::Shown { kind, rel, fields } => add_relation(*kind, *rel, fields.as_slice(), out),
        Answer::One(shown) => add_shown(shown, out),
        Answer::Columns(columns) => add_columns(columns.as_slice(), out),
        Answer::Column { num, col_type } => {
            let mut line = LineBuffer::new();
            line.push(b"column ");
            line.push_number(*num);
            line.push(b" ");
            line.push(col_type.word());
            add_text(line.as_bytes(), out)
        }
        Answer::Regclass { rel, name, at } => {
            let mut line = LineBuffer::new();
            line.push(b"regclass ");
            push_regclass(&mut line, *rel, name);
            push_as_of(&mut line, Some(*at));
            add_text(line.as_bytes(), out)
        }
        Answer::Error(error) => {
            let mut line = LineBuffer::new();
            line.push(b"error ");
            push_error(&mut line, error);
            add_text(line.as_bytes(), out)
        }
    }
}

// A table or an index, and its fields.
#[tactic(auto, using(crate::proofs::InLine::relation_in_line))]
fn add_relation(kind: Kind, rel: Oid, fields: &[Shown], out: &mut Vec<u8>) -> Result<(), NoMemory>
    ensures text { Adds out.old.items out.new.items result (relation_word kind ++ decimal rel.0 ++ shown_list fields.now) }
    ensures in_line { OnOk result (IsInLine (relation_word kind ++ decimal rel.0 ++ shown_list fields.now)) }
{
    let mut head = LineBuffer::new();
    push_relation(&mut head, kind, rel);
    add_text(head.as_bytes(), out)?;
    add_fields(fields, out)
}

// Fields, `; ` before each.
fn add_fields(fields: &[Shown], out: &mut Vec<u8>) -> Result<(), NoMemory>
    ensures text { Adds out.old.items out.new.items result (shown_list fields.now) }
    ensures in_line { OnOk result (IsInLine (shown_list fields.now)) }
{
    for shown in fields {
        add_next(shown, out)?;
    }
    Ok(())
}

// A field after `; `.
fn add_next(shown: &Shown, out: &mut Vec<u8>) -> Result<(), NoMemory>
    ensures text { Adds out.old.items out.new.items result (codes "; " ++ shown_text shown.now) }
    ensures in_line { OnOk result (IsInLine (codes "; " ++ shown_text shown.now)) }
{
    add_text(b"; ", out)?;
    add_shown(shown, out)
}

// A field: its word, its value, and where it was read.
#[tactic(auto, using(crate::proofs::InLine::shown_in_line))]
fn add_shown(shown: &Shown, out: &mut Vec<u8>) -> Result<(), NoMemory>
    ensures text { Adds out.old.items out.new.items result (shown_text shown.now) }
    ensures in_line { OnOk result (IsInLine (shown_text shown.now)) }
{
    let mut head = LineBuffer::new();
    head.push(shown.field.word());
    head.push(b" ");
    add_text(head.as_bytes(), out)?;
    add_value(&shown.value, shown.at, out)
}

// A value, and where it was read.
fn add_value(value: &LineText, at: Option<u64>, out: &mut Vec<u8>) -> Result<(), NoMemory>
    ensures text { Adds out.old.items out.new.items result (value.now ++ as_of_text at) }
    ensures in_line { IsInLine value.now }
{
    add_text(value.as_bytes(), out)?;
    let mut line = LineBuffer::new();
    push_as_of(&mut line, at);
    add_text(line.as_bytes(), out)
}

// A list of columns, or a dash.
fn add_columns(columns: &[Column], out: &mut Vec<u8>) -> Result<(), NoMemory>
    ensures text { Adds out.old.items out.new.items result (codes "columns " ++ columns_text columns.now) }
    ensures in_line { OnOk result (IsInLine (codes "columns " ++ columns_text columns.now)) }
{
    match columns.split_first() {
        None => add_text(b"columns -", out),
        Some((first, others)) => add_some_columns(first, others, out),
    }
}

// A list of columns that has a first one.
#[tactic(auto, using(crate::proofs::InLine::columns_in_line))]
fn add_some_columns(first: &Column, others: &[Column], out: &mut Vec<u8>) -> Result<(), NoMemory>
    ensures text { Adds out.old.items out.new.items result (codes "columns " ++ columns_text (first.now ∷ others.now)) }
    ensures in_line { OnOk result (IsInLine (codes "columns " ++ columns_text (first.now ∷ others.now))) }
{
    let mut line = LineBuffer::new();
    line.push(b"columns ");
    push_column(&mut line, first);
    add_text(line.as_bytes(), out)?;
    add_other_columns(others, out)
}

// More columns, a blank before each.
fn add_other_columns(columns: &[Column], out: &mut Vec<u8>) -> Result<(), NoMemory>
    ensures text { Adds out.old.items out.new.items result (flat_map (λ column. codes " " ++ column_text column) columns.now) }
    ensures in_line { OnOk result (IsInLine (flat_map (λ column. codes " " ++ column_text column) columns.now)) }
{
    for column in columns {
        let mut line = LineBuffer::new();
        line.push(b" ");
        push_column(&mut line, column);
        add_text(line.as_bytes(), out)?;
    }
    Ok(())
}
