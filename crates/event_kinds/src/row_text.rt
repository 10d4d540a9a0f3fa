ghost use Rattle.std.specs.Prelude.{◌≡◌, ◌≤◌, ◌+◌, ◌++◌, length, FitsSigned, codes, decimal};
ghost use Rattle.std.specs.Fmt.{signed_decimal};
ghost use Rattle.std.specs.Int.{w32};
ghost use Rattle.base_types.specs.Names.{IsAnyName};
ghost use Rattle.base_types.specs.Words.{type_word, live_word as word_of_live};
ghost use Rattle.base_types.specs.declared.line_buffer.TheConstants.{LINE_ROOM};
ghost use Rattle.base_types.specs.declared.row.Row.TheVariants as rows;
ghost use Rattle.event_kinds.specs.Entries.{IsConKind, IsKey, IsNumber, IsRow};
ghost use Rattle.event_kinds.specs.Texts.{con_text, row_text, key_text};

use base_types::{
    ColType, ConKind, IndexState, Kind, LineBuffer, Name, Nums, Oid, Row, RowKey, Word, live_word,
    on_word, push_fill, push_nums, valid_word,
};

// Adds the text of a row, of at most 400 bytes.
#[rattlefmt::skip]
pub(crate) fn push_row(line: &mut LineBuffer, row: &Row)
    requires { length line.old + 400 ≤ LINE_ROOM }
    ensures text { line.new ≡ line.old ++ row_text row.now }
    ensures short { length line.new ≤ length line.old + 400 }
    ensures spelled { IsRow row.now }
{
    match row {
        Row::Class { oid, name, kind, fill } => push_class(line, *oid, name, *kind, *fill),
        Row::Att { rel, num, name, col_type, stat, live } => {
            push_att(line, *rel, *num, name, *col_type, *stat, *live)
        }
        Row::Def { oid, rel, num, word } => push_def(line, *oid, *rel, *num, word),
        Row::Ind { index, table, state, nums } => push_ind(line, *index, *table, *state, nums),
        Row::Con { oid, rel, name, valid, what } => push_con(line, *oid, *rel, name, *valid, what),
        Row::Trg { oid, rel, name, on } => push_trg(line, *oid, *rel, name, *on),
    }
}

// A row of `pg_class`.
fn push_class(line: &mut LineBuffer, oid: Oid, name: &Name, kind: Kind, fill: Option<u32>)
    requires { length line.old + 400 ≤ LINE_ROOM }
    ensures text { line.new ≡ line.old ++ row_text (rows.Class oid name.now kind fill) }
    ensures short { length line.new ≤ length line.old + 400 }
    ensures spelled { IsRow (rows.Class oid name.now kind fill) }
{
    line.push(b"class(");
    line.push_number(oid.0);
    line.push(b",");
    line.push(name.as_bytes());
    line.push(b",");
    line.push(kind.word());
    line.push(b",");
    push_fill(line, fill);
    line.push(b")");
}

// A row of `pg_attribute`.
fn push_att(
    line: &mut LineBuffer,
    rel: Oid,
    num: u32,
    name: &Name,
    col_type: ColType,
    stat: i32,
    live: bool,
)
    requires { length line.old + 400 ≤ LINE_ROOM }
    ensures text { line.new ≡ line.old ++ row_text (rows.Att rel num name.now col_type stat live) }
    ensures short { length line.new ≤ length line.old + 400 }
    ensures spelled { IsRow (rows.Att rel num name.now col_type stat live) }
{
    push_named(line, b"att(", rel.0, num, name);
    push_column(line, col_type, stat, live);
    line.push(b")");
}

// What a column's row says after its name.
fn push_column(line: &mut LineBuffer, col_type: ColType, stat: i32, live: bool)
    requires { length line.old + 80 ≤ LINE_ROOM }
    ensures text { line.new ≡ line.old ++ (type_word col_type ++ codes "," ++ signed_decimal stat ++ codes "," ++ word_of_live live) }
    ensures short { length line.new ≤ length line.old + 80 }
    ensures number { FitsSigned w32 stat }
{
    line.push(col_type.word());
    line.push(b",");
    line.push_signed(stat);
    line.push(b",");
    line.push(live_word(live));
}

// A row of `pg_attrdef`.
fn push_def(line: &mut LineBuffer, oid: Oid, rel: Oid, num: u32, word: &Word)
    requires { length line.old + 400 ≤ LINE_ROOM }
    ensures text { line.new ≡ line.old ++ row_text (rows.Def oid rel num word.now) }
    ensures short { length line.new ≤ length line.old + 400 }
    ensures spelled { IsRow (rows.Def oid rel num word.now) }
{
    line.push(b"def(");
    line.push_number(oid.0);
    line.push(b",");
    line.push_number(rel.0);
    line.push(b",");
    line.push_number(num);
    line.push(b",");
    line.push(word.as_bytes());
    line.push(b")");
}

// A row of `pg_index`.
fn push_ind(line: &mut LineBuffer, index: Oid, table: Oid, state: IndexState, nums: &Nums)
    requires { length line.old + 400 ≤ LINE_ROOM }
    ensures text { line.new ≡ line.old ++ row_text (rows.Ind index table state nums.now) }
    ensures short { length line.new ≤ length line.old + 400 }
    ensures spelled { IsRow (rows.Ind index table state nums.now) }
{
    line.push(b"ind(");
    line.push_number(index.0);
    line.push(b",");
    line.push_number(table.0);
    line.push(b",");
    line.push(state.word());
    line.push(b",");
    push_nums(line, nums);
    line.push(b")");
}

// A row of `pg_constraint`.
fn push_con(line: &mut LineBuffer, oid: Oid, rel: Oid, name: &Name, valid: bool, what: &ConKind)
    requires { length line.old + 400 ≤ LINE_ROOM }
    ensures text { line.new ≡ line.old ++ row_text (rows.Con oid rel name.now valid what.now) }
    ensures short { length line.new ≤ length line.old + 400 }
    ensures spelled { IsRow (rows.Con oid rel name.now valid what.now) }
{
    push_named(line, b"con(", oid.0, rel.0, name);
    push_what(line, valid, what);
    line.push(b")");
}

// A row of `pg_trigger`.
fn push_trg(line: &mut LineBuffer, oid: Oid, rel: Oid, name: &Name, on: bool)
    requires { length line.old + 400 ≤ LINE_ROOM }
    ensures text { line.new ≡ line.old ++ row_text (rows.Trg oid rel name.now on) }
    ensures short { length line.new ≤ length line.old + 400 }
    ensures spelled { IsRow (rows.Trg oid rel name.now on) }
{
    push_named(line, b"trg(", oid.0, rel.0, name);
    line.push(on_word(on));
    line.push(b")");
}

// The first columns of a row: two numbers and a name.
fn push_named(line: &mut LineBuffer, word: &[u8], first: u32, second: u32, name: &Name)
    requires room { length line.old + 120 ≤ LINE_ROOM }
    requires word { length word.now ≤ 6 }
    ensures text { line.new ≡ line.old ++ (word.now ++ decimal first ++ codes "," ++ decimal second ++ codes "," ++ name.now ++ codes ",") }
    ensures short { length line.new ≤ length line.old + 120 }
    ensures spelled { IsNumber first × IsNumber second × IsAnyName name.now }
{
    line.push(word);
    line.push_number(first);
    line.push(b",");
    line.push_number(second);
    line.push(b",");
    line.push(name.as_bytes());
    line.push(b",");
}

// Adds the text of a row's key, of at most 32 bytes.
pub(crate) fn push_key(line: &mut LineBuffer, key: &RowKey)
    requires { length line.old + 32 ≤ LINE_ROOM }
    ensures text { line.new ≡ line.old ++ key_text key.now }
    ensures short { length line.new ≤ length line.old + 32 }
    ensures spelled { IsKey key.now }
{
    match key {
        RowKey::Class(oid) => push_one(line, b"class(", oid.0),
        RowKey::Att(rel, num) => {
            line.push(b"att(");
            line.push_number(rel.0);
            line.push(b",");
            line.push_number(*num);
            line.push(b")");
        }
        RowKey::Def(oid) => push_one(line, b"def(", oid.0),
        RowKey::Ind(oid) => push_one(line, b"ind(", oid.0),
        RowKey::Con(oid) => push_one(line, b"con(", oid.0),
        RowKey::Trg(oid) => push_one(line, b"trg(", oid.0),
    }
}

// A key of one number after its catalog's word.
fn push_one(line: &mut LineBuffer, word: &[u8], number: u32)
    requires room { length line.old + 32 ≤ LINE_ROOM }
    requires word { length word.now ≤ 6 }
    ensures text { line.new ≡ line.old ++ (word.now ++ decimal number ++ codes ")") }
    ensures short { length line.new ≤ length line.old + 32 }
    ensures number { IsNumber number }
{
    line.push(word);
    line.push_number(number);
    line.push(b")");
}

// What a constraint's row says after its name.
fn push_what(line: &mut LineBuffer, valid: bool, what: &ConKind)
    requires { length line.old + 80 ≤ LINE_ROOM }
    ensures text { line.new ≡ line.old ++ con_text valid what.now }
    ensures short { length line.new ≤ length line.old + 80 }
    ensures spelled { IsConKind what.now }
{
    match what {
        ConKind::Check(text) => {
            line.push(b"c,");
            line.push(valid_word(valid));
            line.push(b",");
            line.push(text.as_bytes());
        }
        ConKind::Foreign {
            num,
            refrel,
            refnum,
        } => {
            line.push(b"f,");
            line.push(valid_word(valid));
            line.push(b",");
            line.push_number(*num);
            line.push(b",");
            line.push_number(refrel.0);
            line.push(b",");
            line.push_number(*refnum);
        }
    }
}
