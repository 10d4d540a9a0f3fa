ghost use Rattle.std.specs.Prelude.{◌≡◌, ◌<◌, ◌≤◌, ◌+◌, ◌^◌, ◌++◌, ◌∷◌, [], length, Some, IfSome, codes, decimal};
ghost use Rattle.std.specs.List.{All};
ghost use Rattle.base_types.specs.declared.nums.TheConstants.{MOST_INDEX_COLUMNS};
ghost use Rattle.std.specs.Fmt.{signed_decimal};
ghost use Rattle.base_types.specs.Names.{IsInLine};
ghost use Rattle.base_types.specs.Words.{fill_text, nums_text, state_word, type_word, on_word as word_of_on, valid_word as word_of_valid};
ghost use Rattle.base_types.specs.Fields.{item_of as item_in, item_of_class as of_class, item_of_column as of_column, item_of_default as of_default, item_of_index as of_index, item_of_constraint as of_constraint, item_of_trigger as of_trigger, constraint_text, referring_item as item_from};

use crate::{
    ColType, ConKind, Field, IndexState, LINE_ROOM, LONGEST_TEXT, LineBuffer, Name, Nums, Oid, Row,
    Text, Word, on_word, valid_word,
};

/// What a row adds to a field of the relation.
pub fn item_of(field: Field, rel: Oid, row: &Row) -> Option<LineBuffer>
    ensures text { result ≡ item_in field rel row.now }
    ensures in_line { IfSome result IsInLine }
{
    match row {
        Row::Class { name, fill, .. } => item_of_class(field, name, *fill),
        Row::Att {
            num,
            name,
            col_type,
            stat,
            live,
            ..
        } => {
            if *live {
                item_of_column(field, *num, name, *col_type, *stat)
            } else {
                None
            }
        }
        Row::Def { num, word, .. } => item_of_default(field, *num, word),
        Row::Ind {
            index,
            table,
            state,
            nums,
        } => item_of_index(field, *index, *table, *state, nums),
        Row::Con {
            oid,
            rel: of,
            name,
            valid,
            what,
        } => item_of_constraint(field, rel, *oid, *of, name, *valid, what),
        Row::Trg { name, on, .. } => item_of_trigger(field, name, *on),
    }
}

// What a relation's row adds to a field.
fn item_of_class(field: Field, name: &Name, fill: Option<u32>) -> Option<LineBuffer>
    ensures text { result ≡ of_class field name.now fill }
    ensures in_line { IfSome result IsInLine }
{
    match field {
        Field::Name => Some(name_item(name)),
        Field::Fillfactor => Some(fill_item(fill)),
        _ => None,
    }
}

// What the row of a live column adds.
fn item_of_column(
    field: Field,
    num: u32,
    name: &Name,
    col_type: ColType,
    stat: i32,
) -> Option<LineBuffer>
    ensures text { result ≡ of_column field num name.now col_type stat }
    ensures in_line { IfSome result IsInLine }
{
    match field {
        Field::Columns => Some(column_item(name, col_type)),
        Field::Statistics => Some(statistics_item(num, stat)),
        _ => None,
    }
}

// What the row of a default adds.
fn item_of_default(field: Field, num: u32, word: &Word) -> Option<LineBuffer>
    ensures text { result ≡ of_default field num word.now }
    ensures in_line { IfSome result IsInLine }
{
    match field {
        Field::Defaults => Some(default_item(num, word)),
        _ => None,
    }
}

// What the row of an index adds, to a field of its table or of the index.
fn item_of_index(
    field: Field,
    index: Oid,
    table: Oid,
    state: IndexState,
    nums: &Nums,
) -> Option<LineBuffer>
    ensures text { result ≡ of_index field index table state nums.now }
    ensures in_line { IfSome result IsInLine }
{
    match field {
        Field::Indexes => Some(index_item(index, state, nums)),
        Field::Of => Some(columns_item(table, nums)),
        Field::Valid => Some(state_item(state)),
        _ => None,
    }
}

// What the row of a constraint adds, its own or that of a foreign key that refers to the relation.
fn item_of_constraint(
    field: Field,
    rel: Oid,
    oid: Oid,
    of: Oid,
    name: &Name,
    valid: bool,
    what: &ConKind,
) -> Option<LineBuffer>
    ensures text { result ≡ of_constraint field rel oid of name.now valid what.now }
    ensures in_line { IfSome result IsInLine }
{
    match field {
        Field::Constraints if of.0 == rel.0 => Some(constraint_item(name, valid, what)),
        Field::Referenced => referring_item(rel, oid, of, what),
        _ => None,
    }
}

// What the row of a trigger adds.
fn item_of_trigger(field: Field, name: &Name, on: bool) -> Option<LineBuffer>
    ensures text { result ≡ of_trigger field name.now on }
    ensures in_line { IfSome result IsInLine }
{
    match field {
        Field::Triggers => Some(trigger_item(name, on)),
        _ => None,
    }
}

#[tactic(auto, using(crate::proofs::InLine::name_in_line))]
fn name_item(name: &Name) -> LineBuffer
    ensures text { result ≡ name.now }
    ensures short { length result ≤ LONGEST_TEXT }
    ensures in_line { IsInLine result }
{
    let mut line = LineBuffer::new();
    line.push(name.as_bytes());
    line
}

#[tactic(auto, using(crate::proofs::InLine::joined_in_line, crate::proofs::InLine::type_in_line))]
fn column_item(name: &Name, col_type: ColType) -> LineBuffer
    ensures text { result ≡ name.now ++ codes ":" ++ type_word col_type }
    ensures in_line { IsInLine result }
{
    let mut line = name_item(name);
    line.push(b":");
    line.push(col_type.word());
    line
}

#[tactic(auto, using(crate::proofs::InLine::joined_in_line, crate::proofs::InLine::decimal_in_line, crate::proofs::InLine::word_in_line))]
fn default_item(num: u32, word: &Word) -> LineBuffer
    ensures text { result ≡ decimal num ++ codes "=" ++ word.now }
    ensures in_line { IsInLine result }
{
    let mut line = LineBuffer::new();
    line.push_number(num);
    line.push(b"=");
    line.push(word.as_bytes());
    line
}

#[tactic(auto, using(crate::proofs::InLine::joined_in_line, crate::proofs::InLine::decimal_in_line, crate::proofs::InLine::signed_in_line))]
fn statistics_item(num: u32, stat: i32) -> LineBuffer
    ensures text { result ≡ decimal num ++ codes ":" ++ signed_decimal stat }
    ensures in_line { IsInLine result }
{
    let mut line = LineBuffer::new();
    line.push_number(num);
    line.push(b":");
    line.push_signed(stat);
    line
}

#[tactic(auto, using(crate::proofs::InLine::fill_in_line))]
fn fill_item(fill: Option<u32>) -> LineBuffer
    ensures text { result ≡ fill_text fill }
    ensures in_line { IsInLine result }
{
    let mut line = LineBuffer::new();
    push_fill(&mut line, fill);
    line
}

#[tactic(auto, using(crate::proofs::InLine::joined_in_line, crate::proofs::InLine::decimal_in_line, crate::proofs::InLine::valid_in_line, crate::proofs::InLine::text_in_line))]
fn constraint_item(name: &Name, valid: bool, what: &ConKind) -> LineBuffer
    ensures text { result ≡ name.now ++ constraint_text valid what.now }
    ensures in_line { IsInLine result }
{
    let mut line = name_item(name);
    match what {
        ConKind::Check(text) => {
            line.push(b":check:");
            line.push(valid_word(valid));
            line.push(b":");
            line.push(text.as_bytes());
        }
        ConKind::Foreign {
            num,
            refrel,
            refnum,
        } => {
            line.push(b":fk:");
            line.push(valid_word(valid));
            push_after_colon(&mut line, *num);
            push_after_colon(&mut line, refrel.0);
            push_after_colon(&mut line, *refnum);
        }
    }
    line
}

// Adds a number after a colon.
#[tactic(auto, using(crate::proofs::InLine::joined_in_line, crate::proofs::InLine::decimal_in_line))]
fn push_after_colon(line: &mut LineBuffer, number: u32)
    requires { length line.old + 11 ≤ LINE_ROOM }
    ensures text { line.new ≡ line.old ++ codes ":" ++ decimal number }
    ensures short { length line.new ≤ length line.old + 11 }
    ensures in_line { IsInLine line.old → IsInLine line.new }
{
    line.push(b":");
    line.push_number(number);
}

#[tactic(auto, using(crate::proofs::InLine::joined_in_line, crate::proofs::InLine::decimal_in_line))]
fn referring_item(rel: Oid, oid: Oid, of: Oid, what: &ConKind) -> Option<LineBuffer>
    ensures text { result ≡ item_from rel oid of what.now }
    ensures in_line { IfSome result IsInLine }
{
    match what {
        ConKind::Foreign { refrel, refnum, .. } if refrel.0 == rel.0 => {
            let mut line = LineBuffer::new();
            line.push_number(oid.0);
            line.push(b":");
            line.push_number(of.0);
            line.push(b":");
            line.push_number(*refnum);
            Some(line)
        }
        _ => None,
    }
}

#[tactic(auto, using(crate::proofs::InLine::joined_in_line, crate::proofs::InLine::decimal_in_line, crate::proofs::InLine::state_in_line, crate::proofs::InLine::nums_in_line))]
fn index_item(index: Oid, state: IndexState, nums: &Nums) -> LineBuffer
    ensures text { result ≡ decimal index.0 ++ codes ":" ++ state_word state ++ codes ":" ++ nums_text nums.now }
    ensures in_line { IsInLine result }
{
    let mut line = LineBuffer::new();
    line.push_number(index.0);
    line.push(b":");
    line.push(state.word());
    line.push(b":");
    push_nums(&mut line, nums);
    line
}

#[tactic(auto, using(crate::proofs::InLine::joined_in_line, crate::proofs::InLine::on_in_line))]
fn trigger_item(name: &Name, on: bool) -> LineBuffer
    ensures text { result ≡ name.now ++ codes ":" ++ word_of_on on }
    ensures in_line { IsInLine result }
{
    let mut line = name_item(name);
    line.push(b":");
    line.push(on_word(on));
    line
}

#[tactic(auto, using(crate::proofs::InLine::joined_in_line, crate::proofs::InLine::decimal_in_line, crate::proofs::InLine::nums_in_line))]
fn columns_item(table: Oid, nums: &Nums) -> LineBuffer
    ensures text { result ≡ decimal table.0 ++ codes ":" ++ nums_text nums.now }
    ensures in_line { IsInLine result }
{
    let mut line = LineBuffer::new();
    line.push_number(table.0);
    line.push(b":");
    push_nums(&mut line, nums);
    line
}

#[tactic(auto, using(crate::proofs::InLine::state_in_line))]
fn state_item(state: IndexState) -> LineBuffer
    ensures text { result ≡ state_word state }
    ensures in_line { IsInLine result }
{
    let mut line = LineBuffer::new();
    line.push(state.word());
    line
}

/// Adds a fillfactor, or a dash where none is set. Condition: there is room for ten bytes.
pub fn push_fill(line: &mut LineBuffer, fill: Option<u32>)
    requires { length line.old + 10 ≤ LINE_ROOM }
    ensures text { line.new ≡ line.old ++ fill_text fill }
    ensures short { length line.new ≤ length line.old + 10 }
    ensures number { IfSome fill (λ number. number < 2 ^ 32) }
{
    match fill {
        Some(fill) => line.push_number(fill),
        None => line.push(b"-"),
    }
}

/// Adds column numbers joined by `+`. Condition: there is room for 32 of them.
pub fn push_nums(line: &mut LineBuffer, nums: &Nums)
    requires { length line.old + 352 ≤ LINE_ROOM }
    ensures text { line.new ≡ line.old ++ nums_text nums.now }
    ensures short { length line.new ≤ length line.old + 352 }
    ensures some { (0 < length nums.now) × (length nums.now ≤ MOST_INDEX_COLUMNS) }
    ensures numbers { All (λ number. number < 2 ^ 32) nums.now }
{
    let [first, rest @ ..] = nums.as_slice() else {
        return
    };
    line.push_number(*first);
    for num in rest {
        push_next(line, *num);
    }
}

// Adds one more column number.
fn push_next(line: &mut LineBuffer, num: u32)
    requires { length line.old + 11 ≤ LINE_ROOM }
    ensures text { line.new ≡ line.old ++ (codes "+" ++ decimal num) }
    ensures short { length line.new ≤ length line.old + 11 }
    ensures number { num < 2 ^ 32 }
{
    line.push(b"+");
    line.push_number(num);
}
