ghost use Rattle.std.specs.Prelude.{◌≡◌, ◌==◌};
ghost use Rattle.std.specs.Option.{option_eq};
ghost use Rattle.std.specs.Str.{bytes_eq};
ghost use Rattle.history_model.specs.Covered.{same_row as rows_match, same_demand as demands_match};
ghost use Rattle.segment_rows.specs.Words.{same_part_row as parts_match, same_column_row as columns_match, same_key_row as keys_match, same_con_row as cons_match, same_trigger_row as triggers_match};

use base_types::{ConKind, Name, Row};

/// Whether two rows are equal.
pub fn same_row(a: &Row, b: &Row) -> bool
    ensures { result ≡ rows_match a.now b.now }
{
    match (a, b) {
        (
            Row::Class {
                oid,
                name,
                kind,
                fill,
            },
            Row::Class {
                oid: other,
                name: other_name,
                kind: other_kind,
                fill: other_fill,
            },
        ) => {
            oid.0 == other.0
                && same_name(name, other_name)
                && kind.word() == other_kind.word()
                && same_fill(*fill, *other_fill)
        }
        _ => same_part_row(a, b),
    }
}

// Whether two rows are equal that aren't of relations.
fn same_part_row(a: &Row, b: &Row) -> bool
    ensures { result ≡ parts_match a.now b.now }
{
    match (a, b) {
        (
            Row::Def {
                oid,
                rel,
                num,
                word,
            },
            Row::Def {
                oid: other,
                rel: other_rel,
                num: other_num,
                word: other_word,
            },
        ) => {
            oid.0 == other.0
                && rel.0 == other_rel.0
                && num == other_num
                && word.as_bytes() == other_word.as_bytes()
        }
        _ => same_column_row(a, b),
    }
}

// Whether two rows are equal that are neither of relations nor of defaults.
fn same_column_row(a: &Row, b: &Row) -> bool
    ensures { result ≡ columns_match a.now b.now }
{
    match (a, b) {
        (
            Row::Att {
                rel,
                num,
                name,
                col_type,
                stat,
                live,
            },
            Row::Att {
                rel: other,
                num: other_num,
                name: other_name,
                col_type: other_type,
                stat: other_stat,
                live: other_live,
            },
        ) => {
            rel.0 == other.0
                && num == other_num
                && same_name(name, other_name)
                && col_type.word() == other_type.word()
                && stat == other_stat
                && live == other_live
        }
        _ => same_key_row(a, b),
    }
}

// Whether two rows are equal that are of indexes, constraints or triggers.
fn same_key_row(a: &Row, b: &Row) -> bool
    ensures { result ≡ keys_match a.now b.now }
{
    match (a, b) {
        (
            Row::Ind {
                index,
                table,
                state,
                nums,
            },
            Row::Ind {
                index: other,
                table: other_table,
                state: other_state,
                nums: other_nums,
            },
        ) => {
            index.0 == other.0
                && table.0 == other_table.0
                && state.word() == other_state.word()
                && nums.as_slice() == other_nums.as_slice()
        }
        _ => same_con_row(a, b),
    }
}

// Whether two rows are equal that are of constraints or triggers.
fn same_con_row(a: &Row, b: &Row) -> bool
    ensures { result ≡ cons_match a.now b.now }
{
    match (a, b) {
        (
            Row::Con {
                oid,
                rel,
                name,
                valid,
                what,
            },
            Row::Con {
                oid: other,
                rel: other_rel,
                name: other_name,
                valid: other_valid,
                what: other_what,
            },
        ) => {
            oid.0 == other.0
                && rel.0 == other_rel.0
                && same_name(name, other_name)
                && valid == other_valid
                && same_demand(what, other_what)
        }
        _ => same_trigger_row(a, b),
    }
}

// Whether two rows are equal that are of triggers.
fn same_trigger_row(a: &Row, b: &Row) -> bool
    ensures { result ≡ triggers_match a.now b.now }
{
    match (a, b) {
        (
            Row::Trg { oid, rel, name, on },
            Row::Trg {
                oid: other,
                rel: other_rel,
                name: other_name,
                on: other_on,
            },
        ) => {
            oid.0 == other.0
                && rel.0 == other_rel.0
                && same_name(name, other_name)
                && on == other_on
        }
        _ => false,
    }
}

// Whether two constraints demand the same.
fn same_demand(a: &ConKind, b: &ConKind) -> bool
    ensures { result ≡ demands_match a.now b.now }
{
    match (a, b) {
        (ConKind::Check(text), ConKind::Check(other)) => text.as_bytes() == other.as_bytes(),
        (
            ConKind::Foreign {
                num,
                refrel,
                refnum,
            },
            ConKind::Foreign {
                num: other_num,
                refrel: other_rel,
                refnum: other_refnum,
            },
        ) => num == other_num && refrel.0 == other_rel.0 && refnum == other_refnum,
        _ => false,
    }
}

// Whether two names are equal.
fn same_name(a: &Name, b: &Name) -> bool
    ensures { result ≡ bytes_eq a.now b.now }
{
    a.as_bytes() == b.as_bytes()
}

// Whether two fillfactors are the same, or none is set.
fn same_fill(a: Option<u32>, b: Option<u32>) -> bool
    ensures { result ≡ option_eq (λ m n. m == n) a b }
{
    match (a, b) {
        (Some(a), Some(b)) => a == b,
        (None, None) => true,
        _ => false,
    }
}
