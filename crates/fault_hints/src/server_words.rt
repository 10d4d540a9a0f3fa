use crate::symbols::{Symbol, is_wanted};
use crate::tokens::is;

// Statements of PostgreSQL's about rows of tables, and others that no command here is like.
const OF_ROWS: [&str; 7] = [
    "insert", "update", "delete", "merge", "copy", "truncate", "values",
];

const OF_SERVER: [&str; 20] = [
    "analyze",
    "call",
    "cluster",
    "comment",
    "deallocate",
    "declare",
    "do",
    "execute",
    "explain",
    "fetch",
    "grant",
    "listen",
    "notify",
    "prepare",
    "refresh",
    "reindex",
    "reset",
    "revoke",
    "set",
    "vacuum",
];

// What PostgreSQL creates beside tables, indexes and triggers.
const OF_KINDS: [&str; 17] = [
    "aggregate",
    "database",
    "domain",
    "extension",
    "function",
    "materialized",
    "policy",
    "procedure",
    "role",
    "schema",
    "sequence",
    "temp",
    "temporary",
    "type",
    "unlogged",
    "user",
    "view",
];

// What may follow a column's type in PostgreSQL.
const OF_COLUMNS: [&str; 9] = [
    "check",
    "collate",
    "constraint",
    "default",
    "generated",
    "not",
    "null",
    "primary",
    "references",
];

// What helps with a word of PostgreSQL's that no form has, or that is taken for a name: `found` is where the line goes
// wrong, `last` stands before it, and `next` after it.
pub(crate) fn of_server(
    found: &[u8],
    last: &[u8],
    next: &[u8],
    wanted: &[Symbol],
) -> Option<&'static str> {
    if is_wanted(wanted, Symbol::Word("begin")) {
        return of_first(found);
    }
    if let Some(why) = of_part(found, last, wanted) {
        return Some(why);
    }
    if is(last, "if") && (is(found, "exists") || is(found, "not")) {
        return Some(
            " (PostgreSQL's \"if exists\" and \"if not exists\" aren't in this grammar: leave them out)",
        );
    }
    if is(last, "concurrently") && is_wanted(wanted, Symbol::Word("on")) {
        return Some(
            " (a concurrent build isn't modelled: without \"concurrently\" an index is built under a Share lock)",
        );
    }
    if is(last, "concurrently") {
        return Some(" (PostgreSQL's \"concurrently\" isn't modelled: leave it out)");
    }
    if is(last, "on") && is_wanted(wanted, Symbol::Word("on")) {
        return Some(" (\"on\" is taken for the name, which can't be left out)");
    }
    if is_wanted(wanted, Symbol::Word("set")) && !is_wanted(wanted, Symbol::Word("add")) {
        return of_column(found);
    }
    if is(found, "data") && is_wanted(wanted, Symbol::Word("statistics")) {
        return of_column(next);
    }
    of_end(found, wanted)
}

// What helps with `alter table NAME alter`, where a column's name follows and not that word: `next` stands after the name.
pub(crate) fn of_column_alone(last: &[u8], next: &[u8], wanted: &[Symbol]) -> Option<&'static str> {
    if is(last, "alter") && is_wanted(wanted, Symbol::Word("column")) {
        of_column(next)
    } else {
        None
    }
}

// A word that a command doesn't begin with.
fn of_first(found: &[u8]) -> Option<&'static str> {
    if is(found, "start") {
        return Some(" (PostgreSQL's \"start transaction\" is \"begin\" here)");
    }
    if is(found, "abort") {
        return Some(" (PostgreSQL's \"abort\" is \"rollback\" here)");
    }
    if is(found, "end") {
        return Some(" (PostgreSQL's \"end\" is \"commit\" here)");
    }
    if is(found, "select") || is(found, "table") {
        return Some(
            " (no query is modelled: \"show\" shows what one would find of a table; docs/SCRIPT.md lists the commands)",
        );
    }
    if is_among(found, &OF_ROWS) {
        return Some(" (the rows in tables aren't modelled: docs/SCRIPT.md lists the commands)");
    }
    if is_among(found, &OF_SERVER) {
        return Some(
            " (PostgreSQL's, and not modelled: docs/SCRIPT.md lists the commands, docs/PROFILE.md what isn't modelled)",
        );
    }
    None
}

// A word of a kind of thing, of constraint or of column that isn't modelled.
fn of_part(found: &[u8], last: &[u8], wanted: &[Symbol]) -> Option<&'static str> {
    let is_first = is(last, "create") || is(last, "alter") || is(last, "drop");
    let is_kind = is_first && is_wanted(wanted, Symbol::Word("index"));
    if is_kind && is(found, "unique") {
        return Some(" (a unique index isn't modelled: leave \"unique\" out)");
    }
    if is_kind && is_among(found, &OF_KINDS) {
        return Some(
            " (not modelled: docs/SCRIPT.md lists the commands, docs/PROFILE.md what isn't modelled)",
        );
    }
    let is_constraint = is_wanted(wanted, Symbol::Word("constraint")) && is(last, "add");
    if is_constraint && (is(found, "check") || is(found, "foreign")) {
        return Some(" (a constraint without a name isn't modelled: add constraint NAME ..)");
    }
    let is_key = is(found, "primary") || is(found, "unique") || is(found, "exclude");
    if is_key && (is_constraint || is_wanted(wanted, Symbol::Word("foreign"))) {
        return Some(
            " (primary keys and unique constraints aren't modelled: a constraint is a check or a foreign key)",
        );
    }
    let is_column = wanted
        .iter()
        .any(|symbol| matches!(symbol, Symbol::More(2)));
    if is_column && is_among(found, &OF_COLUMNS) {
        return Some(" (a column of a new table has a name and a type alone)");
    }
    None
}

fn is_among(token: &[u8], words: &[&'static str]) -> bool {
    words.iter().any(|word| is(token, word))
}

// A word after `alter table NAME alter column NAME`.
fn of_column(found: &[u8]) -> Option<&'static str> {
    if is(found, "type") {
        return Some(" (no command changes a column's type)");
    }
    if is(found, "drop") {
        return Some(" (no command drops a default: set another, or drop the column)");
    }
    None
}

// A word where the command is at its end.
fn of_end(found: &[u8], wanted: &[Symbol]) -> Option<&'static str> {
    let is_option = is(found, "cascade") || is(found, "restrict") || is(found, "nowait");
    let is_transaction = is(found, "transaction") || is(found, "work");
    if !is_wanted(wanted, Symbol::End) || is_wanted(wanted, Symbol::Field) {
        return None;
    }
    if is_option || is_transaction {
        return Some(" (PostgreSQL's, but not in this grammar: leave it out)");
    }
    None
}
