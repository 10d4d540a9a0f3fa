use base_types::{ColType, Field, Kind, Listed, Oid};
use command_answers::Column;

/// What a command answers that did what it says.
#[derive(Drop)]
pub enum Told {
    /// That it did so.
    Ok,
    /// All fields of a relation.
    Relation { rel: Oid, kind: Kind },
    /// One field of a relation.
    Field { rel: Oid, kind: Kind, field: Field },
    /// The live columns of a table, by name.
    Columns(Listed<Column>),
    /// One column of a table.
    Column { num: u32, col_type: ColType },
    /// The name of an oid, by the last scan for it.
    Regclass(Oid),
    /// How a commit ended its block: it is rolled back where it had failed.
    Commit,
}
