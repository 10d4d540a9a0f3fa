use crate::CommandError;
use base_types::{ColType, Field, Kind, Listed, Name, Oid};
use event_kinds::LineText;

/// A field as it is shown.
#[derive(Drop)]
pub struct Shown {
    pub field: Field,
    pub value: LineText,
    /// The entry of the scan that read it, from 1, where no lock keeps others from changing it.
    pub at: Option<u64>,
}

/// A column as a list shows it.
#[derive(Clone, Copy)]
pub struct Column {
    pub name: Name,
    pub col_type: ColType,
}

/// What a command answers.
#[derive(Drop)]
pub enum Answer {
    /// The command did what it says.
    Ok,
    /// A commit ended a failed block.
    RolledBack,
    /// All fields of a relation.
    Shown {
        kind: Kind,
        rel: Oid,
        fields: Listed<Shown>,
    },
    /// One field of a relation.
    One(Shown),
    /// The live columns of a table, by name.
    Columns(Listed<Column>),
    /// One column of a table.
    Column {
        num: u32,
        col_type: ColType,
    },
    /// The name of an oid, if a relation has it, and the entry of the scan that said so.
    Regclass {
        rel: Oid,
        name: Option<Name>,
        at: u64,
    },
    /// The command failed.
    Error(CommandError),
}
