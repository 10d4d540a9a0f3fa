use crate::{ColType, Field, Listed, Mode, Name, Oid, Text, Word};

/// A column of a new table.
#[derive(Clone, Copy)]
pub struct NewColumn {
    pub name: Name,
    pub col_type: ColType,
}

/// A command of a script.
#[derive(Drop)]
pub enum Command {
    Begin,
    Commit,
    Rollback,
    Savepoint(Name),
    Release(Name),
    RollbackTo(Name),
    Show {
        name: Name,
        field: Option<Field>,
    },
    Columns(Name),
    Column {
        name: Name,
        column: Name,
    },
    Regclass(Oid),
    LockTable {
        name: Name,
        mode: Mode,
    },
    OpenRel(Name),
    Peek {
        name: Name,
        field: Option<Field>,
    },
    CloseRel(Name),
    CreateTable {
        name: Name,
        columns: Listed<NewColumn>,
    },
    DropTable(Name),
    RenameTable {
        name: Name,
        to: Name,
    },
    AddColumn {
        name: Name,
        column: Name,
        col_type: ColType,
    },
    DropColumn {
        name: Name,
        column: Name,
    },
    RenameColumn {
        name: Name,
        column: Name,
        to: Name,
    },
    SetDefault {
        name: Name,
        column: Name,
        word: Word,
    },
    SetStatistics {
        name: Name,
        column: Name,
        stat: i32,
    },
    SetFillfactor {
        name: Name,
        fill: u32,
    },
    AddCheck {
        name: Name,
        constraint: Name,
        text: Text,
        valid: bool,
    },
    AddForeign {
        name: Name,
        constraint: Name,
        column: Name,
        refers: Name,
        ref_column: Name,
        valid: bool,
    },
    ValidateConstraint {
        name: Name,
        constraint: Name,
    },
    DropConstraint {
        name: Name,
        constraint: Name,
    },
    SetTrigger {
        name: Name,
        trigger: Name,
        on: bool,
    },
    CreateTrigger {
        name: Name,
        trigger: Name,
    },
    CreateIndex {
        name: Name,
        on_table: Name,
        columns: Listed<Name>,
    },
    DropIndex(Name),
    RenameIndex {
        name: Name,
        to: Name,
    },
}

/// A command of a script beside the backend that runs it, 1 to 64.
#[derive(Drop)]
pub struct Placed {
    pub backend: u32,
    pub command: Command,
}

/// Steps of a schedule in a row: a backend, 1 to 64, and how many steps it has, 1 to 1,000,000.
#[derive(Clone, Copy)]
pub struct Turns {
    pub backend: u32,
    pub count: u32,
}
