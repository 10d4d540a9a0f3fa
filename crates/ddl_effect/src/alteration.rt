ghost use Rattle.std.specs.Prelude.{◌≡◌, List, false, MatchOption};
ghost use Rattle.ddl_effect.specs.Commands.{plan_of};
ghost use Rattle.ddl_effect.specs.Stages.{alters_table, mode_of, kind_of, alteration_plan};

use crate::{ForeignKey, OpenRelation};
use base_types::{ColType, Command, Kind, Mode, Name, Text, Word};

/// What an alteration does to its table or index.
#[derive(Clone, Copy)]
pub enum Alteration {
    AddColumn {
        column: Name,
        col_type: ColType,
    },
    DropColumn {
        column: Name,
    },
    RenameColumn {
        column: Name,
        to: Name,
    },
    SetDefault {
        column: Name,
        word: Word,
    },
    SetStatistics {
        column: Name,
        stat: i32,
    },
    SetFillfactor {
        fill: u32,
    },
    RenameTable {
        to: Name,
    },
    AddCheck {
        constraint: Name,
        text: Text,
        valid: bool,
    },
    AddForeign {
        key: ForeignKey,
    },
    ValidateConstraint {
        constraint: Name,
    },
    DropConstraint {
        constraint: Name,
    },
    SetTrigger {
        trigger: Name,
        on: bool,
    },
    CreateTrigger {
        trigger: Name,
    },
    DropIndex,
    RenameIndex {
        to: Name,
    },
}

/// The mode in which an alteration locks its relation (`AlterTableGetLockLevel` in
/// `src/backend/commands/tablecmds.c`).
pub(crate) fn mode(alteration: &Alteration) -> Mode
    ensures { result ≡ mode_of alteration.now }
{
    match alteration {
        Alteration::SetStatistics { .. }
        | Alteration::SetFillfactor { .. }
        | Alteration::ValidateConstraint { .. }
        | Alteration::RenameIndex { .. } => Mode::ShareUpdateExclusive,
        Alteration::AddForeign { .. }
        | Alteration::SetTrigger { .. }
        | Alteration::CreateTrigger { .. } => Mode::ShareRowExclusive,
        Alteration::AddColumn { .. }
        | Alteration::DropColumn { .. }
        | Alteration::RenameColumn { .. }
        | Alteration::SetDefault { .. }
        | Alteration::RenameTable { .. }
        | Alteration::AddCheck { .. }
        | Alteration::DropConstraint { .. }
        | Alteration::DropIndex => Mode::AccessExclusive,
    }
}

/// The kind that the relation of an alteration has to be of.
pub(crate) fn kind(alteration: &Alteration) -> Kind
    ensures { result ≡ kind_of alteration.now }
{
    match alteration {
        Alteration::DropIndex | Alteration::RenameIndex { .. } => Kind::Index,
        _ => Kind::Table,
    }
}

/// An alteration of a relation that has this name.
#[derive(Clone, Copy)]
pub struct Altered {
    pub name: Name,
    pub alteration: Alteration,
}

/// What the command alters, if it alters something.
pub(crate) fn alteration_of(command: &Command) -> Option<Altered>
    ensures { MatchOption result (alters_table command.now ≡ false) (λ a. (opens : List OpenRelation) → alteration_plan opens a ≡ plan_of opens command.now) }
{
    match *command {
        Command::AddColumn {
            name,
            column,
            col_type,
        } => Some(alters(name, Alteration::AddColumn { column, col_type })),
        Command::DropColumn { name, column } => {
            Some(alters(name, Alteration::DropColumn { column }))
        }
        Command::RenameColumn { name, column, to } => {
            Some(alters(name, Alteration::RenameColumn { column, to }))
        }
        Command::SetDefault { name, column, word } => {
            Some(alters(name, Alteration::SetDefault { column, word }))
        }
        Command::SetStatistics { name, column, stat } => {
            Some(alters(name, Alteration::SetStatistics { column, stat }))
        }
        Command::SetFillfactor { name, fill } => {
            Some(alters(name, Alteration::SetFillfactor { fill }))
        }
        Command::RenameTable { name, to } => Some(alters(name, Alteration::RenameTable { to })),
        Command::AddCheck {
            name,
            constraint,
            text,
            valid,
        } => Some(alters(
            name,
            Alteration::AddCheck {
                constraint,
                text,
                valid,
            },
        )),
        Command::AddForeign {
            name,
            constraint,
            column,
            refers,
            ref_column,
            valid,
        } => Some(alters(
            name,
            Alteration::AddForeign {
                key: ForeignKey {
                    constraint,
                    column,
                    refers,
                    ref_column,
                    valid,
                },
            },
        )),
        Command::ValidateConstraint { name, constraint } => {
            Some(alters(name, Alteration::ValidateConstraint { constraint }))
        }
        Command::DropConstraint { name, constraint } => {
            Some(alters(name, Alteration::DropConstraint { constraint }))
        }
        Command::SetTrigger { name, trigger, on } => {
            Some(alters(name, Alteration::SetTrigger { trigger, on }))
        }
        Command::CreateTrigger { name, trigger } => {
            Some(alters(name, Alteration::CreateTrigger { trigger }))
        }
        Command::DropIndex(name) => Some(alters(name, Alteration::DropIndex)),
        Command::RenameIndex { name, to } => Some(alters(name, Alteration::RenameIndex { to })),
        _ => None,
    }
}

// An alteration of the relation of this name.
fn alters(name: Name, alteration: Alteration) -> Altered
    ensures { result ≡ record { name = name; alteration = alteration } }
{
    Altered { name, alteration }
}
