ghost use Rattle.std.specs.Prelude.{◌≡◌, ◌<◌, ◌≤◌, ◌++◌, ◌∷◌, [], IfOk, codes, decimal, length};
ghost use Rattle.base_types.specs.Names.{IsName};
ghost use Rattle.make_script.specs.Draws.{next};
ghost use Rattle.make_script.specs.Scripts.{numbered as numbered_name, new_columns as columns_of_new_table, command_of, last_by, draw_after, placed_of, last_of};

use crate::draws::Draws;
use base_types::{ColType, Command, LineBuffer, Listed, Name, NewColumn, NoMemory, Placed};
use std::alloc::Global;

// The next command, with its backend.
#[tactic(auto, unfolding(crate::specs::Scripts::draw_after))]
pub(crate) fn placed(alloc: Global, draws: &mut Draws) -> Result<Placed, NoMemory>
    ensures placed { IfOk result (λ placed. placed ≡ placed_of (draw_after draws.old.number)) }
    ensures moved { IfOk result (λ placed. draws.new.number ≡ last_of (draw_after draws.old.number)) }
{
    let backend = 1 + draws.below(4);
    let kind = draws.below(10);
    let table = draws.below(8);
    let command = command(alloc, draws, kind, table)?;
    Ok(Placed { backend, command })
}

// The command of a kind on a table, with what the kind draws beside.
fn command(alloc: Global, draws: &mut Draws, kind: u32, table: u32) -> Result<Command, NoMemory>
    requires { table < 8 }
    ensures command { IfOk result (λ command. command ≡ command_of kind table (next draws.old.number)) }
    ensures moved { IfOk result (λ command. draws.new.number ≡ last_by kind draws.old.number) }
{
    let name = numbered(b"t", table);
    Ok(match kind {
        0 => Command::CreateTable {
            name,
            columns: new_columns(alloc)?,
        },
        1 => Command::DropTable(name),
        2 => Command::AddColumn {
            name,
            column: numbered(b"c", draws.below(5)),
            col_type: ColType::Int8,
        },
        3 => Command::SetStatistics {
            name,
            column: named(b"a"),
            stat: draws.below(100) as i32,
        },
        4 => Command::SetFillfactor {
            name,
            fill: 10 + draws.below(91),
        },
        5 => Command::CreateIndex {
            name: numbered(b"i", table),
            on_table: name,
            columns: one_column(alloc)?,
        },
        6 => Command::RenameColumn {
            name,
            column: named(b"b"),
            to: numbered(b"c", draws.below(5)),
        },
        8 => Command::Columns(name),
        _ => Command::Show { name, field: None },
    })
}

// The columns of a new table.
fn new_columns(alloc: Global) -> Result<Listed<NewColumn>, NoMemory>
    ensures { IfOk result (λ columns. columns ≡ columns_of_new_table) }
{
    let mut columns = Vec::new(alloc);
    columns.push(NewColumn {
        name: named(b"a"),
        col_type: ColType::Int4,
    })?;
    columns.push(NewColumn {
        name: named(b"b"),
        col_type: ColType::Text,
    })?;
    Ok(Listed::from_vec(columns))
}

// The column of a new index.
fn one_column(alloc: Global) -> Result<Listed<Name>, NoMemory>
    ensures { IfOk result (λ columns. columns ≡ codes "a" ∷ []) }
{
    let mut columns = Vec::new(alloc);
    columns.push(named(b"a"))?;
    Ok(Listed::from_vec(columns))
}

// A letter and a number as a name. Condition: they make one.
fn numbered(letter: &[u8], number: u32) -> Name
    requires name { IsName (numbered_name letter.now number) }
    requires short { length letter.now ≤ 1 }
    ensures { result ≡ numbered_name letter.now number }
{
    let mut line = LineBuffer::new();
    line.push(letter);
    line.push_number(number);
    named(line.as_bytes())
}

// The name of these bytes. Condition: they make one.
fn named(text: &[u8]) -> Name
    requires { IsName text.now }
    ensures { result ≡ text.now }
{
    let Ok(name) = Name::new(text) else {
        unreachable!()
    };
    name
}
