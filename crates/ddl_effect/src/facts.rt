ghost use Rattle.std.specs.Prelude.{◌≡◌, IfOk};
ghost use Rattle.base_types.specs.Scans.{scan_of};
ghost use Rattle.ddl_effect.specs.Commands.{plan_of};
ghost use Rattle.ddl_effect.specs.Effects.{effect_of, given_for, IsEffect};

use crate::draft::no_draft;
use crate::{Draft, Exec, OpenRelation, Want};
use base_types::{Command, Listed, Name, NoMemory, Purpose, Row, put_in_order, selects};
use command_answers::CommandError;
use std::alloc::Global;

/// What a command has read, and which relations its session holds open.
#[derive(Drop)]
pub struct Facts {
    pub rows: Listed<Row>,
    pub opened: Listed<OpenRelation>,
}

/// Why a command changes nothing.
#[derive(Clone, Copy)]
pub enum EffectRefusal {
    /// The first cause that the facts show.
    Cause(CommandError),
    /// The rows have no relation of this name.
    Absent(Name),
    /// Out of memory.
    NoMemory,
}

/// The changes that a command makes, worked out from facts alone.
/// `Cause` and `Absent`: exactly where the facts show them.
pub fn effect(alloc: Global, command: &Command, facts: &Facts) -> Result<Draft, EffectRefusal>
    ensures { IsEffect (effect_of (λ scan. scan_of scan facts.now.rows) (plan_of facts.now.opened command.now)) result }
{
    let Ok(mut exec) = Exec::new(alloc, facts.opened.as_slice(), command) else {
        return Err(EffectRefusal::NoMemory);
    };
    'acts: loop {
        match exec.next() {
            Want::Done(_) => return Ok(no_draft(alloc)),
            Want::Fails(error) => return Err(EffectRefusal::Cause(error)),
            Want::Absent(name) => return Err(EffectRefusal::Absent(name)),
            Want::Write => {
                return Ok(exec.into_draft());
            }
            want => {
                let Ok(rows) = rows_for(alloc, &want, facts.rows.as_slice()) else {
                    return Err(EffectRefusal::NoMemory);
                };
                let Ok(()) = exec.give(alloc, &rows) else {
                    return Err(EffectRefusal::NoMemory);
                };
            }
        }
    }
}

// The rows of the scan on which a want rests, if it rests on one.
fn rows_for(alloc: Global, want: &Want, rows: &[Row]) -> Result<Vec<Row>, NoMemory>
    ensures { IfOk result (λ given. given.items ≡ given_for (λ scan. scan_of scan rows.now) want.now) }
{
    match want {
        Want::Lookup { name, .. } => scan_rows(alloc, &Purpose::RelName(*name), rows),
        Want::Search(scan) | Want::Read(scan) => scan_rows(alloc, scan, rows),
        _ => Ok(Vec::new(alloc)),
    }
}

// The rows that a scan gives.
fn scan_rows(alloc: Global, scan: &Purpose, rows: &[Row]) -> Result<Vec<Row>, NoMemory>
    ensures { IfOk result (λ given. given.items ≡ scan_of scan.now rows.now) }
{
    let mut given = Vec::new(alloc);
    for row in rows {
        if selects(scan, row) {
            put_in_order(scan, &mut given, *row)?;
        }
    }
    Ok(given)
}
