ghost use Rattle.std.specs.Prelude.{◌≡◌, ◌-◌, ◌++◌, ◌∷◌, [], length, replicate, slice_index_or, slice_set, IfOk, OnOk};
ghost use Rattle.base_types.specs.Scenario.{IsBackend};
ghost use Rattle.by_backend.specs.OwnCommands.{HaveCommands};

use base_types::{Command, Listed, NoMemory, Placed};
use ddl_effect::copied_command;
use script_text::Script;
use std::alloc::Global;

/// The commands of each backend, in order; `NoMemory` where memory is short.
pub fn commands_by_backend(alloc: Global, script: &Script) -> Result<Vec<Listed<Command>>, NoMemory>
    ensures { IfOk result (λ lists. HaveCommands script.now.commands script.now.backends lists.items) }
{
    let mut lists = empty_lists(alloc, script.backends())?;
    let commands = script.commands();
    for placed in commands {
        put_copy(alloc, &mut lists, placed)?;
    }
    Ok(lists)
}

// So many lists without a command.
fn empty_lists(alloc: Global, count: u32) -> Result<Vec<Listed<Command>>, NoMemory>
    ensures { IfOk result (λ lists. lists.items ≡ replicate count []) }
{
    let mut lists = Vec::new(alloc);
    for list in 0..count {
        lists.push(Listed::new(alloc))?;
    }
    Ok(lists)
}

// Puts a copy of a command after the others of its backend.
fn put_copy(alloc: Global, lists: &mut [Listed<Command>], placed: &Placed) -> Result<(), NoMemory>
    requires within { IsBackend (length lists.old) placed.now.backend }
    ensures { OnOk result (lists.new ≡ slice_set lists.old (placed.now.backend - 1) (slice_index_or lists.old (placed.now.backend - 1) [] ++ placed.now.command ∷ [])) }
{
    let copy = copied_command(alloc, &placed.command)?;
    lists[placed.backend as usize - 1].push(copy)
}
