ghost use Rattle.std.specs.Prelude.{IfOk};
ghost use Rattle.check_tool.specs.Reached.{HaveReached};

use crate::interleaved::interleaved_prefix;
use base_types::{Listed, NoMemory};
use cacheless::CheckKind;
use event_kinds::{Entry, Line};
use history_lines::lines;
use script_text::Script;
use std::alloc::Global;

/// How far `walk` or `run` may have made the entries of a list.
#[derive(Drop)]
pub struct Reached {
    /// How many of them, from the first on.
    pub entries: usize,
    /// The backend, from 1, whose entry is still to come after these: by `walk` the one whose turn it is, by `run` the
    /// first that hasn't stopped; `None` where nothing is left to come.
    pub due: Option<u32>,
    /// The answer lines, where all entries may have been made.
    pub lines: Listed<Line>,
}

/// How far `walk` or `run` of the script may have made these entries. `NoMemory` comes where memory is short, or a
/// number can't be counted.
pub fn reached_prefix(
    alloc: Global,
    script: &Script,
    kind: CheckKind,
    entries: &[Entry],
) -> Result<Reached, NoMemory>
    ensures { IfOk result (λ r. HaveReached kind script.now entries.now r.entries r.due r.lines) }
{
    let answered = lines(alloc, script, entries)?;
    let allowed = &entries[..answered.entries as usize];
    let far = interleaved_prefix(alloc, script, kind, allowed)?;
    Ok(Reached {
        entries: far.entries,
        due: far.due,
        lines: answered.lines,
    })
}
