ghost use Rattle.std.specs.Prelude.{◌≡◌, None, IfOk};
ghost use Rattle.std.specs.Bool.{Decides};
ghost use Rattle.check_tool.specs.Verdicts.{IsVerdict};

use crate::answer_lines::are_lines;
use crate::leading::leading_entries;
use crate::reached::{Reached, reached_prefix};
use base_types::{FIRST_OID, NoMemory};
use cacheless::CheckKind;
use script_text::Script;
use std::alloc::Global;

// The most bytes of an output whose oids surely have four bytes each: they are drawn from the first on, and no more
// of them than it has bytes.
const MOST_BYTES: usize = (u32::MAX - FIRST_OID) as usize;

/// What a check finds.
#[derive(Clone, Copy, Debug)]
pub enum Checked {
    /// An output of the script, with so many entries.
    Output { entries: u64 },
    /// No output of the script. The number, from 1, of the first of its leading entries that may not come there; the
    /// number after the last where all of them may, and one is missing or what follows them differs.
    Differs { entry: u64 },
}

/// Whether the bytes are an output of `walk` or of `run` for the script. `NoMemory` comes where memory is short, or a
/// number can't be counted: so of more than 4,294,950,911 bytes, whose oids may be larger than four bytes hold.
pub fn check(
    alloc: Global,
    script: &Script,
    kind: CheckKind,
    output: &[u8],
) -> Result<Checked, NoMemory>
    ensures { IfOk result (IsVerdict kind script.now output.now) }
{
    if output.len() > MOST_BYTES {
        return Err(NoMemory);
    }
    let leading = leading_entries(alloc, output)?;
    let far = reached_prefix(alloc, script, kind, &leading.entries)?;
    let rest = &output[leading.size..];
    if is_at_end(&far, leading.entries.len()) && are_lines(rest, far.lines.as_slice()) {
        Ok(Checked::Output {
            entries: far.entries as u64,
        })
    } else {
        Ok(Checked::Differs {
            entry: far.entries as u64 + 1,
        })
    }
}

// Whether so many entries, which are all, may have been made, and nothing is left to come.
fn is_at_end(far: &Reached, entries: usize) -> bool
    ensures { Decides result ((far.now.entries ≡ entries) × (far.now.due ≡ None)) }
{
    match far.due {
        Some(_) => false,
        None => far.entries == entries,
    }
}
