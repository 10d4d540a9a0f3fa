ghost use Rattle.std.specs.Prelude.{◌≡◌, ◌<◌, ◌+◌, ◌^◌, length};
ghost use Rattle.script_text.specs.Grammar.{script_of};
ghost use Rattle.script_text.specs.Drafts.{Reads};

use crate::fault::{Rest, ScriptFault};
use crate::lines_so_far::LinesSoFar;
use crate::script::Script;
use crate::text_lines;
use std::alloc::Global;

/// What was read.
#[derive(Drop)]
pub struct ScriptRead {
    pub script: Script,
    /// The place right after the `end` line's line feed; the length of the input where that line
    /// has none.
    pub rest_at: usize,
}

/// Reads a script. Each input that has the form of one is read; `Bad` names the first line that
/// breaks a rule, and the first rule that it breaks. Where a rest is given, reading stops after
/// the `end` line. Condition: fewer than 2^32 - 1 bytes.
pub fn read_script(alloc: Global, bytes: &[u8], rest: Rest) -> Result<ScriptRead, ScriptFault>
    requires { length bytes.now + 1 < 2 ^ 32 }
    ensures { Reads result (script_of rest bytes.now) }
{
    let mut draft = LinesSoFar::new(alloc);
    let mut left = bytes;
    let mut number = 1u32;
    let mut place = 0usize;
    'lines: while !left.is_empty() {
        let (line, others) = left.split_at(text_lines::line_len(left));
        place = draft.place_after(place, line);
        if let Err(fault) = draft.line(alloc, line) {
            return Err(fault.at_line(number));
        }
        if draft.stops(rest) {
            return draft.finish(number, place);
        }
        left = others;
        number += 1;
    }
    draft.finish(number, place)
}
