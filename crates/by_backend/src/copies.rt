ghost use Rattle.std.specs.Prelude.{◌≡◌, ◌++◌, IfOk, OnOk, OnErr};
ghost use Rattle.by_backend.specs.Copies.{AddsFirst};

use base_types::NoMemory;
use event_kinds::{Line, LineText};
use std::alloc::{AllocError, Global};

/// Adds copies of lines. Out of memory, the first of them are added.
pub fn push_copies(alloc: Global, lines: &mut Vec<Line>, more: &[Line]) -> Result<(), NoMemory>
    ensures ok { OnOk result (lines.new.items ≡ lines.old.items ++ more.now) }
    ensures err { OnErr result (AddsFirst lines.old.items more.now lines.new.items) }
{
    for line in more {
        lines.push(copied(alloc, line)?)?;
    }
    Ok(())
}

// A copy of a line.
fn copied(alloc: Global, line: &Line) -> Result<Line, AllocError>
    ensures { IfOk result (λ copy. copy ≡ line.now) }
{
    Ok(Line {
        backend: line.backend,
        command: line.command,
        text: LineText::new(line.text.as_bytes().to_vec(alloc)?),
    })
}
