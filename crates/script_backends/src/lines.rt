ghost use Rattle.std.specs.Prelude.{◌≡◌, IfOk};
ghost use Rattle.script_backends.specs.Sessions.{transcripts_of};

use backend_core::Backend;
use base_types::NoMemory;
use by_backend::push_copies;
use event_kinds::Line;
use std::alloc::Global;

/// The lines of backends, one after another.
pub fn all_lines(alloc: Global, backends: &[Backend]) -> Result<Vec<Line>, NoMemory>
    ensures { IfOk result (λ lines. lines.items ≡ transcripts_of backends.now) }
{
    let mut lines = Vec::new(alloc);
    for backend in backends {
        push_copies(alloc, &mut lines, backend.transcript())?;
    }
    Ok(lines)
}
