ghost use Rattle.std.specs.Prelude.{◌≡◌, [], true, IfOk};
ghost use Rattle.backend_core.specs.Agrees.{AreSpelled};
ghost use Rattle.script_backends.specs.Standing.{StandTogether};

use backend_core::Backend;
use base_types::{Listed, NoMemory};
use by_backend::commands_by_backend;
use script_text::Script;
use std::alloc::Global;
use std::mem::replace;

/// All backends of the script, none of which has joined, in order of their numbers.
pub fn new_backends(alloc: Global, script: &Script) -> Result<Vec<Backend>, NoMemory>
    ensures stand { IfOk result (λ backends. StandTogether script.now [] backends.items) }
    ensures spelled { IfOk result (λ backends. AreSpelled script.now) }
{
    let mut lists = commands_by_backend(alloc, script)?;
    let mut backends = Vec::new(alloc);
    for number in 0..script.backends() {
        let commands = replace(&mut lists[number as usize], Listed::new(alloc));
        backends.push(Backend::new(alloc, number + 1, commands)?)?;
    }
    Ok(backends)
}
