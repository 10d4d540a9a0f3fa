ghost use Rattle.std.specs.Prelude.{IfOk, All};
ghost use Rattle.base_types.specs.Scenario.{IsBackend, IsScript};
ghost use Rattle.history_model.specs.Legal.{IsLegal};
ghost use Rattle.cacheless.specs.declared.check_kind.CheckKind.TheVariants as kinds;
ghost use Rattle.check_tool.specs.Reached.{AreInterleaved};

use crate::looking::true_looks;
use crate::scheduled::follow;
use crate::stopped::{all_running, first_running, note};
use base_types::NoMemory;
use cacheless::CheckKind;
use event_kinds::Entry;
use script_text::Script;
use std::alloc::Global;

// How many entries, from the first on, come as those of `walk` or `run`, and the first backend whose entry is still
// to come after these, if one is.
#[derive(Drop)]
pub(crate) struct Interleaved {
    pub(crate) entries: usize,
    pub(crate) due: Option<u32>,
}

// How far these entries come as those of `walk` or `run`. Conditions: they are a legal history, of backends of the
// script.
pub(crate) fn interleaved_prefix(
    alloc: Global,
    script: &Script,
    kind: CheckKind,
    entries: &[Entry],
) -> Result<Interleaved, NoMemory>
    requires legal { IsLegal entries.now }
    requires backends { All (λ e. IsBackend script.now.backends e.backend) entries.now }
    ensures kept { IsScript script.now }
    ensures come { IfOk result (λ i. AreInterleaved kind script.now entries.now i.entries i.due) }
{
    match kind {
        CheckKind::Walk => as_walk(alloc, script, entries),
        CheckKind::Run => as_run(alloc, script, entries),
    }
}

// The same of `walk`: they look truly, and follow the schedule.
fn as_walk(alloc: Global, script: &Script, entries: &[Entry]) -> Result<Interleaved, NoMemory>
    requires legal { IsLegal entries.now }
    requires backends { All (λ e. IsBackend script.now.backends e.backend) entries.now }
    ensures kept { IsScript script.now }
    ensures come { IfOk result (λ i. AreInterleaved kinds.Walk script.now entries.now i.entries i.due) }
{
    let looks = true_looks(alloc, script.backends(), entries)?;
    follow(alloc, script, &entries[..looks])
}

// The same of `run`: they may come in any order.
fn as_run(alloc: Global, script: &Script, entries: &[Entry]) -> Result<Interleaved, NoMemory>
    requires { All (λ e. IsBackend script.now.backends e.backend) entries.now }
    ensures kept { IsScript script.now }
    ensures come { IfOk result (λ i. AreInterleaved kinds.Run script.now entries.now i.entries i.due) }
{
    let mut stopped = all_running(alloc, script.backends())?;
    for e in entries {
        note(&mut stopped, e);
    }
    Ok(Interleaved {
        entries: entries.len(),
        due: first_running(&stopped),
    })
}
