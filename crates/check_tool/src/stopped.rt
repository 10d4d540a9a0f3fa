ghost use Rattle.std.specs.Prelude.{◌≡◌, ◌≤◌, ◌++◌, ◌∷◌, [], false, not, List, length, filter, slice_get, replicate, IfOk, IfSome};
ghost use Rattle.std.specs.List.{range_with_len};
ghost use Rattle.base_types.specs.Scenario.{IsBackend};
ghost use Rattle.event_kinds.specs.declared.entry.Entry.{Entry};
ghost use Rattle.cacheless.specs.Schedule.{has_stopped};
ghost use Rattle.check_tool.specs.Turning.{TellStopped, stopped_after};

use base_types::NoMemory;
use event_kinds::{Entry, Event};
use std::alloc::Global;

// No backend has stopped yet.
pub(crate) fn all_running(alloc: Global, backends: u32) -> Result<Vec<bool>, NoMemory>
    ensures { IfOk result (λ stopped. stopped.items ≡ replicate backends false) }
{
    let mut stopped = Vec::new(alloc);
    for _number in 0..backends {
        stopped.push(false)?;
    }
    Ok(stopped)
}

// Notes an entry.
pub(crate) fn note(stopped: &mut [bool], e: &Entry)
    requires { IsBackend (length stopped.old) e.now.backend }
    ensures tell { (seen : List Entry) → TellStopped seen stopped.old → TellStopped (seen ++ e.now ∷ []) stopped.new }
    ensures count { length stopped.new ≡ length stopped.old }
{
    stopped[e.backend as usize - 1] = is_stop(&e.event);
}

// Whether a backend has stopped, after one of its events.
fn is_stop(event: &Event) -> bool
    ensures { result ≡ stopped_after event.now }
{
    matches!(event, Event::Stop)
}

// The first backend that hasn't stopped.
pub(crate) fn first_running(stopped: &[bool]) -> Option<u32>
    requires { length stopped.now ≤ 64 }
    ensures range { IfSome result (λ b. IsBackend (length stopped.now) b) }
    ensures first { (seen : List Entry) → TellStopped seen stopped.now → result ≡ slice_get (filter (λ b. not (has_stopped seen b)) (range_with_len 1 (length stopped.now))) 0 }
{
    for (i, has) in stopped.iter().enumerate() {
        if !*has {
            return Some(i as u32 + 1);
        }
    }
    None
}
