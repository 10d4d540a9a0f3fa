ghost use Rattle.std.specs.Prelude.{◌≡◌, ◌≤◌, ◌++◌, [], Some, List, length, drop, slice_get, replicate, IfOk, OnOk};
ghost use Rattle.std.specs.Bool.{Decides};
ghost use Rattle.std.specs.List.{AllByRecursion};
ghost use Rattle.base_types.specs.Scenario.{IsBackend, schedule_of, turns_of};
ghost use Rattle.event_kinds.specs.declared.entry.Entry.{Entry};
ghost use Rattle.cacheless.specs.Schedule.{pass_stopped};
ghost use Rattle.check_tool.specs.Reached.{HaveFollowed};
ghost use Rattle.check_tool.specs.Turning.{TellStopped};

use crate::interleaved::Interleaved;
use crate::stopped::{all_running, first_running, note};
use base_types::{NoMemory, Turns};
use event_kinds::Entry;
use script_text::Script;
use std::alloc::Global;

// How far these entries follow the script's schedule.
pub(crate) fn follow(
    alloc: Global,
    script: &Script,
    entries: &[Entry],
) -> Result<Interleaved, NoMemory>
    ensures { IfOk result (λ f. HaveFollowed script.now entries.now f.entries f.due) }
{
    if script.steps().is_empty() {
        in_turn(alloc, script, entries)
    } else {
        by_steps(alloc, script, entries)
    }
}

// The same without lines of steps: each backend runs to its stop.
fn in_turn(alloc: Global, script: &Script, entries: &[Entry]) -> Result<Interleaved, NoMemory>
    requires { script.now.steps ≡ [] }
    ensures { IfOk result (λ f. HaveFollowed script.now entries.now f.entries f.due) }
{
    let mut stopped = all_running(alloc, script.backends())?;
    for (at, e) in entries.iter().enumerate() {
        let turn = first_running(&stopped);
        if !is_turn_of(turn, e.backend) {
            return Ok(Interleaved {
                entries: at,
                due: turn,
            });
        }
        note(&mut stopped, e);
    }
    Ok(Interleaved {
        entries: entries.len(),
        due: first_running(&stopped),
    })
}

// The same by lines of steps.
fn by_steps(alloc: Global, script: &Script, entries: &[Entry]) -> Result<Interleaved, NoMemory>
    requires { 1 ≤ length script.now.steps }
    ensures { IfOk result (λ f. HaveFollowed script.now entries.now f.entries f.due) }
{
    let steps = all_steps(alloc, script)?;
    let mut stopped = all_running(alloc, script.backends())?;
    let mut taken = 0usize;
    for (at, e) in entries.iter().enumerate() {
        taken = pass(&steps, taken, &stopped);
        let turn = step_at(&steps, taken);
        if !is_turn_of(turn, e.backend) {
            return Ok(Interleaved {
                entries: at,
                due: turn,
            });
        }
        taken += 1;
        note(&mut stopped, e);
    }
    let left = pass(&steps, taken, &stopped);
    Ok(Interleaved {
        entries: entries.len(),
        due: step_at(&steps, left),
    })
}

// Whether the next turn is this backend's.
fn is_turn_of(turn: Option<u32>, b: u32) -> bool
    ensures { Decides result (turn ≡ Some b) }
{
    match turn {
        Some(next) => next == b,
        None => false,
    }
}

// The step at a place, if there is one.
fn step_at(steps: &[u32], at: usize) -> Option<u32>
    ensures { result ≡ slice_get steps.now at }
{
    if at < steps.len() {
        Some(steps[at])
    } else {
        None
    }
}

// The place of the first step from this one on whose backend hasn't stopped.
fn pass(steps: &[u32], from: usize, stopped: &[bool]) -> usize
    requires range { AllByRecursion (IsBackend (length stopped.now)) steps.now }
    requires within { from ≤ length steps.now }
    ensures passed { (seen : List Entry) → TellStopped seen stopped.now → pass_stopped seen (drop from steps.now) ≡ drop result steps.now }
    ensures within { result ≤ length steps.now }
{
    let mut at = from;
    'steps: while at < steps.len() && stopped[steps[at] as usize - 1] {
        at += 1;
    }
    at
}

// The backends of all steps, in order.
fn all_steps(alloc: Global, script: &Script) -> Result<Vec<u32>, NoMemory>
    ensures { IfOk result (λ steps. steps.items ≡ schedule_of script.now) }
{
    let mut steps = Vec::new(alloc);
    let lines = script.steps();
    for line in lines {
        push_line(&mut steps, line.as_slice())?;
    }
    Ok(steps)
}

// The steps of a line, after those before it.
fn push_line(steps: &mut Vec<u32>, line: &[Turns]) -> Result<(), NoMemory>
    ensures { OnOk result (steps.new.items ≡ steps.old.items ++ turns_of line.now) }
{
    for turns in line {
        push_turns(steps, turns)?;
    }
    Ok(())
}

// The steps of one item.
fn push_turns(steps: &mut Vec<u32>, turns: &Turns) -> Result<(), NoMemory>
    ensures { OnOk result (steps.new.items ≡ steps.old.items ++ replicate turns.now.count turns.now.backend) }
{
    for _step in 0..turns.count {
        steps.push(turns.backend)?;
    }
    Ok(())
}
