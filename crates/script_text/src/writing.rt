ghost use Rattle.std.specs.Prelude.{◌≡◌, IfOk, [], ◌∷◌, decimal, flat_map, codes};
ghost use Rattle.script_text.specs.ReadBack.{IsReadBack};
ghost use Rattle.script_text.specs.Spelling.{AddsPieces, placed_pieces, turns_pieces, steps_pieces, ring_pieces, from_pieces, script_spelling};

use crate::adding_pieces::{line_end, number, words};
use crate::command_writing::command;
use crate::limits::QUEUE_SIZE;
use crate::script::Script;
use base_types::{Listed, NoMemory, Placed, Turns};
use std::alloc::Global;

/// The text of a script: single blanks, small letters, a line feed after each line, no count of 1,
/// the first form of a command that has two, and a `ring` line only where the queue isn't of 4,096
/// messages from 0 on. Reading the text gives the script back.
#[tactic(auto, unfolding(crate::specs::Spelling::script_spelling))]
pub fn write_script(alloc: Global, script: &Script) -> Result<Vec<u8>, NoMemory>
    ensures text { IfOk result (λ text. text.items ≡ script_spelling script.now) }
    ensures back { IfOk result (λ text. IsReadBack script.now text.items) }
{
    let mut out = Vec::new(alloc);
    ring(&mut out, script.size(), script.from())?;
    backends(&mut out, script.backends())?;
    commands(&mut out, script.commands())?;
    steps(&mut out, script.steps())?;
    words(&mut out, "end")?;
    line_end(&mut out)?;
    Ok(out)
}

// The line of the queue, where it isn't what holds without a line.
fn ring(out: &mut Vec<u8>, size: u32, first: u64) -> Result<(), NoMemory>
    ensures { AddsPieces out.old.items out.new.items result (ring_pieces size first) }
{
    if size == QUEUE_SIZE && first == 0 {
        return Ok(());
    }
    words(out, "ring")?;
    number(out, u64::from(size))?;
    from(out, first)?;
    line_end(out)
}

// The number of the first message, where it isn't 0.
fn from(out: &mut Vec<u8>, from: u64) -> Result<(), NoMemory>
    ensures { AddsPieces out.old.items out.new.items result (from_pieces from) }
{
    if from == 0 {
        return Ok(());
    }
    words(out, "from")?;
    number(out, from)
}

// The line that says how many backends there are.
fn backends(out: &mut Vec<u8>, backends: u32) -> Result<(), NoMemory>
    ensures { AddsPieces out.old.items out.new.items result (codes "backends" ∷ decimal backends ∷ (10 ∷ []) ∷ []) }
{
    words(out, "backends")?;
    number(out, u64::from(backends))?;
    line_end(out)
}

// The lines of all commands.
fn commands(out: &mut Vec<u8>, commands: &[Placed]) -> Result<(), NoMemory>
    ensures { AddsPieces out.old.items out.new.items result (flat_map placed_pieces commands.now) }
{
    for command in commands {
        placed(out, command)?;
    }
    Ok(())
}

// A command's line.
fn placed(out: &mut Vec<u8>, placed: &Placed) -> Result<(), NoMemory>
    ensures { AddsPieces out.old.items out.new.items result (placed_pieces placed.now) }
{
    number(out, u64::from(placed.backend))?;
    words(out, ":")?;
    command(out, &placed.command)?;
    line_end(out)
}

// All lines of steps.
fn steps(out: &mut Vec<u8>, lines: &[Listed<Turns>]) -> Result<(), NoMemory>
    ensures { AddsPieces out.old.items out.new.items result (flat_map steps_pieces lines.now) }
{
    for line in lines {
        steps_line(out, line.as_slice())?;
    }
    Ok(())
}

// A line of steps.
fn steps_line(out: &mut Vec<u8>, items: &[Turns]) -> Result<(), NoMemory>
    ensures { AddsPieces out.old.items out.new.items result (steps_pieces items.now) }
{
    words(out, "steps")?;
    all_turns(out, items)?;
    line_end(out)
}

// All items of a line of steps.
fn all_turns(out: &mut Vec<u8>, items: &[Turns]) -> Result<(), NoMemory>
    ensures { AddsPieces out.old.items out.new.items result (flat_map turns_pieces items.now) }
{
    for item in items {
        turns(out, item)?;
    }
    Ok(())
}

// A backend, and how many steps it has where that isn't one.
fn turns(out: &mut Vec<u8>, turns: &Turns) -> Result<(), NoMemory>
    ensures { AddsPieces out.old.items out.new.items result (turns_pieces turns.now) }
{
    number(out, u64::from(turns.backend))?;
    if turns.count == 1 {
        return Ok(());
    }
    words(out, "*")?;
    number(out, u64::from(turns.count))
}
