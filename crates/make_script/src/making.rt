ghost use Rattle.std.specs.Prelude.{◌≡◌, ◌≤◌, IfOk, replicate};
ghost use Rattle.base_types.specs.Scenario.{IsScript};
ghost use Rattle.make_script.specs.Scripts.{commands_after, step_line as line_of_steps, made_script};

use crate::commands::placed;
use crate::draws::Draws;
use base_types::{Listed, NoMemory, Placed, Turns};
use script_text::Script;
use std::alloc::Global;

/// The scripts that can be made have numbers from 1 to this one.
pub const MOST_NUMBER: u32 = 1000;

// How long a script is, and how small its queue.
const COMMANDS: u32 = 1000;

const STEP_LINES: u32 = 4000;

const QUEUE: u32 = 64;

const BACKENDS: u32 = 4;

/// The script of a number, from 1 to [`MOST_NUMBER`]: 1,000 commands of four backends, drawn one after
/// another, with a schedule of 76,000 steps.
pub fn make(alloc: Global, number: u32) -> Result<Script, NoMemory>
    requires least { 1 ≤ number }
    requires most { number ≤ MOST_NUMBER }
    ensures made { IfOk result (λ script. script ≡ made_script number) }
    ensures kept { IfOk result (λ script. IsScript script) }
{
    let commands = commands(alloc, number)?;
    let steps = steps(alloc)?;
    Ok(Script::new(QUEUE, 0, BACKENDS, commands, steps))
}

// The commands after a number.
fn commands(alloc: Global, number: u32) -> Result<Listed<Placed>, NoMemory>
    ensures { IfOk result (λ commands. commands ≡ commands_after COMMANDS number) }
{
    let mut draws = Draws { number };
    let mut commands = Vec::new(alloc);
    'commands: for _command in 0..COMMANDS {
        commands.push(placed(alloc, &mut draws)?)?;
    }
    Ok(Listed::from_vec(commands))
}

// The lines of steps.
fn steps(alloc: Global) -> Result<Listed<Listed<Turns>>, NoMemory>
    ensures { IfOk result (λ steps. steps ≡ replicate STEP_LINES line_of_steps) }
{
    let mut lines = Vec::new(alloc);
    'lines: for _line in 0..STEP_LINES {
        lines.push(step_line(alloc)?)?;
    }
    Ok(Listed::from_vec(lines))
}

// A line of steps.
fn step_line(alloc: Global) -> Result<Listed<Turns>, NoMemory>
    ensures { IfOk result (λ line. line ≡ line_of_steps) }
{
    let mut line = Vec::new(alloc);
    line.push(turns(1, 5))?;
    line.push(turns(2, 3))?;
    line.push(turns(3, 7))?;
    line.push(turns(4, 4))?;
    Ok(Listed::from_vec(line))
}

fn turns(backend: u32, count: u32) -> Turns
    ensures { result ≡ record { backend = backend; count = count } }
{
    Turns { backend, count }
}
