ghost use Rattle.std.specs.Prelude.{◌≡◌, ◌≤◌, ◌<◌, ◌+◌, nat_lt, if◌then◌else◌, MatchOption, IfSome, IfOk, OnSome, Option, None, Some, List, [], ◌∷◌, ℕ, length, sum_by, false};
ghost use Rattle.std.specs.List.{AllByRecursion};
ghost use Rattle.base_types.specs.Scenario.{AreTurns, step_count};
ghost use Rattle.script_text.specs.Tokens.{tokens, taken};
ghost use Rattle.script_text.specs.LineForms.{all_turns as turns_of, count_part as count_at, count_of, none_left, steps_of, NextTurns};

use crate::limits::MOST_STEPS;
use crate::operands;
use crate::tokens::Tokens;
use base_types::{Listed, NoMemory, Turns};
use std::alloc::Global;

// The steps of a line for a script with so many backends, where the line has that form.
#[tactic(auto, unfolding(crate::specs::LineForms::steps_of))]
pub(crate) fn steps(
    alloc: Global,
    line: &[u8],
    backends: u32,
) -> Result<Option<Listed<Turns>>, NoMemory>
    ensures value { IfOk result (λ found. found ≡ steps_of backends (tokens line.now)) }
    ensures turns { IfOk result (λ found. IfSome found (λ turns. (1 ≤ length turns) × AllByRecursion (AreTurns backends) turns)) }
{
    let mut tokens = Tokens::of(line);
    if tokens.words("steps").is_none() || tokens.is_empty() {
        return Ok(None);
    }
    all_turns(alloc, &mut tokens, backends)
}

// The number of steps up to a line and of that line, where there aren't too many.
pub(crate) fn steps_with(before: u32, turns: &[Turns]) -> Option<u32>
    requires { before ≤ MOST_STEPS }
    ensures { result ≡ (if nat_lt MOST_STEPS (before + step_count turns.now) then None else Some (before + step_count turns.now)) }
{
    let mut total = before;
    for item in turns {
        if item.count > MOST_STEPS - total {
            return None;
        }
        total += item.count;
    }
    Some(total)
}

// All items of a line of steps; `None` where they have no such form.
fn all_turns(
    alloc: Global,
    tokens: &mut Tokens,
    backends: u32,
) -> Result<Option<Listed<Turns>>, NoMemory>
    ensures value { IfOk result (λ found. found ≡ turns_of backends tokens.old) }
    ensures turns { IfOk result (λ found. IfSome found (AllByRecursion (AreTurns backends))) }
    ensures some { IfOk result (λ found. IfSome found (λ turns. (none_left tokens.old ≡ false → 1 ≤ length turns))) }
{
    let mut turns = Listed::new(alloc);
    'items: while !tokens.is_empty() {
        let Some(item) = next_turns(tokens, backends) else {
            return Ok(None);
        };
        turns.push(item)?;
    }
    Ok(Some(turns))
}

// Takes a backend of so many, and how many steps it has.
#[tactic(auto, using(crate::proofs::StepItems::no_backend, crate::proofs::StepItems::no_count, crate::proofs::StepItems::both))]
fn next_turns(tokens: &mut Tokens, backends: u32) -> Option<Turns>
    requires { none_left tokens.old ≡ false }
    ensures item { NextTurns backends tokens.old tokens.new result }
    ensures turns { IfSome result (AreTurns backends) }
    ensures shorter { OnSome result (length tokens.new < length tokens.old) }
{
    let backend = operands::number_within(tokens.next()?, 1, backends)?;
    let count = count_part(tokens)?;
    Some(Turns { backend, count })
}

// One step, or after an asterisk how many.
#[tactic(auto, unfolding(crate::specs::LineForms::count_part))]
fn count_part(tokens: &mut Tokens) -> Option<u32>
    ensures value { MatchOption result (count_at tokens.old ≡ None) (λ count. count_at tokens.old ≡ Some (count, tokens.new)) }
    ensures some { IfSome result (λ count. 1 ≤ count) }
    ensures shorter { OnSome result (length tokens.new ≤ length tokens.old) }
{
    if !tokens.begins("*") {
        return Some(1);
    }
    tokens.next()?;
    operands::number_within(tokens.next()?, 1, MOST_STEPS)
}
