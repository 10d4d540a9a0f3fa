ghost use Rattle.std.specs.Prelude.{◌≡◌, ◌≤◌, ◌<◌, ◌*◌, MatchOption, IfSome, IfOk, OnSome, Option, None, Some, List, [], ℕ, length, option_map};
ghost use Rattle.base_types.specs.Scenario.{IsQueueSize, IsBackend, AreTurns};
ghost use Rattle.script_text.specs.Tokens.{tokens, after, taken};
ghost use Rattle.script_text.specs.LineForms.{is_size as may_be_size, size_of, first_of as first_message, from_part as from_number, ring_of, backends_of, all_turns as all_of_turns, steps_of, addressed as addressed_to};

use crate::limits::{MOST_BACKENDS, QUEUE_ROUNDS};
use crate::operands;
use crate::tokens::{Tokens, without_blanks};
use base_types::{Listed, NoMemory, Turns};
use std::alloc::Global;

// The size of the queue and the number of its first message, where a line has that form.
#[tactic(auto, unfolding(crate::specs::LineForms::ring_of, crate::specs::Tokens::after))]
pub(crate) fn ring(line: &[u8]) -> Option<(u32, u64)>
    ensures value { result ≡ ring_of (tokens line.now) }
    ensures size { IfSome result (λ ring. IsQueueSize ring.0) }
    ensures below { IfSome result (λ ring. ring.1 < ring.0 * QUEUE_ROUNDS) }
{
    let mut tokens = Tokens::of(line);
    tokens.words("ring")?;
    let size = size(tokens.next()?)?;
    let from = from_part(&mut tokens, size)?;
    Some((size, from))
}

// The number of backends, where a line has that form.
#[tactic(auto, unfolding(crate::specs::LineForms::backends_of, crate::specs::Tokens::after))]
pub(crate) fn backends(line: &[u8]) -> Option<u32>
    ensures value { result ≡ backends_of (tokens line.now) }
    ensures within { IfSome result (IsBackend MOST_BACKENDS) }
{
    let mut tokens = Tokens::of(line);
    tokens.words("backends")?;
    let backends = operands::number_within(tokens.next()?, 1, MOST_BACKENDS)?;
    tokens.is_empty().then_some(backends)
}

// A backend of so many, and the text after a colon and blanks, where a line has that form.
#[tactic(auto, unfolding(crate::specs::LineForms::addressed))]
pub(crate) fn addressed(line: &[u8], backends: u32) -> Option<(u32, &[u8])>
    ensures value { MatchOption result (addressed_to backends (tokens line.now) ≡ None) (λ x. addressed_to backends (tokens line.now) ≡ Some (x.0, tokens x.1.now)) }
    ensures within { IfSome result (λ x. IsBackend backends x.0) }
{
    let mut tokens = Tokens::of(line);
    let backend = operands::number_within(tokens.next()?, 1, backends)?;
    tokens.words(":")?;
    Some((backend, without_blanks(tokens.text())))
}

// A size of the queue.
#[tactic(auto, using(crate::proofs::QueueSizes::queue_size), unfolding(crate::specs::LineForms::size_of))]
fn size(text: &[u8]) -> Option<u32>
    ensures value { result ≡ size_of text.now }
    ensures size { IfSome result IsQueueSize }
{
    let size = operands::number(text, 9)? as u32;
    if is_size(size) { Some(size) } else { None }
}

// The queue may have this size.
fn is_size(size: u32) -> bool
    ensures { result ≡ may_be_size size }
{
    matches!(size, 64 | 128 | 256 | 512 | 1024 | 2048 | 4096)
}

// Nothing for 0, or `from` and the number of the first message.
#[tactic(auto, unfolding(crate::specs::LineForms::from_part, crate::specs::Tokens::after))]
fn from_part(tokens: &mut Tokens, size: u32) -> Option<u64>
    requires { 0 < size }
    ensures value { result ≡ from_number size tokens.old }
    ensures below { IfSome result (λ from. from < size * QUEUE_ROUNDS) }
{
    if tokens.is_empty() {
        return Some(0);
    }
    tokens.words("from")?;
    let from = first_of(tokens.next()?, size)?;
    tokens.is_empty().then_some(from)
}

// The number of the first message of a queue of this size.
#[tactic(auto, unfolding(crate::specs::LineForms::first_of))]
fn first_of(text: &[u8], size: u32) -> Option<u64>
    ensures value { result ≡ first_message size text.now }
    ensures below { IfSome result (λ from. from < size * QUEUE_ROUNDS) }
{
    let from = operands::number(text, 10)?;
    (from < u64::from(size) * QUEUE_ROUNDS).then_some(from)
}
