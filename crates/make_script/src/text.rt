ghost use Rattle.std.specs.Prelude.{◌≡◌, ◌++◌, IfOk};
ghost use Rattle.std.specs.List.{count_by};
ghost use Rattle.script_text.specs.ReadBack.{IsReadBack};
ghost use Rattle.make_script.specs.Texts.{publishes as has_published, resets as has_reset, is_error as has_failed, comment_text, made_text as text_of_made};

use base_types::{LineBuffer, NoMemory};
use event_kinds::{Entry, Event, Line};
use script_text::{Script, write_script};
use std::alloc::Global;

/// The text of a script under a comment that counts what came of it: the entries of its history, how
/// many of these publish messages, how many are resets, and how many of its answers are errors.
/// Reading the text gives the script back.
#[tactic(auto, unfolding(crate::specs::Texts::made_text))]
pub fn made_text(
    alloc: Global,
    script: &Script,
    history: &[Entry],
    answers: &[Line],
) -> Result<Vec<u8>, NoMemory>
    ensures text { IfOk result (λ text. text.items ≡ text_of_made script.now history.now answers.now) }
    ensures back { IfOk result (λ text. IsReadBack script.now text.items) }
{
    let mut out = Vec::new(alloc);
    out.extend_from_slice(comment(history, answers).as_bytes())?;
    out.extend_from_slice(&write_script(alloc, script)?)?;
    Ok(out)
}

// The comment.
fn comment(history: &[Entry], answers: &[Line]) -> LineBuffer
    ensures { result ≡ comment_text history.now answers.now }
{
    let mut line = LineBuffer::new();
    line.push(b"-- entries ");
    line.push_u64(history.len() as u64);
    line.push(b" publishes ");
    line.push_u64(publishes_in(history) as u64);
    line.push(b" resets ");
    line.push_u64(resets_in(history) as u64);
    line.push(b" errors ");
    line.push_u64(errors_in(answers) as u64);
    line.push(b"\n");
    line
}

// How many entries publish messages.
fn publishes_in(history: &[Entry]) -> usize
    ensures { result ≡ count_by has_published history.now }
{
    history.iter().filter(|entry| publishes(*entry)).count()
}

// How many entries are resets.
fn resets_in(history: &[Entry]) -> usize
    ensures { result ≡ count_by has_reset history.now }
{
    history.iter().filter(|entry| resets(*entry)).count()
}

// How many answers are errors.
fn errors_in(answers: &[Line]) -> usize
    ensures { result ≡ count_by has_failed answers.now }
{
    answers.iter().filter(|line| is_error(*line)).count()
}

#[tactic(auto, unfolding(crate::specs::Texts::publishes))]
fn publishes(entry: &Entry) -> bool
    ensures { result ≡ has_published entry.now }
{
    matches!(entry.event, Event::Publish { .. })
}

#[tactic(auto, unfolding(crate::specs::Texts::resets))]
fn resets(entry: &Entry) -> bool
    ensures { result ≡ has_reset entry.now }
{
    matches!(entry.event, Event::FetchReset)
}

fn is_error(line: &Line) -> bool
    ensures { result ≡ has_failed line.now }
{
    line.text.as_bytes().starts_with(b"error ")
}
