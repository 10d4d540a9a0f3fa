ghost use Rattle.std.specs.Prelude.{◌≡◌, ◌≤◌, ◌<◌, ◌+◌, ◌^◌, length, IfOk, IfSome, codes};
ghost use Rattle.base_types.specs.Commands.{IsCommand};
ghost use Rattle.script_text.specs.Tokens.{tokens, said};
ghost use Rattle.script_text.specs.Commands.{command_of};
ghost use Rattle.script_text.specs.Grammar.{empty_draft, ring_line as after_ring, backends_line as after_backends, steps_line as after_steps, command_line as after_command, body_line as after_body, tokens_line as after_tokens, is_end_line as end_line, before_end, line_after, any_line, place_after as end_of_line, stops as stops_here, at_end};
ghost use Rattle.script_text.specs.Drafts.{Takes, Reads};

use crate::fault::{LineFault, Rest, ScriptCause, ScriptFault};
use crate::limits::{MOST_COMMANDS, QUEUE_SIZE};
use crate::reading::ScriptRead;
use crate::script::Script;
use crate::tokens::Tokens;
use crate::{alterations, line_forms, list_commands, short_commands, steps, text_lines};
use base_types::{Command, Listed, NoMemory, Placed, Turns};
use std::alloc::Global;
use std::marker::Model;

// What the lines so far say.
#[derive(Drop)]
pub(crate) struct LinesSoFar {
    size: u32,
    from: u64,
    backends: u32,
    commands: Listed<Placed>,
    steps: Listed<Listed<Turns>>,
    total: u32,
    has_ring: bool,
    has_end: bool,
}

impl Model for LinesSoFar {
    ghost use Rattle.script_text.specs.Grammar.{Draft};
    ghost use Rattle.script_text.specs.Drafts.{IsCounted, IsDraft};

    ghost Value = { Draft };

    ghost view = { λ d. record { asked = record { size = d.size; from = d.from; backends = d.backends; commands = d.commands; steps = d.steps }; has_ring = d.has_ring; has_end = d.has_end } };

    ghost invariant = { λ d. IsCounted d.total d.steps × IsDraft (record { size = d.size; from = d.from; backends = d.backends; commands = d.commands; steps = d.steps }) };
}

impl LinesSoFar {
    // What holds before the first line.
    pub(crate) fn new(alloc: Global) -> LinesSoFar
        ensures { result ≡ empty_draft }
    {
        LinesSoFar {
            size: QUEUE_SIZE,
            from: 0,
            backends: 0,
            commands: Listed::new(alloc),
            steps: Listed::new(alloc),
            total: 0,
            has_ring: false,
            has_end: false,
        }
    }

    // Takes a line with its end.
    #[tactic(auto, unfolding(crate::specs::Grammar::any_line))]
    pub(crate) fn line(&mut self, alloc: Global, line: &[u8]) -> Result<(), LineFault>
        ensures { Takes self.new result (any_line self.old line.now) }
    {
        let line = text_lines::bare(line);
        if !text_lines::counts(line) {
            return Ok(());
        }
        self.counting_line(alloc, line)
    }

    // The place right after a line that begins at this place; the place itself, where the `end`
    // line came before.
    pub(crate) fn place_after(&self, place: usize, line: &[u8]) -> usize
        requires { place + length line.now < 2 ^ 64 }
        ensures value { result ≡ end_of_line self.now place line.now }
        ensures most { result ≤ place + length line.now }
    {
        if self.has_end {
            place
        } else {
            place + line.len()
        }
    }

    // Reading stops here: after the `end` line, where a rest is given.
    pub(crate) fn stops(&self, rest: Rest) -> bool
        ensures { result ≡ stops_here rest self.now }
    {
        match rest {
            Rest::Given => self.has_end,
            Rest::Refused => false,
        }
    }

    // What was read, at the end of the input or of reading. A line that is missing is missed at
    // `line`, and the rest begins at `place`.
    pub(crate) fn finish(self, line: u32, place: usize) -> Result<ScriptRead, ScriptFault>
        ensures { Reads result (at_end self line place) }
    {
        if self.backends == 0 {
            return Err(ScriptFault::Bad {
                line,
                cause: ScriptCause::NoBackends,
            });
        }
        if !self.has_end {
            return Err(ScriptFault::Bad {
                line,
                cause: ScriptCause::NoEnd,
            });
        }
        Ok(ScriptRead {
            script: Script::new(
                self.size,
                self.from,
                self.backends,
                self.commands,
                self.steps,
            ),
            rest_at: place,
        })
    }

    // A line that counts, in large or small letters.
    #[tactic(auto, unfolding(crate::specs::Grammar::line_after))]
    fn counting_line(&mut self, alloc: Global, line: &[u8]) -> Result<(), LineFault>
        ensures { Takes self.new result (line_after self.old line.now) }
    {
        if text_lines::has_bad_byte(line) {
            return Err(LineFault::Breaks(ScriptCause::BadByte));
        }
        let folded = text_lines::in_small_letters(alloc, line)?;
        self.tokens_line(alloc, folded.as_slice())
    }

    // A line in small letters.
    #[tactic(auto, unfolding(crate::specs::Grammar::tokens_line))]
    fn tokens_line(&mut self, alloc: Global, line: &[u8]) -> Result<(), LineFault>
        ensures { Takes self.new result (after_tokens self.old (tokens line.now)) }
    {
        if Tokens::of(line).begins("ring") {
            return self.ring_line(line);
        }
        if self.backends == 0 {
            return self.backends_line(line);
        }
        self.before_end(alloc, line)
    }

    // A line that begins with `ring`.
    #[tactic(auto, unfolding(crate::specs::Grammar::ring_line))]
    fn ring_line(&mut self, line: &[u8]) -> Result<(), LineFault>
        ensures { Takes self.new result (after_ring self.old (tokens line.now)) }
    {
        if self.has_ring || self.backends > 0 {
            return Err(LineFault::Breaks(ScriptCause::BadRing));
        }
        let Some((size, from)) = line_forms::ring(line) else {
            return Err(LineFault::Breaks(ScriptCause::BadRing));
        };
        self.size = size;
        self.from = from;
        self.has_ring = true;
        Ok(())
    }

    // The line that says how many backends there are.
    #[tactic(auto, unfolding(crate::specs::Grammar::backends_line))]
    fn backends_line(&mut self, line: &[u8]) -> Result<(), LineFault>
        requires { self.old.asked.backends ≡ 0 }
        ensures { Takes self.new result (after_backends self.old (tokens line.now)) }
    {
        if !Tokens::of(line).begins("backends") {
            return Err(LineFault::Breaks(ScriptCause::NoBackends));
        }
        let Some(backends) = line_forms::backends(line) else {
            return Err(LineFault::Breaks(ScriptCause::BadCount));
        };
        self.backends = backends;
        Ok(())
    }

    // A line after that of the backends, where no `end` line came before it.
    fn before_end(&mut self, alloc: Global, line: &[u8]) -> Result<(), LineFault>
        ensures { Takes self.new result (before_end self.old (after_body self.old (tokens line.now))) }
    {
        let has_end = self.has_end;
        match self.body_line(alloc, line) {
            Err(fault) => Err(fault),
            Ok(()) => {
                if has_end {
                    Err(LineFault::Breaks(ScriptCause::AfterEnd))
                } else {
                    Ok(())
                }
            }
        }
    }

    // A line after that of the backends.
    #[tactic(auto, unfolding(crate::specs::Grammar::body_line))]
    fn body_line(&mut self, alloc: Global, line: &[u8]) -> Result<(), LineFault>
        ensures { Takes self.new result (after_body self.old (tokens line.now)) }
    {
        if is_end_line(line) {
            self.has_end = true;
            return Ok(());
        }
        if Tokens::of(line).begins("steps") {
            return self.steps_line(alloc, line);
        }
        self.command_line(alloc, line)
    }

    // A line that begins with `steps`.
    #[tactic(auto, unfolding(crate::specs::Grammar::steps_line))]
    fn steps_line(&mut self, alloc: Global, line: &[u8]) -> Result<(), LineFault>
        ensures { Takes self.new result (after_steps self.old (tokens line.now)) }
    {
        let Some(turns) = steps::steps(alloc, line, self.backends)? else {
            return Err(LineFault::Breaks(ScriptCause::BadSteps));
        };
        let Some(total) = steps::steps_with(self.total, turns.as_slice()) else {
            return Err(LineFault::Breaks(ScriptCause::TooManySteps));
        };
        self.steps.push(turns)?;
        self.total = total;
        Ok(())
    }

    // Any other line.
    #[tactic(auto, unfolding(crate::specs::Grammar::command_line))]
    fn command_line(&mut self, alloc: Global, line: &[u8]) -> Result<(), LineFault>
        ensures { Takes self.new result (after_command self.old (tokens line.now)) }
    {
        let Some((backend, text)) = line_forms::addressed(line, self.backends) else {
            return Err(LineFault::Breaks(ScriptCause::UnknownBackend));
        };
        if !self.steps.as_slice().is_empty() {
            return Err(LineFault::Breaks(ScriptCause::LateCommand));
        }
        let Some(command) = command(alloc, text)? else {
            return Err(LineFault::Breaks(ScriptCause::BadCommand));
        };
        if self.commands.as_slice().len() >= MOST_COMMANDS {
            return Err(LineFault::Breaks(ScriptCause::TooManyCommands));
        }
        self.commands.push(Placed { backend, command })?;
        Ok(())
    }
}

// The command of a line's text, if it has the form of one.
#[tactic(auto, using(crate::proofs::ReadCommands::short_made, crate::proofs::ReadCommands::alter_made), unfolding(crate::specs::Commands::command_of))]
fn command(alloc: Global, line: &[u8]) -> Result<Option<Command>, NoMemory>
    ensures value { IfOk result (λ found. found ≡ command_of (tokens line.now)) }
    ensures spelled { IfOk result (λ found. IfSome found IsCommand) }
{
    if let Some(command) = short_commands::short(line) {
        return Ok(Some(command));
    }
    if let Some(command) = alterations::alter(line) {
        return Ok(Some(command));
    }
    list_commands::long(alloc, line)
}

// The line is `end` alone.
fn is_end_line(line: &[u8]) -> bool
    ensures { result ≡ end_line (said (codes "end") (tokens line.now)) }
{
    let mut tokens = Tokens::of(line);
    tokens.words("end").is_some() && tokens.is_empty()
}
