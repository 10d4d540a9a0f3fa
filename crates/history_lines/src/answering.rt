ghost use Rattle.std.specs.Prelude.{◌≡◌, ◌+◌, ◌++◌, ◌∷◌, [], ◌≤◌, ◌^◌, true, false, List, length, IfOk, OnOk, OnErr};
ghost use Rattle.std.specs.Bool.{Decides};
ghost use Rattle.base_types.specs.Scenario.{Scenario, IsBackend};
ghost use Rattle.event_kinds.specs.declared.entry.Entry.{Entry};
ghost use Rattle.history_model.specs.Drawn.{next_oid as oid_drawn_next};
ghost use Rattle.history_ledger.specs.Held.{Reads};
ghost use Rattle.history_ledger.specs.Words.{takes_memory};
ghost use Rattle.history_lines.specs.Answered.{IsAnswered};
ghost use Rattle.history_lines.specs.Stands.{Follows, IsHeld};
ghost use Rattle.history_lines.specs.AllowedNext.{IsAllowedNext, CanTake, lines_held};

use crate::session::Session;
use base_types::{Listed, NoMemory};
use by_backend::{commands_by_backend, push_copies};
use event_kinds::{Entry, Line};
use history_ledger::Ledger;
use script_text::Script;
use std::alloc::Global;
use std::mem::replace;

/// How many entries of a list, from the first on, a script allows, and the answer lines of the commands that
/// these finish, in order of backend and command.
#[derive(Drop)]
pub struct Answered {
    pub entries: u64,
    pub lines: Listed<Line>,
}

// The most entries of a list: that many fit no memory, and what is counted of fewer can be summed.
const MOST_ENTRIES: usize = 1_152_921_504_606_846_976;

/// The longest prefix of these entries that the script allows, and the lines that backends without caches
/// answer by it. `NoMemory` comes where memory is short, or the next oid is above 32 bits.
pub fn lines(alloc: Global, script: &Script, entries: &[Entry]) -> Result<Answered, NoMemory>
    ensures { IfOk result (λ a. IsAnswered script.now entries.now a.entries a.lines) }
{
    if entries.len() >= MOST_ENTRIES {
        return Err(NoMemory);
    }
    let mut held = Held::new(alloc, script)?;
    for (at, e) in entries.iter().enumerate() {
        let may_come = held.may_enter(script.size(), e)?;
        if !may_come {
            return held.answer(alloc, at as u64);
        }
        held.enter(alloc, at as u64 + 1, e)?;
    }
    held.answer(alloc, entries.len() as u64)
}

// What is held of a history that a script allows: what its entries leave, and the session of each backend.
#[derive(Drop)]
struct Held {
    ledger: Ledger,
    sessions: Vec<Session>,
}

impl Held {
    // That of no entry.
    fn new(alloc: Global, script: &Script) -> Result<Held, NoMemory>
        ensures { IfOk result (λ held. Follows script.now [] held.ledger held.sessions.items) }
    {
        Ok(Held {
            ledger: Ledger::new(alloc),
            sessions: new_sessions(alloc, script)?,
        })
    }

    // Whether the script, whose queue has this size, allows an entry next.
    fn may_enter(&self, size: u32, e: &Entry) -> Result<bool, NoMemory>
        requires { IsHeld self.now.ledger self.now.sessions.items }
        ensures decides { (scenario : Scenario) (seen : List Entry) → Follows scenario seen self.now.ledger self.now.sessions.items → size ≡ scenario.size → IfOk result (λ yes. Decides yes (IsAllowedNext scenario seen e.now)) }
        ensures only { OnErr result ((seen : List Entry) → Reads seen self.now.ledger → takes_memory e.now.event ≡ false → 2 ^ 32 ≤ oid_drawn_next seen) }
    {
        if !self.has_session(e.backend) {
            return Ok(false);
        }
        let may_follow = self.ledger.may_follow(e, size)?;
        if !may_follow {
            return Ok(false);
        }
        let Ok(next_oid) = u32::try_from(self.ledger.next_oid()) else {
            return Err(NoMemory);
        };
        let session = &self.sessions[e.backend as usize - 1];
        Ok(session.comes(next_oid, e.command, &e.event))
    }

    // Whether one of the sessions is that of the backend of this number.
    fn has_session(&self, b: u32) -> bool
        ensures { Decides result (IsBackend (length self.now.sessions.items) b) }
    {
        1 <= b && b as usize <= self.sessions.len()
    }

    // Enters an entry that the script allows next, the one of this number. Out of memory, it may not be used
    // any more.
    fn enter(&mut self, alloc: Global, at: u64, e: &Entry) -> Result<(), NoMemory>
        requires { CanTake self.old.ledger self.old.sessions.items e.now }
        ensures { OnOk result ((scenario : Scenario) (seen : List Entry) → Follows scenario seen self.old.ledger self.old.sessions.items → at ≡ length seen + 1 → IsAllowedNext scenario seen e.now → Follows scenario (seen ++ e.now ∷ []) self.new.ledger self.new.sessions.items) }
    {
        let session = &mut self.sessions[e.backend as usize - 1];
        session.take(alloc, &self.ledger, at, e)?;
        self.ledger.enter(e)
    }

    // The answer, where so many entries are entered.
    fn answer(&self, alloc: Global, entries: u64) -> Result<Answered, NoMemory>
        ensures entries { IfOk result (λ a. a.entries ≡ entries) }
        ensures lines { IfOk result (λ a. a.lines ≡ lines_held self.now.sessions.items) }
    {
        let mut lines = Vec::new(alloc);
        for session in &self.sessions {
            push_copies(alloc, &mut lines, session.lines.as_slice())?;
        }
        Ok(Answered {
            entries,
            lines: Listed::from_vec(lines),
        })
    }
}

// The sessions of a script's backends, before the first entry.
fn new_sessions(alloc: Global, script: &Script) -> Result<Vec<Session>, NoMemory>
    ensures { IfOk result (λ sessions. (ledger : Ledger) → Reads [] ledger → Follows script.now [] ledger sessions.items) }
{
    let mut lists = commands_by_backend(alloc, script)?;
    let mut sessions = Vec::new(alloc);
    for number in 0..script.backends() {
        let commands = replace(&mut lists[number as usize], Listed::new(alloc));
        sessions.push(Session::new(alloc, number + 1, commands)?)?;
    }
    Ok(sessions)
}
