ghost use Rattle.std.specs.Prelude.{◌≡◌, ◌≤◌, true, [], length, IfOk};
ghost use Rattle.base_types.specs.Scenario.{Scenario, IsBackend};
ghost use Rattle.ddl_effect.specs.Commands.{commands_of};
ghost use Rattle.cacheless.specs.May.{HasRoom};
ghost use Rattle.history_lines.specs.Comes.{comes_at};
ghost use Rattle.history_lines.specs.Stands.{IsSessionOf};

use base_types::{Command, Listed, NoMemory};
use cacheless::Progress;
use event_kinds::{Event, Line};
use std::alloc::Global;

// The session of a backend: how far it is, whether it has an entry, and the lines of its finished commands.
#[derive(Drop)]
pub(crate) struct Session {
    pub(crate) progress: Progress,
    pub(crate) is_started: bool,
    pub(crate) lines: Listed<Line>,
}

impl Session {
    // The session of this backend, with its commands in order, before its first entry.
    pub(crate) fn new(
        alloc: Global,
        id: u32,
        commands: Listed<Command>,
    ) -> Result<Session, NoMemory>
        ensures { IfOk result (λ s. (scenario : Scenario) → IsBackend scenario.backends id → commands ≡ commands_of scenario id → length commands ≤ 20000 → IsSessionOf scenario [] id s) }
    {
        Ok(Session {
            progress: Progress::new(alloc, id, commands)?,
            is_started: false,
            lines: Listed::new(alloc),
        })
    }

    // Whether the event may come next in the command of this number.
    pub(crate) fn comes(&self, next_oid: u32, command: u32, event: &Event) -> bool
        requires few { self.now.progress.finished ≤ 20000 }
        requires room { HasRoom self.now.progress }
        ensures { result ≡ comes_at next_oid self.now command event.now }
    {
        if self.is_started {
            command == self.progress.finished + 1 && self.progress.may_play(next_oid, event)
        } else {
            matches!(event, Event::Start)
        }
    }
}
