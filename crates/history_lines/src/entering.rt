// How a session takes an entry of its backend.

ghost use Rattle.std.specs.Prelude.{◌≡◌, ◌≤◌, ◌+◌, ◌++◌, ◌∷◌, [], true, OnOk, OnErr, length};
ghost use Rattle.event_kinds.specs.declared.entry.Entry.{Entry};
ghost use Rattle.history_model.specs.Legal.{IsLegal};
ghost use Rattle.history_model.specs.MayFollow.{MayFollow};
ghost use Rattle.history_ledger.specs.Held.{Reads};
ghost use Rattle.cacheless.specs.Holds.{entry_of, with_own};
ghost use Rattle.cacheless.specs.Played.{AreSpelled};
ghost use Rattle.cacheless.specs.Plays.{IsNext, Plays};
ghost use Rattle.base_types.specs.Scenario.{Scenario};
ghost use Rattle.cacheless.specs.Awaiting.{AwaitsEntry, AnswersNow};
ghost use Rattle.history_lines.specs.Takes.{ComesNext, ComesTo, MayTake, HasSettled, is_stop};
ghost use Rattle.history_lines.specs.Stands.{HasNoEntry, IsSessionOf};

use crate::session::Session;
use crate::taking::enter;
use base_types::NoMemory;
use event_kinds::{Entry, Event};
use history_ledger::Ledger;
use std::alloc::Global;

impl Session {
    ghost use Rattle.std.specs.Prelude.{List, false};

    // Enters an entry that may come next, and goes on as far as it can without one. The ledger is that of the
    // entries before, and this is the entry's number. Out of memory, it may not be used any more.
    pub(crate) fn take(
        &mut self,
        alloc: Global,
        ledger: &Ledger,
        at: u64,
        e: &Entry,
    ) -> Result<(), NoMemory>
        requires { ComesTo ledger.now self.old e.now }
        ensures ok { OnOk result ((scenario : Scenario) (seen : List Entry) → Reads seen ledger.now → at ≡ length seen + 1 → AreSpelled scenario → IsLegal seen → Plays scenario seen → MayFollow seen e.now → IsNext scenario seen e.now → IsSessionOf scenario seen e.now.backend self.old → IsSessionOf scenario (seen ++ e.now ∷ []) e.now.backend self.new) }
        ensures only { OnErr result (is_stop e.now.event ≡ false) }
    {
        match &e.event {
            Event::Start => self.start(alloc),
            Event::Stop => {
                self.stop();
                Ok(())
            }
            event => self.go_on(alloc, ledger, at, event),
        }
    }

    // It starts, and goes on to its first entry.
    fn start(&mut self, alloc: Global) -> Result<(), NoMemory>
        requires few { length self.old.progress.commands ≤ 20000 }
        ensures { OnOk result ((scenario : Scenario) (seen : List Entry) → HasNoEntry scenario seen self.old → ComesNext scenario seen (entry_of self.old.progress.id 0 Event.Start) → IsSessionOf scenario (seen ++ entry_of self.old.progress.id 0 Event.Start ∷ []) self.old.progress.id self.new) }
    {
        self.progress.enter_start();
        self.is_started = true;
        self.settle(alloc)
    }

    // It stops.
    fn stop(&mut self)
        requires going { self.old.is_started ≡ true }
        requires few { self.old.progress.finished ≤ 20000 }
        ensures { (scenario : Scenario) (seen : List Entry) → AwaitsEntry scenario seen self.old.progress self.old.lines → ComesNext scenario seen (entry_of self.old.progress.id (self.old.progress.finished + 1) Event.Stop) → IsSessionOf scenario (with_own seen self.old.progress Event.Stop) self.old.progress.id self.new }
    {
        self.progress.enter_stop();
    }

    // It takes an entry between its start and its stop, and goes on to the next.
    fn go_on(
        &mut self,
        alloc: Global,
        ledger: &Ledger,
        at: u64,
        event: &Event,
    ) -> Result<(), NoMemory>
        requires going { self.old.is_started ≡ true }
        requires comes { MayTake ledger.now self.old.progress event.now }
        requires inside { is_stop event.now ≡ false }
        ensures { OnOk result ((scenario : Scenario) (seen : List Entry) → Reads seen ledger.now → at ≡ length seen + 1 → AwaitsEntry scenario seen self.old.progress self.old.lines → ComesNext scenario seen (entry_of self.old.progress.id (self.old.progress.finished + 1) event.now) → IsSessionOf scenario (with_own seen self.old.progress event.now) self.old.progress.id self.new) }
    {
        self.progress.reserve_lock()?;
        enter(&mut self.progress, alloc, ledger, at, event)?;
        self.settle(alloc)
    }

    // It goes on as far as it can without an entry.
    fn settle(&mut self, alloc: Global) -> Result<(), NoMemory>
        requires few { length self.old.progress.commands ≤ 20000 }
        ensures goes_on { OnOk result ((scenario : Scenario) (seen : List Entry) → AnswersNow scenario seen self.old.progress self.old.lines → HasSettled scenario seen self.old self.new) }
        ensures started { self.new.is_started ≡ self.old.is_started }
    {
        self.progress.settle(alloc, &mut self.lines)
    }
}
