// What a backend does without an entry: acts whose rows are there, the answers of its commands, and the
// passing from one to the next.

ghost use Rattle.std.specs.Prelude.{◌≡◌, ◌≤◌, ◌<◌, ◌+◌, ◌&&◌, List, true, OnOk, IfOk, length};
ghost use Rattle.base_types.specs.Scenario.{Scenario};
ghost use Rattle.event_kinds.specs.declared.entry.Entry.{Entry};
ghost use Rattle.cacheless.specs.Silently.{Acts, Answers, Finishes, left_of};
ghost use Rattle.cacheless.specs.State.{is_absent};
ghost use Rattle.ddl_effect.specs.Stages.{plan_at};

use crate::Backend;
use base_types::NoMemory;
use cacheless::Silent;
use std::alloc::Global;

impl Backend {
    ghost use Rattle.backend_core.specs.Agrees.{AgreesNow, GoesOn};
    ghost use Rattle.backend_core.specs.Halts.{AwaitsCommand};
    ghost use Rattle.backend_core.specs.Looks.{SettlesWherever, GoesWherever};
    ghost use Rattle.backend_core.specs.Noted.{Settles};

    // Goes on as far as it can without an entry, in whichever history it agrees.
    pub(crate) fn settle(&mut self, alloc: Global) -> Result<(), NoMemory>
        requires few { length self.old.progress.commands ≤ 20000 }
        ensures settles { OnOk result (SettlesWherever self.old self.new) }
        ensures life { self.new.life ≡ self.old.life }
    {
        'settling: loop {
            if !self.settle_command(alloc)? {
                return Ok(());
            }
        }
    }

    // The same up to the end of its command: whether it has come to the next one.
    pub(crate) fn settle_command(&mut self, alloc: Global) -> Result<bool, NoMemory>
        requires few { length self.old.progress.commands ≤ 20000 }
        ensures goes { IfOk result (λ over. GoesWherever over self.old self.new) }
        ensures less { IfOk result (λ over. over ≡ true → left_of self.new.progress < left_of self.old.progress) }
        ensures same { OnOk result (self.new.progress.commands ≡ self.old.progress.commands) }
        ensures life { self.new.life ≡ self.old.life }
    {
        'settling: loop {
            match self.progress.silent() {
                Silent::Act => self.act(alloc)?,
                Silent::Answer => self.answer(alloc)?,
                Silent::Finish => {
                    self.pass(alloc)?;
                    return Ok(true);
                }
                Silent::Rest => return Ok(false),
            }
        }
    }

    // It does its next act. If that isn't a lookup which has found no relation, no messages have come since
    // a lookup began: the next one has yet to begin.
    fn act(&mut self, alloc: Global) -> Result<(), NoMemory>
        requires acts { Acts self.old.progress }
        ensures keeps { OnOk result ((scenario : Scenario) (seen : List Entry) → AgreesNow scenario seen self.old → GoesOn scenario seen self.old self.new) }
        ensures less { OnOk result (left_of self.new.progress < left_of self.old.progress) }
        ensures noted { OnOk result ((scenario : Scenario) (seen : List Entry) → AgreesNow scenario seen self.old → Settles self.old self.new) }
        ensures number { OnOk result ((scenario : Scenario) (seen : List Entry) → AgreesNow scenario seen self.old → self.new.progress.finished ≡ self.old.progress.finished) }
        ensures same { OnOk result (self.new.progress.commands ≡ self.old.progress.commands) }
        ensures life { self.new.life ≡ self.old.life }
    {
        self.progress.act(alloc)?;
        self.told = self.is_told_still();
        Ok(())
    }

    // After an act: whether messages have come since the lookup began that has found no relation.
    fn is_told_still(&self) -> bool
        ensures { result ≡ self.now.told && is_absent (plan_at self.now.progress.opens self.now.progress.exec) }
    {
        self.told && self.says_absent()
    }

    // It works out what its command answers.
    fn answer(&mut self, alloc: Global) -> Result<(), NoMemory>
        requires answers { Answers self.old.progress }
        ensures keeps { OnOk result ((scenario : Scenario) (seen : List Entry) → AgreesNow scenario seen self.old → GoesOn scenario seen self.old self.new) }
        ensures less { OnOk result (left_of self.new.progress < left_of self.old.progress) }
        ensures noted { OnOk result ((scenario : Scenario) (seen : List Entry) → AgreesNow scenario seen self.old → Settles self.old self.new) }
        ensures number { OnOk result (self.new.progress.finished ≡ self.old.progress.finished) }
        ensures same { OnOk result (self.new.progress.commands ≡ self.old.progress.commands) }
        ensures life { self.new.life ≡ self.old.life }
    {
        self.progress.answer(alloc)
    }

    // It passes to its next command.
    fn pass(&mut self, alloc: Global) -> Result<(), NoMemory>
        requires few { length self.old.progress.commands ≤ 20000 }
        requires finishes { Finishes self.old.progress }
        ensures keeps { OnOk result ((scenario : Scenario) (seen : List Entry) → AgreesNow scenario seen self.old → GoesOn scenario seen self.old self.new) }
        ensures command { OnOk result ((scenario : Scenario) (seen : List Entry) → AgreesNow scenario seen self.old → AwaitsCommand scenario seen self.new) }
        ensures less { OnOk result (left_of self.new.progress < left_of self.old.progress) }
        ensures noted { OnOk result ((scenario : Scenario) (seen : List Entry) → AgreesNow scenario seen self.old → Settles self.old self.new) }
        ensures number { OnOk result ((scenario : Scenario) (seen : List Entry) → AgreesNow scenario seen self.old → self.new.progress.finished ≡ self.old.progress.finished + 1) }
        ensures same { OnOk result (self.new.progress.commands ≡ self.old.progress.commands) }
        ensures life { self.new.life ≡ self.old.life }
    {
        let line = self.progress.finish(alloc)?;
        self.lines.push(line)?;
        self.looked = false;
        self.frames.clear();
        self.told = false;
        Ok(())
    }
}
