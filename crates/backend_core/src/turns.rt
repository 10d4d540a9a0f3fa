// What a backend that shares its segment by turns does between two of them: it looks by its word, while
// others may make entries. Its looks are handed over in its next turn, in order.

use crate::{Backend, Life, LookFor, Want};
use base_types::{Listed, NoMemory};
use ddl_effect::{Exec, Told};
use seg_calls::Seg;
use std::alloc::Global;
use std::mem::replace;

/// A look that a backend has made, and that isn't in the history yet.
#[derive(Clone, Copy, Default)]
pub struct HeldLook {
    /// The number of its command.
    pub command: u32,
    /// Whether it said that messages wait.
    pub some_wait: bool,
}

impl Backend {
    ghost use Rattle.std.specs.Prelude.{◌≡◌, ◌≤◌, ◌<◌, ◌++◌, false, IfOk, OnOk, OnErr, length};
    ghost use Rattle.history_model.specs.Legal.{IsLegal};
    ghost use Rattle.cacheless.specs.Plays.{Plays};
    ghost use Rattle.backend_core.specs.Agrees.{AreSpelled, Stands};
    ghost use Rattle.backend_core.specs.declared.life.Life.TheVariants as lives;
    ghost use Rattle.backend_core.specs.Halts.{AwaitsCommand, HaltsWherever};
    ghost use Rattle.backend_core.specs.Noted.{noted_of, nothing_noted, NotesAtEntry};
    ghost use Rattle.backend_core.specs.Steps.{MakesNext, IsRefused};
    ghost use Rattle.backend_core.specs.Places.{HasWanted};
    ghost use Rattle.backend_core.specs.Words.{has_left};
    ghost use Rattle.backend_core.specs.Looks.{IsRight, IsOnItsWay, Wants, GoesWherever, held_look, MakesLook, NotesLook, StaysInCommand, entries_of, MayCallAll, TakesPlaces};

    /// What it needs to go on. Condition: it is right, in whichever history.
    pub fn wants(&self) -> Want
        requires right { IsRight self.now }
        ensures { Wants self.now result }
    {
        match self.life {
            Life::Unstarted => Want::Turn,
            Life::Alive => self.next().want(),
            Life::Stopped => Want::Ended,
        }
    }

    /// Makes the look that it wants, without the segment: in whichever history it stands that allows the
    /// look, it agrees with that history and the look after it. It stays in its command, whatever the look said.
    pub fn look_by_word(&mut self, look: LookFor, some_wait: bool) -> HeldLook
        requires right { IsRight self.old }
        requires wants { Wants self.old (Want.Look look) }
        ensures held { result ≡ held_look self.old some_wait }
        ensures looks { MakesLook self.old some_wait self.new }
        ensures noted { NotesLook self.old look some_wait self.new }
        ensures stays { StaysInCommand self.old self.new }
    {
        let command = self.progress.finished + 1;
        self.take_look(look, some_wait);
        HeldLook { command, some_wait }
    }

    /// Makes its next entry, as [`Backend::step`] does, and doesn't go on from it yet. The same conditions.
    pub fn enter_in_turn<L: Seg>(&mut self, alloc: Global, seg: &mut L) -> Result<(), NoMemory>
        requires stands { Stands (L.script seg.old) (L.history seg.old) self.old }
        requires spelled { AreSpelled (L.script seg.old) }
        requires legal { IsLegal (L.history seg.old) }
        requires plays { Plays (L.script seg.old) (L.history seg.old) }
        requires place { 0 < L.promised seg.old self.old.progress.id }
        requires wanted { HasWanted self.old (L.promised seg.old self.old.progress.id) }
        requires alive { has_left self.old.life ≡ false }
        ensures script { L.script seg.new ≡ L.script seg.old }
        ensures makes { OnOk result (MakesNext (L.script seg.old) (L.history seg.old) (L.history seg.new) (L.promised seg.old) (L.promised seg.new) self.old self.new) }
        ensures starts { OnOk result (self.old.life ≡ lives.Unstarted → AwaitsCommand (L.script seg.old) (L.history seg.new) self.new) }
        ensures first { OnOk result (self.old.life ≡ lives.Unstarted → self.new.progress.finished ≡ 0) }
        ensures noted { OnOk result (NotesAtEntry (L.script seg.old) (L.history seg.old) (L.history seg.new) self.old self.new) }
        ensures refused { OnErr result (IsRefused (L.script seg.old) (L.history seg.old) (L.history seg.new) (L.promised seg.old) (L.promised seg.new) self.old.progress.id) }
        ensures life { OnErr result (self.new.life ≡ self.old.life) }
    {
        match self.life {
            Life::Unstarted => {
                self.join(seg);
                Ok(())
            }
            Life::Alive => self.enter_next(alloc, seg),
            Life::Stopped => unreachable!(),
        }
    }

    /// Goes on as far as it can without an entry, but not beyond the end of its command: whether it is at
    /// the next one. In whichever history it agrees, it does so still. Out of memory, it may not be used any
    /// more.
    pub fn go_to_command(&mut self, alloc: Global) -> Result<bool, NoMemory>
        requires right { IsOnItsWay self.old }
        ensures { IfOk result (λ over. GoesWherever over self.old self.new) }
    {
        self.settle_command(alloc)
    }

    /// Stops before its next command: what it does from then on is what it does after its last one, taking
    /// back what it has not committed, releasing, and leaving. In whichever history it is at the
    /// beginning of a command, it stands in it by the script that ends there for it.
    pub fn halt(&mut self, alloc: Global)
        ensures halts { HaltsWherever self.old self.new }
        ensures noted { noted_of self.new ≡ nothing_noted }
    {
        let mut commands = replace(&mut self.progress.commands, Listed::new(alloc)).into_vec();
        commands.truncate(self.progress.finished as usize);
        self.progress.commands = Listed::from_vec(commands);
        self.progress.exec = Exec::Done(Told::Ok);
        self.progress.blocked = false;
        self.progress.answer = None;
        self.looked = false;
        self.frames.clear();
        self.told = false;
    }

    /// Hands over the looks that it holds back, in order. Conditions: the history allows them, in order, and
    /// there is a promised place for each.
    pub fn hand_looks<L: Seg>(&self, seg: &mut L, looks: &[HeldLook])
        requires calls { MayCallAll (L.script seg.old) (L.history seg.old) (entries_of self.now.progress.id looks.now) }
        requires places { length looks.now ≤ L.promised seg.old self.now.progress.id }
        ensures script { L.script seg.new ≡ L.script seg.old }
        ensures history { L.history seg.new ≡ L.history seg.old ++ entries_of self.now.progress.id looks.now }
        ensures places { TakesPlaces (L.promised seg.old) (L.promised seg.new) self.now.progress.id (length looks.now) }
    {
        for look in looks {
            seg.looked(self.progress.id, look.command, look.some_wait);
        }
    }
}
