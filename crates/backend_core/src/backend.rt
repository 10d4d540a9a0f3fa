use crate::{Frames, Life};
use base_types::{Command, Listed, NoMemory};
use cacheless::Progress;
use event_kinds::Line;
use seg_calls::Seg;
use std::alloc::Global;

/// One backend: how far it is in its commands, what it has looked for, and the answers of its finished
/// commands.
pub struct Backend {
    pub(crate) progress: Progress,
    pub(crate) life: Life,
    // the look for the next scan of the next act is made, or before a name is told as absent
    pub(crate) looked: bool,
    // the rebuilds of held descriptors that are on their way, the last one on top: each has a look of its own
    pub(crate) frames: Frames,
    // messages came since the lookup of a relation by its name began
    pub(crate) told: bool,
    pub(crate) lines: Listed<Line>,
}

// Written out, and not derived: so it is proved here, and not again wherever one is dropped.
impl Drop for Backend {
    fn drop(self) {
        let Backend {
            progress: _,
            life: _,
            looked: _,
            frames: _,
            told: _,
            lines: _,
        } = self;
    }
}

impl Backend {
    ghost use Rattle.std.specs.Prelude.{◌≡◌, ◌<◌, false, OnOk, OnErr, IfOk};
    ghost use Rattle.backend_core.specs.Words.{has_joined as is_joined, has_left};
    ghost use Rattle.history_model.specs.Legal.{IsLegal};
    ghost use Rattle.cacheless.specs.Plays.{Plays};
    ghost use Rattle.backend_core.specs.Agrees.{IsNew, AreSpelled, Stands};
    ghost use Rattle.backend_core.specs.Noted.{NotesAtStep};
    ghost use Rattle.backend_core.specs.Places.{HasWanted};
    ghost use Rattle.backend_core.specs.Steps.{Steps, IsRefused};

    /// The backend of this number with its commands in order, which hasn't joined.
    pub fn new(alloc: Global, id: u32, commands: Listed<Command>) -> Result<Backend, NoMemory>
        ensures { IfOk result (λ s. IsNew s id commands) }
    {
        Ok(Backend {
            progress: Progress::new(alloc, id, commands)?,
            life: Life::Unstarted,
            looked: false,
            frames: Frames::new(alloc),
            told: false,
            lines: Listed::new(alloc),
        })
    }

    /// Its number, from 1.
    pub fn id(&self) -> u32
        ensures { result ≡ self.now.progress.id }
    {
        self.progress.id
    }

    /// Whether it has joined.
    pub fn has_joined(&self) -> bool
        ensures { result ≡ is_joined self.now.life }
    {
        !matches!(self.life, Life::Unstarted)
    }

    /// Whether it has left.
    pub fn is_stopped(&self) -> bool
        ensures { result ≡ has_left self.now.life }
    {
        matches!(self.life, Life::Stopped)
    }

    /// Makes its next entry, and goes on as far as it can without another. Conditions: it stands in the
    /// segment's history, which is legal and was played by the script's commands, these have forms that
    /// lines may have, the places that it wants and one at least are promised to it, and it hasn't left. It
    /// takes at most one promised place, and none of another backend. Out of memory, nothing has changed but
    /// the backend itself, or its entry is made; it hasn't left then, and may not be used any more. Others go on.
    pub fn step<L: Seg>(&mut self, alloc: Global, seg: &mut L) -> Result<(), NoMemory>
        requires stands { Stands (L.script seg.old) (L.history seg.old) self.old }
        requires spelled { AreSpelled (L.script seg.old) }
        requires legal { IsLegal (L.history seg.old) }
        requires plays { Plays (L.script seg.old) (L.history seg.old) }
        requires place { 0 < L.promised seg.old self.old.progress.id }
        requires wanted { HasWanted self.old (L.promised seg.old self.old.progress.id) }
        requires alive { has_left self.old.life ≡ false }
        ensures script { L.script seg.new ≡ L.script seg.old }
        ensures steps { OnOk result (Steps (L.script seg.old) (L.history seg.old) (L.history seg.new) (L.promised seg.old) (L.promised seg.new) self.old self.new) }
        ensures noted { OnOk result (NotesAtStep (L.script seg.old) (L.history seg.old) (L.history seg.new) self.old self.new) }
        ensures refused { OnErr result (IsRefused (L.script seg.old) (L.history seg.old) (L.history seg.new) (L.promised seg.old) (L.promised seg.new) self.old.progress.id) }
        ensures stays { OnErr result (has_left self.new.life ≡ false) }
    {
        self.enter_in_turn(alloc, seg)?;
        if self.is_stopped() {
            return Ok(());
        }
        self.settle(alloc)
    }

    /// The answer lines of its finished commands, in order.
    pub fn transcript(&self) -> &[Line]
        ensures { result.now ≡ self.now.lines }
    {
        self.lines.as_slice()
    }
}
