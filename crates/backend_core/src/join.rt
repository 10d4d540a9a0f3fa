use crate::{Backend, Life};
use seg_calls::Seg;

impl Backend {
    ghost use Rattle.std.specs.Prelude.{◌≡◌, ◌<◌};
    ghost use Rattle.backend_core.specs.Agrees.{HasNotJoined, IsPlayed};
    ghost use Rattle.backend_core.specs.Halts.{AwaitsCommand};
    ghost use Rattle.backend_core.specs.Noted.{noted_of};
    ghost use Rattle.backend_core.specs.Steps.{Enters};

    // It joins.
    pub(crate) fn join<L: Seg>(&mut self, seg: &mut L)
        requires before { HasNotJoined (L.script seg.old) (L.history seg.old) self.old }
        requires played { IsPlayed (L.script seg.old) (L.history seg.old) }
        requires place { 0 < L.promised seg.old self.old.progress.id }
        ensures script { L.script seg.new ≡ L.script seg.old }
        ensures enters { Enters (L.script seg.old) (L.history seg.old) (L.history seg.new) (L.promised seg.old) (L.promised seg.new) self.old self.new }
        ensures command { AwaitsCommand (L.script seg.old) (L.history seg.new) self.new }
        ensures noted { noted_of self.new ≡ noted_of self.old }
        ensures first { self.new.progress.finished ≡ 0 }
    {
        seg.start(self.progress.id);
        self.progress.enter_start();
        self.life = Life::Alive;
    }
}
