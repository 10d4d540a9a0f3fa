// The locks of a backend.

use crate::Backend;
use base_types::{Mode, NoMemory, Oid};
use seg_calls::{LockRefusal, Seg};

impl Backend {
    ghost use Rattle.std.specs.Prelude.{◌≡◌, ◌<◌, OnOk, OnErr};
    ghost use Rattle.backend_core.specs.Agrees.{IsReady};
    ghost use Rattle.backend_core.specs.declared.next.Next.TheVariants as nexts;
    ghost use Rattle.backend_core.specs.Steps.{Enters, IsRefused, IsNextOf};
    ghost use Rattle.backend_core.specs.Noted.{IsNoted};

    // It asks for a lock.
    pub(crate) fn lock<L: Seg>(&mut self, seg: &mut L, rel: Oid, mode: Mode) -> Result<(), NoMemory>
        requires ready { IsReady (L.script seg.old) (L.history seg.old) self.old }
        requires next { IsNextOf self.old (nexts.Lock rel mode) }
        ensures script { L.script seg.new ≡ L.script seg.old }
        ensures enters { OnOk result (Enters (L.script seg.old) (L.history seg.old) (L.history seg.new) (L.promised seg.old) (L.promised seg.new) self.old self.new) }
        ensures noted { OnOk result (IsNoted (L.script seg.old) (L.history seg.old) (L.history seg.new) self.old (nexts.Lock rel mode) self.new) }
        ensures refused { OnErr result (IsRefused (L.script seg.old) (L.history seg.old) (L.history seg.new) (L.promised seg.old) (L.promised seg.new) self.old.progress.id) }
        ensures life { self.new.life ≡ self.old.life }
    {
        self.progress.reserve_lock()?;
        match seg.lock(self.progress.id, self.progress.finished + 1, rel, mode) {
            Ok(()) => {
                self.progress.enter_lock(rel, mode);
                self.told = false;
                Ok(())
            }
            Err(LockRefusal::Conflict { holder, mode: held }) => {
                self.progress.enter_refused(rel, mode, holder, held);
                Ok(())
            }
            Err(LockRefusal::NoMemory) => Err(NoMemory),
        }
    }

    // It unlocks a relation.
    pub(crate) fn unlock<L: Seg>(&mut self, seg: &mut L, rel: Oid, mode: Mode)
        requires ready { IsReady (L.script seg.old) (L.history seg.old) self.old }
        requires place { 0 < L.promised seg.old self.old.progress.id }
        requires next { IsNextOf self.old (nexts.Unlock rel mode) }
        ensures script { L.script seg.new ≡ L.script seg.old }
        ensures enters { Enters (L.script seg.old) (L.history seg.old) (L.history seg.new) (L.promised seg.old) (L.promised seg.new) self.old self.new }
        ensures noted { IsNoted (L.script seg.old) (L.history seg.old) (L.history seg.new) self.old (nexts.Unlock rel mode) self.new }
    {
        seg.unlock(self.progress.id, self.progress.finished + 1, rel, mode);
        self.progress.enter_unlock(rel, mode);
    }
}
