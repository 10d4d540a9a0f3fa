// The entry that a backend makes next.

use crate::{Backend, LookFor, Next};
use base_types::NoMemory;
use seg_calls::Seg;
use std::alloc::Global;

impl Backend {
    ghost use Rattle.std.specs.Prelude.{◌≡◌, ◌≢◌, ◌<◌, OnOk, OnErr};
    ghost use Rattle.backend_core.specs.Agrees.{IsReady};
    ghost use Rattle.backend_core.specs.declared.next.Next.TheVariants as nexts;
    ghost use Rattle.backend_core.specs.Steps.{Enters, MakesNext, IsRefused, IsNextOf};
    ghost use Rattle.backend_core.specs.Noted.{IsNoted, NotesEntry};

    // Makes its next entry, where it has joined and hasn't left.
    pub(crate) fn enter_next<L: Seg>(&mut self, alloc: Global, seg: &mut L) -> Result<(), NoMemory>
        requires ready { IsReady (L.script seg.old) (L.history seg.old) self.old }
        requires place { 0 < L.promised seg.old self.old.progress.id }
        ensures script { L.script seg.new ≡ L.script seg.old }
        ensures makes { OnOk result (MakesNext (L.script seg.old) (L.history seg.old) (L.history seg.new) (L.promised seg.old) (L.promised seg.new) self.old self.new) }
        ensures noted { OnOk result (NotesEntry (L.script seg.old) (L.history seg.old) (L.history seg.new) self.old self.new) }
        ensures refused { OnErr result (IsRefused (L.script seg.old) (L.history seg.old) (L.history seg.new) (L.promised seg.old) (L.promised seg.new) self.old.progress.id) }
        ensures life { OnErr result (self.new.life ≡ self.old.life) }
    {
        let next = self.next();
        if next.leaves() {
            self.leave(seg);
            return Ok(());
        }
        self.enter(alloc, seg, &next)
    }

    // Makes its next entry, if that isn't its last one.
    fn enter<L: Seg>(&mut self, alloc: Global, seg: &mut L, next: &Next) -> Result<(), NoMemory>
        requires ready { IsReady (L.script seg.old) (L.history seg.old) self.old }
        requires place { 0 < L.promised seg.old self.old.progress.id }
        requires next { IsNextOf self.old next.now }
        requires stays { next.now ≢ nexts.Leave }
        ensures script { L.script seg.new ≡ L.script seg.old }
        ensures enters { OnOk result (Enters (L.script seg.old) (L.history seg.old) (L.history seg.new) (L.promised seg.old) (L.promised seg.new) self.old self.new) }
        ensures noted { OnOk result (IsNoted (L.script seg.old) (L.history seg.old) (L.history seg.new) self.old next.now self.new) }
        ensures refused { OnErr result (IsRefused (L.script seg.old) (L.history seg.old) (L.history seg.new) (L.promised seg.old) (L.promised seg.new) self.old.progress.id) }
        ensures life { OnErr result (self.new.life ≡ self.old.life) }
    {
        match next {
            Next::Look => self.look(seg, LookFor::Accept),
            Next::LookBeforeScan { rebuilds } => self.look(
                seg,
                LookFor::Scan {
                    rebuilds: *rebuilds,
                },
            ),
            Next::LookBeforeAbsent => self.look(seg, LookFor::Absent),
            Next::Fetch => self.fetch(seg)?,
            Next::Scan { scan, rebuilds } => self.scan(seg, scan, *rebuilds)?,
            Next::Lock { rel, mode } => self.lock(seg, *rel, *mode)?,
            Next::Unlock { rel, mode } => self.unlock(seg, *rel, *mode),
            Next::Write => self.write(alloc, seg)?,
            Next::Commit { xid } => self.commit(seg, *xid),
            Next::Publish => self.publish(seg),
            Next::TakeBack { from } => self.take_back(seg, *from),
            Next::Release { from } => self.release(alloc, seg, *from)?,
            Next::Leave => unreachable!(),
        }
        Ok(())
    }
}
