// What ends a transaction.

use crate::{Backend, Life};
use base_types::{NoMemory, Xid};
use seg_calls::Seg;
use std::alloc::Global;

impl Backend {
    ghost use Rattle.std.specs.Prelude.{◌≡◌, ◌<◌, OnOk, OnErr};
    ghost use Rattle.backend_core.specs.Agrees.{IsReady};
    ghost use Rattle.backend_core.specs.declared.life.Life.TheVariants as lives;
    ghost use Rattle.backend_core.specs.declared.next.Next.TheVariants as nexts;
    ghost use Rattle.backend_core.specs.Steps.{IsNextOf, Steps, Enters, IsRefused};
    ghost use Rattle.backend_core.specs.Noted.{IsNoted};

    // Its transaction is committed.
    pub(crate) fn commit<L: Seg>(&mut self, seg: &mut L, xid: Xid)
        requires ready { IsReady (L.script seg.old) (L.history seg.old) self.old }
        requires place { 0 < L.promised seg.old self.old.progress.id }
        requires next { IsNextOf self.old (nexts.Commit xid) }
        ensures script { L.script seg.new ≡ L.script seg.old }
        ensures enters { Enters (L.script seg.old) (L.history seg.old) (L.history seg.new) (L.promised seg.old) (L.promised seg.new) self.old self.new }
        ensures noted { IsNoted (L.script seg.old) (L.history seg.old) (L.history seg.new) self.old (nexts.Commit xid) self.new }
    {
        seg.visible(self.progress.id, self.progress.finished + 1, xid);
        self.progress.enter_visible(xid);
    }

    // It publishes the next messages of its commit.
    pub(crate) fn publish<L: Seg>(&mut self, seg: &mut L)
        requires ready { IsReady (L.script seg.old) (L.history seg.old) self.old }
        requires place { 0 < L.promised seg.old self.old.progress.id }
        requires next { IsNextOf self.old (nexts.Publish) }
        ensures script { L.script seg.new ≡ L.script seg.old }
        ensures enters { Enters (L.script seg.old) (L.history seg.old) (L.history seg.new) (L.promised seg.old) (L.promised seg.new) self.old self.new }
        ensures noted { IsNoted (L.script seg.old) (L.history seg.old) (L.history seg.new) self.old (nexts.Publish) self.new }
    {
        let messages = self.progress.unpublished();
        let count = messages.len();
        seg.publish(self.progress.id, self.progress.finished + 1, messages);
        self.progress.enter_publish(count as u32);
    }

    // What it wrote from this command on is taken back.
    pub(crate) fn take_back<L: Seg>(&mut self, seg: &mut L, from: u32)
        requires ready { IsReady (L.script seg.old) (L.history seg.old) self.old }
        requires place { 0 < L.promised seg.old self.old.progress.id }
        requires next { IsNextOf self.old (nexts.TakeBack from) }
        ensures script { L.script seg.new ≡ L.script seg.old }
        ensures enters { Enters (L.script seg.old) (L.history seg.old) (L.history seg.new) (L.promised seg.old) (L.promised seg.new) self.old self.new }
        ensures noted { IsNoted (L.script seg.old) (L.history seg.old) (L.history seg.new) self.old (nexts.TakeBack from) self.new }
    {
        seg.gone(self.progress.id, self.progress.finished + 1, from);
        self.progress.enter_gone(from);
    }

    // It releases the locks of these commands, by which its transaction ends, or a level of its block. What
    // outer levels have open it holds still, and where a rollback to a savepoint took scans of that it is
    // rebuilt, as after a reset. Out of memory, the backend may not be used any more.
    pub(crate) fn release<L: Seg>(
        &mut self,
        alloc: Global,
        seg: &mut L,
        from: u32,
    ) -> Result<(), NoMemory>
        requires ready { IsReady (L.script seg.old) (L.history seg.old) self.old }
        requires place { 0 < L.promised seg.old self.old.progress.id }
        requires next { IsNextOf self.old (nexts.Release from) }
        ensures script { L.script seg.new ≡ L.script seg.old }
        ensures enters { OnOk result (Enters (L.script seg.old) (L.history seg.old) (L.history seg.new) (L.promised seg.old) (L.promised seg.new) self.old self.new) }
        ensures noted { OnOk result (IsNoted (L.script seg.old) (L.history seg.old) (L.history seg.new) self.old (nexts.Release from) self.new) }
        ensures refused { OnErr result (IsRefused (L.script seg.old) (L.history seg.old) (L.history seg.new) (L.promised seg.old) (L.promised seg.new) self.old.progress.id) }
        ensures life { self.new.life ≡ self.old.life }
    {
        seg.release(self.progress.id, self.progress.finished + 1, from);
        self.progress.enter_release(alloc, from)?;
        let fails = self.progress.has_failed();
        self.frames.reset(fails, &self.progress)
    }

    // It leaves.
    pub(crate) fn leave<L: Seg>(&mut self, seg: &mut L)
        requires ready { IsReady (L.script seg.old) (L.history seg.old) self.old }
        requires place { 0 < L.promised seg.old self.old.progress.id }
        requires next { IsNextOf self.old (nexts.Leave) }
        ensures script { L.script seg.new ≡ L.script seg.old }
        ensures steps { Steps (L.script seg.old) (L.history seg.old) (L.history seg.new) (L.promised seg.old) (L.promised seg.new) self.old self.new }
        ensures noted { IsNoted (L.script seg.old) (L.history seg.old) (L.history seg.new) self.old (nexts.Leave) self.new }
        ensures left { self.new.life ≡ lives.Stopped }
    {
        seg.stop(self.progress.id, self.progress.finished + 1);
        self.progress.enter_stop();
        self.life = Life::Stopped;
    }
}
