// The scans of a backend.

use crate::Backend;
use base_types::{NoMemory, Purpose};
use seg_calls::Seg;

impl Backend {
    ghost use Rattle.std.specs.Prelude.{◌≡◌, ◌&&◌, OnOk, OnErr};
    ghost use Rattle.cacheless.specs.State.{kept_at, is_kept};
    ghost use Rattle.backend_core.specs.Agrees.{IsReady};
    ghost use Rattle.backend_core.specs.declared.next.Next.TheVariants as nexts;
    ghost use Rattle.backend_core.specs.Steps.{Enters, IsRefused, IsNextOf};
    ghost use Rattle.backend_core.specs.Noted.{IsNoted};
    ghost use Rattle.backend_core.specs.Words.{frames_noted};

    // A scan, of the rebuild on top, or of the next act. Out of memory, it may not be used any more.
    pub(crate) fn scan<L: Seg>(
        &mut self,
        seg: &mut L,
        scan: &Purpose,
        rebuilds: bool,
    ) -> Result<(), NoMemory>
        requires ready { IsReady (L.script seg.old) (L.history seg.old) self.old }
        requires next { IsNextOf self.old (nexts.Scan scan.now rebuilds) }
        ensures script { L.script seg.new ≡ L.script seg.old }
        ensures enters { OnOk result (Enters (L.script seg.old) (L.history seg.old) (L.history seg.new) (L.promised seg.old) (L.promised seg.new) self.old self.new) }
        ensures noted { OnOk result (IsNoted (L.script seg.old) (L.history seg.old) (L.history seg.new) self.old (nexts.Scan scan.now rebuilds) self.new) }
        ensures refused { OnErr result (IsRefused (L.script seg.old) (L.history seg.old) (L.history seg.new) (L.promised seg.old) (L.promised seg.new) self.old.progress.id) }
        ensures life { self.new.life ≡ self.old.life }
    {
        let scanned = seg.scan(self.progress.id, self.progress.finished + 1, scan)?;
        self.progress.enter_scan(scan, scanned.rows, scanned.at)?;
        self.note_scan(rebuilds)
    }

    // The look for it is used, and the rebuild that it was for goes on, or is done.
    fn note_scan(&mut self, rebuilds: bool) -> Result<(), NoMemory>
        ensures is { OnOk result (self.new ≡ record self.old { looked = self.old.looked && rebuilds; frames = frames_noted rebuilds (is_kept (kept_at self.old.progress)) self.old.progress.opened self.old.frames }) }
        ensures life { self.new.life ≡ self.old.life }
    {
        if rebuilds {
            self.frames.scan(&self.progress)
        } else {
            self.looked = false;
            Ok(())
        }
    }
}
