ghost use Rattle.std.specs.Prelude.{◌≡◌};
ghost use Rattle.local_caches.specs.Caches.{kept_of};
ghost use Rattle.local_caches.specs.Kept.{is_kept};
ghost use Rattle.backend_core.specs.Frames.{is_of as is_frame_of, restarted, told_if};

use base_types::{Oid, Purpose};
use cacheless::Opening;
use local_caches::LocalCaches;

// The rebuild of a held descriptor that is on its way.
#[derive(Clone, Copy)]
pub(crate) struct Frame {
    pub(crate) opening: Opening,
    // the look for its next scan is made
    pub(crate) looked: bool,
    // a reset, or a rollback to a savepoint, put it on, and goes on after it
    pub(crate) of_reset: bool,
}

impl Frame {
    // Whether it is of this relation.
    pub(crate) fn is_of(&self, rel: Oid) -> bool
        ensures { result ≡ is_frame_of rel self.now }
    {
        rel.0 == self.opening.rel.0
    }

    // It starts over, where its first scan is made: then the look for its next scan doesn't count.
    pub(crate) fn restart(&mut self, caches: &LocalCaches)
        ensures { self.new ≡ restarted (is_kept (kept_of caches.now)) self.old }
    {
        self.looked = self.looked && !caches.has(&Purpose::Class(self.opening.rel));
    }

    // A message for this relation.
    pub(crate) fn tell(&mut self, caches: &LocalCaches, rel: Oid)
        ensures { self.new ≡ told_if (is_kept (kept_of caches.now)) rel self.old }
    {
        if self.is_of(rel) {
            self.restart(caches);
        }
    }
}
