// The rebuilds of held descriptors that are on their way (`RelationRebuildRelation` in
// `src/backend/utils/cache/relcache.c`, each within an acceptance of messages of the one below it).

ghost use Rattle.std.specs.Prelude.{◌≡◌, ◌&&◌, None, true, map, slice_get, OnOk};
ghost use Rattle.std.specs.List.{find};
ghost use Rattle.base_types.specs.Scans.{same_oid};
ghost use Rattle.local_caches.specs.Caches.{kept_of};
ghost use Rattle.local_caches.specs.Kept.{is_kept};
ghost use Rattle.cacheless.specs.State.{kept_at};
ghost use Rattle.cacheless.specs.Suspects.{lacks, ascend};
ghost use Rattle.backend_core.specs.Frames.{if_so, left_of, restarted, told_if, lesser};

use crate::{Frame, Frames};
use base_types::{NoMemory, Oid};
use cacheless::{Opening, Progress, lacks_scan};
use inval_messages::Message;
use local_caches::LocalCaches;
use std::alloc::Global;

impl Frames {
    ghost use Rattle.std.specs.Prelude.{◌++◌, ◌∷◌, [], length};
    ghost use Rattle.backend_core.specs.Frames.{unless, is_rebuilding as has_frame_of, is_left as awaits, top as top_of, below, on_top, with_look, new_frame, frames_told, frames_by, frames_after, frames_fetched, least_left as first_left, with_rest, frames_scanned};

    // No rebuilds, which takes no memory.
    pub(crate) fn new(alloc: Global) -> Frames
        ensures { result ≡ [] }
    {
        Frames {
            items: Vec::new(alloc),
        }
    }

    // The one on top.
    pub(crate) fn top(&self) -> Option<Frame>
        ensures { result ≡ top_of self.now }
    {
        self.items.last().copied()
    }

    // Whether a relation is being rebuilt.
    fn is_rebuilding(&self, rel: Oid) -> bool
        ensures { result ≡ has_frame_of self.now rel }
    {
        self.items.iter().any(|frame| frame.is_of(rel))
    }

    // The look for the next scan of the one on top is made.
    pub(crate) fn look(&mut self)
        ensures { self.new ≡ on_top with_look self.old }
    {
        if let Some(frame) = self.items.last_mut() {
            frame.looked = true;
        }
    }

    // There is none any more.
    pub(crate) fn clear(&mut self)
        ensures { self.new ≡ [] }
    {
        self.items.clear();
    }

    // Puts one on. Out of memory, nothing changes.
    fn push(&mut self, opening: Opening, of_reset: bool) -> Result<(), NoMemory>
        ensures { OnOk result (self.new ≡ self.old ++ new_frame opening of_reset ∷ []) }
    {
        self.items.push(Frame {
            opening,
            looked: false,
            of_reset,
        })?;
        Ok(())
    }

    // The messages of a fetch, unless the command has failed. Where a full one puts rebuilds on, the look that
    // it asks for is the first of the one on top.
    pub(crate) fn fetch(
        &mut self,
        fails: bool,
        progress: &Progress,
        messages: &[Message],
    ) -> Result<(), NoMemory>
        ensures { OnOk result (self.new ≡ unless fails self.old (frames_fetched (is_kept (kept_at progress.now)) progress.now.opened messages.now self.old)) }
    {
        if fails {
            return Ok(());
        }
        let before = self.items.len();
        self.tell_each(progress, messages)?;
        if messages.len() == 32 && before < self.items.len() {
            self.look();
        }
        Ok(())
    }

    // Messages, in order.
    pub(crate) fn tell_each(
        &mut self,
        progress: &Progress,
        messages: &[Message],
    ) -> Result<(), NoMemory>
        ensures { OnOk result (self.new ≡ frames_after (is_kept (kept_at progress.now)) progress.now.opened messages.now self.old) }
    {
        for message in messages {
            self.hear(&progress.caches, progress.opened.as_slice(), message)?;
        }
        Ok(())
    }

    // A message.
    fn hear(
        &mut self,
        caches: &LocalCaches,
        held: &[Opening],
        message: &Message,
    ) -> Result<(), NoMemory>
        ensures { OnOk result (self.new ≡ frames_by (is_kept (kept_of caches.now)) held.now self.old message.now) }
    {
        match message {
            Message::Cat { .. } => Ok(()),
            Message::Rel { rel } => self.tell(caches, held, *rel),
        }
    }

    // A message for a relation: if it is being rebuilt, the rebuild starts over once its first scan is
    // made; else, if it is held, its rebuild is put on (`RelationFlushRelation` there).
    fn tell(&mut self, caches: &LocalCaches, held: &[Opening], rel: Oid) -> Result<(), NoMemory>
        ensures { OnOk result (self.new ≡ frames_told (is_kept (kept_of caches.now)) held.now rel self.old) }
    {
        if self.is_rebuilding(rel) {
            tell_each_frame(&mut self.items, caches, rel);
            return Ok(());
        }
        match held_of(held, rel) {
            Some(o) => self.push(o, false),
            None => Ok(()),
        }
    }

    // A reset: each rebuild starts over whose first scan is made (`RelationCacheInvalidate` there), unless the
    // command has failed.
    pub(crate) fn restart(&mut self, fails: bool, progress: &Progress)
        ensures { self.new ≡ unless fails self.old (map (restarted (is_kept (kept_at progress.now))) self.old) }
    {
        if !fails {
            restart_each(&mut self.items, &progress.caches);
        }
    }

    // After it what is left is rebuilt, unless the command has failed.
    pub(crate) fn reset(&mut self, fails: bool, progress: &Progress) -> Result<(), NoMemory>
        ensures { OnOk result (self.new ≡ unless fails self.old (with_rest (is_kept (kept_at progress.now)) progress.now.opened self.old)) }
    {
        if fails {
            return Ok(());
        }
        self.put_rest(progress)
    }

    // After a reset, and after each rebuild that it put on: the next held relation that isn't whole and
    // isn't being rebuilt is.
    fn put_rest(&mut self, progress: &Progress) -> Result<(), NoMemory>
        ensures { OnOk result (self.new ≡ with_rest (is_kept (kept_at progress.now)) progress.now.opened self.old) }
    {
        match self.least_left(progress) {
            Some(o) => self.push(o, true),
            None => Ok(()),
        }
    }

    // The one of least oid: the first that is left of those that may lack a scan, where these are known.
    fn least_left(&self, progress: &Progress) -> Option<Opening>
        ensures { result ≡ first_left (is_kept (kept_at progress.now)) self.now progress.now.opened }
    {
        match progress.suspects.noted() {
            Some(found) => self.first_of(&progress.caches, found),
            None => self.least_of(&progress.caches, progress.opened.as_slice()),
        }
    }

    // The first of these that is left.
    fn first_of(&self, caches: &LocalCaches, found: &[Opening]) -> Option<Opening>
        ensures { result ≡ find (awaits (is_kept (kept_of caches.now)) self.now) found.now }
    {
        found.iter().find(|o| self.is_left(caches, o)).copied()
    }

    // The one of least oid of those that are left.
    fn least_of(&self, caches: &LocalCaches, held: &[Opening]) -> Option<Opening>
        ensures { result ≡ first_left (is_kept (kept_of caches.now)) self.now held.now }
    {
        let mut least = None;
        for o in held {
            if self.is_left(caches, o) {
                least = the_lesser(least, *o);
            }
        }
        least
    }

    // Whether a held relation isn't whole and isn't being rebuilt.
    fn is_left(&self, caches: &LocalCaches, o: &Opening) -> bool
        ensures { result ≡ awaits (is_kept (kept_of caches.now)) self.now o.now }
    {
        lacks_scan(caches, o) && !self.is_rebuilding(o.rel)
    }

    // The next scan of the one on top is made. After its last one it goes, and what a reset has left comes,
    // if that put it on.
    pub(crate) fn scan(&mut self, progress: &Progress) -> Result<(), NoMemory>
        ensures { OnOk result (self.new ≡ frames_scanned (is_kept (kept_at progress.now)) progress.now.opened self.old) }
    {
        let Some(top) = self.items.pop() else {
            return Ok(());
        };
        match lacking_of(progress, &top) {
            Some(o) => self.push(o, top.of_reset),
            None if top.of_reset => self.put_rest(progress),
            None => Ok(()),
        }
    }
}

// What a rebuild lacks still: its descriptor, or another one that is held of its relation.
fn lacking_of(progress: &Progress, frame: &Frame) -> Option<Opening>
    ensures { result ≡ left_of (is_kept (kept_at progress.now)) progress.now.opened frame.now }
{
    if lacks_scan(&progress.caches, &frame.opening) {
        return Some(frame.opening);
    }
    lacking_held(progress, frame.opening.rel)
}

// The first held descriptor of a relation that lacks a scan: of those that may lack one, where these are known.
fn lacking_held(progress: &Progress, rel: Oid) -> Option<Opening>
    ensures { result ≡ find (λ o. same_oid rel o.rel && lacks (is_kept (kept_at progress.now)) o) progress.now.opened }
{
    match progress.suspects.noted() {
        Some(found) => lacking_noted(&progress.caches, found, rel),
        None => lacking_in(&progress.caches, progress.opened.as_slice(), rel),
    }
}

// The first one of the relation that lacks a scan, where oids ascend.
fn lacking_noted(caches: &LocalCaches, found: &[Opening], rel: Oid) -> Option<Opening>
    requires { ascend None found.now ≡ true }
    ensures { result ≡ find (λ o. same_oid rel o.rel && lacks (is_kept (kept_of caches.now)) o) found.now }
{
    let at = found.partition_point(|o| o.rel.0 < rel.0);
    lacking_at(caches, found, at, rel)
}

// The one at this place, if it is of the relation and lacks a scan.
fn lacking_at(caches: &LocalCaches, found: &[Opening], at: usize, rel: Oid) -> Option<Opening>
    ensures { result ≡ if_so (λ o. same_oid rel o.rel && lacks (is_kept (kept_of caches.now)) o) (slice_get found.now at) }
{
    match found.get(at) {
        Some(o) if rel.0 == o.rel.0 && lacks_scan(caches, o) => Some(*o),
        _ => None,
    }
}

// The first one of the relation that lacks a scan.
fn lacking_in(caches: &LocalCaches, held: &[Opening], rel: Oid) -> Option<Opening>
    ensures { result ≡ find (λ o. same_oid rel o.rel && lacks (is_kept (kept_of caches.now)) o) held.now }
{
    held.iter()
        .find(|o| rel.0 == o.rel.0 && lacks_scan(caches, o))
        .copied()
}

// The first held descriptor of a relation.
fn held_of(held: &[Opening], rel: Oid) -> Option<Opening>
    ensures { result ≡ find (λ o. same_oid rel o.rel) held.now }
{
    held.iter().find(|o| rel.0 == o.rel.0).copied()
}

// The one of lesser oid.
fn the_lesser(least: Option<Opening>, o: Opening) -> Option<Opening>
    ensures { result ≡ lesser least o }
{
    match least {
        Some(best) if best.rel.0 <= o.rel.0 => Some(best),
        _ => Some(o),
    }
}

// A message for this relation.
fn tell_each_frame(frames: &mut [Frame], caches: &LocalCaches, rel: Oid)
    ensures { frames.new ≡ map (told_if (is_kept (kept_of caches.now)) rel) frames.old }
{
    for frame in frames.iter_mut() {
        frame.tell(caches, rel);
    }
}

// A reset.
fn restart_each(frames: &mut [Frame], caches: &LocalCaches)
    ensures { frames.new ≡ map (restarted (is_kept (kept_of caches.now))) frames.old }
{
    for frame in frames.iter_mut() {
        frame.restart(caches);
    }
}
