// The acceptance of invalidation messages (`AcceptInvalidationMessages` in
// `src/backend/utils/cache/inval.c`, `ReceiveSharedInvalidMessages` in
// `src/backend/storage/ipc/sinval.c`): a look, and where messages wait a fetch of at most 32, after
// which it looks again exactly where the fetch gave 32. A fetch of a backend that was lapped resets
// it, and ends the acceptance.

ghost use Rattle.std.specs.Prelude.{◌≡◌, ◌≤◌, ◌<◌, ◌&&◌, ◌||◌, [], None, List, OnOk, OnErr, not, length};
ghost use Rattle.std.specs.List.{list_any};
ghost use Rattle.base_types.specs.Scenario.{Scenario};
ghost use Rattle.base_types.specs.declared.scan.Purpose.TheVariants as scans;
ghost use Rattle.inval_messages.specs.Messages.{covers};
ghost use Rattle.event_kinds.specs.declared.entry.Entry.{Entry};
ghost use Rattle.ddl_effect.specs.Stages.{plan_at};
ghost use Rattle.cacheless.specs.State.{is_absent};
ghost use Rattle.backend_core.specs.Words.{finds_none as has_found_none, is_unfound, relation_to_open, has_begun, marks_build, told_after, looked_after, has_error, frames_given, frames_reset_of, frames_looked};

use crate::choice::relation_of;
use crate::{Backend, LookFor};
use arrayvec::ArrayVec;
use base_types::{Fetched, NoMemory, Oid, Purpose};
use ddl_effect::Want;
use inval_messages::Message;
use seg_calls::Seg;

impl Backend {
    ghost use Rattle.event_kinds.specs.declared.entry.Event.TheVariants as events;
    ghost use Rattle.history_model.specs.Log.{fetched_by};
    ghost use Rattle.cacheless.specs.Holds.{Rests, HasEntered};
    ghost use Rattle.cacheless.specs.May.{HasRoom};
    ghost use Rattle.cacheless.specs.State.{kept_at, nothing_kept, kept_spared};
    ghost use Rattle.backend_core.specs.Agrees.{IsReady};
    ghost use Rattle.backend_core.specs.declared.next.Next.TheVariants as nexts;
    ghost use Rattle.backend_core.specs.Steps.{Enters, IsRefused, IsNextOf};
    ghost use Rattle.backend_core.specs.Noted.{IsNoted};
    ghost use Rattle.backend_core.specs.Looks.{next_of_look, LooksWherever, NotesLook, StaysInCommand};

    // A look, made in the segment's history.
    pub(crate) fn look<L: Seg>(&mut self, seg: &mut L, look: LookFor)
        requires ready { IsReady (L.script seg.old) (L.history seg.old) self.old }
        requires place { 0 < L.promised seg.old self.old.progress.id }
        requires next { IsNextOf self.old (next_of_look look) }
        ensures script { L.script seg.new ≡ L.script seg.old }
        ensures enters { Enters (L.script seg.old) (L.history seg.old) (L.history seg.new) (L.promised seg.old) (L.promised seg.new) self.old self.new }
        ensures noted { IsNoted (L.script seg.old) (L.history seg.old) (L.history seg.new) self.old (next_of_look look) self.new }
    {
        let some_wait = seg.waits(self.progress.id);
        seg.looked(self.progress.id, self.progress.finished + 1, some_wait);
        self.take_look(look, some_wait);
    }

    // What a look makes of it, in whichever history it is made. The look of a lookup that found no relation
    // comes before it says so (`RangeVarGetRelidExtended` in `src/backend/catalog/namespace.c`, which accepts
    // messages, and begins again where some came since it began); where it looked already, the lookup begins
    // again.
    pub(crate) fn take_look(&mut self, look: LookFor, some_wait: bool)
        requires few { self.old.progress.finished ≤ 20000 }
        requires room { HasRoom self.old.progress }
        requires next { IsNextOf self.old (next_of_look look) }
        ensures looks { LooksWherever self.old some_wait self.new }
        ensures noted { NotesLook self.old look some_wait self.new }
        ensures same { self.new.progress.commands ≡ self.old.progress.commands }
        ensures stays { (scenario : Scenario) (seen : List Entry) → Rests scenario seen self.old.progress → StaysInCommand self.old self.new }
    {
        self.progress.enter_look(some_wait);
        match look {
            LookFor::Accept => {}
            LookFor::Scan { rebuilds } => {
                self.note_look(rebuilds);
            }
            LookFor::Absent => {
                self.told = still_looked(self.told, self.looked);
                self.looked = true;
            }
        }
    }

    // It is made for the rebuild on top, or for the next act.
    fn note_look(&mut self, rebuilds: bool)
        ensures { self.new ≡ record self.old { looked = self.old.looked || not rebuilds; frames = frames_looked rebuilds self.old.frames } }
    {
        if rebuilds {
            self.frames.look();
        } else {
            self.looked = true;
        }
    }

    // The fetch of messages that wait. What they cover isn't relied on any more, and after a reset
    // nothing is. Out of memory, it may not be used any more.
    pub(crate) fn fetch<L: Seg>(&mut self, seg: &mut L) -> Result<(), NoMemory>
        requires ready { IsReady (L.script seg.old) (L.history seg.old) self.old }
        requires place { 0 < L.promised seg.old self.old.progress.id }
        requires next { IsNextOf self.old (nexts.Fetch) }
        ensures script { L.script seg.new ≡ L.script seg.old }
        ensures enters { OnOk result (Enters (L.script seg.old) (L.history seg.old) (L.history seg.new) (L.promised seg.old) (L.promised seg.new) self.old self.new) }
        ensures noted { OnOk result (IsNoted (L.script seg.old) (L.history seg.old) (L.history seg.new) self.old (nexts.Fetch) self.new) }
        ensures refused { OnErr result (IsRefused (L.script seg.old) (L.history seg.old) (L.history seg.new) (L.promised seg.old) (L.promised seg.new) self.old.progress.id) }
        ensures life { self.new.life ≡ self.old.life }
    {
        let mut messages = ArrayVec::new();
        match seg.fetch(self.progress.id, self.progress.finished + 1, &mut messages) {
            Fetched::Messages(_) => self.take_messages(messages.as_slice()),
            Fetched::Reset => self.take_reset(),
        }
    }

    // It takes the messages of a fetch: a lookup that had found no relation looks again before it says so.
    // Out of memory, it may not be used any more.
    fn take_messages(&mut self, messages: &[Message]) -> Result<(), NoMemory>
        requires few { self.old.progress.finished ≤ 20000 }
        requires room { HasRoom self.old.progress }
        ensures holds { OnOk result ((scenario : Scenario) (seen : List Entry) → (rests : Rests scenario seen self.old.progress) → messages.now ≡ fetched_by seen self.old.progress.id (length messages.now) → HasEntered scenario seen self.old.progress (events.Fetch (length messages.now)) rests self.new.progress) }
        ensures is { OnOk result (self.new ≡ record self.old { progress = self.new.progress; looked = looked_after self.old (has_found_none self.old.progress) (marks_build self.old.progress messages.now); frames = frames_given self.old messages.now; told = told_after self.old (has_found_none self.old.progress) (marks_build self.old.progress messages.now) }) }
        ensures kept { OnOk result (kept_at self.new.progress ≡ kept_spared messages.now (kept_at self.old.progress)) }
        ensures answer { OnOk result (self.new.progress.answer ≡ None) }
        ensures life { self.new.life ≡ self.old.life }
    {
        let unfound = self.finds_none();
        let marked = self.is_marked(messages);
        let fails = self.has_error();
        self.frames.fetch(fails, &self.progress, messages)?;
        self.progress.enter_fetch(messages);
        self.told = self.told_after(unfound, marked);
        self.looked = self.looked_after(unfound, marked);
        Ok(())
    }

    // It takes a reset: all that it has read goes (`InvalidateSystemCaches` in
    // `src/backend/utils/cache/inval.c`, `RelationCacheInvalidate` in
    // `src/backend/utils/cache/relcache.c`). Out of memory, it may not be used any more.
    fn take_reset(&mut self) -> Result<(), NoMemory>
        requires few { self.old.progress.finished ≤ 20000 }
        requires room { HasRoom self.old.progress }
        ensures holds { OnOk result ((scenario : Scenario) (seen : List Entry) → (rests : Rests scenario seen self.old.progress) → HasEntered scenario seen self.old.progress events.FetchReset rests self.new.progress) }
        ensures is { OnOk result (self.new ≡ record self.old { progress = self.new.progress; looked = looked_after self.old (has_found_none self.old.progress) (has_begun self.old.progress); frames = frames_reset_of self.old self.new.progress.opened; told = told_after self.old (has_found_none self.old.progress) (has_begun self.old.progress) }) }
        ensures kept { OnOk result (kept_at self.new.progress ≡ nothing_kept) }
        ensures answer { OnOk result (self.new.progress.answer ≡ None) }
        ensures life { self.new.life ≡ self.old.life }
    {
        let unfound = self.finds_none();
        let marked = self.has_begun_build();
        let fails = self.has_error();
        self.told = self.told_after(unfound, marked);
        self.looked = self.looked_after(unfound, marked);
        self.frames.restart(fails, &self.progress);
        self.progress.enter_reset();
        self.frames.reset(fails, &self.progress)
    }

    // Whether its command has failed, but for a lookup that found no relation.
    fn has_error(&self) -> bool
        ensures { result ≡ has_error (plan_at self.now.progress.opens self.now.progress.exec) }
    {
        matches!(self.progress.exec.next(), Want::Fails(_))
    }

    // Whether its look counts for the next scan of the act still, after a fetch.
    fn looked_after(&self, unfound: bool, marked: bool) -> bool
        ensures { result ≡ looked_after self.now unfound marked }
    {
        self.looked && !unfound && !marked
    }

    // Whether messages have come since its lookup began, after a fetch: one that had found no relation
    // begins again; for one that looked before its scan they have, unless they mark the descriptor that it opens.
    fn told_after(&self, unfound: bool, marked: bool) -> bool
        ensures { result ≡ told_after self.now unfound marked }
    {
        (self.told || (self.looked && !marked)) && !unfound
    }

    // Whether its lookup has found no relation, by a scan that serves, and holds no lock that it took.
    fn finds_none(&self) -> bool
        ensures { result ≡ has_found_none self.now.progress }
    {
        self.says_absent() || self.is_unfound()
    }

    // Whether the command says already that no relation has the name that it looked up.
    pub(crate) fn says_absent(&self) -> bool
        ensures { result ≡ is_absent (plan_at self.now.progress.opens self.now.progress.exec) }
    {
        matches!(self.progress.exec.next(), Want::Absent(_))
    }

    // Whether its lookup finds no relation, by a scan that serves, and holds no lock that it took.
    fn is_unfound(&self) -> bool
        ensures { result ≡ is_unfound self.now.progress (plan_at self.now.progress.opens self.now.progress.exec) }
    {
        match self.progress.exec.next() {
            Want::Lookup { name, .. } => {
                self.progress.taken.is_none()
                    && self.progress.caches.has(&Purpose::RelName(name))
                    && relation_of(&self.progress.row_sought(name)).is_none()
            }
            _ => false,
        }
    }

    // Whether messages mark the descriptor that the next act opens, whose build then starts over
    // (`RelationBuildDesc` in `src/backend/utils/cache/relcache.c`). A build that hasn't made its first
    // scan has nothing to start over with.
    fn is_marked(&self, messages: &[Message]) -> bool
        ensures { result ≡ marks_build self.now.progress messages.now }
    {
        match self.opens_next() {
            Some(rel) => self.progress.caches.has(&Purpose::Class(rel)) && tells_of(messages, rel),
            None => false,
        }
    }

    // Whether it has made its first scan: then a reset marks it.
    fn has_begun_build(&self) -> bool
        ensures { result ≡ has_begun self.now.progress }
    {
        match self.opens_next() {
            Some(rel) => self.progress.caches.has(&Purpose::Class(rel)),
            None => false,
        }
    }

    // The relation of the descriptor that the next act opens.
    fn opens_next(&self) -> Option<Oid>
        ensures { result ≡ relation_to_open (plan_at self.now.progress.opens self.now.progress.exec) }
    {
        match self.progress.exec.next() {
            Want::Open { rel, .. } => Some(rel),
            _ => None,
        }
    }
}

// Whether one of the messages is for the relation's descriptor.
fn tells_of(messages: &[Message], rel: Oid) -> bool
    ensures { result ≡ list_any (covers (scans.Class rel)) messages.now }
{
    messages
        .iter()
        .any(|message| message.is_same(Message::Rel { rel }))
}

// Whether a look counts for the next scan still.
fn still_looked(looked: bool, marked: bool) -> bool
    ensures { result ≡ (looked && not marked) }
{
    looked && !marked
}
