ghost use Rattle.std.specs.Prelude.{◌≡◌, ◌==◌, length, drop};
ghost use Rattle.inval_messages.specs.Lists.{left_after, unsent_after as unsent_of};
ghost use Rattle.command_lists.specs.Lists.{all_lists};
ghost use Rattle.history_model.specs.Segment.{is_alive, has_xid as do_have_xid};
ghost use Rattle.history_model.specs.Allows.{follows_life as may_live, follows_visible as may_end_so, follows_gone as may_follow_gone, has_looked as did_look};
ghost use Rattle.history_model.specs.Changing.{is_last_write as did_write};
ghost use Rattle.std.specs.Prelude.{◌&&◌, ◌+◌, ◌<◌, ◌^◌, nat_lt};

use base_types::Xid;
use command_lists::InvalLists;
use event_kinds::Event;
use history_model::{Asked, Life};
use inval_messages::Message;
use std::alloc::Global;
use txn_blocks::RunningTransaction;

// What the history so far leaves of one backend.
#[derive(Drop)]
pub(crate) struct Own {
    pub(crate) life: Life,
    pub(crate) asked: Asked,
    pub(crate) running: Option<RunningTransaction>,
    // the messages of its writes that weren't taken back
    pub(crate) lists: InvalLists,
    // of how many messages of the log it is past
    pub(crate) position: usize,
    // a message waited at its last entry that is no look
    pub(crate) waited: bool,
    // the command of its last write
    pub(crate) wrote: Option<u32>,
}

impl Own {
    ghost use Rattle.inval_messages.specs.Lists.{has_write_from as has_list_from};
    ghost use Rattle.history_model.specs.Segment.{no_standing, is_visible as runs_visible};
    ghost use Rattle.history_model.specs.Messages.{unsent_at};
    ghost use Rattle.history_model.specs.Allows.{follows_own, fetches_from as may_fetch_from, may_end as does_allow_end, may_release as does_allow_release, is_all_sent as has_sent_all, may_publish as does_allow_publish, may_look as does_allow_look, may_fetch as does_allow_fetch};
    ghost use Rattle.segment_rows.specs.Kept.{xid_in};
    ghost use Rattle.history_ledger.specs.Held.{standing_of, published_in};

    // A backend without entries.
    pub(crate) fn new(alloc: Global) -> Own
        ensures { standing_of result ≡ no_standing }
    {
        Own {
            life: Life::Unstarted,
            asked: Asked::Nothing,
            running: None,
            lists: InvalLists::new(alloc),
            position: 0,
            waited: false,
            wrote: None,
        }
    }

    // The Xid of its transaction, if it has one.
    pub(crate) fn xid(&self) -> Option<Xid>
        ensures { result ≡ xid_in (standing_of self.now).running }
    {
        match self.running {
            Some(running) => running.xid,
            None => None,
        }
    }

    // Whether its transaction is committed, and runs still.
    pub(crate) fn is_visible(&self) -> bool
        ensures { result ≡ runs_visible (standing_of self.now).running }
    {
        match self.running {
            Some(running) => running.visible,
            None => false,
        }
    }

    // Whether its life and the ends of its transactions allow the event next.
    pub(crate) fn follows(&self, command: u32, event: &Event) -> bool
        ensures { result ≡ follows_own command (standing_of self.now) event.now }
    {
        follows_life(self.life, command, event)
            && follows_visible(self.is_visible(), event)
            && follows_gone(self.asked, event)
    }

    // Whether the event is a fetch of messages of a backend that isn't lapped, a reset of one that is,
    // or neither, where the log has so many messages.
    pub(crate) fn fetches_from(&self, size: u32, end: usize, event: &Event) -> bool
        ensures { result ≡ may_fetch_from size end (standing_of self.now) event.now }
    {
        match event {
            Event::Fetch { .. } => !is_lapped(size, self.position, end),
            Event::FetchReset => is_lapped(size, self.position, end),
            _ => true,
        }
    }

    // Whether a look may give this answer.
    pub(crate) fn may_look(&self, end: usize, yes: bool) -> bool
        ensures { result ≡ does_allow_look end (standing_of self.now) yes }
    {
        if yes {
            waits(self.life, self.position, end)
        } else {
            !self.waited
        }
    }

    // Whether a fetch of so many messages may come next.
    pub(crate) fn may_fetch(&self, end: usize, count: u32) -> bool
        ensures { result ≡ does_allow_fetch end (standing_of self.now) count }
    {
        has_looked(self.asked) && count as usize == end.saturating_sub(self.position).min(32)
    }

    // Whether its last event was a look that said yes.
    pub(crate) fn has_looked(&self) -> bool
        ensures { result ≡ did_look (standing_of self.now).asked }
    {
        has_looked(self.asked)
    }

    // Whether its last write was in this command.
    pub(crate) fn is_last_write(&self, command: u32) -> bool
        ensures { result ≡ did_write (standing_of self.now).wrote command }
    {
        match self.wrote {
            Some(wrote) => wrote == command,
            None => false,
        }
    }

    // Whether an event that ends a transaction, or a stop, may come next.
    pub(crate) fn may_end(&self, command: u32, event: &Event) -> bool
        ensures { result ≡ does_allow_end command (standing_of self.now) event.now }
    {
        match event {
            Event::Visible { xid } => has_xid(*xid, &self.running) && self.has_write_from(0),
            Event::Publish { count } => self.may_publish(*count),
            Event::Gone { from } => self.has_write_from(*from),
            Event::Release { from } => *from <= command && self.may_release(*from),
            Event::Stop => self.running.is_none(),
            _ => false,
        }
    }

    // Whether so many messages may be published next.
    pub(crate) fn may_publish(&self, count: u32) -> bool
        ensures { result ≡ does_allow_publish (standing_of self.now) count }
    {
        self.is_visible() && 1 <= count && count as usize == self.unsent().len().min(64)
    }

    // The messages that may be sent next: no publish goes over from one part to the other.
    pub(crate) fn unsent(&self) -> &[Message]
        ensures next { result.now ≡ unsent_at (standing_of self.now) }
        ensures fits { published_in (standing_of self.now).running + length result.now < 2 ^ 64 }
    {
        match self.running {
            Some(running) => unsent_after(&self.lists, running.published),
            None => &[],
        }
    }

    // Whether what it was granted in commands of this number and above may be released.
    pub(crate) fn may_release(&self, from: u32) -> bool
        ensures { result ≡ does_allow_release (runs_visible (standing_of self.now).running) (standing_of self.now) from }
    {
        if self.is_visible() {
            RunningTransaction::ends(from, self.running) && self.is_all_sent()
        } else {
            !self.has_write_from(from)
        }
    }

    // Whether nothing of its messages is left.
    fn is_all_sent(&self) -> bool
        ensures { result ≡ has_sent_all (standing_of self.now) }
    {
        match self.running {
            Some(running) => is_sent(&self.lists, running.published),
            None => true,
        }
    }

    // Whether a write of this command or of a later one stands.
    pub(crate) fn has_write_from(&self, from: u32) -> bool
        ensures { result ≡ has_list_from from (standing_of self.now).lists }
    {
        self.lists.has_from(from)
    }
}

// Whether the event may come next in a life that has come so far.
fn follows_life(life: Life, command: u32, event: &Event) -> bool
    ensures { result ≡ may_live life command event.now }
{
    match (life, event) {
        (Life::Unstarted, Event::Start) => command == 0,
        (Life::Alive(_), Event::Start) => false,
        (Life::Alive(last), _) => last <= command,
        _ => false,
    }
}

// Whether the event may come next, by whether the running transaction is visible.
fn follows_visible(visible: bool, event: &Event) -> bool
    ensures { result ≡ may_end_so visible event.now }
{
    match event {
        Event::Publish { .. } | Event::Release { .. } => true,
        _ => !visible,
    }
}

// Whether the event may come after the last one, where that took writes back.
fn follows_gone(asked: Asked, event: &Event) -> bool
    ensures { result ≡ may_follow_gone asked event.now }
{
    match (asked, event) {
        (Asked::TookBack(from), Event::Release { from: to }) => *to == from,
        (Asked::TookBack(_), _) => false,
        _ => true,
    }
}

// Whether more messages wait than the queue keeps.
fn is_lapped(size: u32, position: usize, end: usize) -> bool
    ensures { result ≡ nat_lt (position + size) end }
{
    position < end && (size as usize) < end - position
}

// Whether a running transaction has this Xid.
fn has_xid(xid: Xid, running: &Option<RunningTransaction>) -> bool
    ensures { result ≡ do_have_xid xid.0 running.now }
{
    match running {
        Some(RunningTransaction { xid: Some(own), .. }) => own.0 == xid.0,
        _ => false,
    }
}

// Whether the last event was a look that said yes.
fn has_looked(asked: Asked) -> bool
    ensures { result ≡ did_look asked }
{
    matches!(asked, Asked::LookedYes)
}

// Whether a message waits at this position.
pub(crate) fn waits(life: Life, position: usize, end: usize) -> bool
    ensures { result ≡ (is_alive life && nat_lt position end) }
{
    matches!(life, Life::Alive(_)) && position < end
}

// What isn't sent of the part at hand, once so many are published.
fn unsent_after(lists: &InvalLists, published: usize) -> &[Message]
    ensures rest { result.now ≡ unsent_of published (all_lists lists.now.lists) }
    ensures fits { published + length result.now < 2 ^ 64 }
{
    let cats = lists.cats_from(0);
    let rels = lists.rels_from(0);
    if published < cats.len() {
        rest_of(cats, published)
    } else {
        rest_of(rels, published - cats.len())
    }
}

// What follows so many of these.
pub(crate) fn rest_of(messages: &[Message], count: usize) -> &[Message]
    ensures { result.now ≡ drop count messages.now }
{
    messages.get(count..).unwrap_or(&[])
}

// Whether so many are all messages of these lists.
fn is_sent(lists: &InvalLists, published: usize) -> bool
    ensures { result ≡ (length (left_after published (all_lists lists.now.lists)) == 0) }
{
    let cats = lists.cats_from(0).len();
    published >= cats && published - cats >= lists.rels_from(0).len()
}
