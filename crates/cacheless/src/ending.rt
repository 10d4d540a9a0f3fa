// How the running command ends, and what comes next of its end.

ghost use Rattle.std.specs.Prelude.{◌≡◌, ◌≤◌, ◌<◌, ◌+◌, ◌^◌, ◌==◌, is_none, length, take, min};
ghost use Rattle.inval_messages.specs.Lists.{unsent_after, rest_of_parts};
ghost use Rattle.inval_messages.specs.Lists.{has_write_from};
ghost use Rattle.history_model.specs.Transactions.{is_visible as is_committed};
ghost use Rattle.cacheless.specs.State.{facts_at, work_at, lists_at, published_at, unsent_at};
ghost use Rattle.cacheless.specs.Ends.{end_of_block as block_end, end_well_in, end_badly_in, end_in, xid_of, next_of_commit, next_of_taking_back, next_of_end};
ghost use Rattle.cacheless.specs.Endings.{end_of_ending};
ghost use Rattle.cacheless.specs.Rule.{same_end, comes_next, is_free_to};

use crate::Progress;
use base_types::Command;
use ddl_effect::Want;
use event_kinds::Event;
use inval_messages::Message;

// The most messages that one publish puts into the queue.
const MOST_PUBLISHED: usize = 64;

/// How a command ends.
#[derive(Clone, Copy)]
pub enum Ending {
    /// With no entry.
    Ends,
    /// By a commit of the transaction with this first command.
    Commits { first: u32 },
    /// By taking back the commands from this one on.
    TakesBack { from: u32 },
}

impl Progress {
    ghost use Rattle.cacheless.specs.Rule.{may_end as ends_next, may_end_last as ends_last};
    ghost use Rattle.cacheless.specs.Silently.{is_ends};

    // Whether the event comes next of the command's end.
    pub(crate) fn may_end(&self, command: &Command, event: &Event) -> bool
        requires few { self.now.finished ≤ 20000 }
        ensures { result ≡ ends_next (facts_at self.now) command.now (work_at self.now) event.now }
    {
        let end = self.end(command);
        self.owes_no_end(command, end) && !self.ended && self.is_next_of_end(end, event)
    }

    // Whether the event comes next of taking back what still runs after the last command.
    pub(crate) fn may_end_last(&self, event: &Event) -> bool
        ensures { result ≡ ends_last (facts_at self.now) event.now }
    {
        match self.running {
            Some(t) => self.is_past_accept() && self.is_next_of_back(t.first, event),
            None => false,
        }
    }

    // Whether nothing has to come before the next entry of this end: taking back waits for no scan.
    fn owes_no_end(&self, command: &Command, end: Ending) -> bool
        ensures { result ≡ is_free_to (end_of_ending end) (facts_at self.now) command.now (work_at self.now) }
    {
        match end {
            Ending::TakesBack { .. } => self.is_past_accept(),
            _ => self.owes_nothing(command),
        }
    }

    // Whether the event comes next of this end.
    fn is_next_of_end(&self, end: Ending, event: &Event) -> bool
        ensures { result ≡ comes_next (next_of_end (facts_at self.now) (end_of_ending end)) event.now }
    {
        match end {
            Ending::Ends => false,
            Ending::Commits { first } => self.is_next_of_commit(first, event),
            Ending::TakesBack { from } => self.is_next_of_back(from, event),
        }
    }

    // Whether the event comes next of a commit: the visibility step if it has a write, the publishes,
    // the release.
    fn is_next_of_commit(&self, first: u32, event: &Event) -> bool
        ensures { result ≡ same_end (next_of_commit (facts_at self.now) first) event.now }
    {
        if !self.has_write_since(first) {
            return is_release(event, first);
        }
        if !self.is_visible() {
            return is_visible_of(event, self.own_xid());
        }
        let unsent = self.unpublished().len();
        if unsent == 0 {
            return is_release(event, first);
        }
        is_publish(event, unsent)
    }

    // Whether the event comes next of taking back these commands: that they are gone, if one has
    // written, and the release.
    fn is_next_of_back(&self, from: u32, event: &Event) -> bool
        ensures { result ≡ same_end (next_of_taking_back (facts_at self.now) from) event.now }
    {
        if self.has_write_since(from) {
            is_gone(event, from)
        } else {
            is_release(event, from)
        }
    }

    /// Whether its transaction is committed, and holds its locks still.
    pub fn is_visible(&self) -> bool
        ensures { result ≡ is_committed self.now.running }
    {
        match self.running {
            Some(t) => t.visible,
            None => false,
        }
    }

    /// The Xid of its transaction, or 0.
    pub fn own_xid(&self) -> u32
        ensures { result ≡ xid_of (facts_at self.now) }
    {
        match self.running {
            Some(t) => match t.xid {
                Some(xid) => xid.0,
                None => 0,
            },
            None => 0,
        }
    }

    /// Of the messages of its transaction those that it publishes next: at most 64, all for the catalog
    /// caches before all for descriptors (`AtEOXact_Inval` in `src/backend/utils/cache/inval.c`,
    /// `SendSharedInvalidMessages` and `SIInsertDataEntries` in `src/backend/storage/ipc/`).
    pub fn unpublished(&self) -> &[Message]
        ensures next { result.now ≡ take 64 (unsent_at self.now) }
        ensures most { length result.now ≤ 64 }
        ensures fits { published_at self.now + length result.now < 2 ^ 64 }
    {
        let rest = rest_of(
            self.lists.cats_from(0),
            self.lists.rels_from(0),
            self.published(),
        );
        &rest[..MOST_PUBLISHED.min(rest.len())]
    }

    // How many messages of its transaction are published.
    fn published(&self) -> usize
        ensures { result ≡ published_at self.now }
    {
        match self.running {
            Some(t) => t.published,
            None => 0,
        }
    }

    // Whether the command ends without an entry.
    pub(crate) fn ends_silently(&self, command: &Command) -> bool
        requires few { self.now.finished ≤ 20000 }
        ensures { result ≡ is_ends (end_in (facts_at self.now) command.now (work_at self.now)) }
    {
        matches!(self.end(command), Ending::Ends)
    }

    /// How the running command ends.
    pub fn end(&self, command: &Command) -> Ending
        requires few { self.now.finished ≤ 20000 }
        ensures { end_of_ending result ≡ end_in (facts_at self.now) command.now (work_at self.now) }
    {
        match self.exec.next() {
            Want::Done(_) => self.end_well(command),
            Want::Fails(_) => self.end_badly(),
            Want::Absent(_) => self.end_badly(),
            _ => Ending::Ends,
        }
    }

    // How a command ends that came out well.
    fn end_well(&self, command: &Command) -> Ending
        requires few { self.now.finished ≤ 20000 }
        ensures { end_of_ending result ≡ end_well_in (facts_at self.now) command.now (work_at self.now) }
    {
        match command {
            Command::Begin => Ending::Ends,
            Command::Commit => self.end_of_block(true),
            Command::Rollback => self.end_of_block(false),
            Command::RollbackTo(name) => Ending::TakesBack {
                from: self.blocks.level_of(name, self.finished + 1),
            },
            _ if self.blocks.is_open() => Ending::Ends,
            _ => Ending::Commits {
                first: self.finished + 1,
            },
        }
    }

    // How a block ends, by `commit` or by `rollback`.
    fn end_of_block(&self, commits: bool) -> Ending
        ensures { end_of_ending result ≡ block_end (facts_at self.now) self.now.blocks.block commits }
    {
        match self.running {
            Some(t) if self.blocks.is_open() => {
                if commits && !self.blocks.is_failed() {
                    Ending::Commits { first: t.first }
                } else {
                    Ending::TakesBack { from: t.first }
                }
            }
            _ => Ending::Ends,
        }
    }

    // How a command ends that failed.
    fn end_badly(&self) -> Ending
        requires few { self.now.finished ≤ 20000 }
        ensures { end_of_ending result ≡ end_badly_in (work_at self.now) }
    {
        if self.blocked {
            return Ending::Ends;
        }
        Ending::TakesBack {
            from: self.blocks.level_from(self.finished + 1),
        }
    }

    /// Whether a write of this command or a later one wasn't taken back.
    pub fn has_write_since(&self, from: u32) -> bool
        ensures { result ≡ has_write_from from (lists_at self.now) }
    {
        self.lists.has_from(from)
    }
}

// Whether the event is the release of these commands.
fn is_release(event: &Event, first: u32) -> bool
    ensures { result ≡ same_end (Event.Release first) event.now }
{
    match event {
        Event::Release { from } => *from == first,
        _ => false,
    }
}

// Whether the event is the visibility step of this Xid.
fn is_visible_of(event: &Event, own: u32) -> bool
    ensures { result ≡ same_end (Event.Visible (record { 0 = own })) event.now }
{
    match event {
        Event::Visible { xid } => xid.0 == own,
        _ => false,
    }
}

// Whether the event is a publish of so many messages.
fn is_publish(event: &Event, most: usize) -> bool
    ensures { result ≡ same_end (Event.Publish most) event.now }
{
    match event {
        Event::Publish { count } => *count as usize == most,
        _ => false,
    }
}

// Whether the event takes back what was written from this command on.
fn is_gone(event: &Event, first: u32) -> bool
    ensures { result ≡ same_end (Event.Gone first) event.now }
{
    match event {
        Event::Gone { from } => *from == first,
        _ => false,
    }
}

// Of two parts of messages, once so many are published: the rest of the first, or where that is all
// published, of the second.
fn rest_of<'a>(cats: &'a [Message], rels: &'a [Message], published: usize) -> &'a [Message]
    ensures rest { result.now ≡ rest_of_parts published cats.now rels.now }
    ensures fits { published + length result.now < 2 ^ 64 }
{
    if published < cats.len() {
        &cats[published..]
    } else {
        &rels[(published - cats.len()).min(rels.len())..]
    }
}
