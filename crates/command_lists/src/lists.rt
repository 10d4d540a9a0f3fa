ghost use Rattle.std.specs.Prelude.{◌≡◌, ◌≤◌, ◌<◌, ◌+◌, OnOk};
ghost use Rattle.std.specs.List.{list_any};
ghost use Rattle.inval_messages.specs.Messages.{same_message};
ghost use Rattle.inval_messages.specs.Lists.{cats_in, rels_in, lists_from, has_write_from};
ghost use Rattle.command_lists.specs.Starts.{end_of as whole};

use crate::start::{Place, Start, begin, count_before, has_start_from, place_from, running_before};
use base_types::NoMemory;
use inval_messages::Message;
use std::alloc::Global;
use std::marker::Model;

/// The messages of a transaction's commands, in the lists of the commands that have ended and the
/// running one's (`TransInvalidationInfo` in `src/backend/utils/cache/inval.c`, with its
/// `PriorCmdInvalidMsgs` and `CurrentCmdInvalidMsgs`).
#[derive(Drop)]
pub struct InvalLists {
    cats: Vec<Message>,
    rels: Vec<Message>,
    // where the lists of the commands that have ended begin
    ended: Vec<Start>,
    // and where the running command's does
    running: Option<Start>,
}

impl Model for InvalLists {
    ghost use Rattle.std.specs.Prelude.{◌-◌, min, length, vec_len, vec_capacity};
    ghost use Rattle.std.specs.Option.{option_to_list};
    ghost use Rattle.command_lists.specs.Lists.{Held};
    ghost use Rattle.command_lists.specs.Starts.{lists_in, AreKept};

    ghost Value = { Held };

    ghost view = { λ l. record { lists = lists_in l.cats.items l.rels.items l.ended.items l.running; spare = min (min (vec_capacity l.cats - vec_len l.cats) (vec_capacity l.rels - vec_len l.rels)) (vec_capacity l.ended - vec_len l.ended - length (option_to_list l.running)) } };

    ghost invariant = { λ l. AreKept l.cats.items l.rels.items l.ended.items (vec_capacity l.ended) l.running };
}

impl InvalLists {
    ghost use Rattle.command_lists.specs.Lists.{no_lists, all_lists, AreOrdered, MayRun, begun, registered, command_ended, aborted};

    /// No messages, which takes no memory.
    pub fn new(alloc: Global) -> InvalLists
        ensures { result.lists ≡ no_lists }
    {
        InvalLists {
            cats: Vec::new(alloc),
            rels: Vec::new(alloc),
            ended: Vec::new(alloc),
            running: None,
        }
    }

    /// Makes room for so many more messages. Out of memory, the lists are as they were.
    pub fn reserve(&mut self, n: usize) -> Result<(), NoMemory>
        ensures lists { self.new.lists ≡ self.old.lists }
        ensures more { self.old.spare ≤ self.new.spare }
        ensures ok { OnOk result (n ≤ self.new.spare) }
    {
        let Some(places) = n.checked_add(1) else {
            return Err(NoMemory);
        };
        self.cats.reserve(n)?;
        self.rels.reserve(n)?;
        self.ended.reserve(places)?;
        Ok(())
    }

    /// Lets the command's list run, even if no message comes. Conditions: a spare place, and no list of a
    /// later command, nor one of this command that has ended.
    pub fn begin_command(&mut self, command: u32)
        requires place { 0 < self.old.spare }
        requires order { MayRun command self.old.lists }
        ensures lists { self.new.lists ≡ begun command self.old.lists }
        ensures spare { self.old.spare ≤ self.new.spare + 1 }
    {
        let end = end_of(&self.cats, &self.rels);
        let start = begin(&mut self.ended, self.running, command, end);
        self.running = Some(start);
    }

    /// Adds a message to the command's list, which runs from now on: one for a catalog cache always, one
    /// for a descriptor unless the list has it (`AddCatcacheInvalidationMessage` and
    /// `AddRelcacheInvalidationMessage` in inval.c). Conditions: a spare place, and no list of a later
    /// command, nor one of this command that has ended.
    pub fn register(&mut self, command: u32, message: Message)
        requires place { 0 < self.old.spare }
        requires order { MayRun command self.old.lists }
        ensures lists { self.new.lists ≡ registered command message self.old.lists }
        ensures spare { self.old.spare ≤ self.new.spare + 1 }
    {
        let end = end_of(&self.cats, &self.rels);
        let start = begin(&mut self.ended, self.running, command, end);
        self.running = Some(start);
        match message {
            Message::Cat { .. } => self.cats.push_reserved(message),
            Message::Rel { .. } => {
                if !is_among(&self.rels[start.at.rels..], message) {
                    self.rels.push_reserved(message);
                }
            }
        }
    }

    /// The running command's list is done: it is the last of the earlier ones now
    /// (`CommandEndInvalidationMessages` in inval.c, which executes it first).
    pub fn end_command(&mut self)
        ensures lists { self.new.lists ≡ command_ended self.old.lists }
        ensures spare { self.old.spare ≤ self.new.spare }
    {
        if let Some(start) = self.running {
            self.ended.push_reserved(start);
            self.running = None;
        }
    }

    /// Takes away the lists of this command and of those after it (`AtEOSubXact_Inval` in inval.c, which
    /// executes them first).
    pub fn abort_from(&mut self, from: u32)
        ensures lists { self.new.lists ≡ aborted from self.old.lists }
        ensures spare { self.old.spare ≤ self.new.spare }
    {
        let end = end_of(&self.cats, &self.rels);
        let at = place_from(&self.ended, self.running, end, from);
        let count = count_before(&self.ended, from);
        self.cats.truncate(at.cats);
        self.rels.truncate(at.rels);
        self.ended.truncate(count);
        self.running = running_before(self.running, from);
    }

    /// Takes away all lists, at a transaction's end (`AtEOXact_Inval` in inval.c).
    pub fn clear(&mut self)
        ensures lists { self.new.lists ≡ no_lists }
        ensures spare { self.old.spare ≤ self.new.spare }
    {
        self.cats.clear();
        self.rels.clear();
        self.ended.clear();
        self.running = None;
    }

    /// Whether there is a list of this command or of one after it. Each command has one list at most, and
    /// they are in the order of their commands.
    pub fn has_from(&self, from: u32) -> bool
        ensures has { result ≡ has_write_from from (all_lists self.now.lists) }
        ensures ordered { AreOrdered (all_lists self.now.lists) }
    {
        has_start_from(&self.ended, self.running, from)
    }

    /// The messages for the catalog caches of this command and of those after it, in order. From the
    /// transaction's first command on that is what its commit sends first.
    pub fn cats_from(&self, from: u32) -> &[Message]
        ensures { result.now ≡ cats_in (lists_from from (all_lists self.now.lists)) }
    {
        let at = place_from(
            &self.ended,
            self.running,
            end_of(&self.cats, &self.rels),
            from,
        );
        &self.cats[at.cats..]
    }

    /// The messages for descriptors of this command and of those after it, in order. From the
    /// transaction's first command on that is what its commit sends after the others.
    pub fn rels_from(&self, from: u32) -> &[Message]
        ensures { result.now ≡ rels_in (lists_from from (all_lists self.now.lists)) }
    {
        let at = place_from(
            &self.ended,
            self.running,
            end_of(&self.cats, &self.rels),
            from,
        );
        &self.rels[at.rels..]
    }
}

// The ends of both parts.
fn end_of(cats: &[Message], rels: &[Message]) -> Place
    ensures { result ≡ whole cats.now rels.now }
{
    Place {
        cats: cats.len(),
        rels: rels.len(),
    }
}

// Whether the message is one of these.
fn is_among(messages: &[Message], message: Message) -> bool
    ensures { result ≡ list_any (same_message message) messages.now }
{
    messages.iter().any(|other| message.is_same(*other))
}
