ghost use Rattle.std.specs.Prelude.{◌≡◌, ◌<◌, ◌++◌, ◌∷◌, [], true, OnOk, OnErr};
ghost use Rattle.std.specs.List.{AllByRecursion};
ghost use Rattle.command_lists.specs.Lists.{all_lists, new_list, with_messages};
ghost use Rattle.history_model.specs.Segment.{asks as asks_next, life_by, running_by, wrote_by};
ghost use Rattle.history_model.specs.Messages.{lists_after, position_after as position_left, waited_after as has_waited_after};
ghost use Rattle.history_ledger.specs.Words.{IsInOrder, FetchesWaiting, IsCounted, is_write};

use crate::own::{Own, waits};
use base_types::NoMemory;
use command_lists::InvalLists;
use event_kinds::Event;
use history_model::{Asked, Life};
use inval_messages::Message;
use txn_blocks::RunningTransaction;

impl Own {
    ghost use Rattle.history_model.specs.After.{standing_by};
    ghost use Rattle.history_ledger.specs.Held.{standing_of};

    // The backend did this in its command of this number, after which the log has so many messages; a
    // write has these. Conditions: a write is of a later command than those whose lists are kept, a fetch
    // is of messages that wait, and what is published can be counted.
    pub(crate) fn enter(
        &mut self,
        command: u32,
        event: &Event,
        messages: &[Message],
        end: usize,
    ) -> Result<(), NoMemory>
        requires order { IsInOrder command event.now (standing_of self.old).lists }
        requires waits { FetchesWaiting end (standing_of self.old).position event.now }
        requires counted { IsCounted event.now (standing_of self.old).running }
        ensures ok { OnOk result (standing_of self.new ≡ standing_by (with_messages messages.now (new_list command)) end command event.now (standing_of self.old)) }
        ensures only { OnErr result (is_write event.now ≡ true) }
    {
        enter_lists(&mut self.lists, command, event, self.running, messages)?;
        self.running = running_after(command, event, self.running);
        self.position = position_after(end, event, self.position);
        self.life = life_after(command, event);
        self.asked = asks(event);
        self.waited = waited_after(event, waits(self.life, self.position, end), self.waited);
        self.wrote = wrote_after(command, event, self.wrote);
        Ok(())
    }
}

// The lists after an event.
fn enter_lists(
    lists: &mut InvalLists,
    command: u32,
    event: &Event,
    running: Option<RunningTransaction>,
    messages: &[Message],
) -> Result<(), NoMemory>
    requires { IsInOrder command event.now (all_lists lists.old.lists) }
    ensures ok { OnOk result (all_lists lists.new.lists ≡ lists_after (with_messages messages.now (new_list command)) event.now running (all_lists lists.old.lists)) }
    ensures only { OnErr result (is_write event.now ≡ true) }
{
    match event {
        Event::Write { .. } => register(lists, command, messages),
        Event::Gone { from } => {
            lists.abort_from(*from);
            Ok(())
        }
        Event::Release { from } => {
            if RunningTransaction::ends(*from, running) {
                lists.clear();
            }
            Ok(())
        }
        _ => Ok(()),
    }
}

// Registers the messages of a write, as the list of its command, also where there are none.
fn register(lists: &mut InvalLists, command: u32, messages: &[Message]) -> Result<(), NoMemory>
    requires { AllByRecursion (λ list. list.command < command) (all_lists lists.old.lists) }
    ensures { OnOk result (all_lists lists.new.lists ≡ all_lists lists.old.lists ++ with_messages messages.now (new_list command) ∷ []) }
{
    lists.end_command();
    lists.reserve(messages.len() + 1)?;
    lists.begin_command(command);
    for message in messages {
        lists.register(command, *message);
    }
    lists.end_command();
    Ok(())
}

/// The running transaction of a backend after an event in its command of this number. Condition: what it
/// has published after a publish can be counted.
pub fn running_after(
    command: u32,
    event: &Event,
    running: Option<RunningTransaction>,
) -> Option<RunningTransaction>
    requires { IsCounted event.now running }
    ensures { result ≡ running_by command event.now running }
{
    let own = RunningTransaction::begun(command, running);
    match event {
        Event::Start => None,
        Event::Stop => running,
        Event::Write { xid, .. } => Some(own.with_xid(*xid)),
        Event::Visible { .. } => Some(RunningTransaction {
            visible: true,
            ..own
        }),
        Event::Publish { count } => Some(RunningTransaction {
            published: own.published + *count as usize,
            ..own
        }),
        Event::Release { from } => own.released(*from),
        _ => Some(own),
    }
}

// The position after an event. Condition: a fetch is of messages that wait.
fn position_after(end: usize, event: &Event, position: usize) -> usize
    requires { FetchesWaiting end position event.now }
    ensures { result ≡ position_left end event.now position }
{
    match event {
        Event::Start | Event::FetchReset => end,
        Event::Fetch { count } => position + *count as usize,
        _ => position,
    }
}

// The life after an event.
fn life_after(command: u32, event: &Event) -> Life
    ensures { result ≡ life_by command event.now }
{
    match event {
        Event::Stop => Life::Stopped,
        _ => Life::Alive(command),
    }
}

// What an event asks of the next one.
fn asks(event: &Event) -> Asked
    ensures { result ≡ asks_next event.now }
{
    match event {
        Event::Look { yes: true } => Asked::LookedYes,
        Event::Gone { from } => Asked::TookBack(*from),
        _ => Asked::Nothing,
    }
}

// Whether a message waited at the last entry that is no look.
fn waited_after(event: &Event, waits: bool, waited: bool) -> bool
    ensures { result ≡ has_waited_after waits event.now waited }
{
    match event {
        Event::Look { .. } => waited,
        _ => waits,
    }
}

// The command of the last write.
fn wrote_after(command: u32, event: &Event, wrote: Option<u32>) -> Option<u32>
    ensures { result ≡ wrote_by command event.now wrote }
{
    match event {
        Event::Write { .. } => Some(command),
        _ => wrote,
    }
}
