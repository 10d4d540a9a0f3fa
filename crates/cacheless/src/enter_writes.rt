// How a session changes with its writes, and with those that are refused.

ghost use Rattle.std.specs.Prelude.{◌≡◌, ◌≤◌, ◌<◌, ◌++◌, ◌∷◌, ◌+◌, [], false, None, Some, OnOk};
ghost use Rattle.std.specs.List.{AllByRecursion, flat_map};
ghost use Rattle.base_types.specs.Scenario.{Scenario};
ghost use Rattle.base_types.specs.declared.mode.Mode.TheVariants.{AccessExclusive};
ghost use Rattle.event_kinds.specs.declared.entry.Entry.{Entry};
ghost use Rattle.event_kinds.specs.declared.entry.Item.{Item};
ghost use Rattle.lock_modes.specs.Own.{has_lock};
ghost use Rattle.command_lists.specs.Lists.{all_lists, new_list, with_messages};
ghost use Rattle.std.specs.Option.{IfSome};
ghost use Rattle.cacheless.specs.Locks.{locked_by};
ghost use Rattle.cacheless.specs.State.{messages_in, clash_event, error_of, locks_made};

use crate::enter::accept;
use crate::opens::{held_in, unpin_others};
use crate::{Due, Progress};
use base_types::{Listed, Name, NoMemory, Oid, Xid};
use command_answers::CommandError;
use command_lists::InvalLists;
use event_kinds::Event;
use inval_messages::Message;
use lock_modes::OwnLocks;
use row_visibility::Clash;
use std::alloc::Global;
use txn_blocks::RunningTransaction;

impl Progress {
    ghost use Rattle.std.specs.Prelude.{List, ℕ};
    ghost use Rattle.ddl_effect.specs.Stages.{plan_at, want_of};
    ghost use Rattle.ddl_effect.specs.declared.want.Want.TheVariants as wants;
    ghost use Rattle.cacheless.specs.State.{kept_at, lists_at, kept_spared};
    ghost use Rattle.cacheless.specs.Holds.{Rests, HasEntered};

    /// It wrote: these are the messages of its changes in their order, it made this relation, if it made
    /// one, which is locked now, and its transaction has this Xid. Conditions: its command wants to write,
    /// its lists are of commands before, there is room for a lock, and a new relation isn't locked. Out of
    /// memory, it may not be used any more.
    pub fn enter_write(
        &mut self,
        alloc: Global,
        xid: Xid,
        messages: &[Message],
        made: Option<Oid>,
    ) -> Result<(), NoMemory>
        requires few { self.old.finished ≤ 20000 }
        requires wants { want_of (plan_at self.old.opens self.old.exec) ≡ wants.Write }
        requires order { AllByRecursion (λ list. list.command < self.old.finished + 1) (lists_at self.old) }
        requires place { 0 < self.old.locks.room }
        requires new { IfSome made (λ rel. has_lock self.old.locks.items rel AccessExclusive ≡ false) }
        ensures kept { OnOk result (kept_at self.new ≡ kept_spared messages.now (kept_at self.old)) }
        ensures answer { OnOk result (self.new.answer ≡ None) }
        ensures holds { OnOk result ((scenario : Scenario) (seen : List Entry) (items : List Item) → (rests : Rests scenario seen self.old) → messages.now ≡ messages_in seen self.old.id items → flat_map (locked_by (self.old.finished + 1)) items ≡ locks_made (self.old.finished + 1) made → HasEntered scenario seen self.old (Event.Write xid items) rests self.new) }
        ensures same { OnOk result (self.new.commands ≡ self.old.commands) }
    {
        let command = self.finished + 1;
        register(&mut self.lists, command, messages)?;
        self.suspects.forget();
        self.caches.execute(messages);
        lock_new(&mut self.locks, made, command);
        self.running = Some(RunningTransaction::begun(command, self.running).with_xid(xid));
        self.due = Due::Nothing;
        self.exec.give(alloc, &[])?;
        self.opened = held_in(alloc, &self.blocks, self.opens.as_slice())?;
        unpin_others(alloc, &mut self.caches, self.opens.as_slice())?;
        self.suspects.find(&self.caches, &self.opened);
        self.taken = None;
        let accepting = self.is_in_acceptance();
        accept(&mut self.locks, accepting);
        self.answer = None;
        Ok(())
    }

    /// Its write was refused, which ends its command: the new name is taken.
    pub fn enter_clash(&mut self, name: Name, clash: Clash)
        requires few { self.old.finished ≤ 20000 }
        ensures kept { kept_at self.new ≡ kept_at self.old }
        ensures answer { self.new.answer ≡ None }
        ensures holds { (scenario : Scenario) (seen : List Entry) → (rests : Rests scenario seen self.old) → HasEntered scenario seen self.old (clash_event name clash) rests self.new }
        ensures same { self.new.commands ≡ self.old.commands }
    {
        self.fail(clash_error(name, clash));
    }
}

// The lock on the relation that a write made, if it made one.
fn lock_new(locks: &mut OwnLocks, made: Option<Oid>, command: u32)
    requires room { 0 < locks.old.room }
    requires new { IfSome made (λ rel. has_lock locks.old.items rel AccessExclusive ≡ false) }
    ensures { locks.new.items ≡ locks.old.items ++ locks_made command made }
{
    if let Some(rel) = made {
        locks.add_new(rel, command);
    }
}

// The messages of a command's write go to its list, which is done with them.
fn register(lists: &mut InvalLists, command: u32, messages: &[Message]) -> Result<(), NoMemory>
    requires order { AllByRecursion (λ list. list.command < command) (all_lists lists.old.lists) }
    ensures lists { OnOk result (all_lists lists.new.lists ≡ all_lists lists.old.lists ++ with_messages messages.now (new_list command) ∷ []) }
{
    lists.end_command();
    lists.reserve(messages.len() + 1)?;
    lists.begin_command(command);
    for message in messages {
        lists.register(command, *message);
    }
    lists.end_command();
    Ok(())
}

// The error with which a name that is taken ends a command.
fn clash_error(name: Name, clash: Clash) -> CommandError
    ensures { result ≡ error_of name clash }
{
    match clash {
        Clash::Row(_) => CommandError::RelationExists { name },
        Clash::Running(xid) => CommandError::NameInUse { name, xid },
    }
}
