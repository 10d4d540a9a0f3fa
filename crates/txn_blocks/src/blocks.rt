ghost use Rattle.std.specs.Prelude.{◌≡◌, ◌<◌, IfSome, length};
ghost use Rattle.txn_blocks.specs.Blocks.{ends_failure as does_end_failure, needs_block as does_need_block};
ghost use Rattle.txn_blocks.specs.Blocks.{is_savepoint as begins_level, place_of as latest_of};

use crate::{BlockCause, Level};
use base_types::{Command, Name, NoMemory};
use std::alloc::Global;
use std::marker::Model;

// Where a session is: outside a block, in one, or in one that has failed.
#[derive(Clone, Copy)]
enum State {
    Outside,
    Inside,
    Failed,
}

/// The transaction blocks of one session.
#[derive(Drop)]
pub struct TxnBlocks {
    state: State,
    levels: Vec<Level>,
}

impl Model for TxnBlocks {
    ghost use Rattle.txn_blocks.specs.Blocks.{Blocks};
    ghost use Rattle.txn_blocks.specs.States.{block_in};

    ghost Value = { Blocks };

    ghost view = { λ blocks. record { block = block_in blocks.state; levels = blocks.levels.items } };
}

impl TxnBlocks {
    ghost use Rattle.std.specs.Prelude.{None, Some, OnOk, OnErr, IfErr, if◌then◌else◌};
    ghost use Rattle.txn_blocks.specs.Blocks.{Inside, no_block, is_open as is_block_open, is_failed as is_block_failed, refused_by, innermost, levels_around, levels_up_to, blocks_begun, blocks_well, blocks_badly};
    ghost use Rattle.txn_blocks.specs.States.{error_of};

    /// No block is open.
    pub fn new(alloc: Global) -> TxnBlocks
        ensures { result ≡ no_block }
    {
        TxnBlocks {
            state: State::Outside,
            levels: Vec::new(alloc),
        }
    }

    /// Whether the blocks let the command run. `Failed`: exactly in a failed block, where the
    /// command neither ends nor mends it. `NoBlock`: exactly outside a block, where the command
    /// needs one. `NoSavepoint`: exactly where it is neither, and the command names a savepoint that
    /// the block doesn't have (`ReleaseSavepoint` and `RollbackToSavepoint`).
    pub fn admit(&self, command: &Command) -> Result<(), BlockCause>
        ensures ok { OnOk result (refused_by self.now command.now ≡ None) }
        ensures err { IfErr result (λ cause. refused_by self.now command.now ≡ Some (error_of cause)) }
    {
        match self.state {
            State::Failed if !ends_failure(command) => return Err(BlockCause::Failed),
            State::Outside if needs_block(command) => return Err(BlockCause::NoBlock),
            State::Outside | State::Inside | State::Failed => {}
        }
        match command {
            Command::Release(name) | Command::RollbackTo(name)
                if place_of(name, &self.levels).is_none() => {
                Err(BlockCause::NoSavepoint { name: *name })
            }
            _ => Ok(()),
        }
    }

    /// Begins a transaction with the command of this number: a block, or one of that command alone,
    /// which changes nothing here. Inside a block nothing happens (`BeginTransactionBlock`). Out of
    /// memory, nothing changes.
    pub fn begin(&mut self, c: u32, block: bool) -> Result<(), NoMemory>
        ensures ok { OnOk result (self.new ≡ (if block then blocks_begun c self.old else self.old)) }
        ensures err { OnErr result (self.new ≡ self.old) }
    {
        if !block {
            return Ok(());
        }
        if let State::Outside = self.state {
            let alloc = *self.levels.allocator();
            let outermost = Level {
                first: c,
                savepoint: None,
            };
            self.levels = vec![in alloc; outermost]?;
            self.state = State::Inside;
        }
        Ok(())
    }

    /// Whether a block is open, failed or not (`IsTransactionBlock`).
    pub fn is_open(&self) -> bool
        ensures { result ≡ is_block_open self.now }
    {
        !matches!(self.state, State::Outside)
    }

    /// Whether a failed block is open (`IsAbortedTransactionBlockState`).
    pub fn is_failed(&self) -> bool
        ensures { result ≡ is_block_failed self.now }
    {
        matches!(self.state, State::Failed)
    }

    /// The first command of the innermost level, where the command of number `c` runs; outside a
    /// block that command itself.
    pub fn level_from(&self, c: u32) -> u32
        ensures { result ≡ innermost c self.now.levels }
    {
        match self.levels.last() {
            Some(level) => level.first,
            None => c,
        }
    }

    /// The first command of the level of the latest savepoint of this name; where there is none, that
    /// of the innermost level.
    pub fn level_of(&self, name: &Name, c: u32) -> u32
        ensures { result ≡ innermost c (levels_up_to name.now self.now.levels) }
    {
        match place_of(name, &self.levels) {
            Some(at) => self.levels[at].first,
            None => self.level_from(c),
        }
    }

    /// The command of this number came out well. Out of memory, nothing changes.
    pub fn ended_well(&mut self, c: u32, command: &Command) -> Result<(), NoMemory>
        ensures ok { OnOk result (self.new ≡ blocks_well c command.now self.old) }
        ensures err { OnErr result (self.new ≡ self.old) }
    {
        match command {
            Command::Begin => self.begin(c, true)?,
            Command::Commit | Command::Rollback => self.end(),
            Command::Savepoint(name) => self.levels.push(Level {
                first: c,
                savepoint: Some(*name),
            })?,
            Command::Release(name) => self.leave(name),
            Command::RollbackTo(name) => self.mend(name),
            _ => {}
        }
        Ok(())
    }

    // The level of the latest savepoint of this name goes into the one around it, with those inside it
    // (`CommitSubTransaction`).
    fn leave(&mut self, name: &Name)
        ensures { self.new ≡ record { block = self.old.block; levels = levels_around name.now self.old.levels } }
    {
        if let Some(at) = place_of(name, &self.levels) {
            self.levels.truncate(at);
        }
    }

    // The levels inside that of the latest savepoint of this name are gone, and the block goes on
    // (`AbortSubTransaction`).
    fn mend(&mut self, name: &Name)
        ensures { self.new ≡ record { block = Inside; levels = levels_up_to name.now self.old.levels } }
    {
        if let Some(at) = place_of(name, &self.levels) {
            self.levels.truncate(at + 1);
        }
        self.state = State::Inside;
    }

    /// A command failed: so did the block that is open, if one is (`AbortCurrentTransaction`).
    pub fn fail(&mut self)
        ensures { self.new ≡ blocks_badly self.old }
    {
        if self.is_open() {
            self.state = State::Failed;
        }
    }

    /// The block that is open, if one is, ends (`CleanupTransaction`).
    pub fn end(&mut self)
        ensures { self.new ≡ no_block }
    {
        self.state = State::Outside;
        self.levels.clear();
    }
}

// The place of the latest savepoint of this name: it is sought from the innermost level on.
fn place_of(name: &Name, levels: &[Level]) -> Option<usize>
    ensures place { result ≡ latest_of name.now levels.now }
    ensures within { IfSome result (λ at. at < length levels.now) }
{
    let mut at = levels.len();
    while at > 0 {
        at -= 1;
        if is_savepoint(name, &levels[at]) {
            return Some(at);
        }
    }
    None
}

// Whether the level begins with a savepoint of this name.
fn is_savepoint(name: &Name, level: &Level) -> bool
    ensures { result ≡ begins_level name.now level.now }
{
    match level.savepoint {
        Some(own) => name.as_bytes() == own.as_bytes(),
        None => false,
    }
}

// Whether the command ends or mends a failed block.
fn ends_failure(command: &Command) -> bool
    ensures { result ≡ does_end_failure command.now }
{
    matches!(
        command,
        Command::Commit | Command::Rollback | Command::RollbackTo(_)
    )
}

// Whether the command needs a block.
fn needs_block(command: &Command) -> bool
    ensures { result ≡ does_need_block command.now }
{
    matches!(
        command,
        Command::Savepoint(_)
            | Command::Release(_)
            | Command::RollbackTo(_)
            | Command::LockTable { .. }
            | Command::OpenRel(_)
            | Command::Peek { .. }
            | Command::CloseRel(_)
    )
}
