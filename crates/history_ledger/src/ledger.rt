ghost use Rattle.std.specs.Prelude.{[], OnOk};

use crate::backends::Backends;
use crate::entering::{enter_locks, enter_log, messages_sent};
use base_types::NoMemory;
use event_kinds::Entry;
use inval_messages::Message;
use lock_modes::GrantTable;
use segment_rows::SegmentRows;
use std::alloc::Global;

/// What the entries of a history leave, exactly.
#[derive(Drop)]
pub struct Ledger {
    pub(crate) alloc: Global,
    pub(crate) rows: SegmentRows,
    pub(crate) locks: GrantTable,
    pub(crate) log: Vec<Message>,
    pub(crate) backends: Backends,
}

impl Ledger {
    ghost use Rattle.std.specs.Prelude.{◌≡◌, ◌++◌, ◌∷◌, true, List};
    ghost use Rattle.event_kinds.specs.declared.entry.Entry.{Entry};
    ghost use Rattle.history_model.specs.Segment.{Segment};
    ghost use Rattle.history_model.specs.After.{after_entry};
    ghost use Rattle.history_model.specs.Allows.{allows};
    ghost use Rattle.history_model.specs.MayFollow.{MayFollow};
    ghost use Rattle.history_ledger.specs.Words.{CanEnter, HasEntered, MayEnter};
    ghost use Rattle.history_ledger.specs.Held.{Keeps, Reads};

    /// What the empty history leaves, which takes no memory.
    pub fn new(alloc: Global) -> Ledger
        ensures { Reads [] result }
    {
        Ledger {
            alloc,
            rows: SegmentRows::new(alloc),
            locks: GrantTable::new(alloc),
            log: Vec::new(alloc),
            backends: Backends::new(alloc),
        }
    }

    /// One more entry, which may follow. Out of memory, it may not be used any more; an entry whose
    /// command has no successor is answered so too.
    pub fn enter(&mut self, e: &Entry) -> Result<(), NoMemory>
        requires { MayEnter self.old e.now }
        ensures segment { OnOk result ((s : Segment) → Keeps s self.old → allows s e.now ≡ true → Keeps (after_entry s e.now) self.new) }
        ensures history { OnOk result ((seen : List Entry) → Reads seen self.old → MayFollow seen e.now → Reads (seen ++ e.now ∷ []) self.new) }
    {
        self.enter_all(e)
    }

    // The same, by what is held.
    fn enter_all(&mut self, e: &Entry) -> Result<(), NoMemory>
        requires { CanEnter self.old e.now }
        ensures { OnOk result (HasEntered self.old e.now self.new) }
    {
        if e.command == u32::MAX {
            return Err(NoMemory);
        }
        let mut own = self.backends.take(e.backend);
        let messages = messages_sent(self.alloc, &self.rows, own.xid(), &e.event)?;
        self.rows.enter(own.xid(), e.command, &e.event)?;
        enter_locks(&mut self.locks, e.backend, e.command, &e.event)?;
        enter_log(&mut self.log, &own, &e.event)?;
        own.enter(e.command, &e.event, &messages, self.log.len())?;
        self.backends.put(e.backend, own)
    }
}
