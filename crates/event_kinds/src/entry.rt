use crate::LineText;
use base_types::{Listed, Mode, Name, Oid, Purpose, Row, RowKey, Xid};

/// One change of a write.
#[derive(Clone, Copy)]
pub enum Item {
    /// A new row.
    Add(Row),
    /// A row in the place of the one with its key.
    Put(Row),
    /// The row with this key is deleted.
    Remove(RowKey),
    /// No change of a row, but a message for this relation.
    Force(Oid),
}

/// What a backend did.
#[derive(Drop)]
pub enum Event {
    /// It joined the queue (`SharedInvalBackendInit`, sinvaladt.c).
    Start,
    /// It looked whether it has messages (`hasMessages`, sinvaladt.c).
    Look {
        yes: bool,
    },
    /// It took messages from the queue, 1 to 32 of them (`SIGetDataEntries`, sinvaladt.c).
    Fetch {
        count: u32,
    },
    /// It had fallen too far behind, and was told to reset all that it caches (`resetState`,
    /// sinvaladt.c).
    FetchReset,
    /// It was granted a lock (`LockAcquire`, lock.c).
    LockOk {
        rel: Oid,
        mode: Mode,
    },
    /// It was refused a lock; the first other holder of a conflicting mode, and that mode.
    LockHeld {
        rel: Oid,
        mode: Mode,
        holder: u32,
        held: Mode,
    },
    /// It released a lock (`LockRelease`, lock.c).
    Unlock {
        rel: Oid,
        mode: Mode,
    },
    /// It scanned a catalog, and so many rows came (`systable_getnext`, genam.c).
    Scan {
        purpose: Purpose,
        rows: u32,
    },
    /// It changed catalog rows, all at once (`CatalogTupleInsert` and its like, indexing.c).
    Write {
        xid: Xid,
        items: Listed<Item>,
    },
    /// Its write was refused: the new name is that of this relation.
    ClashRow {
        name: Name,
        rel: Oid,
    },
    /// Its write was refused: a running transaction has the new name in use.
    ClashRunning {
        name: Name,
        xid: Xid,
    },
    /// Its transaction is committed (`ProcArrayEndTransaction`, procarray.c).
    Visible {
        xid: Xid,
    },
    /// It put its next messages into the queue, 1 to 64 of them (`SIInsertDataEntries`,
    /// sinvaladt.c).
    Publish {
        count: u32,
    },
    /// It released the locks that it was granted in commands of this number and above
    /// (`LockReleaseAll`, lock.c).
    Release {
        from: u32,
    },
    /// What it wrote in commands of this number and above is undone (`AbortSubTransaction`,
    /// xact.c).
    Gone {
        from: u32,
    },
    /// It ran out of memory.
    Fail,
    /// It left the queue (`CleanupInvalidationState`, sinvaladt.c).
    Stop,
}

/// An entry of a history.
#[derive(Drop)]
pub struct Entry {
    /// The backend, 1 to 64.
    pub backend: u32,
    /// The command that it belongs to, from 1; 0 for a start, and the number after the last command for what follows that.
    pub command: u32,
    pub event: Event,
}

/// The answer line of a command.
#[derive(Drop)]
pub struct Line {
    /// The backend, 1 to 64.
    pub backend: u32,
    /// The command's number, from 1.
    pub command: u32,
    /// The answer.
    pub text: LineText,
}
