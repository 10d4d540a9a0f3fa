ghost use Rattle.std.specs.Prelude.{◌≡◌, ◌++◌, None, IfOk, OnOk, OnErr};
ghost use Rattle.std.specs.List.{flat_map, list_all};
ghost use Rattle.std.specs.Option.{option_to_list};
ghost use Rattle.segment_rows.specs.Kept.{reader_of};

use crate::announcing::{announced, old_row};
use crate::covering::covers_all;
use crate::naming::{has_row_of, is_unused, new_name};
use crate::writing::{after_drawn, changes_in};
use base_types::{FIRST_OID, Name, NoMemory, Oid, Purpose, Row, Xid};
use catalog_rows::RowStore;
use event_kinds::{Event, Item};
use inval_messages::Message;
use row_visibility::{Clash, Reader};
use std::alloc::Global;
use std::marker::Model;

/// The rows that a segment has, and the next oid and the last Xid that its writes drew. A backend is named
/// by the Xid of its running transaction, if that has written.
pub struct SegmentRows {
    alloc: Global,
    store: RowStore,
    next_oid: u64,
    last_xid: u32,
}

// Written out, and not derived: so it is proved here, and not again wherever one is dropped.
impl Drop for SegmentRows {
    fn drop(self) {
        let SegmentRows {
            alloc: _,
            store: _,
            next_oid: _,
            last_xid: _,
        } = self;
    }
}

impl Model for SegmentRows {
    ghost use Rattle.segment_rows.specs.Kept.{RowsHeld};

    ghost Value = { RowsHeld };

    ghost view = { λ r. record { store = r.store; next_oid = r.next_oid; last_xid = r.last_xid } };
}

impl SegmentRows {
    ghost use Rattle.std.specs.Prelude.{ℕ};
    ghost use Rattle.catalog_rows.specs.Store.{clash_of, has_user, rows_of_scan};
    ghost use Rattle.event_kinds.specs.declared.entry.Event.TheVariants as events;
    ghost use Rattle.history_model.specs.Messages.{cats_at, rels_at};
    ghost use Rattle.history_model.specs.InUse.{new_name as name_given};
    ghost use Rattle.history_model.specs.Rows.{answer_at, added_row as row_added};
    ghost use Rattle.history_model.specs.Segment.{Segment, no_entries};
    ghost use Rattle.segment_rows.specs.Kept.{KeepsRows, xid_in};
    ghost use Rattle.segment_rows.specs.Words.{messages_at, old_at as old_row_at, covers_item, frees_names as does_free_names, may_clash as does_allow_clash, IsPlaced, DrawsNext, rows_after};

    /// No rows, which takes no memory.
    pub fn new(alloc: Global) -> SegmentRows
        ensures { KeepsRows no_entries result }
    {
        SegmentRows {
            alloc,
            store: RowStore::new(alloc),
            next_oid: FIRST_OID as u64,
            last_xid: 0,
        }
    }

    /// The oid that is drawn next (`TransamVariables->nextOid` in `src/backend/access/transam/varsup.c`).
    pub fn next_oid(&self) -> u64
        ensures { result ≡ self.now.next_oid }
    {
        self.next_oid
    }

    /// The Xid that was drawn last.
    pub fn last_xid(&self) -> u32
        ensures { result ≡ self.now.last_xid }
    {
        self.last_xid
    }

    /// The rows that a scan by the backend gives (`systable_getnext` in
    /// `src/backend/access/index/genam.c`).
    pub fn scan(&self, own: Option<Xid>, purpose: &Purpose) -> Result<Vec<Row>, NoMemory>
        ensures now { IfOk result (λ rows. rows.items ≡ rows_of_scan self.now.store purpose.now (reader_of own)) }
        ensures answer { (s : Segment) (b : ℕ) → KeepsRows s self.now → own ≡ xid_in (s.standing b).running → IfOk result (λ rows. rows.items ≡ answer_at s b purpose.now) }
    {
        self.store.scan(purpose, reader(own))
    }

    /// The row that a change by the backend replaces or takes away.
    pub fn old_row(&self, own: Option<Xid>, item: &Item) -> Option<Row>
        ensures { result ≡ old_row_at self.now.store (reader_of own) item.now }
    {
        old_row(&self.store, reader(own), item)
    }

    /// The messages of the items of a write by the backend, those of each item for the catalog caches first
    /// (`CacheInvalidateHeapTuple` in `src/backend/utils/cache/inval.c`).
    pub fn announced(&self, own: Option<Xid>, items: &[Item]) -> Result<Vec<Message>, NoMemory>
        ensures now { IfOk result (λ messages. messages.items ≡ flat_map (messages_at self.now.store (reader_of own)) items.now) }
        ensures written { (s : Segment) (b : ℕ) → KeepsRows s self.now → own ≡ xid_in (s.standing b).running → IfOk result (λ messages. messages.items ≡ flat_map (λ item. cats_at s b item ++ rels_at s b item) items.now) }
    {
        announced(self.alloc, &self.store, reader(own), items)
    }

    /// The name that a change by the backend gives a relation, unless the relation has it already.
    pub fn new_name(&self, own: Option<Xid>, item: &Item) -> Option<Name>
        ensures { option_to_list result ≡ name_given (old_row_at self.now.store (reader_of own) item.now) (row_added item.now) }
    {
        new_name(item, &self.old_row(own, item))
    }

    /// What has the name that the backend would give a relation in use, if anything has.
    pub fn name_clash(&self, own: Option<Xid>, name: &Name) -> Option<Clash>
        ensures { result ≡ clash_of self.now.store own name.now }
    {
        self.store.name_clash(name, own)
    }

    /// Whether this transaction, another than the backend's, has the name in use.
    pub fn is_used(&self, own: Option<Xid>, name: &Name, user: Xid) -> bool
        ensures { result ≡ has_user self.now.store own name.now user }
    {
        self.store.is_used(name, own, user)
    }

    /// Whether a write by the backend may be refused since this relation has the name.
    pub fn may_clash(&self, own: Option<Xid>, name: &Name, rel: Oid) -> Result<bool, NoMemory>
        ensures { IfOk result (λ yes. yes ≡ does_allow_clash self.now.store own name.now rel) }
    {
        let given = self.store.scan(&Purpose::RelName(*name), reader(own))?;
        Ok(is_unused(self.store.name_clash(name, own)) && has_row_of(&given, rel))
    }

    /// Whether no new name of a change by the backend is in use, where this is the row that it replaces.
    pub fn frees_names(&self, own: Option<Xid>, item: &Item, old: &Option<Row>) -> bool
        ensures { result ≡ does_free_names self.now.store own item.now old.now }
    {
        match new_name(item, old) {
            Some(name) => self.store.name_clash(&name, own).is_none(),
            None => true,
        }
    }

    /// Whether each scan whose answer a write by the backend changes is covered by one of its messages.
    pub fn covers_all(&self, own: Option<Xid>, items: &[Item]) -> Result<bool, NoMemory>
        ensures { IfOk result (λ yes. yes ≡ list_all (covers_item self.now.store (reader_of own) (flat_map (messages_at self.now.store (reader_of own)) items.now) items.now) items.now) }
    {
        covers_all(self.alloc, &self.store, reader(own), items)
    }

    /// What a backend did in its command of this number, where this is the Xid that it had. Conditions: a
    /// transaction that becomes visible has written, and the oids that a write draws are the next ones, in
    /// order. Out of memory, all is as it was.
    pub fn enter(&mut self, own: Option<Xid>, command: u32, event: &Event) -> Result<(), NoMemory>
        requires placed { IsPlaced self.old.store event.now }
        requires draws { DrawsNext self.old.next_oid event.now }
        ensures ok { OnOk result (self.new ≡ rows_after own command event.now self.old) }
        ensures err { OnErr result (self.new ≡ self.old) }
    {
        match event {
            Event::Write { xid, items } => self.write(*xid, command, items.as_slice()),
            Event::Visible { xid } => {
                self.commit(*xid);
                Ok(())
            }
            Event::Gone { from } => {
                self.undo(own, *from);
                Ok(())
            }
            _ => Ok(()),
        }
    }

    /// A write of these items (`CatalogTupleInsert`, `CatalogTupleUpdate` and `CatalogTupleDelete` in
    /// `src/backend/catalog/indexing.c`). Condition: the oids that they draw are the next ones, in order. Out
    /// of memory, all is as it was.
    pub fn write(&mut self, xid: Xid, command: u32, items: &[Item]) -> Result<(), NoMemory>
        requires { DrawsNext self.old.next_oid (events.Write xid items.now) }
        ensures ok { OnOk result (self.new ≡ rows_after None command (events.Write xid items.now) self.old) }
        ensures err { OnErr result (self.new ≡ self.old) }
    {
        let changes = changes_in(self.alloc, items)?;
        self.store.apply(xid, command, &changes)?;
        self.next_oid = after_drawn(self.next_oid, items);
        self.last_xid = self.last_xid.max(xid.0);
        Ok(())
    }

    /// A commit (`TransactionIdCommitTree` in `src/backend/access/transam/transam.c`). Condition: the
    /// transaction has written.
    pub fn commit(&mut self, xid: Xid)
        requires { IsPlaced self.old.store (events.Visible xid) }
        ensures { self.new ≡ rows_after None 0 (events.Visible xid) self.old }
    {
        self.store.commit(xid);
    }

    /// Takes back what the backend wrote in commands of this number and above, if it has written
    /// (`AbortSubTransaction` in `src/backend/access/transam/xact.c`).
    pub fn undo(&mut self, own: Option<Xid>, from: u32)
        ensures { self.new ≡ rows_after own 0 (events.Gone from) self.old }
    {
        if let Some(xid) = own {
            self.store.undo(xid, from);
        }
    }
}

// A backend as a reader of rows: it sees all that its transaction wrote.
pub(crate) fn reader(own: Option<Xid>) -> Reader
    ensures { result ≡ reader_of own }
{
    Reader {
        xid: own,
        command: u32::MAX,
    }
}
