ghost use Rattle.std.specs.Prelude.{◌≡◌, ◌++◌, IfOk, take, drop};
ghost use Rattle.std.specs.List.{flat_map};

use crate::entering::first_of;
use crate::ledger::Ledger;
use crate::own::{Own, rest_of};
use base_types::{NoMemory, Purpose, Row};
use event_kinds::Item;
use inval_messages::Message;

impl Ledger {
    ghost use Rattle.std.specs.Prelude.{List};
    ghost use Rattle.event_kinds.specs.declared.entry.Entry.{Entry};
    ghost use Rattle.catalog_rows.specs.Store.{rows_of_scan};
    ghost use Rattle.history_model.specs.Drawn.{next_oid as oid_drawn_next};
    ghost use Rattle.history_model.specs.Log.{fetched_by};
    ghost use Rattle.history_model.specs.Sent.{cats_by, rels_by};
    ghost use Rattle.history_model.specs.Versions.{answer_of};
    ghost use Rattle.history_ledger.specs.Held.{standing_at};
    ghost use Rattle.segment_rows.specs.Words.{messages_at};
    ghost use Rattle.segment_rows.specs.Kept.{reader_at};
    ghost use Rattle.history_ledger.specs.Held.{Reads};

    /// The oid that is drawn next.
    pub fn next_oid(&self) -> u64
        ensures { (seen : List Entry) → Reads seen self.now → result ≡ oid_drawn_next seen }
    {
        self.rows.next_oid()
    }

    /// The rows that a scan by the backend gives.
    pub fn scan(&self, b: u32, purpose: &Purpose) -> Result<Vec<Row>, NoMemory>
        ensures now { IfOk result (λ rows. rows.items ≡ rows_of_scan self.now.rows.store purpose.now (reader_at (standing_at self.now.backends b))) }
        ensures answer { (seen : List Entry) → Reads seen self.now → IfOk result (λ rows. rows.items ≡ answer_of seen b purpose.now) }
    {
        let none = Own::new(self.alloc);
        self.rows.scan(self.backends.get(b, &none).xid(), purpose)
    }

    /// The messages that a fetch of so many by the backend gives.
    pub fn fetched(&self, b: u32, count: u32) -> &[Message]
        ensures now { result.now ≡ take count (drop (standing_at self.now.backends b).position self.now.log.items) }
        ensures given { (seen : List Entry) → Reads seen self.now → result.now ≡ fetched_by seen b count }
    {
        let none = Own::new(self.alloc);
        let position = self.backends.get(b, &none).position;
        first_of(rest_of(&self.log, position), count)
    }

    /// The messages of a write's items, those of each item for the catalog caches first.
    pub fn messages_written(&self, b: u32, items: &[Item]) -> Result<Vec<Message>, NoMemory>
        ensures now { IfOk result (λ messages. messages.items ≡ flat_map (messages_at self.now.rows.store (reader_at (standing_at self.now.backends b))) items.now) }
        ensures written { (seen : List Entry) → Reads seen self.now → IfOk result (λ messages. messages.items ≡ flat_map (λ item. cats_by seen b item ++ rels_by seen b item) items.now) }
    {
        let none = Own::new(self.alloc);
        self.rows
            .announced(self.backends.get(b, &none).xid(), items)
    }
}
