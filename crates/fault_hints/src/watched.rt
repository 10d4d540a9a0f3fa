use base_types::{CacheId, Key, KeyPart, NoMemory, Oid, Purpose, key_hash, same_scan};
use event_kinds::{Entry, Event};
use history_ledger::Ledger;
use inval_messages::Message;

// What a backend read by a scan, and what became of that.
#[derive(Clone, Copy)]
pub(crate) struct Watched {
    backend: u32,
    purpose: Purpose,
    // The entry that made the scan last, from 1; 0 where none did.
    pub(crate) read: usize,
    // The entry since which it is stale; 0 where it serves still.
    pub(crate) stale: usize,
    // The last command of the backend that wrote something with a message for it; 0 where none did.
    written: u32,
}

impl Watched {
    pub(crate) fn new(backend: u32, purpose: Purpose) -> Watched {
        Watched {
            backend,
            purpose,
            read: 0,
            stale: 0,
            written: 0,
        }
    }

    // One more entry, of this number, after those that the ledger has.
    pub(crate) fn note(
        &mut self,
        ledger: &Ledger,
        e: &Entry,
        number: usize,
    ) -> Result<(), NoMemory> {
        if e.backend != self.backend {
            return Ok(());
        }
        if let Event::Write { items, .. } = &e.event {
            let messages = ledger.messages_written(e.backend, items.as_slice())?;
            if self.is_told(&messages) {
                self.written = e.command;
                self.lose(number);
            }
            return Ok(());
        }
        match &e.event {
            Event::Scan { purpose, .. } => self.scan(purpose, number),
            Event::Fetch { count } if self.is_told(ledger.fetched(e.backend, *count)) => {
                self.lose(number)
            }
            Event::FetchReset => self.lose(number),
            Event::Gone { from } if self.written >= *from => self.lose(number),
            _ => {}
        }
        Ok(())
    }

    fn is_same(&self, other: &Watched) -> bool {
        self.backend == other.backend && same_scan(&self.purpose, &other.purpose)
    }

    fn scan(&mut self, purpose: &Purpose, number: usize) {
        if same_scan(purpose, &self.purpose) {
            self.read = number;
            self.stale = 0;
        }
    }

    fn lose(&mut self, number: usize) {
        if self.read > 0 && self.stale == 0 {
            self.stale = number;
        }
    }

    fn is_told(&self, messages: &[Message]) -> bool {
        messages
            .iter()
            .any(|message| covers(&self.purpose, message))
    }
}

// Whether both are of one scan of one backend.
pub(crate) fn is_of_both(own: Option<Watched>, next: Option<Watched>) -> bool {
    match (own, next) {
        (Some(own), Some(next)) => own.is_same(&next),
        _ => false,
    }
}

// Whether a message makes doubtful what the scan gave.
fn covers(purpose: &Purpose, message: &Message) -> bool {
    match message {
        Message::Cat { cache, hash } => match purpose {
            Purpose::AttList(_) => cache.number() == CacheId::AttName.number(),
            Purpose::RelName(name) => {
                is_hash(CacheId::RelName, &[KeyPart::Name(*name)], *cache, *hash)
            }
            Purpose::RelOid(rel) => {
                is_hash(CacheId::RelOid, &[KeyPart::Oid(*rel)], *cache, *hash)
            }
            Purpose::AttName(rel, name) => {
                let parts = [KeyPart::Oid(*rel), KeyPart::Name(*name)];
                is_hash(CacheId::AttName, &parts, *cache, *hash)
            }
            _ => false,
        },
        Message::Rel { rel } => match built_of(purpose) {
            Some(own) => own.0 == rel.0,
            None => false,
        },
    }
}

// Whether the key of these parts, one or two, has this hash in this cache.
fn is_hash(own: CacheId, parts: &[KeyPart], cache: CacheId, hash: u32) -> bool {
    let key = match parts {
        [one] => Key::new(&[*one]),
        [one, two] => Key::new(&[*one, *two]),
        _ => return false,
    };
    own.number() == cache.number() && key_hash(own, &key) == hash
}

// The relation for whose descriptor a scan is.
fn built_of(purpose: &Purpose) -> Option<Oid> {
    match purpose {
        Purpose::Class(rel)
        | Purpose::Attribute(rel)
        | Purpose::AttrDef(rel)
        | Purpose::Constraint(rel)
        | Purpose::Index(rel)
        | Purpose::Trigger(rel)
        | Purpose::IndexRow(rel) => Some(*rel),
        _ => None,
    }
}
