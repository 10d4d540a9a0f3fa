ghost use Rattle.std.specs.Prelude.{◌≡◌, ◌≤◌, ◌<◌, ◌+◌, ◌++◌, ◌^◌, ℕ, [], None, length, sum, replicate, vec_len, vec_capacity, IfOk};
ghost use Rattle.shared_seg.specs.Places.{promised_in};
ghost use Rattle.shared_seg.specs.KeepsQueue.{event_of_fetch};

use crate::drawing::draw;
use crate::naming::first_taken;
use crate::places::Places;
use crate::played_script::PlayedScript;
use crate::retold::Retold;
use crate::transaction::{enter_running, own_xid};
use crate::write::{clash_entry, clash_event, enter_write, refusal_of};
use arrayvec::ArrayVec;
use base_types::{Fetched, Listed, Mode, NoMemory, Oid, Purpose, Scanned, Xid};
use ddl_effect::Draft;
use event_kinds::{Entry, Event};
use inval_messages::Message;
use lock_modes::{Granted, LockTable};
use script_text::Script;
use seg_calls::{LockRefusal, Seg, WriteRefusal, Written};
use segment_rows::SegmentRows;
use sinval_ring::{Cleaned, Ring};
use std::alloc::Global;
use std::marker::Model;
use txn_blocks::RunningTransaction;

/// What all backends of a script share.
pub struct Shared {
    alloc: Global,
    script: PlayedScript,
    places: Places,
    rows: SegmentRows,
    locks: LockTable,
    queue: Ring,
    // by backend
    transactions: Vec<Option<RunningTransaction>>,
    ghost short: { length places.entries + sum places.promised ≤ 2 ^ 56 },
}

// Written out, and not derived: so it is proved here, and not again wherever one is dropped.
impl Drop for Shared {
    fn drop(self) {
        let Shared {
            alloc: _,
            script: _,
            places: _,
            rows: _,
            locks: _,
            queue: _,
            transactions: _,
        } = self;
    }
}

impl Model for Shared {
    ghost use Rattle.shared_seg.specs.Kept.{Kept};

    ghost Value = { Kept };

    ghost use Rattle.shared_seg.specs.KeepsQueue.{KeepsShared};

    ghost view = { λ s. record { history = s.places.entries; script = s.script.scenario; promised = s.places.promised; short = s.short } };

    ghost invariant = { λ s. KeepsShared s.script.scenario s.places.entries s.places.promised s.rows s.locks.held s.transactions.items s.queue };
}

impl Shared {
    /// An empty history, and no promises.
    pub fn new(alloc: Global, script: &Script) -> Result<Shared, NoMemory>
        ensures history { IfOk result (λ shared. shared.history ≡ []) }
        ensures script { IfOk result (λ shared. shared.script ≡ script.now) }
        ensures promised { IfOk result (λ shared. (b : ℕ) → promised_in shared.promised b ≡ 0) }
    {
        let backends = script.backends();
        let places = Places::new(alloc, backends)?;
        let queue = Ring::starting_at(alloc, script.size(), backends, script.from())?;
        let mut transactions = Vec::new(alloc);
        transactions.reserve(backends as usize + 1)?;
        add_slots(&mut transactions, backends as usize + 1);
        Ok(Shared {
            alloc,
            script: PlayedScript::of(script),
            places,
            rows: SegmentRows::new(alloc),
            locks: LockTable::new(alloc),
            queue,
            transactions,
        })
    }

    /// The history so far.
    pub fn history(&self) -> &[Entry]
        ensures { result.now ≡ self.now.history }
    {
        self.places.entries()
    }

    /// From here on contracts see another script, which tells of the same queue and backends; the history and the
    /// promises stay, and nothing is done when it runs.
    pub fn retell<R: Retold>(&mut self, by: &R)
        ensures history { self.new.history ≡ self.old.history }
        ensures promised { self.new.promised ≡ self.old.promised }
        ensures script { self.new.script ≡ R.retold by.now self.old.script }
    {
        let retold = PlayedScript::retold(&self.script, by);
        self.script = retold;
    }

    /// The history, the rest given up.
    pub fn into_history(self) -> Vec<Entry>
        ensures { result.items ≡ self.history }
    {
        let Shared {
            alloc: _,
            script: _,
            places,
            rows: _,
            locks: _,
            queue: _,
            transactions: _,
        } = self;
        places.into_entries()
    }
}

impl Seg for Shared {
    ghost use Rattle.shared_seg.specs.Kept.{places_in};

    ghost history = { λ s. s.history };

    ghost script = { λ s. s.script };

    ghost promised = { places_in };

    fn promise(&mut self, b: u32, n: u32) -> Result<(), NoMemory> {
        self.places.promise(b, n)
    }

    fn promised(&self, b: u32) -> u32 {
        self.places.promised(b)
    }

    fn waits(&self, b: u32) -> bool {
        self.queue.has(b)
    }

    fn start(&mut self, b: u32) {
        self.places.append(Entry {
            backend: b,
            command: 0,
            event: Event::Start,
        });
        self.queue.start(b);
        enter_running(&mut self.transactions, b, 0, &Event::Start);
    }

    fn looked(&mut self, b: u32, c: u32, yes: bool) {
        self.places.append(Entry {
            backend: b,
            command: c,
            event: Event::Look { yes },
        });
        enter_running(&mut self.transactions, b, c, &Event::Look { yes });
    }

    fn fetch(&mut self, b: u32, c: u32, into: &mut ArrayVec<Message, 32>) -> Fetched {
        let fetched = self.queue.fetch(b, into);
        let event = fetch_event(fetched);
        enter_running(&mut self.transactions, b, c, &event);
        self.places.append(Entry {
            backend: b,
            command: c,
            event,
        });
        fetched
    }

    fn scan(&mut self, b: u32, c: u32, purpose: &Purpose) -> Result<Scanned, NoMemory> {
        let own = own_xid(&self.transactions, b);
        let rows = self.rows.scan(own, purpose)?;
        let count = u32::try_from(rows.len()).map_err(|_| NoMemory)?;
        self.places.add(Entry {
            backend: b,
            command: c,
            event: Event::Scan {
                purpose: *purpose,
                rows: count,
            },
        })?;
        let event = Event::Scan {
            purpose: *purpose,
            rows: count,
        };
        enter_running(&mut self.transactions, b, c, &event);
        Ok(Scanned {
            rows,
            at: self.places.len() as u64,
        })
    }

    fn lock(&mut self, b: u32, c: u32, rel: Oid, mode: Mode) -> Result<(), LockRefusal> {
        let Ok(()) = self.places.make_room() else {
            return Err(LockRefusal::NoMemory);
        };
        match self.locks.request(b, c, rel, mode) {
            Ok(Granted::New) => {
                self.places.push(Entry {
                    backend: b,
                    command: c,
                    event: Event::LockOk { rel, mode },
                });
                enter_running(&mut self.transactions, b, c, &Event::LockOk { rel, mode });
                Ok(())
            }
            Ok(Granted::Held) => unreachable!(),
            Err(LockRefusal::Conflict { holder, mode: held }) => {
                let event = Event::LockHeld {
                    rel,
                    mode,
                    holder,
                    held,
                };
                enter_running(&mut self.transactions, b, c, &event);
                self.places.push(Entry {
                    backend: b,
                    command: c,
                    event,
                });
                Err(LockRefusal::Conflict { holder, mode: held })
            }
            Err(LockRefusal::NoMemory) => Err(LockRefusal::NoMemory),
        }
    }

    fn unlock(&mut self, b: u32, c: u32, rel: Oid, mode: Mode) {
        self.places.append(Entry {
            backend: b,
            command: c,
            event: Event::Unlock { rel, mode },
        });
        self.locks.unlock(b, rel, mode);
        enter_running(&mut self.transactions, b, c, &Event::Unlock { rel, mode });
    }

    fn write(&mut self, b: u32, c: u32, draft: &Draft) -> Result<Written, WriteRefusal> {
        let own = own_xid(&self.transactions, b);
        let next = self.rows.next_oid();
        let Ok(drawn) = draw(self.alloc, own, draft, next, self.rows.last_xid()) else {
            return Err(WriteRefusal::NoMemory);
        };
        if let Some(taken) = first_taken(&self.rows, own, &drawn.items) {
            let Ok(()) = self.places.add(clash_entry(b, c, &taken)) else {
                return Err(WriteRefusal::NoMemory);
            };
            enter_running(&mut self.transactions, b, c, &clash_event(&taken));
            return Err(refusal_of(&taken));
        }
        let Ok(messages) = self.rows.announced(own, &drawn.items) else {
            return Err(WriteRefusal::NoMemory);
        };
        let xid = drawn.xid;
        let first_oid = drawn.first_oid;
        let Ok(()) = enter_write(
            self.alloc,
            &mut self.rows,
            &mut self.locks,
            &mut self.places,
            b,
            c,
            drawn,
        ) else {
            return Err(WriteRefusal::NoMemory);
        };
        let event = Event::Write {
            xid,
            items: Listed::new(self.alloc),
        };
        enter_running(&mut self.transactions, b, c, &event);
        Ok(Written {
            xid,
            first_oid,
            messages,
        })
    }

    fn visible(&mut self, b: u32, c: u32, xid: Xid) {
        self.places.append(Entry {
            backend: b,
            command: c,
            event: Event::Visible { xid },
        });
        self.rows.commit(xid);
        enter_running(&mut self.transactions, b, c, &Event::Visible { xid });
    }

    fn publish(&mut self, b: u32, c: u32, messages: &[Message]) -> Cleaned {
        let count = messages.len() as u32;
        self.places.append(Entry {
            backend: b,
            command: c,
            event: Event::Publish { count },
        });
        let cleaned = self.queue.insert(messages);
        enter_running(&mut self.transactions, b, c, &Event::Publish { count });
        cleaned
    }

    fn release(&mut self, b: u32, c: u32, from: u32) {
        self.places.append(Entry {
            backend: b,
            command: c,
            event: Event::Release { from },
        });
        self.locks.release(b, from);
        enter_running(&mut self.transactions, b, c, &Event::Release { from });
    }

    fn gone(&mut self, b: u32, c: u32, from: u32) {
        self.places.append(Entry {
            backend: b,
            command: c,
            event: Event::Gone { from },
        });
        let own = own_xid(&self.transactions, b);
        self.rows.undo(own, from);
        enter_running(&mut self.transactions, b, c, &Event::Gone { from });
    }

    fn stop(&mut self, b: u32, c: u32) {
        self.places.append(Entry {
            backend: b,
            command: c,
            event: Event::Stop,
        });
        self.queue.stop(b);
    }

    ghost use Rattle.shared_seg.specs.AllPromised.{all_short};

    ghost short = { λ s. all_short s.history s.promised s.script.backends s.short };
}

// The event of a fetch, by what it gave.
fn fetch_event(fetched: Fetched) -> Event
    ensures { result ≡ event_of_fetch fetched }
{
    match fetched {
        Fetched::Messages(count) => Event::Fetch { count },
        Fetched::Reset => Event::FetchReset,
    }
}

// Adds so many slots without a transaction, for which there is room.
fn add_slots(transactions: &mut Vec<Option<RunningTransaction>>, count: usize)
    requires { vec_len transactions.old + count ≤ vec_capacity transactions.old }
    ensures { transactions.new.items ≡ transactions.old.items ++ replicate count None }
{
    for slot in 0..count {
        transactions.push_reserved(None);
    }
}
