ghost use Rattle.std.specs.Prelude.{◌≡◌, ◌≤◌, ◌<◌, ◌+◌, ◌-◌, ◌*◌, ◌%◌, ◌++◌, ℕ, [], false, length, replicate, vec_len, vec_capacity, IsTrue, IfOk};
ghost use Rattle.base_types.specs.Scenario.{IsQueueSize};
ghost use Rattle.sinval_ring.specs.Readers.{Inactive, At, is_active, is_behind, unmarked, fetched, given_to, after_fetch};
ghost use Rattle.sinval_ring.specs.Cleanups.{swept, wraparound};

use crate::Cleaned;
use crate::cleanup::{
    bits_below, furthest_back, least_position, mark, move_back, next_threshold, sweep, wrap_at,
};
use crate::reader::{MOST_FETCHED, Reader, reader_at};
use crate::window::Window;
use arrayvec::ArrayVec;
use base_types::{Fetched, NoMemory};
use ghost_list::GhostValue;
use inval_messages::Message;
use std::alloc::Global;
use std::marker::Model;

/// The queue of invalidation messages and its readers, the backends 1 to the number that it is made for
/// (`SISeg` in `src/backend/storage/ipc/sinvaladt.c`). Messages have numbers in the order of their
/// insertion. A contract counts them from the first one on; the queue's own numbers begin where its
/// caller says, and go back by 262,144 times the size where a cleanup finds that all readers are past
/// that number (`MSGNUMWRAPAROUND`).
#[derive(Drop)]
pub struct Ring {
    window: Window,
    // the number of the first message of all
    first: GhostValue<u64>,
    // the number of the next message to be inserted
    max: u64,
    // a number that no reader is before
    min: u64,
    // how many messages from `min` on start a cleanup
    threshold: u64,
    // by backend; the first is nobody's
    readers: Vec<Reader>,
}

impl Model for Ring {
    ghost use Rattle.sinval_ring.specs.Queues.{Queue};

    ghost Value = { Queue };

    ghost use Rattle.sinval_ring.specs.RingParts.{queue, IsKept};

    ghost view = { queue };

    ghost invariant = { IsKept };
}

impl Ring {
    ghost use Rattle.sinval_ring.specs.Queues.{empty_queue, reader_of, with_reader, number_of, IsKeptFor};
    ghost use Rattle.sinval_ring.specs.Cleaning.{must_clean, cleaned, cleaned_answer, made_room, room_answer, inserted};

    /// An empty queue for so many messages and backends, of which none is active
    /// (`CreateSharedInvalidationState`). Conditions: the size is a power of two from 64 to 4,096, and
    /// there are 1 to 64 backends.
    pub fn new(alloc: Global, size: u32, backends: u32) -> Result<Ring, NoMemory>
        requires size { IsQueueSize size }
        requires backends { (1 ≤ backends) × (backends ≤ 64) }
        ensures { IfOk result (λ ring. ring ≡ empty_queue size backends 0) }
    {
        Ring::starting_at(alloc, size, backends, 0)
    }

    /// The same with the number that its first message gets. Conditions: those of [`Ring::new`], and the
    /// number is below 262,144 times the size.
    pub fn starting_at(
        alloc: Global,
        size: u32,
        backends: u32,
        number: u64,
    ) -> Result<Ring, NoMemory>
        requires size { IsQueueSize size }
        requires backends { (1 ≤ backends) × (backends ≤ 64) }
        requires number { number < size * 262144 }
        ensures { IfOk result (λ ring. ring ≡ empty_queue size backends number) }
    {
        let window = Window::new(alloc, size)?;
        let mut readers = Vec::new(alloc);
        readers.reserve(backends as usize + 1)?;
        add_inactive(&mut readers, backends as usize + 1);
        Ok(Ring {
            window,
            first: GhostValue::of(&number),
            max: number,
            min: number,
            threshold: u64::from(size) / 2,
            readers,
        })
    }

    /// A backend becomes active, past all messages so far (`SharedInvalBackendInit`). Conditions: the ring
    /// is made for it, and it isn't active.
    pub fn start(&mut self, b: u32)
        requires backend { (1 ≤ b) × (b < length self.old.readers) }
        requires inactive { is_active (reader_of self.old b) ≡ false }
        ensures { self.new ≡ with_reader self.old b (At (length self.old.log) false) }
    {
        let Ring { max, readers, .. } = self;
        readers[b as usize] = Reader::At {
            position: *max,
            signaled: false,
        };
    }

    /// An active backend becomes inactive (`CleanupInvalidationState`). Condition: it is active.
    pub fn stop(&mut self, b: u32)
        requires active { IsTrue (is_active (reader_of self.old b)) }
        ensures { self.new ≡ with_reader self.old b Inactive }
    {
        self.readers[b as usize] = Reader::Inactive;
    }

    /// How many backends the queue is made for.
    pub fn backends(&self) -> u32
        ensures { length self.now.readers ≡ result + 1 }
    {
        (self.readers.len() - 1) as u32
    }

    /// The number of the next message to be inserted (`maxMsgNum` of `SISeg`). It differs from the first
    /// number and the count of all messages inserted since by a multiple of the wraparound.
    pub fn number(&self) -> u64
        ensures number { result ≡ number_of self.now }
        ensures below { result < wraparound self.now.size + self.now.size }
        ensures wrapped { result % wraparound self.now.size ≡ (self.now.from + length self.now.log) % wraparound self.now.size }
    {
        self.max
    }

    /// Whether a backend is active.
    pub fn is_active(&self, b: u32) -> bool
        ensures { result ≡ is_active (reader_of self.now b) }
    {
        reader_at(&self.readers, b).is_active()
    }

    /// Whether an active backend has something to fetch: it is in reset state, or messages wait for it.
    /// Of one that isn't active: no. (`hasMessages` of its `ProcState`.)
    pub fn has(&self, b: u32) -> bool
        ensures { result ≡ is_behind (length self.now.log) (reader_of self.now b) }
    {
        reader_at(&self.readers, b).is_behind(self.max)
    }

    /// Gives a backend its next messages, at most 32, and moves it past them (`SIGetDataEntries`).
    /// `Reset`: exactly where it is in reset state, which ends; it is past all messages then, and gets
    /// none. `Messages(0)`: exactly where it isn't, and was past all. Conditions: it is active, and the
    /// buffer is empty.
    pub fn fetch(&mut self, b: u32, into: &mut ArrayVec<Message, 32>) -> Fetched
        requires active { IsTrue (is_active (reader_of self.old b)) }
        requires empty { into.old.items ≡ [] }
        ensures answer { result ≡ fetched (length self.old.log) (reader_of self.old b) }
        ensures given { into.new.items ≡ given_to self.old.log (reader_of self.old b) }
        ensures queue { self.new ≡ with_reader self.old b (after_fetch (length self.old.log) (reader_of self.old b)) }
    {
        let Ring {
            window,
            max,
            readers,
            ..
        } = self;
        let reader = readers[b as usize];
        readers[b as usize] = reader.after_fetch(*max);
        if let Reader::At { position, .. } = reader {
            let behind = *max - position;
            window.copy(behind, into);
            return Fetched::Messages(MOST_FETCHED.min(behind) as u32);
        }
        Fetched::Reset
    }

    /// Inserts messages, after a cleanup where there is no room for them or the threshold is reached
    /// (`SIInsertDataEntries`). Exactly those readers are put into reset state that wait for a message
    /// which the queue can't keep beside the new ones. Condition: 1 to 64 messages.
    pub fn insert(&mut self, quantum: &[Message]) -> Cleaned
        requires { (1 ≤ length quantum.now) × (length quantum.now ≤ 64) }
        ensures queue { self.new ≡ inserted self.old quantum.now }
        ensures answer { result ≡ room_answer self.old (length quantum.now) }
        ensures lapped { (b : ℕ) → unmarked (reader_of self.new b) ≡ unmarked (swept (length self.new.log - self.new.size) (reader_of self.old b)) }
        ensures kept { (b : ℕ) → IsKeptFor self.new 0 (reader_of self.new b) }
    {
        let cleaned = self.make_room(quantum.len() as u32);
        let Ring { window, max, .. } = self;
        window.append(quantum);
        *max += quantum.len() as u64;
        cleaned
    }

    // Makes room for so many messages. The server goes on while it has to clean, but a cleanup leaves room
    // for them and fewer messages than the next threshold, so that there is never a second one.
    fn make_room(&mut self, count: u32) -> Cleaned
        requires { count ≤ 64 }
        ensures queue { self.new ≡ made_room self.old count }
        ensures answer { result ≡ room_answer self.old count }
        ensures done { must_clean self.new count ≡ false }
        ensures room { length self.new.log + count ≤ self.new.least + self.new.size }
        ensures lapped { (b : ℕ) → unmarked (reader_of self.new b) ≡ unmarked (swept (length self.old.log + count - self.old.size) (reader_of self.old b)) }
    {
        let filled = self.max - self.min;
        if filled + u64::from(count) > self.window.size() || filled >= self.threshold {
            self.clean(count)
        } else {
            Cleaned {
                ran: false,
                reset: 0,
                signal: None,
            }
        }
    }

    /// Puts the readers into reset state that are too far back for a queue with room for so many more
    /// messages, and names one of the others, far back, to be signaled (`SICleanupQueue`). All others go
    /// on, and no second cleanup is needed for so many messages. Condition: room for 64 at most.
    pub fn clean(&mut self, min_free: u32) -> Cleaned
        requires { min_free ≤ 64 }
        ensures queue { self.new ≡ cleaned self.old min_free }
        ensures answer { result ≡ cleaned_answer self.old min_free }
        ensures lapped { (b : ℕ) → unmarked (reader_of self.new b) ≡ unmarked (swept (length self.old.log + min_free - self.old.size) (reader_of self.old b)) }
        ensures kept { (b : ℕ) → IsKeptFor self.new min_free (reader_of self.new b) }
        ensures done { must_clean self.new min_free ≡ false }
    {
        let Ring {
            window,
            max,
            min,
            threshold,
            readers,
            ..
        } = self;
        let readers = readers.as_mut_slice();
        let size = window.size();
        let low = (*max + u64::from(min_free)).saturating_sub(size);
        let reset = bits_below(low, readers);
        sweep(low, readers);
        let least = least_position(*max, readers);
        *threshold = next_threshold(size, *max - least);
        let signal = furthest_back(max.saturating_sub(size / 2), readers);
        mark(signal, readers);
        let wrap = wrap_at(size, least);
        move_back(wrap, readers);
        *min = least - wrap;
        *max -= wrap;
        Cleaned {
            ran: true,
            reset,
            signal,
        }
    }
}

// Adds so many readers that take no part, for which there is room.
fn add_inactive(readers: &mut Vec<Reader>, count: usize)
    requires { vec_len readers.old + count ≤ vec_capacity readers.old }
    ensures { readers.new.items ≡ readers.old.items ++ replicate count Inactive }
{
    for i in 0..count {
        readers.push_reserved(Reader::Inactive);
    }
}
