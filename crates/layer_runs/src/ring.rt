//! What `bench/queue.sh` measures of the queue of messages, with room for 4,096 and 64 backends, the last of which never
//! reads: so many messages inserted 64 at a time (`batches`) or one at a time (`singles`), or inserted and fetched by
//! each of the other backends (`fetches`). It fails where memory does or a fetch gives anything but 32 messages.

use arrayvec::ArrayVec;
use base_types::{Fetched, Oid};
use inval_messages::Message;
use sinval_ring::Ring;
use std::alloc::Global;

// The most messages that are inserted.
const MOST_MESSAGES: u64 = 1 << 40;

// The backends that read.
const READERS: u32 = 63;

// After how many messages, where insertions alone are measured, the readers are moved to the end.
const KEPT_BEHIND: u64 = 2048;

const MESSAGE: Message = Message::Rel { rel: Oid(16384) };

/// What is done with the messages.
#[derive(Clone, Copy)]
pub(crate) enum Task {
    Batches,
    Singles,
    Fetches,
}

impl Task {
    /// The task that an argument names.
    pub fn named(word: &str) -> Option<Task> {
        match word {
            "batches" => Some(Task::Batches),
            "singles" => Some(Task::Singles),
            "fetches" => Some(Task::Fetches),
            _ => None,
        }
    }
}

/// Does a task with so many messages.
pub(crate) fn run(alloc: Global, task: Task, count: u64) -> Option<()> {
    let mut queue = new_queue(alloc)?;
    queue.start_all();
    match task {
        Task::Batches => queue.insert_all(count / KEPT_BEHIND, KEPT_BEHIND / 64, &[MESSAGE; 64]),
        Task::Singles => queue.insert_all(count / KEPT_BEHIND, KEPT_BEHIND, &[MESSAGE; 1]),
        Task::Fetches => queue.fetch_all(count),
    }
}

// The queue, and how many messages were inserted.
#[derive(Drop)]
struct Queue {
    ring: Ring,
    inserted: u64,
}

fn new_queue(alloc: Global) -> Option<Queue> {
    let ring = Ring::new(alloc, 4096, READERS + 1).ok()?;
    Some(Queue { ring, inserted: 0 })
}

impl Queue {
    fn start(&mut self, b: u32) {
        let ring = &mut self.ring;
        if b > 0 && b <= ring.backends() && !ring.is_active(b) {
            ring.start(b);
        }
    }

    fn stop(&mut self, b: u32) {
        let ring = &mut self.ring;
        if ring.is_active(b) {
            ring.stop(b);
        }
    }

    fn start_all(&mut self) {
        for b in 1..READERS + 2 {
            self.start(b);
        }
    }

    // Moves all readers to the end: they leave and join again.
    fn catch_up(&mut self) {
        for b in 1..READERS + 1 {
            self.stop(b);
            self.start(b);
        }
    }

    fn insert(&mut self, messages: &[Message]) -> Option<()> {
        if messages.is_empty() || messages.len() > 64 || self.inserted > MOST_MESSAGES {
            return None;
        }
        let _ = self.ring.insert(messages);
        self.inserted += messages.len() as u64;
        Some(())
    }

    // Whether a fetch gives 32 messages.
    fn fetch(&mut self, b: u32) -> Option<()> {
        let ring = &mut self.ring;
        if !ring.is_active(b) {
            return None;
        }
        let mut buffer = ArrayVec::new();
        match ring.fetch(b, &mut buffer) {
            Fetched::Messages(32) => Some(()),
            _ => None,
        }
    }

    // Inserts messages so many times, and then moves the readers to the end; all that so many times.
    fn insert_all(&mut self, rounds: u64, turns: u64, messages: &[Message]) -> Option<()> {
        for _ in 0..rounds {
            for _ in 0..turns {
                self.insert(messages)?;
            }
            self.catch_up();
        }
        Some(())
    }

    // Inserts so many messages, of which each reader fetches all.
    fn fetch_all(&mut self, count: u64) -> Option<()> {
        let messages = [MESSAGE; 64];
        for _ in 0..count / 64 {
            self.insert(&messages)?;
            for b in 1..READERS + 1 {
                self.fetch(b)?;
                self.fetch(b)?;
            }
        }
        Some(())
    }
}
