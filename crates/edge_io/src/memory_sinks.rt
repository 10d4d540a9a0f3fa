ghost use Rattle.std.specs.Prelude.{◌≡◌, ◌<◌, ◌≤◌, false, [], length, take, Some, IfOk, IsOkAnd, OnOk, OnErr, is_err};
ghost use Rattle.edge_io.specs.Causes.{HasCause};
ghost use Rattle.edge_io.specs.Taken.{Takes, TakesSome};
ghost use Rattle.edge_io.specs.InMemory.{wanted, write_fails, after_write, told, after_piece};

use crate::plans::Plan;
use crate::{Failed, Sink};
use base_types::NoMemory;
use std::alloc::Global;
use std::marker::Model;

/// How many bytes a [`MemorySink`] has room for: 16 MiB.
pub const MEMORY_SINK_ROOM: usize = 16_777_216;

/// A sink in memory that takes at most so many bytes in a call, and whose calls fail by their
/// numbers. It has no room before [`MemorySink::ready`], and a write beyond its room fails.
#[derive(Drop)]
pub struct MemorySink {
    sent: Vec<u8>,
    room: usize,
    per_call: usize,
    plan: Plan,
}

impl Model for MemorySink {
    ghost use Rattle.std.specs.Prelude.{◌≤◌, ◌<◌, vec_len, vec_capacity};
    ghost use Rattle.edge_io.specs.InMemory.{Taking};

    ghost Value = { Taking };

    ghost view = { λ sink. record { sent = sink.sent.items; room = sink.room; per_call = sink.per_call; calls = sink.plan } };

    ghost invariant = { λ sink. (vec_len sink.sent ≤ sink.room) × (sink.room ≤ vec_capacity sink.sent) × (sink.room ≤ 16777216) × (0 < sink.per_call) };
}

impl MemorySink {
    /// A sink that takes at most `per_call` bytes in a call; the calls with the numbers `failing`,
    /// from 1, fail. It takes no memory.
    pub fn new(alloc: Global, per_call: usize, failing: Vec<u64>) -> MemorySink
        requires { 0 < per_call }
        ensures { result ≡ record { sent = []; room = 0; per_call = per_call; calls = record { failing = failing.items; made = 0; faults = 0 } } }
    {
        MemorySink {
            sent: Vec::new(alloc),
            room: 0,
            per_call,
            plan: Plan::new(failing),
        }
    }

    /// Takes the memory for its room; out of memory, nothing changes.
    pub fn ready(&mut self) -> Result<(), NoMemory>
        ensures ok { OnOk result (self.new ≡ record self.old { room = 16777216 }) }
        ensures err { OnErr result (self.new ≡ self.old) }
    {
        self.sent.reserve(MEMORY_SINK_ROOM - self.sent.len())?;
        self.room = MEMORY_SINK_ROOM;
        Ok(())
    }

    /// The bytes that it has taken.
    pub fn sent(&self) -> &[u8]
        ensures { result.now ≡ self.now.sent }
    {
        &self.sent
    }
}

impl Sink for MemorySink {
    ghost taken = { λ sink. Some sink.sent };

    ghost faults = { λ sink. sink.calls.faults };

    fn write(&mut self, from: &[u8]) -> Result<usize, Failed>
        ensures short { TakesSome result from.now }
        ensures bytes { Takes (Some self.old.sent) (Some self.new.sent) result from.now }
        ensures cause { HasCause self.old.calls.faults self.new.calls.faults result }
        ensures ok { IfOk result (λ count. count ≡ wanted self.old from.now) }
        ensures err { is_err result ≡ write_fails self.old from.now }
        ensures after { self.new ≡ after_write self.old from.now }
    {
        self.plan.call()?;
        let count = from.len().min(self.per_call);
        if self.room - self.sent.len() < count {
            self.plan.fault();
            return Err(Failed);
        }
        self.sent.extend_from_slice(&from[..count]).unwrap();
        Ok(count)
    }
}

/// A sink in memory that never fails and takes the whole of each piece. It keeps the bytes that fit
/// its room; a byte past the room is taken and not kept, and from then on it tells nothing.
#[derive(Drop)]
pub struct SteadySink {
    kept: Vec<u8>,
    room: usize,
    overran: bool,
}

impl Model for SteadySink {
    ghost use Rattle.std.specs.Prelude.{◌≤◌, vec_len, vec_capacity};
    ghost use Rattle.edge_io.specs.InMemory.{Keeping};

    ghost Value = { Keeping };

    ghost view = { λ sink. record { kept = sink.kept.items; room = sink.room; overran = sink.overran } };

    ghost invariant = { λ sink. (vec_len sink.kept ≤ sink.room) × (sink.room ≤ vec_capacity sink.kept) };
}

impl SteadySink {
    /// A sink with no room, which takes no memory.
    pub fn new(alloc: Global) -> SteadySink
        ensures { result ≡ record { kept = []; room = 0; overran = false } }
    {
        SteadySink {
            kept: Vec::new(alloc),
            room: 0,
            overran: false,
        }
    }

    /// A sink with room for so many bytes.
    pub fn with_room(alloc: Global, bytes: usize) -> Result<SteadySink, NoMemory>
        ensures { IfOk result (λ sink. sink ≡ record { kept = []; room = bytes; overran = false }) }
    {
        Ok(SteadySink {
            kept: Vec::with_capacity(alloc, bytes)?,
            room: bytes,
            overran: false,
        })
    }

    /// The bytes that it keeps: all that it has taken, as long as they fit its room.
    pub fn sent(&self) -> &[u8]
        ensures { result.now ≡ self.now.kept }
    {
        &self.kept
    }
}

impl Sink for SteadySink {
    ghost taken = { told };

    ghost faults = { λ _. 0 };

    fn write(&mut self, from: &[u8]) -> Result<usize, Failed>
        ensures short { TakesSome result from.now }
        ensures bytes { Takes (told self.old) (told self.new) result from.now }
        ensures cause { HasCause 0 0 result }
        ensures ok { IsOkAnd result (λ count. count ≡ length from.now) }
        ensures after { self.new ≡ after_piece self.old from.now }
    {
        let room = self.room - self.kept.len();
        if room < from.len() {
            self.overran = true;
        }
        let count = from.len().min(room);
        self.kept.extend_from_slice(&from[..count]).unwrap();
        Ok(from.len())
    }
}
