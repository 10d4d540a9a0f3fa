ghost use Rattle.std.specs.Prelude.{◌≡◌, ℕ, ◌≤◌, ◌<◌, length, min, take, drop, Some, IfOk, IsOkAnd, is_err};
ghost use Rattle.std.specs.Io.{ReadsAtMost};
ghost use Rattle.std.specs.Io.KnownBytes.{ReadConsumes};
ghost use Rattle.edge_io.specs.Causes.{HasCause};
ghost use Rattle.edge_io.specs.InMemory.{given, after_read, next_fails};

use crate::plans::Plan;
use crate::{Failed, Source};
use std::marker::Model;

// Copies the first bytes of `from` to the start of `into`, at most so many, and says how many.
fn give(from: &[u8], into: &mut [u8], most: usize) -> usize
    ensures count { result ≡ min (min (length into.old) most) (length from.now) }
    ensures bytes { take result into.new ≡ take result from.now }
{
    let count = into.len().min(most).min(from.len());
    into[..count].copy_from_slice(&from[..count]);
    count
}

/// A source in memory that gives at most so many bytes in a call, and whose calls fail by their
/// numbers.
#[derive(Drop)]
pub struct MemorySource {
    bytes: Vec<u8>,
    at: usize,
    per_call: usize,
    plan: Plan,
}

impl Model for MemorySource {
    ghost use Rattle.std.specs.Prelude.{◌≤◌, ◌<◌, drop, vec_len};
    ghost use Rattle.edge_io.specs.InMemory.{Giving};

    ghost Value = { Giving };

    ghost view = { λ source. record { left = drop source.at source.bytes.items; per_call = source.per_call; calls = source.plan } };

    ghost invariant = { λ source. (source.at ≤ vec_len source.bytes) × (0 < source.per_call) };
}

impl MemorySource {
    /// A source of `bytes` that gives at most `per_call` in a call; the calls with the numbers
    /// `failing`, from 1, fail.
    pub fn new(bytes: Vec<u8>, per_call: usize, failing: Vec<u64>) -> MemorySource
        requires { 0 < per_call }
        ensures { result ≡ record { left = bytes.items; per_call = per_call; calls = record { failing = failing.items; made = 0; faults = 0 } } }
    {
        MemorySource {
            bytes,
            at: 0,
            per_call,
            plan: Plan::new(failing),
        }
    }
}

impl Source for MemorySource {
    ghost left = { λ source. Some source.left };

    ghost faults = { λ source. source.calls.faults };

    fn read(&mut self, into: &mut [u8]) -> Result<usize, Failed>
        ensures short { ReadsAtMost result into.new }
        ensures bytes { ReadConsumes (Some self.old.left) (Some self.new.left) result into.new }
        ensures cause { HasCause self.old.calls.faults self.new.calls.faults result }
        ensures ok { IfOk result (λ count. count ≡ given self.old (length into.old)) }
        ensures err { is_err result ≡ next_fails self.old.calls }
        ensures after { self.new ≡ after_read self.old (length into.old) }
    {
        self.plan.call()?;
        let count = give(&self.bytes[self.at..], into, self.per_call);
        self.at += count;
        Ok(count)
    }
}

/// A source in memory that never fails and gives as much as a piece has room for.
#[derive(Drop)]
pub struct SteadySource {
    bytes: Vec<u8>,
    at: usize,
}

impl Model for SteadySource {
    ghost use Rattle.std.specs.Prelude.{ℕ, List, ◌≤◌, drop, vec_len};

    ghost Value = { List ℕ };

    ghost view = { λ source. drop source.at source.bytes.items };

    ghost invariant = { λ source. source.at ≤ vec_len source.bytes };
}

impl SteadySource {
    /// A source of `bytes`.
    pub fn new(bytes: Vec<u8>) -> SteadySource
        ensures { result ≡ bytes.items }
    {
        SteadySource { bytes, at: 0 }
    }
}

impl Source for SteadySource {
    ghost left = { λ source. Some source };

    ghost faults = { λ _. 0 };

    fn read(&mut self, into: &mut [u8]) -> Result<usize, Failed>
        ensures short { ReadsAtMost result into.new }
        ensures bytes { ReadConsumes (Some self.old) (Some self.new) result into.new }
        ensures cause { HasCause 0 0 result }
        ensures ok { IsOkAnd result (λ count. (count ≡ min (length into.old) (length self.old)) × (self.new ≡ drop count self.old)) }
    {
        let count = give(&self.bytes[self.at..], into, usize::MAX);
        self.at += count;
        Ok(count)
    }
}
