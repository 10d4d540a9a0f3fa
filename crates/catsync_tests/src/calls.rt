// The top call over a source and a sink in memory.

ghost use Rattle.std.specs.Prelude.{◌≤◌, length, IfOk};

use crate::inputs::{Calls, STEADY, sink_of, source_of};
use backend_core::Backend;
use base_types::NoMemory;
use catsync_top::{MOST_BACKENDS, Status, catsync};
use edge_io::{Gate, MemorySink, MemorySource, OpenGate, open_gates};
use std::alloc::Global;
use std::sync::Wait;
use std::thread::Threads;

// What a call came to: how it ended, what was written, and the backends that were run.
#[derive(Drop)]
pub(crate) struct Outcome {
    pub(crate) status: Status,
    pub(crate) sink: MemorySink,
    pub(crate) sessions: Vec<Backend>,
}

impl Outcome {
    pub(crate) fn sent(&self) -> &[u8] {
        self.sink.sent()
    }

    // Whether all of this was written.
    pub(crate) fn gave(&self, text: &[u8]) -> bool {
        matches!(self.status, Status::Done) && self.sink.sent() == text
    }
}

// The top call with these arguments, over a script and a sink whose calls go so.
pub(crate) fn called<R: Threads + Wait + Sync>(
    rt: &R,
    alloc: Global,
    words: &[&str],
    script: &[u8],
    reads: Calls,
    writes: Calls,
) -> Result<Outcome, NoMemory> {
    let mut gates = gates_of(alloc)?;
    let arguments = arguments_of(alloc, words)?;
    let mut source = source_of(alloc, script, reads)?;
    let sink = sink_of(alloc, writes)?;
    Ok(ended(rt, alloc, &arguments, &mut source, sink, &mut gates))
}

// What `walk` makes of a script.
pub(crate) fn walked<R: Threads + Wait + Sync>(
    rt: &R,
    alloc: Global,
    script: &[u8],
) -> Result<Outcome, NoMemory> {
    called(rt, alloc, &["walk"], script, STEADY, STEADY)
}

// A run of a script with these gates; out of memory where there are too few.
pub(crate) fn run_at_gates<R: Threads + Wait + Sync, G: Gate>(
    rt: &R,
    alloc: Global,
    script: &[u8],
    gates: &mut Vec<G>,
) -> Result<Outcome, NoMemory> {
    if gates.len() < MOST_BACKENDS as usize {
        return Err(NoMemory);
    }
    let arguments = arguments_of(alloc, &["run"])?;
    let mut source = source_of(alloc, script, STEADY)?;
    let sink = sink_of(alloc, STEADY)?;
    Ok(ended(rt, alloc, &arguments, &mut source, sink, gates))
}

fn ended<R: Threads + Wait + Sync, G: Gate>(
    rt: &R,
    alloc: Global,
    arguments: &[String],
    source: &mut MemorySource,
    mut sink: MemorySink,
    gates: &mut Vec<G>,
) -> Outcome
    requires { MOST_BACKENDS ≤ length gates.old.items }
{
    let mut sessions = Vec::new(alloc);
    let status = catsync(
        rt,
        alloc,
        arguments,
        source,
        &mut sink,
        gates,
        &mut sessions,
    );
    Outcome {
        status,
        sink,
        sessions,
    }
}

// A gate for each backend that there may be.
fn gates_of(alloc: Global) -> Result<Vec<OpenGate>, NoMemory>
    ensures { IfOk result (λ gates. MOST_BACKENDS ≤ length gates.items) }
{
    Ok(open_gates(alloc, MOST_BACKENDS as usize)?)
}

fn arguments_of(alloc: Global, words: &[&str]) -> Result<Vec<String>, NoMemory> {
    let mut arguments = Vec::new(alloc);
    for word in words {
        arguments.push(String::from_str(alloc, word)?)?;
    }
    Ok(arguments)
}
