//! What several tests begin with: sources and sinks in memory, and scripts.

ghost use Rattle.std.specs.Prelude.{◌≡◌, ◌∷◌, [], max, IfOk, IsOkAnd};
ghost use Rattle.script_text.specs.declared.fault.Rest.TheVariants.{Refused};
ghost use Rattle.script_text.specs.Grammar.{script_of as grammar_script};
ghost use Rattle.script_text.specs.Drafts.{Reads};

use base_types::NoMemory;
use edge_io::{MemorySink, MemorySource};
use script_text::{Rest, Script, ScriptFault, ScriptRead, read_script};
use std::alloc::Global;

/// How the calls of a source or a sink go.
#[derive(Clone, Copy)]
pub(crate) struct Calls {
    /// How many bytes a call takes at most; with 0 it is one.
    pub per_call: usize,
    /// The number of the call that fails, from 1; with 0 none does.
    pub failing: u64,
}

/// Whole pieces, and no call fails.
pub(crate) const STEADY: Calls = Calls {
    per_call: usize::MAX,
    failing: 0,
};

/// A source of a text.
pub(crate) fn source_of(alloc: Global, text: &[u8], calls: Calls) -> Result<MemorySource, NoMemory>
    ensures { IfOk result (λ source. source ≡ record { left = text.now; per_call = max calls.per_call 1; calls = record { failing = calls.failing ∷ []; made = 0; faults = 0 } }) }
{
    let failing = failing_calls(alloc, calls.failing)?;
    Ok(MemorySource::new(text.to_vec(alloc)?, calls.per_call.max(1), failing))
}

/// A sink with room.
pub(crate) fn sink_of(alloc: Global, calls: Calls) -> Result<MemorySink, NoMemory>
    ensures { IfOk result (λ sink. sink ≡ record { sent = []; room = 16777216; per_call = max calls.per_call 1; calls = record { failing = calls.failing ∷ []; made = 0; faults = 0 } }) }
{
    let failing = failing_calls(alloc, calls.failing)?;
    let mut sink = MemorySink::new(alloc, calls.per_call.max(1), failing);
    sink.ready()?;
    Ok(sink)
}

fn failing_calls(alloc: Global, number: u64) -> Result<Vec<u64>, NoMemory>
    ensures { IfOk result (λ numbers. numbers.items ≡ number ∷ []) }
{
    let mut numbers = Vec::new(alloc);
    numbers.push(number)?;
    Ok(numbers)
}

/// What is read of a text of at most 2,000,000 bytes.
pub(crate) fn read(alloc: Global, text: &[u8], rest: Rest) -> Result<ScriptRead, ScriptFault>
    ensures { Reads result (grammar_script rest text.now) }
{
    if text.len() > 2_000_000 {
        return Err(ScriptFault::NoMemory);
    }
    read_script(alloc, text, rest)
}

/// The script of such a text; another text has none.
pub(crate) fn script_of(alloc: Global, text: &[u8]) -> Result<Script, NoMemory>
    ensures { IfOk result (λ script. IsOkAnd (grammar_script Refused text.now) (λ read. read.script ≡ script)) }
{
    match read(alloc, text, Rest::Refused) {
        Ok(read) => Ok(read.script),
        Err(_) => Err(NoMemory),
    }
}
