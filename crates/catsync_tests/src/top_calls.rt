use crate::calls::{Outcome, called, walked};
use crate::inputs::{Calls, STEADY};
use base_types::NoMemory;
use catsync_top::Status;
use script_text::ScriptCause;
use std::alloc::Global;
use std::sync::Wait;
use std::test::Fail;
use std::thread::Threads;

// A table that isn't there.
pub(crate) const ABSENT: &[u8] = b"backends 1\n1: show t\nend\n";

pub(crate) const ABSENT_OUTPUT: &[u8] = b"\
h 1 0 start
h 1 1 look no
h 1 1 look no
h 1 1 scan relname t rows 0
h 1 1 look no
h 1 1 release 1
h 1 2 stop
l 1 1 error 42P01 relation t does not exist as of 4
end
";

// The same script, and another spelling of it.
const SPELLINGS: &[&[u8]] = &[ABSENT, b"-- x\n\nBACKENDS 1\r\n\t1 : Show T ;\nEND"];

// Whether `walk` ends well with this output.
fn gives<R: Threads + Wait + Sync>(
    rt: &R,
    alloc: Global,
    script: &[u8],
    output: &[u8],
) -> Result<bool, NoMemory> {
    Ok(walked(rt, alloc, script)?.gave(output))
}

#[test]
fn an_absent_table_is_shown(rt: HostRuntime) -> Result<(), Fail> {
    for &script in SPELLINGS {
        assert!(rt; gives(&rt, rt.alloc(), script, ABSENT_OUTPUT)?);
    }
    Ok(())
}

// How a call ended, and how many bytes of the output it wrote; other bytes are none.
fn ending(outcome: &Outcome, output: &[u8]) -> (u8, usize) {
    let sent = outcome.sent();
    let count = if output.starts_with(sent) {
        sent.len()
    } else {
        usize::MAX
    };
    (outcome.status.exit_code(), count)
}

fn ending_of<R: Threads + Wait + Sync>(
    rt: &R,
    alloc: Global,
    reads: Calls,
    writes: Calls,
) -> Result<(u8, usize), NoMemory> {
    let outcome = called(rt, alloc, &["walk"], ABSENT, reads, writes)?;
    Ok(ending(&outcome, ABSENT_OUTPUT))
}

// The ends of a call whose source or whose sink fails in the call of this number, from 0.
fn ends_by_reads<R: Threads + Wait + Sync>(
    rt: &R,
    alloc: Global,
    per_call: usize,
    number: usize,
) -> Result<(u8, usize), NoMemory> {
    let failing = (number as u64).saturating_add(1);
    ending_of(rt, alloc, Calls { per_call, failing }, STEADY)
}

fn ends_by_writes<R: Threads + Wait + Sync>(
    rt: &R,
    alloc: Global,
    per_call: usize,
    number: usize,
) -> Result<(u8, usize), NoMemory> {
    let failing = (number as u64).saturating_add(1);
    ending_of(rt, alloc, STEADY, Calls { per_call, failing })
}

// A call reads the script, and then once more to find its end.
#[test]
fn a_source_fails_at_each_call_in_turn(rt: HostRuntime) -> Result<(), Fail> {
    let (bytes, all) = (ABSENT.len(), ABSENT_OUTPUT.len());
    for number in 0..bytes {
        assert!(rt;
            ends_by_reads(&rt, rt.alloc(), 1, number)? == (4, 0),
            "at {number}"
        );
    }
    assert!(rt; ends_by_reads(&rt, rt.alloc(), 1, bytes)? == (4, 0));
    assert!(rt; ends_by_reads(&rt, rt.alloc(), 1, bytes.saturating_add(1))? == (0, all));
    for (number, wanted) in [(4, 0), (4, 0), (0, all)].iter().enumerate() {
        assert!(rt;
            ends_by_reads(&rt, rt.alloc(), 5000, number)? == *wanted,
            "at {number}"
        );
    }
    Ok(())
}

#[test]
fn a_sink_fails_at_each_call_in_turn(rt: HostRuntime) -> Result<(), Fail> {
    let all = ABSENT_OUTPUT.len();
    for taken in 0..all {
        assert!(rt;
            ends_by_writes(&rt, rt.alloc(), 1, taken)? == (5, taken),
            "after {taken}"
        );
    }
    assert!(rt; ends_by_writes(&rt, rt.alloc(), 1, all)? == (0, all));
    for (number, wanted) in [(5, 0), (0, all)].iter().enumerate() {
        assert!(rt;
            ends_by_writes(&rt, rt.alloc(), 5000, number)? == *wanted,
            "at {number}"
        );
    }
    Ok(())
}

// What is said of a line that breaks a rule.
const CAUSES: &[(ScriptCause, &str)] = &[
    (
        ScriptCause::BadByte,
        "BadByte: the line holds a byte that is neither printable ASCII nor a tab",
    ),
    (
        ScriptCause::BadRing,
        "BadRing: a ring line must come first and read 'ring N' or 'ring N from M', with N a power of two from 64 to 4096 and M below 262144 times N",
    ),
    (
        ScriptCause::NoBackends,
        "NoBackends: the first line, but for a ring line, must read 'backends N'",
    ),
    (
        ScriptCause::BadCount,
        "BadCount: a backends line must read 'backends N' with N from 1 to 64",
    ),
    (
        ScriptCause::NoEnd,
        "NoEnd: the input ends without an 'end' line",
    ),
    (
        ScriptCause::BadSteps,
        "BadSteps: a steps line must name backends of the script, as B or B*COUNT with COUNT from 1 to 1000000",
    ),
    (
        ScriptCause::TooManySteps,
        "TooManySteps: the script has more than 1000000 steps",
    ),
    (
        ScriptCause::UnknownBackend,
        "UnknownBackend: a command line must begin with a backend of the script and a colon",
    ),
    (
        ScriptCause::LateCommand,
        "LateCommand: no command may follow a steps line",
    ),
    (
        ScriptCause::BadCommand,
        "BadCommand: the line has none of the forms of a command",
    ),
    (
        ScriptCause::TooManyCommands,
        "TooManyCommands: the script has more than 20000 commands",
    ),
    (
        ScriptCause::AfterEnd,
        "AfterEnd: only blank lines and comments may follow the 'end' line",
    ),
];

// What is said of the other ends of a call.
const STATUSES: &[(Status, &str)] = &[
    (Status::Done, "done"),
    (
        Status::Usage,
        "the arguments are none of walk, run, check walk, check run, and make N with N from 1 to 1000",
    ),
    (
        Status::TooLong,
        "the input has more than 1048576 bytes, or 268435456 for check",
    ),
    (Status::Differs { entry: 16 }, "entry 16 differs"),
    (Status::ReadFault, "reading failed"),
    (Status::WriteFault, "writing failed"),
    (Status::NoMemory, "want of memory"),
    (Status::Stopped, "stopped"),
];

// Whether this is said of a status.
fn is_said(alloc: Global, status: Status, text: &str) -> Result<bool, NoMemory> {
    Ok(format!(in alloc; "{status}")?.as_str() == text)
}

fn is_said_of_line(alloc: Global, cause: ScriptCause, text: &str) -> Result<bool, NoMemory> {
    let said = format!(in alloc; "line 7: {text}")?;
    is_said(alloc, Status::BadScript { line: 7, cause }, said.as_str())
}

#[test]
fn each_cause_has_its_text(rt: HostRuntime) -> Result<(), Fail> {
    for &(cause, text) in CAUSES {
        assert!(rt; is_said_of_line(rt.alloc(), cause, text)?, "{text}");
    }
    Ok(())
}

#[test]
fn each_status_has_its_text(rt: HostRuntime) -> Result<(), Fail> {
    for &(status, text) in STATUSES {
        assert!(rt; is_said(rt.alloc(), status, text)?, "{text}");
    }
    Ok(())
}
