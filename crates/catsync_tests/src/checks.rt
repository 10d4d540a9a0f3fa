use crate::calls::{Outcome, called};
use crate::inputs::{Calls, STEADY};
use crate::top_calls::{ABSENT, ABSENT_OUTPUT};
use base_types::NoMemory;
use catsync_top::Status;
use std::alloc::Global;
use std::sync::Wait;
use std::test::Fail;
use std::thread::Threads;

// What a check of this kind makes of a script and its output, where the calls of its sink go so.
fn checked<R: Threads + Wait + Sync>(
    rt: &R,
    alloc: Global,
    kind: &str,
    writes: Calls,
) -> Result<Outcome, NoMemory> {
    let mut input = ABSENT.to_vec(alloc)?;
    input.extend_from_slice(ABSENT_OUTPUT)?;
    called(rt, alloc, &["check", kind], &input, STEADY, writes)
}

#[test]
fn an_output_is_checked(rt: HostRuntime) -> Result<(), Fail> {
    for kind in ["walk", "run"] {
        let outcome = checked(&rt, rt.alloc(), kind, STEADY)?;
        assert!(rt; outcome.gave(b"checked 7 entries\n") && outcome.sessions.is_empty());
    }
    Ok(())
}

#[test]
fn of_an_output_that_differs_nothing_is_written(rt: HostRuntime) -> Result<(), Fail> {
    let outcome = called(&rt, rt.alloc(), &["check", "walk"], ABSENT, STEADY, STEADY)?;
    assert!(rt; matches!(outcome.status, Status::Differs { entry: 1 }));
    assert!(rt; outcome.sent().is_empty() && outcome.sessions.is_empty());
    Ok(())
}

// A sink that fails in the call of this number, from 1, which takes so many bytes a call: what it took.
const FAILING: &[(usize, u64, &str)] = &[
    (100, 1, ""),
    (8, 1, ""),
    (8, 2, "checked "),
    (8, 3, "checked 7 entrie"),
];

#[test]
fn a_sink_fails_at_a_check(rt: HostRuntime) -> Result<(), Fail> {
    for &(per_call, failing, sent) in FAILING {
        let outcome = checked(&rt, rt.alloc(), "walk", Calls { per_call, failing })?;
        assert!(rt;
            outcome.status.exit_code() == 5 && outcome.sent() == sent.as_bytes(),
            "{sent}"
        );
    }
    Ok(())
}
