use crate::calls::walked;
use crate::inputs::script_of;
use backend_core::Backend;
use base_types::NoMemory;
use event_kinds::Line;
use script_text::Script;
use std::alloc::Global;
use std::sync::Wait;
use std::test::Fail;
use std::thread::Threads;
use walk_run::walk;

// Of each backend its answers in order, and whether it stops.
type Sessions = &'static [(&'static [&'static [u8]], bool)];

// Scripts and their sessions.
const SESSIONS: &[(&[u8], Sessions)] = &[
    (
        b"backends 2\n2: show u\n1: create table t (a int4)\n1: begin\nend\n",
        &[
            (&[b"ok", b"ok"], true),
            (&[b"error 42P01 relation u does not exist as of 15"], true),
        ],
    ),
    (
        b"\
backends 3
1: begin
2: begin
2: show t
2: commit
1: create table t (a int4)
3: begin
1: rollback
steps 1*2 2*6 1*1 3*1
end
",
        &[
            (&[b"ok", b"ok"], false),
            (
                &[
                    b"ok",
                    b"error 42P01 relation t does not exist as of 6",
                    b"rolled back",
                ],
                false,
            ),
            (&[], false),
        ],
    ),
];

// Whether these are the backends of all numbers from 1, with these answers and stops.
fn are_sessions(backends: &[Backend], wanted: Sessions) -> bool {
    if backends.len() != wanted.len() {
        return false;
    }
    for (i, backend) in backends.iter().enumerate() {
        if !is_session(backend, i, wanted) {
            return false;
        }
    }
    true
}

fn is_session(backend: &Backend, i: usize, wanted: Sessions) -> bool {
    match wanted.get(i) {
        Some((answers, stops)) => {
            backend.id() as usize == i.saturating_add(1)
                && backend.is_stopped() == *stops
                && has_answered(backend, answers)
        }
        None => false,
    }
}

// Whether the transcript of a backend has these answers to its first commands.
fn has_answered(backend: &Backend, answers: &[&[u8]]) -> bool {
    let lines = backend.transcript();
    if lines.len() != answers.len() {
        return false;
    }
    for (i, line) in lines.iter().enumerate() {
        if !is_answer(line, backend.id(), i, answers) {
            return false;
        }
    }
    true
}

fn is_answer(line: &Line, backend: u32, i: usize, answers: &[&[u8]]) -> bool {
    match answers.get(i) {
        Some(answer) => {
            line.backend == backend
                && line.command as usize == i.saturating_add(1)
                && line.text.as_bytes() == *answer
        }
        None => false,
    }
}

// Whether a walk of a script has these sessions.
fn walk_has_sessions(alloc: Global, script: &Script, wanted: Sessions) -> Result<bool, NoMemory> {
    Ok(are_sessions(walk(alloc, script)?.backends.as_slice(), wanted))
}

// The same of the script of a text, and of the top call.
fn walk_gives(alloc: Global, text: &[u8], wanted: Sessions) -> Result<bool, NoMemory> {
    let script = script_of(alloc, text)?;
    walk_has_sessions(alloc, &script, wanted)
}

fn top_call_gives<R: Threads + Wait + Sync>(
    rt: &R,
    alloc: Global,
    text: &[u8],
    wanted: Sessions,
) -> Result<bool, NoMemory> {
    Ok(are_sessions(&walked(rt, alloc, text)?.sessions, wanted))
}

#[test]
fn each_call_gives_the_sessions(rt: HostRuntime) -> Result<(), Fail> {
    for &(text, wanted) in SESSIONS {
        assert!(rt; walk_gives(rt.alloc(), text, wanted)?);
        assert!(rt; top_call_gives(&rt, rt.alloc(), text, wanted)?);
    }
    Ok(())
}
