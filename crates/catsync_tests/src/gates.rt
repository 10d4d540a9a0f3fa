use crate::boards::{Board, BoardGate, Plan, gates_on};
use crate::calls::{called, run_at_gates};
use crate::inputs::STEADY;
use base_types::NoMemory;
use catsync_top::MOST_BACKENDS;
use std::alloc::Global;
use std::sync::Wait;
use std::test::Fail;
use std::thread::Threads;

// Backends of two commands, of one, and of none.
const UNEQUAL: &str = "backends 3\n1: begin\n1: show t\n2: create table t (a int4)\nend\n";

// How often the gate of each is asked: before each command, and before it leaves.
const ASKED: &[(u32, u32)] = &[(1, 3), (2, 2), (3, 1)];

// A gate of the board for each backend that there may be, with these plans for the first ones.
fn gates_of<'a>(
    alloc: Global,
    board: &'a Board,
    plans: &[Plan],
) -> Result<Vec<BoardGate<'a>>, NoMemory> {
    let mut all = plans.to_vec(alloc)?;
    for _gate in all.len()..MOST_BACKENDS as usize {
        all.push(Plan::Open)?;
    }
    gates_on(alloc, board, &all)
}

// Whether a run that is stopped where one backend has come to a command ends so: nothing is written, all gates come back
// in their places, the one count rose, and the others were asked for all commands of theirs.
fn is_stopped_alone<R: Threads + Wait + Sync>(
    rt: &R,
    alloc: Global,
    backend: u32,
    command: u32,
) -> Result<bool, NoMemory> {
    let board = Board::new(alloc)?;
    let mut plans = [Plan::Open; 3];
    if let Some(plan) = plans.get_mut((backend as usize).saturating_sub(1)) {
        *plan = Plan::Stop { command };
    }
    let mut gates = gates_of(alloc, &board, &plans)?;
    let outcome = run_at_gates(rt, alloc, UNEQUAL.as_bytes(), &mut gates)?;
    let refused = outcome.status.exit_code() == 8
        && outcome.sent().is_empty()
        && outcome.sessions.is_empty();
    Ok(refused && are_back(&gates, backend) && were_asked(rt, &board, backend, command))
}

// Whether these are all gates in their places, of which that of one backend has stopped.
fn are_back(gates: &[BoardGate<'_>], stopped: u32) -> bool {
    for (i, gate) in gates.iter().enumerate() {
        let number = u32::try_from(i).unwrap_or(u32::MAX).saturating_add(1);
        if !gate.is(number, u32::from(number == stopped)) {
            return false;
        }
    }
    gates.len() == MOST_BACKENDS as usize
}

// Whether each gate was asked for all commands, and that of one backend to this one.
fn were_asked<R: Wait>(rt: &R, board: &Board, stopped: u32, command: u32) -> bool {
    for &(gate, times) in ASKED {
        let wanted = if gate == stopped { command } else { times };
        if !board.was_asked(rt, gate, wanted) {
            return false;
        }
    }
    true
}

#[test]
fn a_gate_stops_one_backend_at_each_command(rt: HostRuntime) -> Result<(), Fail> {
    for &(backend, times) in ASKED {
        for command in 1..=times {
            assert!(rt;
                is_stopped_alone(&rt, rt.alloc(), backend, command)?,
                "backend {backend} at {command}"
            );
        }
    }
    Ok(())
}

// Two backends that make the same table.
const SAME: &str = "backends 2\n1: create table t (a int4)\n2: create table t (b text)\nend\n";

// How an output ends where this backend is the first to make it.
const ENDS: &[(u32, &[u8])] = &[
    (
        1,
        b"l 1 1 ok\nl 2 1 error 42P07 relation t already exists\nend\n",
    ),
    (
        2,
        b"l 1 1 error 42P07 relation t already exists\nl 2 1 ok\nend\n",
    ),
];

// What a run of them writes where one backend begins its command when the other has finished its own, if a check
// finds it to be an output of a run.
fn written_after<R: Threads + Wait + Sync>(
    rt: &R,
    alloc: Global,
    first: u32,
) -> Result<Option<Vec<u8>>, NoMemory> {
    let board = Board::new(alloc)?;
    let after = Plan::After {
        command: 1,
        backend: first,
        until: 2,
    };
    let plans = if first == 1 {
        [Plan::Open, after]
    } else {
        [after, Plan::Open]
    };
    let mut gates = gates_of(alloc, &board, &plans)?;
    let outcome = run_at_gates(rt, alloc, SAME.as_bytes(), &mut gates)?;
    let mut input = SAME.as_bytes().to_vec(alloc)?;
    input.extend_from_slice(outcome.sent())?;
    let found = called(rt, alloc, &["check", "run"], &input, STEADY, STEADY)?;
    if found.status.exit_code() == 0 {
        Ok(Some(outcome.sent().to_vec(alloc)?))
    } else {
        Ok(None)
    }
}

// Of one script there is more than one output: who comes first makes the table.
#[test]
fn runs_of_one_script_differ(rt: HostRuntime) -> Result<(), Fail> {
    for &(first, end) in ENDS {
        let written = written_after(&rt, rt.alloc(), first)?;
        assert!(rt; written.is_some_and(|text| text.ends_with(end)), "{first}");
    }
    Ok(())
}
