use crate::boards::{Board, Plan, gates_on};
use crate::inputs::script_of;
use base_types::NoMemory;
use edge_io::{Gate, StopGate, open_gates};
use event_kinds::{Entry, Event};
use std::alloc::Global;
use std::sync::Wait;
use std::test::Fail;
use std::thread::Threads;
use thread_run::{Ran, RunRefusal, run};

// Two backends, which answer the same in whatever order they work.
const TWO: &[u8] = b"\
backends 2
1: begin
1: create table t (a int4)
1: commit
2: create table u (b text, c int8)
2: drop table u
end
";

// What the run of a script makes with these gates; nothing where a gate stops it.
fn ran<R: Threads + Wait + Sync, G: Gate>(
    rt: &R,
    alloc: Global,
    text: &[u8],
    gates: &mut Vec<G>,
) -> Result<Option<Ran>, NoMemory> {
    let script = script_of(alloc, text)?;
    if gates.len() < script.backends() as usize {
        return Err(NoMemory);
    }
    match run(rt, alloc, &script, gates) {
        Ok(ran) => Ok(Some(ran)),
        Err(RunRefusal::Stopped) => Ok(None),
        Err(RunRefusal::NoMemory) => Err(NoMemory),
    }
}

#[test]
fn each_backend_of_a_run_answers_all_its_commands(rt: HostRuntime) -> Result<(), Fail> {
    let mut gates = open_gates(rt.alloc(), 3)?;
    let made = ran(&rt, rt.alloc(), TWO, &mut gates)?;
    assert!(rt; gates.len() == 3 && made.is_some());
    if let Some(ran) = made {
        assert!(rt; ran.backends.as_slice().len() == 2 && ran.lines.as_slice().len() == 5);
        for line in ran.lines.as_slice() {
            assert!(rt; line.text.as_bytes() == b"ok".as_slice());
        }
    }
    Ok(())
}

#[test]
fn a_gate_stops_a_run_at_each_of_its_passes(rt: HostRuntime) -> Result<(), Fail> {
    for pass in 1..=5u64 {
        let mut gates = Vec::new(rt.alloc());
        gates.push(StopGate::new(pass))?;
        gates.push(StopGate::new(0))?;
        let stopped = ran(&rt, rt.alloc(), TWO, &mut gates)?.is_none();
        // three commands, and the gate is asked once more after the last one
        assert!(rt; gates.len() == 2 && stopped == (pass <= 4));
    }
    Ok(())
}

// Backends of three commands, of one, and of none.
const UNEQUAL: &[u8] = b"\
backends 3
1: begin
1: create table t (a int4)
1: rollback
2: show t
end
";

#[test]
fn a_gate_is_asked_before_each_command_of_its_backend(rt: HostRuntime) -> Result<(), Fail> {
    let board = Board::new(rt.alloc())?;
    // a gate more than there are backends
    let mut gates = gates_on(rt.alloc(), &board, &[Plan::Open; 4])?;
    let made = ran(&rt, rt.alloc(), UNEQUAL, &mut gates)?;
    assert!(rt; made.is_some() && gates.len() == 4);
    // once more than its backend has commands; the one that is left over isn't asked
    for (gate, times) in [(1, 4), (2, 2), (3, 1), (4, 0)] {
        assert!(rt; board.was_asked(&rt, gate, times), "{gate}");
    }
    Ok(())
}

// Three backends of two commands each.
const THREE: &[u8] = b"\
backends 3
1: create table t (a int4)
1: create table u (a int4)
2: create table v (a int4)
2: create table w (a int4)
3: create table x (a int4)
3: create table y (a int4)
end
";

// Whether the entries for this command and those after it come after all others.
fn come_last(entries: &[Entry], command: u32) -> bool {
    let mut later = false;
    for entry in entries {
        if entry.command >= command {
            later = true;
        } else if later {
            return false;
        }
    }
    later
}

// The history of three backends of which none goes on to this command before each has come to it.
fn met<R: Threads + Wait + Sync>(
    rt: &R,
    alloc: Global,
    command: u32,
) -> Result<Option<Ran>, NoMemory> {
    let board = Board::new(alloc)?;
    let plan = Plan::Meet {
        from: command,
        backends: 3,
    };
    let mut gates = gates_on(alloc, &board, &[plan; 3])?;
    ran(rt, alloc, THREE, &mut gates)
}

// A gate waits in its backend's thread: backends that ran one after another would wait forever here. So each has
// made all entries of its command before another makes one of its next; and before it stops, at the third.
#[test]
fn backends_run_at_the_same_time(rt: HostRuntime) -> Result<(), Fail> {
    for command in 2..=3u32 {
        let made = met(&rt, rt.alloc(), command)?;
        let together = match &made {
            Some(ran) => come_last(ran.entries.as_slice(), command),
            None => false,
        };
        assert!(rt; together, "{command}");
    }
    Ok(())
}

// One backend has a table locked in its block; the other wants its lock.
const LOCKED: &[u8] = b"\
backends 2
1: create table t (a int4)
1: begin
1: lock table t in access exclusive mode
1: show t
1: commit
2: show t
2: begin
2: lock table t in access exclusive mode
2: commit
end
";

// The second backend waits for the command before which the first is stopped, in its block, and goes on then.
#[test]
fn a_run_ends_where_a_backend_is_stopped_in_its_block(rt: HostRuntime) -> Result<(), Fail> {
    for command in 3..=5u32 {
        let board = Board::new(rt.alloc())?;
        let after = Plan::After {
            command: 1,
            backend: 1,
            until: command,
        };
        let mut gates = gates_on(rt.alloc(), &board, &[Plan::Stop { command }, after])?;
        let stopped = ran(&rt, rt.alloc(), LOCKED, &mut gates)?.is_none();
        assert!(rt; stopped && board.was_asked(&rt, 1, command) && board.was_asked(&rt, 2, 5));
    }
    Ok(())
}

// How many blocks each of two backends begins, in which it does nothing.
const BLOCKS: u32 = 16;

fn blocks(alloc: Global) -> Result<String, NoMemory> {
    let mut text = String::from_str(alloc, "backends 2\n")?;
    for _block in 0..BLOCKS {
        text.push_str("1: begin\n1: commit\n2: begin\n2: commit\n")?;
    }
    text.push_str("end\n")?;
    Ok(text)
}

// How many looks there are, and how many of them stand directly before another entry of their backend.
fn looks(entries: &[Entry]) -> (u32, u32) {
    let mut all = 0u32;
    let mut followed = 0u32;
    for (entry, next) in entries.iter().zip(entries.iter().skip(1)) {
        if matches!(entry.event, Event::Look { .. }) {
            all = all.saturating_add(1);
            if next.backend == entry.backend {
                followed = followed.saturating_add(1);
            }
        }
    }
    (all, followed)
}

// A block makes two entries, a look as it begins and a release as it ends, and neither backend goes on to its next
// command before the other has come to its own. If a look took a turn, both looks would come before both releases.
// But a backend holds it back until the turn of its next entry: so it stands before that one, though the other
// backend looked meanwhile.
#[test]
fn a_look_takes_no_turn(rt: HostRuntime) -> Result<(), Fail> {
    let board = Board::new(rt.alloc())?;
    let plan = Plan::Meet {
        from: 1,
        backends: 2,
    };
    let mut gates = gates_on(rt.alloc(), &board, &[plan; 2])?;
    let text = blocks(rt.alloc())?;
    let made = ran(&rt, rt.alloc(), text.as_bytes(), &mut gates)?;
    let (all, followed) = match &made {
        Some(ran) => looks(ran.entries.as_slice()),
        None => (0, 0),
    };
    assert!(rt; all == 2 * BLOCKS && followed == all, "{followed} of {all}");
    Ok(())
}
