ghost use Rattle.std.specs.Prelude.{◌≡◌, ◌<◌};

use base_types::{Mode, NoMemory, Oid};
use lock_modes::{Grant, Granted, LockRefusal, LockTable, OwnLocks};
use std::alloc::Global;
use std::test::Fail;

const REL: Oid = Oid(16384);

const OTHER: Oid = Oid(16385);

// A call on the table of all locks.
#[derive(Clone, Copy)]
enum Call {
    // A backend asks for a mode in a command.
    Ask(u32, u32, Oid, Mode),
    // Whether a backend holds a mode.
    Has(u32, Oid, Mode),
    // A backend gives up one lock.
    Unlock(u32, Oid, Mode),
    // A backend gives up what it was granted from a command on.
    Release(u32, u32),
    // What is prepared is granted.
    GrantPrepared,
}

// What a call is answered, and for a conflict the holder and the number of its mode.
type Answer = (&'static str, u32, u32);

const NEW: Answer = ("new", 0, 0);

const HELD: Answer = ("held", 0, 0);

const YES: Answer = ("yes", 0, 0);

const NO: Answer = ("no", 0, 0);

const DONE: Answer = ("done", 0, 0);

const NO_MEMORY: Answer = ("no memory", 0, 0);

fn answer(table: &mut LockTable, call: Call) -> Answer {
    match call {
        Call::Ask(backend, command, rel, mode) => asked(table, backend, command, rel, mode),
        Call::Has(backend, rel, mode) if table.holds(backend, rel, mode) => YES,
        Call::Has(..) => NO,
        Call::Unlock(backend, rel, mode) => unlocked(table, backend, rel, mode),
        Call::Release(backend, from) => {
            table.release(backend, from);
            DONE
        }
        Call::GrantPrepared => {
            table.grant_prepared();
            DONE
        }
    }
}

fn asked(table: &mut LockTable, backend: u32, command: u32, rel: Oid, mode: Mode) -> Answer {
    match table.request(backend, command, rel, mode) {
        Ok(Granted::New) => NEW,
        Ok(Granted::Held) => HELD,
        Err(LockRefusal::Conflict { holder, mode }) => ("conflict", holder, mode.number()),
        Err(LockRefusal::NoMemory) => NO_MEMORY,
    }
}

// Gives up one lock, if it is held.
fn unlocked(table: &mut LockTable, backend: u32, rel: Oid, mode: Mode) -> Answer {
    if !table.holds(backend, rel, mode) {
        return NO;
    }
    table.unlock(backend, rel, mode);
    DONE
}

// Calls on an empty table, and what each is answered.
const CALLS: &[(&str, &[(Call, Answer)])] = &[
    ("the first holder is named", FIRST_HOLDER),
    ("the first holder is named in the other order", OTHER_ORDER),
    ("own modes are never in the way", OWN_MODES),
    ("releases from a command on", RELEASES),
];

const FIRST_HOLDER: &[(Call, Answer)] = &[
    (Call::Ask(1, 1, REL, Mode::Share), NEW),
    (Call::Ask(2, 1, REL, Mode::AccessShare), NEW),
    (
        Call::Ask(3, 1, REL, Mode::AccessExclusive),
        ("conflict", 1, 5),
    ),
    (Call::Ask(3, 1, OTHER, Mode::AccessExclusive), NEW),
];

const OTHER_ORDER: &[(Call, Answer)] = &[
    (Call::Ask(2, 1, REL, Mode::AccessShare), NEW),
    (Call::Ask(1, 1, REL, Mode::Share), NEW),
    (
        Call::Ask(3, 1, REL, Mode::AccessExclusive),
        ("conflict", 2, 1),
    ),
    (Call::Ask(3, 1, OTHER, Mode::AccessExclusive), NEW),
];

const OWN_MODES: &[(Call, Answer)] = &[
    (Call::Ask(1, 1, REL, Mode::AccessShare), NEW),
    (Call::Ask(1, 1, REL, Mode::AccessExclusive), NEW),
    (Call::Ask(1, 1, REL, Mode::AccessShare), HELD),
    (Call::Ask(1, 1, REL, Mode::AccessExclusive), HELD),
    (Call::Ask(2, 1, REL, Mode::AccessShare), ("conflict", 1, 8)),
    (Call::Unlock(1, REL, Mode::AccessExclusive), DONE),
    (Call::Ask(2, 1, REL, Mode::AccessShare), NEW),
    (Call::Has(1, REL, Mode::AccessShare), YES),
    (Call::Has(1, REL, Mode::AccessExclusive), NO),
    (
        Call::Ask(1, 2, REL, Mode::AccessExclusive),
        ("conflict", 2, 1),
    ),
];

const RELEASES: &[(Call, Answer)] = &[
    (Call::Ask(1, 1, REL, Mode::Share), NEW),
    (Call::Ask(1, 2, OTHER, Mode::Share), NEW),
    (Call::Ask(1, 3, REL, Mode::Exclusive), NEW),
    (Call::Ask(2, 1, OTHER, Mode::Share), NEW),
    (Call::Release(1, 2), DONE),
    (Call::Has(1, REL, Mode::Share), YES),
    (Call::Has(1, REL, Mode::Exclusive), NO),
    (Call::Has(2, OTHER, Mode::Share), YES),
    (Call::Has(1, OTHER, Mode::Share), NO),
    (Call::Ask(3, 1, OTHER, Mode::Exclusive), ("conflict", 2, 5)),
    (Call::Release(1, 0), DONE),
    (Call::Release(2, 0), DONE),
    (Call::Ask(3, 1, REL, Mode::AccessExclusive), NEW),
    (Call::Ask(3, 1, OTHER, Mode::AccessExclusive), NEW),
];

// Calls where the locks of two new relations are prepared, and what each is answered.
const GRANTED: &[(Call, Answer)] = &[
    (Call::Has(1, OTHER, Mode::AccessExclusive), NO),
    (Call::GrantPrepared, DONE),
    (Call::Has(1, REL, Mode::AccessExclusive), YES),
    (Call::Has(1, OTHER, Mode::AccessExclusive), YES),
    (Call::GrantPrepared, DONE),
    (Call::Release(1, 4), DONE),
    (Call::Ask(2, 1, OTHER, Mode::AccessExclusive), NEW),
];

#[test]
fn a_table_answers_its_calls(rt: HostRuntime) {
    for &(name, calls) in CALLS {
        let mut table = LockTable::new(rt.alloc());
        for (call, wanted) in calls {
            let is_so = answer(&mut table, *call) == *wanted;
            assert!(rt; is_so, "{name}");
        }
    }
}

// A table of no locks in which those of two new relations are prepared.
fn prepared_table(alloc: Global) -> Result<LockTable, NoMemory> {
    let mut table = LockTable::new(alloc);
    table.prepare(Vec::from_slice(alloc, &[new_grant(REL), new_grant(OTHER)])?)?;
    Ok(table)
}

// The grant of a new relation.
fn new_grant(rel: Oid) -> Grant
    ensures { result ≡ record { backend = 1; command = 4; rel = rel; mode = Mode.AccessExclusive } }
{
    Grant {
        backend: 1,
        command: 4,
        rel,
        mode: Mode::AccessExclusive,
    }
}

#[test]
fn prepared_locks_are_granted(rt: HostRuntime) -> Result<(), Fail> {
    let mut table = prepared_table(rt.alloc())?;
    for (call, wanted) in GRANTED {
        assert!(rt; answer(&mut table, *call) == *wanted);
    }
    Ok(())
}

// A call on the locks of one backend.
#[derive(Clone, Copy)]
enum OwnCall {
    // A lock that was granted in a command.
    Add(Oid, Mode, u32),
    // The lock of a relation's creator.
    AddNew(Oid, u32),
    Clear(Oid, Mode),
    ClearAll,
    Remove(Oid, Mode),
    Release(u32),
    State(Oid, Mode),
    KeepsOut(Oid, Mode),
}

fn own_answer(own: &mut OwnLocks, call: OwnCall) -> &'static str {
    let Ok(()) = own.reserve() else {
        return "no memory";
    };
    match call {
        OwnCall::Add(rel, mode, command) => added(own, rel, mode, command),
        OwnCall::AddNew(rel, command) => added_new(own, rel, command),
        OwnCall::Clear(rel, mode) => cleared(own, rel, mode),
        OwnCall::Remove(rel, mode) => removed(own, rel, mode),
        OwnCall::State(rel, mode) => state(own, rel, mode),
        OwnCall::KeepsOut(rel, mode) if own.keeps_out(rel, mode) => "out",
        OwnCall::KeepsOut(..) => "in",
        OwnCall::ClearAll => {
            own.clear_all();
            "done"
        }
        OwnCall::Release(from) => {
            own.release(from);
            "done"
        }
    }
}

fn added(own: &mut OwnLocks, rel: Oid, mode: Mode, command: u32) -> &'static str
    requires { 0 < own.old.room }
{
    if own.state(rel, mode).is_some() {
        return "held";
    }
    own.add(rel, mode, command);
    "done"
}

fn added_new(own: &mut OwnLocks, rel: Oid, command: u32) -> &'static str
    requires { 0 < own.old.room }
{
    if own.state(rel, Mode::AccessExclusive).is_some() {
        return "held";
    }
    own.add_new(rel, command);
    "done"
}

fn cleared(own: &mut OwnLocks, rel: Oid, mode: Mode) -> &'static str {
    if own.state(rel, mode).is_none() {
        return "none";
    }
    own.clear(rel, mode);
    "done"
}

fn removed(own: &mut OwnLocks, rel: Oid, mode: Mode) -> &'static str {
    if own.state(rel, mode).is_none() {
        return "none";
    }
    own.remove(rel, mode);
    "done"
}

fn state(own: &OwnLocks, rel: Oid, mode: Mode) -> &'static str {
    match own.state(rel, mode) {
        Some(true) => "clear",
        Some(false) => "held",
        None => "none",
    }
}

// Calls on the locks of a backend that has none, and what each is answered.
const OWN_CALLS: &[(OwnCall, &str)] = &[
    (OwnCall::Add(REL, Mode::Share, 1), "done"),
    (OwnCall::Add(REL, Mode::AccessShare, 2), "done"),
    (OwnCall::Add(OTHER, Mode::Share, 3), "done"),
    (OwnCall::State(REL, Mode::Share), "held"),
    (OwnCall::State(OTHER, Mode::AccessShare), "none"),
    (OwnCall::KeepsOut(REL, Mode::RowExclusive), "in"),
    (OwnCall::Clear(REL, Mode::Share), "done"),
    (OwnCall::State(REL, Mode::Share), "clear"),
    (OwnCall::State(REL, Mode::AccessShare), "held"),
    (OwnCall::KeepsOut(REL, Mode::RowExclusive), "out"),
    (OwnCall::KeepsOut(REL, Mode::RowShare), "in"),
    (OwnCall::ClearAll, "done"),
    (OwnCall::State(OTHER, Mode::Share), "clear"),
    (OwnCall::State(REL, Mode::AccessShare), "clear"),
    (OwnCall::Remove(REL, Mode::Share), "done"),
    (OwnCall::State(REL, Mode::Share), "none"),
    (OwnCall::Release(3), "done"),
    (OwnCall::State(OTHER, Mode::Share), "none"),
    (OwnCall::State(REL, Mode::AccessShare), "clear"),
    (OwnCall::AddNew(OTHER, 4), "done"),
    (OwnCall::State(OTHER, Mode::AccessExclusive), "clear"),
    (OwnCall::Release(0), "done"),
];

// Whether so many relations are locked by one backend.
fn lock_many(own: &mut OwnLocks, count: u32) -> bool {
    let mut all = true;
    for i in 0..count {
        all = all && own_answer(own, OwnCall::Add(Oid(i), Mode::Share, 1)) == "done";
    }
    all
}

#[test]
fn own_locks_are_marked_and_many(rt: HostRuntime) {
    let mut own = OwnLocks::new(rt.alloc());
    for &(call, wanted) in OWN_CALLS {
        assert!(rt; own_answer(&mut own, call) == wanted);
    }
    assert!(rt; lock_many(&mut own, 200));
}
