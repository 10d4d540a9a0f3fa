ghost use Rattle.std.specs.Prelude.{◌≡◌, ◌<◌, ◌≤◌, ◌∷◌, ◌++◌, [], ◌==◌, MatchBool, MatchOption, not, fold, false, IfOk};
ghost use Rattle.std.specs.List.{AllByRecursion};
ghost use Rattle.turn_table.specs.Passes.{IsPassOf};

use std::alloc::{AllocError, Global};
use std::sync::Wait;
use std::test::Fail;
use std::thread;
use std::thread::Threads;
use std::time::{Clock, Duration};
use turn_table::{Pass, Tells, TurnTable, Turned};

// Who wrote, in order. Something waits for a seat where the last to write was another.
#[derive(Drop)]
struct Log {
    writers: Vec<u32>,
}

impl Turned for Log {
    ghost use Rattle.std.proofs.Common.{ap, ◌∙◌, ne_eqb};
    ghost use Rattle.std.proofs.lemmas.Grind.{fold-append};

    type Entry = u32;

    type Fixed = ();

    ghost fixed = { λ log. tt };

    ghost history = { λ log. log.writers.items };

    ghost owner = { λ writer. writer };

    ghost waiting = { λ writers seat. fold (λ old writer. not (writer == seat)) false writers };

    ghost room = { λ log seat. 0 };

    ghost stays = { λ writers writer seat other was. fold-append (λ old w. not (w == seat)) false writers (writer ∷ []) ∙ ap not (ne_eqb writer seat other) };
}

impl Tells for Log {
    fn waits_for(&self, seat: u32) -> bool {
        match self.writers.last() {
            None => false,
            Some(last) => *last != seat,
        }
    }
}

// What a seat does.
enum Act {
    Write,
    // a turn in which nothing happens
    Idle,
    // a look, and what it has to answer
    Look(bool),
}

fn add(log: &mut Log, seat: u32) -> bool
    ensures { MatchBool result (log.new.writers.items ≡ log.old.writers.items ++ seat ∷ []) (log.new.writers.items ≡ log.old.writers.items) }
{
    if log.writers.reserve(1).is_err() {
        return false;
    }
    log.writers.push_reserved(seat);
    true
}

// Writes, or says that there is no memory.
fn write<R: Wait>(rt: &R, table: &TurnTable<Log>, pass: Pass<Log>) -> (Pass<Log>, bool)
    requires of { IsPassOf table.now pass }
    ensures of { IsPassOf table.now result.0 }
    ensures seat { result.0.number ≡ pass.number }
{
    let seat = pass.number;
    let mut turn = table.open(rt, pass);
    let done = add(turn.value(), seat);
    turn.tell();
    (table.close(turn), done)
}

fn idle<R: Wait>(rt: &R, table: &TurnTable<Log>, pass: Pass<Log>) -> Pass<Log>
    requires of { IsPassOf table.now pass }
    ensures of { IsPassOf table.now result }
    ensures seat { result.number ≡ pass.number }
{
    let turn = table.open(rt, pass);
    table.close(turn)
}

// What a seat does, and whether it was answered as it has to be.
fn act_once<R: Wait>(
    rt: &R,
    table: &TurnTable<Log>,
    pass: Pass<Log>,
    act: &Act,
) -> (Pass<Log>, bool)
    requires of { IsPassOf table.now pass }
    ensures of { IsPassOf table.now result.0 }
    ensures seat { result.0.number ≡ pass.number }
{
    match act {
        Act::Write => write(rt, table, pass),
        Act::Idle => (idle(rt, table, pass), true),
        Act::Look(told) => {
            let mut pass = pass;
            let found = table.look(&mut pass);
            (pass, found == *told)
        }
    }
}

// What two seats do, one after another: of each act, whose it is.
fn act_all<R: Wait>(
    rt: &R,
    table: &TurnTable<Log>,
    passes: (Pass<Log>, Pass<Log>),
    acts: &[(u32, Act)],
) -> ((Pass<Log>, Pass<Log>), bool)
    requires of { IsPassOf table.now passes.0 × IsPassOf table.now passes.1 }
    ensures of { IsPassOf table.now result.0.0 × IsPassOf table.now result.0.1 }
    ensures seats { (result.0.0.number ≡ passes.0.number) × (result.0.1.number ≡ passes.1.number) }
{
    let (mut first, mut second) = passes;
    let mut right = true;
    for (seat, act) in acts {
        let done;
        if *seat == 1 {
            (first, done) = act_once(rt, table, first, act);
        } else {
            (second, done) = act_once(rt, table, second, act);
        }
        right = right && done;
    }
    ((first, second), right)
}

// What two seats do, and who wrote in the end, or nothing where an answer was wrong.
fn writers_after<R: Wait>(
    rt: &R,
    alloc: Global,
    acts: &[(u32, Act)],
) -> Result<Option<Vec<u32>>, AllocError> {
    let log = Log {
        writers: Vec::new(alloc),
    };
    let (table, mut passes) = TurnTable::new(alloc, log, 2)?;
    let (Some(second), Some(first)) = (passes.pop(), passes.pop()) else {
        unreachable!()
    };
    let ((first, second), right) = act_all(rt, &table, (first, second), acts);
    passes.push(second)?;
    passes.push(first)?;
    let Log { writers } = table.finish(passes);
    Ok(right.then_some(writers))
}

const ROWS: &[(&[(u32, Act)], &[u32])] = &[
    // seats split and joined
    (&[], &[]),
    // tickets drawn and served, the value taken, put back and passed on
    (&[(1, Act::Idle), (1, Act::Idle), (2, Act::Idle)], &[]),
    (
        &[(2, Act::Write), (2, Act::Write), (1, Act::Write)],
        &[2, 2, 1],
    ),
    // a word that nobody raised
    (&[(1, Act::Look(false)), (2, Act::Look(false))], &[]),
    // raised by another's turn; the own one stays as it is
    (
        &[(1, Act::Write), (2, Act::Look(true)), (1, Act::Look(false))],
        &[1],
    ),
    (
        &[
            (2, Act::Look(false)),
            (1, Act::Write),
            (2, Act::Look(true)),
            (2, Act::Look(true)),
        ],
        &[1],
    ),
    // lowered by the own turn alone
    (
        &[
            (1, Act::Write),
            (1, Act::Idle),
            (2, Act::Idle),
            (2, Act::Look(true)),
            (2, Act::Write),
            (2, Act::Look(false)),
            (1, Act::Look(true)),
        ],
        &[1, 2],
    ),
];

#[test]
fn seats_act_in_the_order_of_their_turns(rt: HostRuntime) -> Result<(), Fail> {
    for (acts, writers) in ROWS {
        let found = writers_after(&rt, rt.alloc(), acts)?;
        let right = match &found {
            Some(found) => found.as_slice() == *writers,
            None => false,
        };
        assert!(rt; right);
    }
    Ok(())
}

// A seat with its thread, and whether it met the other.
#[derive(Drop)]
struct Writer {
    pass: Option<Pass<Log>>,
    met: bool,
}

// For how many milliseconds a thread waits for the other.
const PATIENCE: u32 = 20_000;

// A thread that writes, waits until its word tells of what the other wrote, and writes again. Threads that
// run one after the other don't meet: the first waits in vain.
fn meet<R: Wait + Clock>(rt: &R, table: &TurnTable<Log>, pass: Pass<Log>) -> (Pass<Log>, bool)
    requires of { IsPassOf table.now pass }
    ensures of { IsPassOf table.now result.0 }
{
    let (mut pass, _) = write(rt, table, pass);
    let mut told = table.look(&mut pass);
    for _ in 0..PATIENCE {
        if told {
            break;
        }
        thread::sleep(rt, Duration::from_millis(1));
        told = table.look(&mut pass);
    }
    let (pass, done) = write(rt, table, pass);
    (pass, told && done)
}

fn meet_as<R: Wait + Clock>(rt: &R, table: &TurnTable<Log>, writer: &mut Writer)
    requires ready { MatchOption writer.old.pass ⊥ (λ p. IsPassOf table.now p) }
    ensures ready { MatchOption writer.new.pass ⊥ (λ p. IsPassOf table.now p) }
{
    let Some(pass) = writer.pass.take() else {
        unreachable!()
    };
    let (pass, met) = meet(rt, table, pass);
    *writer = Writer {
        pass: Some(pass),
        met,
    };
}

fn all_meet<R: Threads + Wait + Clock + Sync>(
    rt: &R,
    table: &TurnTable<Log>,
    writers: &mut [Writer],
)
    requires ready { AllByRecursion (λ w. MatchOption w.pass ⊥ (λ p. IsPassOf table.now p)) writers.old }
    ensures ready { AllByRecursion (λ w. MatchOption w.pass ⊥ (λ p. IsPassOf table.now p)) writers.new }
{
    thread::for_each_mut(
        rt,
        writers,
        2,
        &|_, writer: &mut Writer|
            requires { MatchOption writer.old.pass ⊥ (λ p. IsPassOf table.now p) }
            ensures { MatchOption writer.new.pass ⊥ (λ p. IsPassOf table.entry.now p) }
        { meet_as(rt, table, writer) },
    );
}

// Whether two seats, each in a thread, met.
fn met<R: Threads + Wait + Clock + Sync>(rt: &R, alloc: Global) -> Result<[bool; 2], AllocError> {
    let log = Log {
        writers: Vec::new(alloc),
    };
    let (table, mut passes) = TurnTable::new(alloc, log, 2)?;
    let (Some(second), Some(first)) = (passes.pop(), passes.pop()) else {
        unreachable!()
    };
    let mut writers = [
        Writer {
            pass: Some(first),
            met: false,
        },
        Writer {
            pass: Some(second),
            met: false,
        },
    ];
    all_meet(rt, &table, &mut writers);
    let [first, second] = &writers;
    Ok([first.met, second.met])
}

#[test]
fn two_threads_run_at_the_same_time(rt: HostRuntime) -> Result<(), Fail> {
    let met = met(&rt, rt.alloc())?;
    assert!(rt; met == [true, true]);
    Ok(())
}

// How many seats a table has whose seats are given back at once, and what is in its log then.
fn unused(alloc: Global, seats: u32) -> Result<(u32, usize), AllocError>
    requires { (0 < seats) × (seats ≤ 64) }
{
    let log = Log {
        writers: Vec::new(alloc),
    };
    let (table, passes) = TurnTable::new(alloc, log, seats)?;
    let seats = table.seats();
    let Log { writers } = table.finish(passes);
    Ok((seats, writers.len()))
}

#[test]
fn the_seats_of_a_table_are_dealt_and_gathered(rt: HostRuntime) -> Result<(), Fail> {
    assert!(rt; unused(rt.alloc(), 1) == Ok((1, 0)));
    assert!(rt; unused(rt.alloc(), 64) == Ok((64, 0)));
    Ok(())
}
