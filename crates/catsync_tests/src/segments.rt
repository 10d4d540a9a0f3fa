ghost use Rattle.std.specs.Prelude.{◌≡◌, ◌≤◌, ◌<◌, [], ◌∷◌, true, IfOk};
ghost use Rattle.event_kinds.specs.declared.entry.Event.TheVariants.{Start};
ghost use Rattle.seg_calls.specs.Calls.{entry_of};
ghost use Rattle.shared_seg.specs.Places.{promised_in};

use crate::inputs::{STEADY, script_of, sink_of};
use backend_core::Backend;
use base_types::{Mode, NoMemory, Oid};
use event_kinds::Entry;
use out_text::put_output;
use script_text::Script;
use seg_calls::Seg;
use shared_seg::Shared;
use std::alloc::Global;
use std::test::Fail;
use walk_run::walk_on;

// The calls of a segment that make an entry have conditions on the whole history before them, which
// `backend_core` is proved to meet. So the backends make these calls here: two creators of one name, of whom
// the first rolls back and creates it again, and a reader whose lock is refused and then granted. Each step
// is promised its place, by turns.
fn script() -> &'static [u8] {
    b"\
backends 2
1: begin
1: create table x (a int4)
1: rollback
1: begin
1: create table x (a int4)
1: commit
2: create table x (b int4)
2: create table x (b int4)
2: show x of
2: show x of
steps 1*3 2*3 1*4 2*1 1*1 2*7 1*2 2*2 1*2 2*40
end
"
}

fn history() -> &'static [u8] {
    b"\
h 1 0 start
h 1 1 look no
h 1 2 write 1 +class(16384,x,r,-) +att(16384,1,a,int4,-1,l)
h 2 0 start
h 2 1 look no
h 2 1 clash x running 1
h 1 3 gone 1
h 1 3 release 1
h 1 4 look no
h 1 5 write 2 +class(16385,x,r,-) +att(16385,1,a,int4,-1,l)
h 2 1 release 1
h 1 6 visible 2
h 2 2 look no
h 2 2 clash x row 16385
h 2 2 release 2
h 2 3 look no
h 2 3 look no
h 2 3 scan relname x rows 1
h 2 3 lock 16385 as held 1 ax
h 1 6 publish 3
h 1 6 publish 1
h 2 3 release 3
h 2 4 look yes
h 1 6 release 4
h 1 7 stop
h 2 4 fetch 4
h 2 4 look no
h 2 4 scan relname x rows 1
h 2 4 lock 16385 as ok
h 2 4 look no
h 2 4 release 4
h 2 5 stop
end
"
}

// A segment after the walk of a script, and the backends that were run.
fn walked_segment(alloc: Global, script: &Script) -> Result<(Shared, Vec<Backend>), NoMemory> {
    let mut seg = Shared::new(alloc, script)?;
    let backends = walk_on(alloc, script, &mut seg)?;
    Ok((seg, backends))
}

// Whether this is the text of a history.
fn has_text(alloc: Global, history: &[Entry], text: &[u8]) -> bool {
    match sink_of(alloc, STEADY) {
        Ok(mut sink) => put_output(&mut sink, history, &[]).is_ok() && sink.sent() == text,
        Err(_) => false,
    }
}

// Whether both backends were run, and nothing waits for them.
fn is_quiet(seg: &Shared, backends: &[Backend]) -> bool {
    backends.len() == 2 && !seg.waits(1) && !seg.waits(2)
}

// Whether a walk of this script leaves a segment with the history, and nothing that waits.
fn leaves_history(alloc: Global, script: &Script) -> Result<bool, NoMemory> {
    let (seg, backends) = walked_segment(alloc, script)?;
    let is_so = is_quiet(&seg, &backends) && has_text(alloc, seg.history(), history());
    Ok(is_so && seg.into_history().len() == 32)
}

fn has_its_history(alloc: Global) -> Result<bool, NoMemory> {
    let script = script_of(alloc, script())?;
    leaves_history(alloc, &script)
}

#[test]
fn a_segment_has_its_history(rt: HostRuntime) -> Result<(), Fail> {
    assert!(rt; has_its_history(rt.alloc())?);
    Ok(())
}

// Schedules that end in the middle of a commit, or after it, and for whom messages wait then. Nothing waits for a
// backend that hasn't started or that has stopped.
const WAITING: &[(&[u8], [bool; 3])] = &[
    (
        b"backends 3\n1: create table t (a int4)\n2: show t\nsteps 2 1*4\nend\n",
        [false, false, false],
    ),
    (
        b"backends 3\n1: create table t (a int4)\n2: show t\nsteps 2 1*5\nend\n",
        [true, true, false],
    ),
    (
        b"backends 3\n1: create table t (a int4)\n2: show t\nsteps 2 1*8\nend\n",
        [false, true, false],
    ),
    (
        b"backends 3\n1: create table t (a int4)\n2: show t\nsteps 2 1*7 2*3 3\nend\n",
        [true, false, false],
    ),
];

// For which of the backends of a script messages wait after its walk.
fn waits(alloc: Global, text: &[u8]) -> Result<[bool; 3], NoMemory> {
    let script = script_of(alloc, text)?;
    waits_after(alloc, &script)
}

fn waits_after(alloc: Global, script: &Script) -> Result<[bool; 3], NoMemory> {
    let (seg, _backends) = walked_segment(alloc, script)?;
    Ok([seg.waits(1), seg.waits(2), seg.waits(3)])
}

#[test]
fn messages_wait_until_they_are_fetched(rt: HostRuntime) -> Result<(), Fail> {
    for &(text, waiting) in WAITING {
        assert!(rt; waits(rt.alloc(), text)? == waiting);
    }
    Ok(())
}

// A relation whose oid counts as drawn from the start.
const REL: Oid = Oid(16383);

// A segment that two backends have joined, of which the first has a place for one entry more.
fn joined(alloc: Global, script: &Script) -> Result<Shared, NoMemory>
    requires { 2 ≤ script.now.backends }
    ensures history { IfOk result (λ seg. seg.history ≡ entry_of 1 0 Start ∷ entry_of 2 0 Start ∷ []) }
    ensures script { IfOk result (λ seg. seg.script ≡ script.now) }
    ensures places { IfOk result (λ seg. 0 < promised_in seg.promised 1) }
{
    let mut seg = Shared::new(alloc, script)?;
    seg.promise(1, 2)?;
    seg.promise(2, 1)?;
    seg.start(1);
    seg.start(2);
    Ok(seg)
}

// Whether a lock of the first keeps the second out until it is given back.
fn is_given_back(seg: &mut Shared) -> bool
    requires history { seg.old.history ≡ entry_of 1 0 Start ∷ entry_of 2 0 Start ∷ [] }
    requires two { 2 ≤ seg.old.script.backends }
    requires places { 0 < promised_in seg.old.promised 1 }
{
    if seg.lock(1, 1, REL, Mode::AccessExclusive).is_err() {
        return false;
    }
    if seg.lock(2, 1, REL, Mode::Share).is_ok() {
        return false;
    }
    seg.unlock(1, 1, REL, Mode::AccessExclusive);
    seg.lock(2, 1, REL, Mode::Share).is_ok()
}

fn has_given_back(alloc: Global, script: &Script) -> Result<bool, NoMemory>
    requires { 2 ≤ script.now.backends }
{
    let mut seg = joined(alloc, script)?;
    Ok(is_given_back(&mut seg))
}

fn gives_back(alloc: Global) -> Result<bool, NoMemory> {
    let script = script_of(alloc, b"backends 2\nend\n")?;
    if script.backends() < 2 {
        return Ok(false);
    }
    has_given_back(alloc, &script)
}

// A lock that was refused is granted once the holder has unlocked the relation.
#[test]
fn a_lock_is_given_back(rt: HostRuntime) -> Result<(), Fail> {
    assert!(rt; gives_back(rt.alloc())?);
    Ok(())
}
