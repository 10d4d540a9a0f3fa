use base_types::NoMemory;
use event_kinds::{Entry, read_entry};
use history_ledger::legal_prefix;
use script_text::QUEUE_SIZE;
use std::alloc::Global;
use std::test::Fail;

// A history that the program writes (tests/runs/block_fails_after_an_unlock.output).
fn history() -> &'static [u8] {
    b"\
h 1 0 start
h 1 1 look no
h 1 1 write 1 +class(16384,t,r,-) +att(16384,1,a,int4,-1,l)
h 1 1 visible 1
h 1 1 publish 3
h 1 1 publish 1
h 1 1 release 1
h 1 2 look yes
h 1 2 fetch 4
h 1 2 write 2 +class(16385,u,r,-) +att(16385,1,b,text,-1,l)
h 1 2 visible 2
h 1 2 publish 3
h 1 2 publish 1
h 1 2 release 2
h 2 0 start
h 2 1 look no
h 2 2 look no
h 2 2 scan relname u rows 1
h 2 2 lock 16385 as ok
h 2 2 look no
h 2 2 look no
h 2 2 scan attlist 16385 rows 1
h 2 3 look no
h 2 3 scan relname t rows 1
h 1 3 look yes
h 1 3 fetch 4
h 1 3 look no
h 1 3 scan relname t rows 1
h 1 3 lock 16384 ax ok
h 1 3 look no
h 1 3 look no
h 1 3 scan class 16384 rows 1
h 1 3 look no
h 1 3 scan attribute 16384 rows 1
h 1 3 look no
h 1 3 scan attrdef 16384 rows 0
h 1 3 look no
h 1 3 scan constraint 16384 rows 0
h 1 3 look no
h 1 3 scan index 16384 rows 0
h 1 3 look no
h 1 3 scan trigger 16384 rows 0
h 1 3 write 3 -att(16384,1) -class(16384)
h 1 3 visible 3
h 1 3 publish 3
h 1 3 publish 1
h 1 3 release 3
h 1 4 stop
h 2 3 lock 16384 as ok
h 2 3 look yes
h 2 3 fetch 4
h 2 3 look no
h 2 3 scan relname t rows 0
h 2 3 unlock 16384 as
h 2 3 look no
h 2 3 release 1
h 2 5 stop
"
}

// Its lines with others in their place, and how many entries may come then. A relation is
// unlocked in another mode, by whom it was locked in an earlier command, and after the command's write.
const CHANGED: &[(&[u8], &[u8], u64)] = &[
    (b"h 2 5 stop", b"h 2 5 stop", 57),
    (b"h 2 3 unlock 16384 as", b"h 2 3 unlock 16384 ax", 53),
    (b"h 2 3 unlock 16384 as", b"h 2 3 unlock 16385 as", 53),
    (b"h 2 3 unlock 16384 as", b"h 2 2 unlock 16384 as", 53),
    (b"h 1 3 visible 3", b"h 1 3 unlock 16384 ax", 43),
    (b"h 1 3 release 3", b"h 1 3 unlock 16384 ax", 46),
    (b"h 2 3 release 1", b"h 2 3 lock 16384 as ok", 56),
    (b"h 2 3 look no", b"h 2 3 stop", 22),
    (b"h 2 3 fetch 4", b"h 2 3 fetch 3", 50),
    (b"h 2 3 fetch 4", b"h 2 3 fetch reset", 50),
    (b"h 1 3 publish 3", b"h 1 3 publish 4", 44),
    (b"h 1 3 visible 3", b"h 1 3 visible 2", 43),
    (
        b"h 1 3 write 3 -att(16384,1) -class(16384)",
        b"h 1 3 write 4 -att(16384,1) -class(16384)",
        42,
    ),
    (
        b"h 1 3 write 3 -att(16384,1) -class(16384)",
        b"h 1 3 write 3 -att(16385,1) -class(16385)",
        42,
    ),
    (
        b"h 1 2 write 2 +class(16385,u,r,-) +att(16385,1,b,text,-1,l)",
        b"h 1 2 write 2 +class(16385,t,r,-) +att(16385,1,b,text,-1,l)",
        9,
    ),
    (
        b"h 2 2 scan relname u rows 1",
        b"h 2 2 scan relname u rows 0",
        17,
    ),
    (b"h 1 3 lock 16384 ax ok", b"h 1 3 lock 16385 ax ok", 28),
];

// How many entries of the history may come, with this line in the place of that one.
fn legal_with(alloc: Global, line: &[u8], other: &[u8]) -> Result<u64, NoMemory> {
    let entries = entries_with(alloc, line, other)?;
    legal_prefix(alloc, &entries, QUEUE_SIZE)
}

// Its entries; no more after a line of no entry.
fn entries_with(alloc: Global, line: &[u8], other: &[u8]) -> Result<Vec<Entry>, NoMemory> {
    let mut entries = Vec::new(alloc);
    for own in history().split(|byte| *byte == b'\n') {
        let taken = if own == line { other } else { own };
        let Ok(entry) = read_entry(alloc, taken) else {
            break;
        };
        entries.push(entry)?;
    }
    Ok(entries)
}

#[test]
fn a_history_is_legal_up_to_what_was_changed(rt: HostRuntime) -> Result<(), Fail> {
    for &(line, other, count) in CHANGED {
        assert!(rt; legal_with(rt.alloc(), line, other)? == count, "{count}");
    }
    Ok(())
}
