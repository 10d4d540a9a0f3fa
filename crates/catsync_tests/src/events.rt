use base_types::NoMemory;
use event_kinds::{Entry, EntryFault, read_entry, write_entry};
use std::alloc::Global;

// The text of each event; of writes each row, key and change.
const EVENTS: &[&[u8]] = &[
    b"h 1 0 start",
    b"h 1 1 look yes",
    b"h 1 1 look no",
    b"h 1 1 fetch 4",
    b"h 1 1 fetch reset",
    b"h 1 1 lock 7 as ok",
    b"h 1 1 lock 7 rs ok",
    b"h 1 1 lock 7 rx held 64 sh",
    b"h 1 1 lock 7 sr held 2 su",
    b"h 1 1 unlock 7 ex",
    b"h 1 1 unlock 7 ax",
    b"h 1 1 scan reloid 7 rows 1",
    b"h 1 1 scan attlist 7 rows 1",
    b"h 1 1 scan class 7 rows 0",
    b"h 1 1 scan attribute 7 rows 1600",
    b"h 1 1 scan attrdef 7 rows 1",
    b"h 1 1 scan constraint 7 rows 1",
    b"h 1 1 scan index 7 rows 1",
    b"h 1 1 scan trigger 7 rows 1",
    b"h 1 1 scan indexrow 7 rows 1",
    b"h 1 2 scan relname t rows 1",
    b"h 1 2 scan attname 16384 ........pg.dropped.1600........ rows 0",
    b"h 2 2 clash x_1 row 16384",
    b"h 2 1 clash ........pg.dropped.1........ running 1",
    b"h 1 1 visible 4294967295",
    b"h 1 1 publish 64",
    b"h 1 1 release 1",
    b"h 1 1 gone 1",
    b"h 1 1 fail",
    b"h 64 20001 stop",
    b"h 1 1 write 1 +class(16384,t,r,-) +att(16384,1,a,int4,-1,l)",
    b"h 1 3 write 2 +class(16385,i,i,70) +ind(16385,16384,v,1+12) +def(16386,16384,1,-now_0) +trg(16387,16384,g,e)",
    b"h 1 4 write 3 +con(16388,16384,k,c,n,a<=1*2-b+c>0) +con(16389,16384,l,f,v,1,16384,2) !16384 !16390",
    b"h 1 5 write 4 =att(16384,1,........pg.dropped.1........,timestamptz,10000,d) =ind(16385,16384,n,2) =trg(16387,16384,g,d)",
    b"h 1 6 write 5 -ind(16385) -class(16385) -con(16388) -def(16386) -trg(16387) -att(16384,1) -class(16384)",
];

// Texts of no entry.
const OTHERS: &[&[u8]] = &[
    b"",
    b"h 1 0 start ",
    b"h 1 0 start\n",
    b"h 1  0 start",
    b"h 01 0 start",
    b"h -1 0 start",
    b"h 1 0 stopped",
    b"l 1 1 ok",
    b"h 1 1 look",
    b"h 1 1 visible",
    b"h 1 1 fetch +4",
    b"h 1 1 fetch 04",
    b"h 1 1 fetch 4294967296",
    b"h 1 1 scan relname T rows 1",
    b"h 1 1 scan relname ........pg.dropped.01........ rows 1",
    b"h 1 1 scan relname ........pg.dropped.1601........ rows 1",
    b"h 1 1 lock 16384 xx ok",
    b"h 1 1 write 1",
    b"h 1 1 write 1  !16384",
    b"h 1 1 write 1 +class(16384,1t,r,-)",
    b"h 1 1 write 1 +att(16384,1,a,int4,-0,l)",
    b"h 1 1 write 1 +att(16384,1,a,int,-1,l)",
    b"h 1 1 write 1 +ind(16390,16384,v,)",
    b"h 1 1 write 1 -class(16384,t)",
];

// The text of an entry.
pub(crate) fn text_of(alloc: Global, entry: &Entry) -> Result<Vec<u8>, NoMemory> {
    let mut out = Vec::new(alloc);
    write_entry(entry, &mut out)?;
    Ok(out)
}

// Whether a text is read and written again.
fn is_read(alloc: Global, line: &[u8]) -> bool {
    match read_entry(alloc, line) {
        Ok(entry) => is_text(alloc, &entry, line),
        Err(_) => false,
    }
}

fn is_text(alloc: Global, entry: &Entry, want: &[u8]) -> bool {
    match text_of(alloc, entry) {
        Ok(text) => text.as_slice() == want,
        Err(_) => false,
    }
}

fn is_bad(alloc: Global, line: &[u8]) -> bool {
    match read_entry(alloc, line) {
        Err(EntryFault::Bad) => true,
        Ok(_) | Err(EntryFault::NoMemory) => false,
    }
}

#[test]
fn each_event_is_read_and_written_again(rt: HostRuntime) {
    for &line in EVENTS {
        assert!(rt; is_read(rt.alloc(), line));
    }
}

#[test]
fn other_lines_are_bad(rt: HostRuntime) {
    for &line in OTHERS {
        assert!(rt; is_bad(rt.alloc(), line));
    }
}
