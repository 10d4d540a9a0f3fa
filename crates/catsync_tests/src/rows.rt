use crate::row_texts::changes_of;
use crate::values::name;
use base_types::{Change, Kind, NoMemory, Oid, Purpose, Row, RowKey, Xid};
use catalog_rows::RowStore;
use row_visibility::{Clash, Reader, Stamp, StampState, is_own, sees, visible};
use std::alloc::Global;

// A stamp, the state of its transaction, a reader, whether the stamp is of the reader's own transaction, and
// whether the reader sees what was done. A stamp and a reader are given by Xid and command, and by 0 without Xid.
const STAMPS: &[((u32, u32), StampState, (u32, u32), (bool, bool))] = &[
    ((1, 1), StampState::Committed, (0, 1), (false, true)),
    ((1, 9), StampState::Committed, (2, 1), (false, true)),
    ((1, 1), StampState::Running, (0, 9), (false, false)),
    ((1, 1), StampState::Running, (2, 9), (false, false)),
    ((1, 1), StampState::Running, (1, 2), (true, true)),
    ((1, 1), StampState::Running, (1, 1), (true, false)),
    ((1, 2), StampState::Running, (1, 1), (true, false)),
];

// Whether a stamp is of the reader's own transaction, and whether the reader sees it.
fn seen_as(did: (u32, u32), state: StampState, reads: (u32, u32)) -> (bool, bool) {
    let stamp = Stamp {
        xid: Xid(did.0),
        command: did.1,
    };
    let reader = reader(reads.0, reads.1);
    (is_own(reader.xid, stamp), sees(state, stamp, reader))
}

#[test]
fn stamps_are_seen(rt: HostRuntime) {
    for &(did, state, reads, wanted) in STAMPS {
        assert!(rt; seen_as(did, state, reads) == wanted);
    }
    assert!(rt; visible(true, false) && !visible(true, true) && !visible(false, false));
}

// A call on the rows of all catalogs. A transaction is given by its Xid, or by 0 where it has none.
#[derive(Clone, Copy)]
enum Call {
    // A transaction writes these changes in a command.
    Write(u32, u32, &'static [u8]),
    // It takes back what it did from a command on.
    Undo(u32, u32),
    Commit(u32),
    // What is in the way of a new name of a transaction's.
    Clash(&'static [u8], u32),
    // How many tables of a name a transaction sees in a command.
    Sees(&'static [u8], u32, u32),
    // Whether there is a relation for who reads what is committed.
    Finds(u32),
    // Whether these are the numbers of the versions of a relation.
    Numbers(u32, &'static [u64]),
    // Whether these are the numbers of the versions of the columns of a relation.
    Columns(u32, &'static [u64]),
}

// What a call is answered, and its number.
type Answer = (&'static str, usize);

const DONE: Answer = ("done", 0);

const NO_MEMORY: Answer = ("no memory", 0);

fn answer(alloc: Global, store: &mut RowStore, call: Call) -> Answer {
    match call {
        Call::Write(xid, command, text) => written(alloc, store, (xid, command), text),
        Call::Undo(xid, from) => {
            store.undo(Xid(xid), from);
            DONE
        }
        Call::Commit(xid) => committed(store, Xid(xid)),
        Call::Clash(text, own) => clash(store, text, own),
        Call::Sees(text, own, command) => {
            seen(store, &Purpose::RelName(name(text)), reader(own, command))
        }
        Call::Finds(oid) => found(store, oid),
        Call::Numbers(oid, wanted) => numbers(store, &Purpose::Class(Oid(oid)), wanted),
        Call::Columns(oid, wanted) => numbers(store, &Purpose::AttList(Oid(oid)), wanted),
    }
}

fn written(alloc: Global, store: &mut RowStore, by: (u32, u32), text: &[u8]) -> Answer {
    match changes_of(alloc, text) {
        Ok(changes) => applied(store, by, &changes),
        Err(_) => NO_MEMORY,
    }
}

fn applied(store: &mut RowStore, by: (u32, u32), changes: &[Change]) -> Answer {
    match store.apply(Xid(by.0), by.1, changes) {
        Ok(()) => DONE,
        Err(_) => NO_MEMORY,
    }
}

// Commits, after a write without changes: only who has written may commit.
fn committed(store: &mut RowStore, xid: Xid) -> Answer {
    let Ok(()) = store.apply(xid, 1, &[]) else {
        return NO_MEMORY;
    };
    store.commit(xid);
    DONE
}

fn reader(own: u32, command: u32) -> Reader {
    Reader {
        xid: own_xid(own),
        command,
    }
}

fn own_xid(own: u32) -> Option<Xid> {
    if own == 0 { None } else { Some(Xid(own)) }
}

fn clash(store: &RowStore, text: &[u8], own: u32) -> Answer {
    match store.name_clash(&name(text), own_xid(own)) {
        Some(Clash::Row(rel)) => ("row", rel.0 as usize),
        Some(Clash::Running(xid)) => ("running", xid.0 as usize),
        None => ("none", 0),
    }
}

// How many rows a scan gives.
fn seen(store: &RowStore, scan: &Purpose, reader: Reader) -> Answer {
    match store.scan(scan, reader) {
        Ok(rows) => ("rows", rows.len()),
        Err(_) => NO_MEMORY,
    }
}

fn found(store: &RowStore, oid: u32) -> Answer {
    match store.row(&RowKey::Class(Oid(oid)), reader(0, 1)) {
        Some(_) => ("found", oid as usize),
        None => ("none", 0),
    }
}

fn numbers(store: &RowStore, purpose: &Purpose, wanted: &[u64]) -> Answer {
    let under = store.under(purpose);
    if under == wanted {
        DONE
    } else {
        ("others, so many", under.len())
    }
}

// Calls on a store without rows, and what each is answered.
const CALLS: &[(&str, &[(Call, Answer)])] = &[
    ("two creators", TWO_CREATORS),
    ("two creators, the second first", OTHER_CREATORS),
    ("a rollback and the name again", NAME_AGAIN),
    ("a replaced row and its undo", REPLACED),
    ("versions under a key", UNDER),
    (
        "a transaction replaces its own row, and an undo",
        OWN_REPLACED,
    ),
    ("versions that nobody sees any more", DEAD),
    ("an undo of what is committed", OPENED_AGAIN),
];

const TWO_CREATORS: &[(Call, Answer)] = &[
    (Call::Write(1, 1, b"+class(16384,x,r,-)"), DONE),
    (Call::Clash(b"x", 2), ("running", 1)),
    (Call::Clash(b"x", 1), ("row", 16384)),
    (Call::Sees(b"x", 2, 9), ("rows", 0)),
    (Call::Sees(b"x", 1, 1), ("rows", 0)),
    (Call::Sees(b"x", 1, 2), ("rows", 1)),
    (Call::Commit(1), DONE),
    (Call::Clash(b"x", 2), ("row", 16384)),
    (Call::Sees(b"x", 2, 1), ("rows", 1)),
];

const OTHER_CREATORS: &[(Call, Answer)] = &[
    (Call::Write(2, 1, b"+class(16384,x,r,-)"), DONE),
    (Call::Clash(b"x", 1), ("running", 2)),
    (Call::Clash(b"x", 2), ("row", 16384)),
    (Call::Sees(b"x", 1, 9), ("rows", 0)),
    (Call::Sees(b"x", 2, 1), ("rows", 0)),
    (Call::Sees(b"x", 2, 2), ("rows", 1)),
    (Call::Commit(2), DONE),
    (Call::Clash(b"x", 1), ("row", 16384)),
    (Call::Sees(b"x", 1, 1), ("rows", 1)),
];

const NAME_AGAIN: &[(Call, Answer)] = &[
    (Call::Write(1, 2, b"+class(16384,t,r,-)"), DONE),
    (Call::Write(1, 3, b"+class(16385,u,r,-)"), DONE),
    (Call::Undo(1, 3), DONE),
    (Call::Clash(b"t", 0), ("running", 1)),
    (Call::Clash(b"u", 0), ("none", 0)),
    (Call::Undo(1, 2), DONE),
    (Call::Clash(b"t", 0), ("none", 0)),
    (Call::Sees(b"t", 1, 9), ("rows", 0)),
    (Call::Write(2, 1, b"+class(16386,t,r,-)"), DONE),
    (Call::Commit(2), DONE),
    (Call::Clash(b"t", 0), ("row", 16386)),
    (Call::Finds(16386), ("found", 16386)),
    (Call::Finds(16384), ("none", 0)),
];

const REPLACED: &[(Call, Answer)] = &[
    (Call::Write(1, 1, b"+class(16384,t,r,-)"), DONE),
    (Call::Commit(1), DONE),
    (Call::Write(2, 1, b"=class(16384,u,r,-)"), DONE),
    (Call::Sees(b"t", 0, 9), ("rows", 1)),
    (Call::Sees(b"u", 0, 9), ("rows", 0)),
    (Call::Sees(b"t", 2, 1), ("rows", 1)),
    (Call::Sees(b"u", 2, 1), ("rows", 0)),
    (Call::Sees(b"t", 2, 2), ("rows", 0)),
    (Call::Sees(b"u", 2, 2), ("rows", 1)),
    (Call::Clash(b"t", 0), ("running", 2)),
    (Call::Clash(b"u", 0), ("running", 2)),
    (Call::Clash(b"t", 2), ("none", 0)),
    (Call::Clash(b"u", 2), ("row", 16384)),
    (Call::Undo(2, 1), DONE),
    (Call::Clash(b"t", 0), ("row", 16384)),
    (Call::Clash(b"u", 0), ("none", 0)),
    (Call::Write(2, 2, b"-class(16384)"), DONE),
    (Call::Finds(16384), ("found", 16384)),
    (Call::Commit(2), DONE),
    (Call::Finds(16384), ("none", 0)),
];

const UNDER: &[(Call, Answer)] = &[
    (Call::Write(1, 1, b"+class(16384,t,r,-)"), DONE),
    (Call::Write(1, 2, b"=class(16384,t,r,50)"), DONE),
    (Call::Write(1, 3, b"+class(16385,u,r,-)"), DONE),
    (Call::Numbers(16384, &[1, 2]), DONE),
    (Call::Numbers(16385, &[3]), DONE),
    (Call::Numbers(16386, &[]), DONE),
    (Call::Columns(16384, &[]), DONE),
    (
        Call::Write(2, 1, b"-class(16385) +att(16384,1,a,int4,-1,l)"),
        DONE,
    ),
    (Call::Numbers(16385, &[3]), DONE),
    (Call::Columns(16384, &[4]), DONE),
];

const OWN_REPLACED: &[(Call, Answer)] = &[
    (Call::Write(1, 1, b"+class(16384,t,r,-)"), DONE),
    (Call::Write(1, 2, b"=class(16384,u,r,-)"), DONE),
    (Call::Sees(b"u", 1, 3), ("rows", 1)),
    (Call::Undo(1, 2), DONE),
    (Call::Numbers(16384, &[1]), DONE),
    (Call::Sees(b"u", 1, 3), ("rows", 0)),
    (Call::Sees(b"t", 1, 3), ("rows", 1)),
    // a number isn't used again
    (Call::Write(1, 4, b"=class(16384,u,r,-)"), DONE),
    (Call::Numbers(16384, &[1, 3]), DONE),
    (Call::Undo(1, 1), DONE),
    (Call::Numbers(16384, &[]), DONE),
    (Call::Sees(b"t", 1, 9), ("rows", 0)),
];

const DEAD: &[(Call, Answer)] = &[
    (Call::Write(1, 1, b"+class(16384,t,r,-)"), DONE),
    (Call::Commit(1), DONE),
    (Call::Write(2, 1, b"=class(16384,u,r,-)"), DONE),
    (Call::Commit(2), DONE),
    (Call::Numbers(16384, &[1, 2]), DONE),
    (Call::Sees(b"t", 0, 9), ("rows", 0)),
    (Call::Sees(b"u", 0, 9), ("rows", 1)),
    (Call::Clash(b"t", 0), ("none", 0)),
    (Call::Write(3, 1, b"=class(16384,t,r,-)"), DONE),
    (Call::Undo(3, 1), DONE),
    (Call::Finds(16384), ("found", 16384)),
    (Call::Write(4, 1, b"-class(16384)"), DONE),
    (Call::Commit(4), DONE),
    (Call::Numbers(16384, &[1, 2]), DONE),
    (Call::Finds(16384), ("none", 0)),
];

const OPENED_AGAIN: &[(Call, Answer)] = &[
    (Call::Write(1, 1, b"+class(16384,t,r,-)"), DONE),
    (Call::Commit(1), DONE),
    (Call::Write(2, 1, b"=class(16384,u,r,-)"), DONE),
    (Call::Commit(2), DONE),
    (Call::Sees(b"t", 0, 9), ("rows", 0)),
    (Call::Undo(2, 1), DONE),
    (Call::Numbers(16384, &[1]), DONE),
    (Call::Sees(b"t", 0, 9), ("rows", 1)),
    (Call::Clash(b"t", 0), ("row", 16384)),
    (Call::Clash(b"u", 0), ("none", 0)),
];

#[test]
fn a_store_answers_its_calls(rt: HostRuntime) {
    for &(name, calls) in CALLS {
        let mut store = RowStore::new(rt.alloc());
        for (call, wanted) in calls {
            let is_so = answer(rt.alloc(), &mut store, *call) == *wanted;
            assert!(rt; is_so, "{name}");
        }
    }
    // an index without rows
    let scan = Purpose::IndexRow(Oid(16384));
    assert!(rt; seen(&RowStore::new(rt.alloc()), &scan, reader(0, 1)) == ("rows", 0));
}

const MANY: u32 = 100_000;

// A transaction writes as many versions, of the tables from this one on, each the next by the step.
fn insert_many(store: &mut RowStore, step: u32) -> Result<(), NoMemory> {
    for i in 0..MANY {
        let oid = Oid(i.wrapping_mul(step).wrapping_add(16384));
        let row = Row::Class {
            oid,
            name: name(b"t"),
            kind: Kind::Table,
            fill: None,
        };
        store.apply(Xid(1), 1, &[Change::Insert(row)])?;
    }
    Ok(())
}

// How many versions of a table there are, or nothing where memory was out.
fn count_after(store: &mut RowStore, step: u32, oid: u32) -> Option<usize> {
    match insert_many(store, step) {
        Ok(()) => Some(store.under(&Purpose::Class(Oid(oid))).len()),
        Err(_) => None,
    }
}

// How many versions of a table are left after the transaction's last command, or all that it did, is taken back.
fn count_left(store: &mut RowStore, from: u32, oid: u32) -> usize {
    store.undo(Xid(1), from);
    store.under(&Purpose::Class(Oid(oid))).len()
}

// Many versions of one table, written and taken back.
fn many_of_one(store: &mut RowStore) -> bool {
    count_after(store, 0, 16384) == Some(100_000)
        && count_left(store, 2, 16384) == 100_000
        && count_left(store, 1, 16384) == 0
}

// One version of each of many tables, written, found and taken back.
fn one_of_many(store: &mut RowStore) -> bool {
    count_after(store, 1, 116_383) == Some(1)
        && numbers(store, &Purpose::Class(Oid(116_383)), &[100_000]) == DONE
        && seen(store, &Purpose::RelName(name(b"u")), reader(1, 2)) == ("rows", 0)
        && count_left(store, 1, 116_383) == 0
}

// A transaction replaces a table's row and commits, and the row is found.
fn replaced(store: &mut RowStore, xid: u32) -> bool {
    let row = Row::Class {
        oid: Oid(16384),
        name: name(b"t"),
        kind: Kind::Table,
        fill: None,
    };
    applied(store, (xid, 1), &[Change::Replace(row)]) == DONE
        && committed(store, Xid(xid)) == DONE
        && found(store, 16384) == ("found", 16384)
}

// As many transactions one after another, which takes seconds where each passes over all versions.
fn replaced_often(store: &mut RowStore) -> bool {
    let mut all = true;
    for xid in 1..20_000 {
        all = all && replaced(store, xid);
    }
    all
}

#[test]
fn a_row_is_replaced_often(rt: HostRuntime) {
    assert!(rt; replaced_often(&mut RowStore::new(rt.alloc())));
}

#[test]
fn many_versions_and_many_keys(rt: HostRuntime) {
    assert!(rt; many_of_one(&mut RowStore::new(rt.alloc())));
    assert!(rt; one_of_many(&mut RowStore::new(rt.alloc())));
}
