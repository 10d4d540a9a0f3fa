use crate::row_texts::rows_of;
use base_types::{CacheId, NoMemory, Oid};
use command_lists::InvalLists;
use inval_messages::{Message, messages_of};
use std::alloc::Global;
use std::test::Fail;

// A message in numbers: the cache and the hash, or 0 and the relation.
fn numbers(message: &Message) -> (u32, u32) {
    match message {
        Message::Cat { cache, hash } => (cache.number(), *hash),
        Message::Rel { rel } => (0, rel.0),
    }
}

fn all_numbers(alloc: Global, messages: &[Message]) -> Result<Vec<(u32, u32)>, NoMemory> {
    let mut all = Vec::new(alloc);
    for message in messages {
        all.push(numbers(message))?;
    }
    Ok(all)
}

// The messages of a change from the row of one text to that of another, of which one may be empty.
fn told(alloc: Global, old: &[u8], new: &[u8]) -> Result<Vec<(u32, u32)>, NoMemory> {
    let (old, new) = (rows_of(alloc, old)?, rows_of(alloc, new)?);
    let mut messages = Vec::new(alloc);
    messages_of(old.first(), new.first(), &mut messages)?;
    all_numbers(alloc, &messages)
}

const T: &[u8] = b"+class(16384,t,r,-)";

const U: &[u8] = b"+class(16384,u,r,-)";

const A: &[u8] = b"+att(16384,1,a,int4,-1,l)";

const OF_TABLE: &[(u32, u32)] = &[(1, 147), (2, 1849026), (0, 16384)];

const OF_COLUMN: &[(u32, u32)] = &[(3, 85949054), (0, 16384)];

// The rows before and after a change, and its messages. The hashes of the names `t`, `u`, `an` and `c0`, of the
// oid 16384 and of its columns `a` and `b` were computed by hand.
const CHANGES: &[(&[u8], &[u8], &[(u32, u32)])] = &[
    (b"", T, OF_TABLE),
    (T, b"", OF_TABLE),
    (T, T, OF_TABLE),
    (T, U, &[(1, 147), (1, 148), (2, 1849026), (0, 16384)]),
    (
        b"+class(16384,an,r,-)",
        b"+class(16384,c0,r,-)",
        &[(1, 4078), (2, 1849026), (0, 16384)],
    ),
    (b"", A, OF_COLUMN),
    (A, b"+att(16384,1,a,int4,100,l)", OF_COLUMN),
    (
        A,
        b"+att(16384,1,b,int4,-1,l)",
        &[(3, 85949054), (3, 85949055), (0, 16384)],
    ),
    (b"", b"+con(16386,16385,k,f,v,1,16384,1)", &[(0, 16385)]),
    (b"+ind(16387,16384,v,1)", b"", &[(0, 16387)]),
    (b"", b"+con(16386,16385,k,c,v,a>0)", &[]),
    (b"", b"+trg(16388,16384,k,e)", &[]),
    (b"", b"+def(16389,16384,1,0)", &[]),
];

#[test]
fn changes_have_their_messages(rt: HostRuntime) -> Result<(), Fail> {
    for &(old, new, wanted) in CHANGES {
        assert!(rt; told(rt.alloc(), old, new)?.as_slice() == wanted);
    }
    Ok(())
}

const REL: Message = Message::Rel { rel: Oid(16384) };

fn cat(hash: u32) -> Message {
    Message::Cat {
        cache: CacheId::RelName,
        hash,
    }
}

// What the lists have from a command on: how many messages for caches, the first one's hash, and how many for
// descriptors.
fn kept(lists: &InvalLists, from: u32) -> (usize, u32, usize) {
    let cats = lists.cats_from(from);
    let first = match cats.first() {
        Some(Message::Cat { hash, .. }) => *hash,
        _ => 0,
    };
    (cats.len(), first, lists.rels_from(from).len())
}

#[test]
fn lists_of_a_command(rt: HostRuntime) -> Result<(), Fail> {
    let mut lists = InvalLists::new(rt.alloc());
    // room for many messages
    lists.reserve(100_000)?;
    lists.register(2, cat(147));
    lists.register(2, REL);
    lists.register(2, cat(147));
    lists.register(2, REL);
    assert!(rt; kept(&lists, 2) == (2, 147, 1));
    Ok(())
}

// Lists of commands 2 and 4, of which the second has ended.
fn two_commands(lists: &mut InvalLists) -> Result<(), NoMemory> {
    lists.clear();
    lists.reserve(4)?;
    lists.register(2, cat(147));
    lists.register(2, REL);
    lists.end_command();
    lists.register(4, REL);
    lists.register(4, cat(148));
    Ok(())
}

#[test]
fn lists_by_command(rt: HostRuntime) -> Result<(), Fail> {
    let mut lists = InvalLists::new(rt.alloc());
    two_commands(&mut lists)?;
    let all = [kept(&lists, 1), kept(&lists, 3), kept(&lists, 5)];
    assert!(rt; all == [(2, 147, 2), (1, 148, 1), (0, 0, 0)]);
    lists.abort_from(3);
    assert!(rt; kept(&lists, 1) == (1, 147, 1));
    two_commands(&mut lists)?;
    lists.end_command();
    lists.abort_from(4);
    assert!(rt; kept(&lists, 1) == (1, 147, 1));
    lists.clear();
    assert!(rt; kept(&lists, 1) == (0, 0, 0));
    Ok(())
}
