//! What `bench/caches.sh` measures of a backend's caches that have so many names: lookups of these names in turn where
//! no name has a row (`absent`) or each has one (`present`), messages that take out none of the absent names
//! (`messages`), of each kind in turn, or names that a message takes out and that are put there again, in turn (`puts`). It
//! fails where memory does or a lookup is wrong.

ghost use Rattle.std.specs.Prelude.{◌≤◌, length, IfSome};

use base_types::{CacheId, Key, KeyPart, Kind, Name, Oid, Purpose, Row, key_hash};
use inval_messages::Message;
use local_caches::LocalCaches;
use std::alloc::Global;

// Messages of each kind that cover nothing that is cached: a hash that no key has, and a relation that isn't known.
const MESSAGES: [Message; 4] = [
    Message::Cat {
        cache: CacheId::RelName,
        hash: u32::MAX,
    },
    Message::Cat {
        cache: CacheId::RelOid,
        hash: 0,
    },
    Message::Cat {
        cache: CacheId::AttName,
        hash: 0,
    },
    Message::Rel { rel: Oid(7) },
];

/// What is done with the caches.
#[derive(Clone, Copy)]
pub(crate) enum Task {
    Absent,
    Present,
    Messages,
    Puts,
}

impl Task {
    /// The task that an argument names.
    pub fn named(word: &str) -> Option<Task> {
        match word {
            "absent" => Some(Task::Absent),
            "present" => Some(Task::Present),
            "messages" => Some(Task::Messages),
            "puts" => Some(Task::Puts),
            _ => None,
        }
    }
}

/// Does a task with so many lookups, messages or puts, in caches of so many names.
pub(crate) fn run(alloc: Global, task: Task, count: u64, names: u32) -> Option<()> {
    let scans = all_scans(alloc, names)?;
    let present = matches!(task, Task::Present);
    let mut caches = filled(alloc, scans.as_slice(), present)?;
    let done = match task {
        Task::Absent | Task::Present => look_up(&caches, scans.as_slice(), present, count),
        Task::Messages => execute(&mut caches, count),
        Task::Puts => put_again(alloc, &mut caches, scans.as_slice(), count),
    };
    // the program ends here, so nothing is freed
    std::mem::forget(caches);
    done
}

// The scans of all names.
fn all_scans(alloc: Global, names: u32) -> Option<Vec<Purpose>> {
    let mut scans = Vec::new(alloc);
    for number in 0..names {
        scans.push(Purpose::RelName(name_of(number)?)).ok()?;
    }
    Some(scans)
}

// The name of this number.
fn name_of(number: u32) -> Option<Name> {
    let digits = [
        b'n',
        digit(number / 10000),
        digit(number / 1000),
        digit(number / 100),
        digit(number / 10),
        digit(number),
    ];
    Name::new(&digits).ok()
}

// The last digit of a number.
fn digit(number: u32) -> u8 {
    b'0' + (number % 10) as u8
}

// The caches with what each of these scans gave: a row, or nothing.
fn filled(alloc: Global, scans: &[Purpose], present: bool) -> Option<LocalCaches> {
    let mut caches = LocalCaches::new(alloc).ok()?;
    for scan in scans {
        if let Some(rows) = rows_of(alloc, scan, present) {
            put(&mut caches, scan, rows)?;
        }
    }
    Some(caches)
}

// What a scan for a name gives: its row, if it is present. (Rattle cannot prove a function that has both a row and caches
// of rows, so another one puts it there.)
fn rows_of(alloc: Global, scan: &Purpose, present: bool) -> Option<Vec<Row>>
    ensures { IfSome result (λ rows. length rows.items ≤ 1) }
{
    match scan {
        Purpose::RelName(name) if present => Vec::from_slice(alloc, &[row_of(*name)]).ok(),
        _ => Some(Vec::new(alloc)),
    }
}

// A row of this name.
fn row_of(name: Name) -> Row {
    Row::Class {
        oid: Oid(16384),
        name,
        kind: Kind::Table,
        fill: None,
    }
}

// Keeps what a scan gave.
fn put(caches: &mut LocalCaches, scan: &Purpose, rows: Vec<Row>) -> Option<()>
    requires { length rows.items ≤ 1 }
{
    if caches.has(scan) {
        return Some(());
    }
    caches.put(scan, rows, 1).ok()
}

// Looks so many names up, all of them in turn.
fn look_up(caches: &LocalCaches, scans: &[Purpose], present: bool, count: u64) -> Option<()> {
    for _ in 0..count / scans.len().max(1) as u64 {
        for scan in scans {
            if caches.rows(scan)?.is_empty() == present {
                return None;
            }
        }
    }
    Some(())
}

// Executes so many messages, of each kind in turn.
fn execute(caches: &mut LocalCaches, count: u64) -> Option<()> {
    for _ in 0..count / 4 {
        caches.execute(&MESSAGES);
    }
    Some(())
}

// Takes names out by messages and puts them there again as absent, so many, all of them in turn.
fn put_again(alloc: Global, caches: &mut LocalCaches, scans: &[Purpose], count: u64) -> Option<()> {
    for _ in 0..count / scans.len().max(1) as u64 {
        for scan in scans {
            caches.execute(&[message_for(scan)]);
            put(caches, scan, Vec::new(alloc))?;
        }
    }
    Some(())
}

// The message that takes out what is kept of a name.
fn message_for(scan: &Purpose) -> Message {
    match scan {
        Purpose::RelName(name) => Message::Cat {
            cache: CacheId::RelName,
            hash: key_hash(CacheId::RelName, &Key::new(&[KeyPart::Name(*name)])),
        },
        _ => Message::Rel { rel: Oid(7) },
    }
}
