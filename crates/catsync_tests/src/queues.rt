ghost use Rattle.std.specs.Prelude.{◌<◌, ◌≤◌, ◌*◌};
ghost use Rattle.base_types.specs.Scenario.{IsQueueSize};

use arrayvec::ArrayVec;
use base_types::{Fetched, NoMemory, Oid};
use inval_messages::Message;
use sinval_ring::{Cleaned, Ring};
use std::alloc::Global;
use std::test::Fail;

// A queue whose messages are for the relations 0, 1, 2 and so on.
#[derive(Drop)]
struct Numbered {
    ring: Ring,
    inserted: u32,
}

// A call, with the backend or the number of messages.
#[derive(Clone, Copy)]
enum Call {
    Start(u32),
    Stop(u32),
    Insert(u32),
    Clean(u32),
    Fetch(u32),
    Has(u32),
    Number,
}

// What a call is answered. Of fetched messages how many there are, and the number of the first.
#[derive(Clone, Copy, PartialEq, Eq)]
enum Answer {
    Done,
    Idle,
    Cleaned(u64, Option<u32>),
    Messages(u32, u32),
    Reset,
    Yes,
    No,
    Number(u64),
    Refused,
}

fn of_cleaned(cleaned: Cleaned) -> Answer {
    if cleaned.ran {
        Answer::Cleaned(cleaned.reset, cleaned.signal)
    } else {
        Answer::Idle
    }
}

// The number of the first of messages, if the others have the next numbers.
fn first_number(messages: &[Message]) -> Option<u32> {
    let mut first = None;
    let mut next = 0;
    for message in messages {
        let Message::Rel { rel } = message else {
            return None;
        };
        if first.is_none() {
            first = Some(rel.0);
        } else if rel.0 != next {
            return None;
        }
        next = rel.0.wrapping_add(1);
    }
    first
}

// So many messages from this number on.
fn messages_from(number: u32) -> [Message; 64] {
    let mut messages = [Message::Rel { rel: Oid(0) }; 64];
    for (i, message) in messages.iter_mut().enumerate() {
        *message = Message::Rel {
            rel: Oid(number.wrapping_add(i as u32)),
        };
    }
    messages
}

impl Numbered {
    fn start(&mut self, b: u32) -> Answer {
        let ring = &mut self.ring;
        if b == 0 || b > ring.backends() || ring.is_active(b) {
            return Answer::Refused;
        }
        ring.start(b);
        Answer::Done
    }

    fn stop(&mut self, b: u32) -> Answer {
        let ring = &mut self.ring;
        if !ring.is_active(b) {
            return Answer::Refused;
        }
        ring.stop(b);
        Answer::Done
    }

    fn insert(&mut self, count: u32) -> Answer {
        if count == 0 || count > 64 || self.inserted > 1_000_000 {
            return Answer::Refused;
        }
        let messages = messages_from(self.inserted);
        let cleaned = self.ring.insert(&messages[..count as usize]);
        self.inserted += count;
        of_cleaned(cleaned)
    }

    fn clean(&mut self, min_free: u32) -> Answer {
        if min_free > 64 {
            return Answer::Refused;
        }
        of_cleaned(self.ring.clean(min_free))
    }

    fn fetch(&mut self, b: u32) -> Answer {
        let ring = &mut self.ring;
        if !ring.is_active(b) {
            return Answer::Refused;
        }
        let mut buffer = ArrayVec::new();
        match ring.fetch(b, &mut buffer) {
            Fetched::Reset => Answer::Reset,
            Fetched::Messages(0) => Answer::Messages(0, 0),
            Fetched::Messages(count) => match first_number(buffer.as_slice()) {
                Some(first) => Answer::Messages(count, first),
                None => Answer::Refused,
            },
        }
    }

    fn answer(&mut self, call: Call) -> Answer {
        match call {
            Call::Start(b) => self.start(b),
            Call::Stop(b) => self.stop(b),
            Call::Insert(count) => self.insert(count),
            Call::Clean(min_free) => self.clean(min_free),
            Call::Fetch(b) => self.fetch(b),
            Call::Has(b) if self.ring.has(b) => Answer::Yes,
            Call::Has(_) => Answer::No,
            Call::Number => Answer::Number(self.ring.number()),
        }
    }
}

// A queue of 64 or 128 messages, for so many backends and with this first number.
fn queue_of(alloc: Global, size: u32, backends: u32, number: u64) -> Result<Numbered, NoMemory>
    requires size { IsQueueSize size }
    requires backends { (1 ≤ backends) × (backends ≤ 64) }
    requires number { number < size * 262144 }
{
    let ring = Ring::starting_at(alloc, size, backends, number)?;
    Ok(Numbered { ring, inserted: 0 })
}

fn of_size(alloc: Global, size: u32, number: u64) -> Result<Option<Numbered>, NoMemory> {
    if number >= 64 * 262_144 {
        return Ok(None);
    }
    match size {
        64 => Ok(Some(queue_of(alloc, 64, 64, number)?)),
        128 => Ok(Some(queue_of(alloc, 128, 64, number)?)),
        _ => Ok(None),
    }
}

// How many calls of a table are answered as it says, before one that is not.
fn right(
    alloc: Global,
    size: u32,
    number: u64,
    table: &[(Call, Answer)],
) -> Result<usize, NoMemory> {
    let Some(mut queue) = of_size(alloc, size, number)? else {
        return Ok(0);
    };
    for (i, (call, wanted)) in table.iter().enumerate() {
        if queue.answer(*call) != *wanted {
            return Ok(i);
        }
    }
    Ok(table.len())
}

// A queue of 128 is filled: the threshold is reached.
const FILLED_BY_TWO_QUANTA: &[(Call, Answer)] = &[
    (Call::Start(1), Answer::Done),
    (Call::Start(2), Answer::Done),
    (Call::Insert(64), Answer::Idle),
    (Call::Insert(64), Answer::Cleaned(0, None)),
];

// One message more, and both backends are lapped.
const LAPPED_BY_ONE_MESSAGE_MORE: &[(Call, Answer)] = &[
    (Call::Start(1), Answer::Done),
    (Call::Start(2), Answer::Done),
    (Call::Insert(1), Answer::Idle),
    (Call::Insert(64), Answer::Idle),
    (Call::Insert(64), Answer::Cleaned(3, None)),
    (Call::Has(2), Answer::Yes),
    (Call::Fetch(2), Answer::Reset),
    (Call::Has(2), Answer::No),
    (Call::Fetch(2), Answer::Messages(0, 0)),
];

// In a queue of 64, an insertion of exactly the free room laps nobody, and the next one does.
const EXACTLY_THE_FREE_ROOM: &[(Call, Answer)] = &[
    (Call::Start(1), Answer::Done),
    (Call::Has(1), Answer::No),
    (Call::Insert(32), Answer::Idle),
    (Call::Has(1), Answer::Yes),
    (Call::Fetch(1), Answer::Messages(32, 0)),
    (Call::Has(1), Answer::No),
    (Call::Insert(32), Answer::Cleaned(0, None)),
    (Call::Insert(32), Answer::Cleaned(0, None)),
    (Call::Has(1), Answer::Yes),
    (Call::Insert(1), Answer::Cleaned(1, None)),
    (Call::Fetch(1), Answer::Reset),
    (Call::Fetch(1), Answer::Messages(0, 0)),
    (Call::Insert(1), Answer::Idle),
    (Call::Fetch(1), Answer::Messages(1, 97)),
];

// Cleanups by themselves, one of which makes room for nothing, one for a whole quantum.
const CLEANED_ALONE: &[(Call, Answer)] = &[
    (Call::Start(1), Answer::Done),
    (Call::Start(2), Answer::Done),
    (Call::Insert(64), Answer::Idle),
    (Call::Clean(0), Answer::Cleaned(0, Some(1))),
    (Call::Fetch(2), Answer::Messages(32, 0)),
    (Call::Fetch(2), Answer::Messages(32, 32)),
    (Call::Clean(64), Answer::Cleaned(1, None)),
    (Call::Has(1), Answer::Yes),
    (Call::Has(2), Answer::No),
    (Call::Clean(1), Answer::Cleaned(0, None)),
    (Call::Fetch(1), Answer::Reset),
    (Call::Fetch(2), Answer::Messages(0, 0)),
];

// A backend that stops while it is behind is not reset, and starts at the end.
const STOPPED_WHILE_BEHIND: &[(Call, Answer)] = &[
    (Call::Start(1), Answer::Done),
    (Call::Start(2), Answer::Done),
    (Call::Insert(64), Answer::Idle),
    (Call::Fetch(1), Answer::Messages(32, 0)),
    (Call::Fetch(1), Answer::Messages(32, 32)),
    (Call::Stop(2), Answer::Done),
    (Call::Has(2), Answer::No),
    (Call::Insert(64), Answer::Cleaned(0, None)),
    (Call::Start(2), Answer::Done),
    (Call::Has(2), Answer::No),
    (Call::Fetch(2), Answer::Messages(0, 0)),
    (Call::Insert(1), Answer::Cleaned(1, None)),
    (Call::Fetch(2), Answer::Messages(1, 128)),
];

// The backend furthest back is signaled, the first of two, and again once it has caught up.
const ONE_SIGNAL_AFTER_THE_OTHER: &[(Call, Answer)] = &[
    (Call::Start(1), Answer::Done),
    (Call::Start(2), Answer::Done),
    (Call::Start(3), Answer::Done),
    (Call::Insert(40), Answer::Idle),
    (Call::Fetch(3), Answer::Messages(32, 0)),
    (Call::Insert(1), Answer::Cleaned(0, Some(1))),
    (Call::Insert(1), Answer::Idle),
    (Call::Insert(3), Answer::Idle),
    (Call::Insert(1), Answer::Cleaned(0, Some(2))),
    (Call::Fetch(1), Answer::Messages(32, 0)),
    (Call::Insert(2), Answer::Idle),
    (Call::Insert(1), Answer::Cleaned(0, None)),
    (Call::Fetch(1), Answer::Messages(17, 32)),
    (Call::Insert(40), Answer::Cleaned(2, None)),
    (Call::Insert(24), Answer::Cleaned(4, Some(1))),
];

// Where all readers are past the wraparound, a cleanup moves the numbers back, and they read on.
const NUMBERS_GO_BACK: &[(Call, Answer)] = &[
    (Call::Start(1), Answer::Done),
    (Call::Start(2), Answer::Done),
    (Call::Insert(4), Answer::Idle),
    (Call::Fetch(1), Answer::Messages(4, 0)),
    (Call::Fetch(2), Answer::Messages(4, 0)),
    (Call::Number, Answer::Number(16_777_218)),
    (Call::Clean(1), Answer::Cleaned(0, None)),
    (Call::Number, Answer::Number(2)),
    (Call::Insert(3), Answer::Idle),
    (Call::Number, Answer::Number(5)),
    (Call::Has(2), Answer::Yes),
    (Call::Fetch(1), Answer::Messages(3, 4)),
    (Call::Fetch(2), Answer::Messages(3, 4)),
];

// They don't go back while a reader is before the wraparound, and do with two readers exactly at it. Of these one reads
// on, and one is signaled and then lapped; one was reset before, and one starts after.
const READERS_AT_BOTH_ENDS: &[(Call, Answer)] = &[
    (Call::Start(1), Answer::Done),
    (Call::Start(2), Answer::Done),
    (Call::Start(3), Answer::Done),
    (Call::Insert(32), Answer::Idle),
    (Call::Fetch(1), Answer::Messages(32, 0)),
    (Call::Fetch(2), Answer::Messages(32, 0)),
    (Call::Clean(0), Answer::Cleaned(0, None)),
    (Call::Number, Answer::Number(16_777_216)),
    (Call::Insert(64), Answer::Cleaned(4, None)),
    (Call::Number, Answer::Number(64)),
    (Call::Fetch(2), Answer::Messages(32, 32)),
    (Call::Fetch(2), Answer::Messages(32, 64)),
    (Call::Start(4), Answer::Done),
    (Call::Clean(0), Answer::Cleaned(0, Some(1))),
    (Call::Fetch(3), Answer::Reset),
    (Call::Insert(1), Answer::Cleaned(1, None)),
    (Call::Number, Answer::Number(65)),
    (Call::Fetch(1), Answer::Reset),
    (Call::Fetch(2), Answer::Messages(1, 96)),
    (Call::Fetch(3), Answer::Messages(1, 96)),
    (Call::Fetch(4), Answer::Messages(1, 96)),
];

// They go back while a reader that is exactly at the wraparound has messages left, and another has read on.
const A_READER_AT_THE_WRAPAROUND: &[(Call, Answer)] = &[
    (Call::Start(1), Answer::Done),
    (Call::Start(2), Answer::Done),
    (Call::Insert(31), Answer::Idle),
    (Call::Fetch(1), Answer::Messages(31, 0)),
    (Call::Fetch(2), Answer::Messages(31, 0)),
    (Call::Insert(20), Answer::Idle),
    (Call::Fetch(1), Answer::Messages(20, 31)),
    (Call::Clean(0), Answer::Cleaned(0, None)),
    (Call::Number, Answer::Number(20)),
    (Call::Fetch(2), Answer::Messages(20, 31)),
];

// The size of the queue and the number of its first message, the last of which is the highest that there may be, and
// the calls. What each is answered was worked out by hand from the rules of the server.
const TABLES: &[(u32, u64, &[(Call, Answer)])] = &[
    (128, 0, FILLED_BY_TWO_QUANTA),
    (128, 0, LAPPED_BY_ONE_MESSAGE_MORE),
    (64, 0, EXACTLY_THE_FREE_ROOM),
    (64, 0, CLEANED_ALONE),
    (64, 0, STOPPED_WHILE_BEHIND),
    (64, 0, ONE_SIGNAL_AFTER_THE_OTHER),
    (64, 16_777_215, EXACTLY_THE_FREE_ROOM),
    (64, 16_777_215, ONE_SIGNAL_AFTER_THE_OTHER),
    (64, 16_777_213, STOPPED_WHILE_BEHIND),
    (64, 16_777_214, NUMBERS_GO_BACK),
    (64, 16_777_184, READERS_AT_BOTH_ENDS),
    (64, 16_777_185, A_READER_AT_THE_WRAPAROUND),
];

#[test]
fn calls_on_a_queue_are_answered_as_by_the_server(rt: HostRuntime) -> Result<(), Fail> {
    for &(size, number, table) in TABLES {
        assert!(rt; right(rt.alloc(), size, number, table)? == table.len());
    }
    Ok(())
}

// Of 64 backends all but the first sleep through four laps of a queue of 64: whom the cleanups reset, and whether the
// first got each message.
fn four_laps(queue: &mut Numbered) -> (u64, bool) {
    let mut reset = 0;
    let mut all = true;
    for turn in 0..8 {
        if let Answer::Cleaned(bits, _) = queue.insert(32) {
            reset |= bits;
        }
        all = all && queue.fetch(1) == Answer::Messages(32, turn * 32);
    }
    (reset, all)
}

// Whether each of the backends 2 to 64 is answered so.
fn all_answer(queue: &mut Numbered, wanted: Answer) -> bool {
    let mut all = true;
    for b in 2..65 {
        all = all && queue.fetch(b) == wanted;
    }
    all
}

#[test]
fn sleepers_are_reset_and_a_reader_is_not(rt: HostRuntime) -> Result<(), Fail> {
    let mut queue = queue_of(rt.alloc(), 64, 64, 0)?;
    for b in 1..65 {
        let _ = queue.start(b);
    }
    assert!(rt; four_laps(&mut queue) == (u64::MAX - 1, true));
    assert!(rt; all_answer(&mut queue, Answer::Reset));
    assert!(rt; all_answer(&mut queue, Answer::Messages(0, 0)));
    Ok(())
}

// The answers of a queue made without a first number.
fn two_backends(alloc: Global) -> Result<[Answer; 4], NoMemory> {
    let ring = Ring::new(alloc, 128, 2)?;
    let mut queue = Numbered { ring, inserted: 0 };
    Ok([
        queue.start(2),
        queue.start(3),
        queue.insert(5),
        queue.fetch(2),
    ])
}

#[test]
fn a_queue_is_for_so_many_backends(rt: HostRuntime) -> Result<(), Fail> {
    assert!(rt;
        two_backends(rt.alloc())?
            == [
                Answer::Done,
                Answer::Refused,
                Answer::Idle,
                Answer::Messages(5, 0)
            ]
    );
    Ok(())
}
