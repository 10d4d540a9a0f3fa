use crate::inputs::{Calls, STEADY, sink_of};
use base_types::{Mode, NoMemory, Oid};
use command_answers::{Answer, CommandError};
use edge_io::{Failed, MEMORY_SINK_ROOM, MemorySink};
use event_kinds::{Entry, Event, Line, LineText};
use out_text::{answer_text, put_entry, put_line, put_output};
use std::alloc::Global;
use std::test::Fail;

// Whether this is the text of an answer, and is added to what is there already.
fn has_text(alloc: Global, answer: &Answer, want: &str) -> Result<bool, NoMemory> {
    let mut out = b"> ".to_vec(alloc)?;
    answer_text(answer, &mut out)?;
    match out.as_slice() {
        [b'>', b' ', text @ ..] => Ok(text == want.as_bytes()),
        _ => Ok(false),
    }
}

// The one error that no output has: a call that is out of memory writes nothing.
#[test]
fn an_answer_has_its_text(rt: HostRuntime) -> Result<(), Fail> {
    let answer = Answer::Error(CommandError::WantOfMemory);
    assert!(rt; has_text(rt.alloc(), &answer, "error 53200 want of memory")?);
    Ok(())
}

// The line of a lock that was granted.
const LOCK_LINE: &[u8] = b"h 1 1 lock 16384 as ok\n";

const GRANT: Entry = Entry {
    backend: 1,
    command: 1,
    event: Event::LockOk {
        rel: Oid(16384),
        mode: Mode::AccessShare,
    },
};

// A history of so many grants of one lock.
fn grants(alloc: Global, count: u32) -> Result<Vec<Entry>, NoMemory> {
    let mut history = Vec::new(alloc);
    for _ in 0..count {
        history.push(GRANT)?;
    }
    Ok(history)
}

fn ok_line(alloc: Global) -> Result<Line, NoMemory> {
    Ok(Line {
        backend: 2,
        command: 7,
        text: LineText::new(b"ok".to_vec(alloc)?),
    })
}

// An entry, a line, and an output of both.
fn put_all(sink: &mut MemorySink, lines: &[Line; 1]) -> Result<(), Failed> {
    put_entry(sink, &GRANT)?;
    put_line(sink, &lines[0])?;
    put_output(sink, &[GRANT], lines)
}

// What `put_all` writes.
const ALL_WRITTEN: &[u8] =
    b"h 1 1 lock 16384 as ok\nl 2 7 ok\nh 1 1 lock 16384 as ok\nl 2 7 ok\nend\n";

fn are_written(alloc: Global) -> Result<bool, NoMemory> {
    let lines = [ok_line(alloc)?];
    let mut sink = sink_of(alloc, STEADY)?;
    let is_put = put_all(&mut sink, &lines).is_ok();
    Ok(is_put && sink.sent() == ALL_WRITTEN)
}

// Whether the output of 200 grants comes out well where the write of this number fails, how many bytes the sink
// has then, and how many of them are lines of a grant.
fn output_of_grants(alloc: Global, failing: u64) -> Result<(bool, usize, usize), NoMemory> {
    let history = grants(alloc, 200)?;
    let writes = Calls {
        per_call: MEMORY_SINK_ROOM,
        failing,
    };
    let mut sink = sink_of(alloc, writes)?;
    let is_put = put_output(&mut sink, &history, &[]).is_ok();
    Ok((is_put, sink.sent().len(), count_of_lock_bytes(sink.sent())))
}

// How many bytes at the beginning of a text are the line of a grant, again and again.
fn count_of_lock_bytes(text: &[u8]) -> usize {
    for (i, byte) in text.iter().enumerate() {
        if *byte != LOCK_LINE[i % LOCK_LINE.len()] {
            return i;
        }
    }
    text.len()
}

// A history takes two writes: it fails in the second, and has no third that could fail.
#[test]
fn entries_lines_and_histories_are_written(rt: HostRuntime) -> Result<(), Fail> {
    assert!(rt; are_written(rt.alloc())?);
    let all = 200 * LOCK_LINE.len();
    assert!(rt; output_of_grants(rt.alloc(), 2)? == (false, 4096, 4096));
    assert!(rt; output_of_grants(rt.alloc(), 3)? == (true, all + 4, all));
    Ok(())
}
