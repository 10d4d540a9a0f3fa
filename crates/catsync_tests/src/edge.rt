use crate::inputs::{Calls, sink_of, source_of};
use crate::readers::{FailingReader, FailingWriter};
use base_types::NoMemory;
use edge_io::{
    Failed, Gate, GatheringSink, Go, MemorySink, OpenGate, ReadRefusal, Source, StdSink, StdSource,
    SteadySink, SteadySource, StopGate, read_all, send,
};
use std::alloc::Global;
use std::io::ErrorKind;
use std::test::Fail;

const TEXT: &[u8] = b"abcdefg";

// The call that fails, how much a call takes at most, and what was taken.
const SENT: &[(u64, usize, &str)] = &[(1, 1, ""), (3, 1, "ab"), (2, 5, "abcde"), (3, 5, "abcdefg")];

// Whether this is read of a source.
fn reads<S: Source>(alloc: Global, source: &mut S, limit: usize, want: &[u8]) -> bool {
    match read_all(alloc, source, limit) {
        Ok(text) => text.as_slice() == want,
        Err(_) => false,
    }
}

// Whether the source fails.
fn fails<S: Source>(alloc: Global, source: &mut S) -> bool {
    match read_all(alloc, source, 100) {
        Err(ReadRefusal::Failed) => true,
        Ok(_) | Err(ReadRefusal::NoMemory) => false,
    }
}

// Whether all of the text is read by calls that take so much.
fn is_read(alloc: Global, per_call: usize) -> Result<bool, NoMemory> {
    let calls = Calls {
        per_call,
        failing: 0,
    };
    let mut source = source_of(alloc, TEXT, calls)?;
    Ok(reads(alloc, &mut source, 100, TEXT))
}

#[test]
fn a_source_is_read_to_its_end_also_after_a_call_that_failed(rt: HostRuntime) -> Result<(), Fail> {
    for per_call in [1, 3, 5000].iter() {
        assert!(rt; is_read(rt.alloc(), *per_call)?, "at {per_call}");
    }
    // a source that can't fail, and a limit within its one piece
    let mut steady = SteadySource::new(TEXT.to_vec(rt.alloc())?);
    assert!(rt; reads(rt.alloc(), &mut steady, 3, TEXT));
    assert!(rt; goes_on(rt.alloc())? == (true, true));
    Ok(())
}

// Whether a source fails in its third call, after two of two bytes, and then gives the rest.
fn goes_on(alloc: Global) -> Result<(bool, bool), NoMemory> {
    let calls = Calls {
        per_call: 2,
        failing: 3,
    };
    let mut source = source_of(alloc, TEXT, calls)?;
    let is_failed = fails(alloc, &mut source);
    Ok((is_failed, reads(alloc, &mut source, 100, b"efg")))
}

// Whether a sink takes this of the text by calls that go so.
fn is_taken(alloc: Global, calls: Calls, want: &str) -> Result<bool, NoMemory> {
    let mut sink = sink_of(alloc, calls)?;
    let _ = send(&mut sink, TEXT);
    Ok(sink.sent() == want.as_bytes())
}

#[test]
fn a_sink_keeps_what_it_took_before_a_call_that_fails(rt: HostRuntime) -> Result<(), Fail> {
    for &(failing, per_call, want) in SENT {
        let calls = Calls { per_call, failing };
        assert!(rt; is_taken(rt.alloc(), calls, want)?, "{want}");
    }
    Ok(())
}

// Sends a text in two parts, and whether this was kept.
fn keeps(sink: &mut SteadySink, want: &[u8]) -> bool {
    let sent = send(sink, b"abc").is_ok() && send(sink, b"defg").is_ok();
    sent && sink.sent() == want
}

#[test]
fn a_steady_sink_keeps_what_fits(rt: HostRuntime) -> Result<(), Fail> {
    assert!(rt; keeps(&mut SteadySink::with_room(rt.alloc(), 5)?, b"abcde"));
    assert!(rt; keeps(&mut SteadySink::new(rt.alloc()), b""));
    Ok(())
}

// Sends two texts, gathered, and how many bytes the sink has then.
fn count_after(sink: &mut MemorySink, first: &[u8], second: &[u8]) -> Result<usize, Failed> {
    let mut out = GatheringSink::new(sink);
    out.send(first)?;
    out.send(second)?;
    out.flush()?;
    drop(out);
    Ok(sink.sent().len())
}

// What is sent through a sink whose fourth call fails; nothing by texts that aren't sent whole.
fn gathered(alloc: Global) -> Result<([usize; 3], usize), NoMemory> {
    let long = vec![in alloc; b'x'; 5000]?;
    let calls = Calls {
        per_call: 6000,
        failing: 4,
    };
    let mut sink = sink_of(alloc, calls)?;
    let short = count_after(&mut sink, b"abc", b"def").unwrap_or(0);
    let longer = count_after(&mut sink, b"", &long).unwrap_or(0);
    let failed = count_after(&mut sink, b"abc", b"def").unwrap_or(0);
    Ok(([short, longer, failed], sink.sent().len()))
}

#[test]
fn texts_are_gathered(rt: HostRuntime) -> Result<(), Fail> {
    assert!(rt; gathered(rt.alloc())? == ([6, 5006, 0], 5006));
    Ok(())
}

// What a sink over std writes of the text.
fn is_written(alloc: Global) -> bool {
    let mut kept = Vec::new(alloc);
    let sent = send(&mut StdSink::new(&mut kept), TEXT);
    sent.is_ok() && kept.as_slice() == TEXT
}

#[test]
fn bytes_pass_over_std(rt: HostRuntime) {
    assert!(rt; reads(rt.alloc(), &mut StdSource::new(TEXT), 100, TEXT));
    assert!(rt; is_written(rt.alloc()));
}

// Three bytes, in a call each, where a call fails in this way.
fn failing_source(failing: u32, kind: ErrorKind) -> StdSource<FailingReader> {
    StdSource::new(FailingReader {
        left: 3,
        calls: 0,
        failing,
        kind,
    })
}

#[test]
fn a_reader_of_std_fails_at_each_call_in_turn(rt: HostRuntime) {
    for failing in 1..5 {
        assert!(rt;
            fails(rt.alloc(), &mut failing_source(failing, ErrorKind::Other)),
            "at {failing}"
        );
        assert!(rt;
            reads(
                rt.alloc(),
                &mut failing_source(failing, ErrorKind::Interrupted),
                100,
                b"aaa"
            ),
            "at {failing}"
        );
    }
}

// Whether the text was sent, and how many bytes of it, where a call fails in this way.
fn sent_badly(failing: u32, kind: Option<ErrorKind>) -> (bool, u32) {
    let mut writer = FailingWriter {
        taken: 0,
        calls: 0,
        failing,
        kind,
    };
    let sent = send(&mut StdSink::new(&mut writer), TEXT);
    (sent.is_ok(), writer.taken)
}

#[test]
fn a_writer_of_std_fails_at_each_call_in_turn(rt: HostRuntime) {
    for failing in 1..8 {
        for kind in [None, Some(ErrorKind::Other)].iter() {
            assert!(rt;
                sent_badly(failing, *kind) == (false, failing - 1),
                "at {failing}"
            );
        }
        let sent = sent_badly(failing, Some(ErrorKind::Interrupted));
        assert!(rt; sent == (true, 7), "at {failing}");
    }
}

#[test]
fn a_gate_stops_at_its_pass(rt: HostRuntime) {
    let mut gate = StopGate::new(2);
    for stops in [false, true, false].iter() {
        assert!(rt; matches!(gate.pass(&rt, 1, 1), Go::Stop) == *stops);
    }
    let mut open = OpenGate::new();
    assert!(rt; matches!(open.pass(&rt, 1, 1), Go::On));
}
