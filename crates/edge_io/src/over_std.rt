ghost use Rattle.std.specs.Prelude.{◌≡◌, None};
ghost use Rattle.edge_io.specs.Causes.{HasCause};

use crate::{Failed, Sink, Source};
use std::io::{ErrorKind, Read, Write};

/// How often a call that was interrupted is tried in all.
const TRIES: u32 = 1000;

/// A source over a reader of std. It tells the bytes that its reader tells; std's own readers of
/// files and of standard input tell none.
#[derive(Drop)]
pub struct StdSource<R> {
    reader: R,
    faults: u64,
}

impl<R> StdSource<R> {
    /// A source over `reader`, without a fault.
    pub fn new(reader: R) -> StdSource<R>
        ensures reader { result.reader ≡ reader }
        ensures faults { result.faults ≡ 0 }
    {
        StdSource { reader, faults: 0 }
    }
}

impl<R: Read> Source for StdSource<R> {
    ghost left = { λ source. R.remaining source.reader };

    ghost faults = { λ source. source.faults };

    fn read(&mut self, into: &mut [u8]) -> Result<usize, Failed> {
        'tries: for _ in 0..TRIES {
            match self.reader.read(into) {
                Ok(count) => return Ok(count),
                Err(error) if error.kind() == ErrorKind::Interrupted => {}
                Err(_) => break 'tries,
            }
        }
        self.faults = self.faults.saturating_add(1);
        Err(Failed)
    }
}

/// A sink over an unbuffered writer of std, which it never flushes. It tells nothing of its bytes.
#[derive(Drop)]
pub struct StdSink<W> {
    writer: W,
    faults: u64,
}

impl<W> StdSink<W> {
    /// A sink over `writer`, without a fault.
    pub fn new(writer: W) -> StdSink<W>
        ensures writer { result.writer ≡ writer }
        ensures faults { result.faults ≡ 0 }
    {
        StdSink { writer, faults: 0 }
    }
}

impl<W: Write> Sink for StdSink<W> {
    ghost taken = { λ _. None };

    ghost faults = { λ sink. sink.faults };

    // A writer that takes nothing of a piece that isn't empty has failed.
    fn write(&mut self, from: &[u8]) -> Result<usize, Failed> {
        'tries: for _ in 0..TRIES {
            match self.writer.write(from) {
                Ok(count) if count > 0 || from.is_empty() => return Ok(count),
                Err(error) if error.kind() == ErrorKind::Interrupted => {}
                _ => break 'tries,
            }
        }
        self.faults = self.faults.saturating_add(1);
        Err(Failed)
    }
}
