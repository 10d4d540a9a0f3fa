use std::io;
use std::io::{ErrorKind, Read, Write};

// A reader of so many bytes, one in each call, whose call of one number fails.
#[derive(Drop)]
pub(crate) struct FailingReader {
    pub(crate) left: u32,
    pub(crate) calls: u32,
    pub(crate) failing: u32,
    pub(crate) kind: ErrorKind,
}

impl Read for FailingReader {
    fn read(&mut self, buf: &mut [u8]) -> io::Result<usize> {
        self.calls = self.calls.saturating_add(1);
        if self.calls == self.failing {
            return Err(io::Error::from(self.kind));
        }
        if self.left == 0 || buf.is_empty() {
            return Ok(0);
        }
        self.left -= 1;
        buf[0] = b'a';
        Ok(1)
    }
}

// A writer that takes a byte in each call, but for its call of one number. That fails, or takes
// nothing where there is no kind.
#[derive(Drop)]
pub(crate) struct FailingWriter {
    pub(crate) taken: u32,
    pub(crate) calls: u32,
    pub(crate) failing: u32,
    pub(crate) kind: Option<ErrorKind>,
}

impl Write for FailingWriter {
    fn write(&mut self, buf: &[u8]) -> io::Result<usize> {
        self.calls = self.calls.saturating_add(1);
        if self.calls == self.failing {
            return match self.kind {
                Some(kind) => Err(io::Error::from(kind)),
                None => Ok(0),
            };
        }
        if buf.is_empty() {
            return Ok(0);
        }
        self.taken = self.taken.saturating_add(1);
        Ok(1)
    }

    fn flush(&mut self) -> io::Result<()> {
        Ok(())
    }
}
