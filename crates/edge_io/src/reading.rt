ghost use Rattle.std.specs.Prelude.{◌≡◌, ℕ, length, IfOk};
ghost use Rattle.edge_io.specs.declared.reading.ReadRefusal.TheVariants as refusal;
ghost use Rattle.edge_io.specs.Reads.{ReadsAll, ReadHasCause};

use crate::{Failed, Source};
use std::alloc::{AllocError, Global};
use std::error::Error;
use std::fmt;

/// How many bytes are read in one call.
pub const PIECE: usize = 4096;

/// Why [`read_all`] gave no text.
#[derive(Clone, Copy, Debug)]
pub enum ReadRefusal {
    /// The source failed.
    Failed,
    /// Out of memory.
    NoMemory,
}

impl fmt::Display for ReadRefusal {
    fn fmt<W: fmt::Write>(&self, f: &mut fmt::Formatter<W>) -> fmt::Result {
        match self {
            ReadRefusal::Failed => f.write_str("a read failed"),
            ReadRefusal::NoMemory => f.write_str("want of memory"),
        }
    }
}

impl Error for ReadRefusal {}

impl From<Failed> for ReadRefusal {
    ghost from_gives = { λ _ e. e ≡ refusal.Failed };

    fn from(_error: Failed) -> ReadRefusal {
        ReadRefusal::Failed
    }
}

impl From<AllocError> for ReadRefusal {
    ghost from_gives = { λ _ e. e ≡ refusal.NoMemory };

    fn from(_error: AllocError) -> ReadRefusal {
        ReadRefusal::NoMemory
    }
}

// An empty piece, for one read.
fn blank_piece() -> [u8; PIECE]
    ensures { length result ≡ PIECE }
{
    [0; PIECE]
}

/// Reads until the source's end, or until it has given more than `limit` bytes; it reads at most
/// [`PIECE`] bytes more than `limit`. `Failed` where the source failed.
pub fn read_all<S: Source>(
    alloc: Global,
    source: &mut S,
    limit: usize,
) -> Result<Vec<u8>, ReadRefusal>
    ensures bytes { IfOk result (λ text. ReadsAll (S.left source.old) (S.left source.new) limit text.items) }
    ensures cause { ReadHasCause (S.faults source.old) (S.faults source.new) result }
{
    let mut text = Vec::new(alloc);
    let mut piece = blank_piece();
    'pieces: while text.len() <= limit {
        let count = source.read(&mut piece)?;
        if count == 0 {
            return Ok(text);
        }
        text.extend_from_slice(&piece[..count])?;
    }
    Ok(text)
}
