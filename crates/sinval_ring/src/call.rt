ghost use Rattle.std.specs.Prelude.{◌≡◌};

use crate::reader::Reader;

// Which backend is to be signaled, and below which number a reader has to be to be signaled in its place.
#[derive(Clone, Copy)]
pub(crate) struct Call {
    pub(crate) backend: Option<u32>,
    pub(crate) below: u64,
}

impl Call {
    ghost use Rattle.sinval_ring.specs.Cleanups.{called_by};

    // After a look at one more reader.
    pub(crate) fn after(self, b: u32, reader: Reader) -> Call
        ensures { result ≡ called_by b self reader }
    {
        if let Reader::At { position, signaled } = reader {
            if !signaled && position < self.below {
                return Call {
                    backend: Some(b),
                    below: position,
                };
            }
        }
        self
    }
}
