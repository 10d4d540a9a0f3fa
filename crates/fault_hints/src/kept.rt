use edge_io::{Failed, Source};
use std::alloc::Global;

/// A source that keeps what another one gives. Where it is out of memory it keeps nothing any more,
/// and goes on.
#[derive(Drop)]
pub struct KeptSource<S> {
    source: S,
    text: Vec<u8>,
    is_whole: bool,
}

impl<S> KeptSource<S> {
    /// A source of what `source` gives.
    pub fn new(alloc: Global, source: S) -> KeptSource<S> {
        KeptSource {
            source,
            text: Vec::new(alloc),
            is_whole: true,
        }
    }

    /// What was given so far; empty where that couldn't be kept.
    pub fn text(&self) -> &[u8] {
        if self.is_whole {
            self.text.as_slice()
        } else {
            &[]
        }
    }
}

impl<S: Source> Source for KeptSource<S> {
    ghost left = { λ kept. S.left kept.source };

    ghost faults = { λ kept. S.faults kept.source };

    fn read(&mut self, into: &mut [u8]) -> Result<usize, Failed> {
        let count = self.source.read(into)?;
        if self.text.extend_from_slice(&into[..count]).is_err() {
            self.is_whole = false;
        }
        Ok(count)
    }
}
