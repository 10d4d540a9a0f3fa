ghost use Rattle.std.specs.Prelude.{◌≡◌, ◌≤◌, ◌^◌, ◌<◌, slice_index_or};
ghost use Rattle.sinval_ring.specs.Readers.{Inactive, is_active, is_behind, is_below, after_fetch, signaled, counted, IsUpTo};

// The most messages that one fetch gives.
pub(crate) const MOST_FETCHED: u64 = 32;

// How far a backend is in the queue (`ProcState` in `src/backend/storage/ipc/sinvaladt.c`). Contracts have
// these too, with the number of messages that it is past for the number of its next one.
#[derive(Clone, Copy)]
pub enum Reader {
    // It takes no part.
    Inactive,
    // Its next message is the one of this number. It was signaled to catch up, or wasn't.
    At { position: u64, signaled: bool },
    // It was lapped: it has to drop all that it cached.
    Reset,
}

impl Reader {
    // Whether it takes part.
    pub(crate) fn is_active(self) -> bool
        ensures { result ≡ is_active self }
    {
        match self {
            Reader::At { .. } | Reader::Reset => true,
            Reader::Inactive => false,
        }
    }

    // Whether it has something to fetch, where the next message to be inserted has this number.
    pub(crate) fn is_behind(self, end: u64) -> bool
        ensures { result ≡ is_behind end self }
    {
        match self {
            Reader::At { position, .. } => position < end,
            Reader::Reset => true,
            Reader::Inactive => false,
        }
    }

    // Whether its next message comes before the one of this number.
    pub(crate) fn is_below(self, low: u64) -> bool
        ensures { result ≡ is_below low self }
    {
        match self {
            Reader::At { position, .. } => position < low,
            Reader::Inactive | Reader::Reset => false,
        }
    }

    // The reader as one that was signaled, if it is one that can be.
    pub(crate) fn signaled(self) -> Reader
        ensures { result ≡ signaled self }
    {
        match self {
            Reader::At { position, .. } => Reader::At {
                position,
                signaled: true,
            },
            Reader::Inactive | Reader::Reset => self,
        }
    }

    // The reader with its position moved back by so much.
    pub(crate) fn moved_back(self, by: u64) -> Reader
        ensures { result ≡ counted by self }
    {
        match self {
            Reader::At { position, signaled } => Reader::At {
                position: position.saturating_sub(by),
                signaled,
            },
            Reader::Inactive | Reader::Reset => self,
        }
    }

    // The reader after a fetch, where the next message to be inserted has this number.
    pub(crate) fn after_fetch(self, end: u64) -> Reader
        requires { IsUpTo end self }
        ensures { result ≡ after_fetch end self }
    {
        match self {
            Reader::At { position, signaled } => {
                let next = position + MOST_FETCHED.min(end - position);
                Reader::At {
                    position: next,
                    signaled: signaled && next < end,
                }
            }
            Reader::Inactive | Reader::Reset => Reader::At {
                position: end,
                signaled: false,
            },
        }
    }
}

// The reader of a backend, if it has one.
pub(crate) fn reader_at(readers: &[Reader], b: u32) -> Reader
    ensures { result ≡ slice_index_or readers.now b Inactive }
{
    match readers.get(b as usize) {
        Some(reader) => *reader,
        None => Reader::Inactive,
    }
}
