ghost use Rattle.std.specs.Prelude.{◌≡◌, ◌≤◌, ◌<◌, ◌^◌, map, drop, length, IfSome};
ghost use Rattle.sinval_ring.specs.Readers.{is_below, counted};
ghost use Rattle.sinval_ring.specs.Cleanups.{bits_of, swept, least_of, furthest, marked, threshold_of, wrap_at};

use crate::call::Call;
use crate::reader::Reader;

// After how many times as many messages as the queue keeps their numbers begin again.
const QUEUES_TO_WRAP: u64 = 262_144;

// The backends whose readers are below a number, as bits: backend 1 is the lowest. The first reader is
// nobody's.
pub(crate) fn bits_below(low: u64, readers: &[Reader]) -> u64
    requires { length readers.now ≤ 65 }
    ensures { result ≡ bits_of (map (is_below low) (drop 1 readers.now)) }
{
    let Some((_nobody, backends)) = readers.split_first() else {
        return 0;
    };
    flag_bits(low, backends)
}

// Which readers are below a number, as bits: the first is the lowest.
fn flag_bits(low: u64, readers: &[Reader]) -> u64
    requires { length readers.now ≤ 64 }
    ensures { result ≡ bits_of (map (is_below low) readers.now) }
{
    let mut bits: u64 = 0;
    for (i, reader) in readers.iter().enumerate() {
        if reader.is_below(low) {
            bits += 1 << i;
        }
    }
    bits
}

// Puts the readers below a number into reset state.
pub(crate) fn sweep(low: u64, readers: &mut [Reader])
    ensures { readers.new ≡ map (swept low) readers.old }
{
    for reader in readers.iter_mut() {
        if reader.is_below(low) {
            *reader = Reader::Reset;
        }
    }
}

// The position of the reader furthest back, at most this number.
pub(crate) fn least_position(end: u64, readers: &[Reader]) -> u64
    ensures { result ≡ least_of end readers.now }
{
    let mut least = end;
    for reader in readers {
        if let Reader::At { position, .. } = *reader {
            least = position.min(least);
        }
    }
    least
}

// The backend to be signaled: the reader furthest back that is below a number and wasn't signaled, the
// first of several.
pub(crate) fn furthest_back(bound: u64, readers: &[Reader]) -> Option<u32>
    requires { length readers.now ≤ 65 }
    ensures { result ≡ furthest bound readers.now }
{
    let mut call = Call {
        backend: None,
        below: bound,
    };
    for (i, reader) in readers.iter().enumerate() {
        call = call.after(i as u32, *reader);
    }
    call.backend
}

// Marks the reader of a backend as signaled, if one is to be signaled.
pub(crate) fn mark(backend: Option<u32>, readers: &mut [Reader])
    requires { IfSome backend (λ b. b < length readers.old) }
    ensures { readers.new ≡ marked backend readers.old }
{
    if let Some(b) = backend {
        readers[b as usize] = readers[b as usize].signaled();
    }
}

// The number of messages at which the next cleanup runs, while the queue has so many.
pub(crate) fn next_threshold(size: u64, filled: u64) -> u64
    requires size { (64 ≤ size) × (size ≤ 4096) }
    requires filled { filled < 2 ^ 32 }
    ensures { result ≡ threshold_of size filled }
{
    if filled < size / 2 {
        size / 2
    } else {
        let quantum = size / 16;
        (filled / quantum + 1) * quantum
    }
}

// By how much all numbers go back, where the least of them is this: by the wraparound or not at all.
pub(crate) fn wrap_at(size: u64, least: u64) -> u64
    requires { size ≤ 4096 }
    ensures { result ≡ wrap_at size least }
{
    let wraparound = size * QUEUES_TO_WRAP;
    if least < wraparound { 0 } else { wraparound }
}

// Moves the positions of the readers back by so much.
pub(crate) fn move_back(by: u64, readers: &mut [Reader])
    ensures { readers.new ≡ map (counted by) readers.old }
{
    for reader in readers.iter_mut() {
        *reader = reader.moved_back(by);
    }
}
