ghost use Rattle.std.specs.Prelude.{◌≡◌, ◌<◌, [], ◌++◌, length, OnOk};
ghost use Rattle.std.specs.Io.KnownBytes.{append_known};
ghost use Rattle.edge_io.specs.Causes.{HasCause};
ghost use Rattle.edge_io.specs.Taken.{Takes, TakesSome};
ghost use Rattle.edge_io.specs.Gathered.{gathered, Gathers, Flushes, Stood};

use crate::held::{Held, MOST_HELD};
use crate::{Failed, Sink};

/// Gathers bytes for a sink, and hands them on in large pieces.
///
/// It tells what its sink has taken and then what it holds. Whoever lent the sink learns from
/// `Gathers` and `Flushes` what it has taken: all that was sent after `Ok` of
/// [`GatheringSink::flush`], and a prefix of it after any `Failed`.
pub struct GatheringSink<'a, K> {
    sink: &'a mut K,
    held: Held,
}

impl<K> Drop for GatheringSink<'_, K> {
    // What is held is lost.
    fn drop(self)
        ensures { self.exit.0.now ≡ self.entry.sink.now }
    {
        let GatheringSink { sink: _, held: _ } = self;
    }
}

impl<'a, K: Sink> GatheringSink<'a, K> {
    /// Gathers for `sink`, and holds nothing yet.
    pub fn new(sink: &'a mut K) -> GatheringSink<'a, K>
        ensures same_reference { result.sink.ghost_name ≡ sink.entry.ghost_name }
        ensures same { result.sink.now ≡ sink.old }
        ensures held { result.held ≡ [] }
    {
        GatheringSink {
            sink,
            held: Held::new(),
        }
    }

    /// Sends all of `text`. After `Failed` a prefix of it is taken or held.
    pub fn send(&mut self, text: &[u8]) -> Result<(), Failed>
        ensures bytes { Gathers (gathered K.taken self.old) (gathered K.taken self.new) result text.now }
        ensures cause { HasCause (K.faults self.old.sink.now) (K.faults self.new.sink.now) result }
    {
        let mut at = 0;
        'text: while at < text.len() {
            at += self.write(&text[at..])?;
        }
        Ok(())
    }

    // Hands on what is held where there is room for no more.
    fn make_room(&mut self) -> Result<(), Failed>
        ensures bytes { Flushes (gathered K.taken self.old) (gathered K.taken self.new) }
        ensures ok { OnOk result (length self.new.held < MOST_HELD) }
        ensures cause { HasCause (K.faults self.old.sink.now) (K.faults self.new.sink.now) result }
    {
        if self.held.is_full() {
            return self.flush();
        }
        Ok(())
    }

    /// Hands on all that is held. After `Failed` what wasn't handed on is held still.
    pub fn flush(&mut self) -> Result<(), Failed>
        ensures bytes { Flushes (gathered K.taken self.old) (gathered K.taken self.new) }
        ensures ok { OnOk result (self.new.held ≡ []) }
        ensures cause { HasCause (K.faults self.old.sink.now) (K.faults self.new.sink.now) result }
    {
        'pieces: while !self.held.is_empty() {
            let count = self.sink.write(self.held.as_slice())?;
            self.held.let_go(count);
        }
        Ok(())
    }
}

impl<K: Sink> Sink for GatheringSink<'_, K> {
    ghost taken = { λ out. append_known (K.taken out.sink.now) out.held };

    ghost faults = { λ out. K.faults out.sink.now };

    fn write(&mut self, from: &[u8]) -> Result<usize, Failed>
        ensures short { TakesSome result from.now }
        ensures bytes { Takes (append_known (K.taken self.old.sink.now) self.old.held) (append_known (K.taken self.new.sink.now) self.new.held) result from.now }
        ensures cause { HasCause (K.faults self.old.sink.now) (K.faults self.new.sink.now) result }
        ensures stood { Stood (gathered K.taken self.old) (gathered K.taken self.new) }
    {
        self.make_room()?;
        Ok(self.held.keep(from))
    }
}
