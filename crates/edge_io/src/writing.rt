ghost use Rattle.std.specs.Prelude.{◌≡◌, ℕ};
ghost use Rattle.edge_io.specs.Causes.{HasCause};
ghost use Rattle.edge_io.specs.Taken.{Sends};

use crate::{Failed, Sink};

/// Writes all of `text`. After `Failed` the sink has taken a prefix of it.
pub fn send<K: Sink>(sink: &mut K, text: &[u8]) -> Result<(), Failed>
    ensures bytes { Sends (K.taken sink.old) (K.taken sink.new) result text.now }
    ensures cause { HasCause (K.faults sink.old) (K.faults sink.new) result }
{
    let mut at = 0;
    'text: while at < text.len() {
        at += sink.write(&text[at..])?;
    }
    Ok(())
}
