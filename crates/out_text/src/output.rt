ghost use Rattle.std.specs.Prelude.{◌≡◌, ◌++◌, ℕ, codes, OnOk};
ghost use Rattle.std.specs.List.{All};
ghost use Rattle.edge_io.specs.Causes.{HasCause};
ghost use Rattle.edge_io.specs.Gathered.{gathered, Gathers};
ghost use Rattle.edge_io.specs.Taken.{Sends};
ghost use Rattle.event_kinds.specs.Entries.{IsLine};
ghost use Rattle.event_kinds.specs.Texts.{entries_text, lines_text, text_of};
ghost use Rattle.out_text.specs.Typed.{IsTyped};

use crate::entries::gather_entries;
use crate::lines::gather_lines;
use crate::typed::{look_at_entries, look_at_lines};
use edge_io::{Failed, GatheringSink, Sink};
use event_kinds::{Entry, Line};

/// Writes a history, the answer lines and the line `end`. After `Failed` the sink has taken a prefix
/// of it. That entries and lines are typed holds in any case.
pub fn put_output<K: Sink>(sink: &mut K, history: &[Entry], lines: &[Line]) -> Result<(), Failed>
    ensures bytes { Sends (K.taken sink.old) (K.taken sink.new) result (text_of history.now lines.now) }
    ensures cause { HasCause (K.faults sink.old) (K.faults sink.new) result }
    ensures typed { All IsTyped history.now × All IsLine lines.now }
{
    let written = write_output(sink, history, lines);
    if written.is_err() {
        look_at_entries(history);
        look_at_lines(lines);
    }
    written
}

// The same, where they are looked at only as far as they are written.
fn write_output<K: Sink>(sink: &mut K, history: &[Entry], lines: &[Line]) -> Result<(), Failed>
    ensures bytes { Sends (K.taken sink.old) (K.taken sink.new) result (text_of history.now lines.now) }
    ensures cause { HasCause (K.faults sink.old) (K.faults sink.new) result }
    ensures typed { OnOk result (All IsTyped history.now × All IsLine lines.now) }
{
    let mut out = GatheringSink::new(sink);
    gather_output(&mut out, history, lines)?;
    out.flush()
}

// A history, the answer lines and the line `end`.
fn gather_output<K: Sink>(
    out: &mut GatheringSink<'_, K>,
    history: &[Entry],
    lines: &[Line],
) -> Result<(), Failed>
    ensures bytes { Gathers (gathered K.taken out.old) (gathered K.taken out.new) result (text_of history.now lines.now) }
    ensures cause { HasCause (K.faults out.old.sink.now) (K.faults out.new.sink.now) result }
    ensures typed { OnOk result (All IsTyped history.now × All IsLine lines.now) }
{
    gather_all_lines(out, history, lines)?;
    out.send(b"end\n")
}

// A history and the answer lines.
fn gather_all_lines<K: Sink>(
    out: &mut GatheringSink<'_, K>,
    history: &[Entry],
    lines: &[Line],
) -> Result<(), Failed>
    ensures bytes { Gathers (gathered K.taken out.old) (gathered K.taken out.new) result (entries_text history.now ++ lines_text lines.now) }
    ensures cause { HasCause (K.faults out.old.sink.now) (K.faults out.new.sink.now) result }
    ensures typed { OnOk result (All IsTyped history.now × All IsLine lines.now) }
{
    gather_entries(out, history)?;
    gather_lines(out, lines)
}
