ghost use Rattle.std.specs.Prelude.{◌≡◌, ◌++◌, ℕ, codes, OnOk};
ghost use Rattle.std.specs.List.{All};
ghost use Rattle.edge_io.specs.Causes.{HasCause};
ghost use Rattle.edge_io.specs.Gathered.{gathered, Gathers};
ghost use Rattle.edge_io.specs.Taken.{Sends};
ghost use Rattle.event_kinds.specs.Entries.{IsLine};
ghost use Rattle.event_kinds.specs.Texts.{line_text, ended, lines_text};

use base_types::LineBuffer;
use edge_io::{Failed, GatheringSink, Sink};
use event_kinds::{Line, push_line_head};

/// Writes an answer line. After `Failed` the sink has taken a prefix of it.
pub fn put_line<K: Sink>(sink: &mut K, line: &Line) -> Result<(), Failed>
    ensures bytes { Sends (K.taken sink.old) (K.taken sink.new) result (ended (line_text line.now)) }
    ensures cause { HasCause (K.faults sink.old) (K.faults sink.new) result }
{
    let mut out = GatheringSink::new(sink);
    gather_line(&mut out, line)?;
    out.flush()
}

// The answer lines.
pub(crate) fn gather_lines<K: Sink>(
    out: &mut GatheringSink<'_, K>,
    lines: &[Line],
) -> Result<(), Failed>
    ensures bytes { Gathers (gathered K.taken out.old) (gathered K.taken out.new) result (lines_text lines.now) }
    ensures cause { HasCause (K.faults out.old.sink.now) (K.faults out.new.sink.now) result }
    ensures typed { OnOk result (All IsLine lines.now) }
{
    for line in lines {
        gather_line(out, line)?;
    }
    Ok(())
}

// An answer line.
fn gather_line<K: Sink>(out: &mut GatheringSink<'_, K>, line: &Line) -> Result<(), Failed>
    ensures bytes { Gathers (gathered K.taken out.old) (gathered K.taken out.new) result (ended (line_text line.now)) }
    ensures cause { HasCause (K.faults out.old.sink.now) (K.faults out.new.sink.now) result }
    ensures typed { OnOk result (IsLine line.now) }
{
    gather_line_text(out, line)?;
    out.send(b"\n")
}

// An answer line without its end.
fn gather_line_text<K: Sink>(out: &mut GatheringSink<'_, K>, line: &Line) -> Result<(), Failed>
    ensures bytes { Gathers (gathered K.taken out.old) (gathered K.taken out.new) result (line_text line.now) }
    ensures cause { HasCause (K.faults out.old.sink.now) (K.faults out.new.sink.now) result }
    ensures typed { OnOk result (IsLine line.now) }
{
    let mut head = LineBuffer::new();
    push_line_head(&mut head, line);
    out.send(head.as_bytes())?;
    out.send(line.text.as_bytes())
}
