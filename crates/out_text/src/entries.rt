ghost use Rattle.std.specs.Prelude.{◌≡◌, ◌++◌, ℕ, codes, OnOk};
ghost use Rattle.std.specs.List.{All};
ghost use Rattle.edge_io.specs.Causes.{HasCause};
ghost use Rattle.edge_io.specs.Gathered.{gathered, Gathers};
ghost use Rattle.edge_io.specs.Taken.{Sends};
ghost use Rattle.event_kinds.specs.Entries.{IsItem};
ghost use Rattle.event_kinds.specs.Texts.{item_text, changes_text, entry_text, ended, entries_text};
ghost use Rattle.out_text.specs.Typed.{IsTyped};

use base_types::LineBuffer;
use edge_io::{Failed, GatheringSink, Sink};
use event_kinds::{Entry, Item, changes_in, push_entry_head, push_item};

/// Writes an entry as a line. After `Failed` the sink has taken a prefix of it.
pub fn put_entry<K: Sink>(sink: &mut K, entry: &Entry) -> Result<(), Failed>
    ensures bytes { Sends (K.taken sink.old) (K.taken sink.new) result (ended (entry_text entry.now)) }
    ensures cause { HasCause (K.faults sink.old) (K.faults sink.new) result }
{
    let mut out = GatheringSink::new(sink);
    gather_entry(&mut out, entry)?;
    out.flush()
}

// The lines of a history.
pub(crate) fn gather_entries<K: Sink>(
    out: &mut GatheringSink<'_, K>,
    history: &[Entry],
) -> Result<(), Failed>
    ensures bytes { Gathers (gathered K.taken out.old) (gathered K.taken out.new) result (entries_text history.now) }
    ensures cause { HasCause (K.faults out.old.sink.now) (K.faults out.new.sink.now) result }
    ensures typed { OnOk result (All IsTyped history.now) }
{
    for entry in history {
        gather_entry(out, entry)?;
    }
    Ok(())
}

// An entry as a line.
fn gather_entry<K: Sink>(out: &mut GatheringSink<'_, K>, entry: &Entry) -> Result<(), Failed>
    ensures bytes { Gathers (gathered K.taken out.old) (gathered K.taken out.new) result (ended (entry_text entry.now)) }
    ensures cause { HasCause (K.faults out.old.sink.now) (K.faults out.new.sink.now) result }
    ensures typed { OnOk result (IsTyped entry.now) }
{
    gather_entry_text(out, entry)?;
    out.send(b"\n")
}

// An entry without the line's end.
fn gather_entry_text<K: Sink>(out: &mut GatheringSink<'_, K>, entry: &Entry) -> Result<(), Failed>
    ensures bytes { Gathers (gathered K.taken out.old) (gathered K.taken out.new) result (entry_text entry.now) }
    ensures cause { HasCause (K.faults out.old.sink.now) (K.faults out.new.sink.now) result }
    ensures typed { OnOk result (IsTyped entry.now) }
{
    let mut head = LineBuffer::new();
    push_entry_head(&mut head, entry);
    out.send(head.as_bytes())?;
    gather_changes(out, changes_in(&entry.event))
}

// The changes of a write, a blank before each.
fn gather_changes<K: Sink>(out: &mut GatheringSink<'_, K>, changes: &[Item]) -> Result<(), Failed>
    ensures bytes { Gathers (gathered K.taken out.old) (gathered K.taken out.new) result (changes_text changes.now) }
    ensures cause { HasCause (K.faults out.old.sink.now) (K.faults out.new.sink.now) result }
    ensures typed { OnOk result (All IsItem changes.now) }
{
    for change in changes {
        gather_change(out, change)?;
    }
    Ok(())
}

// A change of a write after a blank.
fn gather_change<K: Sink>(out: &mut GatheringSink<'_, K>, change: &Item) -> Result<(), Failed>
    ensures bytes { Gathers (gathered K.taken out.old) (gathered K.taken out.new) result (codes " " ++ item_text change.now) }
    ensures cause { HasCause (K.faults out.old.sink.now) (K.faults out.new.sink.now) result }
    ensures typed { IsItem change.now }
{
    let mut line = LineBuffer::new();
    line.push(b" ");
    push_item(&mut line, change);
    out.send(line.as_bytes())
}
