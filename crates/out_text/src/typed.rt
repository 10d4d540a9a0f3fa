ghost use Rattle.std.specs.List.{All};
ghost use Rattle.event_kinds.specs.Entries.{IsItem, IsLine};
ghost use Rattle.out_text.specs.Typed.{IsTyped};

use base_types::LineBuffer;
use event_kinds::{Entry, Item, Line, changes_in, push_entry_head, push_item, push_line_head};

// What the types of an entry's parts say is known where the parts are read, so these functions read
// them all, and do nothing else.

// Reads the entries of a history.
pub(crate) fn look_at_entries(history: &[Entry])
    ensures { All IsTyped history.now }
{
    for entry in history {
        look_at_entry(entry);
    }
}

// Reads the parts of an entry.
fn look_at_entry(entry: &Entry)
    ensures { IsTyped entry.now }
{
    let mut head = LineBuffer::new();
    push_entry_head(&mut head, entry);
    look_at_changes(changes_in(&entry.event));
}

// Reads the changes of a write.
fn look_at_changes(changes: &[Item])
    ensures { All IsItem changes.now }
{
    for change in changes {
        let mut line = LineBuffer::new();
        push_item(&mut line, change);
    }
}

// Reads answer lines.
pub(crate) fn look_at_lines(lines: &[Line])
    ensures { All IsLine lines.now }
{
    for line in lines {
        look_at_line(line);
    }
}

// Reads the parts of an answer line.
fn look_at_line(line: &Line)
    ensures { IsLine line.now }
{
    let mut head = LineBuffer::new();
    push_line_head(&mut head, line);
    let _ = line.text.as_bytes();
}
