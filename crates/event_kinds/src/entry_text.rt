ghost use Rattle.std.specs.Prelude.{◌≡◌, ◌++◌, codes, OnOk, OnErr};
ghost use Rattle.std.specs.List.{All};
ghost use Rattle.base_types.specs.Adding.{Adds};
ghost use Rattle.event_kinds.specs.Entries.{HasChange, IsEntry, IsItem};
ghost use Rattle.event_kinds.specs.Texts.{changes_text, entry_text, item_text};

use crate::event_text::{changes_in, push_entry_head, push_item};
use crate::{Entry, Item};
use base_types::{LineBuffer, NoMemory, add_text, whole_or_nothing};

/// Adds the text of an entry to `out`, without the line's end; out of memory leaves `out` as it
/// was. What was written is read back as the same entry ([`crate::read_entry`]), but for a write
/// with no change.
pub fn write_entry(entry: &Entry, out: &mut Vec<u8>) -> Result<(), NoMemory>
    ensures ok { OnOk result (out.new.items ≡ out.old.items ++ entry_text entry.now) }
    ensures err { OnErr result (out.new.items ≡ out.old.items) }
    ensures spelled { OnOk result (HasChange entry.now.event → IsEntry entry.now) }
{
    let before = out.len();
    let added = add_entry(entry, out);
    whole_or_nothing(out, before, added)
}

// The text of an entry, or a prefix of it.
fn add_entry(entry: &Entry, out: &mut Vec<u8>) -> Result<(), NoMemory>
    ensures text { Adds out.old.items out.new.items result (entry_text entry.now) }
    ensures spelled { OnOk result (HasChange entry.now.event → IsEntry entry.now) }
{
    let mut head = LineBuffer::new();
    push_entry_head(&mut head, entry);
    add_text(head.as_bytes(), out)?;
    add_changes(changes_in(&entry.event), out)
}

// The changes of a write, a blank before each, or a prefix of them.
fn add_changes(changes: &[Item], out: &mut Vec<u8>) -> Result<(), NoMemory>
    ensures text { Adds out.old.items out.new.items result (changes_text changes.now) }
    ensures spelled { OnOk result (All IsItem changes.now) }
{
    for change in changes {
        add_change(change, out)?;
    }
    Ok(())
}

// A change after a blank, or a prefix of it.
fn add_change(change: &Item, out: &mut Vec<u8>) -> Result<(), NoMemory>
    ensures text { Adds out.old.items out.new.items result (codes " " ++ item_text change.now) }
    ensures spelled { IsItem change.now }
{
    let mut line = LineBuffer::new();
    line.push(b" ");
    push_item(&mut line, change);
    add_text(line.as_bytes(), out)
}
