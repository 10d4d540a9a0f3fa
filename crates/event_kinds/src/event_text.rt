ghost use Rattle.std.specs.Prelude.{◌≡◌, ◌≤◌, ◌+◌, ◌++◌, length, codes, decimal};
ghost use Rattle.base_types.specs.Names.{IsAnyName};
ghost use Rattle.base_types.specs.Words.{mode_word};
ghost use Rattle.base_types.specs.declared.line_buffer.TheConstants.{LINE_ROOM};
ghost use Rattle.event_kinds.specs.declared.entry.Event.TheVariants as events;
ghost use Rattle.event_kinds.specs.Entries.{IsEntryHead, IsHead, IsItem, IsNumber, IsPurpose};
ghost use Rattle.event_kinds.specs.Texts.{item_text, purpose_text, event_head, place_text, entry_head, line_head, changes_of};

use crate::row_text::{push_key, push_row};
use crate::{Entry, Event, Item, Line};
use base_types::{LineBuffer, Mode, Name, Oid, Purpose};

/// Adds the text of a change, of at most 401 bytes. A change that can be made is one that is read.
pub fn push_item(line: &mut LineBuffer, item: &Item)
    requires { length line.old + 401 ≤ LINE_ROOM }
    ensures text { line.new ≡ line.old ++ item_text item.now }
    ensures short { length line.new ≤ length line.old + 401 }
    ensures spelled { IsItem item.now }
{
    match item {
        Item::Add(row) => {
            line.push(b"+");
            push_row(line, row);
        }
        Item::Put(row) => {
            line.push(b"=");
            push_row(line, row);
        }
        Item::Remove(key) => {
            line.push(b"-");
            push_key(line, key);
        }
        Item::Force(rel) => {
            line.push(b"!");
            line.push_number(rel.0);
        }
    }
}

// Adds the text of a scan, of at most 90 bytes.
fn push_purpose(line: &mut LineBuffer, purpose: &Purpose)
    requires { length line.old + 90 ≤ LINE_ROOM }
    ensures text { line.new ≡ line.old ++ purpose_text purpose.now }
    ensures short { length line.new ≤ length line.old + 90 }
    ensures spelled { IsPurpose purpose.now }
{
    match purpose {
        Purpose::RelName(name) => {
            line.push(b"relname ");
            line.push(name.as_bytes());
        }
        Purpose::RelOid(oid) => push_number_after(line, b"reloid ", oid.0),
        Purpose::AttName(rel, name) => {
            line.push(b"attname ");
            line.push_number(rel.0);
            line.push(b" ");
            line.push(name.as_bytes());
        }
        Purpose::AttList(rel) => push_number_after(line, b"attlist ", rel.0),
        Purpose::Class(rel) => push_number_after(line, b"class ", rel.0),
        Purpose::Attribute(rel) => push_number_after(line, b"attribute ", rel.0),
        Purpose::AttrDef(rel) => push_number_after(line, b"attrdef ", rel.0),
        Purpose::Constraint(rel) => push_number_after(line, b"constraint ", rel.0),
        Purpose::Index(rel) => push_number_after(line, b"index ", rel.0),
        Purpose::Trigger(rel) => push_number_after(line, b"trigger ", rel.0),
        Purpose::IndexRow(rel) => push_number_after(line, b"indexrow ", rel.0),
    }
}

// A number after a word.
fn push_number_after(line: &mut LineBuffer, word: &[u8], number: u32)
    requires room { length line.old + 30 ≤ LINE_ROOM }
    requires word { length word.now ≤ 20 }
    ensures text { line.new ≡ line.old ++ (word.now ++ decimal number) }
    ensures short { length line.new ≤ length line.old + 30 }
    ensures number { IsNumber number }
{
    line.push(word);
    line.push_number(number);
}

// A lock that was asked for.
fn push_lock(line: &mut LineBuffer, word: &[u8], rel: Oid, mode: Mode)
    requires room { length line.old + 40 ≤ LINE_ROOM }
    requires word { length word.now ≤ 20 }
    ensures text { line.new ≡ line.old ++ (word.now ++ decimal rel.0 ++ codes " " ++ mode_word mode) }
    ensures short { length line.new ≤ length line.old + 40 }
    ensures number { IsNumber rel.0 }
{
    line.push(word);
    line.push_number(rel.0);
    line.push(b" ");
    line.push(mode.word());
}

// A lock that was refused, and who holds it.
fn push_refused(line: &mut LineBuffer, rel: Oid, mode: Mode, holder: u32, held: Mode)
    requires { length line.old + 120 ≤ LINE_ROOM }
    ensures text { line.new ≡ line.old ++ event_head (events.LockHeld rel mode holder held) }
    ensures short { length line.new ≤ length line.old + 120 }
    ensures numbers { IsNumber rel.0 × IsNumber holder }
{
    push_lock(line, b"lock ", rel, mode);
    line.push(b" held ");
    line.push_number(holder);
    line.push(b" ");
    line.push(held.word());
}

// A name that was refused, up to what has it.
fn push_clash(line: &mut LineBuffer, name: &Name, word: &[u8], number: u32)
    requires room { length line.old + 100 ≤ LINE_ROOM }
    requires word { length word.now ≤ 20 }
    ensures text { line.new ≡ line.old ++ (codes "clash " ++ name.now ++ word.now ++ decimal number) }
    ensures short { length line.new ≤ length line.old + 100 }
    ensures spelled { IsAnyName name.now × IsNumber number }
{
    line.push(b"clash ");
    line.push(name.as_bytes());
    line.push(word);
    line.push_number(number);
}

// Adds the text of an event, at most 120 bytes; of a write, what comes before its changes.
fn push_event_head(line: &mut LineBuffer, event: &Event)
    requires { length line.old + 120 ≤ LINE_ROOM }
    ensures text { line.new ≡ line.old ++ event_head event.now }
    ensures short { length line.new ≤ length line.old + 120 }
    ensures spelled { IsHead event.now }
{
    match event {
        Event::Start => line.push(b"start"),
        Event::Look { yes } => line.push(if *yes { b"look yes" } else { b"look no" }),
        Event::Fetch { count } => push_number_after(line, b"fetch ", *count),
        Event::FetchReset => line.push(b"fetch reset"),
        Event::LockOk { rel, mode } => {
            push_lock(line, b"lock ", *rel, *mode);
            line.push(b" ok");
        }
        Event::LockHeld {
            rel,
            mode,
            holder,
            held,
        } => push_refused(line, *rel, *mode, *holder, *held),
        Event::Unlock { rel, mode } => push_lock(line, b"unlock ", *rel, *mode),
        Event::Scan { purpose, rows } => {
            line.push(b"scan ");
            push_purpose(line, purpose);
            line.push(b" rows ");
            line.push_number(*rows);
        }
        Event::Write { xid, .. } => push_number_after(line, b"write ", xid.0),
        Event::ClashRow { name, rel } => push_clash(line, name, b" row ", rel.0),
        Event::ClashRunning { name, xid } => push_clash(line, name, b" running ", xid.0),
        Event::Visible { xid } => push_number_after(line, b"visible ", xid.0),
        Event::Publish { count } => push_number_after(line, b"publish ", *count),
        Event::Release { from } => push_number_after(line, b"release ", *from),
        Event::Gone { from } => push_number_after(line, b"gone ", *from),
        Event::Fail => line.push(b"fail"),
        Event::Stop => line.push(b"stop"),
    }
}

// Adds the backend and the command of an entry or a line.
fn push_place(line: &mut LineBuffer, backend: u32, command: u32)
    requires { length line.old + 22 ≤ LINE_ROOM }
    ensures text { line.new ≡ line.old ++ place_text backend command }
    ensures short { length line.new ≤ length line.old + 22 }
    ensures numbers { IsNumber backend × IsNumber command }
{
    line.push_number(backend);
    line.push(b" ");
    line.push_number(command);
    line.push(b" ");
}

/// Adds the text of an entry, at most 144 bytes; of a write, what comes before its changes.
pub fn push_entry_head(line: &mut LineBuffer, entry: &Entry)
    requires { length line.old + 144 ≤ LINE_ROOM }
    ensures text { line.new ≡ line.old ++ entry_head entry.now }
    ensures short { length line.new ≤ length line.old + 144 }
    ensures spelled { IsEntryHead entry.now }
{
    line.push(b"h ");
    push_place(line, entry.backend, entry.command);
    push_event_head(line, &entry.event);
}

/// Adds an answer line up to its text, at most 24 bytes.
pub fn push_line_head(head: &mut LineBuffer, line: &Line)
    requires { length head.old + 24 ≤ LINE_ROOM }
    ensures text { head.new ≡ head.old ++ line_head line.now }
    ensures short { length head.new ≤ length head.old + 24 }
    ensures numbers { IsNumber line.now.backend × IsNumber line.now.command }
{
    head.push(b"l ");
    push_place(head, line.backend, line.command);
}

/// The changes of a write; any other event has none.
pub fn changes_in(event: &Event) -> &[Item]
    ensures { result.now ≡ changes_of event.now }
{
    match event {
        Event::Write { items, .. } => items.as_slice(),
        _ => &[],
    }
}
