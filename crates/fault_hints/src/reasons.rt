use crate::coming::{Coming, entry_line, scan_coming};
use crate::holding::held;
use crate::nexts::push_next;
use crate::watched::{Watched, is_of_both};
use base_types::NoMemory;
use check_tool::{CheckKind, leading_entries};
use event_kinds::{Entry, Event};
use history_ledger::Ledger;
use std::alloc::Global;
use std::fmt::Write;

// As many messages as a fetch can name.
const ALL_MESSAGES: u32 = u32::MAX;

// The most messages that one fetch takes.
pub(crate) const MOST_FETCHED: usize = 32;

// An entry's place: what is before it over a queue of this size, and what a walk makes there.
#[derive(Clone, Copy)]
pub(crate) struct Case<'a> {
    pub(crate) kind: CheckKind,
    pub(crate) size: u32,
    pub(crate) before: &'a [Entry],
    pub(crate) coming: &'a Coming,
}

// Why an entry may not come there, whose backend may make one.
pub(crate) fn reason(
    alloc: Global,
    text: &mut String,
    case: &Case,
    e: &Entry,
) -> Result<(), NoMemory> {
    let mut own = watched(Some(e));
    let mut next = scan_due(alloc, case)?;
    let Some(ledger) = held(alloc, case.size, case.before, &mut own, &mut next)? else {
        return Ok(text.push_str("it may not come here")?);
    };
    let mut is_said = false;
    if !of_event(text, &ledger, case.kind, case.size, e)? {
        is_said = of_rule(alloc, text, &ledger, case, e, own, next)?;
    }
    push_next(
        alloc,
        text,
        case.coming,
        case.before.len(),
        Some(e),
        next,
        is_said,
    )
}

// What the scan reads that comes; or the first one that may come, where a walk makes another entry before and only scans and looks may.
fn scan_due(alloc: Global, case: &Case) -> Result<Option<Watched>, NoMemory> {
    let after = case.coming.after(case.before.len());
    if !after.is_empty() {
        return Ok(watched(scan_coming(after)));
    }
    let mut due = None;
    for line in case.coming.few.as_slice() {
        let leading = leading_entries(alloc, line.as_slice())?;
        match leading.entries.as_slice().first() {
            Some(e) if is_look(e) => {}
            Some(e) if matches!(e.event, Event::Scan { .. }) => {
                if due.is_none() {
                    due = watched(Some(e));
                }
            }
            _ => return Ok(None),
        }
    }
    Ok(due)
}

// Whether a look comes, or nothing else may come where a walk makes another entry before.
fn look_due(alloc: Global, case: &Case) -> Result<bool, NoMemory> {
    if let Some(first) = case.coming.after(case.before.len()).first() {
        return Ok(is_look(first));
    }
    for line in case.coming.few.as_slice() {
        let leading = leading_entries(alloc, line.as_slice())?;
        match leading.entries.as_slice().first() {
            Some(e) if is_look(e) => {}
            _ => return Ok(false),
        }
    }
    Ok(!case.coming.few.is_empty())
}

fn is_look(e: &Entry) -> bool {
    matches!(e.event, Event::Look { .. })
}

// Says of an entry out of turn that it is a needless scan too, where it is one.
pub(crate) fn push_needless_too(
    alloc: Global,
    text: &mut String,
    size: u32,
    before: &[Entry],
    e: &Entry,
) -> Result<(), NoMemory> {
    let (mut own, mut next) = (watched(Some(e)), None);
    if own.is_none() {
        return Ok(());
    }
    let Some(ledger) = held(alloc, size, before, &mut own, &mut next)? else {
        return Ok(());
    };
    if ledger.may_follow(e, size)? {
        if let Some(read) = needless(own) {
            text.push_str(", and ")?;
            push_needless(text, read)?;
        }
    }
    Ok(())
}

// What a scan's backend reads by it.
fn watched(e: Option<&Entry>) -> Option<Watched> {
    let e = e?;
    match &e.event {
        Event::Scan { purpose, .. } => Some(Watched::new(e.backend, *purpose)),
        _ => None,
    }
}

// Why an entry may not come whose numbers are right. Answers whether this says since when what the scan that is due reads is stale.
fn of_rule(
    alloc: Global,
    text: &mut String,
    ledger: &Ledger,
    case: &Case,
    e: &Entry,
    own: Option<Watched>,
    next: Option<Watched>,
) -> Result<bool, NoMemory> {
    if !ledger.may_follow(e, case.size)? {
        let why = standing(case.before, e).unwrap_or(rule(&e.event));
        text.push_str(why)?;
        return Ok(false);
    }
    if let Some(read) = needless(own) {
        push_needless(text, read)?;
        return Ok(false);
    }
    if is_fetch_due(case) {
        text.push_str("a fetch is due, as the last look said yes")?;
        return Ok(false);
    }
    let is_look_due = !is_look(e) && look_due(alloc, case)?;
    let said = left_out(text, e, own, next, is_look_due)?;
    if matches!(said, Said::Nothing) {
        other(alloc, text, case, e)?;
    }
    Ok(matches!(said, Said::Stale))
}

// What is said of what is left out before an entry.
#[derive(Clone, Copy)]
enum Said {
    Nothing,
    Stale,
    Due,
}

// Whether the fetch comes that a look is followed by.
fn is_fetch_due(case: &Case) -> bool {
    match case.coming.after(case.before.len()).first() {
        Some(first) => matches!(first.event, Event::Fetch { .. } | Event::FetchReset),
        None => false,
    }
}

// Of an entry that the history allows, and the command doesn't make: the scan or the look that is left out before it.
fn left_out(
    text: &mut String,
    e: &Entry,
    own: Option<Watched>,
    next: Option<Watched>,
    is_look_due: bool,
) -> Result<Said, NoMemory> {
    let is_this = is_of_both(own, next);
    if is_look_due && is_this {
        text.push_str("a look is due before this scan")?;
        return Ok(Said::Due);
    }
    if let Some(read) = left_stale(next) {
        if !is_look(e) && !is_this {
            write!(
                text,
                "a stale serve, as what entry {} read is stale by entry {}, and isn't read again first",
                read.read, read.stale
            )?;
            return Ok(Said::Stale);
        }
    }
    if is_look_due {
        text.push_str("a look is due first")?;
        return Ok(Said::Due);
    }
    if next.is_some() && !is_look(e) && !is_this {
        text.push_str("a scan is due first")?;
        return Ok(Said::Due);
    }
    Ok(Said::Nothing)
}

// The same, where none is left out: that it stands there already, that the command before isn't done, or that the command
// does something else.
fn other(alloc: Global, text: &mut String, case: &Case, e: &Entry) -> Result<(), NoMemory> {
    let before = case.before;
    if let Some(last) = before.last() {
        if !is_look(e) && entry_line(alloc, last)?.as_slice() == entry_line(alloc, e)?.as_slice() {
            write!(text, "it is entry {} once more", before.len())?;
            return Ok(());
        }
    }
    if let Some(next) = case.coming.after(before.len()).first() {
        if next.backend == e.backend && next.command < e.command {
            write!(
                text,
                "command {} of backend {} isn't done",
                next.command, next.backend
            )?;
            return Ok(());
        }
    }
    write!(
        text,
        "command {} of backend {} does something else next",
        e.command, e.backend
    )?;
    Ok(())
}

// What was read, where that is stale.
fn left_stale(next: Option<Watched>) -> Option<Watched> {
    match next {
        Some(read) if read.read > 0 && read.stale > 0 => Some(read),
        _ => None,
    }
}

// The entry that read what a scan would read again, where that serves still.
fn needless(own: Option<Watched>) -> Option<usize> {
    match own {
        Some(own) if own.read > 0 && own.stale == 0 => Some(own.read),
        _ => None,
    }
}

fn push_needless(text: &mut String, read: usize) -> Result<(), NoMemory> {
    write!(
        text,
        "the scan is needless, as what entry {read} read serves still"
    )?;
    Ok(())
}

// Why a backend may make no entry of this kind now, whatever its command is.
fn standing(before: &[Entry], e: &Entry) -> Option<&'static str> {
    let last = before.iter().rev().find(|other| other.backend == e.backend);
    let ends = matches!(
        e.event,
        Event::Publish { .. } | Event::Release { .. } | Event::Stop | Event::Start | Event::Fail
    );
    match last.map(|last| &last.event) {
        _ if ends => None,
        None => Some("a backend starts first"),
        Some(Event::Stop) => Some("its backend has stopped"),
        Some(Event::Visible { .. } | Event::Publish { .. }) => {
            Some("after 'visible' a backend sends its messages and releases, and does nothing else")
        }
        Some(Event::Gone { .. }) => Some("after 'gone' comes the release of these commands"),
        _ => None,
    }
}

// What the entries before say of the entry, where that is a number. Answers whether it is.
fn of_event(
    text: &mut String,
    ledger: &Ledger,
    kind: CheckKind,
    size: u32,
    e: &Entry,
) -> Result<bool, NoMemory> {
    match &e.event {
        Event::Look { yes } => of_look(text, ledger, kind, e.backend, *yes),
        Event::Fetch { count } => of_fetch(text, ledger, size, e.backend, *count),
        Event::FetchReset => of_reset(text, ledger, size, e.backend),
        Event::Scan { purpose, rows } => {
            let seen = ledger.scan(e.backend, purpose)?.len();
            let differs = seen != *rows as usize;
            if differs {
                push_count(text, seen, "row", "is seen", "are seen")?;
            }
            Ok(differs)
        }
        _ => Ok(false),
    }
}

// How many messages wait for a backend.
pub(crate) fn waiting(ledger: &Ledger, b: u32) -> usize {
    ledger.fetched(b, ALL_MESSAGES).len()
}

// A look of `run` may say no though messages have come since its backend's last entry.
fn of_look(
    text: &mut String,
    ledger: &Ledger,
    kind: CheckKind,
    b: u32,
    yes: bool,
) -> Result<bool, NoMemory> {
    let count = waiting(ledger, b);
    let differs = match kind {
        CheckKind::Walk => yes != (count > 0),
        CheckKind::Run => yes && count == 0,
    };
    if differs {
        push_waiting(text, count)?;
    }
    Ok(differs)
}

fn of_fetch(
    text: &mut String,
    ledger: &Ledger,
    size: u32,
    b: u32,
    fetched: u32,
) -> Result<bool, NoMemory> {
    let count = waiting(ledger, b);
    let differs = count > size as usize || count.min(MOST_FETCHED) != fetched as usize;
    if differs {
        push_waiting(text, count)?;
        push_room(text, count, size)?;
    }
    Ok(differs)
}

fn of_reset(text: &mut String, ledger: &Ledger, size: u32, b: u32) -> Result<bool, NoMemory> {
    let count = waiting(ledger, b);
    let differs = count <= size as usize;
    if differs {
        push_waiting(text, count)?;
        write!(text, ", and the queue holds {size}")?;
    }
    Ok(differs)
}

fn push_room(text: &mut String, count: usize, size: u32) -> Result<(), NoMemory> {
    if count > size as usize {
        write!(text, ", and the queue holds {size}: it is a reset")?;
    }
    Ok(())
}

fn push_waiting(text: &mut String, count: usize) -> Result<(), NoMemory> {
    push_count(text, count, "message", "waits", "wait")
}

// A number of things, and what they do.
fn push_count(
    text: &mut String,
    count: usize,
    thing: &str,
    does: &str,
    do_: &str,
) -> Result<(), NoMemory> {
    match count {
        0 => write!(text, "no {thing} {does}")?,
        1 => write!(text, "1 {thing} {does}")?,
        _ => write!(text, "{count} {thing}s {do_}")?,
    }
    Ok(())
}

// The rule that an entry breaks, by its kind.
fn rule(event: &Event) -> &'static str {
    match event {
        Event::Start => "a backend starts once, in command 0",
        Event::Stop => "a backend stops once, when no transaction of it runs",
        Event::LockOk { .. } => "the lock isn't free, or is held already",
        Event::LockHeld { .. } => "that holder isn't the first in the way",
        Event::Unlock { .. } => "the lock isn't one that this command took",
        Event::Write { .. } => "what is read, locked or running doesn't allow the write",
        Event::ClashRow { .. } | Event::ClashRunning { .. } => "the name isn't in use so",
        Event::Visible { .. } => "the transaction has nothing to make visible, or another number",
        Event::Publish { .. } => "so many messages aren't the next to send",
        Event::Release { .. } =>
            "messages are still to send, a write is still open, or another command was the first",
        Event::Gone { .. } => "there is no write to take back",
        Event::Look { .. } => "messages waited at its backend's last entry",
        Event::Fetch { .. } | Event::FetchReset =>
            "a look that said yes comes right before a fetch",
        Event::Fail => "no command of an output runs out of memory",
        _ => "the entries before don't allow it",
    }
}
