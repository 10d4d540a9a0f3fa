use crate::watched::Watched;
use base_types::NoMemory;
use event_kinds::Entry;
use history_ledger::Ledger;
use std::alloc::Global;

// What entries leave, where they are a legal history over a queue of this size; and what became of what was read.
pub(crate) fn held(
    alloc: Global,
    size: u32,
    entries: &[Entry],
    own: &mut Option<Watched>,
    next: &mut Option<Watched>,
) -> Result<Option<Ledger>, NoMemory> {
    let mut ledger = Ledger::new(alloc);
    let mut number = 0usize;
    for e in entries {
        let follows = ledger.may_follow(e, size)?;
        if !follows {
            return Ok(None);
        }
        number = number.saturating_add(1);
        note(own, &ledger, e, number)?;
        note(next, &ledger, e, number)?;
        ledger.enter(e)?;
    }
    Ok(Some(ledger))
}

fn note(
    watched: &mut Option<Watched>,
    ledger: &Ledger,
    e: &Entry,
    number: usize,
) -> Result<(), NoMemory> {
    if let Some(watched) = watched {
        watched.note(ledger, e, number)?;
    }
    Ok(())
}
