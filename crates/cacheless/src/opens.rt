// The relations that a session has open, and the descriptors that it holds of them.

ghost use Rattle.std.specs.Prelude.{◌≡◌, ◌≤◌, map, IfOk, OnOk, OnErr, Some, slice_get};
ghost use Rattle.ddl_effect.specs.Opens.{opens_before};
ghost use Rattle.ddl_effect.specs.Stages.{plan_at};
ghost use Rattle.cacheless.specs.Pins.{PinsOnly};
ghost use Rattle.cacheless.specs.Session.{opening_of, held_in as are_held};
ghost use Rattle.cacheless.specs.Settled.{opens_with, opens_kept as kept_open, opens_well, opens_badly, opens_passed};
ghost use Rattle.local_caches.specs.Caches.{kept_of};

use crate::Opening;
use base_types::{Command, Listed, Name, NoMemory, Oid};
use ddl_effect::{Exec, OpenRelation, Want, without_latest};
use local_caches::LocalCaches;
use std::alloc::Global;
use txn_blocks::TxnBlocks;

// The descriptors that are held at the beginning of a command, where these relations are open: none in a
// failed block.
pub(crate) fn held_in(
    alloc: Global,
    blocks: &TxnBlocks,
    opens: &[OpenRelation],
) -> Result<Listed<Opening>, NoMemory>
    ensures { IfOk result (λ held. held ≡ are_held blocks.now.block opens.now) }
{
    if blocks.is_failed() {
        return Ok(Listed::new(alloc));
    }
    openings_of(alloc, opens)
}

// The descriptors of relations.
pub(crate) fn openings_of(
    alloc: Global,
    opens: &[OpenRelation],
) -> Result<Listed<Opening>, NoMemory>
    ensures { IfOk result (λ openings. openings ≡ map opening_of opens.now) }
{
    let mut openings = Listed::new(alloc);
    for o in opens {
        openings.push(Opening {
            rel: o.rel,
            kind: o.kind,
        })?;
    }
    Ok(openings)
}

// Lets go of all descriptors but those of these relations. Out of memory, nothing changes.
pub(crate) fn unpin_others(
    alloc: Global,
    caches: &mut LocalCaches,
    opens: &[OpenRelation],
) -> Result<(), NoMemory>
    ensures kept { kept_of caches.new ≡ kept_of caches.old }
    ensures pins { OnOk result (PinsOnly caches.old caches.new opens.now) }
{
    let rels = relations_of(alloc, opens)?;
    caches.unpin_others(rels.as_slice());
    Ok(())
}

// The oids of these.
fn relations_of(alloc: Global, opens: &[OpenRelation]) -> Result<Listed<Oid>, NoMemory>
    ensures { IfOk result (λ rels. rels ≡ map (λ o. o.rel) opens.now) }
{
    let mut rels = Listed::new(alloc);
    for o in opens {
        rels.push(o.rel)?;
    }
    Ok(rels)
}

// The relations that are open after the running command, which has this number.
pub(crate) fn opens_after(
    alloc: Global,
    number: u32,
    command: &Command,
    exec: &Exec,
    blocked: bool,
    blocks: &TxnBlocks,
    opened: &[Opening],
    opens: &[OpenRelation],
) -> Result<Listed<OpenRelation>, NoMemory>
    ensures { IfOk result (λ after. after ≡ opens_passed (plan_at opens.now exec.now) number command.now blocked blocks.now.levels opened.now opens.now) }
{
    match exec.next() {
        Want::Done(_) => opens_after_well(alloc, number, command, blocks, opened, opens),
        _ => opens_after_badly(alloc, number, blocked, blocks, opens),
    }
}

// The same after one that failed.
fn opens_after_badly(
    alloc: Global,
    number: u32,
    blocked: bool,
    blocks: &TxnBlocks,
    opens: &[OpenRelation],
) -> Result<Listed<OpenRelation>, NoMemory>
    ensures { IfOk result (λ after. after ≡ opens_badly number blocked blocks.now.levels opens.now) }
{
    if blocked {
        return copied(alloc, opens);
    }
    opened_before(alloc, blocks.level_from(number), opens)
}

// Those of these relations that were opened by commands before this one.
pub(crate) fn opened_before(
    alloc: Global,
    from: u32,
    opens: &[OpenRelation],
) -> Result<Listed<OpenRelation>, NoMemory>
    ensures { IfOk result (λ left. left ≡ opens_before from opens.now) }
{
    let mut left = Listed::new(alloc);
    for o in opens {
        if o.command < from {
            left.push(*o)?;
        }
    }
    Ok(left)
}

// The same after one that came out well.
fn opens_after_well(
    alloc: Global,
    number: u32,
    command: &Command,
    blocks: &TxnBlocks,
    opened: &[Opening],
    opens: &[OpenRelation],
) -> Result<Listed<OpenRelation>, NoMemory>
    ensures { IfOk result (λ after. after ≡ opens_well number command.now blocks.now.levels opened.now opens.now) }
{
    match command {
        Command::OpenRel(name) => opens_one_more(alloc, number, *name, opened, opens),
        Command::CloseRel(name) => Ok(without_latest(name, copied(alloc, opens)?)),
        Command::RollbackTo(name) => { opened_before(alloc, blocks.level_of(name, number), opens) }
        Command::Commit | Command::Rollback => Ok(Listed::new(alloc)),
        _ => copied(alloc, opens),
    }
}

// The same after an `open` of this name.
fn opens_one_more(
    alloc: Global,
    number: u32,
    name: Name,
    opened: &[Opening],
    opens: &[OpenRelation],
) -> Result<Listed<OpenRelation>, NoMemory>
    ensures { IfOk result (λ after. after ≡ opens_with number name opened.now opens.now) }
{
    let mut after = copied(alloc, opens)?;
    if let Some(o) = opened.get(opens.len()) {
        after.push(OpenRelation {
            name,
            rel: o.rel,
            kind: o.kind,
            command: number,
        })?;
    }
    Ok(after)
}

// A copy of these.
fn copied(alloc: Global, opens: &[OpenRelation]) -> Result<Listed<OpenRelation>, NoMemory>
    ensures { IfOk result (λ copy. copy ≡ opens.now) }
{
    let mut copy = Listed::new(alloc);
    for o in opens {
        copy.push(*o)?;
    }
    Ok(copy)
}
