ghost use Rattle.std.specs.Prelude.{◌≡◌};
ghost use Rattle.cacheless.specs.State.{relation_made as relation_of, change_makes as relation_by};

use crate::Backend;
use base_types::{Change, NoMemory, Oid, Row};
use ddl_effect::Draft;
use seg_calls::{Seg, WriteRefusal};
use std::alloc::Global;

impl Backend {
    ghost use Rattle.std.specs.Prelude.{◌≡◌, OnOk, OnErr};
    ghost use Rattle.backend_core.specs.Agrees.{IsReady};
    ghost use Rattle.backend_core.specs.declared.next.Next.TheVariants as nexts;
    ghost use Rattle.backend_core.specs.Steps.{Enters, IsRefused, IsNextOf};
    ghost use Rattle.backend_core.specs.Noted.{IsNoted};

    // Writes the draft of its command, whose messages the rebuilds are told, or ends the command where a
    // name that it gives is taken. Out of memory, the backend may not be used any more.
    pub(crate) fn write<L: Seg>(&mut self, alloc: Global, seg: &mut L) -> Result<(), NoMemory>
        requires ready { IsReady (L.script seg.old) (L.history seg.old) self.old }
        requires next { IsNextOf self.old (nexts.Write) }
        ensures script { L.script seg.new ≡ L.script seg.old }
        ensures enters { OnOk result (Enters (L.script seg.old) (L.history seg.old) (L.history seg.new) (L.promised seg.old) (L.promised seg.new) self.old self.new) }
        ensures noted { OnOk result (IsNoted (L.script seg.old) (L.history seg.old) (L.history seg.new) self.old (nexts.Write) self.new) }
        ensures refused { OnErr result (IsRefused (L.script seg.old) (L.history seg.old) (L.history seg.new) (L.promised seg.old) (L.promised seg.new) self.old.progress.id) }
        ensures life { self.new.life ≡ self.old.life }
    {
        self.progress.reserve_lock()?;
        let Some(draft) = self.progress.exec.draft() else {
            unreachable!()
        };
        match seg.write(self.progress.id, self.progress.finished + 1, draft) {
            Ok(written) => {
                let made = relation_made(draft, written.first_oid);
                self.progress
                    .enter_write(alloc, written.xid, written.messages.as_slice(), made)?;
                self.frames
                    .tell_each(&self.progress, written.messages.as_slice())
            }
            Err(refusal) => match refusal {
                WriteRefusal::Clash(name, clash) => {
                    self.progress.enter_clash(name, clash);
                    Ok(())
                }
                WriteRefusal::NoMemory => Err(NoMemory),
            },
        }
    }
}

// The relation that a draft makes, where the first new oid is this one: its row is the first of the changes, if it makes one.
fn relation_made(draft: &Draft, first: Oid) -> Option<Oid>
    ensures { result ≡ relation_of draft.now.changes first }
{
    match draft.changes.as_slice().first() {
        Some(change) => change_makes(change, first),
        None => None,
    }
}

// The relation that a change makes, where the first new oid is this one, if it makes one.
fn change_makes(change: &Change, first: Oid) -> Option<Oid>
    ensures { result ≡ relation_by first change.now }
{
    match change {
        Change::Insert(Row::Class { .. }) => Some(first),
        _ => None,
    }
}
