ghost use Rattle.std.specs.Prelude.{◌≡◌, ◌++◌, ◌∷◌, ◌==◌, ◌&&◌, [], true, not, filter, OnOk, OnErr};
ghost use Rattle.std.specs.List.{list_any};
ghost use Rattle.lock_modes.specs.Grants.{is_lock, holds as do_hold, first_conflict as first_of_others, stays};
ghost use Rattle.lock_modes.specs.Changes.{is_kept, is_released};

use crate::Grant;
use crate::change::{LockChange, Released, is_of};
use crate::grant_lists::GrantLists;
use crate::lock_table::{add, first_in_the_way, is_held, note, reserve, take_out_each};
use base_types::{Mode, NoMemory, Oid};
use ghost_list::GhostList;
use std::alloc::Global;
use std::marker::Model;

/// Grants of locks that were read somewhere, whether they exclude each other or not. A [`LockTable`](crate::LockTable)
/// grants locks itself, and what it holds excludes each other.
pub struct GrantTable {
    by_rel: GrantLists,
    by_backend: GrantLists,
    // all that was granted and released, in order; contracts alone see it
    changes: GhostList<LockChange>,
}

// Written out, and not derived: so it is proved here, and not again wherever one is dropped.
impl Drop for GrantTable {
    fn drop(self) {
        let GrantTable {
            by_rel: _,
            by_backend: _,
            changes: _,
        } = self;
    }
}

impl Model for GrantTable {
    ghost use Rattle.std.specs.Prelude.{List};
    ghost use Rattle.lock_modes.specs.declared.grant.Grant.{Grant};

    ghost Value = { List Grant };

    ghost use Rattle.lock_modes.specs.Changes.{held_after};
    ghost use Rattle.lock_modes.specs.Kept.{Holds};

    ghost view = { λ table. held_after table.changes.items };

    ghost invariant = { λ table. Holds table.by_rel table.by_backend (held_after table.changes.items) };
}

impl GrantTable {
    /// No grants, which takes no memory.
    pub fn new(alloc: Global) -> GrantTable
        ensures { result ≡ [] }
    {
        GrantTable {
            by_rel: GrantLists::new(alloc),
            by_backend: GrantLists::new(alloc),
            changes: GhostList::new(),
        }
    }

    /// Whether a backend holds the mode on the relation (`LockHeldByMe` in
    /// `src/backend/storage/lmgr/lock.c`).
    pub fn holds(&self, backend: u32, rel: Oid, mode: Mode) -> bool
        ensures { result ≡ do_hold self.now backend rel mode }
    {
        is_held(self.by_rel.get(rel.0), backend, rel, mode)
    }

    /// Whether a backend was granted a mode that it holds on the relation in its command of this number.
    pub fn has_granted(&self, backend: u32, command: u32, rel: Oid, mode: Mode) -> bool
        ensures { result ≡ list_any (λ g. is_lock backend rel mode g && (g.command == command)) self.now }
    {
        is_granted(self.by_rel.get(rel.0), backend, command, rel, mode)
    }

    /// The first grant of another backend on the relation that conflicts with the mode
    /// (`LockCheckConflicts` in `src/backend/storage/lmgr/lock.c`).
    pub fn first_conflict(&self, backend: u32, rel: Oid, mode: Mode) -> Option<Grant>
        ensures { result ≡ first_of_others self.now backend rel mode }
    {
        first_in_the_way(self.by_rel.get(rel.0), backend, rel, mode)
    }

    /// One more grant, whoever holds what. Out of memory, nothing changes.
    pub fn grant(&mut self, grant: Grant) -> Result<(), NoMemory>
        ensures ok { OnOk result (self.new ≡ self.old ++ grant ∷ []) }
        ensures err { OnErr result (self.new ≡ self.old) }
    {
        let grants = [grant];
        reserve(&mut self.by_rel, &mut self.by_backend, &grants)?;
        add(
            &mut self.by_rel,
            &mut self.by_backend,
            &mut self.changes,
            &grants,
        );
        Ok(())
    }

    /// A backend releases a mode on a relation, if it holds it (`LockRelease` in
    /// `src/backend/storage/lmgr/lock.c`).
    pub fn unlock(&mut self, backend: u32, rel: Oid, mode: Mode)
        ensures { self.new ≡ filter (λ g. not (is_lock backend rel mode g)) self.old }
    {
        self.take_out(backend, Released::Lock { backend, rel, mode });
    }

    /// A backend releases what it was granted in commands of this number and above (`LockReleaseAll`
    /// in `src/backend/storage/lmgr/lock.c`).
    pub fn release(&mut self, backend: u32, from: u32)
        ensures { self.new ≡ filter (stays backend from) self.old }
    {
        self.take_out(backend, Released::From { backend, from });
    }

    // Takes out what a backend releases.
    fn take_out(&mut self, backend: u32, released: Released)
        requires { (g : _) → is_released released g ≡ true → (g.backend == backend) ≡ true }
        ensures { self.new ≡ filter (is_kept released) self.old }
    {
        take_out_each(&mut self.by_rel, self.by_backend.get(backend), &released);
        self.by_backend.take_out(backend, &released);
        note(&mut self.changes, &LockChange::Release(released));
    }
}

// Whether one of these grants is of the mode on the relation to the backend, in this command.
fn is_granted(grants: &[Grant], backend: u32, command: u32, rel: Oid, mode: Mode) -> bool
    ensures { result ≡ list_any (λ g. is_lock backend rel mode g && (g.command == command)) grants.now }
{
    grants.iter().any(|grant| is_of(grant, backend, rel, mode) && grant.command == command)
}
