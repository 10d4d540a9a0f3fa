ghost use Rattle.std.specs.Prelude.{◌≡◌, ◌++◌, ◌==◌, ◌&&◌, ℕ, List, [], true, not, filter, length, cond, OnOk, OnErr};
ghost use Rattle.std.specs.List.{list_any};
ghost use Rattle.base_types.specs.Modes.{conflicts as do_conflict};
ghost use Rattle.base_types.specs.Scans.{same_oid};
ghost use Rattle.lock_modes.specs.Grants.{is_lock, holds as do_hold, first_conflict, stays};
ghost use Rattle.lock_modes.specs.Changes.{changed, held_after, is_kept, is_out, is_released};
ghost use Rattle.lock_modes.specs.Excluding.{AreFree, DoExclude};
ghost use Rattle.lock_modes.specs.GrantLists.{grants_at};
ghost use Rattle.lock_modes.specs.Kept.{Holds, HasRoom};
ghost use Rattle.lock_modes.specs.Requests.{Requests};

use crate::change::{LockChange, Released, is_of};
use crate::grant_lists::GrantLists;
use crate::{Grant, Granted, LockRefusal};
use base_types::{Mode, NoMemory, Oid, conflicts};
use ghost_list::GhostList;
use std::alloc::Global;
use std::marker::Model;

/// The locks that all backends hold on relations (`LockMethodLockHash` and `LockMethodProcLockHash` in
/// `src/backend/storage/lmgr/lock.c`).
pub struct LockTable {
    by_rel: GrantLists,
    by_backend: GrantLists,
    prepared: Vec<Grant>,
    // all that was granted and released, in order; contracts alone see it
    changes: GhostList<LockChange>,
}

// Written out, and not derived: so it is proved here, and not again wherever one is dropped.
impl Drop for LockTable {
    fn drop(self) {
        let LockTable {
            by_rel: _,
            by_backend: _,
            prepared: _,
            changes: _,
        } = self;
    }
}

impl Model for LockTable {
    ghost use Rattle.lock_modes.specs.Holding.{Holding};

    ghost Value = { Holding };

    ghost use Rattle.lock_modes.specs.Changes.{held_after};
    ghost use Rattle.lock_modes.specs.Kept.{Keeps};

    ghost view = { λ table. record { held = held_after table.changes.items; prepared = table.prepared.items } };

    ghost invariant = { λ table. Keeps table.by_rel table.by_backend table.prepared.items (held_after table.changes.items) };
}

impl LockTable {
    /// No locks, which takes no memory.
    pub fn new(alloc: Global) -> LockTable
        ensures held { result.held ≡ [] }
        ensures prepared { result.prepared ≡ [] }
    {
        LockTable {
            by_rel: GrantLists::new(alloc),
            by_backend: GrantLists::new(alloc),
            prepared: Vec::new(alloc),
            changes: GhostList::new(),
        }
    }

    /// Whether a backend holds the mode on the relation (`LockHeldByMe` in
    /// `src/backend/storage/lmgr/lock.c`).
    pub fn holds(&self, backend: u32, rel: Oid, mode: Mode) -> bool
        ensures { result ≡ do_hold self.now.held backend rel mode }
    {
        is_held(self.by_rel.get(rel.0), backend, rel, mode)
    }

    /// A backend asks for a lock in its command of this number, and doesn't wait for it
    /// (`LockAcquireExtended` with `dontWait` in `src/backend/storage/lmgr/lock.c`; in `lmgr.c`
    /// `ConditionalLockRelationOid`). `Held`: exactly where it holds the mode on the relation already.
    /// `Conflict`: exactly where it doesn't, and another backend holds a mode on the relation that
    /// conflicts; of several the one that was granted first is named. Neither changes what is held, nor
    /// does `NoMemory`. So at all times what is held excludes each other: of two backends that hold a
    /// relation the modes don't conflict, and none holds a mode twice.
    pub fn request(
        &mut self,
        backend: u32,
        command: u32,
        rel: Oid,
        mode: Mode,
    ) -> Result<Granted, LockRefusal>
        ensures answers { Requests self.old.held self.new.held (record { backend = backend; command = command; rel = rel; mode = mode }) result }
        ensures prepared { self.new.prepared ≡ [] }
        ensures exclude { DoExclude self.new.held }
    {
        self.prepared.clear();
        if is_held(self.by_rel.get(rel.0), backend, rel, mode) {
            return Ok(Granted::Held);
        }
        if let Some(other) = first_in_the_way(self.by_rel.get(rel.0), backend, rel, mode) {
            return Err(LockRefusal::Conflict {
                holder: other.backend,
                mode: other.mode,
            });
        }
        let grants = [Grant {
            backend,
            command,
            rel,
            mode,
        }];
        let Ok(()) = reserve(&mut self.by_rel, &mut self.by_backend, &grants) else {
            return Err(LockRefusal::NoMemory);
        };
        add(
            &mut self.by_rel,
            &mut self.by_backend,
            &mut self.changes,
            &grants,
        );
        Ok(Granted::New)
    }

    /// Makes room for grants that nobody is in the way of, such as those of a new relation, which nobody
    /// else can ask for yet. They take the place of what was prepared before; a request, an `unlock` or a
    /// `release` forgets them. Condition: each might be given after those before it. Out of memory,
    /// nothing changes.
    pub fn prepare(&mut self, grants: Vec<Grant>) -> Result<(), NoMemory>
        requires { AreFree self.old.held grants.items }
        ensures held { self.new.held ≡ self.old.held }
        ensures ok { OnOk result (self.new.prepared ≡ grants.items) }
        ensures err { OnErr result (self.new.prepared ≡ self.old.prepared) }
    {
        reserve(&mut self.by_rel, &mut self.by_backend, &grants)?;
        self.prepared = grants;
        Ok(())
    }

    /// Grants what is prepared, in order (`GrantLock` in `src/backend/storage/lmgr/lock.c`).
    pub fn grant_prepared(&mut self)
        ensures held { self.new.held ≡ self.old.held ++ self.old.prepared }
        ensures prepared { self.new.prepared ≡ [] }
        ensures exclude { DoExclude self.new.held }
    {
        add(
            &mut self.by_rel,
            &mut self.by_backend,
            &mut self.changes,
            &self.prepared,
        );
        self.prepared.clear();
    }

    /// A backend releases a mode on a relation (`LockRelease` in `src/backend/storage/lmgr/lock.c`; in
    /// `lmgr.c` `UnlockRelationOid`). Condition: it holds it.
    pub fn unlock(&mut self, backend: u32, rel: Oid, mode: Mode)
        requires { do_hold self.old.held backend rel mode ≡ true }
        ensures held { self.new.held ≡ filter (λ g. not (is_lock backend rel mode g)) self.old.held }
        ensures prepared { self.new.prepared ≡ [] }
    {
        self.take_out(backend, Released::Lock { backend, rel, mode });
    }

    /// A backend releases what it was granted in commands of this number and above (`LockReleaseAll`
    /// and, where a savepoint is rolled back, `LockReleaseCurrentOwner` in
    /// `src/backend/storage/lmgr/lock.c`).
    pub fn release(&mut self, backend: u32, from: u32)
        ensures held { self.new.held ≡ filter (stays backend from) self.old.held }
        ensures prepared { self.new.prepared ≡ [] }
    {
        self.take_out(backend, Released::From { backend, from });
    }

    // Takes out what a backend releases.
    fn take_out(&mut self, backend: u32, released: Released)
        requires { (g : _) → is_released released g ≡ true → (g.backend == backend) ≡ true }
        ensures held { self.new.held ≡ filter (is_kept released) self.old.held }
        ensures prepared { self.new.prepared ≡ [] }
    {
        self.prepared.clear();
        take_out_each(&mut self.by_rel, self.by_backend.get(backend), &released);
        self.by_backend.take_out(backend, &released);
        note(&mut self.changes, &LockChange::Release(released));
    }
}

// Whether one of these grants is of the mode on the relation to the backend.
pub(crate) fn is_held(grants: &[Grant], backend: u32, rel: Oid, mode: Mode) -> bool
    ensures { result ≡ do_hold grants.now backend rel mode }
{
    grants.iter().any(|grant| is_of(grant, backend, rel, mode))
}

// The first of these grants that is another backend's and keeps the mode from being granted.
pub(crate) fn first_in_the_way(
    grants: &[Grant],
    backend: u32,
    rel: Oid,
    mode: Mode,
) -> Option<Grant>
    ensures { result ≡ first_conflict grants.now backend rel mode }
{
    grants
        .iter()
        .find(|grant| is_in_the_way(grant, backend, rel, mode))
        .copied()
}

// Whether a grant is another backend's and keeps the mode from being granted.
fn is_in_the_way(grant: &Grant, backend: u32, rel: Oid, mode: Mode) -> bool
    ensures { result ≡ (not (grant.now.backend == backend) && same_oid grant.now.rel rel && do_conflict mode grant.now.mode) }
{
    grant.backend != backend && grant.rel.0 == rel.0 && conflicts(mode, grant.mode)
}

// Makes room for these grants.
pub(crate) fn reserve(
    by_rel: &mut GrantLists,
    by_backend: &mut GrantLists,
    grants: &[Grant],
) -> Result<(), NoMemory>
    ensures same { (held : List Grant) → Holds by_rel.old by_backend.old held → Holds by_rel.new by_backend.new held }
    ensures more { (other : List Grant) (first count : ℕ) → HasRoom by_rel.old by_backend.old other first count → HasRoom by_rel.new by_backend.new other first count }
    ensures ok { OnOk result (HasRoom by_rel.new by_backend.new grants.now (length grants.now) (length grants.now)) }
{
    for grant in grants {
        by_rel.reserve(grant.rel.0, grants.len())?;
        by_backend.reserve(grant.backend, grants.len())?;
    }
    Ok(())
}

// Adds these grants, for which there is room.
pub(crate) fn add(
    by_rel: &mut GrantLists,
    by_backend: &mut GrantLists,
    changes: &mut GhostList<LockChange>,
    grants: &[Grant],
)
    requires holds { Holds by_rel.old by_backend.old (held_after changes.old.items) }
    requires room { HasRoom by_rel.old by_backend.old grants.now (length grants.now) (length grants.now) }
    ensures all { held_after changes.new.items ≡ held_after changes.old.items ++ grants.now }
    ensures holds { Holds by_rel.new by_backend.new (held_after changes.new.items) }
{
    for grant in grants {
        by_rel.push(grant.rel.0, *grant);
        by_backend.push(grant.backend, *grant);
        note(changes, &LockChange::Grant(*grant));
    }
}

// Notes a change of the grants.
pub(crate) fn note(changes: &mut GhostList<LockChange>, change: &LockChange)
    ensures { held_after changes.new.items ≡ changed change.now (held_after changes.old.items) }
{
    changes.push(change);
}

// Takes what is released out of the lists of the relations on which a backend has these locks.
pub(crate) fn take_out_each(by_rel: &mut GrantLists, own: &[Grant], released: &Released)
    ensures { (rel : ℕ) → grants_at by_rel.new rel ≡ cond (list_any (is_out released.now rel) own.now) (filter (is_kept released.now) (grants_at by_rel.old rel)) (grants_at by_rel.old rel) }
{
    for grant in own {
        take_out_at(by_rel, grant, released);
    }
}

// Takes what is released out of the list of a grant's relation, if the grant is released.
fn take_out_at(by_rel: &mut GrantLists, grant: &Grant, released: &Released)
    ensures { (rel : ℕ) → grants_at by_rel.new rel ≡ cond (is_out released.now rel grant.now) (filter (is_kept released.now) (grants_at by_rel.old rel)) (grants_at by_rel.old rel) }
{
    if released.includes(grant) {
        by_rel.take_out(grant.rel.0, released);
        by_rel.trim(grant.rel.0);
    }
}
