ghost use Rattle.std.specs.Prelude.{◌≡◌, ◌≤◌, ◌<◌, ◌+◌, ◌++◌, ◌∷◌, ◌&&◌, [], true, false, not, is_some, filter, map, nat_lt, OnOk};
ghost use Rattle.std.specs.List.{list_any};
ghost use Rattle.base_types.specs.Modes.{conflicts as do_conflict};
ghost use Rattle.base_types.specs.Scans.{same_oid};
ghost use Rattle.lock_modes.specs.Own.{is_own, has_lock, cleared, clear_modes, new_lock};
ghost use Rattle.lock_modes.specs.States.{state_of, cleared_if};

use crate::OwnLock;
use base_types::{Mode, NoMemory, Oid, conflicts};
use std::alloc::Global;
use std::marker::Model;

/// The locks of one backend, in the order in which they were granted, each with its mark
/// (`LOCALLOCK` in `src/include/storage/lock.h`, whose mark is `lockCleared`).
#[derive(Drop)]
pub struct OwnLocks {
    items: Vec<OwnLock>,
}

impl Model for OwnLocks {
    ghost use Rattle.std.specs.Prelude.{◌-◌, vec_len, vec_capacity};
    ghost use Rattle.lock_modes.specs.declared.own_lock.OwnLock.{OwnLock};
    ghost use Rattle.lock_modes.specs.Rooms.{Roomy};

    ghost Value = { Roomy OwnLock };

    ghost view = { λ locks. record { items = locks.items.items; room = vec_capacity locks.items - vec_len locks.items } };
}

impl OwnLocks {
    /// No locks, which takes no memory.
    pub fn new(alloc: Global) -> OwnLocks
        ensures { result.items ≡ [] }
    {
        OwnLocks {
            items: Vec::new(alloc),
        }
    }

    /// Whether the mode is clear, if it is held on the relation (`LOCKACQUIRE_ALREADY_HELD` and
    /// `LOCKACQUIRE_ALREADY_CLEAR` of `LockAcquireExtended` in `src/backend/storage/lmgr/lock.c`).
    pub fn state(&self, rel: Oid, mode: Mode) -> Option<bool>
        ensures clear { result ≡ state_of self.now.items rel mode }
        ensures held { is_some result ≡ has_lock self.now.items rel mode }
    {
        state_in(&self.items, rel, mode)
    }

    /// Whether a lock that is held clear on the relation keeps others from taking the mode.
    pub fn keeps_out(&self, rel: Oid, mode: Mode) -> bool
        ensures { result ≡ list_any (do_conflict mode) (clear_modes self.now.items rel) }
    {
        is_any_against(&self.items, rel, mode)
    }

    /// Makes room for one more. Out of memory, the locks are as they were. No call gives up room but for a
    /// lock that it adds.
    pub fn reserve(&mut self) -> Result<(), NoMemory>
        ensures same { self.new.items ≡ self.old.items }
        ensures room { self.old.room ≤ self.new.room }
        ensures ok { OnOk result (0 < self.new.room) }
    {
        self.items.reserve(1)?;
        Ok(())
    }

    /// Adds a lock that was granted in the command of this number, which isn't clear yet (`GrantLockLocal`
    /// in `src/backend/storage/lmgr/lock.c`). Conditions: there is room for it, and it isn't held.
    pub fn add(&mut self, rel: Oid, mode: Mode, command: u32)
        requires room { 0 < self.old.room }
        requires new { has_lock self.old.items rel mode ≡ false }
        ensures items { self.new.items ≡ self.old.items ++ record { rel = rel; mode = mode; command = command; clear = false } ∷ [] }
        ensures room { self.old.room ≤ self.new.room + 1 }
    {
        self.items.push_reserved(OwnLock {
            rel,
            mode,
            command,
            clear: false,
        });
    }

    /// Adds the lock of a relation's creator, AccessExclusive, which is clear at once: no message about
    /// the relation was sent before. Conditions: there is room for it, and it isn't held.
    pub fn add_new(&mut self, rel: Oid, command: u32)
        requires room { 0 < self.old.room }
        requires new { has_lock self.old.items rel Mode.AccessExclusive ≡ false }
        ensures items { self.new.items ≡ self.old.items ++ new_lock rel command ∷ [] }
        ensures room { self.old.room ≤ self.new.room + 1 }
    {
        self.items.push_reserved(OwnLock {
            rel,
            mode: Mode::AccessExclusive,
            command,
            clear: true,
        });
    }

    /// The lock is clear from now on (`MarkLockClear` in `src/backend/storage/lmgr/lock.c`).
    /// Condition: it is held.
    pub fn clear(&mut self, rel: Oid, mode: Mode)
        requires { has_lock self.old.items rel mode ≡ true }
        ensures items { self.new.items ≡ map (cleared_if rel mode) self.old.items }
        ensures room { self.old.room ≤ self.new.room }
    {
        clear_each(&mut self.items, rel, mode);
    }

    /// All locks are clear from now on.
    pub fn clear_all(&mut self)
        ensures items { self.new.items ≡ map cleared self.old.items }
        ensures room { self.old.room ≤ self.new.room }
    {
        clear_every(&mut self.items);
    }

    /// Takes out a lock (`RemoveLocalLock` in `src/backend/storage/lmgr/lock.c`). Condition: it is held.
    pub fn remove(&mut self, rel: Oid, mode: Mode)
        requires { has_lock self.old.items rel mode ≡ true }
        ensures items { self.new.items ≡ filter (λ lock. not (is_own rel mode lock)) self.old.items }
        ensures room { self.old.room ≤ self.new.room }
    {
        self.items.retain(|lock| !is_own_lock(lock, rel, mode));
    }

    /// Takes out what was granted in commands of this number and above (`LockReleaseAll` and, where a
    /// savepoint is rolled back, `LockReleaseCurrentOwner` in `src/backend/storage/lmgr/lock.c`).
    pub fn release(&mut self, from: u32)
        ensures items { self.new.items ≡ filter (λ lock. nat_lt lock.command from) self.old.items }
        ensures room { self.old.room ≤ self.new.room }
    {
        self.items.retain(|lock| lock.command < from);
    }
}

// Whether the mode is clear, if it is held on the relation.
fn state_in(locks: &[OwnLock], rel: Oid, mode: Mode) -> Option<bool>
    ensures { result ≡ state_of locks.now rel mode }
{
    locks
        .iter()
        .find(|lock| is_own_lock(lock, rel, mode))
        .map(|lock| lock.clear)
}

// Whether a lock is of this mode on this relation.
fn is_own_lock(lock: &OwnLock, rel: Oid, mode: Mode) -> bool
    ensures { result ≡ is_own rel mode lock.now }
{
    lock.rel.0 == rel.0 && lock.mode.number() == mode.number()
}

// Whether a clear lock on the relation conflicts with the mode.
fn is_any_against(locks: &[OwnLock], rel: Oid, mode: Mode) -> bool
    ensures { result ≡ list_any (λ lock. (lock.clear && same_oid lock.rel rel) && do_conflict mode lock.mode) locks.now }
{
    locks.iter().any(|lock| lock.clear && lock.rel.0 == rel.0 && conflicts(mode, lock.mode))
}

// Makes the locks of this mode on this relation clear.
fn clear_each(locks: &mut [OwnLock], rel: Oid, mode: Mode)
    ensures { locks.new ≡ map (cleared_if rel mode) locks.old }
{
    for lock in locks.iter_mut() {
        clear_if(lock, rel, mode);
    }
}

// Makes a lock clear if it is of this mode on this relation.
fn clear_if(lock: &mut OwnLock, rel: Oid, mode: Mode)
    ensures { lock.new ≡ cleared_if rel mode lock.old }
{
    if is_own_lock(lock, rel, mode) {
        lock.clear = true;
    }
}

// Makes all locks clear.
fn clear_every(locks: &mut [OwnLock])
    ensures { locks.new ≡ map cleared locks.old }
{
    for lock in locks.iter_mut() {
        lock.clear = true;
    }
}
