// The places in the history that a backend has to have promised before its next entry.

ghost use Rattle.std.specs.Prelude.{◌≡◌, length};
ghost use Rattle.inval_messages.specs.Lists.{cats_in, rels_in};
ghost use Rattle.backend_core.specs.Places.{publishes_of};

use crate::{Backend, Life, Next};

/// How many places in the history are promised to a backend before its first entry, and again before each
/// later one where [`Backend::places_wanted`] says so.
pub const PLACES: u32 = 48;

// The most messages that one publish puts into the queue.
const MOST_PUBLISHED: usize = 64;

impl Backend {
    ghost use Rattle.std.specs.Prelude.{◌+◌, min, is_some, Some};
    ghost use Rattle.cacheless.specs.State.{lists_at};
    ghost use Rattle.backend_core.specs.Agrees.{command_at};
    ghost use Rattle.backend_core.specs.declared.life.Life.TheVariants as lives;
    ghost use Rattle.backend_core.specs.Looks.{IsRight};
    ghost use Rattle.backend_core.specs.Places.{has_xid as has_own_xid, entries_of_commit, places_before as wanted_before, WantsPlaces};
    ghost use Rattle.backend_core.specs.Choice.{next_at};

    /// How many places in the history are to be promised to it before its next entry. Before the visibility
    /// step of a commit these are one for each entry of the commit, and [`PLACES`] besides. `0`: none has to be
    /// asked for, as it joins, after a visibility step to the release of its commit, before a taking back and
    /// before a release of a transaction that has written, after its last command, and once it has left. So
    /// whoever promises as it is told has the places of a whole commit before that is visible. Condition: it is
    /// right, in whichever history. It takes no memory.
    pub fn places_wanted(&self) -> u32
        requires right { IsRight self.now }
        ensures { WantsPlaces self.now result }
    {
        match self.life {
            Life::Unstarted => 0,
            Life::Alive => self.places_of_next(&self.next()),
            Life::Stopped => 0,
        }
    }

    // Before this entry, which comes next.
    fn places_of_next(&self, next: &Next) -> u32
        requires alive { self.now.life ≡ lives.Alive }
        requires next { next_at self.now ≡ Some next.now }
        ensures { WantsPlaces self.now result }
    {
        if self.has_command() {
            self.places_before(next)
        } else {
            0
        }
    }

    // Whether it is in a command, and not after its last one.
    fn has_command(&self) -> bool
        ensures { result ≡ is_some (command_at self.now) }
    {
        let commands = self.progress.commands.as_slice();
        commands.get(self.progress.finished as usize).is_some()
    }

    // Before this entry of a command.
    fn places_before(&self, next: &Next) -> u32
        ensures { result ≡ wanted_before self.now.progress next.now }
    {
        match next {
            Next::Commit { .. } => self.places_of_commit(),
            Next::Release { .. } if !self.has_written() => PLACES,
            Next::Publish | Next::TakeBack { .. } | Next::Release { .. } | Next::Leave => 0,
            _ => PLACES,
        }
    }

    // Whether its transaction has written.
    fn has_written(&self) -> bool
        ensures { result ≡ has_own_xid self.now.progress }
    {
        match self.progress.running {
            Some(t) => t.xid.is_some(),
            None => false,
        }
    }

    // Before the visibility step: those of the whole commit, and as many besides as before any other entry.
    fn places_of_commit(&self) -> u32
        ensures { result ≡ min (entries_of_commit self.now.progress + 48) 4294967295 }
    {
        let cats = publishes(self.progress.lists.cats_from(0).len());
        let rels = publishes(self.progress.lists.rels_from(0).len());
        (cats + rels + 2 + PLACES as usize).min(u32::MAX as usize) as u32
    }
}

// How many publishes so many messages take.
fn publishes(messages: usize) -> usize
    ensures { result ≡ publishes_of messages }
{
    messages.div_ceil(MOST_PUBLISHED)
}
