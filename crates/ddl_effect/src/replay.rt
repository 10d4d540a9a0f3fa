// What a command's acts gave so far, which the command goes over from the first one.

ghost use Rattle.std.specs.Prelude.{◌≡◌, ◌∷◌, List, [], MatchOption, Ok, true};
ghost use Rattle.base_types.specs.declared.kind.Kind.TheVariants.{Table, Index};
ghost use Rattle.ddl_effect.specs.Parts.{writing, altering, altering_index};
ghost use Rattle.ddl_effect.specs.Types.{Draft as Drafted};
ghost use Rattle.ddl_effect.specs.Replays.{Comes, Gives, Alters, Locks};

use crate::leave::{absent, fails};
use crate::opens::has_open;
use crate::{Draft, Leave, OpenRelation, Step, Told};
use base_types::{Kind, Listed, Mode, Name, Oid, Purpose, Row};
use command_answers::CommandError;
use std::marker::Model;

/// What the acts of a command gave, one after another, from where its run has come. An act that wasn't done is an `Err`: the
/// command does it next.
#[derive(Drop)]
pub(crate) struct Replay<'a> {
    left: &'a [Listed<Row>],
}

impl<'a> Model for Replay<'a> {
    ghost use Rattle.std.specs.Prelude.{List};
    ghost use Rattle.base_types.specs.declared.row.Row.{Row};

    ghost Value = { List (List Row) };

    ghost view = { λ replay. replay.left.now };
}

impl<'a> Replay<'a> {
    /// All that the acts of a command gave.
    pub(crate) fn new(given: &'a [Listed<Row>]) -> Replay<'a>
        ensures { result ≡ given.now }
    {
        Replay { left: given }
    }

    // What the next act gave, if it was done.
    fn next(&mut self) -> Option<&'a [Row]>
        ensures { MatchOption result (self.old ≡ []) (λ rows. self.old ≡ rows.now ∷ self.new) }
    {
        let (first, others) = self.left.split_first()?;
        self.left = others;
        Some(first.as_slice())
    }

    /// Looks for a relation by its name, and locks it.
    pub(crate) fn look_up(&mut self, name: Name, mode: Mode) -> Result<&'a [Row], Leave>
        ensures { Gives (Step.Lookup name mode) self.old self.new result }
    {
        match self.next() {
            Some(rows) => Ok(rows),
            None => Err(Leave::At(Step::Lookup { name, mode })),
        }
    }

    /// Opens the descriptor of a relation.
    pub(crate) fn open(&mut self, rel: Oid, kind: Kind) -> Result<&'a [Row], Leave>
        ensures { Gives (Step.Open rel kind) self.old self.new result }
    {
        match self.next() {
            Some(rows) => Ok(rows),
            None => Err(Leave::At(Step::Open { rel, kind })),
        }
    }

    /// Searches a catalog cache.
    pub(crate) fn search(&mut self, scan: Purpose) -> Result<&'a [Row], Leave>
        ensures { Gives (Step.Search scan) self.old self.new result }
    {
        match self.next() {
            Some(rows) => Ok(rows),
            None => Err(Leave::At(Step::Search(scan))),
        }
    }

    /// Reads rows of an open descriptor.
    pub(crate) fn read(&mut self, scan: Purpose) -> Result<&'a [Row], Leave>
        ensures { Gives (Step.Read scan) self.old self.new result }
    {
        match self.next() {
            Some(rows) => Ok(rows),
            None => Err(Leave::At(Step::Read(scan))),
        }
    }

    /// Locks a further relation.
    pub(crate) fn lock(&mut self, rel: Oid, mode: Mode) -> Result<&'a [Row], Leave>
        ensures { Gives (Step.Lock rel mode) self.old self.new result }
    {
        match self.next() {
            Some(rows) => Ok(rows),
            None => Err(Leave::At(Step::Lock { rel, mode })),
        }
    }

    /// Writes, and is done.
    #[tactic(auto, using(crate::proofs::Replays::settled))]
    pub(crate) fn write(&mut self, draft: Draft) -> Result<Step, Leave>
        ensures { Comes result self.old (writing draft) }
    {
        match self.next() {
            Some(_) => Ok(Step::Done(Told::Ok)),
            None => Ok(Step::Write(draft)),
        }
    }

    /// Looks for a table that is to be altered, which the session must not have open, and opens its descriptor
    /// (`CheckTableNotInUse` in `src/backend/commands/tablecmds.c`).
    #[tactic(auto, using(crate::proofs::Replays::settled))]
    pub(crate) fn alter_table(
        &mut self,
        opens: &[OpenRelation],
        name: Name,
        mode: Mode,
    ) -> Result<Oid, Leave>
        ensures { Alters altering Table opens.now name mode self.old self.new result }
    {
        match self.look_up(name, mode)?.first() {
            Some(
                Row::Class {
                    oid,
                    kind: Kind::Table,
                    ..
                },
            ) => {
                if has_open(*oid, opens) {
                    return fails(CommandError::InUse { rel: *oid });
                }
                self.open(*oid, Kind::Table)?;
                Ok(*oid)
            }
            Some(Row::Class { .. }) => fails(CommandError::NotTable { name }),
            _ => absent(name),
        }
    }

    /// Looks for an index that is to be altered, which the session must not have open, and opens its descriptor.
    #[tactic(auto, using(crate::proofs::Replays::settled))]
    pub(crate) fn alter_index(
        &mut self,
        opens: &[OpenRelation],
        name: Name,
        mode: Mode,
    ) -> Result<Oid, Leave>
        ensures { Alters altering_index Index opens.now name mode self.old self.new result }
    {
        match self.look_up(name, mode)?.first() {
            Some(
                Row::Class {
                    oid,
                    kind: Kind::Index,
                    ..
                },
            ) => {
                if has_open(*oid, opens) {
                    return fails(CommandError::InUse { rel: *oid });
                }
                self.open(*oid, Kind::Index)?;
                Ok(*oid)
            }
            Some(Row::Class { .. }) => fails(CommandError::NotIndex { name }),
            _ => absent(name),
        }
    }

    /// Locks further relations, which the session must not have open (`CheckTableNotInUse` in
    /// `src/backend/commands/tablecmds.c`).
    #[tactic(auto, using(crate::proofs::Replays::settled))]
    pub(crate) fn lock_all(&mut self, opens: &[OpenRelation], rels: &[Oid]) -> Result<(), Leave>
        ensures { Locks opens.now rels.now self.old self.new result }
    {
        for rel in rels {
            self.lock(*rel, Mode::AccessExclusive)?;
            if has_open(*rel, opens) {
                return fails(CommandError::InUse { rel: *rel });
            }
        }
        Ok(())
    }

    /// Whether the next act, a write, was done: then its draft needn't be made again.
    #[tactic(auto, using(crate::proofs::Replays::settled))]
    pub(crate) fn wrote(&self) -> bool
        ensures { result ≡ true → (draft : Drafted) → Comes (Ok (Step.Done Told.Ok)) self.now (writing draft) }
    {
        match self.left.first() {
            Some(_) => true,
            None => false,
        }
    }
}
