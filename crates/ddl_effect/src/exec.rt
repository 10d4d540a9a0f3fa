ghost use Rattle.std.specs.Prelude.{◌≡◌, ◌<◌, ◌≤◌, ◌++◌, ◌∷◌, ℕ, List, [], IfOk, OnOk, OnErr, MatchOption};
ghost use Rattle.ddl_effect.specs.Plans.{Absent, after_act, told_rests_on};
ghost use Rattle.ddl_effect.specs.Commands.{plan_of};
ghost use Rattle.ddl_effect.specs.Replays.{step_of};
ghost use Rattle.ddl_effect.specs.Stages.{plan_at, plan_again, want_of, told_of, acts_left, most_acts, want_at};

use crate::commands::step_at;
use crate::course::Course;
use crate::{Draft, OpenRelation, Step, Told, Want};
use base_types::{Command, NoMemory, Purpose, Row};
use command_answers::CommandError;
use std::alloc::Global;

/// How far a command is: what is left of it.
pub enum Exec {
    /// It has done what it says, and answers this.
    Done(Told),
    /// It failed.
    Failing(CommandError),
    /// It is on its way.
    Going(Course),
}

// Written out, and not derived: so it is proved here, and not again wherever one is dropped.
impl Drop for Exec {
    fn drop(self) {
        match self {
            Exec::Done(_) | Exec::Failing(_) | Exec::Going(_) => (),
        }
    }
}

impl Exec {
    /// A command at its beginning, by the relations that its session has open. One that does no act takes no memory for itself.
    pub fn new(alloc: Global, opens: &[OpenRelation], command: &Command) -> Result<Exec, NoMemory>
        ensures plan { IfOk result (λ exec. (any : List OpenRelation) → plan_at any exec ≡ plan_of opens.now command.now) }
        ensures few { IfOk result (λ exec. acts_left exec ≤ most_acts) }
    {
        match step_at(alloc, opens, command, &[])?.into_ended() {
            Ok(exec) => Ok(exec),
            Err(step) => Ok(Exec::Going(Course::new(alloc, opens, command, step)?)),
        }
    }

    /// What it wants next.
    #[inline(always)]
    #[tactic(auto, using(crate::proofs::Wanting::want_is))]
    pub fn next(&self) -> Want
        ensures { (opens : List OpenRelation) → result ≡ want_of (plan_at opens self.now) }
    {
        match self {
            Exec::Done(told) => Want::Done(rests_on(told)),
            Exec::Failing(error) => Want::Fails(*error),
            Exec::Going(course) => want(course.step()),
        }
    }

    /// What it answers, once it has done what it says; `None` means [`Told::Ok`].
    pub fn told(&self) -> Option<&Told>
        ensures { MatchOption result ((opens : List OpenRelation) → told_of (plan_at opens self.now) ≡ Told.Ok) (λ told. (opens : List OpenRelation) → told_of (plan_at opens self.now) ≡ told.now) }
    {
        match self {
            Exec::Done(told) => Some(told),
            Exec::Failing(_) => None,
            Exec::Going(course) => match course.step() {
                Step::Done(told) => Some(told),
                _ => None,
            },
        }
    }

    /// What it wanted was done, and gave these rows: those of the scan on which the act rests. Out of memory, nothing changes.
    pub fn give(&mut self, alloc: Global, rows: &[Row]) -> Result<(), NoMemory>
        ensures plan { OnOk result ((opens : List OpenRelation) → plan_at opens self.new ≡ after_act rows.now (plan_at opens self.old)) }
        ensures less { OnOk result (0 < acts_left self.old → acts_left self.new < acts_left self.old) }
        ensures again { OnOk result ((opens : List OpenRelation) (name : List ℕ) → 0 < acts_left self.old → plan_at opens self.new ≡ Absent name → plan_again opens self.new ≡ plan_at opens self.old) }
        ensures err { OnErr result (self.new ≡ self.old) }
    {
        // A slice has fewer than 2^64 items, which the count of acts needs: the length is taken for the proof alone.
        let count = rows.len();
        match self {
            Exec::Done(_) | Exec::Failing(_) => Ok(()),
            Exec::Going(course) => {
                course.give(alloc, rows)?;
                Ok(())
            }
        }
    }

    /// Where its lookup found no relation, it makes that anew; any other command stays as it is.
    pub fn search_again(&mut self)
        ensures { (opens : List OpenRelation) → plan_at opens self.new ≡ plan_again opens self.old }
    {
        match self {
            Exec::Done(_) | Exec::Failing(_) => (),
            Exec::Going(course) => course.search_again(),
        }
    }

    /// The draft that it wants written, the command given up. Condition: it wants that.
    #[tactic(auto, using(crate::proofs::Wanting::want_is))]
    pub fn into_draft(self) -> Draft
        requires { want_of (plan_at [] self) ≡ Want.Write }
        ensures { (opens : List OpenRelation) → step_of (plan_at opens self) ≡ Step.Write result }
    {
        match self {
            Exec::Done(_) | Exec::Failing(_) => unreachable!(),
            Exec::Going(course) => course.into_step().into_draft(),
        }
    }

    /// The draft that it wants written, if it wants that.
    #[tactic(auto, using(crate::proofs::Wanting::want_is))]
    pub fn draft(&self) -> Option<&Draft>
        ensures { MatchOption result ((opens : List OpenRelation) → want_of (plan_at opens self.now) ≡ Want.Write → ⊥) (λ draft. (opens : List OpenRelation) → step_of (plan_at opens self.now) ≡ Step.Write draft.now) }
    {
        match self {
            Exec::Done(_) | Exec::Failing(_) => None,
            Exec::Going(course) => match course.step() {
                Step::Write(draft) => Some(draft),
                _ => None,
            },
        }
    }
}

// What a step wants.
#[inline(always)]
fn want(step: &Step) -> Want
    ensures { result ≡ want_at step.now }
{
    match step {
        Step::Done(told) => Want::Done(rests_on(told)),
        Step::Fails(error) => Want::Fails(*error),
        Step::Absent(name) => Want::Absent(*name),
        Step::Lookup { name, mode } => Want::Lookup {
            name: *name,
            mode: *mode,
        },
        Step::Open { rel, kind } => Want::Open {
            rel: *rel,
            kind: *kind,
        },
        Step::Search(scan) => Want::Search(*scan),
        Step::Read(scan) => Want::Read(*scan),
        Step::Lock { rel, mode } => Want::Lock {
            rel: *rel,
            mode: *mode,
        },
        Step::Write(_) => Want::Write,
    }
}

// The scan on which an answer rests, if on any.
fn rests_on(told: &Told) -> Option<Purpose>
    ensures { result ≡ told_rests_on told.now }
{
    match told {
        Told::Regclass(oid) => Some(Purpose::RelOid(*oid)),
        _ => None,
    }
}
