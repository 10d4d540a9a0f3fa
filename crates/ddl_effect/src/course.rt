ghost use Rattle.std.specs.Prelude.{◌≡◌, ◌++◌, ◌∷◌, [], true, false, OnOk, OnErr, IfOk};
ghost use Rattle.ddl_effect.specs.Commands.{plan_of};
ghost use Rattle.ddl_effect.specs.Courses.{plan_left, left_again, is_act as acts};
ghost use Rattle.ddl_effect.specs.Replays.{step_of};

use crate::command_copy::copied_command;
use crate::commands::step_at;
use crate::{OpenRelation, Step};
use base_types::{Command, Listed, NoMemory, Row};
use std::alloc::Global;
use std::marker::Model;
use std::mem::replace;

/// A command that is on its way, with what its acts gave so far: it goes over them again at each act.
pub struct Course {
    opens: Vec<OpenRelation>,
    command: Command,
    given: Vec<Listed<Row>>,
    step: Step,
    before: Option<Step>,
}

// Written out, and not derived: so it is proved here, and not again wherever one is dropped.
impl Drop for Course {
    fn drop(self) {
        let Course {
            opens: _,
            command: _,
            given: _,
            step: _,
            before: _,
        } = self;
    }
}

impl Model for Course {
    ghost use Rattle.ddl_effect.specs.Courses.{IsCourse};
    ghost use Rattle.ddl_effect.specs.Taken.{Taken};

    ghost Value = { Taken };

    ghost view = { λ c. record { opens = c.opens.items; command = c.command; given = c.given.items } };

    ghost invariant = { λ c. IsCourse (record { opens = c.opens.items; command = c.command; given = c.given.items }) c.step c.before };
}

impl Course {
    /// A command at its beginning, by the relations that its session has open. Condition: this is its first step.
    pub(crate) fn new(
        alloc: Global,
        opens: &[OpenRelation],
        command: &Command,
        step: Step,
    ) -> Result<Course, NoMemory>
        requires { step_of (plan_of opens.now command.now) ≡ step }
        ensures { IfOk result (λ course. course ≡ record { opens = opens.now; command = command.now; given = [] }) }
    {
        Ok(Course {
            opens: opens.to_vec(alloc)?,
            command: copied_command(alloc, command)?,
            given: Vec::new(alloc),
            step,
            before: None,
        })
    }

    /// What it does next.
    pub(crate) fn step(&self) -> &Step
        ensures { result.now ≡ step_of (plan_left self.now) }
    {
        &self.step
    }

    /// Its act was done and gave these rows. A command that has ended stays as it is; out of memory, nothing changes.
    pub(crate) fn give(&mut self, alloc: Global, rows: &[Row]) -> Result<(), NoMemory>
        ensures on { OnOk result (acts (step_of (plan_left self.old)) ≡ true → self.new ≡ record self.old { given = self.old.given ++ rows.now ∷ [] }) }
        ensures out { OnOk result (acts (step_of (plan_left self.old)) ≡ false → self.new ≡ self.old) }
        ensures err { OnErr result (self.new ≡ self.old) }
    {
        if !is_act(&self.step) {
            return Ok(());
        }
        let copy = Listed::from_vec(rows.to_vec(alloc)?);
        self.given.push(copy)?;
        match step_at(alloc, &self.opens, &self.command, &self.given) {
            Ok(step) => {
                self.before = Some(replace(&mut self.step, step));
                Ok(())
            }
            Err(error) => {
                self.given.pop();
                Err(error)
            }
        }
    }

    /// Where its lookup found no relation, it makes that anew.
    pub(crate) fn search_again(&mut self)
        ensures { plan_left self.new ≡ left_again self.old }
    {
        if let Step::Absent(_) = self.step {
            if let Some(before) = self.before.take() {
                self.given.pop();
                self.step = before;
            }
        }
    }

    /// The step by value, the command given up.
    pub(crate) fn into_step(self) -> Step
        ensures { result ≡ step_of (plan_left self) }
    {
        let Course {
            opens: _,
            command: _,
            given: _,
            step,
            before: _,
        } = self;
        step
    }
}

// Whether a step is an act.
fn is_act(step: &Step) -> bool
    ensures { result ≡ acts step.now }
{
    !matches!(step, Step::Done(_) | Step::Fails(_) | Step::Absent(_))
}
