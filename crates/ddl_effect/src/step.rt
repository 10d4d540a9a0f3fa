ghost use Rattle.std.specs.Prelude.{◌≡◌, List, MatchResult};
ghost use Rattle.ddl_effect.specs.Plans.{Plan};
ghost use Rattle.ddl_effect.specs.Replays.{step_of};
ghost use Rattle.ddl_effect.specs.Stages.{acts_left, plan_at, want_at};
ghost use Rattle.ddl_effect.specs.declared.want.Want.TheVariants as wants;

use crate::{Draft, Exec, OpenRelation, Told};
use base_types::{Kind, Mode, Name, Oid, Purpose};
use command_answers::CommandError;

/// What a command does next.
pub enum Step {
    /// It has done what it says, and answers this.
    Done(Told),
    /// It failed.
    Fails(CommandError),
    /// It failed: no relation has the name.
    Absent(Name),
    /// It looks for the relation of this name, and locks it.
    Lookup { name: Name, mode: Mode },
    /// It opens the descriptor of this relation.
    Open { rel: Oid, kind: Kind },
    /// It searches a catalog cache.
    Search(Purpose),
    /// It reads rows of an open descriptor.
    Read(Purpose),
    /// It locks a further relation.
    Lock { rel: Oid, mode: Mode },
    /// It writes.
    Write(Draft),
}

// Written out, and not derived: so it is proved here, and not again wherever one is dropped.
impl Drop for Step {
    fn drop(self) {
        match self {
            Step::Done(_) | Step::Fails(_) | Step::Absent(_) | Step::Search(_) | Step::Read(_) =>
                (),
            Step::Lookup { name: _, mode: _ } | Step::Open { rel: _, kind: _ } => (),
            Step::Lock { rel: _, mode: _ } | Step::Write(_) => (),
        }
    }
}

impl Step {
    /// The command that ends at this step, where it is done or fails. `Err`: it is this step.
    pub(crate) fn into_ended(self) -> Result<Exec, Step>
        ensures { MatchResult result (λ exec. (acts_left exec ≡ 0) × ((opens : List OpenRelation) (plan : Plan) → step_of plan ≡ self → plan_at opens exec ≡ plan)) (λ step. step ≡ self) }
    {
        match self {
            Step::Done(told) => Ok(Exec::Done(told)),
            Step::Fails(error) => Ok(Exec::Failing(error)),
            _ => Err(self),
        }
    }

    /// The draft that it writes, by value. Condition: it writes.
    pub(crate) fn into_draft(self) -> Draft
        requires { want_at self ≡ wants.Write }
        ensures { self ≡ Step.Write result }
    {
        match self {
            Step::Write(draft) => draft,
            _ => unreachable!(),
        }
    }
}
