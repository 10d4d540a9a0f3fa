// Alterations of the triggers of a table, once its descriptor is open.

ghost use Rattle.std.specs.Prelude.{◌≡◌};
ghost use Rattle.std.specs.List.{find};
ghost use Rattle.ddl_effect.specs.Triggers.{is_trigger, set_trigger as setting_trigger, create_trigger as creating_trigger, same_state as states_match};
ghost use Rattle.ddl_effect.specs.Replays.{Comes};

use crate::draft::{NEW, adding_draft, replacing_draft};
use crate::leave::{done, fails};
use crate::{Leave, Replay, Step, Told};
use base_types::{Name, Oid, Purpose, Row};
use command_answers::CommandError;
use std::alloc::Global;

/// `enable trigger` and `disable trigger` (`EnableDisableTrigger` in `src/backend/commands/trigger.c`).
#[tactic(auto, using(crate::proofs::Replays::settled))]
pub(crate) fn set_trigger(
    alloc: Global,
    given: &mut Replay,
    rel: Oid,
    name: Name,
    on: bool,
) -> Result<Step, Leave>
    ensures { Comes result given.old (setting_trigger name on rel) }
{
    let triggers = given.read(Purpose::Trigger(rel))?;
    let Some(row) = trigger(name, triggers) else {
        return fails(CommandError::NoTrigger { name });
    };
    let Row::Trg {
        oid,
        rel: of,
        name: own,
        on: was,
    } = row
    else {
        return done(Told::Ok);
    };
    if same_state(was, on) {
        return done(Told::Ok);
    }
    let row = Row::Trg {
        oid,
        rel: of,
        name: own,
        on,
    };
    given.write(replacing_draft(alloc, row, rel)?)
}

/// `create trigger` (`CreateTrigger` in `src/backend/commands/trigger.c`).
#[tactic(auto, using(crate::proofs::Replays::settled))]
pub(crate) fn create_trigger(
    alloc: Global,
    given: &mut Replay,
    rel: Oid,
    name: Name,
) -> Result<Step, Leave>
    ensures { Comes result given.old (creating_trigger name rel) }
{
    let triggers = given.read(Purpose::Trigger(rel))?;
    if let Some(_) = trigger(name, triggers) {
        return fails(CommandError::TriggerExists { name });
    }
    let row = Row::Trg {
        oid: NEW,
        rel,
        name,
        on: true,
    };
    given.write(adding_draft(alloc, None, row, rel)?)
}

// The trigger of a name.
fn trigger(name: Name, triggers: &[Row]) -> Option<Row>
    ensures { result ≡ find (is_trigger name) triggers.now }
{
    triggers.iter().find(|row| is_named(name, row)).copied()
}

// Whether a trigger has this name.
fn is_named(named: Name, row: &Row) -> bool
    ensures { result ≡ is_trigger named row.now }
{
    match row {
        Row::Trg { name, .. } => name.as_bytes() == named.as_bytes(),
        _ => false,
    }
}

// Whether both are enabled, or neither.
fn same_state(was: bool, on: bool) -> bool
    ensures { result ≡ states_match was on }
{
    if was { on } else { !on }
}
