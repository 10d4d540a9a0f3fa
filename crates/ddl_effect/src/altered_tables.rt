// Alterations of whole relations, once the descriptor is open.

ghost use Rattle.ddl_effect.specs.Tables.{set_fillfactor as setting_fillfactor, rename_table as renaming};
ghost use Rattle.ddl_effect.specs.Replays.{Comes};

use crate::altered_rows::{filled, renamed_relation};
use crate::draft::replacing;
use crate::leave::{done, fails};
use crate::{Leave, Replay, Step, Told};
use base_types::{Name, Oid, Purpose};
use command_answers::CommandError;
use std::alloc::Global;

/// `set (fillfactor = N)` (`ATExecSetRelOptions` in `src/backend/commands/tablecmds.c`): 10 to 100.
#[tactic(auto, using(crate::proofs::Replays::settled))]
pub(crate) fn set_fillfactor(
    alloc: Global,
    given: &mut Replay,
    rel: Oid,
    fill: u32,
) -> Result<Step, Leave>
    ensures { Comes result given.old (setting_fillfactor fill rel) }
{
    if fill < 10 || fill > 100 {
        return fails(CommandError::OutOfRange {
            value: i64::from(fill),
        });
    }
    match given.read(Purpose::Class(rel))?.first() {
        Some(row) => given.write(replacing(alloc, None, filled(row, fill))?),
        None => done(Told::Ok),
    }
}

/// `rename to`, of a table or of an index (`RenameRelation` in `src/backend/commands/tablecmds.c`).
#[tactic(auto, using(crate::proofs::Replays::settled))]
pub(crate) fn rename(alloc: Global, given: &mut Replay, rel: Oid, to: Name) -> Result<Step, Leave>
    ensures { Comes result given.old (renaming to rel) }
{
    match given.read(Purpose::Class(rel))?.first() {
        Some(row) => given.write(replacing(alloc, None, renamed_relation(row, to))?),
        None => done(Told::Ok),
    }
}
