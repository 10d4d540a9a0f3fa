// A backend before it has started.

ghost use Rattle.std.specs.Prelude.{◌≡◌, ◌≤◌, [], IfOk, length};
ghost use Rattle.base_types.specs.Scenario.{Scenario, IsBackend};
ghost use Rattle.ddl_effect.specs.Commands.{commands_of};
ghost use Rattle.cacheless.specs.State.{IsNew};
ghost use Rattle.cacheless.specs.Holds.{HasNotStarted};

use crate::begun::begun;
use crate::{Counts, Due, Progress, Suspects};
use base_types::{Command, Listed, NoMemory};
use command_lists::InvalLists;
use local_caches::LocalCaches;
use lock_modes::OwnLocks;
use std::alloc::Global;
use txn_blocks::TxnBlocks;

impl Counts {
    ghost use Rattle.cacheless.specs.State.{no_counts};

    // Nothing is counted.
    pub(crate) fn none() -> Counts
        ensures { result ≡ no_counts }
    {
        Counts {
            looks: 0,
            scans: 0,
            grants: 0,
            unlocks: 0,
            fetches: 0,
            full: 0,
        }
    }
}

impl Progress {
    /// The backend of this number with its commands in order, before it has started.
    pub fn new(alloc: Global, id: u32, commands: Listed<Command>) -> Result<Progress, NoMemory>
        ensures new { IfOk result (λ s. IsNew id commands s) }
        ensures waits { IfOk result (λ s. (scenario : Scenario) → IsBackend scenario.backends id → commands ≡ commands_of scenario id → length commands ≤ 20000 → HasNotStarted scenario [] s) }
    {
        let blocks = TxnBlocks::new(alloc);
        let opens = Listed::new(alloc);
        let first = begun(alloc, &blocks, opens.as_slice(), commands.as_slice(), 0)?;
        let suspects = Suspects::new(alloc);
        let caches = LocalCaches::new(alloc)?;
        Ok(Progress {
            id,
            commands,
            finished: 0,
            exec: first.exec,
            blocked: first.blocked,
            ended: false,
            tally: Counts::none(),
            due: Due::Nothing,
            blocks,
            opens,
            running: None,
            lists: InvalLists::new(alloc),
            taken: None,
            opened: Listed::new(alloc),
            locks: OwnLocks::new(alloc),
            caches,
            suspects,
            answer: None,
        })
    }
}
