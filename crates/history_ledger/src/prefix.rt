ghost use Rattle.std.specs.Prelude.{[], IfOk};
ghost use Rattle.history_model.specs.Lapped.{FollowsQueue};
ghost use Rattle.history_model.specs.Legal.{IsLegal};
ghost use Rattle.history_ledger.specs.Longest.{IsLongest};
ghost use Rattle.history_ledger.specs.Held.{Reads};

use crate::ledger::Ledger;
use base_types::NoMemory;
use event_kinds::Entry;
use std::alloc::Global;

/// How many of these entries, from the first on, are a legal history whose fetches are of a queue of
/// this size: the longest such prefix.
pub fn legal_prefix(alloc: Global, entries: &[Entry], size: u32) -> Result<u64, NoMemory>
    ensures { IfOk result (λ n. IsLongest (λ history. IsLegal history × FollowsQueue size history) entries.now n) }
{
    let mut ledger = Ledger::new(alloc);
    enter_legal(&mut ledger, entries, size)
}

// Enters these entries as far as they are such a history, and answers how many that are.
fn enter_legal(ledger: &mut Ledger, entries: &[Entry], size: u32) -> Result<u64, NoMemory>
    requires { Reads [] ledger.old }
    ensures { IfOk result (λ n. IsLongest (λ history. IsLegal history × FollowsQueue size history) entries.now n) }
{
    for (at, e) in entries.iter().enumerate() {
        let follows = ledger.may_follow(e, size)?;
        if !follows {
            return Ok(at as u64);
        }
        ledger.enter(e)?;
    }
    Ok(entries.len() as u64)
}
