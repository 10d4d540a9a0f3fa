ghost use Rattle.std.specs.Prelude.{◌≡◌, IfOk};
ghost use Rattle.std.specs.List.{flat_map};
ghost use Rattle.history_model.specs.Held.{granted_by};

use base_types::{Mode, NoMemory, Row};
use event_kinds::Item;
use lock_modes::Grant;
use std::alloc::Global;

// The grants of the relations that a write makes.
pub(crate) fn new_grants(
    alloc: Global,
    b: u32,
    c: u32,
    items: &[Item],
) -> Result<Vec<Grant>, NoMemory>
    ensures { IfOk result (λ grants. grants.items ≡ flat_map (granted_by b c) items.now) }
{
    let mut grants = Vec::new(alloc);
    for item in items {
        if let Item::Add(Row::Class { oid, .. }) = item {
            grants.push(Grant {
                backend: b,
                command: c,
                rel: *oid,
                mode: Mode::AccessExclusive,
            })?;
        }
    }
    Ok(grants)
}
