ghost use Rattle.std.specs.Prelude.{◌≡◌, ◌++◌, ◌∷◌, [], IfOk};
ghost use Rattle.ddl_effect.specs.Effects.{no_changes};
ghost use Rattle.ddl_effect.specs.Parts.{changing, deleting, forcing, writing};

use base_types::{Change, Listed, NoMemory, Oid, Row};
use std::alloc::Global;

/// The new oid of a draft that draws one, before it is drawn.
pub(crate) const NEW: Oid = Oid(1);

/// The changes of a write, before its new oids are drawn: in its rows an oid from 1 to `new_oids`
/// means the new oid of that number.
#[derive(Drop)]
pub struct Draft {
    pub changes: Listed<Change>,
    /// The relations for which a message is sent though no row of theirs changes.
    pub forced: Listed<Oid>,
    pub new_oids: u32,
}

/// A draft without changes.
pub(crate) fn no_draft(alloc: Global) -> Draft
    ensures { result ≡ no_changes }
{
    Draft {
        changes: Listed::new(alloc),
        forced: Listed::new(alloc),
        new_oids: 0,
    }
}

/// The draft of these changes, which need no new oid.
pub(crate) fn draft_of(alloc: Global, changes: Listed<Change>) -> Draft
    ensures { writing result ≡ changing changes }
{
    Draft {
        changes,
        forced: Listed::new(alloc),
        new_oids: 0,
    }
}

/// The draft that inserts a row.
pub(crate) fn inserting(alloc: Global, row: Row) -> Result<Draft, NoMemory>
    ensures { IfOk result (λ draft. writing draft ≡ changing (Change.Insert row ∷ [])) }
{
    let mut changes = Listed::new(alloc);
    changes.push(Change::Insert(row))?;
    Ok(draft_of(alloc, changes))
}

/// The draft that deletes a row, if there is one, and replaces another.
pub(crate) fn replacing(alloc: Global, deleted: Option<Row>, row: Row) -> Result<Draft, NoMemory>
    ensures { IfOk result (λ draft. writing draft ≡ changing (deleting deleted ++ Change.Replace row ∷ [])) }
{
    let mut changes = Listed::new(alloc);
    if let Some(other) = deleted {
        changes.push(Change::Delete(other.key()))?;
    }
    changes.push(Change::Replace(row))?;
    Ok(draft_of(alloc, changes))
}

/// The draft that deletes a row, if there is one, and inserts one with a new oid, and of which a relation is told too.
pub(crate) fn adding_draft(
    alloc: Global,
    deleted: Option<Row>,
    row: Row,
    told: Oid,
) -> Result<Draft, NoMemory>
    ensures { IfOk result (λ draft. writing draft ≡ forcing (deleting deleted ++ Change.Insert row ∷ []) (told ∷ []) 1) }
{
    let mut changes = Listed::new(alloc);
    if let Some(other) = deleted {
        changes.push(Change::Delete(other.key()))?;
    }
    changes.push(Change::Insert(row))?;
    let mut forced = Listed::new(alloc);
    forced.push(told)?;
    Ok(Draft {
        changes,
        forced,
        new_oids: 1,
    })
}

/// The draft that replaces a row, and of which a relation is told too.
pub(crate) fn replacing_draft(alloc: Global, row: Row, told: Oid) -> Result<Draft, NoMemory>
    ensures { IfOk result (λ draft. writing draft ≡ forcing (Change.Replace row ∷ []) (told ∷ []) 0) }
{
    let mut changes = Listed::new(alloc);
    changes.push(Change::Replace(row))?;
    let mut forced = Listed::new(alloc);
    forced.push(told)?;
    Ok(Draft {
        changes,
        forced,
        new_oids: 0,
    })
}
