// Commands on indexes.

ghost use Rattle.std.specs.Prelude.{◌≡◌, ◌<◌, ◌≤◌, ◌∷◌, [], length, IfOk};
ghost use Rattle.base_types.specs.declared.nums.TheConstants.{MOST_INDEX_COLUMNS as MOST};
ghost use Rattle.base_types.specs.declared.row_key.RowKey.TheVariants as keys;
ghost use Rattle.ddl_effect.specs.Parts.{looking_up, altering, writing};
ghost use Rattle.ddl_effect.specs.Indexes.{adding_index, numbering, create_index as creating_index, drop_index as dropping_index};
ghost use Rattle.ddl_effect.specs.Replays.{Comes};

use crate::altered_rows::column_number;
use crate::draft::NEW;
use crate::leave::{done, fails};
use crate::{Draft, Leave, OpenRelation, Replay, Step, Told};
use base_types::{
    Change, IndexState, Kind, Listed, MOST_INDEX_COLUMNS, Name, NoMemory, Nums, Oid, Purpose, Row,
    RowKey,
};
use command_answers::CommandError;
use std::alloc::Global;

/// `create index`, once the descriptor of its table is open (`DefineIndex` in
/// `src/backend/commands/indexcmds.c`): 1 to 32 columns.
#[tactic(auto, using(crate::proofs::Replays::settled))]
pub(crate) fn create_index(
    alloc: Global,
    given: &mut Replay,
    rel: Oid,
    name: Name,
    columns: &[Name],
) -> Result<Step, Leave>
    ensures { Comes result given.old (creating_index name columns.now rel) }
{
    if columns.len() < 1 || columns.len() > MOST_INDEX_COLUMNS {
        return fails(CommandError::TooManyColumns);
    }
    number_columns(alloc, given, rel, name, columns)
}

// Looks up the columns one by one, for their numbers, and writes.
#[tactic(auto, using(crate::proofs::Replays::settled))]
fn number_columns(
    alloc: Global,
    given: &mut Replay,
    rel: Oid,
    name: Name,
    columns: &[Name],
) -> Result<Step, Leave>
    requires some { 0 < length columns.now }
    requires few { length columns.now ≤ MOST }
    ensures { Comes result given.old (numbering name rel columns.now []) }
{
    let mut nums = Vec::with_capacity(alloc, columns.len())?;
    for column in columns {
        let Some(row) = given.search(Purpose::AttName(rel, *column))?.first() else {
            return fails(CommandError::NoColumn { name: *column });
        };
        nums.push(column_number(row))?;
    }
    given.write(index_draft(alloc, name, rel, Nums::new(&nums))?)
}

// The draft of a new index: its own row and that of its columns have one oid, and its table is told.
fn index_draft(alloc: Global, name: Name, rel: Oid, nums: Nums) -> Result<Draft, NoMemory>
    ensures { IfOk result (λ draft. writing draft ≡ adding_index name rel nums) }
{
    let mut changes = Listed::new(alloc);
    changes.push(Change::Insert(Row::Class {
        oid: NEW,
        name,
        kind: Kind::Index,
        fill: None,
    }))?;
    changes.push(Change::Insert(Row::Ind {
        index: NEW,
        table: rel,
        state: IndexState::Valid,
        nums,
    }))?;
    let mut forced = Listed::new(alloc);
    forced.push(rel)?;
    Ok(Draft {
        changes,
        forced,
        new_oids: 1,
    })
}

/// `drop index`, once the descriptor is open (`index_drop` in `src/backend/catalog/index.c`): its table is locked, and told.
#[tactic(auto, using(crate::proofs::Replays::settled))]
pub(crate) fn drop_index(
    alloc: Global,
    opens: &[OpenRelation],
    given: &mut Replay,
    rel: Oid,
) -> Result<Step, Leave>
    ensures { Comes result given.old (dropping_index opens.now rel) }
{
    let Some(Row::Ind { table, .. }) = given.read(Purpose::IndexRow(rel))?.first() else {
        return done(Told::Ok);
    };
    given.lock_all(opens, &[*table])?;
    given.write(dropped_index(alloc, rel, *table)?)
}

// The draft that deletes the rows of an index, of which its table is told.
fn dropped_index(alloc: Global, rel: Oid, table: Oid) -> Result<Draft, NoMemory>
    ensures { IfOk result (λ draft. draft ≡ record { changes = Change.Delete (keys.Ind rel) ∷ Change.Delete (keys.Class rel) ∷ []; forced = table ∷ []; new_oids = 0 }) }
{
    let mut forced = Listed::new(alloc);
    forced.push(table)?;
    Ok(Draft {
        changes: index_deleted(alloc, rel)?,
        forced,
        new_oids: 0,
    })
}

// The changes that delete the rows of an index.
fn index_deleted(alloc: Global, rel: Oid) -> Result<Listed<Change>, NoMemory>
    ensures { IfOk result (λ changes. changes ≡ Change.Delete (keys.Ind rel) ∷ Change.Delete (keys.Class rel) ∷ []) }
{
    let both = [
        Change::Delete(RowKey::Ind(rel)),
        Change::Delete(RowKey::Class(rel)),
    ];
    Ok(Listed::from_vec(Vec::from_array(alloc, both)?))
}
