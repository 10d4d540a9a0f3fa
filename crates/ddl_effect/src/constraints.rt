// Alterations of the constraints of a table, once its descriptor is open.

ghost use Rattle.std.specs.Prelude.{◌≡◌, ◌∷◌, [], IfOk, MatchOption};
ghost use Rattle.std.specs.List.{find, cons_option};
ghost use Rattle.ddl_effect.specs.Plans.{Done};
ghost use Rattle.ddl_effect.specs.Parts.{forcing};
ghost use Rattle.ddl_effect.specs.Tables.{referred_by};
ghost use Rattle.ddl_effect.specs.Constraints.{is_own_named, add_check as adding_check, add_foreign as adding_foreign, foreign_named, referring, validating, validate_constraint as validating_constraint, drop_constraint as dropping_constraint};
ghost use Rattle.ddl_effect.specs.Replays.{Comes};

use crate::altered_rows::column_number;
use crate::draft::{NEW, adding_draft, replacing_draft};
use crate::leave::{absent, done, fails};
use crate::{Draft, ForeignKey, Leave, OpenRelation, Replay, Step, Told};
use base_types::{
    Change, ConKind, Kind, Listed, Mode, Name, NoMemory, Oid, Purpose, Row, RowKey, Text,
};
use command_answers::CommandError;
use std::alloc::Global;

/// `add constraint .. check` (`ATExecAddConstraint` in `src/backend/commands/tablecmds.c`).
#[tactic(auto, using(crate::proofs::Replays::settled))]
pub(crate) fn add_check(
    alloc: Global,
    given: &mut Replay,
    rel: Oid,
    name: Name,
    text: Text,
    valid: bool,
) -> Result<Step, Leave>
    ensures { Comes result given.old (adding_check name text valid rel) }
{
    let constraints = given.read(Purpose::Constraint(rel))?;
    if let Some(_) = own_constraint(rel, name, constraints) {
        return fails(CommandError::ConstraintExists { name });
    }
    let row = Row::Con {
        oid: NEW,
        rel,
        name,
        valid,
        what: ConKind::Check(text),
    };
    given.write(adding_draft(alloc, None, row, rel)?)
}

/// `add constraint .. foreign key` (`ATAddForeignKeyConstraint` in `src/backend/commands/tablecmds.c`).
#[tactic(auto, using(crate::proofs::Replays::settled))]
pub(crate) fn add_foreign(
    alloc: Global,
    given: &mut Replay,
    rel: Oid,
    key: &ForeignKey,
) -> Result<Step, Leave>
    ensures { Comes result given.old (adding_foreign key.now rel) }
{
    let constraints = given.read(Purpose::Constraint(rel))?;
    if let Some(_) = own_constraint(rel, key.constraint, constraints) {
        return fails(CommandError::ConstraintExists {
            name: key.constraint,
        });
    }
    let Some(row) = given.search(Purpose::AttName(rel, key.column))?.first() else {
        return fails(CommandError::NoColumn { name: key.column });
    };
    refer(alloc, given, rel, key, row)
}

// `add constraint .. foreign key`, by the row of the table's own column: the other relation has to be a table with that column.
#[tactic(auto, using(crate::proofs::Replays::settled))]
fn refer(
    alloc: Global,
    given: &mut Replay,
    rel: Oid,
    key: &ForeignKey,
    row: &Row,
) -> Result<Step, Leave>
    ensures { Comes result given.old (referring key.now rel row.now) }
{
    let rows = given.look_up(key.refers, Mode::ShareRowExclusive)?;
    let Some(Row::Class { oid, kind, .. }) = rows.first() else {
        return absent(key.refers);
    };
    let Kind::Table = *kind else {
        return fails(CommandError::NotTable { name: key.refers });
    };
    let Some(there) = given
        .search(Purpose::AttName(*oid, key.ref_column))?
        .first()
    else {
        return fails(CommandError::NoColumn {
            name: key.ref_column,
        });
    };
    let constraint = Row::Con {
        oid: NEW,
        rel,
        name: key.constraint,
        valid: key.valid,
        what: ConKind::Foreign {
            num: column_number(row),
            refrel: *oid,
            refnum: column_number(there),
        },
    };
    given.write(adding_draft(alloc, None, constraint, *oid)?)
}

/// `validate constraint` (`ATExecValidateConstraint` in `src/backend/commands/tablecmds.c`).
#[tactic(auto, using(crate::proofs::Replays::settled))]
pub(crate) fn validate(
    alloc: Global,
    given: &mut Replay,
    rel: Oid,
    name: Name,
) -> Result<Step, Leave>
    ensures { Comes result given.old (validating_constraint name rel) }
{
    let constraints = given.read(Purpose::Constraint(rel))?;
    let Some(row) = own_constraint(rel, name, constraints) else {
        return fails(CommandError::NoConstraint { name });
    };
    match as_valid(&row) {
        Some(valid) => given.write(replacing_draft(alloc, valid, rel)?),
        None => done(Told::Ok),
    }
}

/// `drop constraint` (`ATExecDropConstraint` in `src/backend/commands/tablecmds.c`): of a foreign key the other table is
/// locked, and told.
#[tactic(auto, using(crate::proofs::Replays::settled))]
pub(crate) fn drop_constraint(
    alloc: Global,
    opens: &[OpenRelation],
    given: &mut Replay,
    rel: Oid,
    name: Name,
) -> Result<Step, Leave>
    ensures { Comes result given.old (dropping_constraint opens.now name rel) }
{
    let constraints = given.read(Purpose::Constraint(rel))?;
    let Some(row) = own_constraint(rel, name, constraints) else {
        return fails(CommandError::NoConstraint { name });
    };
    let other = refers_to(&row);
    given.lock_all(opens, other_table(alloc, other)?.as_slice())?;
    given.write(dropped_constraint(alloc, row.key(), rel, other)?)
}

// The table's own constraint of a name.
fn own_constraint(rel: Oid, name: Name, constraints: &[Row]) -> Option<Row>
    ensures { result ≡ find (is_own_named rel name) constraints.now }
{
    constraints
        .iter()
        .find(|row| is_own(rel, name, row))
        .copied()
}

// Whether a constraint is the table's own, with this name.
fn is_own(rel: Oid, named: Name, row: &Row) -> bool
    ensures { result ≡ is_own_named rel named row.now }
{
    match row {
        Row::Con { rel: of, name, .. } => of.0 == rel.0 && name.as_bytes() == named.as_bytes(),
        _ => false,
    }
}

// The row of a constraint that isn't known to hold, once it is.
fn as_valid(row: &Row) -> Option<Row>
    ensures { MatchOption result ((rel : Oid) → validating rel row.now ≡ Done Told.Ok) (λ valid. (rel : Oid) → validating rel row.now ≡ forcing (Change.Replace valid ∷ []) (rel ∷ []) 0) }
{
    match row {
        Row::Con {
            oid,
            rel,
            name,
            valid: false,
            what,
        } => Some(Row::Con {
            oid: *oid,
            rel: *rel,
            name: *name,
            valid: true,
            what: *what,
        }),
        _ => None,
    }
}

// The draft that deletes a constraint by its key: its table is told, and the one to which it refers.
fn dropped_constraint(
    alloc: Global,
    key: RowKey,
    rel: Oid,
    other: Option<Oid>,
) -> Result<Draft, NoMemory>
    ensures { IfOk result (λ draft. draft ≡ record { changes = Change.Delete key ∷ []; forced = rel ∷ cons_option other []; new_oids = 0 }) }
{
    let mut forced = Listed::new(alloc);
    forced.push(rel)?;
    if let Some(referred) = other {
        forced.push(referred)?;
    }
    Ok(Draft {
        changes: Listed::from_vec(Vec::from_array(alloc, [Change::Delete(key)])?),
        forced,
        new_oids: 0,
    })
}

// The table to which a constraint refers, if it is a foreign key, as a list.
fn other_table(alloc: Global, other: Option<Oid>) -> Result<Listed<Oid>, NoMemory>
    ensures { IfOk result (λ rels. rels ≡ cons_option other []) }
{
    let mut rels = Listed::new(alloc);
    if let Some(referred) = other {
        rels.push(referred)?;
    }
    Ok(rels)
}

/// The table to which a foreign key refers.
pub(crate) fn refers_to(row: &Row) -> Option<Oid>
    ensures { referred_by row.now ≡ cons_option result [] }
{
    match row {
        Row::Con {
            what: ConKind::Foreign { refrel, .. },
            ..
        } => Some(*refrel),
        _ => None,
    }
}
