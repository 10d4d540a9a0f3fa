//! What a command does: its plan.
//!
//! A command finds a relation by its name and locks it, opens the relation's descriptor, searches
//! catalog caches, takes further locks, and writes catalog rows (`src/backend/commands/tablecmds.c`). Each
//! of these is an act, and what comes after an act depends on the rows that it gave and on nothing
//! else. So a command is a plan: it is done, with what it answers, or it fails, or it does an act and
//! goes on by the rows that the act gave. There is one clause of a plan for each command
//! (`specs/Commands.antt`), and all that is said of commands elsewhere is said of plans.
//!
//! An [`Exec`] is how far a command is: the plan that is left of it. It keeps the rows that each act gave.
//! In code a command is one function over these rows. After each act it runs again from its first act,
//! and stops by `?` at the first one that isn't done yet. `add column`, once its table is open, searches
//! for the column's name, reads the table's columns, and writes. As long as the second of these acts
//! isn't done, `given.read(..)?` stops with `Leave::At(Step::Read(..))`, which is what the command does
//! next. Once it gave rows, the function runs through both and comes to `given.write(..)`.
//!
//! A run costs a pass over what was given, and most commands do fewer than ten acts. `create index` does one
//! for each column, and `drop table` one for each index; it makes its draft only where it comes to its
//! write. The step before the last act is kept, so a lookup that found no relation is made anew without a
//! run, and takes no memory. A function does two acts or so and hands on to the next: longer ones take the
//! prover long.
#![tactic(auto)]

mod absent;
mod alteration;
mod altered_rows;
mod altered_tables;
mod columns;
mod command_copy;
mod commands;
mod constraints;
mod course;
mod draft;
mod drop_table;
mod exec;
mod facts;
mod foreign_key;
mod indexes;
mod leave;
mod open_relation;
mod opens;
mod reads;
mod replay;
mod step;
mod table;
mod told;
mod triggers;
mod want;

pub use absent::absent_error;
pub use alteration::Alteration;
pub use command_copy::copied_command;
pub use course::Course;
pub use draft::Draft;
pub use exec::Exec;
pub use facts::{EffectRefusal, Facts, effect};
pub use foreign_key::ForeignKey;
pub(crate) use leave::Leave;
pub use open_relation::OpenRelation;
pub use opens::{latest_open, without_latest};
pub(crate) use replay::Replay;
pub use step::Step;
pub use told::Told;
pub use want::Want;
