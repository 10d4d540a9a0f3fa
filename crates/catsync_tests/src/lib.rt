//! The tests of the crates' functions, a file a crate or a topic. What several of them begin with is in `inputs`.
//!
//! They stand in one crate since a crate with tests is proved twice. They test what no clause says:
//! the definitions against tables from outside, that a call with ample memory succeeds, and what happens where
//! a reader, a writer or a call in its middle fails. What arguments and standard input can tell, such as the text of
//! each answer, is mostly compared by `./prove` with files, which costs no proof: whole outputs, forged ones and refusals. The
//! texts of causes and statuses are here.
//!
//! Each test is proved before it runs, and a test costs more than a row of its table. So most are tables: of calls and
//! what each is answered, or of texts and what they come to. A helper tries one row. What a proof costs is the steps of
//! a function times what is alive at each, so little that owns memory lives beside an `assert!` or a second `?`, and a
//! long literal is a constant.
#![tactic(auto)]

#[cfg(test)]
mod backend_caches;
#[cfg(test)]
mod boards;
#[cfg(test)]
mod calls;
#[cfg(test)]
mod cat_caches;
#[cfg(test)]
mod checks;
#[cfg(test)]
mod commands;
#[cfg(test)]
mod descriptors;
#[cfg(test)]
mod edge;
#[cfg(test)]
mod events;
#[cfg(test)]
mod faults;
#[cfg(test)]
mod gates;
#[cfg(test)]
mod inputs;
#[cfg(test)]
mod ledgers;
#[cfg(test)]
mod locks;
#[cfg(test)]
mod messages;
#[cfg(test)]
mod open_fields;
#[cfg(test)]
mod outputs;
#[cfg(test)]
mod pins;
#[cfg(test)]
mod queues;
#[cfg(test)]
mod readers;
#[cfg(test)]
mod rel_caches;
#[cfg(test)]
mod row_texts;
#[cfg(test)]
mod rows;
#[cfg(test)]
mod scripts;
#[cfg(test)]
mod segments;
#[cfg(test)]
mod sessions;
#[cfg(test)]
mod shared_turns;
#[cfg(test)]
mod threads;
#[cfg(test)]
mod top_calls;
#[cfg(test)]
mod turns;
#[cfg(test)]
mod values;
