//! The grammar of files as a table, the walk that finds the first form that the grammar has not at its place, and the
//! shape of whole files (`docs/FORMAT.md`).
#![tactic(auto)]

pub mod grammar;
pub mod report;
pub mod shape;
mod table;
pub mod walk;
pub mod words;
