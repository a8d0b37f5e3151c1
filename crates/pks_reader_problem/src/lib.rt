//! The problem that a file states, or its first fault of meaning (`docs/FORMAT.md`).
#![tactic(auto)]

mod faults;
mod lists;
mod literals;
mod problems;
mod same;
mod schemas;
mod sentences;
mod tables;
mod terms;

pub use problems::problem;
