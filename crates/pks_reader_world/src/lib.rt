//! The world that a file states, and the first fault of its world (`docs/FORMAT.md`).
#![tactic(auto)]

mod facts;
pub mod laws;
mod naming;
mod places;
mod read;

pub use read::read_world;
