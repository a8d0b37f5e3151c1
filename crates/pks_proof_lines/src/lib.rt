//! Proofs of what is known at the end of a path, and the laws of those that are accepted.
#![tactic(auto)]

pub mod laws;
pub mod lines;

pub use lines::{Fact, Line, Path, Proof, Reason, Turn};
