//! Walking a derived tree: where a plan begins, and where each step leads. The histories are made anew along the tree.
#![tactic(auto)]

pub mod states;

pub use states::{State, after, history, start, taking};
