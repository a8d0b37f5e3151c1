//! Aims at a history.
#![tactic(auto)]

pub mod meeting;

pub use meeting::met;
