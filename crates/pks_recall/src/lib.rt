//! What each leaf of a plan knows of every moment, and its text.
#![tactic(auto)]

pub mod laws;
mod leaves;
mod print;
pub mod recalling;

pub use recalling::recall;
