//! Explanations: what a tree owes, with a proof of each, and their text.
#![tactic(auto)]

pub mod entries;
pub mod explaining;
mod owing;
mod print;
mod proving;

pub use entries::{Explained, Owed, ProvedLiteral};
pub use explaining::explain;
pub use owing::owed_literals;
pub use print::print_explained;
