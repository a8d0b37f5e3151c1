//! The best tree.
#![tactic(auto)]

mod copying;
mod fewer;
pub mod laws;
mod learned;
mod nearing;
mod parts;
mod rising;
pub mod searching;
mod shelves;
mod spots;
mod twinning;
mod within;

pub use searching::{best, best_from};
