//! Histories that are each other's images by a renaming of objects that the problem doesn't tell apart. `docs/RULES.md` says
//! why their trees are equal.
#![tactic(auto)]

pub mod alike;
mod classes;
mod fixed;
mod images;
mod marks;
mod renaming;

pub use alike::{Alike, HistoryKey, Keyed};
pub use fixed::same_query;
