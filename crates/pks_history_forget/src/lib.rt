//! Letting go of moments of a history: of those before looks, and of its settled past. No answer changes by it.
#![tactic(auto)]

pub mod cutting;
mod effects;
pub mod held;
pub mod hiding;
mod kept;
mod kept_copies;
pub mod looking;
mod normal;
mod objects;
pub mod staying;
mod touching;

pub use cutting::{are_now, cut};
