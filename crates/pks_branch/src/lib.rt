//! Choices, and what is assumed on a side.
#![tactic(auto)]

pub mod assuming;
mod candidates;
pub mod choosing;
mod early;
pub mod leaving;
pub mod taking;
mod walking;

pub use assuming::assume;
pub use choosing::choices;
pub use leaving::left;
pub use pks_terms::choices::{Choice, Side};
pub use taking::Walk;
