//! The lines of proofs along a path, and what stands at each moment of it.
#![tactic(auto)]

mod asking;
mod closing;
mod going;
mod joining;
mod lines;
mod outside;
mod showing;
mod starting;
mod table;
mod tidying;

pub use going::SavedLines;
pub use joining::Joining;
pub use lines::Lines;
pub use pks_explain_moment::{NormalForm, equal, missing_as_memory, unequal};
