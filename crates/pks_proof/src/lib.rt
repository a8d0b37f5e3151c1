//! The checker of proofs: which of them are accepted.
#![tactic(auto)]

pub mod accepting;
mod acting;
mod barring;
mod region;

pub use accepting::accepts;
pub use pks_proof_lines::{Fact, Line, Path, Proof, Reason, Turn};
