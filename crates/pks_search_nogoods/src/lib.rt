//! The tables of failed searches, and of finds: best trees that were met. They save work and change no answer.
#![tactic(auto)]

pub mod failures;
pub mod finds;
pub mod laws;
