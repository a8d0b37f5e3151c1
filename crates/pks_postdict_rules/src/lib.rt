//! What two neighbouring moments of a history tell of each other.
#![tactic(auto)]

mod change;
mod firing;
mod forms;
mod lasting;
pub mod steps;
mod targets;
mod undoing;
