//! Closing of databases by rounds, and between these by a work list.
#![tactic(auto)]

mod carrying;
mod clashing;
pub mod closing;
pub mod forms;
pub mod groups;
mod listing;
mod numbers;
mod own;
pub mod ranges;
pub mod rounds;
mod shutting;
mod spreading;
mod standing;
pub mod steps;
pub mod tidied;
mod touched;
mod working;
