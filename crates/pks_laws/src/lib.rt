//! The laws over the definitions of a contingent planner.
#![tactic(auto)]

pub mod laws;
