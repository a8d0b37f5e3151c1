//! Worked problems, computed on the definitions of a contingent planner.
#![tactic(auto)]

pub mod examples;
pub mod reasoned;
