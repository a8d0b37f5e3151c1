//! What the effects of an action may do, as far as databases tell: which terms stay as they are, and which literals may
//! become false.
#![tactic(auto)]

pub mod effects;
pub mod spoiled;
pub mod targets;
