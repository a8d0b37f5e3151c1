//! The reply to a job about a file that was read: why it is refused, or the plan that is wanted, and the text that says so.
#![tactic(auto)]

pub mod accept;
pub mod laws;
pub mod leads;
pub mod line;
mod plans;
pub mod reply;
