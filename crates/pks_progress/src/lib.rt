//! Progression: the databases after an action.
#![tactic(auto)]

mod ahead;
mod kept;
mod loose;
pub mod progressing;
mod regions;

pub use progressing::progress;
