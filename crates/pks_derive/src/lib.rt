//! Knowledge effects that follow from the text of actions.
#![tactic(auto)]

mod actions;
pub mod laws;
mod offering;
mod same;
mod shapes;
mod text;

pub use actions::derive;
