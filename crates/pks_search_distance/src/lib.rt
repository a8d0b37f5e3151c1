//! A lower bound on the actions that a world is away from the goal: levels of a relaxed world, in which what may be true, what may be
//! false and what values a place may have only grow, and the goal's literals and landmarks that are unmet. `docs/DECISIONS.md` says what
//! it is for. Laws say what such a bound, counted in one world, says of plans.
#![tactic(auto)]

mod counted;
mod gains;
pub mod ground_actions;
mod landmarks;
pub mod laws;
mod marking;
mod may;
mod needing;
mod news;
mod objects;
mod taking;
mod values;
mod wanted;

pub use ground_actions::GroundActions;
