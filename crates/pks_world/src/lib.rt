//! Worlds, what actions do to them, and what is observed in them. `docs/RULES.md` has the rules.
#![tactic(auto)]

mod apply;
mod few;
mod first;
mod grounding;
mod observe;
mod same;
mod worlds;

pub use few::Few;
pub use grounding::{argument_value, ground_instance};
pub use observe::{Obs, Seen};
pub use worlds::World;
