//! What the effects of an action do, as the lines of its two moments tell: what they are barred from, what they keep, undo and
//! make so, each with the literals on which that rests. `docs/REASONS.md` says when.
#![tactic(auto)]

mod barring;
mod doing;
mod firing;
mod forms;
mod lasting;
mod making;
mod parts;
mod regions;
mod targets;

pub use barring::Tests;
pub use firing::{ActionStep, Firing, step_of};
pub use forms::TargetForm;
pub use making::Made;
pub use regions::Staying;
pub use targets::{literal_made, target_added};
