//! Runs of plans in a given world: what happens, whether the world may be the one that the plan begins in, and the text of a run.
//! `docs/RULES.md` has the rules.
#![tactic(auto)]

mod compatibility;
mod print;
mod running;
mod runs;

pub use compatibility::compatible;
pub use print::{end_words, print_run};
pub use running::exec;
pub use runs::{End, Event, Run};
