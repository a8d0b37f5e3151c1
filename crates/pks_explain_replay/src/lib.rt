//! A path of a tree gone along, as its databases come to be, with a line for each thing that is known.
#![tactic(auto)]

mod acting;
mod adding;
mod citing;
mod keeping;
mod numbering;
mod proving;
mod regions;
pub mod replaying;
mod settling;
mod taking;

pub use replaying::{Replay, SavedReplay};
