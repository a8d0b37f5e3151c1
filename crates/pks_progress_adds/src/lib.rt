//! What the adds of an action give (`docs/RULES.md`, "Progression").
#![tactic(auto)]

mod arguments;
mod deed;
mod formulas;
pub mod gained;
pub mod gains;
mod literals;
mod regions;
mod values;
