//! Looking up: the five databases together, normal forms by them, and which literals they hold.
#![tactic(auto)]

pub mod atoms;
pub mod derived;
pub mod five;
mod forms;
pub mod literals;
pub mod normals;
pub mod ranges;
pub mod table;
