//! Where terms occur: an index of literals, groups and regions.
#![tactic(auto)]

mod index;
mod items;
mod placing;
mod terms;
mod uses;

pub use uses::Uses;
