//! Laws: histories that are each other's images by a renaming of objects have equal trees.
#![tactic(auto)]

pub mod laws;
