//! Laws: settling comes to an end, and histories have the same derived trees without a first moment whose step hides
//! nothing, without moments before looks, without aims that are met for good, and where last databases and ends agree.
#![tactic(auto)]

pub mod laws;
pub mod laws_of_aims;
pub mod laws_of_ends;
pub mod laws_of_looks;
