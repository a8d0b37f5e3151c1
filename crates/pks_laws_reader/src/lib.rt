//! Laws: a file that has no fault of shape and none of meaning states a valid problem.
#![tactic(auto)]

pub mod laws;
