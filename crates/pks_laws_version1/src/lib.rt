//! Laws: a problem of the first version is read, looked up, closed and planned by the rules of that version.
#![tactic(auto)]

pub mod files;
pub mod laws;
