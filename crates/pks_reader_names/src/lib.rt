//! What is declared, where names are looked up, and the least fault of meaning, with the definitions of all these faults
//! (`docs/FORMAT.md`).
#![tactic(auto)]

mod keeping;
pub mod parts;
pub mod report;
pub mod scope;
