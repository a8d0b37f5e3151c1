//! Whether the text of an action justifies each of its adds, and by which case (`docs/RULES.md`, "Justified adds").
#![tactic(auto)]

mod cases;
mod deciding;
mod fitting;
mod given;
mod undoing;

pub use cases::{Case, Unjustified, case_in, case_of, case_with, justify};
pub use fitting::{is_same, literal_of_target, makes_so};
pub use given::{Premises, queries_of};
