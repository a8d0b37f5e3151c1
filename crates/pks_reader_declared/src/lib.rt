//! What the sections of a domain declare, and the first fault of the declarations (`docs/FORMAT.md`).
#![tactic(auto)]

mod actions;
mod declaring;
mod domain;
mod functions;
mod sections;

pub use actions::{actions_among, parameters};
pub use declaring::{check_name, declare, first_in, name_of, past_second_names, second_in};
pub use domain::{Domain, declarations};
