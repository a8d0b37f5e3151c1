//! What is cited at a moment, and the reasons that ask for that moment alone.
#![tactic(auto)]

pub mod apart;
pub mod cited;
pub mod evident;
pub mod forms;
pub mod given;
pub mod moment;
pub mod swapping;
