//! Histories: the databases of each moment, with the instance between each two.
#![tactic(auto)]

pub mod histories;
pub mod same;

pub use histories::History;
