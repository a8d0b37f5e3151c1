//! Plans whose equal parts stand once: their nodes, and their text.
#![tactic(auto)]

mod hashing;
pub mod laws;
pub mod nodes;
mod printing;
mod sharing;

pub use nodes::{CaseNode, CaseNodes, Dag, Node};
pub use printing::print_dag;
pub use sharing::share;
