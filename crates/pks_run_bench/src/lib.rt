//! The generated file, and the line that tells of the plan over it.
#![tactic(auto)]

mod bytes;
mod facts;
mod file;
pub mod laws;
mod line;
mod size;

pub use file::generate;
pub use line::bench_line;
pub use size::nodes;
