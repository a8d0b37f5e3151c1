//! Conditional plans: their depth, their cost, which of two is better, and their text.
#![tactic(auto)]

mod body;
mod bytes;
pub mod laws;
mod lines;
mod order;
mod parts;
mod text;
mod trees;

pub use body::print_tree;
pub use bytes::{put, put_number};
pub use order::{action_cost, better, cost, instance_cmp};
pub use parts::{PrintedPart, Wording, print_list};
pub use text::{print_conj, print_instance, print_literal, print_pattern, print_term};
pub use trees::{CaseChain, Tree, depth};
