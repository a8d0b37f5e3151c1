//! Settling: what is learnt of earlier moments.
#![tactic(auto)]

mod family;
mod round;
pub mod settling;

pub use settling::{Settled, settle, settle_after};
