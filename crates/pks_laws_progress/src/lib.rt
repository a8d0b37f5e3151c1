//! Laws: what an action keeps of closed databases is closed, and closing comes to an end.
#![tactic(auto)]

pub mod laws;
