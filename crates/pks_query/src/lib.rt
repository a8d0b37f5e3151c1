//! Closed databases, those in which a problem begins, and asking them.
#![tactic(auto)]

pub mod asking;
pub mod databases;
pub mod initial;
pub mod same;

pub use databases::{Db, Step};
pub use pks_query_closing::closing::CloseEnd;
pub use pks_query_lookup::five::Five;
pub use pks_query_uses::Uses;
