//! Terms, literals, actions and problems, with their orders, and in `specs/` the definitions of all rules over plain lists.
#![tactic(auto)]

pub mod choices;
pub mod codes;
pub mod group;
pub mod ids;
pub mod limits;
pub mod literal;
pub mod lookup;
pub mod marks;
pub mod objects;
pub mod problem;
pub mod putting;
pub mod schema;
pub mod sequence;
pub mod term;
