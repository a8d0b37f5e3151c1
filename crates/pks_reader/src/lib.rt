//! Reading: the problem that a text states, the world of a file, a whole input, or the refusal of the first fault (`docs/FORMAT.md`).
#![tactic(auto)]

mod input;
pub mod laws;
mod places;
mod reading;
mod refusal;
mod world;

pub use input::{InputFile, read_file};
pub use pks_reader_shape::report::{Extra, Refusal, Turned};
pub use pks_reader_world::read_world;
pub use places::{add_at, init_at, place, problem_at, world_at};
pub use reading::{problem_of, read_problem};
pub use refusal::text_refused;
pub use world::stated_world;
