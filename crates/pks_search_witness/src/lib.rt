//! Witnesses: worlds that may be the present one, and how far each is from the goal; twins, two such worlds that an aim tells
//! apart. They save work and change no answer. `docs/DECISIONS.md` says what they are for.
#![tactic(auto)]

mod idling;
mod making;
mod pairing;
mod puttings;
mod twins;
mod typing;
mod witness;

pub use making::witnesses_of;
pub use pairing::twins_of;
pub use twins::Twins;
pub use witness::Witness;
