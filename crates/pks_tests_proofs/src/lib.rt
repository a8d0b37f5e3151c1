//! Tests of the checker of proofs, over files that are read: `docs/ARCHITECTURE.md` says where tests stand. What is expected
//! is worked out by hand from the rules of `docs/REASONS.md`.
#![tactic(auto)]

#[cfg(test)]
mod actions;
#[cfg(test)]
mod judging;
#[cfg(test)]
mod moments;
#[cfg(test)]
mod places;
#[cfg(test)]
mod regions;
#[cfg(test)]
mod rows;
#[cfg(test)]
mod terms;
#[cfg(test)]
mod tests;
#[cfg(test)]
mod typed;
