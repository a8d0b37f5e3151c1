//! Worked steps: what actions, assumptions and settling make of worked files. What is expected is worked out by hand from the
//! rules of `docs/RULES.md`.
#![tactic(auto)]

#[cfg(test)]
mod clashing;
#[cfg(test)]
mod domains;
#[cfg(test)]
mod marks;
#[cfg(test)]
mod occurrences;
#[cfg(test)]
mod plans;
#[cfg(test)]
mod rows;
#[cfg(test)]
mod tests;
#[cfg(test)]
mod walks;
