//! Calls over texts and files that are read: each succeeds where there is ample memory. What is expected is worked out by hand
//! from `docs/FORMAT.md` and the rules of `docs/RULES.md`.
#![tactic(auto)]

#[cfg(test)]
mod cases;
#[cfg(test)]
mod files;
#[cfg(test)]
mod justifying;
#[cfg(test)]
mod limits;
#[cfg(test)]
mod malformed;
#[cfg(test)]
mod printed;
#[cfg(test)]
mod reading;
#[cfg(test)]
mod refusals;
#[cfg(test)]
mod text_forms;
#[cfg(test)]
mod texts;
