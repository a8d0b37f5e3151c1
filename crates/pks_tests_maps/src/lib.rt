//! Tests of the persistent map alone: `docs/ARCHITECTURE.md` says where tests stand.
#![tactic(auto)]

#[cfg(test)]
mod tests;
