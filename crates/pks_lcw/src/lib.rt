//! The closed regions.
#![tactic(auto)]

pub mod atoms;
pub mod regions;

pub use atoms::{AtomSet, AtomSetItems};
use pks_pmap_set::set::{Items, SetOf};
pub use regions::Entry;

/// A set of entries, seen as the list of its entries in strict order. Versions share their memory, and none changes.
/// `docs/RULES.md` has the order.
pub type Lcw = SetOf<Entry>;

/// The entries of a set in order, seen as those that are left.
pub type LcwItems<'a> = Items<'a, Entry>;
