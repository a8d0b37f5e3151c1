//! The exclusive groups.
#![tactic(auto)]

use pks_pmap_set::set::{Items, SetOf};
use pks_terms::group::Group;

/// A set of groups, of each of which exactly one literal is true, seen as the list of its members in strict order. Versions share their memory, and none
/// changes. `docs/RULES.md` has the order.
pub type Kx = SetOf<Group>;

/// The groups of a set in order, seen as those that are left.
pub type KxItems<'a> = Items<'a, Group>;
