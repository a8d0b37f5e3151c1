//! The known literals.
#![tactic(auto)]

use pks_pmap_set::set::{Items, SetOf};
use pks_terms::literal::Literal;

/// A set of known literals, seen as the list of its members in strict order. Versions share their memory, and none
/// changes. `docs/RULES.md` has the order.
pub type Kf = SetOf<Literal>;

/// The literals of a set in order, seen as those that are left.
pub type KfItems<'a> = Items<'a, Literal>;
