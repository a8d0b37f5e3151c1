//! The formulas whose truth is known.
#![tactic(auto)]

use pks_pmap_set::set::{Items, SetOf};
use pks_terms::literal::Conj;

/// A set of formulas, each of whose truth will be known, seen as the list of its members in strict order. Versions share their memory, and none
/// changes. `docs/RULES.md` has the order.
pub type Kw = SetOf<Conj>;

/// The formulas of a set in order, seen as those that are left.
pub type KwItems<'a> = Items<'a, Conj>;
