//! The terms whose values are known.
#![tactic(auto)]

use pks_pmap_set::set::{Items, SetOf};
use pks_terms::term::Term;

/// A set of terms, each of whose value will be known, seen as the list of its members in strict order. Versions share their memory, and none
/// changes. `docs/RULES.md` has the order.
pub type Kv = SetOf<Term>;

/// The terms of a set in order, seen as those that are left.
pub type KvItems<'a> = Items<'a, Term>;
