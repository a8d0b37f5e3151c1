//! Comparing closed databases, set by set. `docs/RULES.md` has the order of terms and literals.
ghost use Rattle.std.specs.Prelude.{◌≡◌, ◌&&◌, ◌↔◌, IsTrue};
ghost use Rattle.std.specs.Ordering.{on, eq_by_cmp};
ghost use Rattle.std.specs.Cmp.Lexicographic.{pointwise};
ghost use Rattle.pks_terms.specs.Databases.{entry_cmp};
ghost use Rattle.pks_terms.specs.Orders.{term_cmp, literal_cmp, conj_cmp};
ghost use Rattle.pks_terms.specs.Views.{term_of, literal_of, literals_in, conj_of};
ghost use Rattle.pks_lcw.specs.Entries.{entry_of};
ghost use Rattle.pks_query_lookup.specs.Fives.{five_of};

use crate::databases::Db;
use pks_pmap_set::set::Items;
use pks_query_lookup::five::Five;
use std::cmp::Ordering;

// Whether as many items are left of both, and each is equal to the one in its place.
fn same_items<T: Ord>(left: Items<'_, T>, right: Items<'_, T>) -> bool
    ensures { result ≡ pointwise (eq_by_cmp T.cmp) left.entry right.entry }
{
    let mut right = right;
    for item in left {
        let Some(other) = right.next() else {
            return false;
        };
        if item.cmp(other) != Ordering::Equal {
            return false;
        }
    }
    right.next().is_none()
}

// Whether each set has the same members as its counterpart.
fn same_sets(left: &Five, right: &Five) -> bool
    ensures { result ≡ (pointwise (eq_by_cmp (on literal_of literal_cmp)) left.now.kf right.now.kf
        && pointwise (eq_by_cmp (on conj_of conj_cmp)) left.now.kw right.now.kw
        && pointwise (eq_by_cmp (on term_of term_cmp)) left.now.kv right.now.kv
        && pointwise (eq_by_cmp (on literals_in conj_cmp)) left.now.kx right.now.kx
        && pointwise (eq_by_cmp (on entry_of entry_cmp)) left.now.lcw right.now.lcw) }
{
    same_items(left.kf.items(), right.kf.items())
        && same_items(left.kw.items(), right.kw.items())
        && same_items(left.kv.items(), right.kv.items())
        && same_items(left.kx.items(), right.kx.items())
        && same_items(left.lcw.items(), right.lcw.items())
}

impl Db {
    /// Whether each of the five sets has the same members as that of the other databases. It compares them member by
    /// member, and takes no memory.
    pub fn same(&self, other: &Db) -> bool
        ensures { IsTrue result ↔ (five_of self.now ≡ five_of other.now) }
    {
        same_sets(self.parts(), other.parts())
    }
}
