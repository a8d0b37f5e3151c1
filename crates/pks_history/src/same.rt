//! Comparing histories, moment by moment.
ghost use Rattle.std.specs.Prelude.{◌≡◌, ◌↔◌, IsTrue};
ghost use Rattle.pks_terms.specs.Views.{instance_of};
ghost use Rattle.pks_history.specs.Moments.{moments_of};

use crate::histories::{History, Moment};
use pks_terms::schema::Instance;
use pks_terms::term::front;

/// Whether the instances are of one action, with the same arguments.
fn same_instance(i: &Instance, j: &Instance) -> bool
    ensures { IsTrue result ↔ (instance_of i.now ≡ instance_of j.now) }
{
    i.act.0 == j.act.0 && front(&i.args, i.n) == front(&j.args, j.n)
}

/// Whether as many moments follow, and each is equal to the one in its place.
fn same_moments(left: &[Moment], right: &[Moment]) -> bool
    ensures { IsTrue result ↔ (moments_of left.now ≡ moments_of right.now) }
{
    match (left, right) {
        ([], []) => true,
        ([m, left @ ..], [n, right @ ..]) => {
            same_instance(&m.step, &n.step) && m.db.same(&n.db) && same_moments(left, right)
        }
        _ => false,
    }
}

impl History {
    /// Whether the histories have as many moments, the same databases at each, and the same instances between. It takes no
    /// memory.
    pub fn same(&self, other: &History) -> bool
        ensures { IsTrue result ↔ (self.now ≡ other.now) }
    {
        self.at(0).same(other.at(0)) && same_moments(self.later(), other.later())
    }
}
