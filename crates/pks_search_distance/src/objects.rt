//! Up to three objects, and atoms and places at them.
ghost use Rattle.std.specs.Prelude.{◌≡◌, ◌<◌, ◌+◌, [], ◌∷◌, ◌++◌};
ghost use Rattle.pks_terms.specs.Syntax.{place};
ghost use Rattle.pks_terms.specs.Views.{term_of};
ghost use Rattle.pks_search_distance.specs.Gained.{pair_of};

use pks_terms::ids::{FnId, ObjId};
use pks_terms::term::{Inner, Term};

/// Up to two objects.
#[derive(Clone, Copy)]
pub(crate) struct Pair {
    n: u8,
    first: ObjId,
    second: ObjId,
}

impl Pair {
    /// No object.
    pub(crate) fn none() -> Pair
        ensures objects { pair_of result ≡ [] }
        ensures count { result.n ≡ 0 }
    {
        let filler = ObjId(0);
        Pair {
            n: 0,
            first: filler,
            second: filler,
        }
    }

    /// These objects and one more.
    pub(crate) fn with(&self, d: ObjId) -> Pair
        requires { self.now.n < 2 }
        ensures objects { pair_of result ≡ pair_of self.now ++ d.0 ∷ [] }
        ensures count { result.n ≡ self.now.n + 1 }
    {
        match self.n {
            0 => Pair {
                n: 1,
                first: d,
                second: d,
            },
            _ => Pair {
                n: 2,
                first: self.first,
                second: d,
            },
        }
    }

    /// The function at these objects.
    pub(crate) fn place(&self, fun: FnId) -> Term
        ensures { term_of result ≡ place fun.0 (pair_of self.now) }
    {
        Term::App {
            fun,
            n: self.n,
            args: [Inner::Obj(self.first), Inner::Obj(self.second)],
        }
    }
}
