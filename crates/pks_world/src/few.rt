//! Up to three objects, and atoms at them.
ghost use Rattle.std.specs.Prelude.{◌≡◌, ◌<◌, ◌≤◌, ◌+◌, [], ◌∷◌, ◌++◌};
ghost use Rattle.pks_terms.specs.Counts.{AtomCounts};
ghost use Rattle.pks_terms.specs.Views.{atom_of};
ghost use Rattle.pks_world.specs.Contents.{ground};
ghost use Rattle.pks_world.specs.Few.{few_of};

use pks_terms::ids::{ObjId, PredId};
use pks_terms::literal::PredAtom;
use pks_terms::term::Term;

/// Up to three objects, in order.
#[derive(Clone, Copy)]
pub struct Few {
    n: u8,
    first: ObjId,
    second: ObjId,
    third: ObjId,
}

impl Few {
    /// No object.
    pub fn none() -> Few
        ensures objects { few_of result ≡ [] }
        ensures count { result.n ≡ 0 }
    {
        let filler = ObjId(0);
        Few {
            n: 0,
            first: filler,
            second: filler,
            third: filler,
        }
    }

    /// These objects and one more. It asks that there are less than three.
    pub fn with(&self, d: ObjId) -> Few
        requires { self.now.n < 3 }
        ensures objects { few_of result ≡ few_of self.now ++ d.0 ∷ [] }
        ensures count { result.n ≡ self.now.n + 1 }
    {
        match self.n {
            0 => Few {
                n: 1,
                first: d,
                second: d,
                third: d,
            },
            1 => Few {
                n: 2,
                first: self.first,
                second: d,
                third: d,
            },
            _ => Few {
                n: 3,
                first: self.first,
                second: self.second,
                third: d,
            },
        }
    }

    /// The predicate at these objects.
    pub fn atom(&self, pred: PredId) -> PredAtom
        ensures says { atom_of result ≡ ground pred.0 (few_of self.now) }
        ensures counts { self.now.n ≤ 3 → AtomCounts result }
    {
        PredAtom {
            pred,
            n: self.n,
            args: [
                Term::Obj(self.first),
                Term::Obj(self.second),
                Term::Obj(self.third),
            ],
        }
    }
}
