//! Laws of plans, each the clause of a function that does nothing.

ghost use Rattle.std.specs.Prelude.{◌≤◌};
ghost use Rattle.pks_terms.specs.Problems.{Problem};
ghost use Rattle.pks_terms.specs.Settling.{State};
ghost use Rattle.pks_terms.specs.Trees.{Tree, Derives, depth};
ghost use Rattle.pks_terms.specs.Printed.{nodes_of};

/// A derived plan of depth at most 2 has at most 273 nodes, since cases have at most 16 objects.
pub fn plans_are_small()
    ensures { (p : Problem) (x : State) (t : Tree) → Derives p x t → depth t ≤ 2 → nodes_of t ≤ 273 }
{}
