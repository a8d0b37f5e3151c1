//! The laws on aims over time, each the clause of a function that does nothing.

ghost use Rattle.std.specs.Prelude.{◌↔◌, ◌≡◌, true};
ghost use Rattle.pks_terms.specs.Databases.{Five};
ghost use Rattle.pks_terms.specs.Actions.{Instance};
ghost use Rattle.pks_terms.specs.Moments.{AreMomentsOf};
ghost use Rattle.pks_terms.specs.Problems.{Problem};
ghost use Rattle.pks_terms.specs.Settling.{History, At};
ghost use Rattle.pks_terms.specs.Trees.{Tree, Derives};
ghost use Rattle.pks_terms.specs.Valid.{IsValid};
ghost use Rattle.pks_laws_forget.specs.Staying.{aims_stay};
ghost use Rattle.pks_laws_forget.specs.Transparent.{IsTransparent, AreSetsAlong, with_first};

/// Where the first step of a history hides nothing and leaves what the aims over time ask, the history without its first moment has the same derived trees.
pub fn aims_that_stay_keep_trees()
    ensures { (p : Problem) (before : Five) (i : Instance) (h : History) (t : Tree) → IsValid p → AreMomentsOf p (with_first before i h) → AreSetsAlong (with_first before i h) → IsTransparent p before i h.start → aims_stay p before i h.start ≡ true → (Derives p (At (with_first before i h)) t ↔ Derives p (At h) t) }
{}
