//! The laws on twins, each the clause of a function that does nothing.

ghost use Rattle.std.specs.Prelude.{◌≡◌, true, ◌∷◌};
ghost use Rattle.pks_terms.specs.Worlds.{World};
ghost use Rattle.pks_terms.specs.Databases.{Five};
ghost use Rattle.pks_terms.specs.Actions.{Instance};
ghost use Rattle.pks_terms.specs.Problems.{Problem};
ghost use Rattle.pks_terms.specs.Typed.{IsTyped, AllJustified};
ghost use Rattle.pks_terms.specs.Settling.{History, At};
ghost use Rattle.pks_terms.specs.Trees.{Tree, Derives};
ghost use Rattle.pks_laws_forget.specs.Staying.{aims_stay};
ghost use Rattle.pks_search.specs.Twins.{MayBeTwins};

/// No tree is derived at a history where one world may be both of some twins.
pub fn twins_that_meet_rule_out_trees()
    ensures { (p : Problem) (h : History) (w : World) (t : Tree) → AllJustified p → IsTyped p → MayBeTwins p h w w → Derives p (At h) t → ⊥ }
{}

/// Twins are so, too, where the first moment of the history is let go of by a step that leaves what the aims over time ask.
pub fn later_moments_keep_twins()
    ensures { (p : Problem) (before : Five) (i : Instance) (h : History) (w w' : World) → aims_stay p before i h.start ≡ true → MayBeTwins p (record { start = before; steps = (i, h.start) ∷ h.steps }) w w' → MayBeTwins p h w w' }
{}
