//! The laws on looks, each the clause of a function that does nothing.

ghost use Rattle.std.specs.Prelude.{◌↔◌, ◌≡◌, ℕ, true, [], Option};
ghost use Rattle.pks_terms.specs.Worlds.{World};
ghost use Rattle.pks_terms.specs.Knowledge.{after_actions, ground_actions};
ghost use Rattle.pks_terms.specs.Remembering.{deeds_of, Both};
ghost use Rattle.pks_terms.specs.Signatures.{HasValues};
ghost use Rattle.pks_terms.specs.Databases.{Five, AreSets};
ghost use Rattle.pks_terms.specs.Closure.{Next, Closes};
ghost use Rattle.pks_terms.specs.Actions.{Instance};
ghost use Rattle.pks_terms.specs.Moments.{AreMomentsOf};
ghost use Rattle.pks_terms.specs.Problems.{Problem, initial};
ghost use Rattle.pks_terms.specs.Settling.{History, At};
ghost use Rattle.pks_terms.specs.Trees.{Tree, Derives, IsBest};
ghost use Rattle.pks_terms.specs.Valid.{IsValid};
ghost use Rattle.pks_laws_forget.specs.Transparent.{AreSetsAlong};
ghost use Rattle.pks_laws_forget.specs.Fewer.{without_met};
ghost use Rattle.pks_laws_forget.specs.Looks.{IsLook, AreWithout, is_look, without_looks};

/// A history without some moments before looks is one of the problem, and its sets are in order.
pub fn moments_stay_without_looks()
    ensures { (p : Problem) (h g : History) → AreMomentsOf p h → AreSetsAlong h → AreWithout (IsLook p) h.start h.steps g.start g.steps → AreMomentsOf p g × AreSetsAlong g }
{}

/// A history without some moments before looks has the same derived trees.
pub fn looks_keep_trees()
    ensures { (p : Problem) (h g : History) (t : Tree) → IsValid p → AreMomentsOf p h → AreSetsAlong h → AreWithout (IsLook p) h.start h.steps g.start g.steps → (Derives p (At h) t ↔ Derives p (At g) t) }
{}

/// A step that passes the test is a look.
pub fn tested_steps_are_looks()
    ensures { (p : Problem) (before : Five) (i : Instance) (after : Five) → AreSets before → AreSets after → is_look p before i after ≡ true → IsLook p before i after }
{}

/// What is without the steps that pass the test is without some looks.
pub fn tested_looks_are_left_out()
    ensures { (p : Problem) (h : History) → AreSetsAlong h → AreWithout (IsLook p) h.start h.steps (without_looks p h).start (without_looks p h).steps }
{}

/// What a history is true of, it is true of without some moments before looks, and its steps lead to the same world.
pub fn looks_keep_worlds()
    ensures { (p : Problem) (h g : History) (w w' : World) → AreWithout (IsLook p) h.start h.steps g.start g.steps → Both p w w' h → Both p w w' g × (after_actions p w (ground_actions p w (deeds_of h.steps)) ≡ after_actions p w (ground_actions p w (deeds_of g.steps))) }
{}

/// The aims that a history meets for good play no part: without them it has the same derived trees.
pub fn aims_met_for_good_play_no_part()
    ensures { (p : Problem) (h : History) (t : Tree) → HasValues p.signature → (Derives p (At h) t ↔ Derives (without_met p h) (At h) t) }
{}

/// And the problem has the same best plan of at most a depth without those that its first databases meet for good.
pub fn best_plans_stay_without_aims_met_for_good()
    ensures { (p : Problem) (d : Five) (n : ℕ) (o : Option Tree) → HasValues p.signature → Closes p.signature (initial p) (Next d) → (IsBest p n o ↔ IsBest (without_met p (record { start = d; steps = [] })) n o) }
{}
