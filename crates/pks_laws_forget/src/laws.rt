//! The laws, each the clause of a function that does nothing.

ghost use Rattle.std.specs.Prelude.{◌↔◌, ◌≡◌, ℕ, true, false, [], ◌∷◌, Option};
ghost use Rattle.pks_terms.specs.Sets.{Each};
ghost use Rattle.pks_terms.specs.Databases.{Five};
ghost use Rattle.pks_terms.specs.Actions.{Instance};
ghost use Rattle.pks_terms.specs.Moments.{AreMomentsOf};
ghost use Rattle.pks_terms.specs.Problems.{Problem};
ghost use Rattle.pks_terms.specs.Settling.{History, State, At, Settles};
ghost use Rattle.pks_terms.specs.Trees.{Tree, Derives, IsBestAt};
ghost use Rattle.pks_terms.specs.Valid.{IsValid};
ghost use Rattle.pks_terms.specs.Versions.{IsNow};
ghost use Rattle.pks_laws_forget.specs.Examples.{tidy, untidy, here, not_here, tidy_here, house, go, tidying, airing, tidying_here, knowing, others_untidy};
ghost use Rattle.pks_laws_forget.specs.Testing.{hides_nothing};
ghost use Rattle.pks_laws_forget.specs.Transparent.{IsTransparent, AreSetsAlong, with_first};

/// A history of the problem whose sets are in order settles: the rounds come to an end.
pub fn settling_comes_to_an_end()
    ensures { (p : Problem) (h : History) → IsValid p → AreMomentsOf p h → AreSetsAlong h → (x : State) × Settles p h x }
{}

/// Where the first step of a history hides nothing and each aim is one of the last moment, the history without its first moment has the same derived trees.
pub fn transparent_step_keeps_trees()
    ensures { (p : Problem) (before : Five) (i : Instance) (h : History) (t : Tree) → IsValid p → Each IsNow p.goal → AreMomentsOf p (with_first before i h) → AreSetsAlong (with_first before i h) → IsTransparent p before i h.start → (Derives p (At (with_first before i h)) t ↔ Derives p (At h) t) }
{}

/// And so the same best tree of at most a depth.
pub fn transparent_step_keeps_best()
    ensures { (p : Problem) (before : Five) (i : Instance) (h : History) (n : ℕ) (o : Option Tree) → IsValid p → Each IsNow p.goal → AreMomentsOf p (with_first before i h) → AreSetsAlong (with_first before i h) → IsTransparent p before i h.start → (IsBestAt p (At (with_first before i h)) n o ↔ IsBestAt p (At h) n o) }
{}

/// A step that passes the test hides nothing.
pub fn tested_steps_hide_nothing()
    ensures { (p : Problem) (before : Five) (i : Instance) (after : Five) → hides_nothing p before i after ≡ true → IsTransparent p before i after }
{}

/// To go to another room hides nothing, whether it was known where one was or not, and neither does to tidy a room.
pub fn going_and_tidying_hide_nothing()
    ensures { (hides_nothing house (knowing (tidy 1 ∷ here 0 ∷ []) [] []) (go 2) (knowing (tidy 1 ∷ here 2 ∷ []) [] []) ≡ true) × (hides_nothing house (knowing (tidy 1 ∷ not_here 0 ∷ []) [] []) (go 2) (knowing (tidy 1 ∷ here 2 ∷ []) [] []) ≡ true) × (hides_nothing house (knowing (untidy 0 ∷ tidy 1 ∷ here 0 ∷ []) [] []) (tidying 0) (knowing (tidy 0 ∷ tidy 1 ∷ here 0 ∷ []) [] []) ≡ true) }
{}

/// To go may hide something where it was known that the room is tidy in which one was, or where it isn't known afterwards where one is.
pub fn going_may_hide_something()
    ensures { (hides_nothing house (knowing (tidy 1 ∷ tidy_here ∷ []) [] []) (go 2) (knowing (tidy 1 ∷ here 2 ∷ []) [] []) ≡ false) × (hides_nothing house (knowing (tidy 1 ∷ here 0 ∷ []) [] []) (go 2) (knowing (tidy 1 ∷ []) [] []) ≡ false) }
{}

/// To air a room hides nothing where it is known whether it is tidy, and else it may.
pub fn airing_may_hide_something()
    ensures { (hides_nothing house (knowing (tidy 0 ∷ []) [] []) (airing 0) (knowing (untidy 0 ∷ []) [] []) ≡ true) × (hides_nothing house (knowing (untidy 0 ∷ []) [] []) (airing 0) (knowing (untidy 0 ∷ []) [] []) ≡ true) × (hides_nothing house (knowing [] [] []) (airing 0) (knowing (untidy 0 ∷ []) [] []) ≡ false) }
{}

/// To tidy a room of which two rooms are known to be one tidy one hides something, unless it is known which it was; and so where it was known that no other room is tidy, and isn't any more.
pub fn tidying_may_hide_something()
    ensures { (hides_nothing house (knowing [] ((tidy 0 ∷ tidy 1 ∷ []) ∷ []) []) (tidying 0) (knowing (tidy 0 ∷ []) [] []) ≡ false) × (hides_nothing house (knowing (tidy 0 ∷ untidy 1 ∷ []) ((tidy 0 ∷ tidy 1 ∷ []) ∷ []) []) (tidying 0) (knowing (tidy 0 ∷ untidy 1 ∷ []) [] []) ≡ true) × (hides_nothing house (knowing [] [] (others_untidy ∷ [])) (tidying 0) (knowing (tidy 0 ∷ []) [] []) ≡ false) }
{}

/// To tidy another room than those of which one is known to be tidy hides nothing, and to tidy one of these may.
pub fn tidying_another_room_hides_nothing()
    ensures { (hides_nothing house (knowing [] ((tidy 0 ∷ tidy 1 ∷ []) ∷ []) []) (tidying 2) (knowing (tidy 2 ∷ []) ((tidy 0 ∷ tidy 1 ∷ []) ∷ []) []) ≡ true) × (hides_nothing house (knowing [] ((tidy 0 ∷ tidy 1 ∷ []) ∷ []) []) (tidying 1) (knowing (tidy 1 ∷ []) ((tidy 0 ∷ tidy 1 ∷ []) ∷ []) []) ≡ false) }
{}

/// To tidy the room where one is hides nothing where it is known which it is, and what is known of it by either name; and neither does to go on then. Else it may.
pub fn tidying_where_one_is_hides_nothing()
    ensures { (hides_nothing house (knowing (here 0 ∷ []) [] []) tidying_here (knowing (tidy 0 ∷ tidy_here ∷ here 0 ∷ []) [] []) ≡ true) × (hides_nothing house (knowing (tidy 0 ∷ tidy_here ∷ here 0 ∷ []) [] []) (go 2) (knowing (tidy 0 ∷ here 2 ∷ []) [] []) ≡ true) × (hides_nothing house (knowing [] [] []) tidying_here (knowing (tidy_here ∷ []) [] []) ≡ false) × (hides_nothing house (knowing (here 0 ∷ []) [] []) tidying_here (knowing (tidy 0 ∷ here 0 ∷ []) [] []) ≡ false) }
{}
