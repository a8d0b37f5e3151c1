//! The laws, each the clause of a function that does nothing.

ghost use Rattle.std.specs.Prelude.{◌≡◌, ◌≤◌, ◌*◌, ℕ, max, List, [], ◌∷◌, Option};
ghost use Rattle.pks_terms.specs.Sets.{IsIn};
ghost use Rattle.pks_terms.specs.Syntax.{Term, Literal};
ghost use Rattle.pks_terms.specs.Worlds.{World};
ghost use Rattle.pks_terms.specs.Databases.{Five};
ghost use Rattle.pks_terms.specs.Closure.{Next, Closes};
ghost use Rattle.pks_terms.specs.Actions.{Instance};
ghost use Rattle.pks_terms.specs.Problems.{Problem, initial, IsCompatible};
ghost use Rattle.pks_terms.specs.Typed.{IsTyped, AllJustified};
ghost use Rattle.pks_terms.specs.Branching.{instances, Choice, Side, IsMember, IsSo};
ghost use Rattle.pks_terms.specs.Settling.{History, last_moment, State, At};
ghost use Rattle.pks_terms.specs.Trees.{Tree, Branch, Cases, Chain, depth, chain_depth, Acts, Takes, Derives};
ghost use Rattle.pks_terms.specs.Knowledge.{grounded, after_action};
ghost use Rattle.pks_search_distance.specs.Runs.{MayBeDone, IsGoal, MayBeAt, Reaches};
ghost use Rattle.pks_search_distance.specs.Levels.{Chances, Allows, IsNext, IsBound, IsAtMost, AreLevels};
ghost use Rattle.pks_search_distance.specs.Landmarks.{unmet_marks, AreLandmarks, ReachAtMost};
ghost use Rattle.pks_search_distance.specs.Unmet.{AreWanted, unmet, MeetsAtMost, fewest, greater};

/// A compatible world may be the present one at the start.
pub fn compatible_worlds_may_be_first()
    ensures { (p : Problem) (d : Five) (w : World) → Closes p.signature (initial p) (Next d) → IsCompatible p w → MayBeAt p (record { start = d; steps = [] }) w }
{}

/// An action that is a choice doesn't clash where a world may be the present one, and the world after the ground action that it is there may be the
/// present one afterwards.
pub fn actions_lead_on()
    ensures { (p : Problem) (h : History) (w : World) (i : Instance) (x : State) → AllJustified p → IsTyped p → MayBeAt p h w → IsIn i (instances p (last_moment h)) → Acts p h i x → (g : History) × (x ≡ At g) × MayBeAt p g (after_action p w (grounded w i)) }
{}

/// The side that is so in a world that may be the present one doesn't clash, and the world may be the present one there.
pub fn sides_keep_the_world()
    ensures { (p : Problem) (h : History) (w : World) (c : Choice) (side : Side) (x : State) → MayBeAt p h w → IsMember (last_moment h) c → IsSo w c side → Takes p h c side x → (g : History) × (x ≡ At g) × MayBeAt p g w }
{}

/// A world that may be the present one may be it where the first moment of the history is let go of.
pub fn later_moments_keep_the_world()
    ensures { (p : Problem) (before : Five) (i : Instance) (h : History) (w : World) → MayBeAt p (record { start = before; steps = (i, h.start) ∷ h.steps }) w → MayBeAt p h w }
{}

/// A tree that is derived at a history has, from each world that may be the present one there, a run of no more actions than the tree is deep: what
/// the preconditions of each ask for is so when it is done, and what the goal asks for at the last moment is so at the end.
pub fn derived_trees_reach_the_goal()
    ensures { (p : Problem) (h : History) (w : World) (t : Tree) → AllJustified p → IsTyped p → MayBeAt p h w → Derives p (At h) t → Reaches p w (depth t) }
{}

/// A branch is no action: where one is at the root, the run is no longer than the deepest side.
pub fn branches_are_no_actions()
    ensures { (p : Problem) (h : History) (w : World) (c : List Literal) (t u : Tree) → AllJustified p → IsTyped p → MayBeAt p h w → Derives p (At h) (Branch c t u) → Reaches p w (max (depth t) (depth u)) }
{}

/// Nor are cases: where they are at the root, the run is no longer than the deepest of them.
pub fn cases_are_no_actions()
    ensures { (p : Problem) (h : History) (w : World) (x : Term) (k : Chain) → AllJustified p → IsTyped p → MayBeAt p h w → Derives p (At h) (Cases x k) → Reaches p w (chain_depth k) }
{}

// ---- levels

/// What a level allows, the next one allows after one more action that may be done.
pub fn next_levels_allow_what_comes()
    ensures { (p : Problem) (m n : Chances) (w : World) (i : Instance) → IsNext p m n → Allows m w → MayBeDone p w i → Allows n (after_action p w i) }
{}

/// No run of so many actions brings about a goal that can't be so after so many levels.
pub fn runs_stay_within_levels()
    ensures { (p : Problem) (w : World) (level : ℕ → Chances) (k : ℕ) → AreLevels p w level → ((v : World) → Allows (level k) v → IsGoal p v → ⊥) → Reaches p w k → ⊥ }
{}

/// A tree that is derived at a history is at least as deep as a bound counted in a world that may be the present one, and where there is no bound
/// none is derived.
pub fn derived_trees_are_bounded()
    ensures { (p : Problem) (h : History) (w : World) (t : Tree) (o : Option ℕ) → AllJustified p → IsTyped p → MayBeAt p h w → Derives p (At h) t → IsBound p w o → IsAtMost o (depth t) }
{}

// ---- unmet literals

/// A run that reaches the goal has at least one action for each m literals that are unmet where it begins, if no action meets more.
pub fn runs_meet_what_is_unmet()
    ensures { (p : Problem) (w : World) (ls : List Literal) (m k : ℕ) → AreWanted p ls → MeetsAtMost p ls m → Reaches p w k → unmet w ls ≤ k * m }
{}

/// So many actions are a bound; where none meets a literal and one is unmet, there is no run at all.
pub fn unmet_literals_bound()
    ensures { (p : Problem) (w : World) (ls : List Literal) (m : ℕ) → AreWanted p ls → MeetsAtMost p ls m → IsBound p w (fewest m (unmet w ls)) }
{}

/// So is the number of unmet landmarks, divided by the most of them that one action meets, rounded up.
pub fn unmet_landmarks_bound()
    ensures { (p : Problem) (w : World) (cs : List (List Literal)) (m : ℕ) → AreLandmarks p cs → ReachAtMost p cs m → IsBound p w (fewest m (unmet_marks w cs)) }
{}

/// The greater of two bounds is one.
pub fn greater_bounds_hold()
    ensures { (p : Problem) (w : World) (a b : Option ℕ) → IsBound p w a → IsBound p w b → IsBound p w (greater a b) }
{}
