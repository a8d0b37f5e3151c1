//! The laws over the definitions, each the clause of a function that does nothing.

ghost use Rattle.std.specs.Prelude.{◌≡◌, ◌+◌, ℕ, true, [], ◌∷◌, ◌++◌, length, take, Some};
ghost use Rattle.pks_terms.specs.Syntax.{Literal};
ghost use Rattle.pks_terms.specs.Worlds.{World, true_in};
ghost use Rattle.pks_terms.specs.Problems.{Problem, IsCompatible, StartAlike};
ghost use Rattle.pks_terms.specs.Settling.{History};
ghost use Rattle.pks_terms.specs.Typed.{IsTyped};
ghost use Rattle.pks_terms.specs.Knowledge.{after_actions, ground_actions};
ghost use Rattle.pks_terms.specs.Remembering.{TrueAlong, deeds_of, SeenAlong};
ghost use Rattle.pks_terms.specs.Proofs.{Fact, FactLit, IsFactOf, Path, deeds, final_moment, GoesAlong, world_along, IsPathOf, Reason, Line, Proof, nth};
ghost use Rattle.pks_terms.specs.Judging.{Judge, IsMore, IsRight, by_databases};
ghost use Rattle.pks_terms.specs.Accepting.{is_allowed_by, is_allowed_line, are_before, are_allowed, accepts};

/// A fact that a reason allows is so in the world of its moment, where all that may be relied on is so in the worlds of its moments: in each compatible world that takes the path.
pub fn reasons_are_sound()
    ensures { (p : Problem) (path : Path) (w : World) (j : Judge) (m : ℕ) (f : Fact) (r : Reason) → IsTyped p → IsPathOf p path → IsCompatible p w → GoesAlong p w path → IsRight j (world_along p w path) → is_allowed_by p path j m f r ≡ true → IsFactOf (world_along p w path m) f }
{}

/// Each line of a proof whose lines are allowed is so in the world of its moment.
pub fn allowed_lines_are_true()
    ensures { (p : Problem) (path : Path) (w : World) (proof : Proof) (n : ℕ) (line : Line) → IsTyped p → IsPathOf p path → IsCompatible p w → GoesAlong p w path → are_allowed p path proof ≡ true → nth proof n ≡ Some line → IsFactOf (world_along p w path line.moment) line.fact }
{}

/// What an accepted proof shows is true at the end of the path, in each compatible world that takes it.
pub fn accepted_is_true()
    ensures { (p : Problem) (path : Path) (w : World) (proof : Proof) (l : Literal) → IsTyped p → IsPathOf p path → IsCompatible p w → GoesAlong p w path → accepts p path proof l ≡ true → true_in (after_actions p w (ground_actions p w (deeds path))) l ≡ true }
{}

/// It is true in both of two worlds that begin alike, take the path and see the same after each action.
pub fn accepted_is_true_in_both()
    ensures { (p : Problem) (path : Path) (w w' : World) (proof : Proof) (l : Literal) → IsTyped p → IsPathOf p path → StartAlike p w w' → GoesAlong p w path → GoesAlong p w' path → SeenAlong p w w' (deeds path) → accepts p path proof l ≡ true → (true_in (after_actions p w (ground_actions p w (deeds path))) l ≡ true) × (true_in (after_actions p w' (ground_actions p w' (deeds path))) l ≡ true) }
{}

/// A literal that a reason allows is allowed where more may be relied on. A region isn't always: by `grow` it has no atom that is barred, and to cite more may bar one.
pub fn literals_stay_allowed()
    ensures { (p : Problem) (path : Path) (j k : Judge) (m : ℕ) (l : Literal) (r : Reason) → IsMore j k → is_allowed_by p path j m (FactLit l) r ≡ true → is_allowed_by p path k m (FactLit l) r ≡ true }
{}

/// A line that is allowed by lines before it may be added to lines that are allowed.
pub fn allowed_lines_may_be_added()
    ensures { (p : Problem) (path : Path) (proof : Proof) (line : Line) → are_allowed p path proof ≡ true → are_before (length proof + 1) line.cites ≡ true → is_allowed_line p path proof line ≡ true → are_allowed p path (proof ++ line ∷ []) ≡ true }
{}

/// Of lines that are allowed each literal at the last moment has an accepted proof.
pub fn allowed_literals_have_proofs()
    ensures { (p : Problem) (path : Path) (front back : Proof) (line : Line) (l : Literal) → are_allowed p path (front ++ line ∷ back) ≡ true → line.moment ≡ final_moment path → line.fact ≡ FactLit l → (proof : Proof) × (accepts p path proof l ≡ true) }
{}

/// What stands in the databases of a history that is true of a world is so in the worlds of its moments.
pub fn databases_are_right()
    ensures { (p : Problem) (w : World) (h : History) → TrueAlong p w h.start h.steps → IsRight (by_databases h) (λ m. after_actions p w (ground_actions p w (take m (deeds_of h.steps)))) }
{}
