//! The laws over the definitions, each the clause of a function that does nothing.

ghost use Rattle.std.specs.Prelude.{◌≡◌, ◌≤◌, ◌+◌, ℕ, true, List, [], ◌++◌, Some, slice_get, is_some};
ghost use Rattle.pks_terms.specs.Sets.{Each, IsIn};
ghost use Rattle.pks_terms.specs.Syntax.{Literal};
ghost use Rattle.pks_terms.specs.Databases.{Entry, Five, holds};
ghost use Rattle.pks_terms.specs.Closure.{rounds, tidied, Next, Closes};
ghost use Rattle.pks_terms.specs.Actions.{Add, Instance};
ghost use Rattle.pks_terms.specs.Justified.{case_of};
ghost use Rattle.pks_terms.specs.Typed.{AreJustified, AllJustified};
ghost use Rattle.pks_terms.specs.Problems.{Problem, schema_of, initial};
ghost use Rattle.pks_terms.specs.Valid.{IsValid};
ghost use Rattle.pks_terms.specs.Moments.{IsInOrder, AreInOrder};
ghost use Rattle.pks_terms.specs.Branching.{instances, Choice, Side, IsMember, assumed};
ghost use Rattle.pks_terms.specs.Progress.{kept_entry, regions_added, progressed};
ghost use Rattle.pks_terms.specs.Settling.{History, last_moment, effects_of, forward, backward, settle_rounds};
ghost use Rattle.pks_terms.specs.Trees.{Tree, IsPlan};
ghost use Rattle.pks_terms.specs.Proofs.{FactLit, FactLcw, Path, deeds, takings, final_moment, Proof, nth};
ghost use Rattle.pks_terms.specs.Accepting.{are_allowed, accepts};
ghost use Rattle.pks_terms.specs.Explained;
ghost use Rattle.pks_terms.specs.Explained.{IsExplained};
ghost use Rattle.pks_laws_explain.specs.Shown.{IsShown, IsShownInOrder, AreShown, IsHistoryShown, Leads};

// ---- within a moment

/// A literal that is shown at the last moment has an accepted proof.
pub fn what_is_shown_has_a_proof()
    ensures { (p : Problem) (path : Path) (l : Literal) → IsShown p path (final_moment path) (FactLit l) → (proof : Proof) × (accepts p path proof l ≡ true) }
{}

/// What is known at the start of a valid problem is shown at the first moment.
pub fn start_is_shown()
    ensures { (p : Problem) (path : Path) → IsValid p → AreShown p path 0 (initial p) }
{}

/// What holds in databases is shown where what stands in them is.
pub fn what_holds_is_shown()
    ensures { (p : Problem) (path : Path) (m : ℕ) (d : Five) (l : Literal) → m ≤ final_moment path → AreShown p path m d → IsInOrder l → holds p.signature d l ≡ true → IsShown p path m (FactLit l) }
{}

/// Rounds of closing keep what stands in databases shown.
pub fn closing_is_shown()
    ensures { (p : Problem) (path : Path) (m n : ℕ) (d : Five) → m ≤ final_moment path → AreShown p path m d → AreShown p path m (rounds p.signature n d) }
{}

/// So do normal forms, of groups and regions.
pub fn normal_forms_are_shown()
    ensures { (p : Problem) (path : Path) (m : ℕ) (d : Five) → m ≤ final_moment path → AreShown p path m d → AreShown p path m (tidied d) }
{}

/// What is assumed on a side is shown where the path takes the side of a choice there.
pub fn sides_are_shown()
    ensures { (p : Problem) (path : Path) (m n : ℕ) (d : Five) (c : Choice) (side : Side) → m ≤ final_moment path → nth (takings 0 path) n ≡ Some (record { moment = m; choice = c; side = side }) → AreInOrder d → IsMember d c → AreShown p path m d → AreShown p path m (assumed p.signature d c side) }
{}

// ---- between two moments

/// What an action's step gives the next moment is shown there.
pub fn next_moment_is_shown()
    ensures { (p : Problem) (path : Path) (m : ℕ) (i : Instance) (d : Five) → m + 1 ≤ final_moment path → slice_get (deeds path) m ≡ Some i → AreShown p path m d → Each (IsShownInOrder p path (m + 1)) (forward p i d) }
{}

/// What it gives the moment before is shown there.
pub fn moment_before_is_shown()
    ensures { (p : Problem) (path : Path) (m : ℕ) (i : Instance) (d after : Five) → m + 1 ≤ final_moment path → slice_get (deeds path) m ≡ Some i → AreShown p path m d → AreShown p path (m + 1) after → Each (IsShownInOrder p path m) (backward p i d after) }
{}

/// A region that the action leaves, grown by the atoms that it may set, is shown after it.
pub fn regions_left_are_shown()
    ensures { (p : Problem) (path : Path) (m : ℕ) (i : Instance) (d : Five) (r e : Entry) → m + 1 ≤ final_moment path → slice_get (deeds path) m ≡ Some i → AreShown p path m d → IsIn r d.lcw → kept_entry p.signature d (effects_of p i) r ≡ Some e → IsShown p path (m + 1) (FactLcw e) }
{}

/// So is a region that a justified add gives, cleared by the action.
pub fn cleared_regions_are_shown()
    ensures { (p : Problem) (path : Path) (m : ℕ) (i : Instance) (d : Five) (a : Add) (e : Entry) → m + 1 ≤ final_moment path → slice_get (deeds path) m ≡ Some i → AreShown p path m d → is_some (case_of (schema_of p i.action) a) ≡ true → IsIn e (regions_added p.signature d (effects_of p i) i.arguments a.item) → IsShown p path (m + 1) (FactLcw e) }
{}

/// All that an action which is a choice, each of its adds justified, makes of databases is shown after it.
pub fn acting_is_shown()
    ensures { (p : Problem) (path : Path) (m : ℕ) (i : Instance) (d : Five) → m + 1 ≤ final_moment path → slice_get (deeds path) m ≡ Some i → AreShown p path m d → IsIn i (instances p d) → AreJustified (schema_of p i.action) → AreShown p path (m + 1) (progressed p.signature d (schema_of p i.action) i.arguments) }
{}

// ---- along a path

/// Rounds of settling keep what stands in the databases of a history along the path shown at all moments.
pub fn settling_is_shown()
    ensures { (p : Problem) (path : Path) (n : ℕ) (h : History) → IsHistoryShown p path h → IsHistoryShown p path (settle_rounds p n h) }
{}

/// All that stands in the databases of a history is shown at its moment, where a path leads to the history from the closed start of a valid problem whose adds are justified.
pub fn what_is_derived_is_shown()
    ensures { (p : Problem) (path : Path) (d : Five) (h : History) → IsValid p → AllJustified p → Closes p.signature (initial p) (Next d) → Leads p (record { start = d; steps = [] }) path h → IsHistoryShown p path h }
{}

/// Lines that are allowed along a path are allowed along every longer one.
pub fn lines_stay_allowed_along_longer_paths()
    ensures { (p : Problem) (path more : Path) (proof : Proof) → are_allowed p path proof ≡ true → are_allowed p (path ++ more) proof ≡ true }
{}

/// Each literal that holds at the end of a path, which leads there from the closed start of a valid problem whose adds are justified, has an accepted proof.
pub fn what_is_derived_has_a_proof()
    ensures { (p : Problem) (path : Path) (d : Five) (h : History) (l : Literal) → IsValid p → AllJustified p → Closes p.signature (initial p) (Next d) → Leads p (record { start = d; steps = [] }) path h → IsInOrder l → holds p.signature (last_moment h) l ≡ true → (proof : Proof) × (accepts p path proof l ≡ true) }
{}

/// Each plan of a valid problem whose adds are justified has an explanation: an accepted proof of each literal that it rests on, in their order.
pub fn each_plan_has_an_explanation()
    ensures { (p : Problem) (t : Tree) → IsValid p → AllJustified p → IsPlan p t → (entries : List Explained.Entry) × IsExplained p t entries }
{}
