//! The laws, each the clause of a function that does nothing. What the databases of a problem of the first version are stands in `IsOfFirst`; the rules of that version are in `docs/RULES.md`.

ghost use Rattle.std.specs.Prelude.{◌≡◌, ◌↔◌, ℕ, List, [], Option};
ghost use Rattle.pks_terms.specs.Syntax.{Term, Literal};
ghost use Rattle.pks_terms.specs.Signatures as terms;
ghost use Rattle.pks_terms.specs.Signatures.{Signature};
ghost use Rattle.pks_terms.specs.Databases.{Five, differ, holds};
ghost use Rattle.pks_terms.specs.Closure.{Outcome, Next, Closes};
ghost use Rattle.pks_terms.specs.Actions.{Instance};
ghost use Rattle.pks_terms.specs.Progress.{Progress};
ghost use Rattle.pks_terms.specs.Problems.{Problem, schema_of, initial};
ghost use Rattle.pks_terms.specs.Branching.{Choice, choices, Side, IsMember, Assumes};
ghost use Rattle.pks_terms.specs.Settling.{History, State, At, Settles};
ghost use Rattle.pks_terms.specs.Aims.{met};
ghost use Rattle.pks_terms.specs.Trees.{Tree, Derives, IsPlan, IsBest};
ghost use Rattle.pks_terms.specs.Valid.{IsValid};
ghost use Rattle.pks_terms.specs.Printed.{Text, Refusal};
ghost use Rattle.pks_terms.specs.Jobs.{Job};
ghost use Rattle.pks_terms.specs.Answers.{File, RefusesFile, IsDone, IsTalkRefused, IsUnplanned};
ghost use Rattle.pks_terms.specs.Handed.{IsStepOf};
ghost use Rattle.pks_terms.specs.Versions.{IsFirstVersion};
ghost use Rattle.pks_laws.specs.OfSignature.{IsSideOf};
ghost use Rattle.pks_laws_version1.specs.LookingUp as lookup;
ghost use Rattle.pks_laws_version1.specs.Closing as closing;
ghost use Rattle.pks_laws_version1.specs.Choosing as choosing;
ghost use Rattle.pks_laws_version1.specs.Settling as settling;
ghost use Rattle.pks_laws_version1.specs.Trees as trees;
ghost use Rattle.pks_laws_version1.specs.Answering as answering;
ghost use Rattle.pks_laws_version1.specs.OfFirst.{IsFirstLiteral, IsOfFirst, IsOfFirstAlong};

// ---- the rules

/// In a problem of the first version the objects of a type are those whose type it is.
pub fn objects_are_of_their_very_type()
    ensures { (p : Problem) (wanted : ℕ) → IsFirstVersion p → terms.objects_of p.signature wanted ≡ closing.objects_of p.signature wanted }
{}

/// Over a signature without functions a literal holds where it does by the rules of the first version, and two terms are different where they are by those.
pub fn without_functions_nothing_is_foreign()
    ensures literals { (s : Signature) (d : Five) (l : Literal) → holds (lookup.without_functions s) d l ≡ lookup.holds d l }
    ensures terms { (s : Signature) (kf : List Literal) (t u : Term) → differ (lookup.without_functions s) kf t u ≡ lookup.differ kf t u }
{}

/// In databases of the first version a literal holds where it does by the rules of that version.
pub fn looking_up_is_of_the_first_version()
    ensures { (p : Problem) (d : Five) (l : Literal) → IsFirstVersion p → IsOfFirst p.signature d → IsFirstLiteral p.signature l → holds p.signature d l ≡ lookup.holds d l }
{}

/// Closing such databases comes to what it comes to by the rules of the first version.
pub fn closing_is_of_the_first_version()
    ensures { (p : Problem) (d : Five) (o : Outcome) → IsFirstVersion p → IsOfFirst p.signature d → Closes p.signature d o ↔ closing.Closes p.signature d o }
{}

/// So does an action.
pub fn actions_are_of_the_first_version()
    ensures { (p : Problem) (d : Five) (i : Instance) (o : Outcome) → IsValid p → IsFirstVersion p → IsOfFirst p.signature d → IsStepOf p i → Progress p.signature d (schema_of p i.action) i o ↔ choosing.Progress p.signature d (schema_of p i.action) i o }
{}

/// The choices at such databases are those by the rules of the first version.
pub fn choices_are_of_the_first_version()
    ensures { (p : Problem) (d : Five) → IsValid p → IsFirstVersion p → IsOfFirst p.signature d → choices p d ≡ choosing.choices p d }
{}

/// Assuming a side comes to what it comes to by these.
pub fn sides_are_of_the_first_version()
    ensures { (p : Problem) (d : Five) (c : Choice) (side : Side) (o : Outcome) → IsFirstVersion p → IsOfFirst p.signature d → IsMember d c → IsSideOf p.signature c side → Assumes p.signature d c side o ↔ choosing.Assumes p.signature d c side o }
{}

/// So does settling a history of such databases.
pub fn settling_is_of_the_first_version()
    ensures { (p : Problem) (h : History) (x : State) → IsValid p → IsFirstVersion p → IsOfFirstAlong p h → Settles p h x ↔ settling.Settles p h x }
{}

/// The goal is met at such a history where it is by these.
pub fn goals_are_of_the_first_version()
    ensures { (p : Problem) (h : History) → IsValid p → IsFirstVersion p → IsOfFirstAlong p h → met p h ≡ trees.met p h }
{}

/// A tree is derived at such a history where it is by these.
pub fn derived_trees_are_of_the_first_version()
    ensures { (p : Problem) (h : History) (t : Tree) → IsValid p → IsFirstVersion p → IsOfFirstAlong p h → Derives p (At h) t ↔ trees.Derives p (At h) t }
{}

/// The plans of a valid problem of the first version are those by these.
pub fn plans_are_of_the_first_version()
    ensures { (p : Problem) (t : Tree) → IsValid p → IsFirstVersion p → IsPlan p t ↔ trees.IsPlan p t }
{}

/// So is the best plan to a depth, and that there is none.
pub fn best_plans_are_of_the_first_version()
    ensures { (p : Problem) (n : ℕ) (best : Option Tree) → IsValid p → IsFirstVersion p → IsBest p n best ↔ trees.IsBest p n best }
{}

/// What a job answers about a file that states such a problem is what it answers by these: the code that it is refused with, what is printed where it is done, where a dialogue is refused, and where there is no plan.
pub fn answers_are_of_the_first_version()
    ensures refused { (f : File) (j : Job) (r : Refusal) → IsValid f.problem → IsFirstVersion f.problem → RefusesFile j f r ↔ answering.RefusesFile j f r }
    ensures done { (f : File) (j : Job) (input text : Text) → IsValid f.problem → IsFirstVersion f.problem → IsDone j input f text ↔ answering.IsDone j input f text }
    ensures broken_off { (f : File) (j : Job) (input text : Text) → IsValid f.problem → IsFirstVersion f.problem → IsTalkRefused j input f text ↔ answering.IsTalkRefused j input f text }
    ensures unplanned { (f : File) (j : Job) (text : Text) → IsValid f.problem → IsFirstVersion f.problem → IsUnplanned j f text ↔ answering.IsUnplanned j f text }
{}

// ---- what all databases of a problem of the first version are

/// So are those at the start.
pub fn start_is_of_the_first_version()
    ensures { (p : Problem) → IsValid p → IsFirstVersion p → IsOfFirst p.signature (initial p) }
{}

/// And what closing makes of such databases.
pub fn closed_stay_of_the_first_version()
    ensures { (p : Problem) (d e : Five) → IsValid p → IsFirstVersion p → IsOfFirst p.signature d → Closes p.signature d (Next e) → IsOfFirst p.signature e }
{}

/// And what an action makes of them.
pub fn actions_stay_of_the_first_version()
    ensures { (p : Problem) (d e : Five) (i : Instance) → IsValid p → IsFirstVersion p → IsOfFirst p.signature d → IsStepOf p i → Progress p.signature d (schema_of p i.action) i (Next e) → IsOfFirst p.signature e }
{}

/// And what assuming a side makes of them.
pub fn sides_stay_of_the_first_version()
    ensures { (p : Problem) (d e : Five) (c : Choice) (side : Side) → IsValid p → IsFirstVersion p → IsOfFirst p.signature d → IsMember d c → IsSideOf p.signature c side → Assumes p.signature d c side (Next e) → IsOfFirst p.signature e }
{}

/// And each moment of what settling makes of a history of them.
pub fn settled_stay_of_the_first_version()
    ensures { (p : Problem) (h g : History) → IsValid p → IsFirstVersion p → IsOfFirstAlong p h → Settles p h (At g) → IsOfFirstAlong p g }
{}
