//! The laws of printed plans, each the clause of a function that does nothing.

ghost use Rattle.std.specs.Prelude.{◌≡◌};
ghost use Rattle.pks_plan.specs.Naming.{AreNamesOf};
ghost use Rattle.pks_terms.specs.Handed.{IsTreeOf};
ghost use Rattle.pks_terms.specs.Printed.{Names, tree_text};
ghost use Rattle.pks_terms.specs.Problems.{Problem};
ghost use Rattle.pks_terms.specs.Trees.{Tree};
ghost use Rattle.pks_terms.specs.ValidProblems.{IsValidProblem};
ghost use Rattle.pks_terms.specs.Views.{names_of, problem_of};
ghost use Rattle.pks_terms.specs.declared.problem.Problem as problem;

/// Two trees of one problem with the same text are the same. A tree of a problem is ground, and all that it
/// names is declared. `docs/FORMAT.md` has the text of trees.
pub fn trees_of_same_text_are_same()
    ensures { (p : Problem) (names : Names) (t u : Tree) → AreNamesOf p names → IsTreeOf p t → IsTreeOf p u →
        tree_text names t ≡ tree_text names u → t ≡ u }
{}

/// The names with which a valid problem is printed are as the law on texts asks. `docs/RULES.md` has the names
/// of valid problems.
pub fn valid_problems_have_names()
    ensures { (p : problem.Problem) → IsValidProblem p → AreNamesOf (problem_of p) (names_of p) }
{}
