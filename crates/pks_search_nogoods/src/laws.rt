//! The laws of finds, each the clause of a function that does nothing.

ghost use Rattle.std.specs.Prelude.{ℕ, ◌≤◌, ◌<◌, min, Some, None};
ghost use Rattle.pks_terms.specs.Problems.{Problem};
ghost use Rattle.pks_terms.specs.Settling.{History};
ghost use Rattle.pks_terms.specs.Trees.{Tree, depth, cost};
ghost use Rattle.pks_terms.specs.Valid.{IsValid};
ghost use Rattle.pks_search_nogoods.specs.Finds.{IsAnswer, IsFound};

/// A tree that was found within a depth and a limit on cost is the best within another depth and limit, where it is no deeper
/// than that depth, costs at most that limit, and of the depth and its cost one is no greater than the depth of the search.
pub fn what_was_found_serves_other_depths()
    ensures { (p : Problem) (h : History) (t : Tree) (n most m limit : ℕ) → IsValid p → IsFound p h n most t
        → min m (cost p t) ≤ n → depth t ≤ m → cost p t ≤ limit → IsAnswer p h m limit (Some t) }
{}

/// Below its cost there is none, where of the depth and the limit one is no greater than the depth of the search.
pub fn what_was_found_rules_out_lower_limits()
    ensures { (p : Problem) (h : History) (t : Tree) (n most m limit : ℕ) → IsValid p → IsFound p h n most t
        → min m limit ≤ n → limit < cost p t → IsAnswer p h m limit None }
{}
