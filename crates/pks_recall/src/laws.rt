//! The laws of what is recalled, each the clause of a function that does nothing.
ghost use Rattle.std.specs.Prelude.{◌≡◌, List, length};
ghost use Rattle.pks_terms.specs.Problems.{Problem};
ghost use Rattle.pks_terms.specs.Recalled.{IsRecalled, IsTruePast, leaf_count};
ghost use Rattle.pks_terms.specs.Settling.{State};
ghost use Rattle.pks_terms.specs.Trees.{Tree, IsPlan};
ghost use Rattle.pks_terms.specs.Typed.{AllJustified, IsTyped};

/// A tree has one list of states at its leaves.
pub fn there_is_one_list_of_leaves()
    ensures { (p : Problem) (t : Tree) (xs ys : List State) → IsRecalled p t xs → IsRecalled p t ys → xs ≡ ys }
{}

/// There is one state for each leaf.
pub fn each_leaf_has_a_state()
    ensures { (p : Problem) (t : Tree) (xs : List State) → IsRecalled p t xs → length xs ≡ leaf_count t }
{}

/// A derived tree has states at its leaves.
pub fn derived_trees_have_leaves()
    ensures { (p : Problem) (t : Tree) → IsPlan p t → (xs : List State) × IsRecalled p t xs }
{}

/// In every compatible world, what is recalled at the leaf that the run comes to was so at its moments.
pub fn what_is_recalled_was_so()
    ensures { (p : Problem) (t : Tree) (xs : List State) → AllJustified p → IsTyped p → IsPlan p t → IsRecalled p t xs → IsTruePast p t xs }
{}
