//! What each leaf of a plan knows of every moment. `docs/RULES.md` says what histories are, `docs/FORMAT.md` has the text.
ghost use Rattle.std.specs.Prelude.{◌≡◌, ◌≤◌, [], IfOk};
ghost use Rattle.pks_terms.specs.Answers.{unjustified};
ghost use Rattle.pks_terms.specs.Trees.{IsPlan, depth};
ghost use Rattle.pks_terms.specs.ValidProblems.{IsValidProblem};
ghost use Rattle.pks_terms.specs.Views.{problem_of, names_of};
ghost use Rattle.pks_plan.specs.TreeViews.{tree_of};
ghost use Rattle.pks_recall.specs.Walking.{Recalls};

use crate::leaves::add_leaves;
use crate::print::print_leaves;
use pks_history_replay::start;
use pks_plan::Tree;
use pks_terms::problem::Problem;
use std::alloc::{AllocError, Global};

/// The text of what each leaf of the tree knows, from left to right and counted from 1: each moment of its history with the
/// literals that are known of it, or `impossible` where it has none (`docs/FORMAT.md`, "Printed texts"). Each literal was true at its
/// moment in every compatible world whose run comes to that leaf. It asks for a valid problem whose adds are all justified,
/// and for a derived tree of depth at most 16; where the initial databases clash, the only such tree is a leaf, which is
/// impossible. The histories are made anew from the tree. The error is want of memory.
pub fn recall(alloc: Global, p: &Problem<'_>, t: &Tree) -> Result<Vec<u8>, AllocError>
    requires valid { IsValidProblem p.now }
    requires justified { unjustified (problem_of p.now) ≡ [] }
    requires derived { IsPlan (problem_of p.now) (tree_of t.now) }
    requires depth { depth (tree_of t.now) ≤ 16 }
    ensures { IfOk result (λ text. Recalls (problem_of p.now) (names_of p.now) (tree_of t.now) text.items) }
{
    let x = start(alloc, p)?;
    let mut leaves = Vec::new(alloc);
    add_leaves(alloc, p, x, t, &mut leaves)?;
    let text = print_leaves(alloc, p, leaves.as_slice())?;
    Ok(text)
}
