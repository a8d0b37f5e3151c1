//! The best plan of a problem. `docs/RULES.md` has the rules on trees.
ghost use Rattle.std.specs.Prelude.{◌≡◌, ◌≤◌, [], IfOk, IfSome, option_map};
ghost use Rattle.pks_terms.specs.Worlds.{World};
ghost use Rattle.pks_terms.specs.Syntax.{Literal};
ghost use Rattle.pks_terms.specs.Closure.{Next, Clash, Closes};
ghost use Rattle.pks_terms.specs.Problems.{initial, IsCompatible};
ghost use Rattle.pks_terms.specs.Answers.{unjustified};
ghost use Rattle.pks_terms.specs.Trees.{IsBest};
ghost use Rattle.pks_terms.specs.Knowledge.{Good};
ghost use Rattle.pks_terms.specs.ValidProblems.{IsValidProblem};
ghost use Rattle.pks_terms.specs.Views.{problem_of};
ghost use Rattle.pks_query_lookup.specs.Fives.{five_of};
ghost use Rattle.pks_plan.specs.TreeViews.{tree_of};
ghost use Rattle.pks_terms.specs.Remembering.{RemembersPast};

use crate::fewer::{some_is_met, unmet_aims, with_goal};
use crate::learned::Learned;
use crate::nearing::Start;
use crate::rising::best_rising;
use crate::spots::{Notes, Spot};
use pks_history::histories::History;
use pks_plan::Tree;
use pks_query::databases::Db;
use pks_query_closing::closing::CloseEnd;
use pks_search_witness::twins_of;
use pks_terms::limits::GREATEST_COST;
use pks_terms::problem::Problem;
use std::alloc::{AllocError, Global};

/// The best derived tree of at most this depth, or `None` where there is none (`docs/RULES.md`, "Trees, and which is best"). In every
/// compatible world its run is good: it knows what it needs, and ends where the goal is known;
/// and what its histories know of earlier moments was so then. It asks for a valid problem
/// whose adds are all justified and whose initial databases don't clash, and for a depth of at most 16. The error is want
/// of memory.
pub fn best(alloc: Global, p: &Problem<'_>, depth: u8) -> Result<Option<Tree>, AllocError>
    requires valid { IsValidProblem p.now }
    requires depth { depth ≤ 16 }
    requires justified { unjustified (problem_of p.now) ≡ [] }
    requires begins { (l : Literal) → Closes (problem_of p.now).signature (initial (problem_of p.now)) (Clash l) → ⊥ }
    ensures best { IfOk result (λ o. IsBest (problem_of p.now) depth (option_map tree_of o)) }
    ensures good { IfOk result (λ o. IfSome o (λ t. (w : World) → IsCompatible (problem_of p.now) w → Good (problem_of p.now) (tree_of t) w)) }
    ensures past { IfOk result (λ o. IfSome o (λ t. RemembersPast (problem_of p.now) (tree_of t))) }
{
    match Db::first(alloc, p) {
        Ok(start) => best_from(alloc, p, start, depth),
        Err(CloseEnd::Memory) => Err(AllocError),
        Err(CloseEnd::Clash(_)) => unreachable!(),
    }
}

/// The same from the initial databases, closed: so a caller that has closed them needn't do it again. It asks for a valid
/// problem whose adds are all justified, for a depth of at most 16, and that its initial databases become these by
/// closing. The error is want of memory.
pub fn best_from(
    alloc: Global,
    p: &Problem<'_>,
    start: Db,
    depth: u8,
) -> Result<Option<Tree>, AllocError>
    requires valid { IsValidProblem p.now }
    requires depth { depth ≤ 16 }
    requires justified { unjustified (problem_of p.now) ≡ [] }
    requires start { Closes (problem_of p.now).signature (initial (problem_of p.now)) (Next (five_of start)) }
    ensures best { IfOk result (λ o. IsBest (problem_of p.now) depth (option_map tree_of o)) }
    ensures good { IfOk result (λ o. IfSome o (λ t. (w : World) → IsCompatible (problem_of p.now) w → Good (problem_of p.now) (tree_of t) w)) }
    ensures past { IfOk result (λ o. IfSome o (λ t. RemembersPast (problem_of p.now) (tree_of t))) }
{
    best_of_unmet(alloc, p, start, depth)
}

/// The same, searched without the aims that the start meets for good.
fn best_of_unmet(
    alloc: Global,
    p: &Problem<'_>,
    start: Db,
    depth: u8,
) -> Result<Option<Tree>, AllocError>
    requires valid { IsValidProblem p.now }
    requires depth { depth ≤ 16 }
    requires justified { unjustified (problem_of p.now) ≡ [] }
    requires start { Closes (problem_of p.now).signature (initial (problem_of p.now)) (Next (five_of start)) }
    ensures { IfOk result (λ o. IsBest (problem_of p.now) depth (option_map tree_of o)) }
{
    let h = History::start(alloc, start)?;
    best_at_start(alloc, p, &h, depth)
}

/// The same from the history of the start alone.
fn best_at_start(
    alloc: Global,
    p: &Problem<'_>,
    h: &History,
    depth: u8,
) -> Result<Option<Tree>, AllocError>
    requires valid { IsValidProblem p.now }
    requires depth { depth ≤ 16 }
    requires justified { unjustified (problem_of p.now) ≡ [] }
    requires start { Closes (problem_of p.now).signature (initial (problem_of p.now)) (Next h.now.start) }
    requires alone { h.now.steps ≡ [] }
    ensures { IfOk result (λ o. IsBest (problem_of p.now) depth (option_map tree_of o)) }
{
    if !some_is_met(&p.signature, h, p.goal.as_slice()) {
        return best_of_all(alloc, p, h, depth);
    }
    let goal = unmet_aims(alloc, &p.signature, h, p.goal.as_slice())?;
    let fewer = with_goal(alloc, p, goal)?;
    best_of_all(alloc, &fewer, h, depth)
}

/// The same from the history of the start alone, with each aim of the problem.
fn best_of_all(
    alloc: Global,
    p: &Problem<'_>,
    h: &History,
    depth: u8,
) -> Result<Option<Tree>, AllocError>
    requires valid { IsValidProblem p.now }
    requires depth { depth ≤ 16 }
    requires justified { unjustified (problem_of p.now) ≡ [] }
    requires start { Closes (problem_of p.now).signature (initial (problem_of p.now)) (Next h.now.start) }
    requires alone { h.now.steps ≡ [] }
    ensures { IfOk result (λ o. IsBest (problem_of p.now) depth (option_map tree_of o)) }
{
    let first = Start::of(alloc, p)?;
    let Start {
        near,
        ground_actions,
    } = first;
    let own = Learned::with(alloc, p, ground_actions)?;
    let twins = twins_of(alloc, p)?;
    let shelf = Vec::new(alloc);
    let mut notes = Notes { own, shelf };
    let spot = Spot {
        alloc,
        problem: p,
        history: h,
        unread: 0,
        near: near.as_slice(),
        twins: twins.as_slice(),
    };
    best_rising(&spot, 0, u32::from(depth), 16 * GREATEST_COST, &mut notes)
}
