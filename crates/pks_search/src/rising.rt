//! The search by rising depth.

ghost use Rattle.std.specs.Prelude.{◌≡◌, ◌≤◌, option_map, IfOk};
ghost use Rattle.pks_terms.specs.Settling.{At};
ghost use Rattle.pks_terms.specs.Trees.{IsBestAt};
ghost use Rattle.pks_terms.specs.Views.{problem_of};
ghost use Rattle.pks_plan.specs.TreeViews.{tree_of};
ghost use Rattle.pks_search.specs.Limits.{IsLimitAt};
ghost use Rattle.pks_search.specs.Spots.{MayGoOn, AreSo};

use crate::spots::{Notes, Spot};
use crate::within::best_within;
use pks_plan::{Tree, cost};
use std::alloc::AllocError;

/// The best tree that is derived at the history and no deeper than `full`, or `None` where there is none. The search goes
/// from depth `n` on, and stops where deeper trees would cost more than the tree that was found. It asks that the best tree
/// costs at most `limit`, unless one no deeper than `n` does. The error is want of memory.
pub(crate) fn best_rising<'s>(
    spot: &Spot<'_, 's>,
    n: u32,
    full: u32,
    limit: u32,
    notes: &mut Notes<'s>,
) -> Result<Option<Tree>, AllocError>
    requires spot { MayGoOn spot.now full }
    requires within { n ≤ full }
    requires limit { IsLimitAt (problem_of spot.now.problem.now) (At spot.now.history.now) n full limit }
    requires notes { AreSo (problem_of spot.now.problem.now) notes.now }
    ensures { IfOk result (λ o. IsBestAt (problem_of spot.now.problem.now) (At spot.now.history.now) full (option_map tree_of o)) }
{
    let found = best_within(spot, n, limit, notes)?;
    if n == full {
        return Ok(found);
    }
    let Some(t) = found else {
        return best_rising(spot, n + 1, full, limit, notes);
    };
    let own = cost(spot.problem, &t);
    if own <= n {
        return Ok(Some(t));
    }
    best_rising(spot, n + 1, full, own, notes)
}
