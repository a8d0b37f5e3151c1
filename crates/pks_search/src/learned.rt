//! What a search has learned of its problem.
ghost use Rattle.std.specs.Prelude.{IfOk, IfSome};
ghost use Rattle.pks_terms.specs.ValidProblems.{IsValidProblem};
ghost use Rattle.pks_terms.specs.Views.{problem_of};
ghost use Rattle.pks_search_distance.specs.Remembered.{AreItsGroundActions};
ghost use Rattle.pks_search.specs.Shelves.{IsLearned};

use pks_search_distance::GroundActions;
use pks_search_nogoods::failures::Failures;
use pks_search_nogoods::finds::Finds;
use pks_terms::problem::Problem;
use std::alloc::{AllocError, Global};

/// The ground actions by which bounds are counted, or none, and the failures and the best trees that were met.
#[derive(Drop)]
pub(crate) struct Learned {
    pub(crate) ground_actions: Option<GroundActions>,
    pub(crate) failures: Failures,
    pub(crate) finds: Finds,
}

impl Learned {
    /// Nothing but these ground actions. The error is want of memory.
    pub(crate) fn with(
        alloc: Global,
        p: &Problem<'_>,
        ground_actions: Option<GroundActions>,
    ) -> Result<Learned, AllocError>
        requires valid { IsValidProblem p.now }
        requires right { IfSome ground_actions (AreItsGroundActions (problem_of p.now)) }
        ensures { IfOk result (IsLearned (problem_of p.now)) }
    {
        let failures = Failures::new(alloc, p)?;
        let finds = Finds::new(alloc)?;
        Ok(Learned {
            ground_actions,
            failures,
            finds,
        })
    }

    /// Nothing but the ground actions, where they aren't too many. The error is want of memory.
    pub(crate) fn new(alloc: Global, p: &Problem<'_>) -> Result<Learned, AllocError>
        requires { IsValidProblem p.now }
        ensures { IfOk result (IsLearned (problem_of p.now)) }
    {
        let ground_actions = GroundActions::of(alloc, p)?;
        let learned = Learned::with(alloc, p, ground_actions)?;
        Ok(learned)
    }
}
