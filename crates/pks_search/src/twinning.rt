//! Twins along a search: two worlds that may both be the present one, and come from two that an aim of the start tells apart.
ghost use Rattle.std.specs.Prelude.{IsTrue, IfOk};
ghost use Rattle.pks_terms.specs.ValidProblems.{IsValidProblem};
ghost use Rattle.pks_terms.specs.Views.{instance_of, problem_of};
ghost use Rattle.pks_terms.specs.ChoiceViews.{choice_of, side_of};
ghost use Rattle.pks_search.specs.Near.{ComeFrom};
ghost use Rattle.pks_search.specs.Twins.{AreKept, SomeMet};
ghost use Rattle.pks_search_witness.specs.Apart.{AreAfter};

use crate::nearing::is_so;
use pks_search_witness::Twins;
use pks_terms::choices::{Choice, Side};
use pks_terms::problem::Problem;
use pks_terms::schema::Instance;
use std::alloc::{AllocError, Global};

/// What the twins become by the action, as far as the same is seen then in both worlds.
pub(crate) fn twins_after(
    alloc: Global,
    p: &Problem<'_>,
    twins: &[Twins],
    step: &Instance,
) -> Result<Vec<Twins>, AllocError>
    requires { IsValidProblem p.now }
    ensures { IfOk result (λ ys. ComeFrom (AreAfter (problem_of p.now) (instance_of step.now)) twins.now ys.items) }
{
    let mut next = Vec::new(alloc);
    for x in twins {
        if let Some(y) = x.after(alloc, p, step)? {
            next.push(y)?;
        }
    }
    Ok(next)
}

/// Whether some twins are one world.
pub(crate) fn some_met(twins: &[Twins]) -> bool
    ensures { IsTrue result → SomeMet twins.now }
{
    for x in twins {
        if x.have_met() {
            return true;
        }
    }
    false
}

/// The twins that are on the side: both, since they agree on what a choice asks.
pub(crate) fn twins_on(
    alloc: Global,
    twins: &[Twins],
    c: &Choice,
    side: Side,
) -> Result<Vec<Twins>, AllocError>
    ensures { IfOk result (λ ys. ComeFrom (AreKept (choice_of c.now) (side_of side)) twins.now ys.items) }
{
    let mut on = Vec::new(alloc);
    for x in twins {
        if is_so(x.one(), c, side) {
            on.push(x.share()?)?;
        }
    }
    Ok(on)
}
