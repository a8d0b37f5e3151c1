//! Where a plan begins, and where each step leads. `docs/RULES.md` says what histories are.
ghost use Rattle.std.specs.Prelude.{◌≡◌, ◌<◌, length, IfOk};
ghost use Rattle.pks_terms.specs.Sets.{IsIn};
ghost use Rattle.pks_terms.specs.Branching.{instances, IsMember};
ghost use Rattle.pks_terms.specs.Moments.{AreMomentsOf};
ghost use Rattle.pks_terms.specs.Settling.{At, last_moment};
ghost use Rattle.pks_terms.specs.Trees.{Acts, Takes};
ghost use Rattle.pks_terms.specs.Typed.{AllJustified};
ghost use Rattle.pks_terms.specs.ValidProblems.{IsValidProblem};
ghost use Rattle.pks_terms.specs.Views.{instance_of, problem_of};
ghost use Rattle.pks_laws.specs.OfSignature.{IsSideOf};
ghost use Rattle.pks_terms.specs.ChoiceViews.{choice_of, side_of};
ghost use Rattle.pks_history_replay.specs.Walking.{state_of, IsSomewhere, IsStart};

use pks_branch::assuming::assume;
use pks_history::histories::History;
use pks_postdict::settling::{Settled, settle};
use pks_progress::progressing::progress;
use pks_query::databases::{Db, Step};
use pks_query_closing::closing::CloseEnd;
use pks_terms::choices::{Choice, Side};
use pks_terms::problem::Problem;
use pks_terms::schema::Instance;
use std::alloc::{AllocError, Global};

/// Where a plan stands.
#[derive(Drop)]
pub enum State {
    /// At a history.
    At(History),
    /// At a clash.
    Stopped,
}

/// Where a plan begins: at the history of one moment, or at the clash of the initial databases.
pub fn start(alloc: Global, p: &Problem<'_>) -> Result<State, AllocError>
    requires { IsValidProblem p.now }
    ensures { IfOk result (λ x. IsStart (problem_of p.now) (state_of x)) }
{
    match Db::first(alloc, p) {
        Ok(d) => Ok(State::At(History::start(alloc, d)?)),
        Err(CloseEnd::Clash(_)) => Ok(State::Stopped),
        Err(CloseEnd::Memory) => Err(AllocError),
    }
}

/// The history at which it stands.
pub fn history(x: &State) -> &History
    requires { IsSomewhere (state_of x.now) }
    ensures { state_of x.now ≡ At result.now }
{
    match x {
        State::At(h) => h,
        State::Stopped => unreachable!(),
    }
}

/// Where the action leads.
pub fn after(
    alloc: Global,
    p: &Problem<'_>,
    h: &History,
    step: &Instance,
) -> Result<State, AllocError>
    requires valid { IsValidProblem p.now }
    requires justified { AllJustified (problem_of p.now) }
    requires moments { AreMomentsOf (problem_of p.now) h.now }
    requires short { length h.now.steps < 16 }
    requires chosen { IsIn (instance_of step.now) (instances (problem_of p.now) (last_moment h.now)) }
    ensures { IfOk result (λ y. Acts (problem_of p.now) h.now (instance_of step.now) (state_of y)) }
{
    match progress(alloc, p, h.last(), step)? {
        Step::Clash(_) => Ok(State::Stopped),
        Step::Next(d) => Ok(State::At(h.push(alloc, *step, d)?)),
    }
}

/// Where the side leads: it is assumed, and the history settled.
pub fn taking(
    alloc: Global,
    p: &Problem<'_>,
    h: &History,
    c: &Choice,
    side: Side,
) -> Result<State, AllocError>
    requires valid { IsValidProblem p.now }
    requires moments { AreMomentsOf (problem_of p.now) h.now }
    requires member { IsMember (last_moment h.now) (choice_of c.now) }
    requires side { IsSideOf (problem_of p.now).signature (choice_of c.now) (side_of side) }
    ensures { IfOk result (λ y. Takes (problem_of p.now) h.now (choice_of c.now) (side_of side) (state_of y)) }
{
    match assume(alloc, p, h.last(), c, side)? {
        Step::Clash(_) => Ok(State::Stopped),
        Step::Next(d) => match settle(alloc, p, h, d)? {
            Settled::Clash => Ok(State::Stopped),
            Settled::Whole(settled) => Ok(State::At(settled)),
        },
    }
}
