//! The witnesses along a search: worlds that may be the present one.
ghost use Rattle.std.specs.Prelude.{◌≡◌, [], ◌++◌, drop, None, IfOk, IfSome};
ghost use Rattle.pks_terms.specs.Sets.{Each};
ghost use Rattle.pks_terms.specs.Problems.{IsCompatible};
ghost use Rattle.pks_terms.specs.Knowledge.{grounded, after_action};
ghost use Rattle.pks_terms.specs.ValidProblems.{IsValidProblem};
ghost use Rattle.pks_terms.specs.Views.{instance_of, problem_of};
ghost use Rattle.pks_terms.specs.ChoiceViews.{choice_of, side_of};
ghost use Rattle.pks_world.specs.Contents.{world_of};
ghost use Rattle.pks_search_distance.specs.Remembered.{AreItsGroundActions};
ghost use Rattle.pks_search.specs.Near.{IsFirst, ComeFrom, Becomes, IsKept, is_far, is_tight, is_so};
ghost use Rattle.pks_search_witness.specs.Near.{world_in, IsCounted};

use pks_search_distance::GroundActions;
use pks_search_witness::{Witness, witnesses_of};
use pks_terms::choices::{Choice, Side};
use pks_terms::problem::Problem;
use pks_terms::schema::Instance;
use pks_world::World;
use std::alloc::{AllocError, Global};

/// The most that a bound is counted to at the start.
const MOST: u32 = 17;

/// What a search begins with: witnesses, or none, and the ground actions by which their bounds are counted.
#[derive(Drop)]
pub(crate) struct Start {
    pub(crate) near: Vec<Witness>,
    pub(crate) ground_actions: Option<GroundActions>,
}

impl Start {
    /// Without a witness.
    fn nowhere(alloc: Global) -> Start
        ensures near { result.near.items ≡ [] }
        ensures ground_actions { result.ground_actions ≡ None }
    {
        Start {
            near: Vec::new(alloc),
            ground_actions: None,
        }
    }

    /// With the witnesses that were found quickly, if some were, and the ground actions are not too many.
    pub(crate) fn of(alloc: Global, p: &Problem<'_>) -> Result<Start, AllocError>
        requires { IsValidProblem p.now }
        ensures near { IfOk result (λ x. Each (IsFirst (problem_of p.now)) x.near.items) }
        ensures ground_actions { IfOk result (λ x. IfSome x.ground_actions (AreItsGroundActions (problem_of p.now))) }
    {
        let worlds = witnesses_of(alloc, p)?;
        if worlds.is_empty() {
            return Ok(Start::nowhere(alloc));
        }
        let Some(mut ground_actions) = GroundActions::of(alloc, p)? else {
            return Ok(Start::nowhere(alloc));
        };
        let near = with_bounds(alloc, p, &mut ground_actions, worlds)?;
        Ok(Start {
            near,
            ground_actions: Some(ground_actions),
        })
    }
}

/// The worlds with their bounds.
fn with_bounds(
    alloc: Global,
    p: &Problem<'_>,
    ground_actions: &mut GroundActions,
    worlds: Vec<World>,
) -> Result<Vec<Witness>, AllocError>
    requires compatible { Each (λ w. IsCompatible (problem_of p.now) (world_of w)) worlds.items }
    requires ground_actions { AreItsGroundActions (problem_of p.now) ground_actions.old }
    ensures first { IfOk result (λ xs. Each (IsFirst (problem_of p.now)) xs.items) }
    ensures ground_actions { AreItsGroundActions (problem_of p.now) ground_actions.new }
{
    let mut near = Vec::new(alloc);
    for world in worlds {
        near.push(Witness::of(alloc, p, ground_actions, world, MOST)?)?;
    }
    Ok(near)
}

/// The witness after the action: the same, where the action leaves its world as it is, and else one whose bound is counted as
/// far as `room` and one more.
fn after(
    alloc: Global,
    p: &Problem<'_>,
    x: &Witness,
    ground_actions: &mut GroundActions,
    step: &Instance,
    room: u32,
) -> Result<Witness, AllocError>
    requires valid { IsValidProblem p.now }
    requires counted { IsCounted (problem_of p.now) x.now }
    requires ground_actions { AreItsGroundActions (problem_of p.now) ground_actions.old }
    ensures world { IfOk result (λ y. world_in y ≡ after_action (problem_of p.now) (world_in x.now) (grounded (world_in x.now) (instance_of step.now))) }
    ensures counted { IfOk result (IsCounted (problem_of p.now)) }
    ensures ground_actions { AreItsGroundActions (problem_of p.now) ground_actions.new }
{
    if x.stays(p, step) {
        let same = x.share()?;
        return Ok(same);
    }
    let next = x.after(alloc, p, ground_actions, step, room.saturating_add(1))?;
    Ok(next)
}

/// What the witnesses become by the action, up to the first that is more than `room` actions away from the goal.
fn all_after(
    alloc: Global,
    p: &Problem<'_>,
    near: &[Witness],
    ground_actions: &mut GroundActions,
    step: &Instance,
    room: u32,
) -> Result<Vec<Witness>, AllocError>
    requires valid { IsValidProblem p.now }
    requires counted { Each (IsCounted (problem_of p.now)) near.now }
    requires ground_actions { AreItsGroundActions (problem_of p.now) ground_actions.old }
    ensures becomes { IfOk result (λ ys. ComeFrom (Becomes (problem_of p.now) (instance_of step.now)) near.now ys.items) }
    ensures ground_actions { AreItsGroundActions (problem_of p.now) ground_actions.new }
{
    let mut next = Vec::new(alloc);
    for x in near {
        let y = after(alloc, p, x, ground_actions, step, room)?;
        let is_far = y.is_beyond(room);
        next.push(y)?;
        if is_far {
            return Ok(next);
        }
    }
    Ok(next)
}

/// The same where bounds are counted, and else none.
pub(crate) fn near_after(
    alloc: Global,
    p: &Problem<'_>,
    near: &[Witness],
    ground_actions: &mut Option<GroundActions>,
    step: &Instance,
    room: u32,
) -> Result<Vec<Witness>, AllocError>
    requires valid { IsValidProblem p.now }
    requires counted { Each (IsCounted (problem_of p.now)) near.now }
    requires ground_actions { IfSome ground_actions.old (AreItsGroundActions (problem_of p.now)) }
    ensures becomes { IfOk result (λ ys. ComeFrom (Becomes (problem_of p.now) (instance_of step.now)) near.now ys.items) }
    ensures ground_actions { IfSome ground_actions.new (AreItsGroundActions (problem_of p.now)) }
{
    let Some(all) = ground_actions else {
        return Ok(Vec::new(alloc));
    };
    let next = all_after(alloc, p, near, all, step, room)?;
    Ok(next)
}

/// All but the first.
pub(crate) fn others_of(near: &[Witness]) -> &[Witness]
    ensures { result.now ≡ drop 1 near.now }
{
    match near {
        [] => near,
        [_first, others @ ..] => others,
    }
}

/// The former and then the latter.
pub(crate) fn all_witnesses(
    first: Vec<Witness>,
    others: Vec<Witness>,
) -> Result<Vec<Witness>, AllocError>
    ensures { IfOk result (λ all. all.items ≡ first.items ++ others.items) }
{
    let mut all = first;
    let mut others = others;
    all.append(&mut others)?;
    Ok(all)
}

/// Whether the goal is more than `n` actions away from some witness.
pub(crate) fn is_beyond(near: &[Witness], n: u32) -> bool
    ensures { result ≡ is_far near.now n }
{
    for x in near {
        if x.is_beyond(n) {
            return true;
        }
    }
    false
}

/// Whether the goal is `n` actions away from some witness or more.
pub(crate) fn is_tight(near: &[Witness], n: u32) -> bool
    ensures { result ≡ is_tight near.now n }
{
    n == 0 || is_beyond(near, n - 1)
}

/// Whether the side is so in the world.
pub(crate) fn is_so(w: &World, c: &Choice, side: Side) -> bool
    ensures { result ≡ is_so (world_of w.now) (choice_of c.now) (side_of side) }
{
    match c {
        Choice::Act(_) => false,
        Choice::Branch(test) => match side {
            Side::True => w.holds_all(test),
            Side::False => !w.holds_all(test),
            Side::Is(_) => false,
        },
        Choice::Cases(term) => match side {
            Side::True | Side::False => false,
            Side::Is(d) => w.value(term).0 == d.0,
        },
    }
}

/// Whether there is a witness, and the first is on the side.
pub(crate) fn is_first_on(near: &[Witness], c: &Choice, side: Side) -> bool {
    match near {
        [] => false,
        [x, ..] => is_so(x.world(), c, side),
    }
}

/// The witnesses that are on the side.
pub(crate) fn on_side(
    alloc: Global,
    near: &[Witness],
    c: &Choice,
    side: Side,
) -> Result<Vec<Witness>, AllocError>
    ensures { IfOk result (λ ys. ComeFrom (IsKept (choice_of c.now) (side_of side)) near.now ys.items) }
{
    let mut on = Vec::new(alloc);
    for x in near {
        if is_so(x.world(), c, side) {
            on.push(x.share()?)?;
        }
    }
    Ok(on)
}
