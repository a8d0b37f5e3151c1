//! The search at a history: the best tree within a depth and a limit on cost. `docs/RULES.md` has the rules on trees.

ghost use Rattle.std.specs.Prelude.{◌≡◌, ◌≤◌, ◌+◌, true, false, length, map, option_map, IfOk};
ghost use Rattle.pks_terms.specs.Sets.{Each, IsIn};
ghost use Rattle.pks_terms.specs.Signatures.{range_of};
ghost use Rattle.pks_terms.specs.Branching.{instances, is_undecided, may_split, choices, Act, BranchOn, CasesOn, IsMember};
ghost use Rattle.pks_terms.specs.Settling.{last_moment, At};
ghost use Rattle.pks_terms.specs.Aims.{met};
ghost use Rattle.pks_terms.specs.Trees.{IsBestOf};
ghost use Rattle.pks_terms.specs.Views.{term_of, conj_of, object_of, instance_of, problem_of};
ghost use Rattle.pks_laws.specs.OfSignature.{IsSideOf};
ghost use Rattle.pks_plan.specs.TreeViews.{tree_of, chain_of};
ghost use Rattle.pks_terms.specs.ChoiceViews.{choice_of, side_of};
ghost use Rattle.pks_search.specs.Limits.{IsBestWithin, IsCheapBy, IsBestAfter, IsBestTaking, AreBestCheapCases};
ghost use Rattle.pks_search.specs.Near.{AreNearAfter};
ghost use Rattle.pks_search.specs.Twins.{AreTwinsAfter};
ghost use Rattle.pks_search.specs.Spots.{MayGoOn, AreSo};

use crate::fewer::{some_is_met, unmet_aims};
use crate::nearing::{
    all_witnesses, is_beyond, is_first_on, is_tight, near_after, on_side, others_of,
};
use crate::parts::{act, branch_of, cases, side_on};
use crate::shelves::{Shelved, Taken, shelf_with, take};
use crate::spots::{Notes, Spot, WorldsAfter, last_fails, left_of};
use crate::twinning::{some_met, twins_after, twins_on};
use pks_branch::assuming::assume;
use pks_branch::leaving::left;
use pks_branch::taking::Walk;
use pks_past::meeting::met;
use pks_plan::{CaseChain, Tree, action_cost, cost};
use pks_postdict::settling::{Settled, settle_after};
use pks_progress::progressing::progress;
use pks_query::databases::Step;
use pks_search_nogoods::failures::Question;
use pks_search_symmetry::Keyed;
use pks_terms::choices::{Choice, Side};
use pks_terms::ids::ObjId;
use pks_terms::literal::Conj;
use pks_terms::schema::Instance;
use pks_terms::term::{Term, front};
use std::alloc::AllocError;
use std::mem::replace;

/// The best tree that is derived at the history, no deeper than `n`, and costs at most `limit`; `None` where there is none.
/// It asks for a history of the problem to which `n` more moments may be added. The error is want of memory.
#[cycle(searching)]
pub(crate) fn best_within<'s>(
    spot: &Spot<'_, 's>,
    n: u32,
    limit: u32,
    notes: &mut Notes<'s>,
) -> Result<Option<Tree>, AllocError>
    requires spot { MayGoOn spot.now n }
    requires notes { AreSo (problem_of spot.now.problem.now) notes.now }
    ensures best { IfOk result (λ o. IsBestWithin (problem_of spot.now.problem.now) (At spot.now.history.now) n limit (option_map tree_of o)) }
    ensures notes { AreSo (problem_of spot.now.problem.now) notes.new }
{
    if met(spot.problem, spot.history) {
        return Ok(Some(Tree::Goal));
    }
    if n == 0 || limit == 0 {
        return Ok(None);
    }
    if is_beyond(spot.near, n.min(limit)) {
        return Ok(None);
    }
    best_unmet(spot, n, limit, notes)
}

/// The same where the goal isn't met: aims that are met for good play no part any more, and may be left out first.
#[cycle(searching)]
fn best_unmet<'s>(
    spot: &Spot<'_, 's>,
    n: u32,
    limit: u32,
    notes: &mut Notes<'s>,
) -> Result<Option<Tree>, AllocError>
    requires spot { MayGoOn spot.now n }
    requires unmet { met (problem_of spot.now.problem.now) spot.now.history.now ≡ false }
    requires some { 1 ≤ n }
    requires notes { AreSo (problem_of spot.now.problem.now) notes.now }
    ensures best { IfOk result (λ o. IsBestWithin (problem_of spot.now.problem.now) (At spot.now.history.now) n limit (option_map tree_of o)) }
    ensures notes { AreSo (problem_of spot.now.problem.now) notes.new }
{
    if notes.leave_aims_out()
        && some_is_met(
            &spot.problem.signature,
            spot.history,
            spot.problem.goal.as_slice(),
        )
    {
        return best_of_fewer(spot, n, limit, notes);
    }
    best_of_left(spot, n, limit, notes)
}

/// The same without the aims that are met for good, by what was taken along for those that are left. No twins are: an aim that is
/// left out may be what tells them apart.
#[cycle(searching)]
fn best_of_fewer<'s>(
    spot: &Spot<'_, 's>,
    n: u32,
    limit: u32,
    notes: &mut Notes<'s>,
) -> Result<Option<Tree>, AllocError>
    requires spot { MayGoOn spot.now n }
    requires unmet { met (problem_of spot.now.problem.now) spot.now.history.now ≡ false }
    requires some { 1 ≤ n }
    requires notes { AreSo (problem_of spot.now.problem.now) notes.now }
    ensures best { IfOk result (λ o. IsBestWithin (problem_of spot.now.problem.now) (At spot.now.history.now) n limit (option_map tree_of o)) }
    ensures notes { AreSo (problem_of spot.now.problem.now) notes.new }
{
    let goal = unmet_aims(
        spot.alloc,
        &spot.problem.signature,
        spot.history,
        spot.problem.goal.as_slice(),
    )?;
    let shelf = replace(&mut notes.shelf, Vec::new(spot.alloc));
    let taken = take(spot.alloc, spot.problem, goal, shelf)?;
    let Taken { own, others } = taken;
    let Shelved { problem, learned } = own;
    let mut fewer = Notes {
        own: learned,
        shelf: others,
    };
    let there = Spot {
        alloc: spot.alloc,
        problem: &problem,
        history: spot.history,
        unread: spot.unread,
        near: spot.near,
        twins: &[],
    };
    let found = best_of_left(&there, n, limit, &mut fewer)?;
    notes.shelf = shelf_with(problem, fewer)?;
    Ok(found)
}

/// The same where no aim is left out: what plays no part is let go of first, since without it the same trees are derived.
#[cycle(searching)]
fn best_of_left<'s>(
    spot: &Spot<'_, 's>,
    n: u32,
    limit: u32,
    notes: &mut Notes<'s>,
) -> Result<Option<Tree>, AllocError>
    requires spot { MayGoOn spot.now n }
    requires unmet { met (problem_of spot.now.problem.now) spot.now.history.now ≡ false }
    requires some { 1 ≤ n }
    requires notes { AreSo (problem_of spot.now.problem.now) notes.now }
    ensures best { IfOk result (λ o. IsBestWithin (problem_of spot.now.problem.now) (At spot.now.history.now) n limit (option_map tree_of o)) }
    ensures notes { AreSo (problem_of spot.now.problem.now) notes.new }
{
    let rest = left_of(spot, n, limit)?;
    let shorter = Spot {
        alloc: spot.alloc,
        problem: spot.problem,
        history: &rest,
        unread: spot.unread,
        near: spot.near,
        twins: spot.twins,
    };
    best_of_rest(&shorter, n, limit, notes)
}

/// The same at what is left of a history: a failure in the table tells that there is none, and a find what is the best.
/// What is found, or found to fail, is noted. So histories that differ in what was let go of share their failures and finds.
#[cycle(searching)]
fn best_of_rest<'s>(
    spot: &Spot<'_, 's>,
    n: u32,
    limit: u32,
    notes: &mut Notes<'s>,
) -> Result<Option<Tree>, AllocError>
    requires spot { MayGoOn spot.now n }
    requires unmet { met (problem_of spot.now.problem.now) spot.now.history.now ≡ false }
    requires some { 1 ≤ n }
    requires notes { AreSo (problem_of spot.now.problem.now) notes.now }
    ensures best { IfOk result (λ o. IsBestWithin (problem_of spot.now.problem.now) (At spot.now.history.now) n limit (option_map tree_of o)) }
    ensures notes { AreSo (problem_of spot.now.problem.now) notes.new }
{
    let key = notes.own.failures.key_of(spot.alloc, spot.history)?;
    let asked = Question {
        at: Keyed {
            history: spot.history,
            key: &key,
        },
        n,
        limit,
    };
    if notes.own.failures.tells(spot.alloc, spot.problem, &asked) {
        return Ok(None);
    }
    if let Some(told) = notes.own.finds.tells(spot.alloc, &asked) {
        return Ok(told);
    }
    match best_of_choices(spot, n - 1, limit, notes)? {
        Some(t) => {
            notes.own.finds.note(spot.alloc, spot.problem, &asked, &t);
            Ok(Some(t))
        }
        None => {
            notes.own.failures.note(spot.history, key, n, limit);
            Ok(None)
        }
    }
}

/// The same where the goal isn't met, with `n` for what follows a choice: over the choices in order, where a later tree is
/// better only if it costs less than the one that was found.
#[cycle(searching)]
fn best_of_choices<'s>(
    spot: &Spot<'_, 's>,
    n: u32,
    limit: u32,
    notes: &mut Notes<'s>,
) -> Result<Option<Tree>, AllocError>
    requires spot { MayGoOn spot.now (n + 1) }
    requires unmet { met (problem_of spot.now.problem.now) spot.now.history.now ≡ false }
    requires notes { AreSo (problem_of spot.now.problem.now) notes.now }
    ensures best { IfOk result (λ o. IsBestWithin (problem_of spot.now.problem.now) (At spot.now.history.now) (n + 1) limit (option_map tree_of o)) }
    ensures notes { AreSo (problem_of spot.now.problem.now) notes.new }
{
    let d = spot.history.last();
    let mut walk = Walk::of(spot.alloc, spot.problem, d)?;
    let mut best = None;
    let mut below = limit;
    'each: while let Some(c) = walk.next(spot.alloc, spot.problem, d)? {
        if let Some(t) = best_by_choice(spot, n, below, &c, notes)? {
            below = cost(spot.problem, &t) - 1;
            best = Some(t);
        }
    }
    Ok(best)
}

/// The best tree with the choice at its root.
#[cycle(searching)]
fn best_by_choice<'s>(
    spot: &Spot<'_, 's>,
    n: u32,
    limit: u32,
    c: &Choice,
    notes: &mut Notes<'s>,
) -> Result<Option<Tree>, AllocError>
    requires spot { MayGoOn spot.now (n + 1) }
    requires chosen { IsIn (choice_of c.now) (choices (problem_of spot.now.problem.now) (last_moment spot.now.history.now)) }
    requires notes { AreSo (problem_of spot.now.problem.now) notes.now }
    ensures best { IfOk result (λ o. IsBestOf (problem_of spot.now.problem.now) (IsCheapBy (problem_of spot.now.problem.now) spot.now.history.now (n + 1) limit (choice_of c.now)) (option_map tree_of o)) }
    ensures notes { AreSo (problem_of spot.now.problem.now) notes.new }
{
    match c {
        Choice::Act(step) => best_by_action(spot, n, limit, step, notes),
        Choice::Branch(test) => best_by_branch(spot, n, limit, test, notes),
        Choice::Cases(term) => best_by_cases(spot, n, limit, term, notes),
    }
}

/// The best tree with the action at its root. There is none where some twins become one world by it: both come to the same leaf,
/// at which the aim that tells them apart isn't met.
#[cycle(searching)]
fn best_by_action<'s>(
    spot: &Spot<'_, 's>,
    n: u32,
    limit: u32,
    step: &Instance,
    notes: &mut Notes<'s>,
) -> Result<Option<Tree>, AllocError>
    requires spot { MayGoOn spot.now (n + 1) }
    requires chosen { IsIn (instance_of step.now) (instances (problem_of spot.now.problem.now) (last_moment spot.now.history.now)) }
    requires notes { AreSo (problem_of spot.now.problem.now) notes.now }
    ensures best { IfOk result (λ o. IsBestOf (problem_of spot.now.problem.now) (IsCheapBy (problem_of spot.now.problem.now) spot.now.history.now (n + 1) limit (Act (instance_of step.now))) (option_map tree_of o)) }
    ensures notes { AreSo (problem_of spot.now.problem.now) notes.new }
{
    let own = action_cost(spot.problem, step.act);
    if limit < own {
        return Ok(None);
    }
    let room = n.min(limit - own);
    let first = near_after(
        spot.alloc,
        spot.problem,
        front(spot.near, 1),
        &mut notes.own.ground_actions,
        step,
        room,
    )?;
    if is_beyond(first.as_slice(), room) {
        return Ok(None);
    }
    let twins = twins_after(spot.alloc, spot.problem, spot.twins, step)?;
    if some_met(twins.as_slice()) {
        return Ok(None);
    }
    let tight = is_tight(first.as_slice(), room);
    let barren = last_fails(spot, tight, n + 1, limit, &mut notes.own.failures)?;
    if barren {
        return Ok(None);
    }
    let worlds = WorldsAfter { first, twins };
    let next = best_after(spot, n, limit - own, step, worlds, notes)?;
    act(spot.alloc, *step, next)
}

/// The best tree after the action, with what the first witness and the twins become by it: the other witnesses are asked before the
/// search goes on.
#[cycle(searching)]
fn best_after<'s>(
    spot: &Spot<'_, 's>,
    n: u32,
    limit: u32,
    step: &Instance,
    worlds: WorldsAfter,
    notes: &mut Notes<'s>,
) -> Result<Option<Tree>, AllocError>
    requires spot { MayGoOn spot.now (n + 1) }
    requires chosen { IsIn (instance_of step.now) (instances (problem_of spot.now.problem.now) (last_moment spot.now.history.now)) }
    requires notes { AreSo (problem_of spot.now.problem.now) notes.now }
    requires near { AreNearAfter (problem_of spot.now.problem.now) spot.now.history.now (instance_of step.now) worlds.first.items }
    requires twins { AreTwinsAfter (problem_of spot.now.problem.now) spot.now.history.now (instance_of step.now) worlds.twins.items }
    ensures best { IfOk result (λ o. IsBestAfter (problem_of spot.now.problem.now) spot.now.history.now (instance_of step.now) n limit (option_map tree_of o)) }
    ensures notes { AreSo (problem_of spot.now.problem.now) notes.new }
{
    let WorldsAfter { first, twins } = worlds;
    match progress(spot.alloc, spot.problem, spot.history.last(), step)? {
        Step::Clash(_) => Ok(Some(Tree::Impossible)),
        Step::Next(d) => {
            let room = n.min(limit);
            let others = near_after(
                spot.alloc,
                spot.problem,
                others_of(spot.near),
                &mut notes.own.ground_actions,
                step,
                room,
            )?;
            let after = all_witnesses(first, others)?;
            let longer = spot.history.push(spot.alloc, *step, d)?;
            let later = Spot {
                alloc: spot.alloc,
                problem: spot.problem,
                history: &longer,
                unread: spot.unread + 1,
                near: after.as_slice(),
                twins: twins.as_slice(),
            };
            best_within(&later, n, limit, notes)
        }
    }
}

/// The best tree with the branch at its root. Where the side that is searched first has no tree, the other
/// isn't searched; the first is the true side, unless the first witness is on the false one.
#[cycle(searching)]
fn best_by_branch<'s>(
    spot: &Spot<'_, 's>,
    n: u32,
    limit: u32,
    test: &Conj,
    notes: &mut Notes<'s>,
) -> Result<Option<Tree>, AllocError>
    requires spot { MayGoOn spot.now (n + 1) }
    requires member { IsIn (conj_of test.now) (last_moment spot.now.history.now).kw }
    requires undecided { is_undecided (problem_of spot.now.problem.now).signature (last_moment spot.now.history.now) (conj_of test.now) ≡ true }
    requires notes { AreSo (problem_of spot.now.problem.now) notes.now }
    ensures best { IfOk result (λ o. IsBestOf (problem_of spot.now.problem.now) (IsCheapBy (problem_of spot.now.problem.now) spot.now.history.now (n + 1) limit (BranchOn (conj_of test.now))) (option_map tree_of o)) }
    ensures notes { AreSo (problem_of spot.now.problem.now) notes.new }
{
    if limit == 0 {
        return Ok(None);
    }
    if is_beyond(spot.near, n.min(limit - 1)) {
        return Ok(None);
    }
    let c = Choice::Branch(*test);
    let is_true = !is_first_on(spot.near, &c, Side::False);
    let Some(one) = best_taking(spot, n, limit - 1, &c, side_on(is_true), notes)? else {
        return Ok(None);
    };
    let Some(other) = best_taking(spot, n, limit - 1, &c, side_on(!is_true), notes)? else {
        return Ok(None);
    };
    let tree = branch_of(spot.alloc, *test, is_true, one, other)?;
    Ok(Some(tree))
}

/// The best tree with cases on the term at its root.
#[cycle(searching)]
fn best_by_cases<'s>(
    spot: &Spot<'_, 's>,
    n: u32,
    limit: u32,
    term: &Term,
    notes: &mut Notes<'s>,
) -> Result<Option<Tree>, AllocError>
    requires spot { MayGoOn spot.now (n + 1) }
    requires member { IsIn (term_of term.now) (last_moment spot.now.history.now).kv }
    requires splits { may_split (problem_of spot.now.problem.now).signature (last_moment spot.now.history.now) (term_of term.now) ≡ true }
    requires notes { AreSo (problem_of spot.now.problem.now) notes.now }
    ensures best { IfOk result (λ o. IsBestOf (problem_of spot.now.problem.now) (IsCheapBy (problem_of spot.now.problem.now) spot.now.history.now (n + 1) limit (CasesOn (term_of term.now))) (option_map tree_of o)) }
    ensures notes { AreSo (problem_of spot.now.problem.now) notes.new }
{
    if limit == 0 {
        return Ok(None);
    }
    if is_beyond(spot.near, n.min(limit - 1)) {
        return Ok(None);
    }
    let objects = left(spot.alloc, spot.problem, spot.history.last(), term)?;
    let chain = best_chain(spot, n, limit - 1, term, objects.as_slice(), notes)?;
    cases(spot.alloc, *term, chain)
}

/// The best cases on the objects. Where one has no tree, the later ones aren't searched.
#[cycle(searching)]
fn best_chain<'s>(
    spot: &Spot<'_, 's>,
    n: u32,
    limit: u32,
    term: &Term,
    objects: &[ObjId],
    notes: &mut Notes<'s>,
) -> Result<Option<CaseChain>, AllocError>
    requires spot { MayGoOn spot.now (n + 1) }
    requires member { IsIn (term_of term.now) (last_moment spot.now.history.now).kv }
    requires sides { Each (λ e. IsIn e (range_of (problem_of spot.now.problem.now).signature (term_of term.now))) (map object_of objects.now) }
    requires few { length objects.now ≤ 16 }
    requires notes { AreSo (problem_of spot.now.problem.now) notes.now }
    ensures best { IfOk result (λ o. AreBestCheapCases (problem_of spot.now.problem.now) spot.now.history.now (term_of term.now) n limit (map object_of objects.now) (option_map chain_of o)) }
    ensures notes { AreSo (problem_of spot.now.problem.now) notes.new }
{
    let [object, others @ ..] = objects else {
        return Ok(Some(CaseChain::Empty));
    };
    let c = Choice::Cases(*term);
    let Some(tree) = best_taking(spot, n, limit, &c, Side::Is(*object), notes)? else {
        return Ok(None);
    };
    let Some(rest) = best_chain(spot, n, limit, term, others, notes)? else {
        return Ok(None);
    };
    let rest = Box::new(spot.alloc, rest)?;
    Ok(Some(CaseChain::More {
        object: *object,
        tree,
        rest,
    }))
}

/// The best tree where the side is taken: assumed, and the history settled.
#[cycle(searching)]
fn best_taking<'s>(
    spot: &Spot<'_, 's>,
    n: u32,
    limit: u32,
    c: &Choice,
    side: Side,
    notes: &mut Notes<'s>,
) -> Result<Option<Tree>, AllocError>
    requires spot { MayGoOn spot.now (n + 1) }
    requires member { IsMember (last_moment spot.now.history.now) (choice_of c.now) }
    requires side { IsSideOf (problem_of spot.now.problem.now).signature (choice_of c.now) (side_of side) }
    requires notes { AreSo (problem_of spot.now.problem.now) notes.now }
    ensures best { IfOk result (λ o. IsBestTaking (problem_of spot.now.problem.now) spot.now.history.now (choice_of c.now) (side_of side) n limit (option_map tree_of o)) }
    ensures notes { AreSo (problem_of spot.now.problem.now) notes.new }
{
    match assume(spot.alloc, spot.problem, spot.history.last(), c, side)? {
        Step::Clash(_) => Ok(Some(Tree::Impossible)),
        Step::Next(d) => match settle_after(
            spot.alloc,
            spot.problem,
            spot.history,
            d,
            spot.unread,
        )? {
            Settled::Clash => Ok(Some(Tree::Impossible)),
            Settled::Whole(settled) => {
                let on = on_side(spot.alloc, spot.near, c, side)?;
                let twins = twins_on(spot.alloc, spot.twins, c, side)?;
                let there = Spot {
                    alloc: spot.alloc,
                    problem: spot.problem,
                    history: &settled,
                    unread: 0,
                    near: on.as_slice(),
                    twins: twins.as_slice(),
                };
                best_within(&there, n, limit, notes)
            }
        },
    }
}
