//! The run of a plan in a world.
ghost use Rattle.std.specs.Prelude.{◌≡◌, ◌≤◌, [], ◌∷◌, ◌++◌, map, length, IfOk, OnOk};
ghost use Rattle.pks_terms.specs.declared.limits.TheConstants.{MOST_OBJECTS};
ghost use Rattle.pks_terms.specs.Knowledge.{Did, Saw, AtGoal, grounded, observations, run_of, run_cases};
ghost use Rattle.pks_terms.specs.Problems.{IsCompatible};
ghost use Rattle.pks_terms.specs.Trees.{IsPlan};
ghost use Rattle.pks_terms.specs.Answers.{unjustified};
ghost use Rattle.pks_terms.specs.Valid.{IsValid};
ghost use Rattle.pks_terms.specs.Views.{instance_of, problem_of};
ghost use Rattle.pks_world.specs.Contents.{world_of};
ghost use Rattle.pks_plan.specs.TreeViews.{tree_of, chain_of};
ghost use Rattle.pks_exec.specs.Runs.{argument_of, event_of, EndsWith};

use crate::runs::{End, Event, Run};
use pks_plan::{CaseChain, Tree};
use pks_terms::ids::{ObjId, ObjList};
use pks_terms::problem::Problem;
use pks_terms::schema::Instance;
use pks_terms::sequence::Sequence;
use pks_terms::term::front;
use pks_world::{World, argument_value, ground_instance};
use std::alloc::{AllocError, Global};

/// The values of the arguments.
fn argument_values(alloc: Global, w: &World, i: &Instance) -> Result<ObjList, AllocError>
    ensures { IfOk result (λ ds. map argument_of ds ≡ (grounded (world_of w.now) (instance_of i.now)).arguments) }
{
    let mut values = Vec::new(alloc);
    for t in front(&i.args, i.n) {
        values.push(argument_value(w, t))?;
    }
    Ok(Sequence::of(values))
}

/// Adds the action and what its senses find in the world after it.
fn add_action(
    alloc: Global,
    p: &Problem<'_>,
    w: &World,
    after: &World,
    i: &Instance,
    to: &mut Vec<Event>,
) -> Result<(), AllocError>
    requires { length p.now.signature.objects ≤ MOST_OBJECTS }
    ensures { let g = grounded (world_of w.now) (instance_of i.now) in
        OnOk result (map event_of to.new.items ≡ map event_of to.old.items ++ Did g ∷ map Saw (observations (problem_of p.now) (world_of after.now) g)) }
{
    let values = argument_values(alloc, w, i)?;
    to.push(Event::Do(i.act, values))?;
    let seen = after.observe(alloc, p, &ground_instance(w, i))?;
    for found in seen.into_vec() {
        to.push(Event::Saw(found))?;
    }
    Ok(())
}

/// Adds the events of the run of the tree.
#[cycle(runs)]
fn run_tree(
    alloc: Global,
    p: &Problem<'_>,
    t: &Tree,
    w: &World,
    to: &mut Vec<Event>,
) -> Result<(), AllocError>
    requires { length p.now.signature.objects ≤ MOST_OBJECTS }
    ensures { IsValid (problem_of p.now) → OnOk result (map event_of to.new.items ≡ map event_of to.old.items ++ run_of (problem_of p.now) (tree_of t.now) (world_of w.now)) }
{
    match t {
        Tree::Goal => to.push(Event::End(End::Goal))?,
        Tree::Impossible => to.push(Event::End(End::Impossible))?,
        Tree::Act { step, next } => {
            let after = w.apply(p, &ground_instance(w, step))?;
            add_action(alloc, p, w, &after, step, to)?;
            run_tree(alloc, p, next, &after, to)?;
        }
        Tree::Branch { test, yes, no } => {
            let holds = w.holds_all(test);
            to.push(Event::Test(*test, holds))?;
            if holds {
                run_tree(alloc, p, yes, w, to)?;
            } else {
                run_tree(alloc, p, no, w, to)?;
            }
        }
        Tree::Cases { term, cases } => {
            let value = w.value(term);
            to.push(Event::Case(*term, value))?;
            run_cases(alloc, p, cases, value, w, to)?;
        }
    }
    Ok(())
}

/// Adds the events of the run of the value's case.
#[cycle(runs)]
fn run_cases(
    alloc: Global,
    p: &Problem<'_>,
    k: &CaseChain,
    value: ObjId,
    w: &World,
    to: &mut Vec<Event>,
) -> Result<(), AllocError>
    requires { length p.now.signature.objects ≤ MOST_OBJECTS }
    ensures { IsValid (problem_of p.now) → OnOk result (map event_of to.new.items ≡ map event_of to.old.items ++ run_cases (problem_of p.now) (chain_of k.now) value.0 (world_of w.now)) }
{
    match k {
        CaseChain::Empty => to.push(Event::End(End::NoCase))?,
        CaseChain::More { object, tree, rest } => {
            if *object == value {
                run_tree(alloc, p, tree, w, to)?;
            } else {
                run_cases(alloc, p, rest, value, w, to)?;
            }
        }
    }
    Ok(())
}

/// The run of the tree in the world: each action with the values of its arguments in the world before it, and what each of its senses finds
/// in the world after it; the truth of each conjunction that the tree branches on; each value that it has cases for; the end, which is
/// `NoCase` exactly where the tree has no case for the value. In a compatible world the run of a derived tree ends with `Goal`, where no add
/// of the problem is without a case. It asks that objects can be numbered, and says this of valid problems. `AllocError` comes for want of
/// memory alone. `docs/RULES.md`, runs.
pub fn exec(alloc: Global, p: &Problem<'_>, t: &Tree, w: &World) -> Result<Run, AllocError>
    requires { length p.now.signature.objects ≤ MOST_OBJECTS }
    ensures run { IsValid (problem_of p.now) → IfOk result (λ r. map event_of r ≡ run_of (problem_of p.now) (tree_of t.now) (world_of w.now)) }
    ensures goal { IsValid (problem_of p.now) → unjustified (problem_of p.now) ≡ [] → IsPlan (problem_of p.now) (tree_of t.now) → IsCompatible (problem_of p.now) (world_of w.now) → IfOk result (λ r. EndsWith AtGoal (map event_of r)) }
{
    let mut events = Vec::new(alloc);
    run_tree(alloc, p, t, w, &mut events)?;
    Ok(Sequence::of(events))
}
