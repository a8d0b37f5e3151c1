//! The leaves of a derived tree, at which its histories are made anew.
ghost use Rattle.std.specs.Prelude.{map, OnOk};
ghost use Rattle.pks_terms.specs.Views.{problem_of, term_of};
ghost use Rattle.pks_plan.specs.TreeViews.{tree_of, chain_of};
ghost use Rattle.pks_history_replay.specs.Walking.{state_of, IsReady, AreReady};
ghost use Rattle.pks_recall.specs.Walking.{AddsLeaves, AddsLeavesOfEach};

use pks_history::histories::History;
use pks_history_replay::{State, after, history, taking};
use pks_plan::{CaseChain, Tree};
use pks_terms::choices::{Choice, Side};
use pks_terms::problem::Problem;
use pks_terms::term::Term;
use std::alloc::{AllocError, Global};

/// Adds the states at the leaves of a tree that is derived at this state, from left to right.
#[cycle(walking)]
pub(crate) fn add_leaves(
    alloc: Global,
    p: &Problem<'_>,
    x: State,
    t: &Tree,
    leaves: &mut Vec<State>,
) -> Result<(), AllocError>
    requires { IsReady p.now (state_of x) (tree_of t.now) }
    ensures { OnOk result (AddsLeaves (problem_of p.now) (state_of x) (tree_of t.now) (map state_of leaves.old.items) (map state_of leaves.new.items)) }
{
    match t {
        Tree::Goal | Tree::Impossible => leaves.push(x)?,
        Tree::Act { step, next } => {
            let y = after(alloc, p, history(&x), step)?;
            add_leaves(alloc, p, y, next, leaves)?;
        }
        Tree::Branch { test, yes, no } => {
            let c = Choice::Branch(*test);
            let y = taking(alloc, p, history(&x), &c, Side::True)?;
            add_leaves(alloc, p, y, yes, leaves)?;
            let z = taking(alloc, p, history(&x), &c, Side::False)?;
            add_leaves(alloc, p, z, no, leaves)?;
        }
        Tree::Cases { term, cases } => {
            add_leaves_of_each(alloc, p, history(&x), term, cases, leaves)?
        }
    }
    Ok(())
}

/// Adds the states at the leaves of each case.
#[cycle(walking)]
fn add_leaves_of_each(
    alloc: Global,
    p: &Problem<'_>,
    h: &History,
    term: &Term,
    k: &CaseChain,
    leaves: &mut Vec<State>,
) -> Result<(), AllocError>
    requires { AreReady p.now h.now (term_of term.now) (chain_of k.now) }
    ensures { OnOk result (AddsLeavesOfEach (problem_of p.now) h.now (term_of term.now) (chain_of k.now) (map state_of leaves.old.items) (map state_of leaves.new.items)) }
{
    match k {
        CaseChain::Empty => {}
        CaseChain::More { object, tree, rest } => {
            let c = Choice::Cases(*term);
            let y = taking(alloc, p, h, &c, Side::Is(*object))?;
            add_leaves(alloc, p, y, tree, leaves)?;
            add_leaves_of_each(alloc, p, h, term, rest, leaves)?;
        }
    }
    Ok(())
}
