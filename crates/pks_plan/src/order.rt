//! What a plan costs, and which of two is better.

ghost use Rattle.std.specs.Prelude.{◌≡◌, ◌≤◌, ◌*◌, ◌^◌, ◌<◌};
ghost use Rattle.std.specs.declared.cmp.Ordering.TheVariants.{Equal};
ghost use Rattle.std.specs.Ordering.{nat_cmp};
ghost use Rattle.std.specs.Cmp.Lexicographic.{slice_cmp};
ghost use Rattle.pks_terms.specs.declared.limits.TheConstants.{GREATEST_COST};
ghost use Rattle.pks_terms.specs.Sets.{Each};
ghost use Rattle.pks_terms.specs.Problems.{schema_of};
ghost use Rattle.pks_terms.specs.Trees.{depth, chain_depth, cost, chain_cost, objects_in, root_kind, instance_cmp, same_kind_cmp, root_cmp, tree_cmp, chain_cmp};
ghost use Rattle.pks_terms.specs.Views.{problem_of, instance_of};
ghost use Rattle.pks_plan.specs.TreeViews.{tree_of, chain_of};

use crate::trees::{CaseChain, Tree};
use pks_terms::ids::ActId;
use pks_terms::problem::Problem;
use pks_terms::schema::Instance;
use pks_terms::term::front;
use std::cmp::Ordering;

/// What an action costs by itself: what its schema says (docs/RULES.md, "Trees, and which is best").
pub fn action_cost(p: &Problem<'_>, act: ActId) -> u32
    ensures { result ≡ (schema_of (problem_of p.now) act.0).cost }
{
    match p.schemas.as_slice().get(usize::from(act.0)) {
        Some(schema) => schema.cost,
        None => 1,
    }
}

/// What the tree costs.
#[cycle(costs)]
fn total(p: &Problem<'_>, t: &Tree) -> u64
    requires { depth (tree_of t.now) ≤ 16 }
    ensures cost { result ≡ cost (problem_of p.now) (tree_of t.now) }
    ensures fits { result ≤ depth (tree_of t.now) * 2 ^ 32 }
{
    match t {
        Tree::Goal | Tree::Impossible => 0,
        Tree::Act { step, next } => u64::from(action_cost(p, step.act)) + total(p, next),
        Tree::Branch { yes, no, .. } => total(p, yes).max(total(p, no)) + 1,
        Tree::Cases { cases, .. } => chain_total(p, cases) + 1,
    }
}

/// What the dearest of the trees costs.
#[cycle(costs)]
fn chain_total(p: &Problem<'_>, k: &CaseChain) -> u64
    requires { chain_depth (chain_of k.now) ≤ 16 }
    ensures cost { result ≡ chain_cost (problem_of p.now) (chain_of k.now) }
    ensures fits { result ≤ chain_depth (chain_of k.now) * 2 ^ 32 }
{
    match k {
        CaseChain::Empty => 0,
        CaseChain::More { tree, rest, .. } => total(p, tree).max(chain_total(p, rest)),
    }
}

/// The cost: an action costs what its schema says, a branch and cases cost one, and of what follows the dearest
/// counts. It asks for a depth of at most 16 and for actions that cost at most 9,999, as those of a valid problem
/// (docs/RULES.md, "Trees, and which is best").
pub fn cost(p: &Problem<'_>, t: &Tree) -> u32
    requires depth { depth (tree_of t.now) ≤ 16 }
    requires costs { Each (λ schema. schema.cost ≤ GREATEST_COST) (problem_of p.now).schemas }
    ensures { result ≡ cost (problem_of p.now) (tree_of t.now) }
{
    total(p, t) as u32
}

fn kind(t: &Tree) -> u8
    ensures { result ≡ root_kind (tree_of t.now) }
{
    match t {
        Tree::Goal => 0,
        Tree::Impossible => 1,
        Tree::Act { .. } => 2,
        Tree::Branch { .. } => 3,
        Tree::Cases { .. } => 4,
    }
}

/// The order of instances: by action, then by arguments from the left. It takes no memory.
pub fn instance_cmp(i: &Instance, j: &Instance) -> Ordering
    ensures { result ≡ instance_cmp (instance_of i.now) (instance_of j.now) }
{
    let arguments = front(&i.args, i.n).cmp(&front(&j.args, j.n));
    i.act.0.cmp(&j.act.0).then(arguments)
}

/// By the objects in order.
fn objects_cmp(a: &CaseChain, b: &CaseChain) -> Ordering
    ensures { result ≡ slice_cmp nat_cmp (objects_in (chain_of a.now)) (objects_in (chain_of b.now)) }
{
    match (a, b) {
        (CaseChain::Empty, CaseChain::Empty) => Ordering::Equal,
        (CaseChain::Empty, CaseChain::More { .. }) => Ordering::Less,
        (CaseChain::More { .. }, CaseChain::Empty) => Ordering::Greater,
        (
            CaseChain::More { object, rest, .. },
            CaseChain::More {
                object: other,
                rest: others,
                ..
            },
        ) => object.0.cmp(&other.0).then(objects_cmp(rest, others)),
    }
}

/// Roots of one kind.
#[tactic(auto, unfolding(pks_terms::specs::Orders::term_cmp))]
fn same_kind_cmp(a: &Tree, b: &Tree) -> Ordering
    requires { root_kind (tree_of a.now) ≡ root_kind (tree_of b.now) }
    ensures { result ≡ same_kind_cmp (tree_of a.now) (tree_of b.now) }
{
    match (a, b) {
        (Tree::Act { step, .. }, Tree::Act { step: other, .. }) => instance_cmp(step, other),
        (Tree::Branch { test, .. }, Tree::Branch { test: other, .. }) => test.cmp(other),
        (
            Tree::Cases { term, cases },
            Tree::Cases {
                term: other,
                cases: others,
            },
        ) => term.cmp(other).then(objects_cmp(cases, others)),
        _ => Ordering::Equal,
    }
}

/// By cost, then by what stands at the root.
#[tactic(auto, unfolding(pks_terms::specs::Trees::root_cmp))]
fn root_cmp(p: &Problem<'_>, a: &Tree, b: &Tree) -> Ordering
    requires first { depth (tree_of a.now) ≤ 16 }
    requires second { depth (tree_of b.now) ≤ 16 }
    ensures { result ≡ root_cmp (cost (problem_of p.now)) (tree_of a.now) (tree_of b.now) }
{
    let costs = total(p, a).cmp(&total(p, b));
    if costs != Ordering::Equal {
        return costs;
    }
    let kinds = kind(a).cmp(&kind(b));
    if kinds != Ordering::Equal {
        return kinds;
    }
    same_kind_cmp(a, b)
}

/// Which of two trees is better, the better one being less: the cheaper; of equal cost the one whose root comes first
/// in the order goal, impossible, actions, branches, cases; of one kind by action and arguments, by formula, or by
/// term and objects; of equal roots the one whose first child that differs is better. It asks for depths of at most
/// 16 (docs/RULES.md, "Trees, and which is best").
#[cycle(betters)]
pub fn better(p: &Problem<'_>, a: &Tree, b: &Tree) -> Ordering
    requires first { depth (tree_of a.now) ≤ 16 }
    requires second { depth (tree_of b.now) ≤ 16 }
    ensures { result ≡ tree_cmp (cost (problem_of p.now)) (tree_of a.now) (tree_of b.now) }
{
    match root_cmp(p, a, b) {
        Ordering::Equal => children_cmp(p, a, b),
        unequal => unequal,
    }
}

/// By the first child that differs, the roots being equal.
#[cycle(betters)]
#[tactic(auto, using(crate::proofs::Roots::then_unequal, crate::proofs::Roots::same_objects))]
fn children_cmp(p: &Problem<'_>, a: &Tree, b: &Tree) -> Ordering
    requires roots { root_cmp (cost (problem_of p.now)) (tree_of a.now) (tree_of b.now) ≡ Equal }
    requires first { depth (tree_of a.now) ≤ 16 }
    requires second { depth (tree_of b.now) ≤ 16 }
    ensures { result ≡ tree_cmp (cost (problem_of p.now)) (tree_of a.now) (tree_of b.now) }
{
    match (a, b) {
        (Tree::Act { next, .. }, Tree::Act { next: other, .. }) => better(p, next, other),
        (
            Tree::Branch { yes, no, .. },
            Tree::Branch {
                yes: other_yes,
                no: other_no,
                ..
            },
        ) => match better(p, yes, other_yes) {
            Ordering::Equal => better(p, no, other_no),
            unequal => unequal,
        },
        (Tree::Cases { cases, .. }, Tree::Cases { cases: others, .. }) => cases_cmp(
            p, cases, others,
        ),
        _ => Ordering::Equal,
    }
}

/// By the first child that differs, where the objects are the same.
#[cycle(betters)]
#[tactic(auto, using(crate::proofs::Roots::then_unequal))]
fn cases_cmp(p: &Problem<'_>, a: &CaseChain, b: &CaseChain) -> Ordering
    requires first { chain_depth (chain_of a.now) ≤ 16 }
    requires second { chain_depth (chain_of b.now) ≤ 16 }
    ensures { objects_in (chain_of a.now) ≡ objects_in (chain_of b.now) → result ≡ chain_cmp (cost (problem_of p.now)) (chain_of a.now) (chain_of b.now) }
{
    match (a, b) {
        (
            CaseChain::More { tree, rest, .. },
            CaseChain::More {
                tree: other,
                rest: others,
                ..
            },
        ) => match better(p, tree, other) {
            Ordering::Equal => cases_cmp(p, rest, others),
            unequal => unequal,
        },
        _ => Ordering::Equal,
    }
}
