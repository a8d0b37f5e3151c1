//! Conditional plans as trees.

ghost use Rattle.std.specs.Prelude.{◌≡◌, ◌≤◌};
ghost use Rattle.pks_terms.specs.Trees.{depth, chain_depth};
ghost use Rattle.pks_plan.specs.TreeViews.{tree_of, chain_of};

use pks_terms::ids::ObjId;
use pks_terms::literal::Conj;
use pks_terms::schema::Instance;
use pks_terms::term::Term;

/// A plan: what is done at once, and the plans for what follows.
#[derive(Drop)]
#[cycle(plans)]
pub enum Tree {
    /// The goal is met.
    Goal,
    /// What was assumed can't be.
    Impossible,
    /// An action, and what follows it.
    Act {
        step: Instance,
        next: Box<Tree>,
    },
    /// A formula that is known to be true or false, and what follows where it is true and where it is false.
    Branch {
        test: Conj,
        yes: Box<Tree>,
        no: Box<Tree>,
    },
    /// A term whose value is known, and what follows for each value.
    Cases {
        term: Term,
        cases: Box<CaseChain>,
    },
}

/// The values of a term in order, and what follows for each.
#[derive(Drop)]
#[cycle(plans)]
pub enum CaseChain {
    /// No further value.
    Empty,
    /// A value, what follows for it, and the other values.
    More {
        object: ObjId,
        tree: Tree,
        rest: Box<CaseChain>,
    },
}

/// The depth: that of the goal and of the impossible is 0, and each action, branch and cases are one deeper than the
/// deepest of what follows. It asks for a depth of at most 16 (docs/RULES.md, "Trees, and which is best").
#[cycle(depths)]
pub fn depth(t: &Tree) -> u32
    requires { depth (tree_of t.now) ≤ 16 }
    ensures { result ≡ depth (tree_of t.now) }
{
    match t {
        Tree::Goal | Tree::Impossible => 0,
        Tree::Act { next, .. } => depth(next) + 1,
        Tree::Branch { yes, no, .. } => depth(yes).max(depth(no)) + 1,
        Tree::Cases { cases, .. } => chain_depth(cases) + 1,
    }
}

/// The depth of the deepest of the trees.
#[cycle(depths)]
fn chain_depth(k: &CaseChain) -> u32
    requires { chain_depth (chain_of k.now) ≤ 16 }
    ensures { result ≡ chain_depth (chain_of k.now) }
{
    match k {
        CaseChain::Empty => 0,
        CaseChain::More { tree, rest, .. } => depth(tree).max(chain_depth(rest)),
    }
}
