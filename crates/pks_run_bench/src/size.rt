//! How large a plan is.

ghost use Rattle.std.specs.Prelude.{◌≡◌, ◌<◌, ◌^◌};
ghost use Rattle.pks_terms.specs.Printed.{nodes_of, nodes_in};
ghost use Rattle.pks_plan.specs.TreeViews.{tree_of, chain_of};

use pks_plan::{CaseChain, Tree};

/// How many actions, branches, cases and leaves the tree has. It asks that they can be counted (docs/FORMAT.md,
/// "Texts").
#[cycle(counts)]
pub fn nodes(t: &Tree) -> u64
    requires { nodes_of (tree_of t.now) < 2 ^ 64 }
    ensures { result ≡ nodes_of (tree_of t.now) }
{
    match t {
        Tree::Goal | Tree::Impossible => 1,
        Tree::Act { next, .. } => nodes(next) + 1,
        Tree::Branch { yes, no, .. } => nodes(yes) + nodes(no) + 1,
        Tree::Cases { cases, .. } => nodes_in(cases) + 1,
    }
}

/// How many the trees of the cases have.
#[cycle(counts)]
fn nodes_in(k: &CaseChain) -> u64
    requires { nodes_in (chain_of k.now) < 2 ^ 64 }
    ensures { result ≡ nodes_in (chain_of k.now) }
{
    match k {
        CaseChain::Empty => 0,
        CaseChain::More { tree, rest, .. } => nodes(tree) + nodes_in(rest),
    }
}
