//! The nodes of a tree, of which no two are equal.

ghost use Rattle.std.specs.Prelude.{◌≡◌, ◌++◌, List, [], map, IfOk, OnOk};
ghost use Rattle.pks_terms.specs.Nodes.{Node as Value, IsShared, AreBehindChildren};
ghost use Rattle.pks_plan.specs.TreeViews.{tree_of, chain_of};
ghost use Rattle.pks_dag.specs.NodeViews.{link_of, node_of, nodes_of};
ghost use Rattle.pks_dag.specs.Sharing.{with_node, number_in, shared_in, shared_cases};

use crate::nodes::{CaseNode, Dag, Node};
use indexmap::IndexSet;
use pks_plan::{CaseChain, Tree};
use pks_terms::sequence::Sequence;
use std::alloc::{AllocError, Global};

/// The number of the node, which goes last where it isn't there.
fn note(nodes: &mut IndexSet<Node>, node: Node) -> Result<u64, AllocError>
    ensures nodes { OnOk result (nodes_of nodes.new.keys ≡ with_node (nodes_of nodes.old.keys) (node_of node)) }
    ensures number { IfOk result (λ n. n ≡ number_in (nodes_of nodes.old.keys) (node_of node)) }
{
    let (place, _) = nodes.insert_full(node)?;
    let _count = nodes.len();
    Ok(place as u64 + 1)
}

/// The number of the node that unfolds to the tree. Nodes that aren't there go last, children before their parent.
#[cycle(shares)]
fn share_tree(alloc: Global, nodes: &mut IndexSet<Node>, t: &Tree) -> Result<u64, AllocError>
    ensures nodes { OnOk result (nodes_of nodes.new.keys ≡ (shared_in (nodes_of nodes.old.keys) (tree_of t.now)).0) }
    ensures number { IfOk result (λ n. n ≡ (shared_in (nodes_of nodes.old.keys) (tree_of t.now)).1) }
{
    let node = match t {
        Tree::Goal => Node::Goal,
        Tree::Impossible => Node::Impossible,
        Tree::Act { step, next } => {
            let next = share_tree(alloc, nodes, next)?;
            Node::Act { step: *step, next }
        }
        Tree::Branch { test, yes, no } => {
            let yes = share_tree(alloc, nodes, yes)?;
            let no = share_tree(alloc, nodes, no)?;
            Node::Branch {
                test: *test,
                yes,
                no,
            }
        }
        Tree::Cases { term, cases } => {
            let mut links = Vec::new(alloc);
            share_cases(alloc, nodes, cases, &mut links)?;
            Node::Cases {
                term: *term,
                cases: Sequence::of(links),
            }
        }
    };
    let number = note(nodes, node)?;
    Ok(number)
}

/// The objects with the numbers of their nodes, in order.
#[cycle(shares)]
fn share_cases(
    alloc: Global,
    nodes: &mut IndexSet<Node>,
    k: &CaseChain,
    links: &mut Vec<CaseNode>,
) -> Result<(), AllocError>
    ensures nodes { OnOk result (nodes_of nodes.new.keys ≡ (shared_cases (nodes_of nodes.old.keys) (chain_of k.now)).0) }
    ensures links { OnOk result (map link_of links.new.items ≡ map link_of links.old.items ++ (shared_cases (nodes_of nodes.old.keys) (chain_of k.now)).1) }
{
    match k {
        CaseChain::Empty => {}
        CaseChain::More { object, tree, rest } => {
            let node = share_tree(alloc, nodes, tree)?;
            links.push(CaseNode {
                object: *object,
                node,
            })?;
            share_cases(alloc, nodes, rest, links)?;
        }
    }
    Ok(())
}

/// The nodes in the order in which they came.
#[tactic(auto, using(crate::proofs::Appended::appended))]
fn in_order(alloc: Global, nodes: IndexSet<Node>) -> Result<Dag, AllocError>
    ensures { IfOk result (λ d. d ≡ nodes.keys) }
{
    let mut list = Vec::new(alloc);
    for node in nodes {
        list.push(node)?;
    }
    Ok(Sequence::of(list))
}

/// The nodes of a tree: each of its subtrees once, in the order in which a walk that takes children from left to right
/// before their parent first ends it. No two nodes are equal, each child has a smaller number than its parent, and the last
/// node unfolds to the tree; there is one such list (`docs/RULES.md`, "Trees, and which is best"). Equal subtrees are found by hashing.
/// The one error is want of memory.
#[tactic(auto, using(crate::proofs::SharedOnce::shared_is, crate::proofs::SharedOnce::shared_one, crate::proofs::SharedOnce::shared_behind))]
pub fn share(alloc: Global, t: &Tree) -> Result<Dag, AllocError>
    ensures shared { IfOk result (λ d. IsShared (tree_of t.now) (nodes_of d)) }
    ensures only { IfOk result (λ d. (nodes : List Value) → IsShared (tree_of t.now) nodes → nodes ≡ nodes_of d) }
    ensures behind { IfOk result (λ d. AreBehindChildren 1 (nodes_of d)) }
{
    let mut nodes = IndexSet::new(alloc);
    share_tree(alloc, &mut nodes, t)?;
    let dag = in_order(alloc, nodes)?;
    Ok(dag)
}
