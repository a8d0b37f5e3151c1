//! The nodes of a plan whose equal parts stand once.

ghost use Rattle.std.specs.Prelude.{◌≡◌, map};
ghost use Rattle.std.specs.Ordering.{on, is_eq};
ghost use Rattle.std.specs.Cmp.{partial_equiv_from_equiv};
ghost use Rattle.std.specs.Cmp.Lexicographic.{pointwise};
ghost use Rattle.std.proofs.lemmas.Cmp.{on_equiv};
ghost use Rattle.pks_terms.specs.Trees.{instance_cmp};
ghost use Rattle.pks_terms.specs.Views.{instance_of};
ghost use Rattle.pks_dag.specs.NodeViews.{link_of, node_of};
ghost use Rattle.pks_dag.specs.NodeEquality.{same_link, same_node, same_node_is, same_node_equivalence};

use crate::hashing::write_node;
use pks_plan::instance_cmp;
use pks_terms::ids::ObjId;
use pks_terms::literal::Conj;
use pks_terms::schema::Instance;
use pks_terms::sequence::Sequence;
use pks_terms::term::Term;
use std::cmp::Ordering;
use std::hash::{Hash, Hasher};

/// An object and the number of the node for it.
#[derive(Clone, Copy)]
pub struct CaseNode {
    /// The value.
    pub object: ObjId,
    /// The number of what follows for it.
    pub node: u64,
}

/// Objects and the numbers of their nodes, in order.
pub type CaseNodes = Sequence<CaseNode>;

/// A leaf, or an action, a branch or cases with the numbers of the nodes that follow (`docs/RULES.md`, "Trees, and which is best").
/// Nodes are equal where they say the same and have the same numbers.
#[derive(Drop)]
pub enum Node {
    /// The goal is met.
    Goal,
    /// What was assumed can't be.
    Impossible,
    /// An action, and the number of what follows it.
    Act { step: Instance, next: u64 },
    /// A formula, and the numbers of what follows where it is true and where it is false.
    Branch { test: Conj, yes: u64, no: u64 },
    /// A term, and the number of what follows for each value.
    Cases { term: Term, cases: CaseNodes },
}

/// Nodes with numbers from 1 on.
pub type Dag = Sequence<Node>;

/// The same action with the same arguments.
fn same_step(i: &Instance, j: &Instance) -> bool
    ensures { result ≡ is_eq (instance_cmp (instance_of i.now) (instance_of j.now)) }
{
    instance_cmp(i, j) == Ordering::Equal
}

/// Object by object and number by number.
fn same_links(a: &[CaseNode], b: &[CaseNode]) -> bool
    ensures { result ≡ pointwise same_link (map link_of a.now) (map link_of b.now) }
{
    match a {
        [] => b.is_empty(),
        [x, xs @ ..] => match b {
            [] => false,
            [y, ys @ ..] => (x.object.0 == y.object.0 && x.node == y.node) && same_links(xs, ys),
        },
    }
}

impl PartialEq for Node {
    ghost eq = { on node_of same_node };

    ghost laws = { partial_equiv_from_equiv (on_equiv node_of same_node_equivalence) };

    #[tactic(auto, unfolding(pks_terms::specs::Orders::term_eq))]
    fn eq(&self, other: &Node) -> bool {
        match (self, other) {
            (Node::Goal, Node::Goal) => true,
            (Node::Impossible, Node::Impossible) => true,
            (Node::Act { step, next }, Node::Act { step: s, next: n }) => {
                same_step(step, s) && next == n
            }
            (
                Node::Branch { test, yes, no },
                Node::Branch {
                    test: t,
                    yes: y,
                    no: n,
                },
            ) => test == t && (yes == y && no == n),
            (Node::Cases { term, cases }, Node::Cases { term: t, cases: c }) => {
                term == t && same_links(cases.as_slice(), c.as_slice())
            }
            _ => false,
        }
    }
}

impl Eq for Node {
    ghost laws = { on_equiv node_of same_node_equivalence };
}

impl Hash for Node {
    ghost use Rattle.std.proofs.Common.{ap};
    ghost use Rattle.pks_dag.specs.NodeViews.{node_of};
    ghost use Rattle.pks_dag.specs.NodeEquality.{same_node_is};
    ghost use Rattle.pks_dag.specs.Writes.{node_written};

    ghost hash_input = { λ x. node_written (node_of x) };

    ghost respects_eq = { λ x y e. ap node_written (same_node_is (node_of x) (node_of y) e) };

    fn hash<H: Hasher>(&self, state: &mut H) {
        write_node(self, state);
    }
}
