//! The text of the nodes of a plan.

ghost use Rattle.std.specs.Prelude.{◌≡◌, ◌≤◌, ◌<◌, ◌+◌, ◌^◌, ◌++◌, ◌∷◌, [], map, length, codes, decimal, unwrap_or, IfOk, OnOk};
ghost use Rattle.pks_terms.specs.Sets.{Each};
ghost use Rattle.pks_terms.specs.Nodes.{at_number, deepest, node_depth, last_depth, node_text, shared_text};
ghost use Rattle.pks_terms.specs.Printed.{line};
ghost use Rattle.pks_terms.specs.Views.{names_of};
ghost use Rattle.pks_dag.specs.NodeViews.{link_of, node_of, nodes_of};
ghost use Rattle.pks_dag.specs.Lines.{links_text, node_lines};

use crate::nodes::{CaseNode, Dag, Node};
use pks_plan::{print_conj, print_instance, print_term, put, put_number};
use pks_terms::problem::Problem;
use pks_terms::term::Term;
use std::alloc::{AllocError, Global};

/// The depth of the node with this number, or 0 where there is none.
fn depth_at(depths: &[u64], number: u64) -> u64
    requires { Each (λ n. n ≤ length depths.now) depths.now }
    ensures depth { result ≡ unwrap_or (at_number depths.now number) 0 }
    ensures within { result ≤ length depths.now }
{
    if number == 0 {
        return 0;
    }
    match depths.get((number - 1) as usize) {
        Some(depth) => *depth,
        None => 0,
    }
}

/// The greatest depth of these nodes.
fn deepest(depths: &[u64], children: &[u64]) -> u64
    requires { Each (λ n. n ≤ length depths.now) depths.now }
    ensures depth { result ≡ deepest depths.now children.now }
    ensures within { result ≤ length depths.now }
{
    match children {
        [] => 0,
        [child, others @ ..] => depth_at(depths, *child).max(deepest(depths, others)),
    }
}

/// The greatest depth of the nodes of cases.
fn deepest_case(depths: &[u64], cases: &[CaseNode]) -> u64
    requires { Each (λ n. n ≤ length depths.now) depths.now }
    ensures depth { result ≡ deepest depths.now (map (λ one. one.1) (map link_of cases.now)) }
    ensures within { result ≤ length depths.now }
{
    match cases {
        [] => 0,
        [one, others @ ..] => depth_at(depths, one.node).max(deepest_case(depths, others)),
    }
}

/// The depth of a node, by those of the nodes before it.
fn depth_of(depths: &[u64], node: &Node) -> u64
    requires few { length depths.now + 1 < 2 ^ 64 }
    requires shallow { Each (λ n. n ≤ length depths.now) depths.now }
    ensures depth { result ≡ node_depth depths.now (node_of node.now) }
    ensures within { result ≤ length depths.now + 1 }
{
    match node {
        Node::Goal | Node::Impossible => 0,
        Node::Act { next, .. } => deepest(depths, &[*next]) + 1,
        Node::Branch { yes, no, .. } => deepest(depths, &[*yes, *no]) + 1,
        Node::Cases { cases, .. } => deepest_case(depths, cases.as_slice()) + 1,
    }
}

/// The depth of the last node.
fn last_depth(alloc: Global, nodes: &[Node]) -> Result<u64, AllocError>
    ensures { IfOk result (λ n. n ≡ last_depth [] 0 (nodes_of nodes.now)) }
{
    let mut depths = Vec::new(alloc);
    let mut last = 0;
    for node in nodes {
        last = depth_of(depths.as_slice(), node);
        depths.push(last)?;
    }
    Ok(last)
}

/// The objects and the numbers of their nodes.
#[tactic(auto, using(crate::proofs::Appended::appended), unfolding(pks_terms::specs::Printed::term_text))]
fn print_links(p: &Problem<'_>, cases: &[CaseNode], out: &mut Vec<u8>) -> Result<(), AllocError>
    ensures { OnOk result (out.new.items ≡ out.old.items ++ links_text (names_of p.now) (map link_of cases.now)) }
{
    for one in cases {
        put(out, b" ")?;
        print_term(p, &Term::Obj(one.object), out)?;
        put(out, b" ")?;
        put_number(out, one.node)?;
    }
    Ok(())
}

/// What a node is, and the numbers of its children.
#[tactic(auto, using(crate::proofs::Appended::appended))]
fn print_node(p: &Problem<'_>, node: &Node, out: &mut Vec<u8>) -> Result<(), AllocError>
    ensures { OnOk result (out.new.items ≡ out.old.items ++ node_text (names_of p.now) (node_of node.now)) }
{
    match node {
        Node::Goal => put(out, b"goal")?,
        Node::Impossible => put(out, b"impossible")?,
        Node::Act { step, next } => {
            print_instance(p, step, out)?;
            put(out, b" then ")?;
            put_number(out, *next)?;
        }
        Node::Branch { test, yes, no } => {
            put(out, b"branch ")?;
            print_conj(p, test, out)?;
            put(out, b" true ")?;
            put_number(out, *yes)?;
            put(out, b" false ")?;
            put_number(out, *no)?;
        }
        Node::Cases { term, cases } => {
            put(out, b"cases ")?;
            print_term(p, term, out)?;
            print_links(p, cases.as_slice(), out)?;
        }
    }
    Ok(())
}

/// The line of each node, behind its number.
#[tactic(auto, using(crate::proofs::Appended::appended))]
fn print_nodes(p: &Problem<'_>, nodes: &[Node], out: &mut Vec<u8>) -> Result<(), AllocError>
    ensures { OnOk result (out.new.items ≡ out.old.items ++ node_lines (names_of p.now) 1 (nodes_of nodes.now)) }
{
    for i in 0..nodes.len() {
        put_number(out, i as u64 + 1)?;
        put(out, b" ")?;
        print_node(p, &nodes[i], out)?;
        put(out, b"\n")?;
    }
    Ok(())
}

/// The first line.
#[tactic(auto, using(crate::proofs::Appended::appended))]
fn print_head(depth: u64, count: usize, out: &mut Vec<u8>) -> Result<(), AllocError>
    ensures { OnOk result (out.new.items ≡ out.old.items ++ line (codes "plan depth " ++ (decimal depth ++ (codes " nodes " ++ decimal count)))) }
{
    put(out, b"plan depth ")?;
    put_number(out, depth)?;
    put(out, b" nodes ")?;
    put_number(out, count as u64)?;
    put(out, b"\n")?;
    Ok(())
}

/// The text of nodes: a line with the depth of the last and how many there are, and then a line for each, behind its number
/// (`docs/FORMAT.md`, "Printed texts"). The one error is want of memory.
#[tactic(auto, unfolding(pks_terms::specs::Nodes::shared_text))]
pub fn print_dag(alloc: Global, p: &Problem<'_>, d: &Dag) -> Result<Vec<u8>, AllocError>
    ensures { IfOk result (λ text. text.items ≡ shared_text (names_of p.now) (nodes_of d.now)) }
{
    let nodes = d.as_slice();
    let depth = last_depth(alloc, nodes)?;
    let mut text = Vec::new(alloc);
    print_head(depth, nodes.len(), &mut text)?;
    print_nodes(p, nodes, &mut text)?;
    Ok(text)
}
