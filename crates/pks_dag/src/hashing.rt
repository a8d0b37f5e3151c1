//! What is hashed of a node.

ghost use Rattle.std.specs.Prelude.{◌≡◌, fold, map};
ghost use Rattle.pks_terms.specs.Views.{inner_of, terms_of, literals_in};
ghost use Rattle.pks_dag.specs.NodeViews.{link_of, node_of};
ghost use Rattle.pks_dag.specs.Writes.{inners_written, terms_written, literals_written, links_written, node_written};

use crate::nodes::{CaseNode, Node};
use pks_terms::literal::Literal;
use pks_terms::term::{Inner, Term, front};
use std::hash::Hasher;

fn write_inners<H: Hasher>(ts: &[Inner], state: &mut H)
    ensures { state.new ≡ fold H.write state.old (inners_written (map inner_of ts.now)) }
{
    for t in ts {
        state.write_u16(t.number());
    }
}

fn write_terms<H: Hasher>(ts: &[Term], state: &mut H)
    ensures { state.new ≡ fold H.write state.old (terms_written (terms_of ts.now)) }
{
    for t in ts {
        state.write_u16(t.number());
    }
}

fn write_literals<H: Hasher>(literals: &[Literal], state: &mut H)
    ensures { state.new ≡ fold H.write state.old (literals_written (literals_in literals.now)) }
{
    for l in literals {
        let arguments = l.atom.arguments();
        write_terms(arguments.terms(), state);
    }
}

fn write_links<H: Hasher>(cases: &[CaseNode], state: &mut H)
    ensures { state.new ≡ fold H.write state.old (links_written (map link_of cases.now)) }
{
    for one in cases {
        state.write_u16(one.object.0);
        state.write_u64(one.node);
    }
}

/// Writes what tells most nodes apart: what they are about, and the numbers of their children.
pub(crate) fn write_node<H: Hasher>(node: &Node, state: &mut H)
    ensures { state.new ≡ fold H.write state.old (node_written (node_of node.now)) }
{
    match node {
        Node::Goal => state.write_u8(0),
        Node::Impossible => state.write_u8(1),
        Node::Act { step, next } => {
            state.write_u8(step.act.0);
            write_inners(front(&step.args, step.n), state);
            state.write_u64(*next);
        }
        Node::Branch { test, yes, no } => {
            write_literals(front(&test.literals, test.n), state);
            state.write_u64(*yes);
            state.write_u64(*no);
        }
        Node::Cases { term, cases } => {
            write_terms(&[*term], state);
            write_links(cases.as_slice(), state);
        }
    }
}
