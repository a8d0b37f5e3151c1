//! The way from an atom that a region shuts out to the region's own terms, and differences of atoms.

use crate::holding::{MOST_ARGUMENTS, argument, pair_at};
use crate::moment::MomentLines;
use crate::normalizing::{LiteralRewrite, TermRewrite, first_of_chain};
use crate::placing::{with_arguments, with_term};
use crate::pushing::push;
use pks_terms::literal::{Literal, Pattern, PredAtom, atom_literal};
use pks_terms::problem::Signature;
use pks_terms::term::{Term, are_two_objects, front};
use std::alloc::{AllocError, Global};

fn fixed_or(p: &Pattern, position: usize, t: &Term) -> Term {
    match front(&p.args, p.n).get(position) {
        Some(Some(u)) => *u,
        _ => *t,
    }
}

/// The atom with the pattern's fixed terms in place of its own.
pub fn with_fixed(a: &PredAtom, p: &Pattern) -> PredAtom {
    with_arguments(
        a,
        &[
            fixed_or(p, 0, &a.args[0]),
            fixed_or(p, 1, &a.args[1]),
            fixed_or(p, 2, &a.args[2]),
        ],
    )
}

/// Whether the atoms have two different objects at this position.
fn are_apart_at(a: &PredAtom, b: &PredAtom, position: usize) -> bool {
    match pair_at(a, b, position) {
        Some((t, u)) => are_two_objects(&t, &u),
        None => false,
    }
}

/// Whether the atoms have two different objects at some position. It takes no memory.
pub fn are_plainly_apart(a: &PredAtom, b: &PredAtom) -> bool {
    for position in 0..MOST_ARGUMENTS {
        if are_apart_at(a, b, position) {
            return true;
        }
    }
    false
}

/// The steps backwards: what was there before each, and its equation, the last step first.
fn backwards(
    alloc: Global,
    t: &Term,
    steps: &[TermRewrite],
) -> Result<Vec<TermRewrite>, AllocError> {
    let mut before = *t;
    let mut back = Vec::new(alloc);
    for step in steps {
        push(
            &mut back,
            TermRewrite {
                term: before,
                by: step.by,
            },
        )?;
        before = step.term;
    }
    back.reverse();
    Ok(back)
}

/// Puts what the atom becomes by the step at this position.
fn put_link(
    a: &mut PredAtom,
    position: usize,
    step: &TermRewrite,
    to: &mut Vec<LiteralRewrite>,
) -> Result<(), AllocError> {
    *a = with_arguments(a, &with_term(&a.args, position, &step.term));
    push(
        to,
        LiteralRewrite {
            literal: atom_literal(a, false),
            equation: step.by.line,
        },
    )
}

/// Puts what the atom becomes by each step at this position.
fn put_links(
    a: &mut PredAtom,
    position: usize,
    steps: &[TermRewrite],
    to: &mut Vec<LiteralRewrite>,
) -> Result<(), AllocError> {
    for step in steps {
        put_link(a, position, step, to)?;
    }
    Ok(())
}

impl MomentLines {
    /// Puts the steps from the normal form of the term up to itself.
    fn put_up(&self, alloc: Global, t: &Term, to: &mut Vec<TermRewrite>) -> Result<(), AllocError> {
        let down = self.steps(alloc, t)?;
        let up = backwards(alloc, t, down.as_slice())?;
        to.extend_from_slice(up.as_slice())
    }

    /// The steps from the one term to the other: down to the normal form of both, and up from it.
    fn steps_to(
        &self,
        alloc: Global,
        t: &Term,
        end: &Term,
    ) -> Result<Vec<TermRewrite>, AllocError> {
        let mut steps = self.steps(alloc, t)?;
        self.put_up(alloc, end, &mut steps)?;
        Ok(steps)
    }

    /// Puts what the atom becomes on its way from its term to the other one at this position.
    fn put_way(
        &self,
        alloc: Global,
        a: &mut PredAtom,
        position: usize,
        end: &Term,
        to: &mut Vec<LiteralRewrite>,
    ) -> Result<(), AllocError> {
        let Some(own) = argument(a, position) else {
            return Ok(());
        };
        if own == *end {
            return Ok(());
        }
        let steps = self.steps_to(alloc, &own, end)?;
        put_links(a, position, steps.as_slice(), to)
    }

    /// Puts what the atom becomes on its way to the other one's terms.
    fn put_ways(
        &self,
        alloc: Global,
        a: &PredAtom,
        fixed: &PredAtom,
        to: &mut Vec<LiteralRewrite>,
    ) -> Result<(), AllocError> {
        let mut now = *a;
        self.put_way(alloc, &mut now, 0, &fixed.args[0], to)?;
        self.put_way(alloc, &mut now, 1, &fixed.args[1], to)?;
        self.put_way(alloc, &mut now, 2, &fixed.args[2], to)
    }

    /// The denial of the atom, and what it becomes on its way to the region's own terms. The error is want of memory.
    pub fn way_to(
        &self,
        alloc: Global,
        a: &PredAtom,
        fixed: &PredAtom,
    ) -> Result<Vec<LiteralRewrite>, AllocError> {
        let mut chain = Vec::new(alloc);
        push(&mut chain, first_of_chain(&atom_literal(a, false)))?;
        self.put_ways(alloc, a, fixed, &mut chain)?;
        Ok(chain)
    }

    /// A difference of the two atoms at some position: one that has a line, or else the first. It takes no memory.
    pub fn difference(&self, s: &Signature, a: &PredAtom, b: &PredAtom) -> Option<Literal> {
        let mut first = None;
        for position in 0..MOST_ARGUMENTS {
            if let Some(l) = self.difference_at(s, a, b, position) {
                if self.line_of(&l).is_some() {
                    return Some(l);
                }
                if first.is_none() {
                    first = Some(l);
                }
            }
        }
        first
    }
}
