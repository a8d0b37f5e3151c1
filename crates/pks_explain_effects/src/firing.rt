//! The effects of an action that is done at a moment.

use pks_explain_lines::{Lines, missing_as_memory};
use pks_progress_interference::effects::effects_of;
use pks_terms::literal::Literal;
use pks_terms::problem::Problem;
use pks_terms::schema::{Effect, Instance};
use pks_terms::term::front;
use std::alloc::{AllocError, Global};

/// An effect with its arguments put in.
#[derive(Clone, Copy)]
pub struct Firing {
    /// The effect.
    pub effect: Effect,
    /// The negation of one of its conditions, which holds at the moment before: it keeps the effect from firing.
    pub denial: Option<Literal>,
}

/// The step that an action makes from one moment to the next.
#[derive(Drop)]
pub struct ActionStep {
    /// The moment before.
    pub before: usize,
    /// The moment after.
    pub after: usize,
    /// The effects in written order.
    pub firings: Vec<Firing>,
}

impl Firing {
    /// The conditions of the effect.
    pub fn conditions(&self) -> &[Literal] {
        let cond = &self.effect.cond;
        front(&cond.literals, cond.n)
    }
}

/// A denied condition that holds at the moment: one with a line, else the first.
fn denial(lines: &Lines<'_>, m: usize, conditions: &[Literal]) -> Option<Literal> {
    let mut first = None;
    for c in conditions {
        let denied = c.negated();
        if lines.line_of(m, &denied).is_some() {
            return Some(denied);
        }
        if first.is_none() && lines.holds(m, &denied) {
            first = Some(denied);
        }
    }
    first
}

/// The effect with the instance's arguments, at the moment.
fn firing_of(lines: &Lines<'_>, m: usize, i: &Instance, e: &Effect) -> Firing {
    let effect = e.at(i);
    let denial = denial(lines, m, front(&effect.cond.literals, effect.cond.n));
    Firing { effect, denial }
}

/// The effects with the instance's arguments, at the moment.
fn firings(
    alloc: Global,
    lines: &Lines<'_>,
    m: usize,
    i: &Instance,
    written: &[Effect],
) -> Result<Vec<Firing>, AllocError> {
    let mut firings = Vec::new(alloc);
    for e in written {
        firings.push(firing_of(lines, m, i, e))?;
    }
    Ok(firings)
}

/// The step that the action makes from the moment to the next. The error is want of memory.
pub fn step_of(
    alloc: Global,
    p: &Problem<'_>,
    lines: &Lines<'_>,
    before: usize,
    i: &Instance,
) -> Result<ActionStep, AllocError> {
    let Some(after) = before.checked_add(1) else {
        return Err(missing_as_memory());
    };
    let firings = firings(alloc, lines, before, i, effects_of(p, i).written)?;
    Ok(ActionStep {
        before,
        after,
        firings,
    })
}
