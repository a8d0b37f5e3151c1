//! Effects that are barred from doing something, with the literals on which that rests. `docs/REASONS.md` says when.

use crate::doing::{EffectChange, is_alike, values_differ, writing};
use crate::firing::{ActionStep, Firing};
use crate::parts::Parts;
use pks_explain_lines::{Lines, unequal};
use pks_terms::literal::Literal;
use pks_terms::term::{Term, are_two_objects};
use std::alloc::AllocError;

/// A step, and the lines of what stands at its moments. What it is asked gives the literals on which its yes rests.
#[derive(Clone, Copy)]
pub struct Tests<'a, 'p> {
    /// The lines.
    pub(crate) lines: &'a Lines<'p>,
    /// The step.
    pub(crate) step: &'a ActionStep,
}

/// What keeps an effect from doing something.
#[derive(Clone, Copy)]
pub(crate) enum Bar {
    /// It never does it.
    Never,
    /// It doesn't do it since the literal holds.
    By(Literal),
    /// Nothing.
    Open,
}

/// Notes the literal of the bar, and answers whether there is a bar.
pub(crate) fn note(bar: Bar, noted: &mut Vec<Literal>) -> Result<bool, AllocError> {
    match bar {
        Bar::Never => Ok(true),
        Bar::Open => Ok(false),
        Bar::By(l) => {
            noted.push(l)?;
            Ok(true)
        }
    }
}

/// Whether the places have two different objects.
fn have_two_objects(t: &Option<Term>, u: &Option<Term>) -> bool {
    match (t, u) {
        (Some(t), Some(u)) => are_two_objects(t, u),
        _ => false,
    }
}

/// Whether at some place the terms are two different objects.
fn some_two_objects(x: &Parts, y: &Parts) -> bool {
    have_two_objects(&x[0], &y[0])
        || have_two_objects(&x[1], &y[1])
        || have_two_objects(&x[2], &y[2])
}

impl<'a, 'p> Tests<'a, 'p> {
    /// The tests of the step.
    pub fn of(lines: &'a Lines<'p>, step: &'a ActionStep) -> Tests<'a, 'p> {
        Tests { lines, step }
    }
}

impl Tests<'_, '_> {
    /// Whether the literal holds at the moment before.
    fn holds(&self, l: &Literal) -> bool {
        self.lines.holds(self.step.before, l)
    }

    /// Whether the literal has a line at the moment before.
    fn has_line(&self, l: &Literal) -> bool {
        self.lines.line_of(self.step.before, l).is_some()
    }

    /// The literal, where it holds at the moment before.
    fn where_it_holds(&self, l: Literal) -> Option<Literal> {
        if self.holds(&l) { Some(l) } else { None }
    }

    /// The difference of the terms, where it holds at the moment before.
    fn difference(&self, t: &Option<Term>, u: &Option<Term>) -> Option<Literal> {
        match (t, u) {
            (Some(t), Some(u)) => self.where_it_holds(unequal(t, u)),
            _ => None,
        }
    }

    /// Of these literals one that is noted or has a line, else the first.
    fn nearest(&self, candidates: &[Option<Literal>; 4], noted: &[Literal]) -> Option<Literal> {
        let mut first = None;
        for candidate in candidates {
            if let Some(l) = candidate {
                if noted.contains(l) || self.has_line(l) {
                    return Some(*l);
                }
                if first.is_none() {
                    first = Some(*l);
                }
            }
        }
        first
    }

    /// What bars the effect at which both are the same but for their terms: a condition that is denied, or a difference.
    fn bar_by_terms(&self, firing: &Firing, x: &Parts, y: &Parts, noted: &[Literal]) -> Bar {
        let candidates = [
            firing.denial,
            self.difference(&x[0], &y[0]),
            self.difference(&x[1], &y[1]),
            self.difference(&x[2], &y[2]),
        ];
        match self.nearest(&candidates, noted) {
            Some(l) => Bar::By(l),
            None => Bar::Open,
        }
    }

    /// What bars the effect, which does the one, from doing the other with whatever value.
    fn bar_place(
        &self,
        firing: &Firing,
        own: &EffectChange,
        other: &EffectChange,
        noted: &[Literal],
    ) -> Bar {
        if !is_alike(own, other) || some_two_objects(&own.parts, &other.parts) {
            return Bar::Never;
        }
        self.bar_by_terms(firing, &own.parts, &other.parts, noted)
    }

    /// The difference of the values where that has a line, else what bars the effect otherwise, else the difference.
    fn bar_or_value(&self, bar: Bar, apart: &Literal) -> Bar {
        if self.has_line(apart) {
            return Bar::By(*apart);
        }
        match bar {
            Bar::Open if self.holds(apart) => Bar::By(*apart),
            _ => bar,
        }
    }

    /// What bars the effect from doing it, beside what is noted.
    pub(crate) fn bar(&self, firing: &Firing, doing: &EffectChange, noted: &[Literal]) -> Bar {
        let Some(own) = writing(&firing.effect.target) else {
            return Bar::Never;
        };
        let bar = self.bar_place(firing, &own, doing, noted);
        match values_differ(&own, doing) {
            Some(apart) => self.bar_or_value(bar, &apart),
            None => bar,
        }
    }

    /// Whether each of these effects is barred from doing it. What bars them is noted.
    pub(crate) fn are_barred(
        &self,
        firings: &[Firing],
        doing: &Option<EffectChange>,
        noted: &mut Vec<Literal>,
    ) -> Result<bool, AllocError> {
        let Some(doing) = doing else {
            return Ok(true);
        };
        for firing in firings {
            let bar = self.bar(firing, doing, noted.as_slice());
            if !note(bar, noted)? {
                return Ok(false);
            }
        }
        Ok(true)
    }

    /// Whether the conditions of the effect hold at the moment before.
    pub fn has_conditions(&self, firing: &Firing) -> bool {
        for c in firing.conditions() {
            if !self.holds(c) {
                return false;
            }
        }
        true
    }
}
