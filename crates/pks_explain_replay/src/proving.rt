//! Proofs of literals that hold at the last moment.

use crate::citing::put;
use crate::numbering::rests_of;
use crate::replaying::Replay;
use pks_explain_effects::{ActionStep, Firing, TargetForm, Tests, step_of};
use pks_explain_lines::{Joining, Lines, missing_as_memory};
use pks_proof_lines::{Fact, Proof, Reason, Turn};
use pks_terms::literal::Literal;
use pks_terms::schema::Instance;
use std::alloc::{AllocError, Global};

/// A line, and on how many it rests.
#[derive(Clone, Copy)]
struct MeasuredLine {
    number: u32,
    size: usize,
}

/// The line of this number, and on how many it rests.
fn measure(alloc: Global, lines: &Lines<'_>, number: u32) -> Result<MeasuredLine, AllocError> {
    let size = rests_of(alloc, lines, number)?.count();
    Ok(MeasuredLine { number, size })
}

/// The line by which the literal, which holds at the moment, is shown, and on how many it rests.
fn show_and_measure(
    alloc: Global,
    lines: &mut Lines<'_>,
    m: usize,
    l: &Literal,
) -> Result<MeasuredLine, AllocError> {
    let number = lines.show(alloc, m, l)?;
    measure(alloc, lines, number)
}

/// The action of the path before which so many come.
fn action_before(path: &[Turn], before: usize) -> Option<Instance> {
    let mut left = before;
    for turn in path {
        if let Turn::Went(i) = turn {
            if left == 0 {
                return Some(*i);
            }
            left -= 1;
        }
    }
    None
}

/// The lines before the action on which it rests that the literal, which holds there, isn't spoiled by it. `None` where it is,
/// or doesn't hold.
fn keeping(
    alloc: Global,
    lines: &mut Lines<'_>,
    step: &ActionStep,
    l: &Literal,
) -> Result<Option<Vec<u32>>, AllocError> {
    if !lines.holds(step.before, l) {
        return Ok(None);
    }
    let Some(by) = Tests::of(lines, step).keeping(alloc, l)? else {
        return Ok(None);
    };
    let cites = lines.show_all(alloc, step.before, by.as_slice())?;
    Ok(Some(cites))
}

/// An effect of an action at its place among them, whose conditions hold.
#[derive(Clone, Copy)]
struct FiringEffect<'a> {
    k: usize,
    firing: &'a Firing,
}

/// Puts the way to have what the effect writes in this form, where no later one undoes it.
fn put_form(
    alloc: Global,
    lines: &mut Lines<'_>,
    step: &ActionStep,
    effect: &FiringEffect<'_>,
    form: &TargetForm,
    to: &mut Vec<Joining>,
) -> Result<(), AllocError> {
    let tests = Tests::of(lines, step);
    let conditions = effect.firing.conditions();
    let Some(by) = tests.made_in(alloc, effect.k, conditions, form)? else {
        return Ok(());
    };
    let cites = lines.show_all(alloc, step.before, by.as_slice())?;
    put(&form.literal, Reason::Effect, cites, to)
}

/// Puts the ways to have the literal by the effect.
fn put_effect(
    alloc: Global,
    lines: &mut Lines<'_>,
    step: &ActionStep,
    effect: &FiringEffect<'_>,
    l: &Literal,
    to: &mut Vec<Joining>,
) -> Result<(), AllocError> {
    let target = &effect.firing.effect.target;
    let forms = Tests::of(lines, step).target_forms(alloc, target)?;
    for form in forms.as_slice() {
        if form.literal == *l {
            put_form(alloc, lines, step, effect, form, to)?;
        }
    }
    Ok(())
}

/// Puts the ways to have the literal by an effect.
fn put_effects(
    alloc: Global,
    lines: &mut Lines<'_>,
    step: &ActionStep,
    l: &Literal,
    to: &mut Vec<Joining>,
) -> Result<(), AllocError> {
    for (k, firing) in step.firings.as_slice().iter().enumerate() {
        if Tests::of(lines, step).has_conditions(firing) {
            put_effect(alloc, lines, step, &FiringEffect { k, firing }, l, to)?;
        }
    }
    Ok(())
}

/// The line of the literal by this way, and on how many it rests.
fn found_by(
    alloc: Global,
    lines: &mut Lines<'_>,
    m: usize,
    way: &Joining,
) -> Result<MeasuredLine, AllocError> {
    let cites = Vec::from_slice(alloc, way.cites.as_slice())?;
    let number = lines.add_line(alloc, m, Fact::Lit(way.literal), way.reason, cites)?;
    measure(alloc, lines, number)
}

/// Of two lines the one that rests on fewer, or else the first.
fn better(first: MeasuredLine, second: MeasuredLine) -> MeasuredLine {
    if second.size < first.size {
        second
    } else {
        first
    }
}

/// The line that rests on the fewest: the one at hand, or the first of those by these ways.
fn best_of(
    alloc: Global,
    lines: &mut Lines<'_>,
    m: usize,
    shown: MeasuredLine,
    ways: &[Joining],
) -> Result<u32, AllocError> {
    let mut best = shown;
    for way in ways {
        best = better(best, found_by(alloc, lines, m, way)?);
    }
    Ok(best.number)
}

impl Replay<'_, '_> {
    /// A proof of the literal at the last moment: lines in the order in which they were found, the last of which says so, and
    /// all those on which it rests. It is for literals that hold there. The error is want of memory, or a line that isn't found.
    pub fn proof_of(&mut self, alloc: Global, l: &Literal) -> Result<Proof, AllocError> {
        let m = self.last_moment()?;
        let best = self.best_line(alloc, m, l)?;
        let rests = rests_of(alloc, &self.lines, best)?;
        rests.proof(alloc, self.lines.lines())
    }

    /// The step that leads to the moment.
    fn step_to(&self, alloc: Global, m: usize) -> Result<ActionStep, AllocError> {
        let Some(before) = m.checked_sub(1) else {
            return Err(missing_as_memory());
        };
        let Some(i) = action_before(self.path.as_slice(), before) else {
            return Err(missing_as_memory());
        };
        step_of(alloc, self.problem, &self.lines, before, &i)
    }

    /// A line of a literal that holds at the moment: of those that are had by showing it, by keeping it from the moment before,
    /// and by an effect, the one that rests on the fewest.
    fn best_line(&mut self, alloc: Global, m: usize, l: &Literal) -> Result<u32, AllocError> {
        let shown = show_and_measure(alloc, &mut self.lines, m, l)?;
        if m == 0 || shown.size <= 2 {
            return Ok(shown.number);
        }
        let step = self.step_to(alloc, m)?;
        let mut ways = Vec::new(alloc);
        if let Some(mut cites) = keeping(alloc, &mut self.lines, &step, l)? {
            cites.push(self.best_line(alloc, m - 1, l)?)?;
            put(l, Reason::Keep, cites, &mut ways)?;
        }
        put_effects(alloc, &mut self.lines, &step, l, &mut ways)?;
        best_of(alloc, &mut self.lines, m, shown, ways.as_slice())
    }
}
