//! Settling: what two neighbouring moments tell each other. `docs/RULES.md`, "Settling", has the rules.

use crate::citing::{cite, join_made};
use crate::keeping::{bring_back, keep_literals};
use pks_explain_effects::{ActionStep, Firing, TargetForm, Tests, step_of};
use pks_explain_lines::{Lines, missing_as_memory};
use pks_proof_lines::Reason;
use pks_terms::literal::Literal;
use pks_terms::problem::Problem;
use pks_terms::schema::Instance;
use std::alloc::{AllocError, Global};

/// The conditions of an effect that don't hold: how many there are, and the place of the last.
#[derive(Clone, Copy)]
struct OpenConditions {
    count: usize,
    last: usize,
}

/// An effect of a step, in one of its forms.
#[derive(Clone, Copy)]
struct Told<'a> {
    /// The step.
    step: &'a ActionStep,
    /// Its place among the effects of the step.
    k: usize,
    /// Its conditions.
    conditions: &'a [Literal],
    /// Those that don't hold.
    open: OpenConditions,
    /// The form.
    form: &'a TargetForm,
}

/// The conditions that don't hold at the moment.
fn open_at(lines: &Lines<'_>, m: usize, conditions: &[Literal]) -> OpenConditions {
    let mut count: usize = 0;
    let mut last = 0;
    for (n, c) in conditions.iter().enumerate() {
        if !lines.holds(m, c) {
            count = count.saturating_add(1);
            last = n;
        }
    }
    OpenConditions { count, last }
}

/// Whether no condition but the n-th is open.
fn no_other(open: &OpenConditions, n: usize) -> bool {
    open.count == 0 || (open.count == 1 && open.last == n)
}

/// Adds the conditions but for the n-th.
fn add_others(conditions: &[Literal], n: usize, to: &mut Vec<Literal>) -> Result<(), AllocError> {
    for (k, c) in conditions.iter().enumerate() {
        if k != n {
            to.push(*c)?;
        }
    }
    Ok(())
}

/// The literals, and the conditions but for the n-th.
fn with_others(
    alloc: Global,
    by: &[Literal],
    conditions: &[Literal],
    n: usize,
) -> Result<Vec<Literal>, AllocError> {
    let mut all = Vec::from_slice(alloc, by)?;
    add_others(conditions, n, &mut all)?;
    Ok(all)
}

/// Whether one of the conditions isn't known at the moment.
fn some_unknown(lines: &Lines<'_>, m: usize, conditions: &[Literal]) -> bool {
    for c in conditions {
        if !lines.knows(m, c) {
            return true;
        }
    }
    false
}

/// All moments are settled, which these actions lead along, and their groups and regions in normal form.
pub(crate) fn settle(
    alloc: Global,
    p: &Problem<'_>,
    lines: &mut Lines<'_>,
    deeds: &[Instance],
) -> Result<(), AllocError> {
    settle_rounds(alloc, p, lines, deeds)?;
    for m in 0..lines.moments() {
        lines.tidy(alloc, m)?;
    }
    Ok(())
}

/// Rounds until one brings nothing.
fn settle_rounds(
    alloc: Global,
    p: &Problem<'_>,
    lines: &mut Lines<'_>,
    deeds: &[Instance],
) -> Result<(), AllocError> {
    for _ in 0..u64::MAX {
        let before = lines.count();
        settle_round(alloc, p, lines, deeds)?;
        if lines.count() == before {
            break;
        }
    }
    Ok(())
}

/// Each step, from the last back and then forward.
fn settle_round(
    alloc: Global,
    p: &Problem<'_>,
    lines: &mut Lines<'_>,
    deeds: &[Instance],
) -> Result<(), AllocError> {
    let count = deeds.len();
    for k in 0..count {
        settle_at(alloc, p, lines, deeds, count - 1 - k)?;
    }
    for m in 0..count {
        settle_at(alloc, p, lines, deeds, m)?;
    }
    Ok(())
}

/// The step from the moment to the next, both of which are closed again.
fn settle_at(
    alloc: Global,
    p: &Problem<'_>,
    lines: &mut Lines<'_>,
    deeds: &[Instance],
    m: usize,
) -> Result<(), AllocError> {
    let Some(i) = deeds.get(m) else {
        return Err(missing_as_memory());
    };
    let step = step_of(alloc, p, lines, m, i)?;
    settle_closed(alloc, lines, &step)
}

/// The two moments of the step, which are closed again.
fn settle_closed(
    alloc: Global,
    lines: &mut Lines<'_>,
    step: &ActionStep,
) -> Result<(), AllocError> {
    settle_step(alloc, lines, step)?;
    lines.close(alloc, step.before)?;
    lines.close(alloc, step.after)
}

/// What the two moments of the step tell each other.
fn settle_step(alloc: Global, lines: &mut Lines<'_>, step: &ActionStep) -> Result<(), AllocError> {
    keep_literals(alloc, lines, step)?;
    bring_back(alloc, lines, step)?;
    for (k, firing) in step.firings.as_slice().iter().enumerate() {
        settle_effect(alloc, lines, step, k, firing)?;
    }
    Ok(())
}

/// What the k-th effect tells, in each of its forms.
fn settle_effect(
    alloc: Global,
    lines: &mut Lines<'_>,
    step: &ActionStep,
    k: usize,
    firing: &Firing,
) -> Result<(), AllocError> {
    let conditions = firing.conditions();
    let open = open_at(lines, step.before, conditions);
    let forms = Tests::of(lines, step).target_forms(alloc, &firing.effect.target)?;
    for form in forms.as_slice() {
        let told = Told {
            step,
            k,
            conditions,
            open,
            form,
        };
        settle_form(alloc, lines, &told)?;
    }
    Ok(())
}

/// What the effect tells in this form.
fn settle_form(alloc: Global, lines: &mut Lines<'_>, told: &Told<'_>) -> Result<(), AllocError> {
    settle_fired(alloc, lines, told)?;
    settle_needed(alloc, lines, told)?;
    settle_failed(alloc, lines, told)
}

/// The effect fires: what it writes is so after the action.
fn settle_fired(alloc: Global, lines: &mut Lines<'_>, told: &Told<'_>) -> Result<(), AllocError> {
    let literal = &told.form.literal;
    if told.open.count != 0 || lines.knows(told.step.after, literal) {
        return Ok(());
    }
    let tests = Tests::of(lines, told.step);
    let Some(by) = tests.made_in(alloc, told.k, told.conditions, told.form)? else {
        return Ok(());
    };
    join_made(alloc, lines, told.step, literal, by.as_slice())
}

/// Whether a condition isn't known before the action, and what the effect writes is so after it and wasn't before.
fn is_needed(lines: &Lines<'_>, told: &Told<'_>, denied: &Literal) -> bool {
    some_unknown(lines, told.step.before, told.conditions)
        && lines.holds(told.step.before, denied)
        && lines.holds(told.step.after, &told.form.literal)
}

/// What it rests on that no other effect makes so what the effect writes, which wasn't so before.
fn sole(
    alloc: Global,
    lines: &Lines<'_>,
    told: &Told<'_>,
    denied: &Literal,
) -> Result<Option<Vec<Literal>>, AllocError> {
    let form = told.form;
    let tests = Tests::of(lines, told.step);
    let Some(mut by) = tests.sole(alloc, told.k, &form.target, form.by.as_slice())? else {
        return Ok(None);
    };
    by.push(*denied)?;
    Ok(Some(by))
}

/// The effect must have fired: it alone makes so what is so after the action and wasn't before. Then its conditions were
/// true.
fn settle_needed(alloc: Global, lines: &mut Lines<'_>, told: &Told<'_>) -> Result<(), AllocError> {
    let denied = told.form.literal.negated();
    if !is_needed(lines, told, &denied) {
        return Ok(());
    }
    let Some(by) = sole(alloc, lines, told, &denied)? else {
        return Ok(());
    };
    join_needed(alloc, lines, told, by.as_slice())
}

/// The conditions come in before the action, since the effect must have fired, which rests on these.
fn join_needed(
    alloc: Global,
    lines: &mut Lines<'_>,
    told: &Told<'_>,
    by: &[Literal],
) -> Result<(), AllocError> {
    let step = told.step;
    let after = lines.show(alloc, step.after, &told.form.literal)?;
    let rest = cite(alloc, lines, step.before, by, &[after])?;
    join_conditions(alloc, lines, step.before, told.conditions, rest.as_slice())
}

/// The conditions come in at the moment, by these lines.
fn join_conditions(
    alloc: Global,
    lines: &mut Lines<'_>,
    m: usize,
    conditions: &[Literal],
    rest: &[u32],
) -> Result<(), AllocError> {
    for c in conditions {
        lines.join_by(alloc, m, c, Reason::Must, rest, &[])?;
    }
    Ok(())
}

/// Whether one condition alone, or none, is open, and what the effect makes so isn't so after the action.
fn is_failed(lines: &Lines<'_>, told: &Told<'_>, denied: &Literal) -> bool {
    0 < told.conditions.len() && told.open.count <= 1 && lines.holds(told.step.after, denied)
}

/// The effect cannot have fired: what it makes so isn't so after the action. Then, where all conditions but one hold, that
/// one is false.
fn settle_failed(alloc: Global, lines: &mut Lines<'_>, told: &Told<'_>) -> Result<(), AllocError> {
    let form = told.form;
    let denied = form.literal.negated();
    if !is_failed(lines, told, &denied) {
        return Ok(());
    }
    let tests = Tests::of(lines, told.step);
    let Some(by) = tests.lasting(alloc, told.k, &form.target, form.by.as_slice())? else {
        return Ok(());
    };
    join_all_denied(alloc, lines, told, &denied, by.as_slice())
}

/// Each condition was false, where all others held, since the effect cannot have fired.
fn join_all_denied(
    alloc: Global,
    lines: &mut Lines<'_>,
    told: &Told<'_>,
    denied: &Literal,
    by: &[Literal],
) -> Result<(), AllocError> {
    for (n, c) in told.conditions.iter().enumerate() {
        let l = c.negated();
        if no_other(&told.open, n) && !lines.knows(told.step.before, &l) {
            let need = with_others(alloc, by, told.conditions, n)?;
            join_denied(alloc, lines, told.step, denied, &l, need.as_slice())?;
        }
    }
    Ok(())
}

/// The literal was so before the action, since the effect cannot have fired: what it makes so is denied after it.
fn join_denied(
    alloc: Global,
    lines: &mut Lines<'_>,
    step: &ActionStep,
    denied: &Literal,
    l: &Literal,
    need: &[Literal],
) -> Result<(), AllocError> {
    let after = lines.show(alloc, step.after, denied)?;
    lines.join_by(alloc, step.before, l, Reason::Cannot, &[after], need)
}
