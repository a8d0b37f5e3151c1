//! Literals and groups that an action keeps. `docs/RULES.md`, "Progression" and "Settling", has the rules.

use crate::citing::{cite, put};
use pks_explain_effects::{ActionStep, Tests};
use pks_explain_lines::{Joining, Lines};
use pks_proof_lines::{Fact, Reason};
use pks_terms::group::Group;
use pks_terms::literal::Literal;
use std::alloc::{AllocError, Global};

/// The way that known literals take from one moment of a step to the other.
#[derive(Clone, Copy)]
struct Way {
    from: usize,
    to: usize,
    /// Whether it leads back. Then the negations must not be spoiled.
    is_back: bool,
    reason: Reason,
}

/// What the action must not spoil, so that the literal takes the way.
fn what_must_stay(way: &Way, l: &Literal) -> Literal {
    if way.is_back { l.negated() } else { *l }
}

/// Puts the literal, which has this line where the way begins, if it takes the way.
fn put_carried(
    alloc: Global,
    lines: &mut Lines<'_>,
    step: &ActionStep,
    way: &Way,
    known: &(Literal, u32),
    to: &mut Vec<Joining>,
) -> Result<(), AllocError> {
    let tests = Tests::of(lines, step);
    let Some(by) = tests.keeping(alloc, &what_must_stay(way, &known.0))? else {
        return Ok(());
    };
    let cites = cite(alloc, lines, step.before, by.as_slice(), &[known.1])?;
    put(&known.0, way.reason, cites, to)
}

/// Those that take the way, of the literals that have these lines where it begins and aren't known where it ends.
fn joinings_of(
    alloc: Global,
    lines: &mut Lines<'_>,
    step: &ActionStep,
    way: &Way,
    known: &[(Literal, u32)],
) -> Result<Vec<Joining>, AllocError> {
    let mut carried = Vec::new(alloc);
    for one in known {
        if !lines.knows(way.to, &one.0) {
            put_carried(alloc, lines, step, way, one, &mut carried)?;
        }
    }
    Ok(carried)
}

/// The known literals take the way.
fn carry(
    alloc: Global,
    lines: &mut Lines<'_>,
    step: &ActionStep,
    way: &Way,
) -> Result<(), AllocError> {
    let known = lines.known(alloc, way.from)?;
    let carried = joinings_of(alloc, lines, step, way, known.as_slice())?;
    lines.join_all(alloc, way.to, carried)
}

/// The known literals that the action doesn't spoil stay.
pub(crate) fn keep_literals(
    alloc: Global,
    lines: &mut Lines<'_>,
    step: &ActionStep,
) -> Result<(), AllocError> {
    let way = Way {
        from: step.before,
        to: step.after,
        is_back: false,
        reason: Reason::Keep,
    };
    carry(alloc, lines, step, &way)
}

/// The literals known after the action that it doesn't make so were so before it.
pub(crate) fn bring_back(
    alloc: Global,
    lines: &mut Lines<'_>,
    step: &ActionStep,
) -> Result<(), AllocError> {
    let way = Way {
        from: step.after,
        to: step.before,
        is_back: true,
        reason: Reason::Back,
    };
    carry(alloc, lines, step, &way)
}

/// The group stands at the moment, by a line that rests on these.
fn put_group(
    alloc: Global,
    lines: &mut Lines<'_>,
    m: usize,
    g: &Group,
    cites: Vec<u32>,
) -> Result<(), AllocError> {
    let fact = Fact::Kx(g.copy()?);
    let line = lines.add_line(alloc, m, fact, Reason::Keep, cites)?;
    lines.add_group(alloc, m, g.copy()?, line)
}

/// The group, which has this line before the action, stays where the action spoils none of it.
fn keep_group(
    alloc: Global,
    lines: &mut Lines<'_>,
    step: &ActionStep,
    g: &Group,
    line: u32,
) -> Result<(), AllocError> {
    let Some(by) = Tests::of(lines, step).keeping_group(alloc, g)? else {
        return Ok(());
    };
    let cites = cite(alloc, lines, step.before, by.as_slice(), &[line])?;
    put_group(alloc, lines, step.after, g, cites)
}

/// The groups of which the action spoils none stay.
pub(crate) fn keep_groups(
    alloc: Global,
    lines: &mut Lines<'_>,
    step: &ActionStep,
) -> Result<(), AllocError> {
    let groups = lines.groups(alloc, step.before)?;
    for one in groups.as_slice() {
        keep_group(alloc, lines, step, &one.0, one.1)?;
    }
    Ok(())
}
