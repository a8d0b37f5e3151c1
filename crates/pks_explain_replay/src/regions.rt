//! Closed regions at an action: those that it keeps, with what comes into them, and those that it clears.

use crate::citing::cite;
use pks_explain_effects::{ActionStep, Staying, Tests};
use pks_explain_lines::{Lines, missing_as_memory};
use pks_lcw::{AtomSet, Entry};
use pks_proof_lines::{Fact, Reason};
use pks_terms::literal::{Literal, Pattern, PredAtom};
use pks_terms::schema::Target;
use std::alloc::{AllocError, Global};

/// The atoms with these too.
fn more_atoms(alloc: Global, list: &AtomSet, atoms: &[PredAtom]) -> Result<AtomSet, AllocError> {
    let mut more = list.share()?;
    for a in atoms {
        more = more.add(alloc, *a)?;
    }
    Ok(more)
}

/// The entry with these atoms listed too.
fn with_atoms(alloc: Global, e: &Entry, atoms: &[PredAtom]) -> Result<Entry, AllocError> {
    let list = more_atoms(alloc, &e.list, atoms)?;
    Ok(Entry {
        pattern: e.pattern,
        list,
    })
}

/// Why the region stands after the action, into which these atoms come.
fn reason_of(atoms: &[PredAtom]) -> Reason {
    if atoms.is_empty() {
        Reason::Keep
    } else {
        Reason::Grow
    }
}

/// The region stands at the moment, by a line that rests on these.
fn put_region(
    alloc: Global,
    lines: &mut Lines<'_>,
    m: usize,
    e: &Entry,
    reason: Reason,
    cites: Vec<u32>,
) -> Result<(), AllocError> {
    let fact = Fact::Lcw(e.share()?);
    let line = lines.add_line(alloc, m, fact, reason, cites)?;
    lines.add_region(alloc, m, e.share()?, line)
}

/// On what a line about a region rests: literals that hold before the action, and lines.
#[derive(Clone, Copy)]
struct Grounds<'a> {
    by: &'a [Literal],
    rest: &'a [u32],
}

/// The region stands after the action, if it doesn't yet, by a line that rests on these.
fn add_region(
    alloc: Global,
    lines: &mut Lines<'_>,
    step: &ActionStep,
    e: &Entry,
    reason: Reason,
    grounds: &Grounds<'_>,
) -> Result<(), AllocError> {
    if lines.has_region(step.after, e) {
        return Ok(());
    }
    let cites = cite(alloc, lines, step.before, grounds.by, grounds.rest)?;
    put_region(alloc, lines, step.after, e, reason, cites)
}

/// The region, which has this line before the action, stands after it with what comes into it.
fn widen_region(
    alloc: Global,
    lines: &mut Lines<'_>,
    step: &ActionStep,
    e: &Entry,
    line: u32,
    staying: &Staying,
) -> Result<(), AllocError> {
    let atoms = staying.atoms.as_slice();
    let next = with_atoms(alloc, e, atoms)?;
    let grounds = Grounds {
        by: staying.by.as_slice(),
        rest: &[line],
    };
    add_region(alloc, lines, step, &next, reason_of(atoms), &grounds)
}

/// The region, which has this line before the action, stays with what comes into it, where its terms are steady.
fn keep_region(
    alloc: Global,
    lines: &mut Lines<'_>,
    step: &ActionStep,
    e: &Entry,
    line: u32,
) -> Result<(), AllocError> {
    match Tests::of(lines, step).staying(alloc, e)? {
        Some(staying) => widen_region(alloc, lines, step, e, line, &staying),
        None => Ok(()),
    }
}

/// The regions that the action keeps or widens stay.
pub(crate) fn keep_regions(
    alloc: Global,
    lines: &mut Lines<'_>,
    step: &ActionStep,
) -> Result<(), AllocError> {
    let regions = lines.regions(alloc, step.before)?;
    for one in regions.as_slice() {
        keep_region(alloc, lines, step, &one.0, one.1)?;
    }
    Ok(())
}

/// The pattern has no true instance after the action, which clears it, because of these before it.
fn put_cleared(
    alloc: Global,
    lines: &mut Lines<'_>,
    step: &ActionStep,
    cleared: &Target,
    by: &[Literal],
) -> Result<(), AllocError> {
    let Target::Clear(pattern) = cleared else {
        return Err(missing_as_memory());
    };
    let e = Entry {
        pattern: *pattern,
        list: AtomSet::empty(),
    };
    let grounds = Grounds { by, rest: &[] };
    add_region(alloc, lines, step, &e, Reason::Clear, &grounds)
}

/// The pattern, which the action clears, has no true instance after it, where its terms in normal form are steady.
pub(crate) fn clear_region(
    alloc: Global,
    lines: &mut Lines<'_>,
    step: &ActionStep,
    x: &Pattern,
) -> Result<(), AllocError> {
    match Tests::of(lines, step).maker_of(alloc, &Target::Clear(*x))? {
        Some(made) => put_cleared(alloc, lines, step, &made.target, made.by.as_slice()),
        None => Ok(()),
    }
}
