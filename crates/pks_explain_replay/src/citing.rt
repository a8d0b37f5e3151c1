//! The lines on which literals rest that come in.

use pks_explain_effects::ActionStep;
use pks_explain_lines::{Joining, Lines};
use pks_proof_lines::Reason;
use pks_terms::literal::Literal;
use std::alloc::{AllocError, Global};

/// The lines of these literals, which hold at the moment, and those beside them.
pub(crate) fn cite(
    alloc: Global,
    lines: &mut Lines<'_>,
    m: usize,
    by: &[Literal],
    rest: &[u32],
) -> Result<Vec<u32>, AllocError> {
    let mut cites = lines.show_all(alloc, m, by)?;
    cites.extend_from_slice(rest)?;
    Ok(cites)
}

/// Puts the literal, with the reason and the lines on which it rests.
pub(crate) fn put(
    l: &Literal,
    reason: Reason,
    cites: Vec<u32>,
    to: &mut Vec<Joining>,
) -> Result<(), AllocError> {
    to.push(Joining {
        literal: *l,
        reason,
        cites,
    })?;
    Ok(())
}

/// The literal comes in after the action because of an effect that rests on these, which hold before it.
pub(crate) fn join_made(
    alloc: Global,
    lines: &mut Lines<'_>,
    step: &ActionStep,
    l: &Literal,
    by: &[Literal],
) -> Result<(), AllocError> {
    if lines.knows(step.after, l) {
        return Ok(());
    }
    let cites = lines.show_all(alloc, step.before, by)?;
    lines.join(alloc, step.after, l, Reason::Effect, cites)
}
