//! What the adds of an action give. `docs/RULES.md`, "Progression", has the rules.

use crate::citing::join_made;
use crate::regions::clear_region;
use pks_explain_effects::{ActionStep, Tests, literal_made, target_added};
use pks_explain_lines::{Lines, missing_as_memory};
use pks_query::databases::Db;
use pks_terms::literal::Literal;
use pks_terms::problem::{Problem, Signature};
use pks_terms::schema::{Adds, Instance, Item, Query, Schema, Target};
use pks_terms::term::front;
use std::alloc::{AllocError, Global};

/// Whether the databases answer each of the queries.
fn are_answered(s: &Signature, d: &Db, i: &Instance, queries: &[Query]) -> bool {
    for q in queries {
        if !d.answers(s, &q.at(i)) {
            return false;
        }
    }
    true
}

/// What the target says, if there is one, comes in in normal form, where its terms are steady then. It is the target of an
/// effect.
fn add_target(
    alloc: Global,
    lines: &mut Lines<'_>,
    step: &ActionStep,
    written: &Option<Target>,
) -> Result<(), AllocError> {
    let Some(written) = written else {
        return Ok(());
    };
    match Tests::of(lines, step).maker_of(alloc, written)? {
        Some(made) => put_made(alloc, lines, step, &made.target, made.by.as_slice()),
        None => Ok(()),
    }
}

/// What the target says comes in, which rests on these.
fn put_made(
    alloc: Global,
    lines: &mut Lines<'_>,
    step: &ActionStep,
    target: &Target,
    by: &[Literal],
) -> Result<(), AllocError> {
    match literal_made(target) {
        Some(l) => join_made(alloc, lines, step, &l, by),
        None => Err(missing_as_memory()),
    }
}

/// What the item of the add gives.
fn add_item(
    alloc: Global,
    lines: &mut Lines<'_>,
    step: &ActionStep,
    schema: &Schema<'_>,
    add: &Adds,
    i: &Instance,
) -> Result<(), AllocError> {
    match &add.item {
        Item::Kf(l) => add_target(alloc, lines, step, &target_added(schema, add, l, i)),
        Item::Lcw(x) => clear_region(alloc, lines, step, &x.at(i)),
        Item::Kw(_) | Item::Kv(_) => Ok(()),
    }
}

/// What the adds of the action give whose queries the databases before it answer.
pub(crate) fn add_all(
    alloc: Global,
    p: &Problem<'_>,
    lines: &mut Lines<'_>,
    d: &Db,
    i: &Instance,
    step: &ActionStep,
) -> Result<(), AllocError> {
    let Some(schema) = p.schemas.as_slice().get(usize::from(i.act.0)) else {
        return Err(missing_as_memory());
    };
    for add in schema.adds.as_slice() {
        if are_answered(&p.signature, d, i, front(&add.given, add.n)) {
            add_item(alloc, lines, step, schema, add, i)?;
        }
    }
    Ok(())
}
