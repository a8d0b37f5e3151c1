//! A problem without the aims that a history meets for good. `docs/RULES.md` says when it does.
ghost use Rattle.std.specs.Prelude.{◌≡◌, IsTrue, IfOk, map};
ghost use Rattle.std.specs.List.{list_any};
ghost use Rattle.pks_terms.specs.Aims.{moments};
ghost use Rattle.pks_terms.specs.Views.{aim_of, query_of, signature_of};
ghost use Rattle.pks_laws_forget.specs.Fewer.{is_held, is_met_for_good};
ghost use Rattle.pks_search.specs.Fewer.{unmet_aims, with_goal};

use crate::copying::{same_init, same_names, same_schemas, same_signature};
use pks_history::histories::History;
use pks_history_forget::held::is_held;
use pks_search_symmetry::same_query;
use pks_terms::problem::{Aim, AimList, Problem, Signature};
use pks_terms::schema::Query;
use pks_terms::sequence::Sequence;
use std::alloc::{AllocError, Global};

/// Whether some moment answers the query for good.
fn is_held_once(s: &Signature, h: &History, q: &Query) -> bool
    ensures { result ≡ list_any (λ d. is_held (signature_of s.now) d (query_of q.now)) (moments h.now) }
{
    for moment in 0..h.len() {
        if is_held(s, h.at(moment), q) {
            return true;
        }
    }
    false
}

/// Whether the history meets the aim for good.
fn is_met_for_good(s: &Signature, h: &History, aim: &Aim) -> bool
    ensures { result ≡ is_met_for_good (signature_of s.now) h.now (aim_of aim.now) }
{
    match aim {
        Aim::AtStart(q) => is_held(s, h.at(0), q),
        Aim::Once(q) => is_held_once(s, h, q),
        Aim::Now(_) | Aim::Always(_) => false,
    }
}

/// Whether it meets some aim for good.
pub(crate) fn some_is_met(s: &Signature, h: &History, aims: &[Aim]) -> bool
    ensures { result ≡ list_any (is_met_for_good (signature_of s.now) h.now) (map aim_of aims.now) }
{
    for aim in aims {
        if is_met_for_good(s, h, aim) {
            return true;
        }
    }
    false
}

/// The aims that it doesn't meet for good.
pub(crate) fn unmet_aims(
    alloc: Global,
    s: &Signature,
    h: &History,
    aims: &[Aim],
) -> Result<AimList, AllocError>
    ensures { IfOk result (λ others. others ≡ unmet_aims (signature_of s.now) h.now aims.now) }
{
    let mut others = Vec::new(alloc);
    for aim in aims {
        if !is_met_for_good(s, h, aim) {
            others.push(*aim)?;
        }
    }
    Ok(Sequence::of(others))
}

/// Whether the aims are the same.
fn same_aim(a: &Aim, b: &Aim) -> bool
    ensures { IsTrue result → aim_of a.now ≡ aim_of b.now }
{
    match (a, b) {
        (Aim::Now(q), Aim::Now(r)) => same_query(q, r),
        (Aim::AtStart(q), Aim::AtStart(r)) => same_query(q, r),
        (Aim::Always(q), Aim::Always(r)) => same_query(q, r),
        (Aim::Once(q), Aim::Once(r)) => same_query(q, r),
        _ => false,
    }
}

/// Whether they are the same, each after each.
pub(crate) fn same_aims(some: &[Aim], others: &[Aim]) -> bool
    ensures { IsTrue result → map aim_of some.now ≡ map aim_of others.now }
{
    match some {
        [] => others.is_empty(),
        [a, some @ ..] => match others {
            [] => false,
            [b, others @ ..] => same_aim(a, b) && same_aims(some, others),
        },
    }
}

/// The problem with these aims alone.
pub(crate) fn with_goal<'s>(
    alloc: Global,
    p: &Problem<'s>,
    goal: AimList,
) -> Result<Problem<'s>, AllocError>
    ensures { IfOk result (λ other. other ≡ with_goal p.now goal) }
{
    Ok(Problem {
        version: p.version,
        signature: same_signature(alloc, &p.signature)?,
        names: same_names(alloc, &p.names)?,
        schemas: same_schemas(alloc, p.schemas.as_slice())?,
        init: same_init(alloc, p.init.as_slice())?,
        init_span: p.init_span,
        problem_span: p.problem_span,
        goal,
    })
}
