//! Looks, and a history without the moments before them. `docs/RULES.md` says what a look is.
ghost use Rattle.std.specs.Prelude.{◌≡◌, ◌≤◌, ◌<◌, ◌+◌, ◌&&◌, ◌||◌, IfOk, length, map};
ghost use Rattle.std.specs.List.{list_all};
ghost use Rattle.pks_terms.specs.Settling.{effects_of};
ghost use Rattle.pks_terms.specs.Views.{query_of, aim_of, instance_of, signature_of, problem_of};
ghost use Rattle.pks_kf.specs.Known.{literals_of};
ghost use Rattle.pks_kx.specs.Groups.{groups_of};
ghost use Rattle.pks_query_lookup.specs.Fives.{five_of};
ghost use Rattle.pks_laws_forget.specs.Testing.{has};
ghost use Rattle.pks_laws_forget.specs.Fewer.{is_held};
ghost use Rattle.pks_laws_forget.specs.Looks.{is_told_alike, aim_is_told_alike, is_empty, has_group, lasts_in, is_look, unlooked_from, without_looks};
ghost use Rattle.pks_history_forget.specs.Looking.{first_is_look, later_look, joined};

use crate::effects::has;
use crate::held::is_held;
use crate::kept::{has_group, is_group_of_objects, regions_last};
use crate::staying::are_alike;
use pks_history::histories::History;
use pks_query::databases::Db;
use pks_query_lookup::five::Five;
use pks_terms::problem::{Aim, Problem, Signature};
use pks_terms::schema::{Instance, Query};
use std::alloc::{AllocError, Global};

/// Whether the action of the instance has no effects.
fn has_no_effects(p: &Problem<'_>, i: &Instance) -> bool
    ensures { result ≡ is_empty (effects_of (problem_of p.now) (instance_of i.now)) }
{
    match p.schemas.as_slice().get(usize::from(i.act.0)) {
        Some(schema) => match schema.effects.as_slice() {
            [] => true,
            [_effect, _rest @ ..] => false,
        },
        None => true,
    }
}

/// Whether each literal that was known is known after.
fn literals_stay(before: &Five, after: &Five) -> bool
    ensures { result ≡ list_all (has (five_of after.now)) (literals_of before.now.kf) }
{
    for l in before.kf.items() {
        if !has(after, l) {
            return false;
        }
    }
    true
}

/// Whether each group speaks of objects alone and is one of the others.
fn groups_stay(before: &Five, after: &Five) -> bool
    ensures { result ≡ list_all (has_group (five_of after.now)) (groups_of before.now.kx) }
{
    for g in before.kx.items() {
        if !(is_group_of_objects(g) && has_group(after, g)) {
            return false;
        }
    }
    true
}

/// Whether each group and each region speaks of objects alone and is one of the others.
fn lasts_in(before: &Five, after: &Five) -> bool
    ensures { result ≡ lasts_in (five_of before.now) (five_of after.now) }
{
    groups_stay(before, after) && regions_last(before, after)
}

/// Whether the query asks for a known literal, and both databases tell this alike.
fn is_told_alike(s: &Signature, before: &Db, after: &Db, q: &Query) -> bool
    ensures { result ≡ is_told_alike (signature_of s.now) (five_of before.now) (five_of after.now) (query_of q.now).asks }
{
    match q {
        Query::K(l) | Query::NotK(l) => are_alike(before.known(s, l), after.known(s, l)),
        Query::Kw(_) | Query::NotKw(_) | Query::Kv(_) | Query::NotKv(_) => false,
    }
}

/// Whether so does the aim, unless it is one of the last moment, or one of each moment that the first meets for good.
fn aim_is_told_alike(s: &Signature, before: &Db, after: &Db, aim: &Aim) -> bool
    ensures { result ≡ aim_is_told_alike (signature_of s.now) (five_of before.now) (five_of after.now) (aim_of aim.now) }
{
    match aim {
        Aim::Now(_) => true,
        Aim::AtStart(q) | Aim::Once(q) => is_told_alike(s, before, after, q),
        Aim::Always(q) => is_told_alike(s, before, after, q) || is_held(s, before, q),
    }
}

/// Whether so does each of the aims.
fn are_told_alike(s: &Signature, before: &Db, after: &Db, aims: &[Aim]) -> bool
    ensures { result ≡ list_all (aim_is_told_alike (signature_of s.now) (five_of before.now) (five_of after.now)) (map aim_of aims.now) }
{
    for aim in aims {
        if !aim_is_told_alike(s, before, after, aim) {
            return false;
        }
    }
    true
}

/// Whether what was known before is known after, and groups and regions are the same and speak of objects alone.
fn continues(before: &Five, after: &Five) -> bool
    ensures { result ≡ (list_all (has (five_of after.now)) (literals_of before.now.kf) && (lasts_in (five_of before.now) (five_of after.now) && lasts_in (five_of after.now) (five_of before.now))) }
{
    literals_stay(before, after) && (lasts_in(before, after) && lasts_in(after, before))
}

/// Whether the step from the databases before by the instance to those after is a look: the action has no effects, aims over
/// time are told alike before and after or met before for good, what was known before is known after, and groups and regions are the same and speak of
/// objects alone. It takes no memory.
pub fn is_look(p: &Problem<'_>, before: &Db, i: &Instance, after: &Db) -> bool
    ensures { result ≡ is_look (problem_of p.now) (five_of before.now) (instance_of i.now) (five_of after.now) }
{
    has_no_effects(p, i)
        && (are_told_alike(&p.signature, before, after, p.goal.as_slice())
            && continues(before.parts(), after.parts()))
}

/// Whether there is a first step, and it is a look.
fn first_is_look(p: &Problem<'_>, h: &History) -> bool
    ensures { result ≡ first_is_look (problem_of p.now) h.now }
{
    let moments = h.len();
    if moments == 1 {
        return false;
    }
    is_look(p, h.at(0), h.step(0), h.at(1))
}

/// Whether one of the steps from the moment on is a look.
fn later_look(p: &Problem<'_>, h: &History, moment: u32) -> bool
    requires { moment ≤ length h.now.steps }
    ensures { result ≡ later_look (problem_of p.now) h.now.start h.now.steps moment }
{
    let moments = h.len();
    if moment + 1 == moments {
        return false;
    }
    is_look(p, h.at(moment), h.step(moment), h.at(moment + 1)) || later_look(p, h, moment + 1)
}

/// The moments of the second history that no look follows behind those of the first, with the instance between them.
fn put_behind(
    alloc: Global,
    p: &Problem<'_>,
    front: History,
    i: Instance,
    h: History,
) -> Result<History, AllocError>
    requires { length front.steps + length h.steps < 16 }
    ensures { IfOk result (λ all. all ≡ joined front (instance_of i) (unlooked_from (problem_of p.now) h.start h.steps)) }
{
    if h.len() == 1 {
        let last = h.at(0).share()?;
        let all = front.push(alloc, i, last)?;
        return Ok(all);
    }
    if first_is_look(p, &h) {
        let later = h.without_first(alloc)?;
        let all = put_behind(alloc, p, front, i, later)?;
        return Ok(all);
    }
    let next = h.at(0).share()?;
    let longer = front.push(alloc, i, next)?;
    let step = *h.step(0);
    let later = h.without_first(alloc)?;
    let all = put_behind(alloc, p, longer, step, later)?;
    Ok(all)
}

/// The same from the first moment on.
fn put_first(alloc: Global, p: &Problem<'_>, h: History) -> Result<History, AllocError>
    ensures { IfOk result (λ all. all ≡ unlooked_from (problem_of p.now) h.start h.steps) }
{
    if h.len() == 1 {
        return Ok(h);
    }
    if first_is_look(p, &h) {
        let later = h.without_first(alloc)?;
        let all = put_first(alloc, p, later)?;
        return Ok(all);
    }
    let first = h.at(0).share()?;
    let front = History::start(alloc, first)?;
    let step = *h.step(0);
    let later = h.without_first(alloc)?;
    let all = put_behind(alloc, p, front, step, later)?;
    Ok(all)
}

/// The history without the moments before looks. The error is want of memory.
pub fn without_looks(alloc: Global, p: &Problem<'_>, h: &History) -> Result<History, AllocError>
    ensures { IfOk result (λ rest. rest ≡ without_looks (problem_of p.now) h.now) }
{
    let whole = h.share()?;
    if !later_look(p, h, 0) {
        return Ok(whole);
    }
    let rest = put_first(alloc, p, whole)?;
    Ok(rest)
}
