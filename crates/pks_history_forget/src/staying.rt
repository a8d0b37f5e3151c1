//! Aims over time that a step leaves as they are. `docs/RULES.md` says when it does.
ghost use Rattle.std.specs.Prelude.{◌≡◌, ◌&&◌, ◌||◌, IfOk, map};
ghost use Rattle.std.specs.List.{list_all, list_any};
ghost use Rattle.pks_terms.specs.Databases.{holds};
ghost use Rattle.pks_terms.specs.Orders.{literal_eq};
ghost use Rattle.pks_terms.specs.Syntax.{negated};
ghost use Rattle.pks_terms.specs.ValidProblems.{IsValidProblem};
ghost use Rattle.pks_terms.specs.Views.{terms_of, literal_of, literals_in, conj_of, target_of, effect_of, query_of, aim_of, instance_of, signature_of, problem_of};
ghost use Rattle.pks_kw.specs.Formulas.{formulas_of};
ghost use Rattle.pks_query_lookup.specs.Fives.{five_of};
ghost use Rattle.pks_laws_forget.specs.Transparent.{at_other_objects};
ghost use Rattle.pks_laws_forget.specs.Looks.{are_alike, is_empty};
ghost use Rattle.pks_laws_forget.specs.Fewer.{is_held};
ghost use Rattle.pks_laws_forget.specs.Staying.{is_at_others, leaves, literal_stays, is_said_in, says_more, query_stays, aim_stays, aims_stay};

use crate::effects::effects_of;
use crate::held::is_held;
use crate::touching::is_about;
use pks_query::databases::Db;
use pks_query_lookup::five::Five;
use pks_terms::literal::{Conj, Literal};
use pks_terms::objects::is_of_objects;
use pks_terms::problem::{Aim, Problem, Signature};
use pks_terms::schema::{Effect, Instance, Query, Target};
use pks_terms::term::{Term, are_two_objects, front};
use std::alloc::{AllocError, Global};

/// Whether at some position there are two different objects.
fn at_other_objects(ts: &[Term], us: &[Term]) -> bool
    ensures { result ≡ at_other_objects (terms_of ts.now) (terms_of us.now) }
{
    match ts {
        [] => false,
        [t, ts @ ..] => match us {
            [] => false,
            [u, us @ ..] => are_two_objects(t, u) || at_other_objects(ts, us),
        },
    }
}

/// Whether the target makes an atom at other objects true or false.
fn is_at_others(x: &Target, ts: &[Term]) -> bool
    ensures { result ≡ is_at_others (target_of x.now) (terms_of ts.now) }
{
    match x {
        Target::Set(a) | Target::Unset(a) => at_other_objects(front(&a.args, a.n), ts),
        Target::Clear(_) | Target::Assign { .. } => false,
    }
}

/// Whether the target is of another predicate than the literal, or at other objects.
fn leaves(l: &Literal, x: &Target) -> bool
    ensures { result ≡ leaves (literal_of l.now) (target_of x.now) }
{
    !is_about(&l.atom, x) || is_at_others(x, l.atom.arguments().terms())
}

/// Whether so does the target of each effect.
fn all_leave(effects: &[Effect], l: &Literal) -> bool
    ensures { result ≡ list_all (λ e. leaves (literal_of l.now) e.target) (map effect_of effects.now) }
{
    for e in effects {
        if !leaves(l, &e.target) {
            return false;
        }
    }
    true
}

/// Both or neither.
pub(crate) fn are_alike(a: bool, b: bool) -> bool
    ensures { result ≡ are_alike a b }
{
    if a { b } else { !b }
}

/// A step as it is asked about: its effects, and the databases before and after.
#[derive(Clone, Copy)]
struct StepTaken<'d> {
    effects: &'d [Effect],
    before: &'d Db,
    after: &'d Db,
}

/// Whether the literal is of a predicate at objects, no effect is of it, and it and its negation are told alike.
fn literal_stays(s: &Signature, step: &StepTaken<'_>, l: &Literal) -> bool
    ensures { result ≡ literal_stays (signature_of s.now) (map effect_of step.now.effects.now) (five_of step.now.before.now) (five_of step.now.after.now) (literal_of l.now) }
{
    (is_of_objects(l) && all_leave(step.effects, l))
        && (are_alike(step.before.known(s, l), step.after.known(s, l))
            && are_alike(step.before.denies(s, l), step.after.denies(s, l)))
}

/// Whether so does each of the literals.
fn literals_stay(s: &Signature, step: &StepTaken<'_>, ls: &[Literal]) -> bool
    ensures { result ≡ list_all (literal_stays (signature_of s.now) (map effect_of step.now.effects.now) (five_of step.now.before.now) (five_of step.now.after.now)) (literals_in ls.now) }
{
    for l in ls {
        if !literal_stays(s, step, l) {
            return false;
        }
    }
    true
}

/// Whether it is one of the literals, or the negation of one.
#[tactic(auto, unfolding(pks_terms::specs::Orders::literal_eq))]
fn is_said_in(ls: &[Literal], m: &Literal) -> bool
    ensures { result ≡ is_said_in (literals_in ls.now) (literal_of m.now) }
{
    for l in ls {
        if *m == *l || *m == l.negated() {
            return true;
        }
    }
    false
}

/// Whether one of the other literals is of a predicate at objects, and isn't said in these.
fn says_more(ls: &[Literal], others: &[Literal]) -> bool
    ensures { result ≡ says_more (literals_in ls.now) (literals_in others.now) }
{
    for m in others {
        if is_of_objects(m) && !is_said_in(ls, m) {
            return true;
        }
    }
    false
}

/// Whether each formula that is known to be true or false says more than this one.
fn all_say_more(d: &Five, c: &Conj) -> bool
    ensures { result ≡ list_all (says_more (conj_of c.now)) (formulas_of d.now.kw) }
{
    for k in d.kw.items() {
        if !says_more(front(&c.literals, c.n), front(&k.literals, k.n)) {
            return false;
        }
    }
    true
}

/// Whether what the query asks stays.
fn query_stays(s: &Signature, step: &StepTaken<'_>, q: &Query) -> bool
    ensures { result ≡ query_stays (signature_of s.now) (map effect_of step.now.effects.now) (five_of step.now.before.now) (five_of step.now.after.now) (query_of q.now).asks }
{
    match q {
        Query::K(l) | Query::NotK(l) => literal_stays(s, step, l),
        Query::Kw(c) | Query::NotKw(c) => {
            literals_stay(s, step, front(&c.literals, c.n))
                && (all_say_more(step.before.parts(), c) && all_say_more(step.after.parts(), c))
        }
        Query::Kv(_) | Query::NotKv(_) => false,
    }
}

/// Whether so does what the aim asks, unless it is one of the last moment, or one of each moment that the one before the step
/// meets for good.
fn aim_stays(s: &Signature, step: &StepTaken<'_>, aim: &Aim) -> bool
    ensures { result ≡ aim_stays (signature_of s.now) (map effect_of step.now.effects.now) (five_of step.now.before.now) (five_of step.now.after.now) (aim_of aim.now) }
{
    match aim {
        Aim::Now(_) => true,
        Aim::AtStart(q) | Aim::Once(q) => query_stays(s, step, q),
        Aim::Always(q) => query_stays(s, step, q) || is_held(s, step.before, q),
    }
}

/// Whether so does each of the aims.
fn all_stay(s: &Signature, step: &StepTaken<'_>, aims: &[Aim]) -> bool
    ensures { result ≡ list_all (aim_stays (signature_of s.now) (map effect_of step.now.effects.now) (five_of step.now.before.now) (five_of step.now.after.now)) (map aim_of aims.now) }
{
    for aim in aims {
        if !aim_stays(s, step, aim) {
            return false;
        }
    }
    true
}

/// Whether there are no regions.
fn is_bare(d: &Db) -> bool
    ensures { result ≡ is_empty (five_of d.now).lcw }
{
    d.parts().lcw.len() == 0
}

/// Whether the step from the databases before by the instance to those after leaves what the aims over time ask: each is of
/// literals of predicates at objects that no effect is of and that are told alike, or of each moment and met before for good,
/// and there are no regions. It asks for a valid problem. The error is want of memory.
pub fn aims_stay(
    alloc: Global,
    p: &Problem<'_>,
    before: &Db,
    i: &Instance,
    after: &Db,
) -> Result<bool, AllocError>
    requires { IsValidProblem p.now }
    ensures { IfOk result (λ b. b ≡ aims_stay (problem_of p.now) (five_of before.now) (instance_of i.now) (five_of after.now)) }
{
    let effects = effects_of(alloc, p, i)?;
    let step = StepTaken {
        effects: effects.as_slice(),
        before,
        after,
    };
    Ok((is_bare(before) && is_bare(after)) && all_stay(&p.signature, &step, p.goal.as_slice()))
}
