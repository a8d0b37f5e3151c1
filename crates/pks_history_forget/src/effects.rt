//! The effects of an instance, its arguments put in, and what they surely do.
ghost use Rattle.std.specs.Prelude.{◌≡◌, ◌&&◌, ◌||◌, false, map, IfOk};
ghost use Rattle.std.specs.List.{list_all, list_any};
ghost use Rattle.std.specs.Option.{option_map};
ghost use Rattle.pks_terms.specs.Orders.{literal_eq};
ghost use Rattle.pks_terms.specs.Settling.{effects_of};
ghost use Rattle.pks_terms.specs.Syntax.{negated};
ghost use Rattle.pks_terms.specs.ValidProblems.{AssignsToPlace, IsValidProblem, ArePlaced};
ghost use Rattle.pks_terms.specs.Views.{term_of, literal_of, literals_in, target_of, effect_of, instance_of, problem_of};
ghost use Rattle.pks_query_lookup.specs.Fives.{five_of};
ghost use Rattle.pks_laws_forget.specs.Testing.{has, made_by, fires_surely, fires_never, is_written, assigns, is_assigned};
ghost use Rattle.pks_history_forget.specs.Placed.{writes};

use pks_query_lookup::five::Five;
use pks_terms::literal::{Atom, Literal, equation};
use pks_terms::problem::Problem;
use pks_terms::putting::effects_at;
use pks_terms::schema::{Effect, Instance, Target};
use pks_terms::term::{Term, front};
use std::alloc::{AllocError, Global};

/// The effects of the instance's action, its arguments put in. The error is want of memory.
pub(crate) fn effects_of(
    alloc: Global,
    p: &Problem<'_>,
    i: &Instance,
) -> Result<Vec<Effect>, AllocError>
    requires { IsValidProblem p.now }
    ensures says { IfOk result (λ v. map effect_of v.items ≡ effects_of (problem_of p.now) (instance_of i.now)) }
    ensures placed { IfOk result (λ v. ArePlaced v.items) }
{
    match p.schemas.as_slice().get(usize::from(i.act.0)) {
        Some(schema) => effects_at(alloc, schema.effects.as_slice(), i),
        None => Ok(Vec::new(alloc)),
    }
}

/// Whether the literal is known.
#[tactic(auto, using(crate::proofs::Found::is_literal_among))]
pub(crate) fn has(d: &Five, l: &Literal) -> bool
    ensures { result ≡ has (five_of d.now) (literal_of l.now) }
{
    d.kf.has(l)
}

/// What the target makes so.
pub(crate) fn made_by(x: &Target) -> Option<Literal>
    requires { AssignsToPlace x.now }
    ensures { option_map literal_of result ≡ made_by (target_of x.now) }
{
    match x {
        Target::Set(a) => Some(Literal {
            atom: Atom::Pred(*a),
            positive: true,
        }),
        Target::Unset(a) => Some(Literal {
            atom: Atom::Pred(*a),
            positive: false,
        }),
        Target::Clear(_) => None,
        Target::Assign { place, value } => match place {
            Term::Obj(_) | Term::Param(_) => unreachable!(),
            Term::App { .. } => Some(equation(place, value, true)),
        },
    }
}

fn all_known(d: &Five, ls: &[Literal]) -> bool
    ensures { result ≡ list_all (has (five_of d.now)) (literals_in ls.now) }
{
    for l in ls {
        if !has(d, l) {
            return false;
        }
    }
    true
}

fn some_denied(d: &Five, ls: &[Literal]) -> bool
    ensures { result ≡ list_any (λ c. has (five_of d.now) (negated c)) (literals_in ls.now) }
{
    for l in ls {
        if has(d, &l.negated()) {
            return true;
        }
    }
    false
}

/// Whether each condition of the effect is known.
pub(crate) fn fires_surely(d: &Five, e: &Effect) -> bool
    ensures { result ≡ fires_surely (five_of d.now) (effect_of e.now) }
{
    all_known(d, front(&e.cond.literals, e.cond.n))
}

/// Whether the negation of a condition of the effect is known.
pub(crate) fn fires_never(d: &Five, e: &Effect) -> bool
    ensures { result ≡ fires_never (five_of d.now) (effect_of e.now) }
{
    some_denied(d, front(&e.cond.literals, e.cond.n))
}

/// Whether the target makes the literal true or false.
#[tactic(auto, unfolding(pks_terms::specs::Orders::literal_eq))]
fn writes(x: &Target, l: &Literal) -> bool
    requires { AssignsToPlace x.now }
    ensures { result ≡ writes (target_of x.now) (literal_of l.now) }
{
    match made_by(x) {
        Some(m) => m == *l || m == l.negated(),
        None => false,
    }
}

/// Whether one of the effects surely fires and makes the literal true or false.
pub(crate) fn is_written(d: &Five, effects: &[Effect], l: &Literal) -> bool
    requires { ArePlaced effects.now }
    ensures { result ≡ is_written (five_of d.now) (map effect_of effects.now) (literal_of l.now) }
{
    for e in effects {
        if fires_surely(d, e) && writes(&e.target, l) {
            return true;
        }
    }
    false
}

/// Whether the target assigns the place.
#[tactic(auto, unfolding(pks_terms::specs::Orders::term_eq))]
fn assigns(x: &Target, t: &Term) -> bool
    requires { AssignsToPlace x.now }
    ensures { result ≡ assigns (target_of x.now) (term_of t.now) }
{
    match x {
        Target::Set(_) | Target::Unset(_) | Target::Clear(_) => false,
        Target::Assign { place, .. } => match place {
            Term::Obj(_) | Term::Param(_) => unreachable!(),
            Term::App { .. } => *place == *t,
        },
    }
}

/// Whether one of the effects surely fires and assigns the place.
pub(crate) fn is_assigned(d: &Five, effects: &[Effect], t: &Term) -> bool
    requires { ArePlaced effects.now }
    ensures { result ≡ is_assigned (five_of d.now) (map effect_of effects.now) (term_of t.now) }
{
    for e in effects {
        if fires_surely(d, e) && assigns(&e.target, t) {
            return true;
        }
    }
    false
}
