//! What effects leave as it is, whatever their arguments.
ghost use Rattle.std.specs.Prelude.{◌≡◌, ◌&&◌, ◌==◌, not, map};
ghost use Rattle.std.specs.List.{list_all, list_any, filter};
ghost use Rattle.pks_terms.specs.Closure.{applications_in, is_application};
ghost use Rattle.pks_terms.specs.Orders.{number_of};
ghost use Rattle.pks_terms.specs.Syntax.{Named, are_two_objects, term_of as lifted};
ghost use Rattle.pks_terms.specs.Views.{inner_of, term_of, terms_of, relation_of, literal_of, literals_in, target_of, effect_of};
ghost use Rattle.pks_laws_forget.specs.Transparent.{is_about, assigns_in, at_other_objects, arguments_made, leaves, is_elsewhere};
ghost use Rattle.pks_laws_forget.specs.Testing.{is_untouched, are_unassigned, is_left};

use pks_terms::ids::PredId;
use pks_terms::literal::{Atom, Literal};
use pks_terms::schema::{Effect, Target};
use pks_terms::term::{Inner, Term, front};

fn is_of(pred: PredId, x: &Target) -> bool
    ensures { result ≡ is_about (Named pred.0) (target_of x.now) }
{
    match x {
        Target::Set(a) | Target::Unset(a) => a.pred == pred,
        Target::Clear(y) => y.pred == pred,
        Target::Assign { .. } => false,
    }
}

/// Whether the target is of the literal's predicate.
pub(crate) fn is_about(atom: &Atom, x: &Target) -> bool
    ensures { result ≡ is_about (relation_of atom.now) (target_of x.now) }
{
    match atom {
        Atom::Pred(a) => is_of(a.pred, x),
        Atom::Eq { .. } => false,
    }
}

fn some_applies(fun: u16, ts: &[Inner]) -> bool
    ensures { result ≡ list_any (λ u. fun == number_of u) (filter is_application (map lifted (map inner_of ts.now))) }
{
    for t in ts {
        if matches!(t, Inner::App { .. }) && fun == t.as_term().number() {
            return true;
        }
    }
    false
}

/// Whether the function of this number occurs in the term.
fn applies(fun: u16, t: &Term) -> bool
    ensures { result ≡ list_any (λ u. fun == number_of u) (applications_in (term_of t.now)) }
{
    match t {
        Term::Obj(_) | Term::Param(_) => false,
        Term::App { n, args, .. } => fun == t.number() || some_applies(fun, front(args, *n)),
    }
}

/// Whether the target assigns a function that occurs in the term.
fn assigns_in(t: &Term, x: &Target) -> bool
    ensures { result ≡ assigns_in (term_of t.now) (target_of x.now) }
{
    match x {
        Target::Set(_) | Target::Unset(_) | Target::Clear(_) => false,
        Target::Assign { place, .. } => applies(place.number(), t),
    }
}

fn assigns_in_some(ts: &[Term], x: &Target) -> bool
    ensures { result ≡ list_any (λ t. assigns_in t (target_of x.now)) (terms_of ts.now) }
{
    match ts {
        [] => false,
        [t, rest @ ..] => assigns_in(t, x) || assigns_in_some(rest, x),
    }
}

fn is_untouched_by(x: &Target, l: &Literal) -> bool
    ensures { result ≡ (not (is_about (literal_of l.now).relation (target_of x.now)) && not (list_any (λ t. assigns_in t (target_of x.now)) (literal_of l.now).arguments)) }
{
    !is_about(&l.atom, x) && !assigns_in_some(l.atom.arguments().terms(), x)
}

/// Whether none of the effects is of the literal's predicate or assigns a function that occurs in it.
pub(crate) fn is_untouched(effects: &[Effect], l: &Literal) -> bool
    ensures { result ≡ is_untouched (map effect_of effects.now) (literal_of l.now) }
{
    for e in effects {
        if !is_untouched_by(&e.target, l) {
            return false;
        }
    }
    true
}

/// Whether none of the effects assigns a function that occurs in the terms.
pub(crate) fn are_unassigned(effects: &[Effect], ts: &[Term]) -> bool
    ensures { result ≡ are_unassigned (map effect_of effects.now) (terms_of ts.now) }
{
    for e in effects {
        if assigns_in_some(ts, &e.target) {
            return false;
        }
    }
    true
}

/// The arguments of the atom that the target makes true or false.
fn arguments_made(x: &Target) -> &[Term]
    ensures { terms_of result.now ≡ arguments_made (target_of x.now) }
{
    match x {
        Target::Set(a) | Target::Unset(a) => front(&a.args, a.n),
        Target::Clear(_) | Target::Assign { .. } => &[],
    }
}

fn are_other_objects(t: &Term, u: &Term) -> bool
    ensures { result ≡ are_two_objects (term_of t.now) (term_of u.now) }
{
    match t {
        Term::Obj(d) => match u {
            Term::Obj(e) => d.0 != e.0,
            Term::Param(_) | Term::App { .. } => false,
        },
        Term::Param(_) | Term::App { .. } => false,
    }
}

/// Whether at some position the terms are two different objects.
fn have_other_objects(ts: &[Term], us: &[Term]) -> bool
    ensures { result ≡ at_other_objects (terms_of ts.now) (terms_of us.now) }
{
    match ts {
        [] => false,
        [t, ts @ ..] => match us {
            [] => false,
            [u, us @ ..] => are_other_objects(t, u) || have_other_objects(ts, us),
        },
    }
}

/// Whether the target is of another predicate than the literal's, or makes an atom at other objects true or false.
fn leaves(x: &Target, l: &Literal) -> bool
    ensures { result ≡ leaves (literal_of l.now).relation (literal_of l.now).arguments (target_of x.now) }
{
    !is_about(&l.atom, x) || have_other_objects(arguments_made(x), l.atom.arguments().terms())
}

fn is_left(effects: &[Effect], l: &Literal) -> bool
    ensures { result ≡ is_left (map effect_of effects.now) (literal_of l.now) }
{
    for e in effects {
        if !leaves(&e.target, l) {
            return false;
        }
    }
    true
}

/// Whether each of the effects leaves each of the literals as it is.
pub(crate) fn are_left(effects: &[Effect], ls: &[Literal]) -> bool
    ensures { result ≡ list_all (is_left (map effect_of effects.now)) (literals_in ls.now) }
{
    for l in ls {
        if !is_left(effects, l) {
            return false;
        }
    }
    true
}

fn are_two_objects(t: &Inner, u: &Inner) -> bool
    ensures { result ≡ are_two_objects (lifted (inner_of t.now)) (lifted (inner_of u.now)) }
{
    match t {
        Inner::Obj(d) => match u {
            Inner::Obj(e) => d.0 != e.0,
            Inner::Param(_) | Inner::App { .. } => false,
        },
        Inner::Param(_) | Inner::App { .. } => false,
    }
}

/// Whether at some position there are two different objects.
fn at_other_objects(ts: &[Inner], us: &[Inner]) -> bool
    ensures { result ≡ at_other_objects (map lifted (map inner_of ts.now)) (map lifted (map inner_of us.now)) }
{
    match ts {
        [] => false,
        [t, ts @ ..] => match us {
            [] => false,
            [u, us @ ..] => are_two_objects(t, u) || at_other_objects(ts, us),
        },
    }
}

/// Whether the target assigns no place that may be this one.
fn is_elsewhere(t: &Term, x: &Target) -> bool
    ensures { result ≡ is_elsewhere (term_of t.now) (target_of x.now) }
{
    match t {
        Term::Obj(_) | Term::Param(_) => true,
        Term::App { n, args, .. } => match x {
            Target::Set(_) | Target::Unset(_) | Target::Clear(_) => true,
            Target::Assign { place, .. } => {
                place.number() != t.number() || at_other_objects(place.arguments(), front(args, *n))
            }
        },
    }
}

/// Whether so each of the effects.
pub(crate) fn are_elsewhere(t: &Term, effects: &[Effect]) -> bool
    ensures { result ≡ list_all (λ e. is_elsewhere (term_of t.now) e.target) (map effect_of effects.now) }
{
    for e in effects {
        if !is_elsewhere(t, &e.target) {
            return false;
        }
    }
    true
}
