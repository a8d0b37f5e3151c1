//! What an effect may do, as far as databases tell. `docs/RULES.md` has the rule, "Interference".
ghost use Rattle.std.specs.Prelude.{◌≡◌, ◌&&◌, map};
ghost use Rattle.std.specs.List.{list_any};
ghost use Rattle.std.specs.Option.{option_map};
ghost use Rattle.pks_terms.specs.Actions.{effect_at};
ghost use Rattle.pks_terms.specs.Databases.{differ, some_differ, holds};
ghost use Rattle.pks_terms.specs.Orders.{number_of, arguments_of};
ghost use Rattle.pks_terms.specs.Spoiling.{may_fire, some_fixed_differ, may_make_true, may_make_false, may_change, some_may};
ghost use Rattle.pks_terms.specs.Syntax.{negated, term_of as lifted};
ghost use Rattle.pks_terms.specs.Views.{inner_of, term_of, terms_of, literals_in, effect_of, given_of, target_of, signature_of};
ghost use Rattle.pks_kf.specs.Known.{literals_of};
ghost use Rattle.pks_query_lookup.specs.Fives.{five_of};
ghost use Rattle.pks_progress_interference.specs.EffectViews.{effects_in};
ghost use Rattle.pks_terms.specs.Justified.{is_set_on};
ghost use Rattle.pks_progress_interference.specs.Reach.{unsets, assigns};

use crate::effects::Effects;
use pks_query_lookup::derived::Derived;
use pks_terms::ids::PredId;
use pks_terms::literal::Literal;
use pks_terms::problem::Signature;
use pks_terms::schema::{Effect, Instance, Target};
use pks_terms::term::{Inner, Term, front};

/// Whether the effect, with its arguments put in, may fire: none of its conditions is derived false. It takes no memory.
#[tactic(auto, unfolding(pks_terms::specs::Spoiling::may_fire))]
pub fn may_fire(s: &Signature, d: &Derived, e: &Effect) -> bool
    ensures { result ≡ may_fire (signature_of s.now) (five_of d.now) (effect_of e.now) }
{
    !d.some_denied(s, front(&e.cond.literals, e.cond.n))
}

#[tactic(auto, unfolding(pks_terms::specs::Spoiling::may_fire))]
fn may_fire_at(s: &Signature, d: &Derived, e: &Effect, i: &Instance) -> bool
    ensures { result ≡ may_fire (signature_of s.now) (five_of d.now) (effect_at (given_of i.now) (effect_of e.now)) }
{
    let cond = e.cond.at(i);
    !d.some_denied(s, front(&cond.literals, cond.n))
}

/// Whether at some fixed position the term differs from the argument. It takes no memory.
pub fn some_fixed_differ(s: &Signature, d: &Derived, slots: &[Option<Term>], args: &[Term]) -> bool
    ensures { result ≡ some_fixed_differ (signature_of s.now) (literals_of d.now.kf) (map (option_map term_of) slots.now) (terms_of args.now) }
{
    match slots {
        [] => false,
        [slot, slots @ ..] => match args {
            [] => false,
            [u, args @ ..] => match slot {
                Some(t) => d.differ(s, t, u) || some_fixed_differ(s, d, slots, args),
                None => some_fixed_differ(s, d, slots, args),
            },
        },
    }
}

fn differ_inside(s: &Signature, d: &Derived, t: &Inner, u: &Inner) -> bool
    ensures { result ≡ differ (signature_of s.now) (literals_of d.now.kf) (lifted (inner_of t.now)) (lifted (inner_of u.now)) }
{
    d.differ(s, &t.as_term(), &u.as_term())
}

fn some_differ_inside(s: &Signature, d: &Derived, ts: &[Inner], us: &[Inner]) -> bool
    ensures { result ≡ some_differ (signature_of s.now) (literals_of d.now.kf) (map lifted (map inner_of ts.now)) (map lifted (map inner_of us.now)) }
{
    match ts {
        [] => false,
        [t, ts @ ..] => match us {
            [] => false,
            [u, us @ ..] => differ_inside(s, d, t, u) || some_differ_inside(s, d, ts, us),
        },
    }
}

/// Whether the target, with its arguments put in, may make the predicate true at these arguments. It takes no memory.
pub fn may_make_true(
    s: &Signature,
    d: &Derived,
    pred: PredId,
    args: &[Term],
    target: &Target,
) -> bool
    ensures { result ≡ may_make_true (signature_of s.now) (literals_of d.now.kf) pred.0 (terms_of args.now) (target_of target.now) }
{
    match target {
        Target::Set(a) => a.pred.0 == pred.0 && !d.some_differ(s, front(&a.args, a.n), args),
        Target::Unset(_) | Target::Clear(_) | Target::Assign { .. } => false,
    }
}

/// Whether the target, with its arguments put in, may make the predicate false at these arguments. It takes no memory.
pub fn may_make_false(
    s: &Signature,
    d: &Derived,
    pred: PredId,
    args: &[Term],
    target: &Target,
) -> bool
    ensures { result ≡ may_make_false (signature_of s.now) (literals_of d.now.kf) pred.0 (terms_of args.now) (target_of target.now) }
{
    match target {
        Target::Unset(a) => a.pred.0 == pred.0 && !d.some_differ(s, front(&a.args, a.n), args),
        Target::Clear(x) => x.pred.0 == pred.0
            && !some_fixed_differ(s, d, front(&x.args, x.n), args),
        Target::Set(_) | Target::Assign { .. } => false,
    }
}

/// Whether the target, with its arguments put in, may change the value at the place, an application. It takes no memory.
pub fn may_change(s: &Signature, d: &Derived, place: &Term, target: &Target) -> bool
    ensures { result ≡ may_change (signature_of s.now) (literals_of d.now.kf) (number_of (term_of place.now)) (arguments_of (term_of place.now)) (target_of target.now) }
{
    match target {
        Target::Assign { place: to, .. } => to.number() == place.number()
            && !some_differ_inside(s, d, to.arguments(), place.arguments()),
        Target::Set(_) | Target::Unset(_) | Target::Clear(_) => false,
    }
}

fn is_set_on(pred: PredId, target: &Target) -> bool
    ensures { result ≡ is_set_on pred.0 (target_of target.now) }
{
    match target {
        Target::Set(a) => a.pred.0 == pred.0,
        Target::Unset(_) | Target::Clear(_) | Target::Assign { .. } => false,
    }
}

fn unsets(pred: PredId, target: &Target) -> bool
    ensures { result ≡ unsets pred.0 (target_of target.now) }
{
    match target {
        Target::Unset(a) => a.pred.0 == pred.0,
        Target::Clear(x) => x.pred.0 == pred.0,
        Target::Set(_) | Target::Assign { .. } => false,
    }
}

fn assigns(place: &Term, target: &Target) -> bool
    ensures { result ≡ assigns (number_of (term_of place.now)) (target_of target.now) }
{
    match target {
        Target::Assign { place: to, .. } => to.number() == place.number(),
        Target::Set(_) | Target::Unset(_) | Target::Clear(_) => false,
    }
}

#[tactic(auto, using(crate::proofs::Early::sets_first))]
fn makes_true(
    s: &Signature,
    d: &Derived,
    pred: PredId,
    args: &[Term],
    e: &Effect,
    i: &Instance,
) -> bool
    ensures { result ≡ (may_fire (signature_of s.now) (five_of d.now) (effect_at (given_of i.now) (effect_of e.now)) && may_make_true (signature_of s.now) (literals_of d.now.kf) pred.0 (terms_of args.now) (effect_at (given_of i.now) (effect_of e.now)).target) }
{
    is_set_on(pred, &e.target)
        && may_make_true(s, d, pred, args, &e.target.at(i))
        && may_fire_at(s, d, e, i)
}

#[tactic(auto, using(crate::proofs::Early::unsets_first))]
fn makes_false(
    s: &Signature,
    d: &Derived,
    pred: PredId,
    args: &[Term],
    e: &Effect,
    i: &Instance,
) -> bool
    ensures { result ≡ (may_fire (signature_of s.now) (five_of d.now) (effect_at (given_of i.now) (effect_of e.now)) && may_make_false (signature_of s.now) (literals_of d.now.kf) pred.0 (terms_of args.now) (effect_at (given_of i.now) (effect_of e.now)).target) }
{
    unsets(pred, &e.target)
        && may_make_false(s, d, pred, args, &e.target.at(i))
        && may_fire_at(s, d, e, i)
}

#[tactic(auto, using(crate::proofs::Early::assigns_first))]
fn changes(s: &Signature, d: &Derived, place: &Term, e: &Effect, i: &Instance) -> bool
    ensures { result ≡ (may_fire (signature_of s.now) (five_of d.now) (effect_at (given_of i.now) (effect_of e.now)) && may_change (signature_of s.now) (literals_of d.now.kf) (number_of (term_of place.now)) (arguments_of (term_of place.now)) (effect_at (given_of i.now) (effect_of e.now)).target) }
{
    assigns(place, &e.target) && may_change(s, d, place, &e.target.at(i)) && may_fire_at(s, d, e, i)
}

/// Whether an effect that may fire may make the predicate true at these arguments. It takes no memory.
pub fn some_makes_true(
    s: &Signature,
    d: &Derived,
    pred: PredId,
    args: &[Term],
    es: Effects<'_>,
) -> bool
    ensures { result ≡ some_may (signature_of s.now) (five_of d.now) (may_make_true (signature_of s.now) (literals_of d.now.kf) pred.0 (terms_of args.now)) (effects_in es.entry) }
{
    match es.written {
        [] => false,
        [e, written @ ..] => {
            let rest = Effects {
                written,
                instance: es.instance,
            };
            makes_true(s, d, pred, args, e, es.instance) || some_makes_true(s, d, pred, args, rest)
        }
    }
}

/// Whether an effect that may fire may make the predicate false at these arguments. It takes no memory.
pub fn some_makes_false(
    s: &Signature,
    d: &Derived,
    pred: PredId,
    args: &[Term],
    es: Effects<'_>,
) -> bool
    ensures { result ≡ some_may (signature_of s.now) (five_of d.now) (may_make_false (signature_of s.now) (literals_of d.now.kf) pred.0 (terms_of args.now)) (effects_in es.entry) }
{
    match es.written {
        [] => false,
        [e, written @ ..] => {
            let rest = Effects {
                written,
                instance: es.instance,
            };
            makes_false(s, d, pred, args, e, es.instance)
                || some_makes_false(s, d, pred, args, rest)
        }
    }
}

/// Whether an effect that may fire may change the value at the place, an application. It takes no memory.
pub fn some_changes(s: &Signature, d: &Derived, place: &Term, es: Effects<'_>) -> bool
    ensures { result ≡ some_may (signature_of s.now) (five_of d.now) (may_change (signature_of s.now) (literals_of d.now.kf) (number_of (term_of place.now)) (arguments_of (term_of place.now))) (effects_in es.entry) }
{
    match es.written {
        [] => false,
        [e, written @ ..] => {
            let rest = Effects {
                written,
                instance: es.instance,
            };
            changes(s, d, place, e, es.instance) || some_changes(s, d, place, rest)
        }
    }
}
