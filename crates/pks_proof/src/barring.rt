//! Effects that are barred from doing something, and terms that are steady, by what is cited at the moment before an action.
ghost use Rattle.std.specs.Prelude.{◌≡◌, ◌&&◌, ℕ, map, not};
ghost use Rattle.std.specs.List.{list_all, filter};
ghost use Rattle.std.specs.Option.{option_map};
ghost use Rattle.pks_terms.specs.Syntax.{term_of as lifted, are_two_objects};
ghost use Rattle.pks_terms.specs.Closure.{is_application};
ghost use Rattle.pks_terms.specs.Orders.{number_of, arguments_of};
ghost use Rattle.pks_terms.specs.Actions.{Target as Written, effect_at};
ghost use Rattle.pks_terms.specs.Views.{inner_of, term_of, terms_of, literals_in, relation_of, sides_of, pattern_of, target_of, effect_of, given_of};
ghost use Rattle.pks_terms.specs.Judging.{Judge};
ghost use Rattle.pks_terms.specs.Reasons.{are_cited_apart, some_cited_apart, fixed_cited_apart, would_make_true, would_make_false, would_change, would_widen, would_deny, would_undo, would_make_same, assigns_other, cannot_fire, is_barred, are_barred, is_steady, are_steady};
ghost use Rattle.pks_proof_cited.specs.CitedViews.{judge_of};
ghost use Rattle.pks_proof.specs.Doings.{would_of, effects_at, effects_by, before_in, moment_in};

use pks_proof_cited::apart::{some_apart, some_fixed_apart, some_inners_apart};
use pks_proof_cited::cited::{Cited, some_denied};
use pks_terms::ids::PredId;
use pks_terms::literal::{Atom, Literal, Pattern};
use pks_terms::schema::{Effect, Instance, Target};
use pks_terms::term::{Inner, Term, front};

/// An action that is done, with what is cited at the moment before it.
#[derive(Clone, Copy)]
pub struct Transition<'a> {
    /// What is cited before.
    pub before: Cited<'a>,
    /// The action with its arguments.
    pub instance: &'a Instance,
    /// The action's effects as written.
    pub effects: &'a [Effect],
}

/// What an effect may be barred from doing.
#[derive(Clone, Copy)]
pub enum Doing<'a> {
    /// Nothing.
    Nothing,
    /// Making the predicate true at these arguments.
    MakingTrue(PredId, &'a [Term]),
    /// Making the predicate false at these arguments.
    MakingFalse(PredId, &'a [Term]),
    /// Changing the value at the place, an application.
    Changing(&'a Term),
    /// Assigning to the place a value that isn't cited to differ from this one.
    Assigning(&'a Term, &'a Term),
    /// Making an instance of the pattern true.
    Widening(&'a Pattern),
}

fn would_make_true(c: &Cited<'_>, pred: PredId, args: &[Term], target: &Target) -> bool
    ensures { result ≡ would_make_true (judge_of c.now) c.now.moment pred.0 (terms_of args.now) (target_of target.now) }
{
    match target {
        Target::Set(a) => a.pred.0 == pred.0 && !some_apart(c, front(&a.args, a.n), args),
        Target::Unset(_) | Target::Clear(_) | Target::Assign { .. } => false,
    }
}

fn would_make_false(c: &Cited<'_>, pred: PredId, args: &[Term], target: &Target) -> bool
    ensures { result ≡ would_make_false (judge_of c.now) c.now.moment pred.0 (terms_of args.now) (target_of target.now) }
{
    match target {
        Target::Unset(a) => a.pred.0 == pred.0 && !some_apart(c, front(&a.args, a.n), args),
        Target::Clear(x) => x.pred.0 == pred.0 && !some_fixed_apart(c, front(&x.args, x.n), args),
        Target::Set(_) | Target::Assign { .. } => false,
    }
}

fn would_change(c: &Cited<'_>, place: &Term, target: &Target) -> bool
    ensures { result ≡ would_change (judge_of c.now) c.now.moment (number_of (term_of place.now)) (arguments_of (term_of place.now)) (target_of target.now) }
{
    match target {
        Target::Assign { place: to, .. } => to.number() == place.number()
            && !some_inners_apart(c, to.arguments(), place.arguments()),
        Target::Set(_) | Target::Unset(_) | Target::Clear(_) => false,
    }
}

fn would_widen(c: &Cited<'_>, x: &Pattern, target: &Target) -> bool
    ensures { result ≡ would_widen (judge_of c.now) c.now.moment (pattern_of x.now) (target_of target.now) }
{
    match target {
        Target::Set(a) => a.pred.0 == x.pred.0
            && !some_fixed_apart(c, front(&x.args, x.n), front(&a.args, a.n)),
        Target::Unset(_) | Target::Clear(_) | Target::Assign { .. } => false,
    }
}

fn assigns_other(c: &Cited<'_>, value: &Term, target: &Target) -> bool
    ensures { result ≡ assigns_other (judge_of c.now) c.now.moment (term_of value.now) (target_of target.now) }
{
    match target {
        Target::Assign { value: new, .. } => c.tells_apart(new, value),
        Target::Set(_) | Target::Unset(_) | Target::Clear(_) => false,
    }
}

/// Whether the target, its arguments put in, would do so.
fn would(c: &Cited<'_>, doing: &Doing<'_>, target: &Target) -> bool
    ensures { result ≡ would_of (judge_of c.now) c.now.moment doing.now (target_of target.now) }
{
    match doing {
        Doing::Nothing => false,
        Doing::MakingTrue(pred, args) => would_make_true(c, *pred, args, target),
        Doing::MakingFalse(pred, args) => would_make_false(c, *pred, args, target),
        Doing::Changing(place) => would_change(c, place, target),
        Doing::Assigning(place, value) => {
            would_change(c, place, target) && !assigns_other(c, value, target)
        }
        Doing::Widening(x) => would_widen(c, x, target),
    }
}

fn cannot_fire(c: &Cited<'_>, e: &Effect) -> bool
    ensures { result ≡ cannot_fire (judge_of c.now) c.now.moment (effect_of e.now) }
{
    some_denied(c, front(&e.cond.literals, e.cond.n))
}

/// Whether the effect, its arguments put in, is barred from doing so. It takes no memory.
pub fn is_barred(c: &Cited<'_>, doing: &Doing<'_>, e: &Effect) -> bool
    ensures { result ≡ is_barred (judge_of c.now) c.now.moment (would_of (judge_of c.now) c.now.moment doing.now) (effect_of e.now) }
{
    cannot_fire(c, e) || !would(c, doing, &e.target)
}

/// Whether each of these effects of the action is barred from doing so. It takes no memory.
pub fn are_barred(d: &Transition<'_>, doing: &Doing<'_>, effects: &[Effect]) -> bool
    ensures { result ≡ are_barred (before_in d.now) (moment_in d.now) (would_of (before_in d.now) (moment_in d.now) doing.now) (effects_at d.now.instance.now effects.now) }
{
    for e in effects {
        if !is_barred(&d.before, doing, &e.at(d.instance)) {
            return false;
        }
    }
    true
}

fn is_place_kept(d: &Transition<'_>, place: &Term) -> bool
    ensures { result ≡ are_barred (before_in d.now) (moment_in d.now) (would_change (before_in d.now) (moment_in d.now) (number_of (term_of place.now)) (arguments_of (term_of place.now))) (effects_by d.now) }
{
    are_barred(d, &Doing::Changing(place), d.effects)
}

fn are_places_kept(d: &Transition<'_>, ts: &[Inner]) -> bool
    ensures { result ≡ list_all (λ u. are_barred (before_in d.now) (moment_in d.now) (would_change (before_in d.now) (moment_in d.now) (number_of u) (arguments_of u)) (effects_by d.now)) (filter is_application (map lifted (map inner_of ts.now))) }
{
    for t in ts {
        if matches!(t, Inner::App { .. }) && !is_place_kept(d, &t.as_term()) {
            return false;
        }
    }
    true
}

/// Whether the term is steady: each assignment that could change an application in it is barred. It takes no memory.
pub fn is_steady(d: &Transition<'_>, t: &Term) -> bool
    ensures { result ≡ is_steady (before_in d.now) (moment_in d.now) (effects_by d.now) (term_of t.now) }
{
    match t {
        Term::Obj(_) | Term::Param(_) => true,
        Term::App { n, args, .. } => is_place_kept(d, t) && are_places_kept(d, front(args, *n)),
    }
}

/// Whether each of the terms is steady. It takes no memory.
pub fn are_steady(d: &Transition<'_>, ts: &[Term]) -> bool
    ensures { result ≡ are_steady (before_in d.now) (moment_in d.now) (effects_by d.now) (terms_of ts.now) }
{
    for t in ts {
        if !is_steady(d, t) {
            return false;
        }
    }
    true
}

/// Whether each of the arguments is steady. It takes no memory.
pub fn are_inners_steady(d: &Transition<'_>, ts: &[Inner]) -> bool
    ensures { result ≡ are_steady (before_in d.now) (moment_in d.now) (effects_by d.now) (map lifted (map inner_of ts.now)) }
{
    for t in ts {
        if !is_steady(d, &t.as_term()) {
            return false;
        }
    }
    true
}

/// What would make the literal false.
pub fn denying(l: &Literal) -> Doing<'_>
    ensures { (j : Judge) (m : ℕ) (x : Written) → would_of j m result x ≡ would_deny j m (relation_of l.now.atom) (sides_of l.now.atom) l.now.positive x }
{
    match &l.atom {
        Atom::Eq { .. } => Doing::Nothing,
        Atom::Pred(a) => {
            let args = front(&a.args, a.n);
            if l.positive {
                Doing::MakingFalse(a.pred, args)
            } else {
                Doing::MakingTrue(a.pred, args)
            }
        }
    }
}

/// What would undo the target.
pub fn undoing(target: &Target) -> Doing<'_>
    ensures { (j : Judge) (m : ℕ) (x : Written) → would_of j m result x ≡ would_undo j m (target_of target.now) x }
{
    match target {
        Target::Set(a) => Doing::MakingFalse(a.pred, front(&a.args, a.n)),
        Target::Unset(a) => Doing::MakingTrue(a.pred, front(&a.args, a.n)),
        Target::Clear(_) => Doing::Nothing,
        Target::Assign { place, .. } => Doing::Changing(place),
    }
}

/// What would make so the same as the target.
pub fn making_same(target: &Target) -> Doing<'_>
    ensures { (j : Judge) (m : ℕ) (x : Written) → would_of j m result x ≡ would_make_same j m (target_of target.now) x }
{
    match target {
        Target::Set(a) => Doing::MakingTrue(a.pred, front(&a.args, a.n)),
        Target::Unset(a) => Doing::MakingFalse(a.pred, front(&a.args, a.n)),
        Target::Clear(_) => Doing::Nothing,
        Target::Assign { place, value } => Doing::Assigning(place, value),
    }
}
