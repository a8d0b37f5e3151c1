// What unconditional effects, and the one effect on a predicate, justify.
ghost use Rattle.std.specs.Prelude.{◌≡◌, false, Some, ◌==◌};
ghost use Rattle.std.specs.List.{list_any};
ghost use Rattle.pks_terms.specs.Sets.{with_later};
ghost use Rattle.pks_terms.specs.Syntax.{negated};
ghost use Rattle.pks_terms.specs.Justified.{is_target_on, is_unconditional, is_about, decides, is_decided_by, is_plain_value, assigns_known, is_set_on, is_clear_of, clears_all};
ghost use Rattle.pks_terms.specs.Views.{term_of, literal_of, relation_of, pattern_of, target_of, effect_of};
ghost use Rattle.pks_terms.specs.ValidProblems.{AssignsToPlace};
ghost use Rattle.pks_justify.specs.Places.{AssignToPlaces};
ghost use Rattle.pks_justify.specs.Asked.{given_view};
ghost use Rattle.pks_justify.specs.Effects.{effects_of, is_this_or_negation, knows_condition, only_one};

use crate::fitting::{is_plain_term, is_same};
use crate::given::Premises;
use crate::undoing::may_be_undone;
use pks_terms::ids::PredId;
use pks_terms::literal::{Atom, Literal, Pattern, atom_literal};
use pks_terms::schema::{Effect, Target};
use pks_terms::term::{Term, front};

fn is_unconditional(e: &Effect) -> bool
    ensures { result ≡ is_unconditional (effect_of e.now) }
{
    front(&e.cond.literals, e.cond.n).is_empty()
}

fn writes(p: PredId, target: &Target) -> bool
    ensures { result ≡ is_target_on p.0 (target_of target.now) }
{
    match target {
        Target::Set(a) | Target::Unset(a) => a.pred.0 == p.0,
        Target::Clear(x) => x.pred.0 == p.0,
        Target::Assign { .. } => false,
    }
}

fn some_writes(p: PredId, effects: &[Effect]) -> bool
    ensures { result ≡ list_any (λ e. is_target_on p.0 e.target) (effects_of effects.now) }
{
    for e in effects {
        if writes(p, &e.target) {
            return true;
        }
    }
    false
}

#[tactic(auto, unfolding(pks_terms::specs::Orders::literal_eq))]
fn is_this_or_negation(made: &Literal, l: &Literal) -> bool
    ensures { result ≡ is_this_or_negation (literal_of made.now) (literal_of l.now) }
{
    made == l || *made == l.negated()
}

fn is_about(l: &Literal, target: &Target) -> bool
    ensures { result ≡ is_about (literal_of l.now) (target_of target.now) }
{
    match target {
        Target::Set(a) => is_this_or_negation(&atom_literal(a, true), l),
        Target::Unset(a) => is_this_or_negation(&atom_literal(a, false), l),
        Target::Clear(_) | Target::Assign { .. } => false,
    }
}

// The condition is given, as a whole or literal by literal.
fn knows_condition(g: &Premises<'_>, e: &Effect) -> bool
    ensures { result ≡ knows_condition (given_view g.now) (effect_of e.now).condition }
{
    g.knows_whether(&e.cond) || g.knows_each_either_way(front(&e.cond.literals, e.cond.n))
}

fn decides(g: &Premises<'_>, l: &Literal, e: &Effect) -> bool
    ensures { result ≡ decides (given_view g.now) (literal_of l.now) (effect_of e.now) }
{
    is_about(l, &e.target)
        && (!is_unconditional(e) && (g.knows_either_way(l) && knows_condition(g, e)))
}

// The one effect on the predicate decides the literal.
fn only_one_decides(g: &Premises<'_>, l: &Literal, p: PredId, effects: &[Effect]) -> bool
    ensures { result ≡ only_one (λ e. is_target_on p.0 e.target) (decides (given_view g.now) (literal_of l.now)) (effects_of effects.now) }
{
    match effects {
        [] => false,
        [e, others @ ..] => {
            if writes(p, &e.target) {
                !some_writes(p, others) && decides(g, l, e)
            } else {
                only_one_decides(g, l, p, others)
            }
        }
    }
}

/// The one effect on the literal's predicate decides it.
#[tactic(auto, using(crate::proofs::Alone::only_single))]
pub fn is_decided(g: &Premises<'_>, l: &Literal, effects: &[Effect]) -> bool
    ensures { result ≡ is_decided_by (given_view g.now) (literal_of l.now) (relation_of l.now.atom) (effects_of effects.now) }
{
    match &l.atom {
        Atom::Pred(a) => only_one_decides(g, l, a.pred, effects),
        Atom::Eq { .. } => false,
    }
}

fn is_plain_value(g: &Premises<'_>, t: &Term) -> bool
    ensures { result ≡ is_plain_value (given_view g.now) (term_of t.now) }
{
    is_plain_term(t) || g.knows_value(t)
}

// The effect gives the place a known value, unconditionally, and none of the later ones may undo it.
fn assigns_known(g: &Premises<'_>, t: &Term, e: &Effect, later: &[Effect]) -> bool
    requires { AssignsToPlace e.now.target }
    ensures { result ≡ assigns_known (given_view g.now) (term_of t.now) (effect_of e.now, effects_of later.now) }
{
    match &e.target {
        Target::Assign { place, value } => {
            is_same(place, t)
                && (is_unconditional(e)
                    && (is_plain_value(g, value) && !may_be_undone(g, &e.target, later)))
        }
        Target::Set(_) | Target::Unset(_) | Target::Clear(_) => false,
    }
}

/// Some effect does so.
pub fn some_assigns_known(g: &Premises<'_>, t: &Term, effects: &[Effect]) -> bool
    requires { AssignToPlaces effects.now }
    ensures { result ≡ list_any (assigns_known (given_view g.now) (term_of t.now)) (with_later (effects_of effects.now)) }
{
    match effects {
        [] => false,
        [e, later @ ..] => assigns_known(g, t, e, later) || some_assigns_known(g, t, later),
    }
}

fn some_sets(p: PredId, effects: &[Effect]) -> bool
    ensures { result ≡ list_any (λ e. is_set_on p.0 e.target) (effects_of effects.now) }
{
    for e in effects {
        if sets(p, &e.target) {
            return true;
        }
    }
    false
}

fn sets(p: PredId, target: &Target) -> bool
    ensures { result ≡ is_set_on p.0 (target_of target.now) }
{
    match target {
        Target::Set(a) => a.pred.0 == p.0,
        Target::Unset(_) | Target::Clear(_) | Target::Assign { .. } => false,
    }
}

fn clears(x: &Pattern, target: &Target) -> bool
    ensures { result ≡ is_clear_of (pattern_of x.now) (target_of target.now) }
{
    match target {
        Target::Clear(y) => y == x,
        Target::Set(_) | Target::Unset(_) | Target::Assign { .. } => false,
    }
}

fn clears_all(x: &Pattern, e: &Effect, later: &[Effect]) -> bool
    ensures { result ≡ clears_all (pattern_of x.now) (effect_of e.now, effects_of later.now) }
{
    clears(x, &e.target) && (is_unconditional(e) && !some_sets(x.pred, later))
}

/// Some effect clears the pattern, unconditionally, and no later one sets an atom of its predicate.
pub fn some_clears_all(x: &Pattern, effects: &[Effect]) -> bool
    ensures { result ≡ list_any (clears_all (pattern_of x.now)) (with_later (effects_of effects.now)) }
{
    match effects {
        [] => false,
        [e, later @ ..] => clears_all(x, e, later) || some_clears_all(x, later),
    }
}
