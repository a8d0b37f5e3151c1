//! Which terms stay as they are, and which literals an action spoils. `docs/RULES.md` has the rule on what an action may
//! change.
ghost use Rattle.std.specs.Prelude.{◌≡◌, map, not};
ghost use Rattle.std.specs.List.{list_all, filter};
ghost use Rattle.pks_terms.specs.Closure.{is_application};
ghost use Rattle.pks_terms.specs.Spoiling.{may_be_changed, is_stable, are_stable, may_be_denied, spoils};
ghost use Rattle.pks_terms.specs.Syntax.{term_of as lifted};
ghost use Rattle.pks_terms.specs.Views.{inner_of, term_of, terms_of, literal_of, relation_of, sides_of, signature_of};
ghost use Rattle.pks_query_lookup.specs.Fives.{five_of};
ghost use Rattle.pks_progress_interference.specs.EffectViews.{effects_in};

use crate::effects::Effects;
use crate::targets::{some_changes, some_makes_false, some_makes_true};
use pks_query_lookup::derived::Derived;
use pks_terms::literal::{Atom, Literal};
use pks_terms::problem::Signature;
use pks_terms::term::{Inner, Term, front};

#[tactic(auto, unfolding(pks_terms::specs::Spoiling::may_be_changed))]
fn may_be_changed(s: &Signature, d: &Derived, es: Effects<'_>, t: &Term) -> bool
    ensures { result ≡ may_be_changed (signature_of s.now) (five_of d.now) (effects_in es.entry) (term_of t.now) }
{
    some_changes(s, d, t, es)
}

fn inners_stay(s: &Signature, d: &Derived, es: Effects<'_>, ts: &[Inner]) -> bool
    ensures { result ≡ list_all (λ u. not (may_be_changed (signature_of s.now) (five_of d.now) (effects_in es.entry) u)) (filter is_application (map lifted (map inner_of ts.now))) }
{
    match ts {
        [] => true,
        [t, ts @ ..] => match t {
            Inner::Obj(_) | Inner::Param(_) => inners_stay(s, d, es, ts),
            Inner::App { .. } => {
                !may_be_changed(s, d, es, &t.as_term()) && inners_stay(s, d, es, ts)
            }
        },
    }
}

/// Whether the term is stable: no assignment that may fire may hit an application in it. It takes no memory.
#[tactic(auto, unfolding(pks_terms::specs::Spoiling::is_stable))]
pub fn is_stable(s: &Signature, d: &Derived, es: Effects<'_>, t: &Term) -> bool
    ensures { result ≡ is_stable (signature_of s.now) (five_of d.now) (effects_in es.entry) (term_of t.now) }
{
    match t {
        Term::Obj(_) | Term::Param(_) => true,
        Term::App { n, args, .. } => {
            !may_be_changed(s, d, es, t) && inners_stay(s, d, es, front(args, *n))
        }
    }
}

/// Whether each of the terms is stable. It takes no memory.
pub fn are_stable(s: &Signature, d: &Derived, es: Effects<'_>, ts: &[Term]) -> bool
    ensures { result ≡ are_stable (signature_of s.now) (five_of d.now) (effects_in es.entry) (terms_of ts.now) }
{
    for t in ts {
        if !is_stable(s, d, es, t) {
            return false;
        }
    }
    true
}

fn may_be_denied(s: &Signature, d: &Derived, es: Effects<'_>, l: &Literal) -> bool
    ensures { result ≡ may_be_denied (signature_of s.now) (five_of d.now) (effects_in es.entry) (relation_of l.now.atom) (sides_of l.now.atom) l.now.positive }
{
    match &l.atom {
        Atom::Eq { .. } => false,
        Atom::Pred(a) => {
            if l.positive {
                some_makes_false(s, d, a.pred, front(&a.args, a.n), es)
            } else {
                some_makes_true(s, d, a.pred, front(&a.args, a.n), es)
            }
        }
    }
}

/// Whether the effects spoil the literal: one of its terms isn't stable, or an effect that may fire may make it false. It
/// takes no memory.
#[tactic(auto, unfolding(pks_terms::specs::Spoiling::spoils))]
pub fn spoils(s: &Signature, d: &Derived, es: Effects<'_>, l: &Literal) -> bool
    ensures { result ≡ spoils (signature_of s.now) (five_of d.now) (effects_in es.entry) (literal_of l.now) }
{
    !are_stable(s, d, es, l.atom.arguments().terms()) || may_be_denied(s, d, es, l)
}
