//! Literals from which nothing follows by the rules of closing.
ghost use Rattle.std.specs.Prelude.{◌≡◌, map, not};
ghost use Rattle.std.specs.List.{list_all};
ghost use Rattle.pks_terms.specs.Views.{effect_of, literal_of, literals_in};
ghost use Rattle.pks_terms.specs.Orders.{literal_cmp};
ghost use Rattle.pks_laws.specs.Lookup.{is_among};
ghost use Rattle.pks_kf.specs.Known.{literals_of};
ghost use Rattle.pks_kx.specs.Groups.{groups_of};
ghost use Rattle.pks_progress_interference.specs.EffectViews.{effects_in};
ghost use Rattle.pks_laws_progress.specs.Loose.{is_predicate, is_in_no_group, is_loose, bring_nothing};
ghost use Rattle.pks_progress.specs.Ahead.{is_assignment, assign_nothing};

use pks_kf::Kf;
use pks_kx::Kx;
use pks_progress_interference::effects::Effects;
use pks_terms::ids::PredId;
use pks_terms::literal::{Atom, Literal};
use pks_terms::objects::are_objects;
use pks_terms::schema::{Effect, Target};
use pks_terms::term::front;

fn is_predicate(p: PredId, l: &Literal) -> bool
    ensures { result ≡ is_predicate p.0 (literal_of l.now).relation }
{
    match &l.atom {
        Atom::Pred(a) => a.pred.0 == p.0,
        Atom::Eq { .. } => false,
    }
}

/// Whether none of the literals says or denies the predicate.
fn have_none(p: PredId, literals: &[Literal]) -> bool
    ensures { result ≡ list_all (λ m. not (is_predicate p.0 m.relation)) (literals_in literals.now) }
{
    for l in literals {
        if is_predicate(p, l) {
            return false;
        }
    }
    true
}

fn is_in_no_group(kx: &Kx, p: PredId) -> bool
    ensures { result ≡ is_in_no_group (groups_of kx.now) p.0 }
{
    for g in kx.items() {
        if !have_none(p, g.as_slice()) {
            return false;
        }
    }
    true
}

/// Whether the literal says or denies at objects a predicate that is in no group.
fn is_loose(kx: &Kx, l: &Literal) -> bool
    ensures { result ≡ is_loose (groups_of kx.now) (literal_of l.now) }
{
    match &l.atom {
        Atom::Pred(a) => is_in_no_group(kx, a.pred) && are_objects(front(&a.args, a.n)),
        Atom::Eq { .. } => false,
    }
}

#[tactic(auto, using(crate::proofs::Still::members))]
fn is_among(kf: &Kf, l: &Literal) -> bool
    ensures { result ≡ is_among literal_cmp (literal_of l.now) (literals_of kf.now) }
{
    kf.has(l)
}

/// Whether each of the literals is known or loose.
pub(crate) fn bring_nothing(kf: &Kf, kx: &Kx, literals: &[Literal]) -> bool
    ensures { result ≡ bring_nothing (literals_of kf.now) (groups_of kx.now) (literals_of literals.now) }
{
    for l in literals {
        if !(is_among(kf, l) || is_loose(kx, l)) {
            return false;
        }
    }
    true
}

fn is_assignment(e: &Effect) -> bool
    ensures { result ≡ is_assignment (effect_of e.now).target }
{
    match &e.target {
        Target::Assign { .. } => true,
        Target::Set(_) | Target::Unset(_) | Target::Clear(_) => false,
    }
}

fn none_assigns(written: &[Effect]) -> bool
    ensures { result ≡ assign_nothing (map effect_of written.now) }
{
    for e in written {
        if is_assignment(e) {
            return false;
        }
    }
    true
}

/// Whether none of the effects assigns a value.
#[tactic(auto, using(crate::proofs::Still::assigned))]
pub(crate) fn assign_nothing(es: Effects<'_>) -> bool
    ensures { result ≡ assign_nothing (effects_in es.entry) }
{
    none_assigns(es.written)
}
