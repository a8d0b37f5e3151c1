//! The literals that the goal asks for: which are counted, how many are unmet, and how many of them one action may make true.
ghost use Rattle.std.specs.Prelude.{◌≡◌, [], ◌∷◌, map, OnOk};
ghost use Rattle.std.specs.List.{list_any};
ghost use Rattle.pks_terms.specs.Orders.{number_of, arguments_of};
ghost use Rattle.pks_terms.specs.Views.{inner_of, term_of, terms_of, atom_of, relation_of, sides_of, literal_of, literals_in, target_of, effect_of, aim_of};
ghost use Rattle.pks_world.specs.Contents.{world_of};
ghost use Rattle.pks_search_distance.specs.Unmet.{unmet};
ghost use Rattle.pks_search_distance.specs.Counted.{are_different, are_apart, is_plain, may_be, may_hit, is_of, may_equate, may_make, may_meet, meets, most_met, AddsWanted};
ghost use Rattle.pks_search_distance.specs.Gained.{ground_action_of};

use crate::ground_actions::GroundAction;
use crate::may::terms_in;
use pks_terms::ids::PredId;
use pks_terms::literal::{Atom, Literal, PredAtom};
use pks_terms::objects::{are_objects, is_object, is_place};
use pks_terms::problem::Aim;
use pks_terms::schema::{Effect, Query, Target};
use pks_terms::term::{Inner, Term, are_two_objects};
use pks_world::World;
use std::alloc::AllocError;

/// Whether the atom is a predicate at objects, or an equation of a place and an object.
pub(crate) fn is_plain(a: &Atom) -> bool
    ensures { result ≡ is_plain (relation_of a.now) (sides_of a.now) }
{
    match a {
        Atom::Pred(a) => are_objects(terms_in(&a.args, a.n)),
        Atom::Eq { left, right } => is_place(left) && is_object(right),
    }
}

/// Whether two different objects stand at the same place of the lists.
fn are_apart(ts: &[Term], us: &[Term]) -> bool
    ensures { result ≡ are_apart (terms_of ts.now) (terms_of us.now) }
{
    match ts {
        [] => false,
        [t, ts @ ..] => match us {
            [] => false,
            [u, us @ ..] => are_two_objects(t, u) || are_apart(ts, us),
        },
    }
}

/// Whether the arguments are two different objects.
fn are_different(t: &Inner, u: &Inner) -> bool
    ensures { result ≡ are_different (inner_of t.now) (inner_of u.now) }
{
    match (t, u) {
        (Inner::Obj(d), Inner::Obj(e)) => d.0 != e.0,
        _ => false,
    }
}

/// The same of arguments.
fn are_inner_apart(ts: &[Inner], us: &[Inner]) -> bool
    ensures { result ≡ are_apart (map inner_of ts.now) (map inner_of us.now) }
{
    match ts {
        [] => false,
        [t, ts @ ..] => match us {
            [] => false,
            [u, us @ ..] => are_different(t, u) || are_inner_apart(ts, us),
        },
    }
}

/// Whether the first atom may be the second one.
fn may_be(a: &PredAtom, of: &Atom) -> bool
    ensures { result ≡ may_be (atom_of a.now) (relation_of of.now) (sides_of of.now) }
{
    match of {
        Atom::Pred(b) => a.pred.0 == b.pred.0
            && !are_apart(terms_in(&a.args, a.n), terms_in(&b.args, b.n)),
        Atom::Eq { .. } => false,
    }
}

/// Whether the atom is one of the predicate.
fn is_of(a: &Atom, pred: PredId) -> bool
    ensures { result ≡ is_of (relation_of a.now) pred.0 }
{
    match a {
        Atom::Pred(a) => pred.0 == a.pred.0,
        Atom::Eq { .. } => false,
    }
}

/// Whether the place that is written may be the other one.
fn may_hit(at: &Term, place: &Term) -> bool
    ensures { result ≡ may_hit (number_of (term_of at.now)) (arguments_of (term_of at.now)) (term_of place.now) }
{
    match place {
        Term::Obj(_) | Term::Param(_) => false,
        Term::App { .. } => at.number() == place.number()
            && !are_inner_apart(at.arguments(), place.arguments()),
    }
}

/// Whether giving the place the value may make the equation, or the inequation, true.
fn may_equate(at: &Term, value: &Term, l: &Literal) -> bool
    ensures { result ≡ may_equate (number_of (term_of at.now)) (arguments_of (term_of at.now)) (term_of value.now) l.now.positive (relation_of l.now.atom) (sides_of l.now.atom) }
{
    match &l.atom {
        Atom::Pred(_) => false,
        Atom::Eq { left, right } => may_hit(at, left)
            && !(l.positive && are_two_objects(value, right)),
    }
}

/// Whether the target may make the literal true.
fn may_make(target: &Target, l: &Literal) -> bool
    ensures { result ≡ may_make (target_of target.now) (literal_of l.now) }
{
    match target {
        Target::Set(a) => l.positive && may_be(a, &l.atom),
        Target::Unset(a) => !l.positive && may_be(a, &l.atom),
        Target::Clear(x) => !l.positive && is_of(&l.atom, x.pred),
        Target::Assign { place, value } => may_equate(place, value, l),
    }
}

/// Whether one of the effects may make the literal true.
fn some_make(effects: &[Effect], l: &Literal) -> bool
    ensures { result ≡ list_any (λ e. may_make e.target (literal_of l.now)) (map effect_of effects.now) }
{
    for effect in effects {
        if may_make(&effect.target, l) {
            return true;
        }
    }
    false
}

/// Whether the effects may make the literal true.
pub(crate) fn may_meet(effects: &[Effect], l: &Literal) -> bool
    ensures { result ≡ may_meet (map effect_of effects.now) (literal_of l.now) }
{
    !is_plain(&l.atom) || some_make(effects, l)
}

/// How many of the literals the effects may make true.
#[tactic(auto, using(crate::proofs::Unmet::counted_meets))]
pub(crate) fn meets(effects: &[Effect], wanted: &[Literal]) -> usize
    ensures { result ≡ meets (map effect_of effects.now) (literals_in wanted.now) }
{
    wanted.iter().filter(|l| may_meet(effects, *l)).count()
}

/// The most of the literals that one of the ground actions may make true.
pub(crate) fn most_met(ground_actions: &[GroundAction], wanted: &[Literal]) -> usize
    ensures { result ≡ most_met (map ground_action_of ground_actions.now) (literals_in wanted.now) }
{
    match ground_actions {
        [] => 0,
        [ground_action, rest @ ..] => meets(ground_action.effects.as_slice(), wanted).max(most_met(
            rest, wanted,
        )),
    }
}

/// How many of the literals are false in the world.
#[tactic(auto, using(crate::proofs::Unmet::counted_unmet))]
pub(crate) fn count_unmet(w: &World, wanted: &[Literal]) -> usize
    ensures { result ≡ unmet (world_of w.now) (literals_in wanted.now) }
{
    wanted.iter().filter(|l| !w.holds(*l)).count()
}

/// Adds the literal that the aim asks for at the end, where it is a plain one that isn't there yet.
#[tactic(auto, using(crate::proofs::Wanting::adds_none, crate::proofs::Wanting::adds_one, crate::proofs::Wanting::adds_all))]
fn add_wanted(a: &Aim, to: &mut Vec<Literal>) -> Result<(), AllocError>
    ensures { OnOk result (AddsWanted (aim_of a.now ∷ []) (literals_in to.old.items) (literals_in to.new.items)) }
{
    if let Aim::Now(Query::K(l)) = a {
        if is_plain(&l.atom) && !to.as_slice().contains(l) {
            to.push(*l)?;
        }
    }
    Ok(())
}

/// Adds those that the aims ask for, each once.
#[tactic(auto, using(crate::proofs::Wanting::adds_none, crate::proofs::Wanting::adds_one, crate::proofs::Wanting::adds_all))]
pub(crate) fn add_all_wanted(aims: &[Aim], to: &mut Vec<Literal>) -> Result<(), AllocError>
    ensures { OnOk result (AddsWanted (map aim_of aims.now) (literals_in to.old.items) (literals_in to.new.items)) }
{
    if let [a, rest @ ..] = aims {
        add_wanted(a, to)?;
        add_all_wanted(rest, to)?;
    }
    Ok(())
}
