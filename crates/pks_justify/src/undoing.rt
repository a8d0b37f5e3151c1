// Which later effect may undo an earlier one.
ghost use Rattle.std.specs.Prelude.{◌≡◌, map};
ghost use Rattle.std.specs.List.{list_any};
ghost use Rattle.pks_terms.specs.Syntax.{Term as Value, term_of as lifted};
ghost use Rattle.pks_terms.specs.Justified.{apart, some_apart, some_fixed_apart, may_undo};
ghost use Rattle.pks_terms.specs.Orders.{number_of, arguments_of};
ghost use Rattle.pks_terms.specs.Actions.{Set, Unset, Assign};
ghost use Rattle.pks_terms.specs.Views.{inner_of, term_of, terms_of, atom_of, target_of};
ghost use Rattle.pks_justify.specs.Asked.{given_view};
ghost use Rattle.pks_justify.specs.Effects.{slots_of, inners_of, effects_of};

use crate::given::Premises;
use pks_terms::literal::{PredAtom, equation};
use pks_terms::schema::{Effect, Target};
use pks_terms::term::{Inner, Term, are_two_objects, front};

#[tactic(auto, unfolding(pks_terms::specs::Justified::apart))]
fn are_apart(g: &Premises<'_>, t: &Term, u: &Term) -> bool
    ensures { result ≡ apart (given_view g.now) (term_of t.now) (term_of u.now) }
{
    are_two_objects(t, u) || g.knows(&equation(t, u, false))
}

fn some_are_apart(g: &Premises<'_>, ts: &[Term], us: &[Term]) -> bool
    ensures { result ≡ some_apart (given_view g.now) (terms_of ts.now) (terms_of us.now) }
{
    match ts {
        [] => false,
        [t, ts @ ..] => match us {
            [] => false,
            [u, us @ ..] => are_apart(g, t, u) || some_are_apart(g, ts, us),
        },
    }
}

fn some_fixed_are_apart(g: &Premises<'_>, ts: &[Term], slots: &[Option<Term>]) -> bool
    ensures { result ≡ some_fixed_apart (given_view g.now) (terms_of ts.now) (slots_of slots.now) }
{
    match ts {
        [] => false,
        [t, ts @ ..] => match slots {
            [] => false,
            [Some(u), slots @ ..] => are_apart(g, t, u) || some_fixed_are_apart(g, ts, slots),
            [None, slots @ ..] => some_fixed_are_apart(g, ts, slots),
        },
    }
}

fn are_apart_inside(g: &Premises<'_>, t: &Inner, u: &Inner) -> bool
    ensures { result ≡ apart (given_view g.now) (lifted (inner_of t.now)) (lifted (inner_of u.now)) }
{
    are_apart(g, &t.as_term(), &u.as_term())
}

fn some_inside_are_apart(g: &Premises<'_>, ts: &[Inner], us: &[Inner]) -> bool
    ensures { result ≡ some_apart (given_view g.now) (map lifted (inners_of ts.now)) (map lifted (inners_of us.now)) }
{
    match ts {
        [] => false,
        [t, ts @ ..] => match us {
            [] => false,
            [u, us @ ..] => are_apart_inside(g, t, u) || some_inside_are_apart(g, ts, us),
        },
    }
}

fn places_are_apart(g: &Premises<'_>, place: &Term, other: &Term) -> bool
    ensures { result ≡ some_apart (given_view g.now) (map lifted (arguments_of (term_of place.now))) (map lifted (arguments_of (term_of other.now))) }
{
    some_inside_are_apart(g, place.arguments(), other.arguments())
}

fn may_make_false(g: &Premises<'_>, a: &PredAtom, later: &Target) -> bool
    ensures { result ≡ may_undo (given_view g.now) (Set (atom_of a.now)) (target_of later.now) }
{
    match later {
        Target::Unset(b) => a.pred.0 == b.pred.0
            && !some_are_apart(g, front(&a.args, a.n), front(&b.args, b.n)),
        Target::Clear(x) => a.pred.0 == x.pred.0
            && !some_fixed_are_apart(g, front(&a.args, a.n), front(&x.args, x.n)),
        Target::Set(_) | Target::Assign { .. } => false,
    }
}

fn may_make_true(g: &Premises<'_>, a: &PredAtom, later: &Target) -> bool
    ensures { result ≡ may_undo (given_view g.now) (Unset (atom_of a.now)) (target_of later.now) }
{
    match later {
        Target::Set(b) => a.pred.0 == b.pred.0
            && !some_are_apart(g, front(&a.args, a.n), front(&b.args, b.n)),
        Target::Unset(_) | Target::Clear(_) | Target::Assign { .. } => false,
    }
}

fn may_assign_again(g: &Premises<'_>, place: &Term, later: &Target) -> bool
    ensures { (v : Value) → result ≡ may_undo (given_view g.now) (Assign (number_of (term_of place.now)) (arguments_of (term_of place.now)) v) (target_of later.now) }
{
    match later {
        Target::Assign { place: other, .. } => place.number() == other.number()
            && !places_are_apart(g, place, other),
        Target::Set(_) | Target::Unset(_) | Target::Clear(_) => false,
    }
}

/// The second, written later, may undo the first.
pub fn may_undo(g: &Premises<'_>, first: &Target, later: &Target) -> bool
    ensures { result ≡ may_undo (given_view g.now) (target_of first.now) (target_of later.now) }
{
    match first {
        Target::Set(a) => may_make_false(g, a, later),
        Target::Unset(a) => may_make_true(g, a, later),
        Target::Clear(_) => false,
        Target::Assign { place, .. } => may_assign_again(g, place, later),
    }
}

/// One of these effects may undo the target.
pub fn may_be_undone(g: &Premises<'_>, first: &Target, later: &[Effect]) -> bool
    ensures { result ≡ list_any (λ f. may_undo (given_view g.now) (target_of first.now) f.target) (effects_of later.now) }
{
    for e in later {
        if may_undo(g, first, &e.target) {
            return true;
        }
    }
    false
}
