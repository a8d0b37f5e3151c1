//! Literals that in normal form are of a predicate at objects.
ghost use Rattle.std.specs.Prelude.{◌≡◌, map};
ghost use Rattle.std.specs.List.{list_any, filter, flat_map};
ghost use Rattle.pks_terms.specs.Closure.{applications_in, is_application};
ghost use Rattle.pks_terms.specs.Syntax.{term_of as lifted};
ghost use Rattle.pks_terms.specs.ValidProblems.{ArePlaced};
ghost use Rattle.pks_terms.specs.Views.{inner_of, term_of, terms_of, literal_of, effect_of};
ghost use Rattle.pks_query_lookup.specs.Fives.{five_of};
ghost use Rattle.pks_laws_forget.specs.Testing.{is_assigned, is_moved, is_kept_copy};

use crate::effects::{has, is_assigned};
use pks_query_lookup::derived::Derived;
use pks_query_lookup::five::Five;
use pks_terms::literal::Literal;
use pks_terms::objects::is_of_objects;
use pks_terms::schema::Effect;
use pks_terms::term::{Inner, Term, front};

fn some_assigned(before: &Five, effects: &[Effect], ts: &[Inner]) -> bool
    requires { ArePlaced effects.now }
    ensures { result ≡ list_any (is_assigned (five_of before.now) (map effect_of effects.now)) (filter is_application (map lifted (map inner_of ts.now))) }
{
    for t in ts {
        if matches!(t, Inner::App { .. }) && is_assigned(before, effects, &t.as_term()) {
            return true;
        }
    }
    false
}

/// Whether a place in the term is assigned.
fn moves(before: &Five, effects: &[Effect], t: &Term) -> bool
    requires { ArePlaced effects.now }
    ensures { result ≡ list_any (is_assigned (five_of before.now) (map effect_of effects.now)) (applications_in (term_of t.now)) }
{
    match t {
        Term::Obj(_) | Term::Param(_) => false,
        Term::App { n, args, .. } => {
            is_assigned(before, effects, t) || some_assigned(before, effects, front(args, *n))
        }
    }
}

#[tactic(auto, using(crate::proofs::Found::any))]
fn some_moves(before: &Five, effects: &[Effect], ts: &[Term]) -> bool
    requires { ArePlaced effects.now }
    ensures { result ≡ list_any (is_assigned (five_of before.now) (map effect_of effects.now)) (flat_map applications_in (terms_of ts.now)) }
{
    for t in ts {
        if moves(before, effects, t) {
            return true;
        }
    }
    false
}

/// Whether a place in the literal is assigned.
fn is_moved(before: &Five, effects: &[Effect], l: &Literal) -> bool
    requires { ArePlaced effects.now }
    ensures { result ≡ is_moved (five_of before.now) (map effect_of effects.now) (literal_of l.now) }
{
    some_moves(before, effects, l.atom.arguments().terms())
}

/// Whether the literal is in normal form of a predicate at objects, and known after or moved.
pub(crate) fn is_kept_copy(before: &Derived, after: &Five, effects: &[Effect], l: &Literal) -> bool
    requires { ArePlaced effects.now }
    ensures { result ≡ is_kept_copy (five_of before.now) (five_of after.now) (map effect_of effects.now) (literal_of l.now) }
{
    is_of_objects(&before.normals().normal_literal(l))
        && (has(after, l) || is_moved(before.five(), effects, l))
}
