// What effects and senses justify, each for one kind of add.
ghost use Rattle.std.specs.Prelude.{◌≡◌, false, Option, option_map, ◌==◌};
ghost use Rattle.pks_terms.specs.Orders.{term_eq, literal_eq};
ghost use Rattle.std.specs.List.{list_any};
ghost use Rattle.std.specs.Option.{option_map_or};
ghost use Rattle.pks_terms.specs.Justified.{target_literal, makes_so, is_made_so, is_plain_term, covers, senses_all, senses_whether, senses_value};
ghost use Rattle.pks_terms.specs.Views.{term_of, terms_of, literal_of, relation_of, conj_of, target_of, effect_of, sense_of};
ghost use Rattle.pks_terms.specs.ValidProblems.{AssignsToPlace};
ghost use Rattle.pks_justify.specs.Places.{AssignToPlaces};
ghost use Rattle.pks_justify.specs.Asked.{given_view};
ghost use Rattle.pks_justify.specs.Effects.{slots_of, effects_of, senses_of};

use crate::given::Premises;
use crate::undoing::may_be_undone;
use pks_terms::literal::{Atom, Conj, Literal, atom_literal, equation};
use pks_terms::schema::{Effect, Sense, Target};
use pks_terms::term::{Term, front};

/// What is so after an effect with this target fires, or nothing where it clears. It asks that what is assigned to is an application. It
/// takes no memory.
pub fn literal_of_target(target: &Target) -> Option<Literal>
    requires { AssignsToPlace target.now }
    ensures { option_map literal_of result ≡ target_literal (target_of target.now) }
{
    match target {
        Target::Set(a) => Some(atom_literal(a, true)),
        Target::Unset(a) => Some(atom_literal(a, false)),
        Target::Clear(_) => None,
        Target::Assign { place, value } => Some(equation(place, value, true)),
    }
}

#[tactic(auto, unfolding(pks_terms::specs::Orders::literal_eq))]
fn makes_literal(l: &Literal, target: &Target) -> bool
    requires { AssignsToPlace target.now }
    ensures { result ≡ option_map_or (λ m. literal_eq m (literal_of l.now)) (target_literal (target_of target.now)) false }
{
    match literal_of_target(target) {
        Some(m) => m == *l,
        None => false,
    }
}

/// The effect makes the literal so, all its conditions given, and none of the later ones may undo it (`docs/RULES.md`,
/// "Justified adds"). It asks that what is assigned to is an application, and takes no memory.
pub fn makes_so(g: &Premises<'_>, l: &Literal, e: &Effect, later: &[Effect]) -> bool
    requires { AssignsToPlace e.now.target }
    ensures { result ≡ makes_so (given_view g.now) (literal_of l.now) (effect_of e.now, effects_of later.now) }
{
    makes_literal(l, &e.target)
        && (g.knows_all(front(&e.cond.literals, e.cond.n)) && !may_be_undone(g, &e.target, later))
}

/// Some effect makes the literal so.
#[tactic(auto, unfolding(pks_terms::specs::Justified::is_made_so))]
pub fn is_made_so(g: &Premises<'_>, l: &Literal, effects: &[Effect]) -> bool
    requires { AssignToPlaces effects.now }
    ensures { result ≡ is_made_so (given_view g.now) (literal_of l.now) (effects_of effects.now) }
{
    match effects {
        [] => false,
        [e, later @ ..] => makes_so(g, l, e, later) || is_made_so(g, l, later),
    }
}

// ---- senses

pub fn is_plain_term(t: &Term) -> bool
    ensures { result ≡ is_plain_term (term_of t.now) }
{
    match t {
        Term::Obj(_) | Term::Param(_) => true,
        Term::App { .. } => false,
    }
}

/// The two terms are the same. It takes no memory.
#[tactic(auto, unfolding(pks_terms::specs::Orders::term_eq))]
pub fn is_same(t: &Term, u: &Term) -> bool
    ensures { result ≡ term_eq (term_of t.now) (term_of u.now) }
{
    t == u
}

fn covers(slots: &[Option<Term>], terms: &[Term]) -> bool
    ensures { result ≡ covers (slots_of slots.now) (terms_of terms.now) }
{
    match slots {
        [] => terms.is_empty(),
        [None, slots @ ..] => match terms {
            [] => false,
            [t, terms @ ..] => is_plain_term(t) && covers(slots, terms),
        },
        [Some(u), slots @ ..] => match terms {
            [] => false,
            [t, terms @ ..] => is_same(u, t) && covers(slots, terms),
        },
    }
}

fn finds_all(l: &Literal, sense: &Sense) -> bool
    ensures { result ≡ senses_all (literal_of l.now) (relation_of l.now.atom) (sense_of sense.now) }
{
    match sense {
        Sense::Whether(_) | Sense::Value(_) => false,
        Sense::All(x) => match &l.atom {
            Atom::Pred(a) => x.pred.0 == a.pred.0
                && covers(front(&x.args, x.n), front(&a.args, a.n)),
            Atom::Eq { .. } => false,
        },
    }
}

fn finds_whether(c: &Conj, sense: &Sense) -> bool
    ensures { result ≡ senses_whether (conj_of c.now) (sense_of sense.now) }
{
    match sense {
        Sense::Whether(b) => b == c,
        Sense::Value(_) | Sense::All(_) => false,
    }
}

fn finds_value(t: &Term, sense: &Sense) -> bool
    ensures { result ≡ senses_value (term_of t.now) (sense_of sense.now) }
{
    match sense {
        Sense::Value(u) => is_same(u, t),
        Sense::Whether(_) | Sense::All(_) => false,
    }
}

/// A sense finds all true instances of a pattern that covers the literal's atom.
pub fn is_among_found(l: &Literal, senses: &[Sense]) -> bool
    ensures { result ≡ list_any (senses_all (literal_of l.now) (relation_of l.now.atom)) (senses_of senses.now) }
{
    for sense in senses {
        if finds_all(l, sense) {
            return true;
        }
    }
    false
}

/// A sense finds the truth of these literals.
pub fn is_found(c: &Conj, senses: &[Sense]) -> bool
    ensures { result ≡ list_any (senses_whether (conj_of c.now)) (senses_of senses.now) }
{
    for sense in senses {
        if finds_whether(c, sense) {
            return true;
        }
    }
    false
}

/// A sense finds the value of this term.
pub fn is_value_found(t: &Term, senses: &[Sense]) -> bool
    ensures { result ≡ list_any (senses_value (term_of t.now)) (senses_of senses.now) }
{
    for sense in senses {
        if finds_value(t, sense) {
            return true;
        }
    }
    false
}
