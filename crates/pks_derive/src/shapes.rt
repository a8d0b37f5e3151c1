//! What the text of an action shows of what is known after it.

ghost use Rattle.std.specs.Prelude.{◌≡◌, map, Some, [], ◌∷◌};
ghost use Rattle.pks_terms.specs.Queries.{Know};
ghost use Rattle.pks_terms.specs.Syntax.{affirmed};
ghost use Rattle.pks_terms.specs.Actions.{Assign};
ghost use Rattle.pks_terms.specs.Orders.{number_of, arguments_of};
ghost use Rattle.pks_terms.specs.Shapes.{asking, plainly, made_known, known_by_condition, kept_known, done_plainly, without_condition, sense_shapes};
ghost use Rattle.pks_terms.specs.ValidProblems.{IsApplication, AssignsToPlace};
ghost use Rattle.pks_terms.specs.Views.{term_of, literals_in, conj_of, atom_of, target_of, effect_of, sense_of, query_of, item_of, add_of};
ghost use Rattle.pks_derive.specs.Offering.{made};

use pks_justify::literal_of_target;
use pks_terms::ids::Span;
use pks_terms::literal::{Conj, Literal, PredAtom, atom_literal};
use pks_terms::schema::{Adds, Effect, Item, Query, Sense, Target};
use pks_terms::term::{Term, front};

/// An add with one query or none, which stands nowhere in the source.
fn bare_add(n: u8, given: [Query; 4], item: Item) -> Adds
    ensures { result ≡ record { n = n; given = given; item = item; span = record { start = 0; end = 0 } } }
{
    Adds {
        n,
        given,
        item,
        span: Span { start: 0, end: 0 },
    }
}

/// An item that is added without a query.
fn plainly(item: Item) -> Adds
    ensures { add_of result ≡ plainly (item_of item) }
{
    bare_add(0, [Query::default(); 4], item)
}

/// `k` of each literal.
fn each_known(literals: &[Literal; 4]) -> [Query; 4]
    ensures { map query_of result ≡ map (λ l. asking (Know l)) (literals_in literals.now) }
{
    [
        Query::K(literals[0]),
        Query::K(literals[1]),
        Query::K(literals[2]),
        Query::K(literals[3]),
    ]
}

/// What an effect makes so is known where its conditions are.
#[tactic(auto, using(crate::proofs::Fronts::front_known))]
pub(crate) fn made_known(e: &Effect) -> Option<Adds>
    requires { AssignsToPlace e.now.target }
    ensures { made result ≡ made_known (effect_of e.now) }
{
    match literal_of_target(&e.target) {
        Some(l) => Some(bare_add(e.cond.n, each_known(&e.cond.literals), Item::Kf(l))),
        None => None,
    }
}

/// The formula of the one atom.
fn alone(a: &PredAtom) -> Conj
    ensures { conj_of result ≡ affirmed (atom_of a.now) ∷ [] }
{
    Conj::empty().with(&atom_literal(a, true))
}

/// Under a condition the atom is known to be true or false where both were.
fn known_by_condition(c: &Conj, a: &PredAtom) -> Option<Adds>
    ensures { made result ≡ known_by_condition (conj_of c.now) (atom_of a.now) }
{
    match front(&c.literals, c.n) {
        [] => None,
        [_first, _others @ ..] => {
            let formula = alone(a);
            let given = [
                Query::Kw(*c),
                Query::Kw(formula),
                Query::default(),
                Query::default(),
            ];
            Some(bare_add(2, given, Item::Kw(formula)))
        }
    }
}

/// So it is of a conditional effect that sets or unsets.
pub(crate) fn kept_known(e: &Effect) -> Option<Adds>
    ensures { made result ≡ kept_known (effect_of e.now) }
{
    match &e.target {
        Target::Set(a) | Target::Unset(a) => known_by_condition(&e.cond, a),
        Target::Clear(_) | Target::Assign { .. } => None,
    }
}

/// The place has a known value where the value that it gets is known.
fn assigned_known(place: &Term, value: &Term) -> Adds
    requires { IsApplication place.now }
    ensures { add_of result ∷ [] ≡ done_plainly (Assign (number_of (term_of place.now)) (arguments_of (term_of place.now)) (term_of value.now)) }
{
    match value {
        Term::App { .. } => {
            let given = [
                Query::Kv(*value),
                Query::default(),
                Query::default(),
                Query::default(),
            ];
            bare_add(1, given, Item::Kv(*place))
        }
        Term::Obj(_) | Term::Param(_) => plainly(Item::Kv(*place)),
    }
}

/// What a target does under no condition: an assigned place is known where its new value is, and no instance of a cleared
/// pattern is true.
fn done_plainly(target: &Target) -> Option<Adds>
    requires { AssignsToPlace target.now }
    ensures { made result ≡ done_plainly (target_of target.now) }
{
    match target {
        Target::Assign { place, value } => Some(assigned_known(place, value)),
        Target::Clear(x) => Some(plainly(Item::Lcw(*x))),
        Target::Set(_) | Target::Unset(_) => None,
    }
}

/// So it is of an effect without a condition.
pub(crate) fn without_condition(e: &Effect) -> Option<Adds>
    requires { AssignsToPlace e.now.target }
    ensures { made result ≡ without_condition (effect_of e.now).condition (effect_of e.now).target }
{
    match front(&e.cond.literals, e.cond.n) {
        [] => done_plainly(&e.target),
        [_first, _others @ ..] => None,
    }
}

/// What is sensed is known: the truth of a conjunction, the value of a term.
pub(crate) fn add_of_sense(sense: &Sense) -> Option<Adds>
    ensures { made result ≡ sense_shapes (sense_of sense.now) }
{
    match sense {
        Sense::Whether(c) => Some(plainly(Item::Kw(*c))),
        Sense::Value(t) => Some(plainly(Item::Kv(*t))),
        Sense::All(_) => None,
    }
}
