// The case of an add, and the first add without one.
ghost use Rattle.std.specs.Prelude.{◌≡◌, ◌+◌, ◌-◌, ◌<◌, ◌≤◌, ◌^◌, ℕ, List, [], ◌∷◌, ◌++◌, map, length, drop, Option, Some, None, option_map, slice_get, MatchResult};
ghost use Rattle.std.specs.List.{filter, flat_map};
ghost use Rattle.pks_terms.specs.Justified.{alone_case, whether_case, item_case, case_of};
ghost use Rattle.pks_terms.specs.Actions.{Add, ItemKf, ItemKv, ItemLcw};
ghost use Rattle.pks_terms.specs.Branching.{numbered};
ghost use Rattle.pks_terms.specs.Answers.{unjustified_in, unjustified};
ghost use Rattle.pks_terms.specs.Views.{term_of, literal_of, literals_in, conj_of, pattern_of, item_of, add_of, schema_of, problem_of};
ghost use Rattle.pks_justify.specs.Asked.{given_view};
ghost use Rattle.pks_justify.specs.Effects.{effects_of, senses_of};
ghost use Rattle.pks_justify.specs.Cases.{case_view, adds_of, schemas_of, unjustified_view, first_without_case, first_unjustified};
ghost use Rattle.pks_terms.specs.ValidProblems.{IsValidProblem};
ghost use Rattle.pks_justify.specs.Places.{AssignToPlaces, AllAssignToPlaces, AreNumbered};
ghost use Rattle.pks_terms.specs.Problems.{schema_of as action_of};

use crate::deciding::{is_decided, some_assigns_known, some_clears_all};
use crate::fitting::{is_among_found, is_found, is_made_so, is_value_found};
use crate::given::{Premises, queries_of};
use pks_terms::ids::ActId;
use pks_terms::literal::{Atom, Conj, Literal, Pattern};
use pks_terms::problem::Problem;
use pks_terms::schema::{Adds, Item, Schema};
use pks_terms::term::{Term, front};

/// How the text of an action justifies an add (`docs/RULES.md`, "Justified adds").
#[derive(Clone, Copy, Debug, PartialEq, Eq)]
pub enum Case {
    /// `kf` of a literal that a `set` or `unset` makes so.
    J1,
    /// `kf` of an equation that an `assign` makes so.
    J2,
    /// `kw` of a formula that a `sense` finds.
    J3,
    /// `kw` of a literal whose predicate a `sense-all` finds.
    J4,
    /// `kw` of a literal that a conditional effect decides.
    J5,
    /// `kv` of a term that a `sense-value` finds.
    J6,
    /// `kv` of an application that is assigned a known value.
    J7,
    /// `lcw` of a pattern that is cleared.
    J8,
}

fn literal_case(g: &Premises<'_>, schema: &Schema<'_>, l: &Literal) -> Option<Case>
    requires { AssignToPlaces schema.now.effects }
    ensures { option_map case_view result ≡ item_case (given_view g.now) (schema_of schema.now) (ItemKf (literal_of l.now)) }
{
    if is_made_so(g, l, schema.effects.as_slice()) {
        match &l.atom {
            Atom::Pred(_) => Some(Case::J1),
            Atom::Eq { .. } => Some(Case::J2),
        }
    } else {
        None
    }
}

fn one_case(g: &Premises<'_>, schema: &Schema<'_>, l: &Literal) -> Option<Case>
    ensures { option_map case_view result ≡ alone_case (given_view g.now) (schema_of schema.now) (literal_of l.now ∷ []) }
{
    if is_among_found(l, schema.senses.as_slice()) {
        Some(Case::J4)
    } else if is_decided(g, l, schema.effects.as_slice()) {
        Some(Case::J5)
    } else {
        None
    }
}

fn alone_case(g: &Premises<'_>, schema: &Schema<'_>, literals: &[Literal]) -> Option<Case>
    ensures { option_map case_view result ≡ alone_case (given_view g.now) (schema_of schema.now) (literals_in literals.now) }
{
    match literals {
        [] => None,
        [l, others @ ..] => match others {
            [] => one_case(g, schema, l),
            [_other, _rest @ ..] => None,
        },
    }
}

fn formula_case(g: &Premises<'_>, schema: &Schema<'_>, c: &Conj) -> Option<Case>
    ensures { option_map case_view result ≡ whether_case (given_view g.now) (schema_of schema.now) (conj_of c.now) }
{
    if is_found(c, schema.senses.as_slice()) {
        return Some(Case::J3);
    }
    alone_case(g, schema, front(&c.literals, c.n))
}

fn value_case(g: &Premises<'_>, schema: &Schema<'_>, t: &Term) -> Option<Case>
    requires { AssignToPlaces schema.now.effects }
    ensures { option_map case_view result ≡ item_case (given_view g.now) (schema_of schema.now) (ItemKv (term_of t.now)) }
{
    if is_value_found(t, schema.senses.as_slice()) {
        Some(Case::J6)
    } else if some_assigns_known(g, t, schema.effects.as_slice()) {
        Some(Case::J7)
    } else {
        None
    }
}

fn region_case(g: &Premises<'_>, schema: &Schema<'_>, x: &Pattern) -> Option<Case>
    ensures { option_map case_view result ≡ item_case (given_view g.now) (schema_of schema.now) (ItemLcw (pattern_of x.now)) }
{
    if some_clears_all(x, schema.effects.as_slice()) {
        Some(Case::J8)
    } else {
        None
    }
}

fn item_case(g: &Premises<'_>, schema: &Schema<'_>, item: &Item) -> Option<Case>
    requires { AssignToPlaces schema.now.effects }
    ensures { option_map case_view result ≡ item_case (given_view g.now) (schema_of schema.now) (item_of item.now) }
{
    match item {
        Item::Kf(l) => literal_case(g, schema, l),
        Item::Kw(c) => formula_case(g, schema, c),
        Item::Kv(t) => value_case(g, schema, t),
        Item::Lcw(x) => region_case(g, schema, x),
    }
}

/// The case of an add, which needn't be one of the action's, by the text of this action (`docs/RULES.md`, "Justified
/// adds"), or none where no case fits. It asks that what is assigned to is an application, and takes no memory.
#[tactic(auto, unfolding(pks_terms::specs::Justified::case_of))]
pub fn case_in(schema: &Schema<'_>, add: &Adds) -> Option<Case>
    requires { AssignToPlaces schema.now.effects }
    ensures { option_map case_view result ≡ case_of (schema_of schema.now) (add_of add.now) }
{
    item_case(&queries_of(schema, add), schema, &add.item)
}

// The number of the first add without a case, these having numbers from `number` on.
pub fn first_in(schema: &Schema<'_>, adds: &[Adds], number: u64) -> Option<u32>
    requires placed { AssignToPlaces schema.now.effects }
    requires few { number + length adds.now ≤ 2 ^ 32 }
    ensures { result ≡ first_without_case (schema_of schema.now) number (adds_of adds.now) }
{
    match adds {
        [] => None,
        [add, others @ ..] => match case_in(schema, add) {
            None => Some(number as u32),
            Some(_) => first_in(schema, others, number + 1),
        },
    }
}

/// The first add without a case.
#[derive(Clone, Copy, PartialEq, Eq)]
pub struct Unjustified {
    /// Its action.
    pub action: ActId,
    /// Its number in the action, counted from 1.
    pub effect: u32,
}

// The first add without a case in these actions, which have numbers from `action` on.
fn first_among(schemas: &[Schema<'_>], action: u16) -> Option<Unjustified>
    requires placed { AllAssignToPlaces schemas.now }
    requires numbered { AreNumbered schemas.now }
    requires few { action + length schemas.now ≤ 256 }
    ensures { option_map unjustified_view result ≡ first_unjustified action (schemas_of schemas.now) }
{
    match schemas {
        [] => None,
        [schema, others @ ..] => match first_in(schema, schema.adds.as_slice(), 1) {
            Some(effect) => Some(Unjustified {
                action: ActId(action as u8),
                effect,
            }),
            None => first_among(others, action + 1),
        },
    }
}

/// Whether every add of every action has a case (`docs/RULES.md`, "Justified adds"). It asks that the problem is valid,
/// takes no memory, and names the first add without a case, by action and then by number, where there is one.
#[tactic(auto, using(crate::proofs::First::none_without, crate::proofs::First::first_without))]
pub fn justify(p: &Problem<'_>) -> Result<(), Unjustified>
    requires { IsValidProblem p.now }
    ensures { MatchResult result (λ _. unjustified (problem_of p.now) ≡ []) (λ u. (rest : List (ℕ × ℕ)) × (unjustified (problem_of p.now) ≡ unjustified_view u ∷ rest)) }
{
    match first_among(p.schemas.as_slice(), 0) {
        None => Ok(()),
        Some(first) => Err(first),
    }
}

/// The case of an add, which needn't stand in the file, in an action (`docs/RULES.md`, "Justified adds"), or none where no
/// case fits. It asks that the problem is valid and the action is declared, and takes no memory.
pub fn case_with(p: &Problem<'_>, action: ActId, add: &Adds) -> Option<Case>
    requires valid { IsValidProblem p.now }
    requires declared { action.0 < length p.now.schemas }
    ensures { option_map case_view result ≡ case_of (action_of (problem_of p.now) action.0) (add_of add.now) }
{
    case_in(&p.schemas.as_slice()[usize::from(action.0)], add)
}

/// The case of an add of an action, adds counted from 1 (`docs/RULES.md`, "Justified adds"), or none where no case fits.
/// It asks that the problem is valid and the add is there, and takes no memory.
pub fn case_of(p: &Problem<'_>, action: ActId, effect: u32) -> Option<Case>
    requires valid { IsValidProblem p.now }
    requires declared { action.0 < length p.now.schemas }
    requires counted { 1 ≤ effect }
    requires there { effect ≤ length (action_of (problem_of p.now) action.0).adds }
    ensures { (a : Add) → slice_get (action_of (problem_of p.now) action.0).adds (effect - 1) ≡ Some a → option_map case_view result ≡ case_of (action_of (problem_of p.now) action.0) a }
{
    let schema = &p.schemas.as_slice()[usize::from(action.0)];
    case_in(schema, &schema.adds.as_slice()[(effect - 1) as usize])
}
