//! Whether a step hides nothing. `docs/RULES.md` has the rules on settling, and `docs/DECISIONS.md` says what the settled
//! past is.
ghost use Rattle.std.specs.Prelude.{◌≡◌, ◌&&◌, ◌||◌, map, IfOk};
ghost use Rattle.std.specs.List.{list_all};
ghost use Rattle.pks_terms.specs.ValidProblems.{AssignsToPlace, IsValidProblem, ArePlaced};
ghost use Rattle.pks_terms.specs.Views.{literal_of, effect_of, instance_of, problem_of};
ghost use Rattle.pks_terms.specs.Objects.{is_named};
ghost use Rattle.pks_query_lookup.specs.Fives.{five_of};
ghost use Rattle.pks_laws_forget.specs.Transparent.{gives_value};
ghost use Rattle.pks_laws_forget.specs.Testing.{has, fires_surely, is_decided_to, is_decided, stands_written, is_read_alike, hides_nothing};

use crate::effects::{effects_of, fires_never, fires_surely, has, made_by};
use crate::kept::{groups_last, literals_last, regions_last};
use crate::normal::in_normal_form;
use crate::objects::gives_value;
use crate::touching::are_unassigned;
use pks_query::databases::Db;
use pks_query_lookup::five::Five;
use pks_terms::literal::{Atom, Literal};
use pks_terms::objects::is_of_objects;
use pks_terms::problem::Problem;
use pks_terms::schema::{Effect, Instance};
use std::alloc::{AllocError, Global};

/// Whether the effect surely fires, and what it makes so is known after.
fn is_done(before: &Five, after: &Five, e: &Effect, l: &Literal) -> bool
    ensures { result ≡ (fires_surely (five_of before.now) (effect_of e.now) && has (five_of after.now) (literal_of l.now)) }
{
    fires_surely(before, e) && has(after, l)
}

/// Whether the literal gives a place an object as its value.
fn is_of_place(l: &Literal) -> bool
    ensures { result ≡ gives_value (literal_of l.now).relation (literal_of l.now).arguments }
{
    match &l.atom {
        Atom::Pred(_) => false,
        Atom::Eq { left, right } => gives_value(left, right),
    }
}

/// Whether the effect, which makes the literal so, is decided.
fn is_decided_to(before: &Five, after: &Five, e: &Effect, l: &Literal) -> bool
    ensures { result ≡ is_decided_to (five_of before.now) (five_of after.now) (effect_of e.now) (literal_of l.now) }
{
    (is_of_objects(l) && (is_done(before, after, e, l) || fires_never(before, e)))
        || (is_of_place(l) && is_done(before, after, e, l))
}

/// Whether the effect is decided.
fn is_decided(before: &Five, after: &Five, e: &Effect) -> bool
    requires { AssignsToPlace e.now.target }
    ensures { result ≡ is_decided (five_of before.now) (five_of after.now) (effect_of e.now) }
{
    match made_by(&e.target) {
        Some(l) => is_decided_to(before, after, e, &l),
        None => false,
    }
}

/// Whether each of the effects is decided.
fn are_decided(before: &Five, after: &Five, effects: &[Effect]) -> bool
    requires { ArePlaced effects.now }
    ensures { result ≡ list_all (is_decided (five_of before.now) (five_of after.now)) (map effect_of effects.now) }
{
    for e in effects {
        if !is_decided(before, after, e) {
            return false;
        }
    }
    true
}

fn is_of_predicate(l: &Literal) -> bool
    ensures { result ≡ is_named (literal_of l.now).relation }
{
    match &l.atom {
        Atom::Pred(_) => true,
        Atom::Eq { .. } => false,
    }
}

/// Whether the literal is known after, and gives a place an object or is of a predicate, and no function that occurs in it
/// is assigned.
fn stands_written(after: &Five, effects: &[Effect], l: &Literal) -> bool
    ensures { result ≡ stands_written (five_of after.now) (map effect_of effects.now) (literal_of l.now) }
{
    has(after, l)
        && (is_of_place(l)
            || (is_of_predicate(l) && are_unassigned(effects, l.atom.arguments().terms())))
}

/// Whether the effect as it is written surely doesn't fire, or what it makes so stands so after.
fn is_read_alike(before: &Five, after: &Five, effects: &[Effect], e: &Effect) -> bool
    requires { AssignsToPlace e.now.target }
    ensures { result ≡ is_read_alike (five_of before.now) (five_of after.now) (map effect_of effects.now) (effect_of e.now) }
{
    if fires_never(before, e) {
        return true;
    }
    match made_by(&e.target) {
        Some(l) => stands_written(after, effects, &l),
        None => false,
    }
}

/// Whether so each of the effects as they are written.
fn are_read_alike(before: &Five, after: &Five, effects: &[Effect], written: &[Effect]) -> bool
    requires { ArePlaced written.now }
    ensures { result ≡ list_all (is_read_alike (five_of before.now) (five_of after.now) (map effect_of effects.now)) (map effect_of written.now) }
{
    for e in written {
        if !is_read_alike(before, after, effects, e) {
            return false;
        }
    }
    true
}

/// Whether the step from the databases before by the instance to those after hides nothing: each effect, its target in normal
/// form by the databases before, is decided and read alike as it is written, and each literal, group and region before lasts or is surely changed. It asks for a valid problem. The error is want of memory.
pub fn hides_nothing(
    alloc: Global,
    p: &Problem<'_>,
    before: &Db,
    i: &Instance,
    after: &Db,
) -> Result<bool, AllocError>
    requires { IsValidProblem p.now }
    ensures { IfOk result (λ b. b ≡ hides_nothing (problem_of p.now) (five_of before.now) (instance_of i.now) (five_of after.now)) }
{
    let written = effects_of(alloc, p, i)?;
    let known = before.lookup();
    let effects = in_normal_form(alloc, known.normals(), written.as_slice())?;
    let (before, after, effects) = (before.parts(), after.parts(), effects.as_slice());
    Ok(
        are_decided(before, after, effects)
            && are_read_alike(before, after, effects, written.as_slice())
            && literals_last(known, after, effects)
            && groups_last(before, after, effects)
            && regions_last(before, after),
    )
}
