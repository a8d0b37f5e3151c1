//! What is derived of each action, as text.

ghost use Rattle.std.specs.Prelude.{◌≡◌, ◌≤◌, ◌+◌, ◌++◌, [], map, length, option_map, unwrap_or, slice_get, IfOk, OnOk};
ghost use Rattle.std.specs.List.{flat_map};
ghost use Rattle.pks_terms.specs.Branching.{numbered};
ghost use Rattle.pks_terms.specs.Printed.{line, add_text};
ghost use Rattle.pks_terms.specs.Shapes.{derived_text, derive_text};
ghost use Rattle.pks_terms.specs.ValidProblems.{IsValidProblem};
ghost use Rattle.pks_terms.specs.Views.{names_of, schema_of, problem_of};
ghost use Rattle.pks_justify.specs.Cases.{adds_of, schemas_of};
ghost use Rattle.pks_justify.specs.Places.{AssignToPlaces, AllAssignToPlaces};
ghost use Rattle.pks_derive.specs.Parameters.{parameters_of};

use crate::offering::derived_adds;
use crate::text::print_add;
use pks_plan::put;
use pks_terms::ids::ActId;
use pks_terms::lookup::action_name;
use pks_terms::problem::{NameList, Problem};
use pks_terms::schema::{Adds, Schema};
use std::alloc::{AllocError, Global};

/// A line for each add.
#[tactic(auto, using(pks_plan::proofs::Appended::printed))]
fn print_adds(
    p: &Problem<'_>,
    parameters: &[&str],
    adds: &[Adds],
    out: &mut Vec<u8>,
) -> Result<(), AllocError>
    ensures { OnOk result (out.new.items ≡ out.old.items ++ flat_map (λ x. line (add_text (names_of p.now) (map (λ t. t.now) parameters.now) x)) (adds_of adds.now)) }
{
    for add in adds {
        print_add(p, parameters, add, out)?;
        put(out, b"\n")?;
    }
    Ok(())
}

/// The names of the parameters of the action with this number, where it is declared.
fn parameter_list<'p, 's>(p: &'p Problem<'s>, action: u8) -> Option<&'p NameList<'s>>
    ensures { option_map (λ names. map (λ t. t.now) names.now) result ≡ slice_get (parameters_of p.now) action }
{
    p.names.params.as_slice().get(usize::from(action))
}

/// A line for each add of the action with this number.
fn print_derived(
    p: &Problem<'_>,
    action: u8,
    adds: &[Adds],
    out: &mut Vec<u8>,
) -> Result<(), AllocError>
    ensures { OnOk result (out.new.items ≡ out.old.items ++ flat_map (λ x. line (add_text (names_of p.now) (unwrap_or (slice_get (parameters_of p.now) action) []) x)) (adds_of adds.now)) }
{
    match parameter_list(p, action) {
        Some(names) => print_adds(p, names.as_slice(), adds, out)?,
        None => print_adds(p, &[], adds, out)?,
    }
    Ok(())
}

/// An action's name, and what is derived of it.
#[tactic(auto, using(pks_plan::proofs::Appended::printed))]
fn print_action(
    alloc: Global,
    p: &Problem<'_>,
    action: u8,
    schema: &Schema<'_>,
    out: &mut Vec<u8>,
) -> Result<(), AllocError>
    requires { AssignToPlaces schema.now.effects }
    ensures { OnOk result (out.new.items ≡ out.old.items ++ derived_text (names_of p.now) (parameters_of p.now) (action, schema_of schema.now)) }
{
    let adds = derived_adds(alloc, schema)?;
    put(out, b"action ")?;
    put(out, action_name(p, ActId(action)).as_bytes())?;
    put(out, b"\n")?;
    print_derived(p, action, adds.as_slice(), out)?;
    Ok(())
}

/// So for each of these actions, the first of which has this number.
#[tactic(auto, using(pks_plan::proofs::Appended::printed))]
fn print_actions(
    alloc: Global,
    p: &Problem<'_>,
    first: u16,
    schemas: &[Schema<'_>],
    out: &mut Vec<u8>,
) -> Result<(), AllocError>
    requires places { AllAssignToPlaces schemas.now }
    requires few { first + length schemas.now ≤ 256 }
    ensures { OnOk result (out.new.items ≡ out.old.items ++ flat_map (derived_text (names_of p.now) (parameters_of p.now)) (numbered first (schemas_of schemas.now))) }
{
    match schemas {
        [] => {}
        [schema, others @ ..] => {
            print_action(alloc, p, first as u8, schema, out)?;
            print_actions(alloc, p, first + 1, others, out)?;
        }
    }
    Ok(())
}

/// The knowledge effects that follow from the text of each action: a line `action NAME` for each action in order, and then a
/// line for each of the listed shapes that has a case and isn't equal to one before it of the same action (`docs/RULES.md`,
/// "Justified adds"). It asks that the problem is valid. The one error is want of memory.
#[tactic(auto, unfolding(pks_terms::specs::Shapes::derive_text))]
pub fn derive(alloc: Global, p: &Problem<'_>) -> Result<Vec<u8>, AllocError>
    requires { IsValidProblem p.now }
    ensures { IfOk result (λ text. text.items ≡ derive_text (names_of p.now) (parameters_of p.now) (problem_of p.now)) }
{
    let mut text = Vec::new(alloc);
    print_actions(alloc, p, 0, p.schemas.as_slice(), &mut text)?;
    Ok(text)
}
