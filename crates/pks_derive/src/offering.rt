//! Which of the shapes are derived.

ghost use Rattle.std.specs.Prelude.{◌≡◌, List, [], fold, IfOk, OnOk};
ghost use Rattle.std.specs.List.{flat_map};
ghost use Rattle.pks_terms.specs.Shapes.{effect_shapes, sense_shapes, derived_adds};
ghost use Rattle.pks_terms.specs.Views.{effect_of, sense_of, add_of, schema_of};
ghost use Rattle.pks_terms.specs.ValidProblems.{AssignsToPlace};
ghost use Rattle.pks_justify.specs.Cases.{adds_of};
ghost use Rattle.pks_justify.specs.Effects.{effects_of, senses_of};
ghost use Rattle.pks_justify.specs.Places.{AssignToPlaces};
ghost use Rattle.pks_derive.specs.Offering.{made, with_offered};

use crate::same::is_among;
use crate::shapes::{add_of_sense, kept_known, made_known, without_condition};
use pks_justify::case_in;
use pks_terms::schema::{Adds, Effect, Schema, Sense};
use std::alloc::{AllocError, Global};

/// The add goes last where it has a case and isn't equal to one that is there.
#[tactic(auto, using(crate::proofs::Offered::shown))]
fn offer(schema: &Schema<'_>, add: &Adds, to: &mut Vec<Adds>) -> Result<(), AllocError>
    requires { AssignToPlaces schema.now.effects }
    ensures { OnOk result (adds_of to.new.items ≡ with_offered (schema_of schema.now) (adds_of to.old.items) (add_of add.now)) }
{
    if case_in(schema, add).is_some() && !is_among(add, to.as_slice()) {
        to.push(*add)?;
    }
    Ok(())
}

/// So does one that was made.
fn offer_made(
    schema: &Schema<'_>,
    shape: Option<Adds>,
    to: &mut Vec<Adds>,
) -> Result<(), AllocError>
    requires { AssignToPlaces schema.now.effects }
    ensures { OnOk result (adds_of to.new.items ≡ fold (with_offered (schema_of schema.now)) (adds_of to.old.items) (made shape)) }
{
    match shape {
        Some(add) => offer(schema, &add, to)?,
        None => {}
    }
    Ok(())
}

/// So do the shapes of an effect.
#[tactic(auto, using(crate::proofs::Offered::both_offered))]
fn offer_effect(schema: &Schema<'_>, e: &Effect, to: &mut Vec<Adds>) -> Result<(), AllocError>
    requires places { AssignToPlaces schema.now.effects }
    requires place { AssignsToPlace e.now.target }
    ensures { OnOk result (adds_of to.new.items ≡ fold (with_offered (schema_of schema.now)) (adds_of to.old.items) (effect_shapes (effect_of e.now))) }
{
    offer_made(schema, made_known(e), to)?;
    offer_made(schema, kept_known(e), to)?;
    offer_made(schema, without_condition(e), to)?;
    Ok(())
}

/// So do those of effects.
#[tactic(auto, using(crate::proofs::Offered::both_offered))]
fn offer_effects(
    schema: &Schema<'_>,
    effects: &[Effect],
    to: &mut Vec<Adds>,
) -> Result<(), AllocError>
    requires places { AssignToPlaces schema.now.effects }
    requires these { AssignToPlaces effects.now }
    ensures { OnOk result (adds_of to.new.items ≡ fold (with_offered (schema_of schema.now)) (adds_of to.old.items) (flat_map effect_shapes (effects_of effects.now))) }
{
    for e in effects {
        offer_effect(schema, e, to)?;
    }
    Ok(())
}

/// So do those of senses.
#[tactic(auto, using(crate::proofs::Offered::both_offered))]
fn offer_senses(schema: &Schema<'_>, senses: &[Sense], to: &mut Vec<Adds>) -> Result<(), AllocError>
    requires { AssignToPlaces schema.now.effects }
    ensures { OnOk result (adds_of to.new.items ≡ fold (with_offered (schema_of schema.now)) (adds_of to.old.items) (flat_map sense_shapes (senses_of senses.now))) }
{
    for sense in senses {
        offer_made(schema, add_of_sense(sense), to)?;
    }
    Ok(())
}

/// The shapes of an action that have a case, none equal to one before it.
pub(crate) fn derived_adds(alloc: Global, schema: &Schema<'_>) -> Result<Vec<Adds>, AllocError>
    requires { AssignToPlaces schema.now.effects }
    ensures { IfOk result (λ v. adds_of v.items ≡ derived_adds (schema_of schema.now)) }
{
    let mut adds = Vec::new(alloc);
    offer_effects(schema, schema.effects.as_slice(), &mut adds)?;
    offer_senses(schema, schema.senses.as_slice(), &mut adds)?;
    Ok(adds)
}
