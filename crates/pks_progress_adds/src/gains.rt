//! What the adds of an action give. `docs/RULES.md`, "Progression", has the rule.
ghost use Rattle.std.specs.Prelude.{◌≡◌, Option, option_map, slice_get, IfOk, IfSome};
ghost use Rattle.pks_terms.specs.ValidProblems.{IsValidProblem};
ghost use Rattle.pks_terms.specs.Views.{terms_of, given_of, instance_of, signature_of, schema_of, problem_of};
ghost use Rattle.pks_kf.specs.Known.{literals_of};
ghost use Rattle.pks_kw.specs.Formulas.{formulas_of};
ghost use Rattle.pks_lcw.specs.Entries.{entries_of};
ghost use Rattle.pks_query_lookup.specs.Fives.{five_of};
ghost use Rattle.pks_justify.specs.Places.{AssignToPlaces};
ghost use Rattle.pks_progress_adds.specs.Gains.{literals_by, formulas_by, values_by, regions_by, literals_gained, formulas_gained, values_gained, regions_gained};

use crate::deed::{Deed, normal_instance};
use crate::gained::{Gains, gains_of};
use pks_query::databases::Db;
use pks_terms::ids::ActId;
use pks_terms::problem::{Problem, Signature};
use pks_terms::schema::{Instance, Schema};
use std::alloc::{AllocError, Global};

/// The action of this number.
fn schema_of<'a, 's>(p: &'a Problem<'s>, act: ActId) -> Option<&'a Schema<'s>>
    requires { IsValidProblem p.now }
    ensures says { option_map (λ x. schema_of x.now) result ≡ slice_get (problem_of p.now).schemas act.0 }
    ensures placed { IfSome result (λ x. AssignToPlaces x.now.effects) }
{
    match p.schemas.as_slice().get(usize::from(act.0)) {
        Some(schema) => Some(schema),
        None => None,
    }
}

/// What the adds of this action, which needn't be declared, give at the instance's arguments in the databases before it, as
/// `gains` does. It asks that what is assigned to is an application. The error is want of memory.
pub fn gains_by(
    alloc: Global,
    s: &Signature,
    d: &Db,
    schema: &Schema<'_>,
    i: &Instance,
) -> Result<Gains, AllocError>
    requires { AssignToPlaces schema.now.effects }
    ensures literals { IfOk result (λ g. literals_of g.kf.items ≡ literals_by (signature_of s.now) (five_of d.now) (schema_of schema.now) (given_of i.now)) }
    ensures formulas { IfOk result (λ g. formulas_of g.kw.items ≡ formulas_by (signature_of s.now) (five_of d.now) (schema_of schema.now) (given_of i.now)) }
    ensures values { IfOk result (λ g. terms_of g.kv.items ≡ values_by (signature_of s.now) (five_of d.now) (schema_of schema.now) (given_of i.now)) }
    ensures regions { IfOk result (λ g. entries_of g.lcw.items ≡ regions_by (signature_of s.now) (five_of d.now) (schema_of schema.now) (given_of i.now)) }
{
    let normal = normal_instance(d.lookup().normals(), i);
    let deed = Deed {
        signature: s,
        before: d,
        schema,
        chosen: i,
        normal: &normal,
    };
    let gains = gains_of(alloc, &deed, schema.adds.as_slice())?;
    Ok(gains)
}

/// What the adds of the instance's action give in the databases before it, in the order of the adds: each add whose own
/// queries are answered gives its item where the terms allow it (`docs/RULES.md`, "Progression"). An action that isn't
/// declared gives nothing. It asks for a valid problem. The error is want of memory.
pub fn gains(alloc: Global, p: &Problem<'_>, d: &Db, i: &Instance) -> Result<Gains, AllocError>
    requires valid { IsValidProblem p.now }
    ensures literals { IfOk result (λ g. literals_of g.kf.items ≡ literals_gained (problem_of p.now) (five_of d.now) (instance_of i.now)) }
    ensures formulas { IfOk result (λ g. formulas_of g.kw.items ≡ formulas_gained (problem_of p.now) (five_of d.now) (instance_of i.now)) }
    ensures values { IfOk result (λ g. terms_of g.kv.items ≡ values_gained (problem_of p.now) (five_of d.now) (instance_of i.now)) }
    ensures regions { IfOk result (λ g. entries_of g.lcw.items ≡ regions_gained (problem_of p.now) (five_of d.now) (instance_of i.now)) }
{
    match schema_of(p, i.act) {
        Some(schema) => gains_by(alloc, &p.signature, d, schema, i),
        None => Ok(Gains::none(alloc)),
    }
}
