//! What a domain declares, and the first fault of its declarations.
ghost use Rattle.std.specs.Prelude.{◌≡◌, ◌≤◌, [], length, IfOk};
ghost use Rattle.pks_terms.specs.Views.{shape_of};
ghost use Rattle.pks_text.specs.FormViews.{forms_view};
ghost use Rattle.pks_reader_shape.specs.Refusals.{refusing};
ghost use Rattle.pks_reader_names.specs.Parts.{section};
ghost use Rattle.pks_reader_names.specs.Declarations.{types_in, types_section, objects_from, objects_faults, most_objects, predicates_in, predicates_section, functions_in, functions_section};
ghost use Rattle.pks_reader_names.specs.Meaning.{least, scope_of};
ghost use Rattle.pks_reader_names.specs.Views.{names_of, seen};
ghost use Rattle.pks_reader_declared.specs.FirstFault.{declarations_fault};
ghost use Rattle.pks_reader_declared.specs.Views.{declared_view};

use crate::declaring::Types;
use crate::functions::functions;
use crate::sections::{objects, predicates, types};
use indexmap::IndexMap;
use pks_reader_names::parts::section;
use pks_reader_names::report::Report;
use pks_reader_names::scope::{Declared, Scope};
use pks_reader_shape::report::Refusal;
use pks_reader_shape::shape::or_else;
use pks_terms::problem::Shape;
use pks_text::Form;
use std::alloc::{AllocError, Global};

/// What a domain declares, and the refusal of the first fault of its declarations.
#[derive(Drop)]
pub struct Domain<'s> {
    pub declared: Declared<'s>,
    pub refusal: Option<Refusal>,
}

fn first_types<'s>(
    alloc: Global,
    forms: &[Form<'s>],
) -> Result<(Types<'s>, Option<Refusal>), AllocError>
    ensures table { IfOk result (λ r. names_of r.0 ≡ types_in (forms_view forms.now)) }
    ensures few { IfOk result (λ r. length (names_of r.0) ≤ 16) }
    ensures refusal { IfOk result (λ r. r.1 ≡ refusing (least (types_section (forms_view forms.now)))) }
{
    let mut report = Report::new();
    let table = types(alloc, &mut report, forms)?;
    Ok((table, report.refusal()))
}

fn first_objects<'s>(
    alloc: Global,
    types: &Types<'s>,
    n: usize,
    forms: &[Form<'s>],
) -> Result<(IndexMap<&'s str, u8>, Option<Refusal>), AllocError>
    requires { length (names_of types.now) ≤ 16 }
    ensures table { IfOk result (λ r. names_of r.0 ≡ objects_from (names_of types.now) n [] (forms_view forms.now)) }
    ensures refusal { IfOk result (λ r. r.1 ≡ refusing (least (objects_faults (names_of types.now) n [] (forms_view forms.now)))) }
{
    let mut report = Report::new();
    let table = objects(alloc, &mut report, types, n, forms)?;
    Ok((table, report.refusal()))
}

fn first_predicates<'s>(
    alloc: Global,
    types: &Types<'s>,
    forms: &[Form<'s>],
) -> Result<(IndexMap<&'s str, Shape>, Option<Refusal>), AllocError>
    requires { length (names_of types.now) ≤ 16 }
    ensures table { IfOk result (λ r. seen shape_of (names_of r.0) ≡ predicates_in (names_of types.now) (forms_view forms.now)) }
    ensures refusal { IfOk result (λ r. r.1 ≡ refusing (least (predicates_section (names_of types.now) (forms_view forms.now)))) }
{
    let mut report = Report::new();
    let table = predicates(alloc, &mut report, types, forms)?;
    Ok((table, report.refusal()))
}

fn first_functions<'s>(
    alloc: Global,
    declared: &Declared<'s>,
    forms: &[Form<'s>],
) -> Result<(IndexMap<&'s str, Shape>, Option<Refusal>), AllocError>
    requires { length (names_of declared.now.types) ≤ 16 }
    ensures table { IfOk result (λ r. seen shape_of (names_of r.0) ≡ functions_in (names_of declared.now.types) (forms_view forms.now)) }
    ensures refusal { IfOk result (λ r. r.1 ≡ refusing (least (functions_section (declared_view declared.now) (forms_view forms.now)))) }
{
    let mut report = Report::new();
    let none = IndexMap::new(alloc);
    let scope = Scope {
        declared,
        parameters: &none,
    };
    let table = functions(alloc, &mut report, &scope, forms)?;
    Ok((table, report.refusal()))
}

fn most_objects(version: u8) -> usize
    ensures { result ≡ most_objects version }
{
    if version == 1 { 64 } else { 256 }
}

/// What a domain of this version declares, and the first fault of its declarations. `domain` has its parts behind the
/// head. Memory may be wanting.
#[tactic(auto, unfolding(crate::specs::FirstFault::declarations_fault, pks_reader_names::specs::Meaning::scope_of, pks_reader_names::specs::Declarations::objects_section), using(pks_reader_shape::proofs::Refusing::both_refusing))]
pub fn declarations<'s>(
    alloc: Global,
    version: u8,
    domain: &[Form<'s>],
) -> Result<Domain<'s>, AllocError>
    ensures declared { IfOk result (λ d. declared_view d.declared ≡ scope_of version (forms_view domain.now)) }
    ensures refusal { IfOk result (λ d. d.refusal ≡ refusing (declarations_fault version (forms_view domain.now))) }
{
    let (types, first) = first_types(alloc, section("types", domain))?;
    let (objects, second) = first_objects(
        alloc,
        &types,
        most_objects(version),
        section("objects", domain),
    )?;
    let (predicates, third) = first_predicates(alloc, &types, section("predicates", domain))?;
    let before = Declared {
        types,
        objects,
        predicates,
        functions: IndexMap::new(alloc),
    };
    let (functions, fourth) = first_functions(alloc, &before, section("functions", domain))?;
    let declared = Declared {
        types: before.types,
        objects: before.objects,
        predicates: before.predicates,
        functions,
    };
    let refusal = or_else(first, or_else(second, or_else(third, fourth)));
    Ok(Domain { declared, refusal })
}
