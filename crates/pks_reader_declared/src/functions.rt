//! The functions of a domain, and their faults.
ghost use Rattle.std.specs.Prelude.{◌≡◌, [], ◌++◌, ◌≤◌, take, length, Option, Some, OnOk, IfOk, option_map, slice_get, false};
ghost use Rattle.std.specs.Option.{option_map_or};
ghost use Rattle.pks_terms.specs.Views.{shape_of, types_of};
ghost use Rattle.pks_text.specs.FormViews.{form_view, forms_view};
ghost use Rattle.pks_reader_names.specs.Tables.{declare, entries_of};
ghost use Rattle.pks_reader_names.specs.Scopes.{fits};
ghost use Rattle.pks_reader_names.specs.Parts.{past, all_but_last, last_of};
ghost use Rattle.pks_reader_names.specs.Declarations.{first_in, name_of, name_faults, table_from, entries_faults, result_named, function_in, has_object, empty_faults, function_faults, functions_in, functions_section};
ghost use Rattle.pks_reader_names.specs.Meaning.{all_noted};
ghost use Rattle.pks_reader_names.specs.Views.{found_of, names_of, seen, scope_view};

use crate::declaring::{
    Types, check_shape_name, declare_shape, each_type, first_in, name_of, past_shape_names,
    small_number, two_types, type_named,
};
use indexmap::IndexMap;
use pks_reader_names::parts::{behind_head, first_forms, past, text_of};
use pks_reader_names::report::Report;
use pks_reader_names::scope::Scope;
use pks_terms::codes::EMPTY_TYPE;
use pks_terms::ids::TypeId;
use pks_terms::problem::Shape;
use pks_text::{Form, place_of};
use std::alloc::{AllocError, Global};

// All but the last form.
fn all_but_last<'f, 's>(forms: &'f [Form<'s>]) -> &'f [Form<'s>]
    ensures { forms_view result.now ≡ all_but_last (forms_view forms.now) }
{
    if forms.len() == 0 {
        return &[];
    }
    &forms[..forms.len() - 1]
}

// The last form.
fn last_of<'f, 's>(forms: &'f [Form<'s>]) -> Option<&'f Form<'s>>
    ensures { option_map (λ f. form_view f.now) result ≡ last_of (forms_view forms.now) }
{
    if forms.len() == 0 {
        return None;
    }
    Some(&forms[forms.len() - 1])
}

fn result_named(types: &Types<'_>, form: Option<&Form<'_>>) -> u8
    requires { length (names_of types.now) ≤ 16 }
    ensures { result ≡ result_named (names_of types.now) (option_map (λ f. form_view f.now) form.entry) }
{
    match form {
        None => 0,
        Some(form) => type_named(types, form),
    }
}

fn shape(of: (u8, [TypeId; 3]), own: u8) -> Shape
    ensures arguments { (shape_of result).arguments ≡ types_of (take of.0 of.1) }
    ensures own { (shape_of result).result ≡ own }
{
    let (n, args) = of;
    Shape {
        n,
        args,
        result: TypeId(own),
    }
}

#[tactic(auto, unfolding(pks_reader_names::specs::Declarations::function_in))]
fn function_in(types: &Types<'_>, form: &Form<'_>) -> Shape
    requires { length (names_of types.now) ≤ 16 }
    ensures { shape_of result ≡ function_in (names_of types.now) (form_view form.now) }
{
    let parts = behind_head(form);
    shape(
        two_types(types, all_but_last(parts)),
        result_named(types, last_of(parts)),
    )
}

// The type of the object with a number.
fn object_at(objects: &IndexMap<&str, u8>, i: usize) -> Option<u8>
    ensures { result ≡ slice_get (entries_of (names_of objects.now)) i }
{
    match objects.get_index(i) {
        Some((_, own)) => Some(*own),
        None => None,
    }
}

fn count_objects(objects: &IndexMap<&str, u8>) -> usize
    ensures { result ≡ length (entries_of (names_of objects.now)) }
{
    objects.len()
}

// Whether there is an object with this number and it is of the type.
fn is_of_type(scope: &Scope<'_, '_>, i: usize, wanted: u8) -> bool
    ensures { result ≡ option_map_or (λ own. fits (scope_view scope.now) own wanted) (slice_get (entries_of (scope_view scope.now).objects) i) false }
{
    match object_at(&scope.declared.objects, i) {
        Some(own) => scope.fits(own, wanted),
        None => false,
    }
}

// Whether an object is of the type.
fn has_object(scope: &Scope<'_, '_>, wanted: u8) -> bool
    ensures { result ≡ has_object (scope_view scope.now) (entries_of (scope_view scope.now).objects) wanted }
{
    for i in 0..count_objects(&scope.declared.objects) {
        if is_of_type(scope, i, wanted) {
            return true;
        }
    }
    false
}

// A result type without objects.
fn empty(report: &mut Report, scope: &Scope<'_, '_>, form: Option<&Form<'_>>)
    requires { length (scope_view scope.now).types ≤ 16 }
    ensures { found_of report.new ≡ all_noted (found_of report.old) (empty_faults (scope_view scope.now) (option_map (λ f. form_view f.now) form.entry)) }
{
    if let Some(form) = form {
        if let Some(wanted) = small_number(&scope.declared.types, text_of(form)) {
            if !has_object(scope, wanted) {
                report.note(place_of(form), EMPTY_TYPE);
            }
        }
    }
}

#[tactic(auto, using(pks_reader_names::proofs::Noting::noted_both), unfolding(pks_reader_names::specs::Declarations::function_faults))]
fn function_faults(report: &mut Report, scope: &Scope<'_, '_>, form: &Form<'_>)
    requires { length (scope_view scope.now).types ≤ 16 }
    ensures { found_of report.new ≡ all_noted (found_of report.old) (function_faults (scope_view scope.now) (form_view form.now)) }
{
    let parts = behind_head(form);
    each_type(report, &scope.declared.types, parts);
    past(report, 2, all_but_last(parts));
    empty(report, scope, last_of(parts));
}

#[tactic(auto, using(pks_reader_names::proofs::Noting::noted_both))]
fn function_entry<'s>(
    report: &mut Report,
    scope: &Scope<'_, 's>,
    table: &mut IndexMap<&'s str, Shape>,
    form: &Form<'s>,
) -> Result<(), AllocError>
    requires { length (scope_view scope.now).types ≤ 16 }
    ensures faults { OnOk result (found_of report.new ≡ all_noted (found_of report.old) (name_faults (seen shape_of (names_of table.old)) (first_in (form_view form.now)) ++ function_faults (scope_view scope.now) (form_view form.now))) }
    ensures table { OnOk result (seen shape_of (names_of table.new) ≡ declare (seen shape_of (names_of table.old)) (name_of (first_in (form_view form.now))) (function_in (scope_view scope.now).types (form_view form.now))) }
{
    let word = first_in(form);
    check_shape_name(report, table, word);
    function_faults(report, scope, form);
    declare_shape(
        table,
        name_of(word),
        function_in(&scope.declared.types, form),
    )?;
    Ok(())
}

#[tactic(auto, using(pks_reader_names::proofs::Noting::noted_step, pks_reader_names::proofs::Noting::drop_view))]
fn function_entries<'s>(
    report: &mut Report,
    scope: &Scope<'_, 's>,
    table: &mut IndexMap<&'s str, Shape>,
    forms: &[Form<'s>],
) -> Result<(), AllocError>
    requires { length (scope_view scope.now).types ≤ 16 }
    ensures faults { OnOk result (found_of report.new ≡ all_noted (found_of report.old) (entries_faults first_in (function_in (scope_view scope.now).types) (function_faults (scope_view scope.now)) (seen shape_of (names_of table.old)) (forms_view forms.now))) }
    ensures table { OnOk result (seen shape_of (names_of table.new) ≡ table_from first_in (function_in (scope_view scope.now).types) (seen shape_of (names_of table.old)) (forms_view forms.now)) }
{
    for form in forms {
        function_entry(report, scope, table, form)?;
    }
    Ok(())
}

/// The functions of a section, and its faults. Memory may be wanting.
#[tactic(auto, using(pks_reader_names::proofs::Noting::noted_both), unfolding(pks_reader_names::specs::Declarations::functions_section))]
pub fn functions<'s>(
    alloc: Global,
    report: &mut Report,
    scope: &Scope<'_, 's>,
    forms: &[Form<'s>],
) -> Result<IndexMap<&'s str, Shape>, AllocError>
    requires { length (scope_view scope.now).types ≤ 16 }
    ensures faults { OnOk result (found_of report.new ≡ all_noted (found_of report.old) (functions_section (scope_view scope.now) (forms_view forms.now))) }
    ensures table { IfOk result (λ table. seen shape_of (names_of table) ≡ functions_in (scope_view scope.now).types (forms_view forms.now)) }
{
    let mut table = IndexMap::new(alloc);
    function_entries(report, scope, &mut table, first_forms(32, forms))?;
    past_shape_names(report, &table, 32, forms);
    Ok(table)
}
