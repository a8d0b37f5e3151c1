//! The sections of a domain: what they declare, and their faults.
ghost use Rattle.std.specs.Prelude.{◌≡◌, take, [], ◌++◌, ◌+◌, ◌-◌, ◌≤◌, length, OnOk, IfOk};
ghost use Rattle.pks_terms.specs.Views.{shape_of, types_of};
ghost use Rattle.pks_text.specs.Forms.{place_of};
ghost use Rattle.pks_text.specs.FormViews.{form_view, forms_view};
ghost use Rattle.pks_reader_names.specs.Tables.{declare};
ghost use Rattle.pks_reader_names.specs.Parts.{each, only, past, behind_head, first_forms};
ghost use Rattle.pks_reader_names.specs.Declarations.{first_in, name_of, name_faults, table_from, entries_faults, no_faults, type_faults, type_named, parent_named, types_from, types_faults, types_in, types_section, objects_with, objects_from, objects_faults_in, objects_faults, predicate_in, barred_faults, predicate_faults, predicates_in, predicates_section};
ghost use Rattle.pks_reader_names.specs.Meaning.{all_noted};
ghost use Rattle.pks_reader_names.specs.Views.{found_of, names_of, seen};

use crate::declaring::{
    Types, check_name, check_shape_name, declare, declare_shape, each_type, first_in, name_of,
    only_type, parent_named, past_first_names, past_shape_names, three_types, type_named,
    type_word,
};
use indexmap::IndexMap;
use pks_reader_names::parts::{behind_head, first_forms, past};
use pks_reader_names::report::Report;
use pks_terms::codes::BARRED_NAME;
use pks_terms::ids::TypeId;
use pks_terms::problem::Shape;
use pks_text::{Form, place_of};
use std::alloc::{AllocError, Global};

// ---- types

// One type, with its faults.
#[tactic(auto, using(pks_reader_names::proofs::Noting::noted_both))]
fn type_entry<'s>(
    report: &mut Report,
    types: &mut Types<'s>,
    form: &Form<'s>,
) -> Result<(), AllocError>
    requires { length (names_of types.old) ≤ 16 }
    ensures faults { OnOk result (found_of report.new ≡ all_noted (found_of report.old) (name_faults (names_of types.old) (first_in (form_view form.now)) ++ only (type_faults (names_of types.old)) (behind_head (form_view form.now)))) }
    ensures table { OnOk result (names_of types.new ≡ declare (names_of types.old) (name_of (first_in (form_view form.now))) (parent_named (names_of types.old) (behind_head (form_view form.now)))) }
{
    let word = first_in(form);
    check_name(report, types, word);
    only_type(report, types, behind_head(form));
    let parent = parent_named(types, behind_head(form));
    declare(types, name_of(word), parent)?;
    Ok(())
}

#[tactic(auto, using(pks_reader_names::proofs::Noting::noted_step, pks_reader_names::proofs::Noting::drop_view, crate::proofs::Steps::declare_length))]
fn type_entries<'s>(
    report: &mut Report,
    types: &mut Types<'s>,
    forms: &[Form<'s>],
) -> Result<(), AllocError>
    requires none { names_of types.old ≡ [] }
    requires few { length forms.now ≤ 16 }
    ensures faults { OnOk result (found_of report.new ≡ all_noted (found_of report.old) (types_faults [] (forms_view forms.now))) }
    ensures table { OnOk result (names_of types.new ≡ types_from [] (forms_view forms.now)) }
    ensures few { OnOk result (length (names_of types.new) ≤ 16) }
{
    for form in forms {
        type_entry(report, types, form)?;
    }
    Ok(())
}

/// The types of a section, and its faults.
#[tactic(auto, using(pks_reader_names::proofs::Noting::noted_both), unfolding(pks_reader_names::specs::Declarations::types_section))]
pub fn types<'s>(
    alloc: Global,
    report: &mut Report,
    forms: &[Form<'s>],
) -> Result<Types<'s>, AllocError>
    ensures faults { OnOk result (found_of report.new ≡ all_noted (found_of report.old) (types_section (forms_view forms.now))) }
    ensures table { IfOk result (λ types. names_of types ≡ types_in (forms_view forms.now)) }
    ensures few { IfOk result (λ types. length (names_of types) ≤ 16) }
{
    let mut types = IndexMap::new(alloc);
    type_entries(report, &mut types, first_forms(16, forms))?;
    past_first_names(report, &types, 16, forms);
    Ok(types)
}

// ---- objects

// An object of a type.
fn object<'s>(
    report: &mut Report,
    table: &mut IndexMap<&'s str, u8>,
    own: u8,
    form: &Form<'s>,
) -> Result<(), AllocError>
    ensures faults { OnOk result (found_of report.new ≡ all_noted (found_of report.old) (name_faults (names_of table.old) (first_in (form_view form.now)) ++ no_faults (form_view form.now))) }
    ensures table { OnOk result (names_of table.new ≡ declare (names_of table.old) (name_of (first_in (form_view form.now))) own) }
{
    let word = first_in(form);
    check_name(report, table, word);
    declare(table, name_of(word), own)?;
    Ok(())
}

fn object_names<'s>(
    report: &mut Report,
    table: &mut IndexMap<&'s str, u8>,
    own: u8,
    forms: &[Form<'s>],
) -> Result<(), AllocError>
    ensures faults { OnOk result (found_of report.new ≡ all_noted (found_of report.old) (entries_faults first_in (λ f. own) no_faults (names_of table.old) (forms_view forms.now))) }
    ensures table { OnOk result (names_of table.new ≡ table_from first_in (λ f. own) (names_of table.old) (forms_view forms.now)) }
{
    for form in forms {
        object(report, table, own, form)?;
    }
    Ok(())
}

// The objects of an entry, of which n may come.
#[tactic(auto, using(pks_reader_names::proofs::Noting::noted_both))]
fn object_entry<'s>(
    report: &mut Report,
    types: &Types<'s>,
    objects: &mut IndexMap<&'s str, u8>,
    n: usize,
    form: &Form<'s>,
) -> Result<(), AllocError>
    requires { length (names_of types.now) ≤ 16 }
    ensures faults { OnOk result (found_of report.new ≡ all_noted (found_of report.old) (objects_faults_in (names_of types.now) n (names_of objects.old) (form_view form.now))) }
    ensures table { OnOk result (names_of objects.new ≡ objects_with (names_of types.now) n (names_of objects.old) (form_view form.now)) }
{
    type_word(report, types, first_in(form));
    let own = type_named(types, first_in(form));
    let names = behind_head(form);
    object_names(report, objects, own, first_forms(n, names))?;
    past_first_names(report, objects, n, names);
    Ok(())
}

/// The objects of a section, of which n may come, and its faults.
#[tactic(auto, using(pks_reader_names::proofs::Noting::noted_step, pks_reader_names::proofs::Noting::drop_view, pks_reader_shape::proofs::Counts::count_view))]
pub fn objects<'s>(
    alloc: Global,
    report: &mut Report,
    types: &Types<'s>,
    n: usize,
    forms: &[Form<'s>],
) -> Result<IndexMap<&'s str, u8>, AllocError>
    requires { length (names_of types.now) ≤ 16 }
    ensures faults { OnOk result (found_of report.new ≡ all_noted (found_of report.old) (objects_faults (names_of types.now) n [] (forms_view forms.now))) }
    ensures table { IfOk result (λ objects. names_of objects ≡ objects_from (names_of types.now) n [] (forms_view forms.now)) }
{
    let mut objects = IndexMap::new(alloc);
    let mut left = n;
    for form in forms {
        object_entry(report, types, &mut objects, left, form)?;
        left = left.saturating_sub(behind_head(form).len());
    }
    Ok(objects)
}

// ---- predicates

fn predicate_shape(of: (u8, [TypeId; 3])) -> Shape
    ensures arguments { (shape_of result).arguments ≡ types_of (take of.0 of.1) }
    ensures result { (shape_of result).result ≡ 0 }
{
    let (n, args) = of;
    Shape {
        n,
        args,
        result: TypeId(0),
    }
}

#[tactic(auto, unfolding(pks_reader_names::specs::Declarations::predicate_in))]
fn predicate_in(types: &Types<'_>, form: &Form<'_>) -> Shape
    requires { length (names_of types.now) ≤ 16 }
    ensures { shape_of result ≡ predicate_in (names_of types.now) (form_view form.now) }
{
    predicate_shape(three_types(types, behind_head(form)))
}

// The name `not`.
fn report_not(report: &mut Report, form: &Form<'_>)
    ensures { found_of report.new ≡ all_noted (found_of report.old) (barred_faults (form_view form.now)) }
{
    let word = first_in(form);
    if name_of(word) == "not" {
        report.note(place_of(word), BARRED_NAME);
    }
}

#[tactic(auto, using(pks_reader_names::proofs::Noting::noted_step, pks_reader_names::proofs::Noting::drop_view))]
fn barred_names(report: &mut Report, forms: &[Form<'_>])
    ensures { found_of report.new ≡ all_noted (found_of report.old) (each barred_faults (forms_view forms.now)) }
{
    for form in forms {
        report_not(report, form);
    }
}

// The argument types.
#[tactic(auto, using(pks_reader_names::proofs::Noting::noted_both), unfolding(pks_reader_names::specs::Declarations::predicate_faults))]
fn predicate_faults(report: &mut Report, types: &Types<'_>, form: &Form<'_>)
    ensures { found_of report.new ≡ all_noted (found_of report.old) (predicate_faults (names_of types.now) (form_view form.now)) }
{
    each_type(report, types, behind_head(form));
    past(report, 3, behind_head(form));
}

#[tactic(auto, using(pks_reader_names::proofs::Noting::noted_both))]
fn predicate_entry<'s>(
    report: &mut Report,
    types: &Types<'s>,
    table: &mut IndexMap<&'s str, Shape>,
    form: &Form<'s>,
) -> Result<(), AllocError>
    requires { length (names_of types.now) ≤ 16 }
    ensures faults { OnOk result (found_of report.new ≡ all_noted (found_of report.old) (name_faults (seen shape_of (names_of table.old)) (first_in (form_view form.now)) ++ predicate_faults (names_of types.now) (form_view form.now))) }
    ensures table { OnOk result (seen shape_of (names_of table.new) ≡ declare (seen shape_of (names_of table.old)) (name_of (first_in (form_view form.now))) (predicate_in (names_of types.now) (form_view form.now))) }
{
    let word = first_in(form);
    check_shape_name(report, table, word);
    predicate_faults(report, types, form);
    declare_shape(table, name_of(word), predicate_in(types, form))?;
    Ok(())
}

#[tactic(auto, using(pks_reader_names::proofs::Noting::noted_step, pks_reader_names::proofs::Noting::drop_view))]
fn predicate_entries<'s>(
    report: &mut Report,
    types: &Types<'s>,
    table: &mut IndexMap<&'s str, Shape>,
    forms: &[Form<'s>],
) -> Result<(), AllocError>
    requires { length (names_of types.now) ≤ 16 }
    ensures faults { OnOk result (found_of report.new ≡ all_noted (found_of report.old) (entries_faults first_in (predicate_in (names_of types.now)) (predicate_faults (names_of types.now)) (seen shape_of (names_of table.old)) (forms_view forms.now))) }
    ensures table { OnOk result (seen shape_of (names_of table.new) ≡ table_from first_in (predicate_in (names_of types.now)) (seen shape_of (names_of table.old)) (forms_view forms.now)) }
{
    for form in forms {
        predicate_entry(report, types, table, form)?;
    }
    Ok(())
}

/// The predicates of a section, and its faults.
#[tactic(auto, using(pks_reader_names::proofs::Noting::noted_both), unfolding(pks_reader_names::specs::Declarations::predicates_section))]
pub fn predicates<'s>(
    alloc: Global,
    report: &mut Report,
    types: &Types<'s>,
    forms: &[Form<'s>],
) -> Result<IndexMap<&'s str, Shape>, AllocError>
    requires { length (names_of types.now) ≤ 16 }
    ensures faults { OnOk result (found_of report.new ≡ all_noted (found_of report.old) (predicates_section (names_of types.now) (forms_view forms.now))) }
    ensures table { IfOk result (λ table. seen shape_of (names_of table) ≡ predicates_in (names_of types.now) (forms_view forms.now)) }
{
    barred_names(report, forms);
    let mut table = IndexMap::new(alloc);
    predicate_entries(report, types, &mut table, first_forms(32, forms))?;
    past_shape_names(report, &table, 32, forms);
    Ok(table)
}
