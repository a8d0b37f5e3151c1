//! Declarations, and their faults.
ghost use Rattle.std.specs.Prelude.{◌≡◌, [], ◌≤◌, ◌<◌, length, take, Some, OnOk, unwrap_or};
ghost use Rattle.pks_terms.specs.Views.{shape_of, types_of};
ghost use Rattle.pks_text.specs.Forms.{place_of};
ghost use Rattle.pks_text.specs.FormViews.{form_view, forms_view};
ghost use Rattle.pks_reader_names.specs.Tables.{declare, number_of};
ghost use Rattle.pks_reader_names.specs.Parts.{each, only, past};
ghost use Rattle.pks_reader_names.specs.Declarations.{first_or, first_in, second_in, name_of, name_faults, surplus_faults, past_names, type_faults, type_named, parent_named, types_named};
ghost use Rattle.pks_reader_names.specs.Meaning.{all_noted};
ghost use Rattle.pks_reader_names.specs.Views.{found_of, names_of, seen};

use indexmap::IndexMap;
use pks_reader_names::parts::{behind_head, parts_of, text_of};
use pks_reader_names::report::Report;
use pks_reader_names::scope::{entry, name_in, number};
use pks_terms::codes::{DECLARED_TWICE, PAST_LIMIT, UNDECLARED};
use pks_terms::ids::TypeId;
use pks_terms::problem::Shape;
use pks_text::{Form, place_of};
use std::alloc::AllocError;

/// The types, each with its parent.
pub type Types<'s> = IndexMap<&'s str, Option<u8>>;

// The first of some forms, or else this one.
fn first_or<'f, 's>(form: &'f Form<'s>, forms: &'f [Form<'s>]) -> &'f Form<'s>
    ensures { form_view result.now ≡ first_or (form_view form.now) (forms_view forms.now) }
{
    match forms {
        [] => form,
        [first, _rest @ ..] => first,
    }
}

/// The first part of a list, or a word itself.
pub fn first_in<'f, 's>(form: &'f Form<'s>) -> &'f Form<'s>
    ensures { form_view result.now ≡ first_in (form_view form.now) }
{
    first_or(form, parts_of(form))
}

/// The second part of a list.
pub fn second_in<'f, 's>(form: &'f Form<'s>) -> &'f Form<'s>
    ensures { form_view result.now ≡ second_in (form_view form.now) }
{
    first_or(form, behind_head(form))
}

/// The name that a word declares, that of a parameter behind the `?`.
pub fn name_of<'s>(word: &Form<'s>) -> &'s str
    ensures { result.now ≡ name_of (form_view word.now) }
{
    name_in(text_of(word))
}

/// A name, with what is said of it, unless it is there. The one error is want of memory.
pub fn declare<'s, X: Copy + Drop>(
    table: &mut IndexMap<&'s str, X>,
    name: &'s str,
    said: X,
) -> Result<(), AllocError>
    ensures { OnOk result (names_of table.new ≡ declare (names_of table.old) name.now said) }
{
    if entry(table, name).is_none() {
        table.insert(name, said)?;
    }
    Ok(())
}

/// The faults of a name, before it is declared.
#[tactic(auto, using(pks_reader_names::proofs::Noting::noted_both, pks_reader_names::proofs::Noting::noted_twice))]
pub fn check_name<X>(report: &mut Report, table: &IndexMap<&str, X>, word: &Form<'_>)
    ensures { found_of report.new ≡ all_noted (found_of report.old) (name_faults (names_of table.now) (form_view word.now)) }
{
    report.too_long(name_of(word), place_of(word));
    report.require(
        entry(table, name_of(word)).is_none(),
        place_of(word),
        DECLARED_TWICE,
    );
}

/// A name with its shape, unless it is there.
pub fn declare_shape<'s>(
    table: &mut IndexMap<&'s str, Shape>,
    name: &'s str,
    shape: Shape,
) -> Result<(), AllocError>
    ensures { OnOk result (seen shape_of (names_of table.new) ≡ declare (seen shape_of (names_of table.old)) name.now (shape_of shape)) }
{
    declare(table, name, shape)?;
    Ok(())
}

/// The same of a table of shapes.
#[tactic(auto, using(pks_reader_names::proofs::Entries::name_seen))]
pub fn check_shape_name(report: &mut Report, table: &IndexMap<&str, Shape>, word: &Form<'_>)
    ensures { found_of report.new ≡ all_noted (found_of report.old) (name_faults (seen shape_of (names_of table.now)) (form_view word.now)) }
{
    check_name(report, table, word);
}

// A name that is one too many.
#[tactic(auto, using(pks_reader_names::proofs::Noting::noted_both))]
fn surplus<X>(report: &mut Report, declared: &IndexMap<&str, X>, word: &Form<'_>)
    ensures { found_of report.new ≡ all_noted (found_of report.old) (surplus_faults (names_of declared.now) (form_view word.now)) }
{
    check_name(report, declared, word);
    report.note(place_of(word), PAST_LIMIT);
}

/// The first past n names, that are words or lists with the name as first part.
pub fn past_first_names<X>(
    report: &mut Report,
    table: &IndexMap<&str, X>,
    n: usize,
    forms: &[Form<'_>],
)
    ensures { found_of report.new ≡ all_noted (found_of report.old) (past_names (names_of table.now) first_in n (forms_view forms.now)) }
{
    if n < forms.len() {
        surplus(report, table, first_in(&forms[n]));
    }
}

/// The same of a table of shapes.
#[tactic(auto, using(pks_reader_names::proofs::Entries::past_seen))]
pub fn past_shape_names(
    report: &mut Report,
    table: &IndexMap<&str, Shape>,
    n: usize,
    forms: &[Form<'_>],
)
    ensures { found_of report.new ≡ all_noted (found_of report.old) (past_names (seen shape_of (names_of table.now)) first_in n (forms_view forms.now)) }
{
    past_first_names(report, table, n, forms);
}

/// The first past n names, that are second parts.
pub fn past_second_names<X>(
    report: &mut Report,
    table: &IndexMap<&str, X>,
    n: usize,
    forms: &[Form<'_>],
)
    ensures { found_of report.new ≡ all_noted (found_of report.old) (past_names (names_of table.now) second_in n (forms_view forms.now)) }
{
    if n < forms.len() {
        surplus(report, table, second_in(&forms[n]));
    }
}

// ---- types

/// The faults of a form that names a type.
#[tactic(auto, using(pks_reader_names::proofs::Noting::noted_both, pks_reader_names::proofs::Noting::noted_number))]
pub fn type_word(report: &mut Report, types: &Types<'_>, form: &Form<'_>)
    ensures { found_of report.new ≡ all_noted (found_of report.old) (type_faults (names_of types.now) (form_view form.now)) }
{
    report.too_long(text_of(form), place_of(form));
    report.require(
        number(types, text_of(form)).is_some(),
        place_of(form),
        UNDECLARED,
    );
}

/// The faults of the only form, which names a type.
pub fn only_type(report: &mut Report, types: &Types<'_>, forms: &[Form<'_>])
    ensures { found_of report.new ≡ all_noted (found_of report.old) (only (type_faults (names_of types.now)) (forms_view forms.now)) }
{
    match forms {
        [] => {}
        [form, _rest @ ..] => type_word(report, types, form),
    }
}

/// The faults of forms that name types.
#[tactic(auto, using(pks_reader_names::proofs::Noting::noted_step, pks_reader_names::proofs::Noting::drop_view))]
pub fn each_type(report: &mut Report, types: &Types<'_>, forms: &[Form<'_>])
    ensures { found_of report.new ≡ all_noted (found_of report.old) (each (type_faults (names_of types.now)) (forms_view forms.now)) }
{
    for form in forms {
        type_word(report, types, form);
    }
}

/// The number of a type, which is within a byte.
pub fn small_number(types: &Types<'_>, name: &str) -> Option<u8>
    requires { length (names_of types.now) ≤ 16 }
    ensures { result ≡ number_of (names_of types.now) name.now }
{
    match number(types, name) {
        None => None,
        Some(n) => Some(n as u8),
    }
}

/// The number of the type that a form names, or 0.
pub fn type_named(types: &Types<'_>, form: &Form<'_>) -> u8
    requires { length (names_of types.now) ≤ 16 }
    ensures { result ≡ type_named (names_of types.now) (form_view form.now) }
{
    small_number(types, text_of(form)).unwrap_or(0)
}

/// The number of the type that the first form names.
pub fn parent_named(types: &Types<'_>, forms: &[Form<'_>]) -> Option<u8>
    requires { length (names_of types.now) ≤ 16 }
    ensures { result ≡ parent_named (names_of types.now) (forms_view forms.now) }
{
    match forms {
        [] => None,
        [form, _rest @ ..] => small_number(types, text_of(form)),
    }
}

fn sort(types: &Types<'_>, form: &Form<'_>) -> TypeId
    requires { length (names_of types.now) ≤ 16 }
    ensures { result.0 ≡ type_named (names_of types.now) (form_view form.now) }
{
    TypeId(type_named(types, form))
}

/// The types that the first three forms name.
pub fn three_types(types: &Types<'_>, forms: &[Form<'_>]) -> (u8, [TypeId; 3])
    requires { length (names_of types.now) ≤ 16 }
    ensures { types_of (take result.0 result.1) ≡ types_named (names_of types.now) 3 (forms_view forms.now) }
{
    match forms {
        [] => (0, [TypeId(0), TypeId(0), TypeId(0)]),
        [a, rest @ ..] => match rest {
            [] => (1, [sort(types, a), TypeId(0), TypeId(0)]),
            [b, rest @ ..] => match rest {
                [] => (2, [sort(types, a), sort(types, b), TypeId(0)]),
                [c, _rest @ ..] => (3, [sort(types, a), sort(types, b), sort(types, c)]),
            },
        },
    }
}

/// The types that the first two forms name.
pub fn two_types(types: &Types<'_>, forms: &[Form<'_>]) -> (u8, [TypeId; 3])
    requires { length (names_of types.now) ≤ 16 }
    ensures { types_of (take result.0 result.1) ≡ types_named (names_of types.now) 2 (forms_view forms.now) }
{
    match forms {
        [] => (0, [TypeId(0), TypeId(0), TypeId(0)]),
        [a, rest @ ..] => match rest {
            [] => (1, [sort(types, a), TypeId(0), TypeId(0)]),
            [b, _rest @ ..] => (2, [sort(types, a), sort(types, b), TypeId(0)]),
        },
    }
}
