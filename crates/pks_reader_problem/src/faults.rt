//! The faults of terms and atoms of any depth.
ghost use Rattle.std.specs.Prelude.{◌≡◌, ℕ, List, [], ◌∷◌, ◌++◌, map, option_map};
ghost use Rattle.pks_terms.specs.declared.codes.TheConstants.{THIRD_WILDCARD};
ghost use Rattle.pks_terms.specs.Views.{shape_of, types_of};
ghost use Rattle.pks_text.specs.Forms.{place_of};
ghost use Rattle.pks_text.specs.FormViews.{form_view, forms_view};
ghost use Rattle.pks_reader_names.specs.Meaning.{all_noted};
ghost use Rattle.pks_reader_names.specs.Terms.{mistyped, apart, too_high, miscounted, wanted_by, first_wanted, rest_wanted, word_faults, applied_faults, term_faults, arguments_faults, atom_faults, wildcards, past_places};
ghost use Rattle.pks_reader_names.specs.Heights.{is_higher, one_higher};
ghost use Rattle.pks_reader_names.specs.Views.{found_of, scope_view};

use pks_reader_names::parts::text_of;
use pks_reader_names::report::Report;
use pks_reader_names::scope::{Scope, name_in, wanted_by};
use pks_reader_shape::walk::head_of;
use pks_reader_shape::words::is_variable;
use pks_terms::codes::{
    HIGH_TERM, THIRD_WILDCARD, UNDECLARED, UNKNOWN_PARAMETER, WRONG_COUNT, WRONG_TYPE,
};
use pks_terms::ids::TypeId;
use pks_terms::problem::Shape;
use pks_terms::term::front;
use pks_text::{Form, place_of};

/// The fault of a term whose type doesn't fit the wanted one.
pub fn report_mistyped<'s>(
    report: &mut Report,
    scope: &Scope<'_, 's>,
    wanted: Option<u8>,
    term: &Form<'s>,
)
    ensures { found_of report.new ≡ all_noted (found_of report.old) (mistyped (scope_view scope.now) wanted (form_view term.now)) }
{
    if let Some(wanted) = wanted {
        if let Some(own) = scope.type_of(term) {
            if !scope.fits(own, wanted) {
                report.note(place_of(term), WRONG_TYPE);
            }
        }
    }
}

/// The fault of two sides of which neither type fits the other.
pub fn report_apart(
    report: &mut Report,
    scope: &Scope<'_, '_>,
    left: Option<u8>,
    right: Option<u8>,
    at: u32,
)
    ensures { found_of report.new ≡ all_noted (found_of report.old) (apart (scope_view scope.now) left right at) }
{
    if let Some(a) = left {
        if let Some(b) = right {
            if !(scope.fits(a, b) || scope.fits(b, a)) {
                report.note(at, WRONG_TYPE);
            }
        }
    }
}

#[tactic(auto, using(pks_reader_names::proofs::FormLists::counted))]
fn report_miscounted(report: &mut Report, shape: Option<&Shape>, args: &[Form<'_>], at: u32)
    ensures { found_of report.new ≡ all_noted (found_of report.old) (miscounted (option_map (λ x. shape_of x.now) shape.entry) (forms_view args.now) at) }
{
    if let Some(shape) = shape {
        if front(&shape.args, shape.n).len() != args.len() {
            report.note(at, WRONG_COUNT);
        }
    }
}

fn first_wanted(wanted: &[TypeId]) -> Option<u8>
    ensures { result ≡ first_wanted (types_of wanted.now) }
{
    match wanted {
        [] => None,
        [first, _rest @ ..] => Some(first.0),
    }
}

fn rest_wanted(wanted: &[TypeId]) -> &[TypeId]
    ensures { types_of result.now ≡ rest_wanted (types_of wanted.now) }
{
    match wanted {
        [] => &[],
        [_, rest @ ..] => rest,
    }
}

fn word(report: &mut Report, scope: &Scope<'_, '_>, text: &str, at: u32)
    ensures { found_of report.new ≡ all_noted (found_of report.old) (word_faults (scope_view scope.now) text.now at) }
{
    if text == "_" {
        return;
    }
    if is_variable(text.as_bytes()) {
        report.too_long(name_in(text), at);
        report.require(
            scope.parameter(name_in(text)).is_some(),
            at,
            UNKNOWN_PARAMETER,
        );
    } else {
        report.too_long(text, at);
        report.require(scope.object(text).is_some(), at, UNDECLARED);
    }
}

#[cycle(heights)]
fn is_above(form: &Form<'_>, low: u8) -> bool
    ensures { result ≡ is_higher low (form_view form.now) }
{
    match form {
        Form::Name(token) => low == 0 && is_variable(token.text.as_bytes()),
        Form::List { parts, .. } => low == 0 || is_one_above(parts, low - 1),
    }
}

#[cycle(heights)]
fn is_one_above(forms: &[Form<'_>], low: u8) -> bool
    ensures { result ≡ one_higher low (forms_view forms.now) }
{
    for form in forms {
        if is_above(form, low) {
            return true;
        }
    }
    false
}

#[tactic(auto, using(pks_reader_names::proofs::HeightLaws::is_higher_height))]
fn too_high(report: &mut Report, term: &Form<'_>)
    ensures { found_of report.new ≡ all_noted (found_of report.old) (too_high (form_view term.now)) }
{
    if is_above(term, 2) {
        report.note(place_of(term), HIGH_TERM);
    }
}

// The name of a predicate or function, and the number of its arguments.
#[tactic(auto, using(pks_reader_names::proofs::Noting::noted_both, pks_reader_names::proofs::Noting::noted_known))]
fn report_application(report: &mut Report, shape: Option<&Shape>, parts: &[Form<'_>], at: u32)
    ensures { found_of report.new ≡ all_noted (found_of report.old) (applied_faults (option_map (λ x. shape_of x.now) shape.entry) (forms_view parts.now) at) }
{
    match parts {
        [head, args @ ..] => {
            report.too_long(text_of(head), place_of(head));
            report.require(shape.is_some(), place_of(head), UNDECLARED);
            report_miscounted(report, shape, args, at);
        }
        [] => {}
    }
}

/// The faults of a term.
#[cycle(terms)]
#[tactic(auto, using(pks_reader_names::proofs::Noting::noted_step))]
pub fn report_term<'s>(report: &mut Report, scope: &Scope<'_, 's>, form: &Form<'s>)
    ensures { found_of report.new ≡ all_noted (found_of report.old) (term_faults (scope_view scope.now) (form_view form.now)) }
{
    match form {
        Form::Name(token) => word(report, scope, token.text, token.span.start),
        Form::List { parts, span } => {
            let shape = scope.function(head_of(parts));
            too_high(report, form);
            report_application(report, shape, parts, span.start);
            arguments(report, scope, wanted_by(shape), parts);
        }
    }
}

// The faults of the arguments behind a head.
#[cycle(terms)]
#[tactic(auto, using(pks_reader_names::proofs::Noting::noted_step, pks_reader_names::proofs::Noting::drop_view))]
fn arguments<'s>(report: &mut Report, scope: &Scope<'_, 's>, wanted: &[TypeId], parts: &[Form<'s>])
    ensures { found_of report.new ≡ all_noted (found_of report.old) (arguments_faults (scope_view scope.now) (types_of wanted.now) (forms_view parts.now)) }
{
    let mut rest = wanted;
    for i in 1..parts.len() {
        report_mistyped(report, scope, first_wanted(rest), &parts[i]);
        report_term(report, scope, &parts[i]);
        rest = rest_wanted(rest);
    }
}

/// The faults of a predicate with its arguments, by the parts of its list.
#[tactic(auto, using(pks_reader_names::proofs::Noting::noted_both))]
pub fn report_atom<'s>(report: &mut Report, scope: &Scope<'_, 's>, parts: &[Form<'s>], at: u32)
    ensures { found_of report.new ≡ all_noted (found_of report.old) (atom_faults (scope_view scope.now) (forms_view parts.now) at) }
{
    let shape = scope.predicate(head_of(parts));
    report_application(report, shape, parts, at);
    arguments(report, scope, wanted_by(shape), parts);
}

/// The first wildcard past n of them.
pub fn report_wildcards(report: &mut Report, n: u8, forms: &[Form<'_>])
    ensures { found_of report.new ≡ all_noted (found_of report.old) (past_places THIRD_WILDCARD n (wildcards (forms_view forms.now))) }
{
    let mut left = n;
    for form in forms {
        if text_of(form) == "_" {
            if left == 0 {
                report.note(place_of(form), THIRD_WILDCARD);
                return;
            }
            left -= 1;
        }
    }
}
