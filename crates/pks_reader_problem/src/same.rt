//! Whether literals are the same, and those that come again.
ghost use Rattle.std.specs.Prelude.{◌≡◌, drop};
ghost use Rattle.pks_text.specs.FormViews.{form_view, forms_view};
ghost use Rattle.pks_reader_names.specs.Sentences.{same_form, same_forms, same_positive, same_only, same_literal, same_turned, again, repeated};
ghost use Rattle.pks_reader_names.specs.Parts.{each};
ghost use Rattle.pks_reader_names.specs.Meaning.{all_noted};
ghost use Rattle.pks_reader_names.specs.Views.{found_of};

use pks_reader_names::parts::behind_head;
use pks_reader_names::report::Report;
use pks_reader_shape::walk::is_headed;
use pks_terms::codes::LITERAL_TWICE;
use pks_text::{Form, place_of};

#[cycle(same)]
fn same_form(form: &Form<'_>, other: &Form<'_>) -> bool
    ensures { result ≡ same_form (form_view form.now) (form_view other.now) }
{
    match form {
        Form::Name(token) => match other {
            Form::Name(word) => token.text == word.text,
            Form::List { .. } => false,
        },
        Form::List { parts, .. } => match other {
            Form::Name(_) => false,
            Form::List { parts: others, .. } => same_forms(parts, others),
        },
    }
}

#[cycle(same)]
fn same_forms(forms: &[Form<'_>], others: &[Form<'_>]) -> bool
    ensures { result ≡ same_forms (forms_view forms.now) (forms_view others.now) }
{
    if forms.len() != others.len() {
        return false;
    }
    for i in 0..forms.len() {
        if !same_form(&forms[i], &others[i]) {
            return false;
        }
    }
    true
}

// The sides of one equation are those of the other the other way round.
fn same_turned(sides: &[Form<'_>], others: &[Form<'_>]) -> bool
    ensures { result ≡ same_turned (forms_view sides.now) (forms_view others.now) }
{
    match sides {
        [] => false,
        [t, rest @ ..] => match rest {
            [] => false,
            [u, _rest @ ..] => match others {
                [] => false,
                [v, rest @ ..] => match rest {
                    [] => false,
                    [w, _rest @ ..] => same_form(t, w) && same_form(u, v),
                },
            },
        },
    }
}

fn same_positive(form: &Form<'_>, other: &Form<'_>) -> bool
    ensures { result ≡ same_positive (form_view form.now) (form_view other.now) }
{
    same_form(form, other)
        || (is_headed("=", form)
            && (is_headed("=", other) && same_turned(behind_head(form), behind_head(other))))
}

fn same_only(forms: &[Form<'_>], others: &[Form<'_>]) -> bool
    ensures { result ≡ same_only (forms_view forms.now) (forms_view others.now) }
{
    match forms {
        [] => false,
        [form, _rest @ ..] => match others {
            [] => false,
            [other, _rest @ ..] => same_positive(form, other),
        },
    }
}

// The same literal with the same sign, the sides of an equation in either order.
#[tactic(auto, unfolding(pks_reader_names::specs::Sentences::same_literal))]
fn same_literal(form: &Form<'_>, other: &Form<'_>) -> bool
    ensures { result ≡ same_literal (form_view form.now) (form_view other.now) }
{
    if is_headed("not", form) && is_headed("not", other) {
        same_only(behind_head(form), behind_head(other))
    } else {
        same_positive(form, other)
    }
}

// The literal comes again.
fn again(report: &mut Report, first: &Form<'_>, form: &Form<'_>)
    ensures { found_of report.new ≡ all_noted (found_of report.old) (again (form_view first.now) (form_view form.now)) }
{
    if same_literal(first, form) {
        report.note(place_of(form), LITERAL_TWICE);
    }
}

// The literal comes again among the forms from a place on.
#[tactic(auto, using(pks_reader_names::proofs::Noting::noted_step, pks_reader_names::proofs::Noting::drop_view))]
fn each_again(report: &mut Report, first: &Form<'_>, forms: &[Form<'_>], from: usize)
    ensures { found_of report.new ≡ all_noted (found_of report.old) (each (again (form_view first.now)) (forms_view (drop from forms.now))) }
{
    for i in from..forms.len() {
        again(report, first, &forms[i]);
    }
}

/// Literals that stand twice.
#[tactic(auto, using(pks_reader_names::proofs::Noting::noted_step, pks_reader_names::proofs::Noting::drop_view))]
pub fn report_repeated(report: &mut Report, forms: &[Form<'_>])
    ensures { found_of report.new ≡ all_noted (found_of report.old) (repeated (forms_view forms.now)) }
{
    for i in 0..forms.len() {
        each_again(report, &forms[i], forms, i + 1);
    }
}
