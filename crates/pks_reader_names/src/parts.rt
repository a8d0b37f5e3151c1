//! Parts of lists.
ghost use Rattle.std.specs.Prelude.{◌≡◌, ◌≤◌, length};
ghost use Rattle.pks_text.specs.FormViews.{form_view, forms_view};
ghost use Rattle.pks_reader_names.specs.Parts.{text_of, parts_of, behind, behind_head, section, first_forms, past};
ghost use Rattle.pks_reader_names.specs.Meaning.{all_noted};
ghost use Rattle.pks_reader_names.specs.Views.{found_of};

use crate::report::Report;
use pks_reader_shape::walk::is_headed;
use pks_terms::codes::PAST_LIMIT;
use pks_text::{Form, place_of};

/// The word, or nothing.
pub fn text_of<'s>(form: &Form<'s>) -> &'s str
    ensures { result.now ≡ text_of (form_view form.now) }
{
    match form {
        Form::Name(token) => token.text,
        Form::List { .. } => "",
    }
}

/// The parts of a list.
pub fn parts_of<'f, 's>(form: &'f Form<'s>) -> &'f [Form<'s>]
    ensures { forms_view result.now ≡ parts_of (form_view form.now) }
{
    match form {
        Form::Name(_) => &[],
        Form::List { parts, .. } => parts,
    }
}

/// The parts behind the head.
pub fn behind<'f, 's>(parts: &'f [Form<'s>]) -> &'f [Form<'s>]
    ensures { forms_view result.now ≡ behind (forms_view parts.now) }
{
    match parts {
        [] => &[],
        [_, rest @ ..] => rest,
    }
}

/// The parts of a list behind its head.
pub fn behind_head<'f, 's>(form: &'f Form<'s>) -> &'f [Form<'s>]
    ensures { forms_view result.now ≡ behind_head (form_view form.now) }
{
    behind(parts_of(form))
}

/// The parts of the section with this head.
pub fn section<'f, 's>(head: &str, forms: &'f [Form<'s>]) -> &'f [Form<'s>]
    ensures { forms_view result.now ≡ section head.now (forms_view forms.now) }
{
    for form in forms {
        if is_headed(head, form) {
            return behind_head(form);
        }
    }
    &[]
}

/// The first forms, at most n of them.
#[tactic(auto, using(crate::proofs::FormLists::first_min))]
pub fn first_forms<'f, 's>(n: usize, forms: &'f [Form<'s>]) -> &'f [Form<'s>]
    ensures forms { forms_view result.now ≡ first_forms n (forms_view forms.now) }
    ensures count { length result.now ≤ n }
{
    &forms[..n.min(forms.len())]
}

/// The first part past a number of them.
#[tactic(auto, using(crate::proofs::Past::past_view, crate::proofs::Past::past_none, crate::proofs::Noting::drop_view))]
pub fn past(report: &mut Report, n: usize, forms: &[Form<'_>])
    ensures { found_of report.new ≡ all_noted (found_of report.old) (past n (forms_view forms.now)) }
{
    if n < forms.len() {
        report.note(place_of(&forms[n]), PAST_LIMIT);
    }
}
