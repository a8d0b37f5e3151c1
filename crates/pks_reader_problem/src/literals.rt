//! The literals, conjunctions and patterns that forms state, and their faults.
ghost use Rattle.std.specs.Prelude.{◌≡◌, ◌≤◌, map, take, option_map};
ghost use Rattle.pks_terms.specs.Sets.{Each};
ghost use Rattle.pks_terms.specs.Counts.{LiteralCounts, ConjCounts, SlotCounts, PatternCounts};
ghost use Rattle.pks_terms.specs.Views.{term_of, atom_of, literal_of, conj_of, pattern_of};
ghost use Rattle.pks_text.specs.Forms.{form, no_forms};
ghost use Rattle.pks_text.specs.FormViews.{form_view, forms_view};
ghost use Rattle.pks_reader_names.specs.Parts.{each, only};
ghost use Rattle.pks_reader_names.specs.Meaning.{all_noted};
ghost use Rattle.pks_reader_names.specs.Terms.{equation_faults, positive_faults, literal_faults, pattern_faults};
ghost use Rattle.pks_reader_names.specs.Sentences.{literals_faults};
ghost use Rattle.pks_reader_names.specs.Views.{found_of, scope_view};
ghost use Rattle.pks_reader_problem.specs.Sizes.{IsSmall};
ghost use Rattle.pks_reader_problem.specs.Stated.{first, equation_in, signed_in, literal_in, conj_in, slot_in, pattern_in, one, no_literal, only_literal, no_pattern, only_pattern};

use crate::faults::{report_apart, report_atom, report_wildcards};
use crate::terms::{no_atom, predicate_number, stated, stated_atom, term};
use pks_reader_names::parts::{behind, behind_head, past, text_of};
use pks_reader_names::report::Report;
use pks_reader_names::scope::Scope;
use pks_reader_shape::walk::{head_of, is_headed};
use pks_terms::ids::PredId;
use pks_terms::literal::{Conj, Literal, Pattern, atom_literal, equation};
use pks_terms::term::{Term, UNUSED};
use pks_text::{Form, place_of};

fn no_literal() -> Literal
    ensures says { literal_of result ≡ no_literal }
    ensures counts { LiteralCounts result }
{
    Literal::default()
}

#[tactic(auto, using(pks_reader_names::proofs::Noting::noted_both))]
fn two_sides<'s>(
    report: &mut Report,
    scope: &Scope<'_, 's>,
    left: &Form<'s>,
    right: &Form<'s>,
    positive: bool,
) -> Literal
    requires { IsSmall (scope_view scope.now) }
    ensures faults { found_of report.new ≡ all_noted (found_of report.old) (equation_faults (scope_view scope.now) (form (form_view left.now) (form (form_view right.now) no_forms))) }
    ensures says { literal_of result ≡ equation_in (scope_view scope.now) positive (form (form_view left.now) (form (form_view right.now) no_forms)) }
    ensures counts { LiteralCounts result }
{
    let first = term(report, scope, left);
    let second = term(report, scope, right);
    let (own, other) = (scope.type_of(left), scope.type_of(right));
    report_apart(report, scope, own, other, place_of(right));
    equation(&first, &second, positive)
}

/// The equation that its sides state, affirmed or denied, and its faults.
pub fn equation_by<'s>(
    report: &mut Report,
    scope: &Scope<'_, 's>,
    sides: &[Form<'s>],
    positive: bool,
) -> Literal
    requires { IsSmall (scope_view scope.now) }
    ensures faults { found_of report.new ≡ all_noted (found_of report.old) (equation_faults (scope_view scope.now) (forms_view sides.now)) }
    ensures says { literal_of result ≡ equation_in (scope_view scope.now) positive (forms_view sides.now) }
    ensures counts { LiteralCounts result }
{
    match sides {
        [] => no_literal(),
        [left, rest @ ..] => match rest {
            [] => no_literal(),
            [right, _rest @ ..] => two_sides(report, scope, left, right, positive),
        },
    }
}

// An atom or an equation, affirmed or denied.
#[tactic(auto, using(pks_text::proofs::FormLaws::view_list))]
fn signed_literal<'s>(
    report: &mut Report,
    scope: &Scope<'_, 's>,
    form: &Form<'s>,
    positive: bool,
) -> Literal
    requires { IsSmall (scope_view scope.now) }
    ensures faults { found_of report.new ≡ all_noted (found_of report.old) (positive_faults (scope_view scope.now) (form_view form.now)) }
    ensures says { literal_of result ≡ signed_in (scope_view scope.now) positive (form_view form.now) }
    ensures counts { LiteralCounts result }
{
    match form {
        Form::Name(_) => atom_literal(&no_atom(), positive),
        Form::List { parts, span } => {
            if head_of(parts) == "=" {
                equation_by(report, scope, behind(parts), positive)
            } else {
                report_atom(report, scope, parts, span.start);
                atom_literal(&stated_atom(scope, parts), positive)
            }
        }
    }
}

/// The literal that a form states, and its faults.
#[tactic(auto, unfolding(crate::specs::Stated::literal_in, pks_reader_names::specs::Terms::literal_faults))]
pub fn literal<'s>(report: &mut Report, scope: &Scope<'_, 's>, form: &Form<'s>) -> Literal
    requires { IsSmall (scope_view scope.now) }
    ensures faults { found_of report.new ≡ all_noted (found_of report.old) (literal_faults (scope_view scope.now) (form_view form.now)) }
    ensures says { literal_of result ≡ literal_in (scope_view scope.now) (form_view form.now) }
    ensures counts { LiteralCounts result }
{
    if is_headed("not", form) {
        match behind_head(form) {
            [] => no_literal(),
            [denied, _rest @ ..] => signed_literal(report, scope, denied, false),
        }
    } else {
        signed_literal(report, scope, form, true)
    }
}

// The conjunction of the first four literals, and the faults of all.
#[tactic(auto, using(pks_reader_names::proofs::Noting::noted_step, pks_reader_names::proofs::Noting::drop_view, crate::proofs::FirstForms::first_next, crate::proofs::FirstForms::first_past, crate::proofs::FirstForms::first_beyond, crate::proofs::FirstForms::none_left), unfolding(crate::specs::Stated::conj_in))]
fn each_literal<'s>(report: &mut Report, scope: &Scope<'_, 's>, forms: &[Form<'s>]) -> Conj
    requires { IsSmall (scope_view scope.now) }
    ensures faults { found_of report.new ≡ all_noted (found_of report.old) (each (literal_faults (scope_view scope.now)) (forms_view forms.now)) }
    ensures says { conj_of result ≡ conj_in (scope_view scope.now) (forms_view forms.now) }
    ensures counts { ConjCounts result }
{
    let mut conj = Conj::empty();
    for i in 0..forms.len() {
        let literal = literal(report, scope, &forms[i]);
        if i < 4 {
            conj = conj.with(&literal);
        }
    }
    conj
}

/// The conjunction that forms state, of which there are at most four, and their faults.
#[tactic(auto, using(pks_reader_names::proofs::Noting::noted_both))]
pub fn conj<'s>(report: &mut Report, scope: &Scope<'_, 's>, forms: &[Form<'s>]) -> Conj
    requires { IsSmall (scope_view scope.now) }
    ensures faults { found_of report.new ≡ all_noted (found_of report.old) (literals_faults (scope_view scope.now) 4 (forms_view forms.now)) }
    ensures says { conj_of result ≡ conj_in (scope_view scope.now) (forms_view forms.now) }
    ensures counts { ConjCounts result }
{
    past(report, 4, forms);
    each_literal(report, scope, forms)
}

/// The literal that the only form states, and the faults of all forms.
#[tactic(auto, using(pks_reader_names::proofs::Noting::noted_step, pks_reader_names::proofs::Noting::drop_view))]
pub fn only_literal<'s>(report: &mut Report, scope: &Scope<'_, 's>, forms: &[Form<'s>]) -> Literal
    requires { IsSmall (scope_view scope.now) }
    ensures faults { found_of report.new ≡ all_noted (found_of report.old) (literals_faults (scope_view scope.now) 4 (forms_view forms.now)) }
    ensures says { literal_of result ≡ only_literal (scope_view scope.now) (forms_view forms.now) }
    ensures counts { LiteralCounts result }
{
    past(report, 4, forms);
    match forms {
        [] => no_literal(),
        [form, _rest @ ..] => {
            let only = literal(report, scope, form);
            let _more = each_literal(report, scope, behind(forms));
            only
        }
    }
}

// A wildcard or a term.
fn slot(scope: &Scope<'_, '_>, form: &Form<'_>) -> Option<Term>
    requires { IsSmall (scope_view scope.now) }
    ensures says { option_map term_of result ≡ slot_in (scope_view scope.now) (form_view form.now) }
    ensures counts { SlotCounts result }
{
    if text_of(form) == "_" {
        None
    } else {
        Some(stated(scope, form))
    }
}

fn with_slots(pred: PredId, n: u8, args: [Option<Term>; 3]) -> Pattern
    ensures says { pattern_of result ≡ record { predicate = pred.0; slots = map (option_map term_of) (take n args) } }
    ensures counts { n ≤ 3 → Each SlotCounts (take n args) → PatternCounts result }
{
    Pattern { pred, n, args }
}

fn pattern_by(scope: &Scope<'_, '_>, pred: PredId, forms: &[Form<'_>]) -> Pattern
    requires { IsSmall (scope_view scope.now) }
    ensures says { pattern_of result ≡ record { predicate = pred.0; slots = first 3 (slot_in (scope_view scope.now)) (forms_view forms.now) } }
    ensures counts { PatternCounts result }
{
    let none = Some(UNUSED);
    match forms {
        [] => with_slots(pred, 0, [none, none, none]),
        [a, rest @ ..] => match rest {
            [] => with_slots(pred, 1, [slot(scope, a), none, none]),
            [b, rest @ ..] => match rest {
                [] => with_slots(pred, 2, [slot(scope, a), slot(scope, b), none]),
                [c, _rest @ ..] => {
                    with_slots(pred, 3, [slot(scope, a), slot(scope, b), slot(scope, c)])
                }
            },
        },
    }
}

fn no_pattern() -> Pattern
    ensures says { pattern_of result ≡ no_pattern }
    ensures counts { PatternCounts result }
{
    let none = Some(UNUSED);
    with_slots(PredId(0), 0, [none, none, none])
}

/// The pattern that a form states, and its faults.
#[tactic(auto, using(pks_text::proofs::FormLaws::view_list, pks_reader_names::proofs::Noting::noted_both), unfolding(crate::specs::Stated::pattern_in, pks_reader_names::specs::Terms::pattern_faults))]
fn pattern<'s>(report: &mut Report, scope: &Scope<'_, 's>, form: &Form<'s>) -> Pattern
    requires { IsSmall (scope_view scope.now) }
    ensures faults { found_of report.new ≡ all_noted (found_of report.old) (pattern_faults (scope_view scope.now) (form_view form.now)) }
    ensures says { pattern_of result ≡ pattern_in (scope_view scope.now) (form_view form.now) }
    ensures counts { PatternCounts result }
{
    match form {
        Form::Name(_) => no_pattern(),
        Form::List { parts, span } => {
            report_atom(report, scope, parts, span.start);
            report_wildcards(report, 2, behind(parts));
            let pred = PredId(predicate_number(scope, head_of(parts)));
            pattern_by(scope, pred, behind(parts))
        }
    }
}

/// The pattern that the only form states, and its faults.
pub fn only_pattern<'s>(report: &mut Report, scope: &Scope<'_, 's>, forms: &[Form<'s>]) -> Pattern
    requires { IsSmall (scope_view scope.now) }
    ensures faults { found_of report.new ≡ all_noted (found_of report.old) (only (pattern_faults (scope_view scope.now)) (forms_view forms.now)) }
    ensures says { pattern_of result ≡ only_pattern (scope_view scope.now) (forms_view forms.now) }
    ensures counts { PatternCounts result }
{
    match forms {
        [] => no_pattern(),
        [form, _rest @ ..] => pattern(report, scope, form),
    }
}
