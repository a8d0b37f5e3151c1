//! The terms and atoms that forms state.
ghost use Rattle.std.specs.Prelude.{◌≡◌, ◌≤◌, [], map, take, length};
ghost use Rattle.pks_terms.specs.Sets.{Each};
ghost use Rattle.pks_terms.specs.Syntax.{Apply};
ghost use Rattle.pks_terms.specs.Counts.{InnerCounts, TermCounts, AtomCounts};
ghost use Rattle.pks_terms.specs.ValidProblems.{IsApplication};
ghost use Rattle.pks_terms.specs.Views.{object_of, inner_of, term_of, atom_of, shape_of};
ghost use Rattle.pks_text.specs.FormViews.{form_view, forms_view};
ghost use Rattle.pks_reader_names.specs.Tables.{number_of};
ghost use Rattle.pks_reader_names.specs.Meaning.{all_noted};
ghost use Rattle.pks_reader_names.specs.Terms.{term_faults};
ghost use Rattle.pks_reader_names.specs.Views.{found_of, names_of, scope_view};
ghost use Rattle.pks_reader_problem.specs.Sizes.{IsSmall};
ghost use Rattle.pks_reader_problem.specs.Stated.{or_zero, object_in, inner_in, term_in, first, word_in, place_in, atom_by, no_atom};

use crate::faults::report_term;
use indexmap::IndexMap;
use pks_reader_names::parts::behind;
use pks_reader_names::report::Report;
use pks_reader_names::scope::{Scope, name_in};
use pks_reader_shape::walk::head_of;
use pks_reader_shape::words::is_variable;
use pks_terms::ids::{FnId, ObjId, PredId};
use pks_terms::literal::PredAtom;
use pks_terms::problem::Shape;
use pks_terms::term::{Inner, Term, UNUSED};
use pks_text::Form;

const NO_OBJECT: ObjId = ObjId(0);

const NO_INNER: Inner = Inner::Obj(NO_OBJECT);

// The number of a name, or 0.
fn number<X>(table: &IndexMap<&str, X>, name: &str) -> usize
    ensures number { result ≡ or_zero (number_of (names_of table.now) name.now) }
    ensures within { result ≤ length (names_of table.now) }
{
    match pks_reader_names::scope::number(table, name) {
        None => 0,
        Some(n) => n,
    }
}

#[tactic(auto, using(crate::proofs::Seen::length_seen, crate::proofs::Seen::number_shown))]
fn function_number(scope: &Scope<'_, '_>, name: &str) -> u8
    requires { IsSmall (scope_view scope.now) }
    ensures { result ≡ or_zero (number_of (scope_view scope.now).functions name.now) }
{
    number(&scope.declared.functions, name) as u8
}

// The number of a predicate, or 0.
#[tactic(auto, using(crate::proofs::Seen::length_seen, crate::proofs::Seen::number_shown))]
pub(crate) fn predicate_number(scope: &Scope<'_, '_>, name: &str) -> u8
    requires { IsSmall (scope_view scope.now) }
    ensures { result ≡ or_zero (number_of (scope_view scope.now).predicates name.now) }
{
    number(&scope.declared.predicates, name) as u8
}

fn object(scope: &Scope<'_, '_>, form: &Form<'_>) -> ObjId
    requires { IsSmall (scope_view scope.now) }
    ensures { object_of result ≡ object_in (scope_view scope.now) (form_view form.now) }
{
    match form {
        Form::Name(token) => ObjId(number(&scope.declared.objects, token.text) as u16),
        Form::List { .. } => NO_OBJECT,
    }
}

fn objects(scope: &Scope<'_, '_>, forms: &[Form<'_>]) -> (u8, [ObjId; 2])
    requires { IsSmall (scope_view scope.now) }
    ensures says { map object_of (take result.0 result.1) ≡ first 2 (object_in (scope_view scope.now)) (forms_view forms.now) }
    ensures count { result.0 ≤ 2 }
{
    match forms {
        [] => (0, [NO_OBJECT, NO_OBJECT]),
        [a, rest @ ..] => match rest {
            [] => (1, [object(scope, a), NO_OBJECT]),
            [b, _rest @ ..] => (2, [object(scope, a), object(scope, b)]),
        },
    }
}

fn inner_of(fun: FnId, of: (u8, [ObjId; 2])) -> Inner
    ensures says { inner_of result ≡ Apply fun.0 (map object_of (take of.0 of.1)) }
    ensures counts { of.0 ≤ 2 → InnerCounts result }
{
    let (n, args) = of;
    Inner::App { fun, n, args }
}

fn inner_place(scope: &Scope<'_, '_>, parts: &[Form<'_>]) -> Inner
    requires { IsSmall (scope_view scope.now) }
    ensures says { inner_of result ≡ place_in (scope_view scope.now) (object_in (scope_view scope.now)) (forms_view parts.now) }
    ensures counts { InnerCounts result }
{
    let fun = FnId(function_number(scope, head_of(parts)));
    inner_of(fun, objects(scope, behind(parts)))
}

fn inner_word(scope: &Scope<'_, '_>, text: &str) -> Inner
    requires { IsSmall (scope_view scope.now) }
    ensures says { inner_of result ≡ word_in (scope_view scope.now) text.now }
    ensures counts { InnerCounts result }
{
    if is_variable(text.as_bytes()) {
        Inner::Param(number(scope.parameters, name_in(text)) as u8)
    } else {
        Inner::Obj(ObjId(number(&scope.declared.objects, text) as u16))
    }
}

// An argument.
#[tactic(auto, using(pks_text::proofs::FormLaws::view_list), unfolding(crate::specs::Stated::inner_in))]
fn inner(scope: &Scope<'_, '_>, form: &Form<'_>) -> Inner
    requires { IsSmall (scope_view scope.now) }
    ensures says { inner_of result ≡ inner_in (scope_view scope.now) (form_view form.now) }
    ensures counts { InnerCounts result }
{
    match form {
        Form::Name(token) => inner_word(scope, token.text),
        Form::List { parts, .. } => inner_place(scope, parts),
    }
}

fn inners(scope: &Scope<'_, '_>, forms: &[Form<'_>]) -> (u8, [Inner; 2])
    requires { IsSmall (scope_view scope.now) }
    ensures says { map inner_of (take result.0 result.1) ≡ first 2 (inner_in (scope_view scope.now)) (forms_view forms.now) }
    ensures counts { (result.0 ≤ 2) × Each InnerCounts (take result.0 result.1) }
{
    match forms {
        [] => (0, [NO_INNER, NO_INNER]),
        [a, rest @ ..] => match rest {
            [] => (1, [inner(scope, a), NO_INNER]),
            [b, _rest @ ..] => (2, [inner(scope, a), inner(scope, b)]),
        },
    }
}

fn term_of(fun: FnId, of: (u8, [Inner; 2])) -> Term
    ensures says { term_of result ≡ Apply fun.0 (map inner_of (take of.0 of.1)) }
    ensures counts { (of.0 ≤ 2) × Each InnerCounts (take of.0 of.1) → TermCounts result }
    ensures place { IsApplication result }
{
    let (n, args) = of;
    Term::App { fun, n, args }
}

pub(crate) fn term_place(scope: &Scope<'_, '_>, parts: &[Form<'_>]) -> Term
    requires { IsSmall (scope_view scope.now) }
    ensures says { term_of result ≡ place_in (scope_view scope.now) (inner_in (scope_view scope.now)) (forms_view parts.now) }
    ensures counts { TermCounts result }
    ensures place { IsApplication result }
{
    let fun = FnId(function_number(scope, head_of(parts)));
    term_of(fun, inners(scope, behind(parts)))
}

// Function 0 without arguments.
pub(crate) fn no_place() -> Term
    ensures says { term_of result ≡ Apply 0 [] }
    ensures counts { TermCounts result }
    ensures place { IsApplication result }
{
    term_of(FnId(0), (0, [NO_INNER, NO_INNER]))
}

fn term_word(scope: &Scope<'_, '_>, text: &str) -> Term
    requires { IsSmall (scope_view scope.now) }
    ensures says { term_of result ≡ word_in (scope_view scope.now) text.now }
    ensures counts { TermCounts result }
{
    if is_variable(text.as_bytes()) {
        Term::Param(number(scope.parameters, name_in(text)) as u8)
    } else {
        Term::Obj(ObjId(number(&scope.declared.objects, text) as u16))
    }
}

/// The term that a form states.
#[tactic(auto, using(pks_text::proofs::FormLaws::view_list), unfolding(crate::specs::Stated::term_in))]
pub fn stated(scope: &Scope<'_, '_>, form: &Form<'_>) -> Term
    requires { IsSmall (scope_view scope.now) }
    ensures says { term_of result ≡ term_in (scope_view scope.now) (form_view form.now) }
    ensures counts { TermCounts result }
{
    match form {
        Form::Name(token) => term_word(scope, token.text),
        Form::List { parts, .. } => term_place(scope, parts),
    }
}

/// The term that a form states, and its faults.
pub fn term<'s>(report: &mut Report, scope: &Scope<'_, 's>, form: &Form<'s>) -> Term
    requires { IsSmall (scope_view scope.now) }
    ensures faults { found_of report.new ≡ all_noted (found_of report.old) (term_faults (scope_view scope.now) (form_view form.now)) }
    ensures says { term_of result ≡ term_in (scope_view scope.now) (form_view form.now) }
    ensures counts { TermCounts result }
{
    report_term(report, scope, form);
    stated(scope, form)
}

fn atom(pred: PredId, n: u8, args: [Term; 3]) -> PredAtom
    ensures says { atom_of result ≡ record { predicate = pred.0; arguments = map term_of (take n args) } }
    ensures counts { n ≤ 3 → Each TermCounts (take n args) → AtomCounts result }
{
    PredAtom { pred, n, args }
}

/// A predicate with its first three arguments, by the parts of its list.
pub fn stated_atom(scope: &Scope<'_, '_>, parts: &[Form<'_>]) -> PredAtom
    requires { IsSmall (scope_view scope.now) }
    ensures says { atom_of result ≡ atom_by (scope_view scope.now) (forms_view parts.now) }
    ensures counts { AtomCounts result }
{
    let pred = PredId(predicate_number(scope, head_of(parts)));
    match behind(parts) {
        [] => atom(pred, 0, [UNUSED, UNUSED, UNUSED]),
        [a, rest @ ..] => match rest {
            [] => atom(pred, 1, [stated(scope, a), UNUSED, UNUSED]),
            [b, rest @ ..] => match rest {
                [] => atom(pred, 2, [stated(scope, a), stated(scope, b), UNUSED]),
                [c, _rest @ ..] => {
                    atom(
                        pred,
                        3,
                        [stated(scope, a), stated(scope, b), stated(scope, c)],
                    )
                }
            },
        },
    }
}

pub(crate) fn no_atom() -> PredAtom
    ensures says { atom_of result ≡ no_atom }
    ensures counts { AtomCounts result }
{
    atom(PredId(0), 0, [UNUSED, UNUSED, UNUSED])
}
