//! The queries, effects, senses, adds and aims that forms state, and their faults.
ghost use Rattle.std.specs.Prelude.{◌≡◌, ◌≤◌, ◌<◌, ◌+◌, ◌++◌, [], ◌∷◌, true, false, map, take};
ghost use Rattle.pks_terms.specs.Sets.{Each};
ghost use Rattle.pks_terms.specs.Counts.{AtomCounts, TermCounts, QueryCounts, ItemCounts, TargetCounts, EffectCounts, SenseCounts, AddCounts, AimCounts};
ghost use Rattle.pks_terms.specs.ValidProblems.{AssignsToPlace, IsApplication};
ghost use Rattle.pks_terms.specs.Orders.{number_of, arguments_of};
ghost use Rattle.pks_terms.specs.Actions.{Assign};
ghost use Rattle.pks_terms.specs.Views.{term_of, atom_of, query_of, item_of, target_of, effect_of, sense_of, add_of, aim_of};
ghost use Rattle.pks_text.specs.Forms.{form, no_forms};
ghost use Rattle.pks_text.specs.FormViews.{form_view, forms_view};
ghost use Rattle.pks_reader_names.specs.Parts.{only, parts_of};
ghost use Rattle.pks_reader_names.specs.Meaning.{all_noted};
ghost use Rattle.pks_reader_names.specs.Terms.{term_faults, positive_faults, assigned_faults};
ghost use Rattle.pks_reader_names.specs.Sentences.{plain_faults, query_faults, item_faults, target_faults, conditional_faults, effect_faults, sense_faults, parts_faults, given_faults, add_faults, aim_faults};
ghost use Rattle.pks_reader_names.specs.Views.{found_of, scope_view};
ghost use Rattle.pks_reader_problem.specs.Sizes.{IsSmall};
ghost use Rattle.pks_reader_problem.specs.Spans.{bytes_in};
ghost use Rattle.pks_reader_problem.specs.Stated.{first, one, no_atom, atom_in, only_term, only_query, plain_in, query_in, item_in, target_in, assigned_in, conditional_in, effect_in, sense_in, given_in, add_in, aim_in, bytes_of};

use crate::faults::{report_atom, report_mistyped, report_term};
use crate::literals::{conj, equation_by, only_literal, only_pattern};
use crate::terms::{no_atom, no_place, stated_atom, term, term_place};
use pks_reader_names::parts::{behind, behind_head, parts_of, past};
use pks_reader_names::report::Report;
use pks_reader_names::scope::Scope;
use pks_reader_shape::walk::{head_of, is_headed};
use pks_terms::ids::Span;
use pks_terms::literal::{Conj, PredAtom};
use pks_terms::problem::Aim;
use pks_terms::schema::{Adds, Effect, Item, Query, Sense, Target};
use pks_terms::term::{Term, UNUSED};
use pks_text::Form;

/// The term that the only form states, and its faults.
pub fn only_term<'s>(report: &mut Report, scope: &Scope<'_, 's>, forms: &[Form<'s>]) -> Term
    requires { IsSmall (scope_view scope.now) }
    ensures faults { found_of report.new ≡ all_noted (found_of report.old) (only (term_faults (scope_view scope.now)) (forms_view forms.now)) }
    ensures says { term_of result ≡ only_term (scope_view scope.now) (forms_view forms.now) }
    ensures counts { TermCounts result }
{
    match forms {
        [] => UNUSED,
        [form, _rest @ ..] => term(report, scope, form),
    }
}

// ---- queries

// The query that a form states, which isn't denied.
#[tactic(auto, using(crate::proofs::Heads::plain_known), unfolding(crate::specs::Stated::plain_in, pks_reader_names::specs::Sentences::plain_faults))]
fn plain<'s>(report: &mut Report, scope: &Scope<'_, 's>, form: &Form<'s>) -> Query
    requires { IsSmall (scope_view scope.now) }
    ensures faults { found_of report.new ≡ all_noted (found_of report.old) (plain_faults (scope_view scope.now) (form_view form.now)) }
    ensures says { query_of result ≡ record { asks = plain_in (scope_view scope.now) (form_view form.now); denied = false } }
    ensures counts { QueryCounts result }
{
    if is_headed("k", form) {
        Query::K(only_literal(report, scope, behind_head(form)))
    } else if is_headed("kv", form) {
        Query::Kv(only_term(report, scope, behind_head(form)))
    } else {
        Query::Kw(conj(report, scope, behind_head(form)))
    }
}

fn only_plain<'s>(report: &mut Report, scope: &Scope<'_, 's>, forms: &[Form<'s>]) -> Query
    requires { IsSmall (scope_view scope.now) }
    ensures faults { found_of report.new ≡ all_noted (found_of report.old) (only (plain_faults (scope_view scope.now)) (forms_view forms.now)) }
    ensures says { query_of result ≡ only_query (scope_view scope.now) (forms_view forms.now) }
    ensures counts { QueryCounts result }
{
    match forms {
        [] => Query::Kw(Conj::empty()),
        [form, _rest @ ..] => plain(report, scope, form),
    }
}

fn denied_query(query: &Query) -> Query
    ensures says { query_of result ≡ record (query_of query.now) { denied = true } }
    ensures counts { QueryCounts query.now → QueryCounts result }
{
    match query {
        Query::K(l) | Query::NotK(l) => Query::NotK(*l),
        Query::Kw(c) | Query::NotKw(c) => Query::NotKw(*c),
        Query::Kv(t) | Query::NotKv(t) => Query::NotKv(*t),
    }
}

/// The query that a form states, and its faults.
#[tactic(auto, unfolding(crate::specs::Stated::query_in, pks_reader_names::specs::Sentences::query_faults))]
pub fn query<'s>(report: &mut Report, scope: &Scope<'_, 's>, form: &Form<'s>) -> Query
    requires { IsSmall (scope_view scope.now) }
    ensures faults { found_of report.new ≡ all_noted (found_of report.old) (query_faults (scope_view scope.now) (form_view form.now)) }
    ensures says { query_of result ≡ query_in (scope_view scope.now) (form_view form.now) }
    ensures counts { QueryCounts result }
{
    if is_headed("not-derived", form) {
        denied_query(&only_plain(report, scope, behind_head(form)))
    } else {
        plain(report, scope, form)
    }
}

// ---- effects

// The atom that the only form states; the faults are those of an equation where it is one.
#[tactic(auto, using(pks_text::proofs::FormLaws::view_list))]
fn only_atom<'s>(report: &mut Report, scope: &Scope<'_, 's>, forms: &[Form<'s>]) -> PredAtom
    requires { IsSmall (scope_view scope.now) }
    ensures faults { found_of report.new ≡ all_noted (found_of report.old) (only (positive_faults (scope_view scope.now)) (forms_view forms.now)) }
    ensures says { atom_of result ≡ one no_atom (atom_in (scope_view scope.now)) (forms_view forms.now) }
    ensures counts { AtomCounts result }
{
    match forms {
        [] => no_atom(),
        [form, _rest @ ..] => match form {
            Form::Name(_) => no_atom(),
            Form::List { parts, span } => {
                if head_of(parts) == "=" {
                    let _equation = equation_by(report, scope, behind(parts), true);
                } else {
                    report_atom(report, scope, parts, span.start);
                }
                stated_atom(scope, parts)
            }
        },
    }
}

// A place gets a value.
fn assigns(place: &Term, value: &Term) -> Target
    ensures says { target_of result ≡ Assign (number_of (term_of place.now)) (arguments_of (term_of place.now)) (term_of value.now) }
    ensures counts { TermCounts place.now → TermCounts value.now → TargetCounts result }
    ensures places { IsApplication place.now → AssignsToPlace result }
{
    Target::Assign {
        place: *place,
        value: *value,
    }
}

#[tactic(auto, using(pks_reader_names::proofs::Noting::noted_both))]
fn place_and_value<'s>(
    report: &mut Report,
    scope: &Scope<'_, 's>,
    place: &Form<'s>,
    value: &Form<'s>,
) -> Target
    requires { IsSmall (scope_view scope.now) }
    ensures faults { found_of report.new ≡ all_noted (found_of report.old) (assigned_faults (scope_view scope.now) (form (form_view place.now) (form (form_view value.now) no_forms))) }
    ensures says { target_of result ≡ assigned_in (scope_view scope.now) (form (form_view place.now) (form (form_view value.now) no_forms)) }
    ensures counts { TargetCounts result }
    ensures places { AssignsToPlace result }
{
    report_term(report, scope, place);
    let given = term(report, scope, value);
    report_mistyped(report, scope, scope.type_of(place), value);
    assigns(&term_place(scope, parts_of(place)), &given)
}

// A place, and the value that it gets.
fn assignment<'s>(report: &mut Report, scope: &Scope<'_, 's>, forms: &[Form<'s>]) -> Target
    requires { IsSmall (scope_view scope.now) }
    ensures faults { found_of report.new ≡ all_noted (found_of report.old) (assigned_faults (scope_view scope.now) (forms_view forms.now)) }
    ensures says { target_of result ≡ assigned_in (scope_view scope.now) (forms_view forms.now) }
    ensures counts { TargetCounts result }
    ensures places { AssignsToPlace result }
{
    match forms {
        [] => assigns(&no_place(), &UNUSED),
        [place, rest @ ..] => match rest {
            [] => assigns(&no_place(), &UNUSED),
            [value, _rest @ ..] => place_and_value(report, scope, place, value),
        },
    }
}

// The target that a form states.
#[tactic(auto, unfolding(crate::specs::Stated::target_in, pks_reader_names::specs::Sentences::target_faults))]
fn target<'s>(report: &mut Report, scope: &Scope<'_, 's>, form: &Form<'s>) -> Target
    requires { IsSmall (scope_view scope.now) }
    ensures faults { found_of report.new ≡ all_noted (found_of report.old) (target_faults (scope_view scope.now) (form_view form.now)) }
    ensures says { target_of result ≡ target_in (scope_view scope.now) (form_view form.now) }
    ensures counts { TargetCounts result }
    ensures places { AssignsToPlace result }
{
    if is_headed("assign", form) {
        assignment(report, scope, behind_head(form))
    } else if is_headed("clear", form) {
        Target::Clear(only_pattern(report, scope, behind_head(form)))
    } else if is_headed("set", form) {
        Target::Set(only_atom(report, scope, behind_head(form)))
    } else {
        Target::Unset(only_atom(report, scope, behind_head(form)))
    }
}

// A condition and a target.
#[tactic(auto, using(pks_reader_names::proofs::Noting::noted_both))]
fn conditional<'s>(report: &mut Report, scope: &Scope<'_, 's>, forms: &[Form<'s>]) -> Effect
    requires { IsSmall (scope_view scope.now) }
    ensures faults { found_of report.new ≡ all_noted (found_of report.old) (conditional_faults (scope_view scope.now) (forms_view forms.now)) }
    ensures says { effect_of result ≡ conditional_in (scope_view scope.now) (forms_view forms.now) }
    ensures counts { EffectCounts result }
    ensures places { AssignsToPlace result.target }
{
    match forms {
        [] => always(Target::Unset(no_atom())),
        [condition, rest @ ..] => match rest {
            [] => always(Target::Unset(no_atom())),
            [under, _rest @ ..] => {
                let cond = conj(report, scope, parts_of(condition));
                let target = target(report, scope, under);
                Effect { cond, target }
            }
        },
    }
}

fn always(target: Target) -> Effect
    ensures says { effect_of result ≡ record { condition = []; target = target_of target } }
    ensures counts { TargetCounts target → EffectCounts result }
    ensures places { result.target ≡ target }
{
    Effect {
        cond: Conj::empty(),
        target,
    }
}

/// The effect that a form states, and its faults.
#[tactic(auto, unfolding(crate::specs::Stated::effect_in, pks_reader_names::specs::Sentences::effect_faults))]
pub fn effect<'s>(report: &mut Report, scope: &Scope<'_, 's>, form: &Form<'s>) -> Effect
    requires { IsSmall (scope_view scope.now) }
    ensures faults { found_of report.new ≡ all_noted (found_of report.old) (effect_faults (scope_view scope.now) (form_view form.now)) }
    ensures says { effect_of result ≡ effect_in (scope_view scope.now) (form_view form.now) }
    ensures counts { EffectCounts result }
    ensures places { AssignsToPlace result.target }
{
    if is_headed("when", form) {
        conditional(report, scope, behind_head(form))
    } else {
        always(target(report, scope, form))
    }
}

// ---- senses

/// The sense that a form states, and its faults.
#[tactic(auto, unfolding(crate::specs::Stated::sense_in, pks_reader_names::specs::Sentences::sense_faults))]
pub fn sense<'s>(report: &mut Report, scope: &Scope<'_, 's>, form: &Form<'s>) -> Sense
    requires { IsSmall (scope_view scope.now) }
    ensures faults { found_of report.new ≡ all_noted (found_of report.old) (sense_faults (scope_view scope.now) (form_view form.now)) }
    ensures says { sense_of result ≡ sense_in (scope_view scope.now) (form_view form.now) }
    ensures counts { SenseCounts result }
{
    if is_headed("sense-value", form) {
        Sense::Value(only_term(report, scope, behind_head(form)))
    } else if is_headed("sense-all", form) {
        Sense::All(only_pattern(report, scope, behind_head(form)))
    } else {
        Sense::Whether(conj(report, scope, behind_head(form)))
    }
}

// ---- adds

/// The item that a form states, and its faults.
#[tactic(auto, using(crate::proofs::Heads::item_known), unfolding(crate::specs::Stated::item_in, pks_reader_names::specs::Sentences::item_faults))]
pub fn item<'s>(report: &mut Report, scope: &Scope<'_, 's>, form: &Form<'s>) -> Item
    requires { IsSmall (scope_view scope.now) }
    ensures faults { found_of report.new ≡ all_noted (found_of report.old) (item_faults (scope_view scope.now) (form_view form.now)) }
    ensures says { item_of result ≡ item_in (scope_view scope.now) (form_view form.now) }
    ensures counts { ItemCounts result }
{
    if is_headed("kf", form) {
        Item::Kf(only_literal(report, scope, behind_head(form)))
    } else if is_headed("kv", form) {
        Item::Kv(only_term(report, scope, behind_head(form)))
    } else if is_headed("lcw", form) {
        Item::Lcw(only_pattern(report, scope, behind_head(form)))
    } else {
        Item::Kw(conj(report, scope, behind_head(form)))
    }
}

/// Where a list stands in the source.
#[tactic(auto, using(pks_text::proofs::FormLaws::view_list))]
pub fn span_of(form: &Form<'_>) -> Span
    ensures { bytes_in result ≡ bytes_of (form_view form.now) }
{
    match form {
        Form::Name(token) => Span {
            start: token.span.start,
            end: token.span.start,
        },
        Form::List { span, .. } => *span,
    }
}

// The queries at which an item is put in.
#[derive(Clone, Copy)]
struct FourQueries {
    n: u8,
    queries: [Query; 4],
}

fn no_queries() -> FourQueries
    ensures says { map query_of (take result.n result.queries) ≡ [] }
    ensures none { result.n ≡ 0 }
{
    let none = Query::default();
    FourQueries {
        n: 0,
        queries: [none, none, none, none],
    }
}

fn adds(given: &FourQueries, item: &Item, span: Span) -> Adds
    ensures says { add_of result ≡ record { given = map query_of (take given.now.n given.now.queries); item = item_of item.now } }
    ensures counts { (given.now.n ≤ 4) → Each QueryCounts (take given.now.n given.now.queries) → ItemCounts item.now → AddCounts result }
    ensures span { result.span ≡ span }
{
    Adds {
        n: given.n,
        given: given.queries,
        item: *item,
        span,
    }
}

fn without_queries(item: &Item, span: Span) -> Adds
    ensures says { add_of result ≡ record { given = []; item = item_of item.now } }
    ensures counts { ItemCounts item.now → AddCounts result }
    ensures span { result.span ≡ span }
{
    adds(&no_queries(), item, span)
}

impl FourQueries {
    // One more query.
    fn with(&self, query: &Query) -> FourQueries
        requires { self.now.n < 4 }
        ensures says { map query_of (take result.n result.queries) ≡ map query_of (take self.now.n self.now.queries) ++ query_of query.now ∷ [] }
        ensures count { result.n ≡ self.now.n + 1 }
        ensures counts { Each QueryCounts (take self.now.n self.now.queries) → QueryCounts query.now → Each QueryCounts (take result.n result.queries) }
    {
        let mut queries = self.queries;
        queries[usize::from(self.n)] = *query;
        FourQueries {
            n: self.n + 1,
            queries,
        }
    }
}

// The first four queries, and the faults of all.
#[tactic(auto, using(pks_reader_names::proofs::Noting::noted_step, pks_reader_names::proofs::Noting::drop_view, crate::proofs::FirstForms::first_next, crate::proofs::FirstForms::first_past, crate::proofs::FirstForms::first_beyond, crate::proofs::FirstForms::none_left, crate::proofs::Growing::one_more, crate::proofs::Growing::to_the_end))]
fn first_queries<'s>(report: &mut Report, scope: &Scope<'_, 's>, forms: &[Form<'s>]) -> FourQueries
    requires { IsSmall (scope_view scope.now) }
    ensures faults { found_of report.new ≡ all_noted (found_of report.old) (parts_faults 4 (query_faults (scope_view scope.now)) (forms_view forms.now)) }
    ensures says { map query_of (take result.n result.queries) ≡ first 4 (query_in (scope_view scope.now)) (forms_view forms.now) }
    ensures counts { (result.n ≤ 4) × Each QueryCounts (take result.n result.queries) }
{
    past(report, 4, forms);
    let mut given = no_queries();
    for i in 0..forms.len() {
        let query = query(report, scope, &forms[i]);
        if i < 4 {
            given = given.with(&query);
        }
    }
    given
}

// Queries and an item.
#[tactic(auto, using(pks_reader_names::proofs::Noting::noted_both))]
fn conditional_add<'s>(
    report: &mut Report,
    scope: &Scope<'_, 's>,
    forms: &[Form<'s>],
    span: Span,
) -> Adds
    requires { IsSmall (scope_view scope.now) }
    ensures faults { found_of report.new ≡ all_noted (found_of report.old) (given_faults (scope_view scope.now) (forms_view forms.now)) }
    ensures says { add_of result ≡ given_in (scope_view scope.now) (forms_view forms.now) }
    ensures counts { AddCounts result }
    ensures span { result.span ≡ span }
{
    match forms {
        [] => without_queries(&Item::Kw(Conj::empty()), span),
        [queries, rest @ ..] => match rest {
            [] => without_queries(&Item::Kw(Conj::empty()), span),
            [form, _rest @ ..] => {
                let given = first_queries(report, scope, parts_of(queries));
                let item = item(report, scope, form);
                adds(&given, &item, span)
            }
        },
    }
}

/// The add that a form states, with where it stands, and its faults.
#[tactic(auto, unfolding(crate::specs::Stated::add_in, pks_reader_names::specs::Sentences::add_faults))]
pub fn add<'s>(report: &mut Report, scope: &Scope<'_, 's>, form: &Form<'s>) -> Adds
    requires { IsSmall (scope_view scope.now) }
    ensures faults { found_of report.new ≡ all_noted (found_of report.old) (add_faults (scope_view scope.now) (form_view form.now)) }
    ensures says { add_of result ≡ add_in (scope_view scope.now) (form_view form.now) }
    ensures counts { AddCounts result }
    ensures span { bytes_in result.span ≡ bytes_of (form_view form.now) }
{
    let span = span_of(form);
    if is_headed("if", form) {
        conditional_add(report, scope, behind_head(form), span)
    } else {
        without_queries(&item(report, scope, form), span)
    }
}

// ---- aims

/// The aim that a form states, and its faults.
#[tactic(auto, unfolding(crate::specs::Stated::aim_in, pks_reader_names::specs::Sentences::aim_faults))]
pub fn aim<'s>(report: &mut Report, scope: &Scope<'_, 's>, form: &Form<'s>) -> Aim
    requires { IsSmall (scope_view scope.now) }
    ensures faults { found_of report.new ≡ all_noted (found_of report.old) (aim_faults (scope_view scope.now) (form_view form.now)) }
    ensures says { aim_of result ≡ aim_in (scope_view scope.now) (form_view form.now) }
    ensures counts { AimCounts result }
{
    if is_headed("at-start", form) {
        Aim::AtStart(only_plain(report, scope, behind_head(form)))
    } else if is_headed("always", form) {
        Aim::Always(only_plain(report, scope, behind_head(form)))
    } else if is_headed("once", form) {
        Aim::Once(only_plain(report, scope, behind_head(form)))
    } else {
        Aim::Now(plain(report, scope, form))
    }
}
