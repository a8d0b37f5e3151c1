//! Lists of what forms state, and their faults.
ghost use Rattle.std.specs.Prelude.{◌≡◌, ◌≤◌, None, length, map, IfOk, OnOk};
ghost use Rattle.pks_terms.specs.Sets.{Each};
ghost use Rattle.pks_terms.specs.Closure.{in_sequence};
ghost use Rattle.pks_terms.specs.Counts.{LiteralCounts, QueryCounts, EffectCounts, SenseCounts, AddCounts, InitCounts, AimCounts};
ghost use Rattle.pks_terms.specs.ValidProblems.{AssignsToPlace};
ghost use Rattle.pks_terms.specs.Views.{literal_of, literals_in, query_of, effect_of, sense_of, add_of, start_of, aim_of};
ghost use Rattle.pks_text.specs.FormViews.{form_view, forms_view};
ghost use Rattle.pks_reader_names.specs.Parts.{each};
ghost use Rattle.pks_reader_names.specs.Meaning.{all_noted};
ghost use Rattle.pks_reader_names.specs.Terms.{literal_faults};
ghost use Rattle.pks_reader_names.specs.Sentences.{parts_faults, query_faults, effect_faults, sense_faults, add_faults, group_faults, start_faults, aim_faults};
ghost use Rattle.pks_reader_names.specs.Views.{found_of, scope_view};
ghost use Rattle.pks_reader_problem.specs.Sizes.{IsSmall};
ghost use Rattle.pks_reader_problem.specs.Spans.{bytes_in};
ghost use Rattle.pks_reader_problem.specs.Stated.{all, literal_in, query_in, effect_in, sense_in, add_in, start_in, aim_in, bytes_of};

use crate::literals::{conj, literal, only_literal, only_pattern};
use crate::same::report_repeated;
use crate::sentences::{add, aim, effect, only_term, query, sense, span_of};
use pks_reader_names::parts::{behind_head, first_forms, past};
use pks_reader_names::report::Report;
use pks_reader_names::scope::Scope;
use pks_reader_shape::walk::is_headed;
use pks_terms::group::{Group, put_in_order};
use pks_terms::literal::Literal;
use pks_terms::problem::{AimList, Init, InitItem, InitList};
use pks_terms::schema::{AddList, EffectList, QueryList, SenseList};
use pks_text::Form;
use std::alloc::{AllocError, Global};

/// The queries that forms state, of which there are at most 16, and their faults. The one error is want of memory.
#[tactic(auto, using(pks_reader_names::proofs::Noting::noted_step, pks_reader_names::proofs::Noting::drop_view, crate::proofs::Growing::pushed, crate::proofs::Growing::each_pushed, crate::proofs::Growing::to_the_end))]
pub fn queries<'s>(
    alloc: Global,
    report: &mut Report,
    scope: &Scope<'_, 's>,
    forms: &[Form<'s>],
) -> Result<QueryList, AllocError>
    requires { IsSmall (scope_view scope.now) }
    ensures faults { OnOk result (found_of report.new ≡ all_noted (found_of report.old) (parts_faults 16 (query_faults (scope_view scope.now)) (forms_view forms.now))) }
    ensures says { IfOk result (λ xs. map query_of xs ≡ all (query_in (scope_view scope.now)) (forms_view forms.now)) }
    ensures counts { IfOk result (λ xs. Each QueryCounts xs) }
{
    past(report, 16, forms);
    let mut queries = Vec::new(alloc);
    for i in 0..forms.len() {
        queries.push(query(report, scope, &forms[i]))?;
    }
    Ok(QueryList::of(queries))
}

/// The effects that forms state, of which there are at most 16, and their faults. The one error is want of memory.
#[tactic(auto, using(pks_reader_names::proofs::Noting::noted_step, pks_reader_names::proofs::Noting::drop_view, crate::proofs::Growing::pushed, crate::proofs::Growing::each_pushed, crate::proofs::Growing::to_the_end))]
pub fn effects<'s>(
    alloc: Global,
    report: &mut Report,
    scope: &Scope<'_, 's>,
    forms: &[Form<'s>],
) -> Result<EffectList, AllocError>
    requires { IsSmall (scope_view scope.now) }
    ensures faults { OnOk result (found_of report.new ≡ all_noted (found_of report.old) (parts_faults 16 (effect_faults (scope_view scope.now)) (forms_view forms.now))) }
    ensures says { IfOk result (λ xs. map effect_of xs ≡ all (effect_in (scope_view scope.now)) (forms_view forms.now)) }
    ensures counts { IfOk result (λ xs. Each EffectCounts xs) }
    ensures places { IfOk result (λ xs. Each (λ e. AssignsToPlace e.target) xs) }
{
    past(report, 16, forms);
    let mut effects = Vec::new(alloc);
    for i in 0..forms.len() {
        effects.push(effect(report, scope, &forms[i]))?;
    }
    Ok(EffectList::of(effects))
}

/// The senses that forms state, of which there are at most 16, and their faults. The one error is want of memory.
#[tactic(auto, using(pks_reader_names::proofs::Noting::noted_step, pks_reader_names::proofs::Noting::drop_view, crate::proofs::Growing::pushed, crate::proofs::Growing::each_pushed, crate::proofs::Growing::to_the_end))]
pub fn senses<'s>(
    alloc: Global,
    report: &mut Report,
    scope: &Scope<'_, 's>,
    forms: &[Form<'s>],
) -> Result<SenseList, AllocError>
    requires { IsSmall (scope_view scope.now) }
    ensures faults { OnOk result (found_of report.new ≡ all_noted (found_of report.old) (parts_faults 16 (sense_faults (scope_view scope.now)) (forms_view forms.now))) }
    ensures says { IfOk result (λ xs. map sense_of xs ≡ all (sense_in (scope_view scope.now)) (forms_view forms.now)) }
    ensures counts { IfOk result (λ xs. Each SenseCounts xs) }
{
    past(report, 16, forms);
    let mut senses = Vec::new(alloc);
    for i in 0..forms.len() {
        senses.push(sense(report, scope, &forms[i]))?;
    }
    Ok(SenseList::of(senses))
}

/// The adds that forms state, with where each stands, of which there are at most 16, and their faults. The one error is want of memory.
#[tactic(auto, using(pks_reader_names::proofs::Noting::noted_step, pks_reader_names::proofs::Noting::drop_view, crate::proofs::Growing::pushed, crate::proofs::Growing::each_pushed, crate::proofs::Growing::to_the_end))]
pub fn adds<'s>(
    alloc: Global,
    report: &mut Report,
    scope: &Scope<'_, 's>,
    forms: &[Form<'s>],
) -> Result<AddList, AllocError>
    requires { IsSmall (scope_view scope.now) }
    ensures faults { OnOk result (found_of report.new ≡ all_noted (found_of report.old) (parts_faults 16 (add_faults (scope_view scope.now)) (forms_view forms.now))) }
    ensures says { IfOk result (λ xs. map add_of xs ≡ all (add_in (scope_view scope.now)) (forms_view forms.now)) }
    ensures counts { IfOk result (λ xs. Each AddCounts xs) }
    ensures spans { IfOk result (λ xs. map (λ a. bytes_in a.span) xs ≡ all bytes_of (forms_view forms.now)) }
{
    past(report, 16, forms);
    let mut adds = Vec::new(alloc);
    for i in 0..forms.len() {
        adds.push(add(report, scope, &forms[i]))?;
    }
    Ok(AddList::of(adds))
}

/// The aims that forms state, of which there are at most 16, and their faults. The one error is want of memory.
#[tactic(auto, using(pks_reader_names::proofs::Noting::noted_step, pks_reader_names::proofs::Noting::drop_view, crate::proofs::Growing::pushed, crate::proofs::Growing::each_pushed, crate::proofs::Growing::to_the_end))]
pub fn aims<'s>(
    alloc: Global,
    report: &mut Report,
    scope: &Scope<'_, 's>,
    forms: &[Form<'s>],
) -> Result<AimList, AllocError>
    requires { IsSmall (scope_view scope.now) }
    ensures faults { OnOk result (found_of report.new ≡ all_noted (found_of report.old) (parts_faults 16 (aim_faults (scope_view scope.now)) (forms_view forms.now))) }
    ensures says { IfOk result (λ xs. map aim_of xs ≡ all (aim_in (scope_view scope.now)) (forms_view forms.now)) }
    ensures counts { IfOk result (λ xs. Each AimCounts xs) }
{
    past(report, 16, forms);
    let mut aims = Vec::new(alloc);
    for i in 0..forms.len() {
        aims.push(aim(report, scope, &forms[i]))?;
    }
    Ok(AimList::of(aims))
}

// The literals that forms state, in order, where there are at most 16; equal ones stay as often as they come.
#[tactic(auto, using(pks_reader_names::proofs::Noting::noted_step, pks_reader_names::proofs::Noting::drop_view))]
fn in_sequence<'s>(
    alloc: Global,
    report: &mut Report,
    scope: &Scope<'_, 's>,
    forms: &[Form<'s>],
) -> Result<Vec<Literal>, AllocError>
    requires { IsSmall (scope_view scope.now) }
    ensures faults { OnOk result (found_of report.new ≡ all_noted (found_of report.old) (each (literal_faults (scope_view scope.now)) (forms_view forms.now))) }
    ensures says { IfOk result (λ v. length forms.now ≤ 16 → map literal_of v.items ≡ in_sequence (all (literal_in (scope_view scope.now)) (forms_view forms.now))) }
    ensures counts { IfOk result (λ v. Each LiteralCounts v.items) }
{
    let mut literals = Vec::new(alloc);
    for i in 0..forms.len() {
        let literal = literal(report, scope, &forms[i]);
        if forms.len() <= 16 {
            put_in_order(&mut literals, literal)?;
        }
    }
    Ok(literals)
}

// The group of at most 16 literals. Past them there is a fault.
#[tactic(auto, using(pks_reader_names::proofs::Noting::noted_both))]
fn group<'s>(
    alloc: Global,
    report: &mut Report,
    scope: &Scope<'_, 's>,
    forms: &[Form<'s>],
) -> Result<Group, AllocError>
    requires { IsSmall (scope_view scope.now) }
    ensures faults { OnOk result (found_of report.new ≡ all_noted (found_of report.old) (group_faults (scope_view scope.now) (forms_view forms.now))) }
    ensures says { found_of report.new ≡ None → IfOk result (λ group. literals_in group ≡ in_sequence (all (literal_in (scope_view scope.now)) (forms_view forms.now))) }
    ensures counts { IfOk result (λ group. Each LiteralCounts group) }
{
    past(report, 16, forms);
    let literals = in_sequence(alloc, report, scope, forms)?;
    report_repeated(report, first_forms(16, forms));
    let group = Group::of(alloc, literals.as_slice())?;
    Ok(group)
}

// What an initial item states.
#[tactic(auto, using(crate::proofs::Heads::start_known, crate::proofs::Heads::start_value, crate::proofs::Heads::start_pattern), unfolding(crate::specs::Stated::start_in, pks_reader_names::specs::Sentences::start_faults, pks_reader_names::specs::Sentences::item_faults))]
fn start<'s>(
    alloc: Global,
    report: &mut Report,
    scope: &Scope<'_, 's>,
    form: &Form<'s>,
) -> Result<Init, AllocError>
    requires { IsSmall (scope_view scope.now) }
    ensures faults { OnOk result (found_of report.new ≡ all_noted (found_of report.old) (start_faults (scope_view scope.now) (form_view form.now))) }
    ensures says { found_of report.new ≡ None → IfOk result (λ i. start_of i ≡ start_in (scope_view scope.now) (form_view form.now)) }
    ensures counts { IfOk result (λ i. InitCounts i) }
{
    if is_headed("kf", form) {
        Ok(Init::Kf(only_literal(report, scope, behind_head(form))))
    } else if is_headed("kv", form) {
        Ok(Init::Kv(only_term(report, scope, behind_head(form))))
    } else if is_headed("lcw", form) {
        Ok(Init::Lcw(only_pattern(report, scope, behind_head(form))))
    } else if is_headed("kx", form) {
        Ok(Init::Kx(group(alloc, report, scope, behind_head(form))?))
    } else {
        Ok(Init::Kw(conj(report, scope, behind_head(form))))
    }
}

/// The initial items that forms state, with where each stands, and their faults. The one error is want of memory.
#[tactic(auto, using(pks_reader_names::proofs::Noting::noted_step, pks_reader_names::proofs::Noting::drop_view, crate::proofs::Growing::pushed, crate::proofs::Growing::each_pushed, crate::proofs::Growing::to_the_end))]
pub fn starts<'s>(
    alloc: Global,
    report: &mut Report,
    scope: &Scope<'_, 's>,
    forms: &[Form<'s>],
) -> Result<InitList, AllocError>
    requires { IsSmall (scope_view scope.now) }
    ensures faults { OnOk result (found_of report.new ≡ all_noted (found_of report.old) (each (start_faults (scope_view scope.now)) (forms_view forms.now))) }
    ensures says { found_of report.new ≡ None → IfOk result (λ xs. map (λ i. start_of i.start) xs ≡ all (start_in (scope_view scope.now)) (forms_view forms.now)) }
    ensures counts { IfOk result (λ xs. Each (λ i. InitCounts i.start) xs) }
    ensures spans { IfOk result (λ xs. map (λ i. bytes_in i.span) xs ≡ all bytes_of (forms_view forms.now)) }
{
    let mut starts = Vec::new(alloc);
    for i in 0..forms.len() {
        let start = start(alloc, report, scope, &forms[i])?;
        starts.push(InitItem {
            start,
            span: span_of(&forms[i]),
        })?;
    }
    Ok(InitList::of(starts))
}
