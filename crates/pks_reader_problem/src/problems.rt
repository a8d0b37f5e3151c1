//! The problem that a file states, or its first fault of meaning.
ghost use Rattle.std.specs.Prelude.{◌≡◌, ◌++◌, Some, None, map, codes, OnOk, IfOk, IfErr};
ghost use Rattle.std.specs.Map.{keys_of};
ghost use Rattle.pks_terms.specs.Sets.{Each};
ghost use Rattle.pks_terms.specs.Counts.{SchemaCounts, SignatureCounts, InitCounts, AimCounts, ProblemCounts};
ghost use Rattle.pks_terms.specs.ValidProblems.{AssignsToPlace};
ghost use Rattle.pks_terms.specs.Views.{schema_of, start_of, aim_of, problem_of};
ghost use Rattle.pks_text.specs.FormViews.{form_view, forms_view};
ghost use Rattle.pks_reader_shape.specs.Files.{or_else};
ghost use Rattle.pks_reader_shape.specs.Refusals.{Turns};
ghost use Rattle.pks_reader_names.specs.Tables.{declare};
ghost use Rattle.pks_reader_names.specs.Parts.{behind_head, section, only};
ghost use Rattle.pks_reader_names.specs.Sentences.{problem_faults};
ghost use Rattle.pks_reader_names.specs.Declarations.{second_in, name_of, name_faults, nothing, table_from, entries_faults, cost_faults, action_faults, actions_among, actions_section};
ghost use Rattle.pks_reader_names.specs.Meaning.{all_noted, least, scope_of};
ghost use Rattle.pks_reader_names.specs.Views.{found_of, names_of};
ghost use Rattle.pks_reader_declared.specs.FirstFault.{declarations_fault, meaning_fault};
ghost use Rattle.pks_reader_declared.specs.Views.{declared_view};
ghost use Rattle.pks_reader_problem.specs.Sizes.{IsSmall, AreCounted};
ghost use Rattle.pks_reader_problem.specs.Spans.{bytes_in, adds_in, named_of};
ghost use Rattle.pks_reader_problem.specs.Stated.{all, schema_in, start_in, aim_in, action_name, parameter_names, add_places, section_bytes, bytes_of, problem_by, named_by, problem_in, named_in};

use crate::lists::{aims, starts};
use crate::schemas::schema;
use crate::sentences::span_of;
use crate::tables::{names, signature};
use indexmap::IndexMap;
use pks_reader_declared::{
    actions_among, check_name, declarations, declare, name_of, parameters, past_second_names,
    second_in,
};
use pks_reader_names::parts::{behind_head, first_forms, section, text_of};
use pks_reader_names::report::Report;
use pks_reader_names::scope::{Declared, Scope};
use pks_reader_shape::report::Turned;
use pks_reader_shape::walk::is_headed;
use pks_terms::codes::PAST_LIMIT;
use pks_terms::ids::Span;
use pks_terms::problem::{AimList, InitList, NameList, Names, ParamNames, Problem};
use pks_terms::schema::{Schema, SchemaList};
use pks_text::{Form, place_of};
use std::alloc::{AllocError, Global};

// A cost above 9,999.
fn only_cost(report: &mut Report, forms: &[Form<'_>])
    ensures { found_of report.new ≡ all_noted (found_of report.old) (only cost_faults (forms_view forms.now)) }
{
    match forms {
        [] => {}
        [word, _rest @ ..] => {
            if text_of(word).len() > 4 {
                report.note(place_of(word), PAST_LIMIT);
            }
        }
    }
}

// An action with the names of its parameters.
#[derive(Drop)]
struct NamedAction<'s> {
    schema: Schema<'s>,
    params: NameList<'s>,
}

// An action, whose name is declared with those before it, and its faults.
#[tactic(auto, using(pks_reader_names::proofs::Noting::noted_both, crate::proofs::Few::small_within), unfolding(pks_reader_names::specs::Declarations::action_faults, pks_reader_names::specs::Declarations::within))]
fn action<'s>(
    alloc: Global,
    report: &mut Report,
    declared: &Declared<'s>,
    table: &mut IndexMap<&'s str, ()>,
    form: &Form<'s>,
) -> Result<NamedAction<'s>, AllocError>
    requires { IsSmall (declared_view declared.now) }
    ensures faults { OnOk result (found_of report.new ≡ all_noted (found_of report.old) (name_faults (names_of table.old) (second_in (form_view form.now)) ++ action_faults (declared_view declared.now) (behind_head (form_view form.now)))) }
    ensures table { OnOk result (names_of table.new ≡ declare (names_of table.old) (name_of (second_in (form_view form.now))) (nothing (form_view form.now))) }
    ensures says { IfOk result (λ x. schema_of x.schema ≡ schema_in (declared_view declared.now) (behind_head (form_view form.now))) }
    ensures name { IfOk result (λ x. x.schema.name.now ≡ action_name (form_view form.now)) }
    ensures parameters { IfOk result (λ x. map (λ t. t.now) x.params ≡ parameter_names (declared_view declared.now) (form_view form.now)) }
    ensures counts { IfOk result (λ x. SchemaCounts x.schema) }
    ensures places { IfOk result (λ x. Each (λ e. AssignsToPlace e.target) x.schema.effects) }
    ensures spans { IfOk result (λ x. adds_in x.schema ≡ add_places (form_view form.now)) }
{
    let word = second_in(form);
    let parts = behind_head(form);
    check_name(report, table, word);
    only_cost(report, section("cost", parts));
    let declared_here = parameters(alloc, report, &declared.types, section("params", parts))?;
    let scope = Scope {
        declared,
        parameters: &declared_here,
    };
    let schema = schema(alloc, report, &scope, text_of(word), parts)?;
    let params = names(alloc, &declared_here)?;
    declare(table, name_of(word), ())?;
    Ok(NamedAction { schema, params })
}

// The actions that forms state, and the names of their parameters.
#[derive(Drop)]
struct NamedActions<'s> {
    schemas: SchemaList<'s>,
    params: ParamNames<'s>,
}

#[tactic(auto, using(crate::proofs::Growing::to_the_end))]
fn action_entries<'s>(
    alloc: Global,
    report: &mut Report,
    declared: &Declared<'s>,
    table: &mut IndexMap<&'s str, ()>,
    forms: &[Form<'s>],
) -> Result<NamedActions<'s>, AllocError>
    requires { IsSmall (declared_view declared.now) }
    ensures faults { OnOk result (found_of report.new ≡ all_noted (found_of report.old) (entries_faults second_in nothing (λ f. action_faults (declared_view declared.now) (behind_head f)) (names_of table.old) (forms_view forms.now))) }
    ensures table { OnOk result (names_of table.new ≡ table_from second_in nothing (names_of table.old) (forms_view forms.now)) }
    ensures says { IfOk result (λ x. map schema_of x.schemas ≡ all (λ f. schema_in (declared_view declared.now) (behind_head f)) (forms_view forms.now)) }
    ensures names { IfOk result (λ x. map (λ y. y.name.now) x.schemas ≡ all action_name (forms_view forms.now)) }
    ensures parameters { IfOk result (λ x. map (λ names. map (λ t. t.now) names) x.params ≡ all (parameter_names (declared_view declared.now)) (forms_view forms.now)) }
    ensures counts { IfOk result (λ x. Each SchemaCounts x.schemas) }
    ensures places { IfOk result (λ x. Each (λ y. Each (λ e. AssignsToPlace e.target) y.effects) x.schemas) }
    ensures spans { IfOk result (λ x. map adds_in x.schemas ≡ all add_places (forms_view forms.now)) }
{
    let mut schemas = Vec::new(alloc);
    let mut params = Vec::new(alloc);
    for i in 0..forms.len() {
        let one = action(alloc, report, declared, table, &forms[i])?;
        schemas.push(one.schema)?;
        params.push(one.params)?;
    }
    Ok(NamedActions {
        schemas: SchemaList::of(schemas),
        params: ParamNames::of(params),
    })
}

// The actions of a domain, or the first of their faults.
#[tactic(auto, using(pks_reader_shape::proofs::Refusing::none_refused))]
fn actions<'s>(
    alloc: Global,
    declared: &Declared<'s>,
    domain: &[Form<'s>],
) -> Result<NamedActions<'s>, Turned>
    requires { IsSmall (declared_view declared.now) }
    ensures faultless { OnOk result (least (actions_section (declared_view declared.now) (forms_view domain.now)) ≡ None) }
    ensures says { IfOk result (λ x. map schema_of x.schemas ≡ all (λ f. schema_in (declared_view declared.now) (behind_head f)) (actions_among (forms_view domain.now))) }
    ensures names { IfOk result (λ x. map (λ y. y.name.now) x.schemas ≡ all action_name (actions_among (forms_view domain.now))) }
    ensures parameters { IfOk result (λ x. map (λ names. map (λ t. t.now) names) x.params ≡ all (parameter_names (declared_view declared.now)) (actions_among (forms_view domain.now))) }
    ensures counts { IfOk result (λ x. Each SchemaCounts x.schemas) }
    ensures places { IfOk result (λ x. Each (λ y. Each (λ e. AssignsToPlace e.target) y.effects) x.schemas) }
    ensures spans { IfOk result (λ x. map adds_in x.schemas ≡ all add_places (actions_among (forms_view domain.now))) }
    ensures refused { IfErr result (Turns (λ f. least (actions_section (declared_view declared.now) (forms_view domain.now)) ≡ Some f)) }
{
    let mut report = Report::new();
    let mut table = IndexMap::new(alloc);
    let among = actions_among(domain);
    let first = first_forms(64, among);
    let actions = action_entries(alloc, &mut report, declared, &mut table, first)?;
    past_second_names(&mut report, &table, 64, among);
    match report.refusal() {
        Some(refusal) => Err(Turned::Refused(refusal)),
        None => Ok(actions),
    }
}

// Where a section stands.
fn section_span(head: &str, forms: &[Form<'_>]) -> Span
    ensures { bytes_in result ≡ section_bytes head.now (forms_view forms.now) }
{
    for form in forms {
        if is_headed(head, form) {
            return span_of(form);
        }
    }
    Span { start: 0, end: 0 }
}

#[tactic(auto, using(crate::proofs::Seen::names_shown))]
fn declared_names<'s>(
    alloc: Global,
    declared: &Declared<'s>,
    params: ParamNames<'s>,
) -> Result<Names<'s>, AllocError>
    ensures types { IfOk result (λ n. map (λ t. t.now) n.types ≡ keys_of (declared_view declared.now).types) }
    ensures objects { IfOk result (λ n. map (λ t. t.now) n.objects ≡ keys_of (declared_view declared.now).objects) }
    ensures predicates { IfOk result (λ n. map (λ t. t.now) n.predicates ≡ keys_of (declared_view declared.now).predicates) }
    ensures functions { IfOk result (λ n. map (λ t. t.now) n.functions ≡ keys_of (declared_view declared.now).functions) }
    ensures params { IfOk result (λ n. n.params ≡ params.entry) }
{
    let types = names(alloc, &declared.types)?;
    let objects = names(alloc, &declared.objects)?;
    let predicates = names(alloc, &declared.predicates)?;
    let functions = names(alloc, &declared.functions)?;
    Ok(Names {
        types,
        objects,
        predicates,
        functions,
        params,
    })
}

// What is known at the start, and the goal.
#[derive(Drop)]
struct ProblemItems {
    init: InitList,
    goal: AimList,
}

// Those of a problem, by its parts, or the first of their faults.
#[tactic(auto, using(pks_reader_names::proofs::Noting::noted_both, pks_reader_shape::proofs::Refusing::none_refused), unfolding(pks_reader_names::specs::Sentences::problem_faults))]
fn items<'s>(
    alloc: Global,
    declared: &Declared<'s>,
    parts: &[Form<'s>],
) -> Result<ProblemItems, Turned>
    requires { IsSmall (declared_view declared.now) }
    ensures faultless { OnOk result (least (problem_faults (declared_view declared.now) (forms_view parts.now)) ≡ None) }
    ensures init { IfOk result (λ x. map (λ i. start_of i.start) x.init ≡ all (start_in (declared_view declared.now)) (section (codes "init") (forms_view parts.now))) }
    ensures goal { IfOk result (λ x. map aim_of x.goal ≡ all (aim_in (declared_view declared.now)) (section (codes "goal") (forms_view parts.now))) }
    ensures init_counts { IfOk result (λ x. Each (λ i. InitCounts i.start) x.init) }
    ensures goal_counts { IfOk result (λ x. Each AimCounts x.goal) }
    ensures spans { IfOk result (λ x. map (λ i. bytes_in i.span) x.init ≡ all bytes_of (section (codes "init") (forms_view parts.now))) }
    ensures refused { IfErr result (Turns (λ f. least (problem_faults (declared_view declared.now) (forms_view parts.now)) ≡ Some f)) }
{
    let none = IndexMap::new(alloc);
    let scope = Scope {
        declared,
        parameters: &none,
    };
    let mut report = Report::new();
    let init = starts(alloc, &mut report, &scope, section("init", parts))?;
    let goal = aims(alloc, &mut report, &scope, section("goal", parts))?;
    match report.refusal() {
        Some(refusal) => Err(Turned::Refused(refusal)),
        None => Ok(ProblemItems { init, goal }),
    }
}

// What a domain declares, or the first fault of its declarations.
#[tactic(auto, using(pks_reader_shape::proofs::Refusing::none_refused))]
fn faultless<'s>(alloc: Global, version: u8, domain: &[Form<'s>]) -> Result<Declared<'s>, Turned>
    ensures faultless { OnOk result (declarations_fault version (forms_view domain.now) ≡ None) }
    ensures declared { IfOk result (λ d. declared_view d ≡ scope_of version (forms_view domain.now)) }
    ensures small { IfOk result (λ d. IsSmall (declared_view d)) }
    ensures refused { IfErr result (Turns (λ f. declarations_fault version (forms_view domain.now) ≡ Some f)) }
{
    let read = declarations(alloc, version, domain)?;
    match read.refusal {
        Some(refusal) => Err(Turned::Refused(refusal)),
        None => Ok(read.declared),
    }
}

// The problem of this version where a domain declares these names, or the first fault behind its declarations.
#[tactic(auto, using(crate::proofs::Whole::problem_says), unfolding(crate::specs::Stated::named_by))]
fn problem_by<'s>(
    alloc: Global,
    version: u8,
    declared: &Declared<'s>,
    domain: &[Form<'s>],
    form: &Form<'s>,
) -> Result<Problem<'s>, Turned>
    requires { IsSmall (declared_view declared.now) }
    ensures faultless { OnOk result (or_else (least (actions_section (declared_view declared.now) (forms_view domain.now))) (least (problem_faults (declared_view declared.now) (behind_head (form_view form.now)))) ≡ None) }
    ensures says { IfOk result (λ p. problem_of p ≡ problem_by version (declared_view declared.now) (forms_view domain.now) (behind_head (form_view form.now))) }
    ensures named { IfOk result (λ p. named_of p ≡ named_by (declared_view declared.now) (forms_view domain.now) (form_view form.now)) }
    ensures counted { IfOk result (λ p. AreCounted p.signature) }
    ensures counts { IfOk result (λ p. SignatureCounts p.signature → ProblemCounts p) }
    ensures places { IfOk result (λ p. Each (λ x. Each (λ e. AssignsToPlace e.target) x.effects) p.schemas) }
    ensures refused { IfErr result (Turns (λ f. or_else (least (actions_section (declared_view declared.now) (forms_view domain.now))) (least (problem_faults (declared_view declared.now) (behind_head (form_view form.now)))) ≡ Some f)) }
{
    let actions = actions(alloc, declared, domain)?;
    let items = items(alloc, declared, behind_head(form))?;
    let signature = signature(alloc, declared)?;
    let names = declared_names(alloc, declared, actions.params)?;
    Ok(Problem {
        version,
        signature,
        names,
        schemas: actions.schemas,
        init: items.init,
        init_span: section_span("init", behind_head(form)),
        problem_span: span_of(form),
        goal: items.goal,
    })
}

/// The problem of this version that the parts of a domain and a problem state, or their first fault of meaning (200 to
/// 211), as `docs/FORMAT.md` says. `domain` has the parts behind the head of the domain, and `form` is the problem.
///
/// `Refused` comes exactly where there is a fault; `Memory` may come at any forms.
#[tactic(auto, unfolding(pks_reader_declared::specs::FirstFault::meaning_fault))]
pub fn problem<'s>(
    alloc: Global,
    version: u8,
    domain: &[Form<'s>],
    form: &Form<'s>,
) -> Result<Problem<'s>, Turned>
    ensures faultless { OnOk result (meaning_fault version (forms_view domain.now) (behind_head (form_view form.now)) ≡ None) }
    ensures says { IfOk result (λ p. problem_of p ≡ problem_in version (forms_view domain.now) (behind_head (form_view form.now))) }
    ensures named { IfOk result (λ p. named_of p ≡ named_in version (forms_view domain.now) (form_view form.now)) }
    ensures counted { IfOk result (λ p. AreCounted p.signature) }
    ensures counts { IfOk result (λ p. SignatureCounts p.signature → ProblemCounts p) }
    ensures places { IfOk result (λ p. Each (λ x. Each (λ e. AssignsToPlace e.target) x.effects) p.schemas) }
    ensures refused { IfErr result (Turns (λ f. meaning_fault version (forms_view domain.now) (behind_head (form_view form.now)) ≡ Some f)) }
{
    let declared = faultless(alloc, version, domain)?;
    let problem = problem_by(alloc, version, &declared, domain, form)?;
    Ok(problem)
}
