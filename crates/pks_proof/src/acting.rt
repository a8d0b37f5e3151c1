//! The reasons that speak of an action and the two moments beside it. `docs/REASONS.md` has the rules.
ghost use Rattle.std.specs.Prelude.{◌≡◌, ◌^◌, ◌&&◌, ◌<◌, suc, map, true, false};
ghost use Rattle.std.specs.List.{list_any, list_all};
ghost use Rattle.std.specs.Option.{option_map, option_map_or, option_and_then};
ghost use Rattle.pks_terms.specs.Sets.{with_later, with_others};
ghost use Rattle.pks_terms.specs.Syntax.{term_of as lifted, negated};
ghost use Rattle.pks_terms.specs.Orders.{literal_eq, atom_cmp, pattern_cmp};
ghost use Rattle.pks_terms.specs.Actions.{effect_at};
ghost use Rattle.pks_terms.specs.Progress.{fixed_terms, entry_terms};
ghost use Rattle.pks_terms.specs.Views.{term_of, terms_of, atom_of, literal_of, literals_in, relation_of, sides_of, pattern_of, target_of, effect_of, given_of};
ghost use Rattle.pks_terms.specs.Proofs.{nth};
ghost use Rattle.pks_terms.specs.Judging.{fact_then, is_cited, are_cited, is_literal_that, is_region_that, by_cited};
ghost use Rattle.pks_terms.specs.Reasons.{would_deny, would_undo, would_make_same, would_widen, is_barred, are_barred, are_steady, keeps_literal, keeps_group, keeps_region, keeps_fact, is_kept, is_from_later, assignment, targets_of, is_target_form, is_steady_target, is_steady_form, is_effect, is_needed, is_failed};
ghost use Rattle.pks_proof.specs.Acts.{option_list, targets_in, makes, needed_from, is_turned, fails, is_missed};
ghost use Rattle.pks_lcw.specs.Entries.{atoms_of, entry_of};
ghost use Rattle.pks_proof_lines.specs.ProofViews.{fact_of, lines_of};
ghost use Rattle.pks_proof_cited.specs.CitedViews.{judge_of};
ghost use Rattle.pks_proof.specs.Doings.{effects_at, effects_by, before_in, moment_in};

use crate::barring::{
    Doing, Transition, are_barred, are_inners_steady, are_steady, denying, is_barred, is_steady,
    making_same, undoing,
};
use pks_lcw::Entry;
use pks_proof_cited::cited::{Cited, are_cited, fact_at, is_one_of};
use pks_proof_cited::forms::{are_forms, are_inner_forms, is_form};
use pks_proof_cited::moment::denies_one;
use pks_proof_lines::Fact;
use pks_terms::literal::{Atom, Literal, Pattern, PredAtom};
use pks_terms::schema::{Effect, Target};
use pks_terms::term::{Term, front};

/// Whether the effects of the action are barred from making the literal false.
fn is_denied_by_none(d: &Transition<'_>, l: &Literal) -> bool
    ensures { result ≡ are_barred (before_in d.now) (moment_in d.now) (would_deny (before_in d.now) (moment_in d.now) (relation_of l.now.atom) (sides_of l.now.atom) l.now.positive) (effects_by d.now) }
{
    are_barred(d, &denying(l), d.effects)
}

/// Whether these effects of the action are barred from undoing the target.
fn is_undone_by_none(d: &Transition<'_>, target: &Target, effects: &[Effect]) -> bool
    ensures { result ≡ are_barred (before_in d.now) (moment_in d.now) (would_undo (before_in d.now) (moment_in d.now) (target_of target.now)) (effects_at d.now.instance.now effects.now) }
{
    are_barred(d, &undoing(target), effects)
}

/// Whether these effects of the action are barred from making so the same as the target.
fn is_made_by_none(d: &Transition<'_>, target: &Target, effects: &[Effect]) -> bool
    ensures { result ≡ are_barred (before_in d.now) (moment_in d.now) (would_make_same (before_in d.now) (moment_in d.now) (target_of target.now)) (effects_at d.now.instance.now effects.now) }
{
    are_barred(d, &making_same(target), effects)
}

/// Whether the literal's terms are steady, and the effects that would make it false are barred.
fn keeps_literal(d: &Transition<'_>, l: &Literal) -> bool
    ensures { result ≡ keeps_literal (before_in d.now) (moment_in d.now) (effects_by d.now) (literal_of l.now) }
{
    are_steady(d, l.atom.arguments().terms()) && is_denied_by_none(d, l)
}

fn keeps_group(d: &Transition<'_>, g: &[Literal]) -> bool
    ensures { result ≡ keeps_group (before_in d.now) (moment_in d.now) (effects_by d.now) (literals_in g.now) }
{
    for l in g {
        if !keeps_literal(d, l) || !keeps_literal(d, &l.negated()) {
            return false;
        }
    }
    true
}

/// Whether the fixed terms of the slots are steady. It takes no memory.
pub fn are_slots_steady(d: &Transition<'_>, slots: &[Option<Term>]) -> bool
    ensures { result ≡ are_steady (before_in d.now) (moment_in d.now) (effects_by d.now) (fixed_terms (map (option_map term_of) slots.now)) }
{
    for slot in slots {
        if let Some(t) = slot {
            if !is_steady(d, t) {
                return false;
            }
        }
    }
    true
}

fn are_atoms_steady(d: &Transition<'_>, atoms: &[PredAtom]) -> bool
    ensures { result ≡ list_all (λ a. are_steady (before_in d.now) (moment_in d.now) (effects_by d.now) a.arguments) (atoms_of atoms.now) }
{
    for a in atoms {
        if !are_steady(d, front(&a.args, a.n)) {
            return false;
        }
    }
    true
}

/// Whether the region's terms are steady. It takes no memory.
pub fn is_region_steady(d: &Transition<'_>, e: &Entry) -> bool
    ensures { result ≡ are_steady (before_in d.now) (moment_in d.now) (effects_by d.now) (entry_terms (entry_of e.now)) }
{
    are_slots_steady(d, front(&e.pattern.args, e.pattern.n))
        && are_atoms_steady(d, e.list.as_slice())
}

/// Whether these effects of the action are barred from making an instance of the pattern true. It takes no memory.
pub fn is_widened_by_none(d: &Transition<'_>, x: &Pattern, effects: &[Effect]) -> bool
    ensures { result ≡ are_barred (before_in d.now) (moment_in d.now) (would_widen (before_in d.now) (moment_in d.now) (pattern_of x.now)) (effects_at d.now.instance.now effects.now) }
{
    are_barred(d, &Doing::Widening(x), effects)
}

fn keeps_region(d: &Transition<'_>, e: &Entry) -> bool
    ensures { result ≡ keeps_region (before_in d.now) (moment_in d.now) (effects_by d.now) (entry_of e.now) }
{
    is_region_steady(d, e) && is_widened_by_none(d, &e.pattern, d.effects)
}

fn keeps_fact(d: &Transition<'_>, f: &Fact) -> bool
    ensures { result ≡ keeps_fact (before_in d.now) (moment_in d.now) (effects_by d.now) (fact_of f.now) }
{
    match f {
        Fact::Lit(l) => keeps_literal(d, l),
        Fact::Kx(g) => keeps_group(d, g.as_slice()),
        Fact::Lcw(e) => keeps_region(d, e),
    }
}

/// `keep`: whether the fact is cited before the action, which keeps it. It takes no memory.
pub fn is_kept(d: &Transition<'_>, f: &Fact) -> bool
    ensures { result ≡ is_kept (before_in d.now) (moment_in d.now) (effects_by d.now) (fact_of f.now) }
{
    d.before.relies(f) && keeps_fact(d, f)
}

/// `back`: whether the literal is cited after the action, which doesn't make it true. It takes no memory.
pub fn is_from_later(d: &Transition<'_>, l: &Literal) -> bool
    requires { moment_in d.now < 2 ^ 32 }
    ensures { result ≡ is_from_later (before_in d.now) (moment_in d.now) (effects_by d.now) (literal_of l.now) }
{
    let after = Cited {
        lines: d.before.lines,
        numbers: d.before.numbers,
        moment: d.before.moment + 1,
    };
    after.has(l) && keeps_literal(d, &l.negated())
}

/// The targets that make just one literal so, two at most.
#[derive(Clone, Copy)]
struct Targets {
    first: Option<Target>,
    second: Option<Target>,
}

/// The assignment of the value to the place, where that is an application.
fn assignment(place: &Term, value: &Term) -> Option<Target>
    ensures { option_list (option_map target_of result) ≡ assignment (term_of place.now) (term_of value.now) }
{
    match place {
        Term::Obj(_) | Term::Param(_) => None,
        Term::App { .. } => Some(Target::Assign {
            place: *place,
            value: *value,
        }),
    }
}

/// The targets that make just this literal so. Either side of an equation may be the place.
fn targets_of(l: &Literal) -> Targets
    ensures { targets_in result ≡ targets_of (literal_of l.now) }
{
    match &l.atom {
        Atom::Pred(a) => {
            let target = if l.positive {
                Target::Set(*a)
            } else {
                Target::Unset(*a)
            };
            Targets {
                first: Some(target),
                second: None,
            }
        }
        Atom::Eq { left, right } => {
            if l.positive {
                Targets {
                    first: assignment(left, right),
                    second: assignment(right, left),
                }
            } else {
                Targets {
                    first: None,
                    second: None,
                }
            }
        }
    }
}

/// Whether the target is the other with terms replaced, of the place of an assignment the arguments alone.
fn is_target_form(c: &Cited<'_>, target: &Target, x: &Target) -> bool
    ensures { result ≡ is_target_form (judge_of c.now) c.now.moment (target_of target.now) (target_of x.now) }
{
    match target {
        Target::Set(a) => match x {
            Target::Set(b) => a.pred.0 == b.pred.0
                && are_forms(c, front(&a.args, a.n), front(&b.args, b.n)),
            Target::Unset(_) | Target::Clear(_) | Target::Assign { .. } => false,
        },
        Target::Unset(a) => match x {
            Target::Unset(b) => a.pred.0 == b.pred.0
                && are_forms(c, front(&a.args, a.n), front(&b.args, b.n)),
            Target::Set(_) | Target::Clear(_) | Target::Assign { .. } => false,
        },
        Target::Clear(_) => match x {
            Target::Set(_) | Target::Unset(_) | Target::Clear(_) | Target::Assign { .. } => false,
        },
        Target::Assign { place, value } => match x {
            Target::Assign {
                place: other,
                value: new,
            } => place.number() == other.number()
                && (are_inner_forms(c, place.arguments(), other.arguments())
                    && is_form(c, value, new)),
            Target::Set(_) | Target::Unset(_) | Target::Clear(_) => false,
        },
    }
}

fn is_steady_target(d: &Transition<'_>, x: &Target) -> bool
    ensures { result ≡ is_steady_target (before_in d.now) (moment_in d.now) (effects_by d.now) (target_of x.now) }
{
    match x {
        Target::Set(a) | Target::Unset(a) => are_steady(d, front(&a.args, a.n)),
        Target::Clear(_) => false,
        Target::Assign { place, value } => {
            are_inners_steady(d, place.arguments()) && is_steady(d, value)
        }
    }
}

/// Whether the target is that of the effect with terms replaced, and steady.
fn is_steady_form(d: &Transition<'_>, e: &Effect, x: &Target) -> bool
    ensures { result ≡ is_steady_form (before_in d.now) (moment_in d.now) (effects_by d.now) (effect_of e.now) (target_of x.now) }
{
    is_target_form(&d.before, &e.target, x) && is_steady_target(d, x)
}

/// Whether the effect, its arguments put in, makes the target so: its conditions are cited, and the later effects don't undo
/// it.
fn makes(d: &Transition<'_>, x: &Target, e: &Effect, later: &[Effect]) -> bool
    ensures { result ≡ makes (before_in d.now) (moment_in d.now) (effects_by d.now) (target_of x.now) (effect_of e.now, effects_at d.now.instance.now later.now) }
{
    is_steady_form(d, e, x)
        && (are_cited(&d.before, front(&e.cond.literals, e.cond.n))
            && is_undone_by_none(d, x, later))
}

fn some_makes(d: &Transition<'_>, x: &Target, effects: &[Effect]) -> bool
    ensures { result ≡ list_any (makes (before_in d.now) (moment_in d.now) (effects_by d.now) (target_of x.now)) (with_later (effects_at d.now.instance.now effects.now)) }
{
    for (i, e) in effects.iter().enumerate() {
        if makes(d, x, &e.at(d.instance), &effects[i + 1..]) {
            return true;
        }
    }
    false
}

fn is_made(d: &Transition<'_>, x: &Option<Target>) -> bool
    ensures { result ≡ option_map_or (λ x. list_any (makes (before_in d.now) (moment_in d.now) (effects_by d.now) x) (with_later (effects_by d.now))) (option_map target_of x.now) false }
{
    match x {
        Some(x) => some_makes(d, x, d.effects),
        None => false,
    }
}

/// `effect`: whether the literal is the target of an effect, its terms replaced and steady, whose conditions are cited
/// before, while later effects are barred from undoing it. It takes no memory.
#[tactic(auto, using(crate::proofs::Targeting::any_of_two))]
pub fn is_effect(d: &Transition<'_>, l: &Literal) -> bool
    ensures { result ≡ is_effect (before_in d.now) (moment_in d.now) (effects_by d.now) (literal_of l.now) }
{
    let targets = targets_of(l);
    is_made(d, &targets.first) || is_made(d, &targets.second)
}

/// Whether the literal is a condition of one of the effects, which has this target, and the other effects are barred from
/// making it so, where `others` says so of earlier ones.
fn some_needs(d: &Transition<'_>, l: &Literal, x: &Target, others: bool, effects: &[Effect]) -> bool
    ensures { result ≡ needed_from (before_in d.now) (moment_in d.now) (effects_by d.now) (literal_of l.now) (target_of x.now) others (effects_at d.now.instance.now effects.now) }
{
    let mut passed = others;
    for (i, e) in effects.iter().enumerate() {
        let e = e.at(d.instance);
        if needs(d, l, x, passed, &e, &effects[i + 1..]) {
            return true;
        }
        passed = is_no_maker_too(d, x, passed, &e);
    }
    false
}

/// Whether the literal is a condition of the effect, its arguments put in, which has this target.
fn is_condition(d: &Transition<'_>, l: &Literal, x: &Target, e: &Effect) -> bool
    ensures { result ≡ (list_any (literal_eq (literal_of l.now)) (effect_of e.now).condition && is_steady_form (before_in d.now) (moment_in d.now) (effects_by d.now) (effect_of e.now) (target_of x.now)) }
{
    is_one_of(l, front(&e.cond.literals, e.cond.n)) && is_steady_form(d, e, x)
}

/// Whether the literal is a condition of the effect, its arguments put in, which has this target, and those behind it are
/// barred from making it so, and `others`.
fn needs(
    d: &Transition<'_>,
    l: &Literal,
    x: &Target,
    others: bool,
    e: &Effect,
    later: &[Effect],
) -> bool
    ensures { result ≡ ((list_any (literal_eq (literal_of l.now)) (effect_of e.now).condition && is_steady_form (before_in d.now) (moment_in d.now) (effects_by d.now) (effect_of e.now) (target_of x.now)) && (others && are_barred (before_in d.now) (moment_in d.now) (would_make_same (before_in d.now) (moment_in d.now) (target_of x.now)) (effects_at d.now.instance.now later.now))) }
{
    is_condition(d, l, x, e) && (others && is_made_by_none(d, x, later))
}

/// Whether the effect, its arguments put in, is barred from making so the same as the target, and `others`.
fn is_no_maker_too(d: &Transition<'_>, x: &Target, others: bool, e: &Effect) -> bool
    ensures { result ≡ (others && is_barred (before_in d.now) (moment_in d.now) (would_make_same (before_in d.now) (moment_in d.now) (target_of x.now)) (effect_of e.now)) }
{
    others && is_no_maker(d, x, e)
}

/// Whether the effect, its arguments put in, is barred from making so the same as the target.
fn is_no_maker(d: &Transition<'_>, x: &Target, e: &Effect) -> bool
    ensures { result ≡ is_barred (before_in d.now) (moment_in d.now) (would_make_same (before_in d.now) (moment_in d.now) (target_of x.now)) (effect_of e.now) }
{
    is_barred(&d.before, &making_same(x), e)
}

fn is_needed_for(d: &Transition<'_>, l: &Literal, x: &Option<Target>) -> bool
    ensures { result ≡ option_map_or (λ x. needed_from (before_in d.now) (moment_in d.now) (effects_by d.now) (literal_of l.now) x true (effects_by d.now)) (option_map target_of x.now) false }
{
    match x {
        Some(x) => some_needs(d, l, x, true, d.effects),
        None => false,
    }
}

/// Whether the literal `k` was false before, and an effect with the condition `l` alone can have made it so.
#[tactic(auto, using(crate::proofs::Targeting::any_of_two))]
fn is_turned(d: &Transition<'_>, l: &Literal, k: &Literal) -> bool
    ensures { result ≡ is_turned (before_in d.now) (moment_in d.now) (effects_by d.now) (literal_of l.now) (literal_of k.now) }
{
    let targets = targets_of(k);
    d.before.has(&k.negated())
        && (is_needed_for(d, l, &targets.first) || is_needed_for(d, l, &targets.second))
}

fn line_is_turned(d: &Transition<'_>, number: u32, l: &Literal) -> bool
    requires { moment_in d.now < 2 ^ 32 }
    ensures { result ≡ option_map_or (is_literal_that (is_turned (before_in d.now) (moment_in d.now) (effects_by d.now) (literal_of l.now))) (option_and_then (fact_then (suc (moment_in d.now))) (nth (lines_of d.now.before.lines.now) number)) false }
{
    match fact_at(d.before.lines, d.before.moment + 1, number) {
        Some(Fact::Lit(k)) => is_turned(d, l, k),
        Some(Fact::Kx(_) | Fact::Lcw(_)) | None => false,
    }
}

#[tactic(auto, using(pks_proof_cited::proofs::Citing::any_cited))]
fn some_is_turned(d: &Transition<'_>, numbers: &[u32], l: &Literal) -> bool
    requires { moment_in d.now < 2 ^ 32 }
    ensures { result ≡ list_any (is_literal_that (is_turned (before_in d.now) (moment_in d.now) (effects_by d.now) (literal_of l.now))) (by_cited (lines_of d.now.before.lines.now) numbers.now (suc (moment_in d.now))) }
{
    for n in numbers {
        if line_is_turned(d, *n, l) {
            return true;
        }
    }
    false
}

/// `must`: whether the literal is a condition of an effect whose target is cited after and its negation before, and which
/// every other effect is barred from making so. It takes no memory.
#[tactic(auto, using(crate::proofs::Targeting::needed_turned))]
pub fn is_needed(d: &Transition<'_>, l: &Literal) -> bool
    requires { moment_in d.now < 2 ^ 32 }
    ensures { result ≡ is_needed (before_in d.now) (moment_in d.now) (effects_by d.now) (literal_of l.now) }
{
    some_is_turned(d, d.before.numbers, l)
}

/// Whether the literal is the negation of one condition of the effect, its arguments put in, the others cited, which has
/// this target, and the later effects don't undo it.
fn fails(d: &Transition<'_>, l: &Literal, x: &Target, e: &Effect, later: &[Effect]) -> bool
    ensures { result ≡ fails (before_in d.now) (moment_in d.now) (effects_by d.now) (literal_of l.now) (target_of x.now) (effect_of e.now, effects_at d.now.instance.now later.now) }
{
    denies_one(&d.before, l, front(&e.cond.literals, e.cond.n))
        && (is_steady_form(d, e, x) && is_undone_by_none(d, x, later))
}

fn some_fails(d: &Transition<'_>, l: &Literal, x: &Target, effects: &[Effect]) -> bool
    ensures { result ≡ list_any (fails (before_in d.now) (moment_in d.now) (effects_by d.now) (literal_of l.now) (target_of x.now)) (with_later (effects_at d.now.instance.now effects.now)) }
{
    for (i, e) in effects.iter().enumerate() {
        if fails(d, l, x, &e.at(d.instance), &effects[i + 1..]) {
            return true;
        }
    }
    false
}

fn is_failed_for(d: &Transition<'_>, l: &Literal, x: &Option<Target>) -> bool
    ensures { result ≡ option_map_or (λ x. list_any (fails (before_in d.now) (moment_in d.now) (effects_by d.now) (literal_of l.now) x) (with_later (effects_by d.now))) (option_map target_of x.now) false }
{
    match x {
        Some(x) => some_fails(d, l, x, d.effects),
        None => false,
    }
}

/// Whether the literal `k` is the negation of the target of an effect that fails by the condition that `l` negates.
#[tactic(auto, using(crate::proofs::Targeting::any_of_two))]
fn is_missed(d: &Transition<'_>, l: &Literal, k: &Literal) -> bool
    ensures { result ≡ is_missed (before_in d.now) (moment_in d.now) (effects_by d.now) (literal_of l.now) (literal_of k.now) }
{
    let targets = targets_of(&k.negated());
    is_failed_for(d, l, &targets.first) || is_failed_for(d, l, &targets.second)
}

fn line_is_missed(d: &Transition<'_>, number: u32, l: &Literal) -> bool
    requires { moment_in d.now < 2 ^ 32 }
    ensures { result ≡ option_map_or (is_literal_that (is_missed (before_in d.now) (moment_in d.now) (effects_by d.now) (literal_of l.now))) (option_and_then (fact_then (suc (moment_in d.now))) (nth (lines_of d.now.before.lines.now) number)) false }
{
    match fact_at(d.before.lines, d.before.moment + 1, number) {
        Some(Fact::Lit(k)) => is_missed(d, l, k),
        Some(Fact::Kx(_) | Fact::Lcw(_)) | None => false,
    }
}

#[tactic(auto, using(pks_proof_cited::proofs::Citing::any_cited))]
fn some_is_missed(d: &Transition<'_>, numbers: &[u32], l: &Literal) -> bool
    requires { moment_in d.now < 2 ^ 32 }
    ensures { result ≡ list_any (is_literal_that (is_missed (before_in d.now) (moment_in d.now) (effects_by d.now) (literal_of l.now))) (by_cited (lines_of d.now.before.lines.now) numbers.now (suc (moment_in d.now))) }
{
    for n in numbers {
        if line_is_missed(d, *n, l) {
            return true;
        }
    }
    false
}

/// `cannot`: whether the literal is the negation of one condition of an effect, the others cited, whose target's negation is
/// cited after, while later effects are barred from undoing it. It takes no memory.
#[tactic(auto, using(crate::proofs::Targeting::failed_missed))]
pub fn is_failed(d: &Transition<'_>, l: &Literal) -> bool
    requires { moment_in d.now < 2 ^ 32 }
    ensures { result ≡ is_failed (before_in d.now) (moment_in d.now) (effects_by d.now) (literal_of l.now) }
{
    some_is_missed(d, d.before.numbers, l)
}
