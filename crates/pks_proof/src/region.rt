//! The reasons of regions that an action widens or clears. `docs/REASONS.md` has the rules.
ghost use Rattle.std.specs.Prelude.{◌≡◌, ◌&&◌, ◌||◌, map, not, false};
ghost use Rattle.std.specs.List.{list_any, list_all};
ghost use Rattle.std.specs.Option.{option_map_or, option_and_then};
ghost use Rattle.pks_terms.specs.Sets.{with_later};
ghost use Rattle.pks_terms.specs.Orders.{atom_cmp, pattern_cmp};
ghost use Rattle.pks_terms.specs.Views.{term_of, atom_of, pattern_of, target_of, effect_of};
ghost use Rattle.pks_terms.specs.Proofs.{nth};
ghost use Rattle.pks_terms.specs.Judging.{fact_then, is_region_that, by_cited};
ghost use Rattle.pks_terms.specs.Reasons.{would_widen, is_barred, is_set_form, is_listed, is_taken_in, is_new_atom, grows_to, is_grown, is_clear_form, is_cleared, is_empty};
ghost use Rattle.pks_lcw.specs.Entries.{atoms_of, entry_of};
ghost use Rattle.pks_proof_lines.specs.ProofViews.{fact_of, lines_of};
ghost use Rattle.pks_proof_cited.specs.CitedViews.{judge_of};
ghost use Rattle.pks_proof.specs.Doings.{effects_at, effects_by, before_in, moment_in};
ghost use Rattle.pks_proof.specs.Acts.{clears};

use crate::acting::{are_slots_steady, is_region_steady, is_widened_by_none};
use crate::barring::{Doing, Transition, are_steady, is_barred};
use pks_lcw::Entry;
use pks_proof_cited::cited::{Cited, fact_at};
use pks_proof_cited::forms::{are_forms, are_slot_forms};
use pks_proof_cited::given::is_listed;
use pks_proof_lines::Fact;
use pks_terms::literal::{Pattern, PredAtom};
use pks_terms::schema::{Effect, Target};
use pks_terms::term::front;

fn are_listed(atoms: &[PredAtom], bs: &[PredAtom]) -> bool
    ensures { result ≡ list_all (is_listed (atoms_of atoms.now)) (atoms_of bs.now) }
{
    for b in bs {
        if !is_listed(atoms, b) {
            return false;
        }
    }
    true
}

/// Whether the atom is that of a `set` with terms replaced, and steady.
fn is_set_form(d: &Transition<'_>, target: &Target, b: &PredAtom) -> bool
    ensures { result ≡ is_set_form (before_in d.now) (moment_in d.now) (effects_by d.now) (target_of target.now) (atom_of b.now) }
{
    match target {
        Target::Set(a) => {
            let args = front(&b.args, b.n);
            a.pred.0 == b.pred.0
                && (are_forms(&d.before, front(&a.args, a.n), args) && are_steady(d, args))
        }
        Target::Unset(_) | Target::Clear(_) | Target::Assign { .. } => false,
    }
}

fn some_set_form(d: &Transition<'_>, target: &Target, atoms: &[PredAtom]) -> bool
    ensures { result ≡ list_any (is_set_form (before_in d.now) (moment_in d.now) (effects_by d.now) (target_of target.now)) (atoms_of atoms.now) }
{
    for b in atoms {
        if is_set_form(d, target, b) {
            return true;
        }
    }
    false
}

fn is_no_widener(d: &Transition<'_>, x: &Pattern, e: &Effect) -> bool
    ensures { result ≡ is_barred (before_in d.now) (moment_in d.now) (would_widen (before_in d.now) (moment_in d.now) (pattern_of x.now)) (effect_of e.now) }
{
    is_barred(&d.before, &Doing::Widening(x), e)
}

/// Whether the effect, its arguments put in, is barred from making an instance of the region's pattern true, or its atom is
/// listed.
fn is_taken_in(d: &Transition<'_>, r: &Entry, e: &Effect) -> bool
    ensures { result ≡ is_taken_in (before_in d.now) (moment_in d.now) (effects_by d.now) (entry_of r.now) (effect_of e.now) }
{
    is_no_widener(d, &r.pattern, e) || some_set_form(d, &e.target, r.list.as_slice())
}

fn are_taken_in(d: &Transition<'_>, r: &Entry, effects: &[Effect]) -> bool
    ensures { result ≡ list_all (is_taken_in (before_in d.now) (moment_in d.now) (effects_by d.now) (entry_of r.now)) (effects_at d.now.instance.now effects.now) }
{
    for e in effects {
        if !is_taken_in(d, r, &e.at(d.instance)) {
            return false;
        }
    }
    true
}

fn sets_atom(d: &Transition<'_>, x: &Pattern, b: &PredAtom, e: &Effect) -> bool
    ensures { result ≡ (not (is_barred (before_in d.now) (moment_in d.now) (would_widen (before_in d.now) (moment_in d.now) (pattern_of x.now)) (effect_of e.now)) && is_set_form (before_in d.now) (moment_in d.now) (effects_by d.now) (effect_of e.now).target (atom_of b.now)) }
{
    !is_no_widener(d, x, e) && is_set_form(d, &e.target, b)
}

/// Whether the atom is that of one of these effects, which isn't barred.
fn is_new_atom(d: &Transition<'_>, x: &Pattern, b: &PredAtom, effects: &[Effect]) -> bool
    ensures { result ≡ list_any (λ e. not (is_barred (before_in d.now) (moment_in d.now) (would_widen (before_in d.now) (moment_in d.now) (pattern_of x.now)) e) && is_set_form (before_in d.now) (moment_in d.now) (effects_by d.now) e.target (atom_of b.now)) (effects_at d.now.instance.now effects.now) }
{
    for e in effects {
        if sets_atom(d, x, b, &e.at(d.instance)) {
            return true;
        }
    }
    false
}

/// Whether each of the atoms was listed before, or is that of an effect that isn't barred.
fn are_known_atoms(d: &Transition<'_>, listed: &[PredAtom], x: &Pattern, atoms: &[PredAtom]) -> bool
    ensures { result ≡ list_all (λ b. is_listed (atoms_of listed.now) b || is_new_atom (before_in d.now) (moment_in d.now) (effects_by d.now) (pattern_of x.now) b) (atoms_of atoms.now) }
{
    for b in atoms {
        if !is_listed(listed, b) && !is_new_atom(d, x, b, d.effects) {
            return false;
        }
    }
    true
}

/// Whether the region is the other with the atoms of all `set` effects on its predicate that aren't barred.
fn grows_to(d: &Transition<'_>, r: &Entry, e: &Entry) -> bool
    ensures { result ≡ grows_to (before_in d.now) (moment_in d.now) (effects_by d.now) (entry_of r.now) (entry_of e.now) }
{
    let (listed, old) = (r.list.as_slice(), e.list.as_slice());
    e.pattern == r.pattern
        && (is_region_steady(d, e)
            && (are_listed(listed, old)
                && (are_taken_in(d, r, d.effects) && are_known_atoms(d, old, &r.pattern, listed))))
}

fn line_grows_to(d: &Transition<'_>, number: u32, r: &Entry) -> bool
    ensures { result ≡ option_map_or (is_region_that (grows_to (before_in d.now) (moment_in d.now) (effects_by d.now) (entry_of r.now))) (option_and_then (fact_then (moment_in d.now)) (nth (lines_of d.now.before.lines.now) number)) false }
{
    match fact_at(d.before.lines, d.before.moment, number) {
        Some(Fact::Lcw(e)) => grows_to(d, r, e),
        Some(Fact::Lit(_) | Fact::Kx(_)) | None => false,
    }
}

#[tactic(auto, using(pks_proof_cited::proofs::Citing::any_cited))]
fn some_grows_to(d: &Transition<'_>, numbers: &[u32], r: &Entry) -> bool
    ensures { result ≡ list_any (is_region_that (grows_to (before_in d.now) (moment_in d.now) (effects_by d.now) (entry_of r.now))) (by_cited (lines_of d.now.before.lines.now) numbers.now (moment_in d.now)) }
{
    for n in numbers {
        if line_grows_to(d, *n, r) {
            return true;
        }
    }
    false
}

/// `grow`: whether the region is one that is cited before, its terms steady, with the atoms of all `set` effects on its
/// predicate that aren't barred added to its list, their terms replaced and steady. It takes no memory.
pub fn is_grown(d: &Transition<'_>, r: &Entry) -> bool
    ensures { result ≡ is_grown (before_in d.now) (moment_in d.now) (effects_by d.now) (entry_of r.now) }
{
    some_grows_to(d, d.before.numbers, r)
}

fn is_clear_form(c: &Cited<'_>, target: &Target, y: &Pattern) -> bool
    ensures { result ≡ is_clear_form (judge_of c.now) c.now.moment (target_of target.now) (pattern_of y.now) }
{
    match target {
        Target::Clear(x) => x.pred.0 == y.pred.0
            && are_slot_forms(c, front(&x.args, x.n), front(&y.args, y.n)),
        Target::Set(_) | Target::Unset(_) | Target::Assign { .. } => false,
    }
}

/// Whether the effect, its arguments put in, clears the pattern without a condition, and the later ones don't widen it.
fn clears(d: &Transition<'_>, y: &Pattern, e: &Effect, later: &[Effect]) -> bool
    ensures { result ≡ clears (before_in d.now) (moment_in d.now) (pattern_of y.now) (effect_of e.now, effects_at d.now.instance.now later.now) }
{
    front(&e.cond.literals, e.cond.n).is_empty()
        && (is_clear_form(&d.before, &e.target, y) && is_widened_by_none(d, y, later))
}

fn some_clears(d: &Transition<'_>, y: &Pattern, effects: &[Effect]) -> bool
    ensures { result ≡ list_any (clears (before_in d.now) (moment_in d.now) (pattern_of y.now)) (with_later (effects_at d.now.instance.now effects.now)) }
{
    for (i, e) in effects.iter().enumerate() {
        if clears(d, y, &e.at(d.instance), &effects[i + 1..]) {
            return true;
        }
    }
    false
}

/// `clear`: whether the region has an empty list and the pattern of an unconditional `clear`, its terms replaced and steady,
/// while later `set` effects on the predicate are barred. It takes no memory.
pub fn is_cleared(d: &Transition<'_>, r: &Entry) -> bool
    ensures { result ≡ is_cleared (before_in d.now) (moment_in d.now) (effects_by d.now) (entry_of r.now) }
{
    r.list.as_slice().is_empty()
        && (are_slots_steady(d, front(&r.pattern.args, r.pattern.n))
            && some_clears(d, &r.pattern, d.effects))
}
