//! Which proofs are accepted. `docs/REASONS.md` has the rules.
ghost use Rattle.std.specs.Prelude.{◌≡◌, ◌^◌, ◌≤◌, ◌<◌, ◌+◌, ◌-◌, ◌&&◌, ◌||◌, ◌==◌, length, slice_get, true};
ghost use Rattle.std.specs.List.{list_any, list_all};
ghost use Rattle.std.specs.Option.{option_map};
ghost use Rattle.pks_terms.specs.declared.limits.TheConstants.{MOST_OBJECTS};
ghost use Rattle.pks_terms.specs.Worlds.{World, true_in};
ghost use Rattle.pks_terms.specs.Problems.{StartAlike};
ghost use Rattle.pks_terms.specs.Branching.{numbered};
ghost use Rattle.pks_terms.specs.Settling.{effects_of};
ghost use Rattle.pks_terms.specs.Knowledge.{after_actions, ground_actions};
ghost use Rattle.pks_terms.specs.Remembering.{SeenAlong};
ghost use Rattle.pks_terms.specs.Typed.{IsTyped};
ghost use Rattle.pks_terms.specs.Views.{literal_of, instance_of, problem_of};
ghost use Rattle.pks_terms.specs.Proofs.{FactLit, deeds, final_moment, nth, GoesAlong, IsPathOf};
ghost use Rattle.pks_terms.specs.Reasons.{is_kept, is_from_later, is_effect, is_needed, is_failed, is_grown, is_cleared};
ghost use Rattle.pks_terms.specs.Judging.{fact_eq};
ghost use Rattle.pks_terms.specs.Accepting.{from_moment, to_moment, is_allowed_by, is_allowed_line, are_before, are_allowed, are_used, ends_with, accepts};
ghost use Rattle.pks_proof_lines.specs.ProofViews.{fact_of, reason_of, line_of, lines_of, path_of};
ghost use Rattle.pks_proof_cited.specs.CitedViews.{judge_of};
ghost use Rattle.pks_lcw.specs.Entries.{entry_of};
ghost use Rattle.pks_proof.specs.Doings.{effects_by, before_in, moment_in};
ghost use Rattle.pks_proof.specs.Lines.{IsDeedFrom, is_literal_allowed, is_region_allowed};

use crate::acting::{is_effect, is_failed, is_from_later, is_kept, is_needed};
use crate::barring::Transition;
use crate::region::{is_cleared, is_grown};
use pks_lcw::Entry;
use pks_proof_cited::cited::{Cited, line_at};
use pks_proof_cited::evident::{is_in_range, is_same};
use pks_proof_cited::given::is_given_item;
use pks_proof_cited::moment::{is_by_side, is_left_out, is_only, is_other};
use pks_proof_cited::swapping::is_swapped;
use pks_proof_lines::lines::same_fact;
use pks_proof_lines::{Fact, Line, Path, Proof, Reason, Turn};
use pks_terms::literal::Literal;
use pks_terms::lookup::written_effects;
use pks_terms::problem::Problem;
use pks_terms::schema::{Effect, Instance};

/// The action that leads from the moment to the next.
fn deed_at(path: &[Turn], moment: u64) -> Option<&Instance>
    ensures { option_map (λ i. instance_of i.now) result ≡ slice_get (deeds (path_of path.now)) moment }
{
    let mut left = moment;
    for turn in path {
        match turn {
            Turn::Took(_, _) => {}
            Turn::Went(i) => {
                if left == 0 {
                    return Some(i);
                }
                left -= 1;
            }
        }
    }
    None
}

/// The action with its arguments, and what is cited before it.
fn deed_of<'a>(p: &'a Problem<'_>, before: Cited<'a>, instance: &'a Instance) -> Transition<'a>
    ensures effects { effects_by result ≡ effects_of (problem_of p.now) (instance_of instance.now) }
    ensures judge { before_in result ≡ judge_of before.entry }
    ensures moment { moment_in result ≡ before.entry.moment }
{
    Transition {
        before,
        instance,
        effects: written_effects(p, instance.act),
    }
}

/// The action that follows the moment.
fn deed_from<'a>(p: &'a Problem<'_>, path: &'a [Turn], c: &Cited<'a>) -> Option<Transition<'a>>
    requires { c.now.moment < 2 ^ 32 }
    ensures { IsDeedFrom (problem_of p.now) (path_of path.now) (judge_of c.now) c.now.moment result }
{
    match deed_at(path, c.moment) {
        Some(instance) => Some(deed_of(p, *c, instance)),
        None => None,
    }
}

/// The action that leads to the moment, which isn't the first.
fn deed_to<'a>(p: &'a Problem<'_>, path: &'a [Turn], c: &Cited<'a>) -> Option<Transition<'a>>
    requires later { 0 < c.now.moment }
    requires small { c.now.moment < 2 ^ 32 }
    ensures { IsDeedFrom (problem_of p.now) (path_of path.now) (judge_of c.now) (c.now.moment - 1) result }
{
    let before = Cited {
        lines: c.lines,
        numbers: c.numbers,
        moment: c.moment - 1,
    };
    deed_from(p, path, &before)
}

fn keeps(p: &Problem<'_>, path: &[Turn], c: &Cited<'_>, f: &Fact) -> bool
    requires { c.now.moment < 2 ^ 32 }
    ensures { result ≡ to_moment (problem_of p.now) (path_of path.now) c.now.moment (λ k es. is_kept (judge_of c.now) k es (fact_of f.now)) }
{
    if c.moment == 0 {
        return false;
    }
    match deed_to(p, path, c) {
        Some(d) => is_kept(&d, f),
        None => false,
    }
}

fn brings_back(p: &Problem<'_>, path: &[Turn], c: &Cited<'_>, l: &Literal) -> bool
    requires { c.now.moment < 2 ^ 32 }
    ensures { result ≡ from_moment (problem_of p.now) (path_of path.now) c.now.moment (λ es. is_from_later (judge_of c.now) c.now.moment es (literal_of l.now)) }
{
    match deed_from(p, path, c) {
        Some(d) => is_from_later(&d, l),
        None => false,
    }
}

fn makes(p: &Problem<'_>, path: &[Turn], c: &Cited<'_>, l: &Literal) -> bool
    requires { c.now.moment < 2 ^ 32 }
    ensures { result ≡ to_moment (problem_of p.now) (path_of path.now) c.now.moment (λ k es. is_effect (judge_of c.now) k es (literal_of l.now)) }
{
    if c.moment == 0 {
        return false;
    }
    match deed_to(p, path, c) {
        Some(d) => is_effect(&d, l),
        None => false,
    }
}

fn needs(p: &Problem<'_>, path: &[Turn], c: &Cited<'_>, l: &Literal) -> bool
    requires { c.now.moment < 2 ^ 32 }
    ensures { result ≡ from_moment (problem_of p.now) (path_of path.now) c.now.moment (λ es. is_needed (judge_of c.now) c.now.moment es (literal_of l.now)) }
{
    match deed_from(p, path, c) {
        Some(d) => is_needed(&d, l),
        None => false,
    }
}

fn fails(p: &Problem<'_>, path: &[Turn], c: &Cited<'_>, l: &Literal) -> bool
    requires { c.now.moment < 2 ^ 32 }
    ensures { result ≡ from_moment (problem_of p.now) (path_of path.now) c.now.moment (λ es. is_failed (judge_of c.now) c.now.moment es (literal_of l.now)) }
{
    match deed_from(p, path, c) {
        Some(d) => is_failed(&d, l),
        None => false,
    }
}

fn grows(p: &Problem<'_>, path: &[Turn], c: &Cited<'_>, r: &Entry) -> bool
    requires { c.now.moment < 2 ^ 32 }
    ensures { result ≡ to_moment (problem_of p.now) (path_of path.now) c.now.moment (λ k es. is_grown (judge_of c.now) k es (entry_of r.now)) }
{
    if c.moment == 0 {
        return false;
    }
    match deed_to(p, path, c) {
        Some(d) => is_grown(&d, r),
        None => false,
    }
}

fn clears(p: &Problem<'_>, path: &[Turn], c: &Cited<'_>, r: &Entry) -> bool
    requires { c.now.moment < 2 ^ 32 }
    ensures { result ≡ to_moment (problem_of p.now) (path_of path.now) c.now.moment (λ k es. is_cleared (judge_of c.now) k es (entry_of r.now)) }
{
    if c.moment == 0 {
        return false;
    }
    match deed_to(p, path, c) {
        Some(d) => is_cleared(&d, r),
        None => false,
    }
}

/// Whether the literal may stand at the moment, for one of the reasons that speak of literals alone.
fn is_literal_allowed(
    p: &Problem<'_>,
    path: &[Turn],
    c: &Cited<'_>,
    l: &Literal,
    reason: &Reason,
) -> bool
    requires objects { length p.now.signature.objects ≤ MOST_OBJECTS }
    requires moment { c.now.moment < 2 ^ 32 }
    ensures { result ≡ is_literal_allowed (problem_of p.now) (path_of path.now) (judge_of c.now) c.now.moment (literal_of l.now) (reason_of reason.now) }
{
    match reason {
        Reason::Given(_) | Reason::Swap | Reason::Keep | Reason::Grow | Reason::Clear => false,
        Reason::Side(n) => is_by_side(path, c, *n, l),
        Reason::Same => is_same(&p.signature, l),
        Reason::Only => is_only(c, l),
        Reason::Others => is_other(c, l),
        Reason::Range => is_in_range(c, &p.signature, l),
        Reason::Closed => is_left_out(c, l),
        Reason::Back => brings_back(p, path, c, l),
        Reason::Effect => makes(p, path, c, l),
        Reason::Must => needs(p, path, c, l),
        Reason::Cannot => fails(p, path, c, l),
    }
}

/// Whether the region may stand at the moment, for one of the reasons that speak of regions alone.
fn is_region_allowed(
    p: &Problem<'_>,
    path: &[Turn],
    c: &Cited<'_>,
    r: &Entry,
    reason: &Reason,
) -> bool
    requires { c.now.moment < 2 ^ 32 }
    ensures { result ≡ is_region_allowed (problem_of p.now) (path_of path.now) (judge_of c.now) c.now.moment (entry_of r.now) (reason_of reason.now) }
{
    match reason {
        Reason::Grow => grows(p, path, c, r),
        Reason::Clear => clears(p, path, c, r),
        _ => false,
    }
}

/// Whether the fact may stand at the moment for the reason, by what is cited.
fn is_allowed_by(p: &Problem<'_>, path: &[Turn], c: &Cited<'_>, f: &Fact, reason: &Reason) -> bool
    requires objects { length p.now.signature.objects ≤ MOST_OBJECTS }
    requires moment { c.now.moment < 2 ^ 32 }
    ensures { result ≡ is_allowed_by (problem_of p.now) (path_of path.now) (judge_of c.now) c.now.moment (fact_of f.now) (reason_of reason.now) }
{
    match reason {
        Reason::Given(n) => is_given_item(p, n.0, c.moment, f),
        Reason::Swap => is_swapped(c, f),
        Reason::Keep => keeps(p, path, c, f),
        Reason::Grow | Reason::Clear => match f {
            Fact::Lcw(r) => is_region_allowed(p, path, c, r, reason),
            Fact::Lit(_) | Fact::Kx(_) => false,
        },
        _ => match f {
            Fact::Lit(l) => is_literal_allowed(p, path, c, l, reason),
            Fact::Kx(_) | Fact::Lcw(_) => false,
        },
    }
}

/// The moment after the last action.
fn final_moment(path: &[Turn]) -> u64
    ensures count { result ≡ final_moment (path_of path.now) }
    ensures bound { result ≤ length path.now }
{
    let _length = path.len();
    let mut moment = 0;
    for turn in path {
        match turn {
            Turn::Took(_, _) => {}
            Turn::Went(_) => moment += 1,
        }
    }
    moment
}

/// Whether the line stands at a moment of the path, and is allowed by its reason and the lines that it cites.
fn is_allowed_line(p: &Problem<'_>, path: &[Turn], lines: &[Line], line: &Line) -> bool
    requires { length p.now.signature.objects ≤ MOST_OBJECTS }
    ensures { result ≡ is_allowed_line (problem_of p.now) (path_of path.now) (lines_of lines.now) (line_of line.now) }
{
    let moment = u64::from(line.moment);
    let c = Cited {
        lines,
        numbers: line.cites.as_slice(),
        moment,
    };
    moment <= final_moment(path) && is_allowed_by(p, path, &c, &line.fact, &line.reason)
}

/// Whether all these are numbers of lines before the n-th.
fn are_before(n: u64, cites: &[u32]) -> bool
    ensures { result ≡ are_before n cites.now }
{
    for c in cites {
        if *c == 0 || u64::from(*c) >= n {
            return false;
        }
    }
    true
}

/// Whether each of the lines, the first having the number n, is allowed and cites smaller numbers alone.
fn are_allowed(p: &Problem<'_>, path: &[Turn], lines: &[Line], n: u64, rest: &[Line]) -> bool
    requires objects { length p.now.signature.objects ≤ MOST_OBJECTS }
    requires numbers { n + length rest.now < 2 ^ 64 }
    ensures { result ≡ list_all (λ q. are_before q.0 q.1.cites && is_allowed_line (problem_of p.now) (path_of path.now) (lines_of lines.now) q.1) (numbered n (lines_of rest.now)) }
{
    let mut number = n;
    for line in rest {
        if !are_before(number, line.cites.as_slice()) || !is_allowed_line(p, path, lines, line) {
            return false;
        }
        number += 1;
    }
    true
}

fn is_among(n: u64, cites: &[u32]) -> bool
    ensures { result ≡ list_any (λ c. c == n) cites.now }
{
    for c in cites {
        if u64::from(*c) == n {
            return true;
        }
    }
    false
}

/// Whether one of the lines cites the number.
fn is_cited(n: u64, lines: &[Line]) -> bool
    ensures { result ≡ list_any (λ line. list_any (λ c. c == n) line.cites) (lines_of lines.now) }
{
    for line in lines {
        if is_among(n, line.cites.as_slice()) {
            return true;
        }
    }
    false
}

/// Whether each of the lines, the first having the number n, is cited or the last.
fn are_used(lines: &[Line], n: u64, rest: &[Line]) -> bool
    requires { n + length rest.now < 2 ^ 64 }
    ensures { result ≡ list_all (λ q. (q.0 == length (lines_of lines.now)) || list_any (λ line. list_any (λ c. c == q.0) line.cites) (lines_of lines.now)) (numbered n (lines_of rest.now)) }
{
    let mut number = n;
    for _line in rest {
        if number != lines.len() as u64 && !is_cited(number, lines) {
            return false;
        }
        number += 1;
    }
    true
}

/// Whether the line is the literal at the last moment.
fn is_end(path: &[Turn], line: &Line, l: &Literal) -> bool
    ensures { result ≡ (((line_of line.now).moment == final_moment (path_of path.now)) && fact_eq (line_of line.now).fact (FactLit (literal_of l.now))) }
{
    u64::from(line.moment) == final_moment(path) && same_fact(&line.fact, &Fact::Lit(*l))
}

/// The last line.
#[tactic(auto, using(pks_proof_cited::proofs::Citing::nth_before))]
fn last_line(lines: &[Line]) -> Option<&Line>
    ensures { option_map (λ x. line_of x.now) result ≡ nth (lines_of lines.now) (length (lines_of lines.now)) }
{
    if lines.is_empty() {
        return None;
    }
    line_at(lines, lines.len() - 1)
}

/// Whether the last line is the literal at the last moment.
fn ends_with(path: &[Turn], lines: &[Line], l: &Literal) -> bool
    ensures { result ≡ ends_with (path_of path.now) (lines_of lines.now) (literal_of l.now) }
{
    match last_line(lines) {
        Some(line) => is_end(path, line, l),
        None => false,
    }
}

#[tactic(auto, unfolding(pks_terms::specs::Accepting::accepts))]
fn is_accepted(p: &Problem<'_>, path: &[Turn], lines: &[Line], l: &Literal) -> bool
    requires { length p.now.signature.objects ≤ MOST_OBJECTS }
    ensures { result ≡ accepts (problem_of p.now) (path_of path.now) (lines_of lines.now) (literal_of l.now) }
{
    let _count = lines.len();
    are_allowed(p, path, lines, 1, lines)
        && (are_used(lines, 1, lines) && ends_with(path, lines, l))
}

/// Whether the proof is accepted for the literal: every line stands at a moment of the path, is allowed by its reason and what
/// it cites, and cites smaller numbers alone; every line but the last is cited; the last line is the literal at the last
/// moment. It knows nothing of databases, takes no memory, and asks for at most 65,536 objects. What is accepted is true in
/// any two worlds that begin alike, take the path and have the same seen after each action.
pub fn accepts(p: &Problem<'_>, path: &Path, proof: &Proof, l: &Literal) -> bool
    requires { length p.now.signature.objects ≤ MOST_OBJECTS }
    ensures exact { result ≡ accepts (problem_of p.now) (path_of path.now) (lines_of proof.now) (literal_of l.now) }
    ensures law { result ≡ true → (w w' : World) → IsTyped (problem_of p.now) → IsPathOf (problem_of p.now) (path_of path.now) → StartAlike (problem_of p.now) w w' → GoesAlong (problem_of p.now) w (path_of path.now) → GoesAlong (problem_of p.now) w' (path_of path.now) → SeenAlong (problem_of p.now) w w' (deeds (path_of path.now)) → (true_in (after_actions (problem_of p.now) w (ground_actions (problem_of p.now) w (deeds (path_of path.now)))) (literal_of l.now) ≡ true) × (true_in (after_actions (problem_of p.now) w' (ground_actions (problem_of p.now) w' (deeds (path_of path.now)))) (literal_of l.now) ≡ true) }
{
    is_accepted(p, path.as_slice(), proof.as_slice(), l)
}
