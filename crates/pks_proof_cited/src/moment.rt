//! The reasons that speak of one moment. `docs/REASONS.md` has the rules.
ghost use Rattle.std.specs.Prelude.{◌≡◌, ◌^◌, ◌&&◌, ◌||◌, ◌<◌, ◌+◌, map, length, true, false};
ghost use Rattle.std.specs.List.{list_any, list_all};
ghost use Rattle.std.specs.Option.{option_map, option_map_or, option_and_then};
ghost use Rattle.pks_terms.specs.Sets.{with_others};
ghost use Rattle.pks_terms.specs.Syntax.{negated};
ghost use Rattle.pks_terms.specs.Orders.{literal_eq, equation};
ghost use Rattle.pks_terms.specs.Databases.{entry_cmp};
ghost use Rattle.pks_terms.specs.Problems.{initial, initial_entry};
ghost use Rattle.pks_terms.specs.Views.{term_of, terms_of, literal_of, literals_in, relation_of, sides_of, pattern_of, signature_of, start_of, problem_of};
ghost use Rattle.pks_terms.specs.Proofs.{takings, nth};
ghost use Rattle.pks_terms.specs.Judging.{fact_eq, fact_then, is_cited, are_cited, is_group_that, is_region_that, by_cited};
ghost use Rattle.pks_terms.specs.Reasons.{said_by, is_given_item, says_side, is_by_side, is_same, is_only, is_other, objects_like, others_ruled_out, is_in_range, has_fixed, leaves_out, is_left_out, some_cited_apart};
ghost use Rattle.pks_lcw.specs.Entries.{atoms_of, entry_of};
ghost use Rattle.pks_terms.specs.ChoiceViews.{choice_of, side_of};
ghost use Rattle.pks_proof_lines.specs.ProofViews.{fact_of, lines_of, path_of};
ghost use Rattle.pks_proof_cited.specs.CitedViews.{judge_of};
ghost use Rattle.pks_proof_cited.specs.Walks.{taking_of, denied_from, left_from, other_from};

use crate::apart::some_apart;
use crate::cited::{Cited, are_cited, are_denied, fact_at, is_one_of, some_cited};
use pks_lcw::Entry;
use pks_proof_lines::{Fact, Turn};
use pks_terms::choices::{Choice, Side};
use pks_terms::literal::{Atom, Literal, PredAtom, equation};
use pks_terms::term::{Term, front};

/// A side that a path takes, with its moment.
#[derive(Clone, Copy)]
pub struct Taking<'a> {
    /// The moment.
    pub moment: u64,
    /// The choice.
    pub choice: &'a Choice,
    /// The side.
    pub side: Side,
}

/// The side that the path takes as its n-th, counted from 1. The path begins at the moment.
fn side_taken(path: &[Turn], moment: u64, n: u32) -> Option<Taking<'_>>
    requires { moment + length path.now < 2 ^ 64 }
    ensures { option_map taking_of result ≡ nth (takings moment (path_of path.now)) n }
{
    if n == 0 {
        return None;
    }
    let (mut at, mut left) = (moment, n);
    for turn in path {
        match turn {
            Turn::Went(_) => at += 1,
            Turn::Took(choice, side) => {
                if left == 1 {
                    return Some(Taking {
                        moment: at,
                        choice,
                        side: *side,
                    });
                }
                left -= 1;
            }
        }
    }
    None
}

/// Whether the literal is cited, and `earlier`.
fn is_cited_too(c: &Cited<'_>, earlier: bool, l: &Literal) -> bool
    ensures { result ≡ (earlier && is_cited (judge_of c.now) c.now.moment (literal_of l.now)) }
{
    earlier && c.has(l)
}

/// Whether the literal is the negation of this one, those behind it cited, and `others`.
#[tactic(auto, unfolding(pks_terms::specs::Orders::literal_eq))]
fn denies_first(c: &Cited<'_>, l: &Literal, others: bool, k: &Literal, rest: &[Literal]) -> bool
    ensures { result ≡ (literal_eq (literal_of l.now) (negated (literal_of k.now)) && (others && are_cited (judge_of c.now) c.now.moment (literals_in rest.now))) }
{
    *l == k.negated() && (others && are_cited(c, rest))
}

/// Whether the literal is the negation of one of the literals, the others cited, where `others` says so of earlier ones.
fn denies_from(c: &Cited<'_>, l: &Literal, others: bool, ls: &[Literal]) -> bool
    ensures { result ≡ denied_from (judge_of c.now) c.now.moment (literal_of l.now) others (literals_in ls.now) }
{
    let mut passed = others;
    for (i, k) in ls.iter().enumerate() {
        if denies_first(c, l, passed, k, &ls[i + 1..]) {
            return true;
        }
        passed = is_cited_too(c, passed, k);
    }
    false
}

/// Whether the literal is the negation of one of the literals, the others cited. It takes no memory.
pub fn denies_one(c: &Cited<'_>, l: &Literal, ls: &[Literal]) -> bool
    ensures { result ≡ list_any (λ q. literal_eq (literal_of l.now) (negated q.0) && are_cited (judge_of c.now) c.now.moment q.1) (with_others (literals_in ls.now)) }
{
    denies_from(c, l, true, ls)
}

/// Whether the side says the literal, the other literals of a formula taken as false cited.
#[tactic(auto, unfolding(pks_terms::specs::Orders::literal_eq))]
fn says_side(c: &Cited<'_>, choice: &Choice, side: Side, l: &Literal) -> bool
    ensures { result ≡ says_side (judge_of c.now) c.now.moment (choice_of choice.now) (side_of side) (literal_of l.now) }
{
    match choice {
        Choice::Act(_) => false,
        Choice::Branch(f) => match side {
            Side::True => is_one_of(l, front(&f.literals, f.n)),
            Side::False => denies_one(c, l, front(&f.literals, f.n)),
            Side::Is(_) => false,
        },
        Choice::Cases(t) => match side {
            Side::True | Side::False => false,
            Side::Is(e) => *l == equation(t, &Term::Obj(e), true),
        },
    }
}

/// `side`: whether the n-th side that the path takes says the literal at its moment. It takes no memory.
pub fn is_by_side(path: &[Turn], c: &Cited<'_>, n: u32, l: &Literal) -> bool
    ensures { result ≡ is_by_side (path_of path.now) (judge_of c.now) n c.now.moment (literal_of l.now) }
{
    let _length = path.len();
    match side_taken(path, 0, n) {
        Some(t) => t.moment == c.moment && says_side(c, t.choice, t.side, l),
        None => false,
    }
}

/// Whether the literal is this member, the negations of those behind it cited, and `others`.
#[tactic(auto, unfolding(pks_terms::specs::Orders::literal_eq))]
fn is_only_first(c: &Cited<'_>, l: &Literal, others: bool, k: &Literal, rest: &[Literal]) -> bool
    ensures { result ≡ (literal_eq (literal_of l.now) (literal_of k.now) && (others && are_cited (judge_of c.now) c.now.moment (map negated (literals_in rest.now)))) }
{
    l == k && (others && are_denied(c, rest))
}

/// Whether the literal is a member of the group, the negations of all others cited, where `others` says so of earlier ones.
fn is_only_of(c: &Cited<'_>, l: &Literal, others: bool, g: &[Literal]) -> bool
    ensures { result ≡ left_from (judge_of c.now) c.now.moment (literal_of l.now) others (literals_in g.now) }
{
    let mut passed = others;
    for (i, k) in g.iter().enumerate() {
        if is_only_first(c, l, passed, k, &g[i + 1..]) {
            return true;
        }
        passed = is_cited_too(c, passed, &k.negated());
    }
    false
}

fn line_leaves_only(c: &Cited<'_>, number: u32, l: &Literal) -> bool
    ensures { result ≡ option_map_or (is_group_that (left_from (judge_of c.now) c.now.moment (literal_of l.now) true)) (option_and_then (fact_then c.now.moment) (nth (lines_of c.now.lines.now) number)) false }
{
    match fact_at(c.lines, c.moment, number) {
        Some(Fact::Kx(g)) => is_only_of(c, l, true, g.as_slice()),
        Some(Fact::Lit(_) | Fact::Lcw(_)) | None => false,
    }
}

#[tactic(auto, using(crate::proofs::Citing::any_cited))]
fn some_leaves_only(c: &Cited<'_>, numbers: &[u32], l: &Literal) -> bool
    ensures { result ≡ list_any (is_group_that (left_from (judge_of c.now) c.now.moment (literal_of l.now) true)) (by_cited (lines_of c.now.lines.now) numbers.now c.now.moment) }
{
    for n in numbers {
        if line_leaves_only(c, *n, l) {
            return true;
        }
    }
    false
}

/// `only`: whether the literal is a member of a cited group, the negations of all others cited. It takes no memory.
pub fn is_only(c: &Cited<'_>, l: &Literal) -> bool
    ensures { result ≡ is_only (judge_of c.now) c.now.moment (literal_of l.now) }
{
    some_leaves_only(c, c.numbers, l)
}

/// Whether the literal is the negation of this member, one behind it cited, or `found`.
#[tactic(auto, unfolding(pks_terms::specs::Orders::literal_eq))]
fn is_other_first(c: &Cited<'_>, l: &Literal, found: bool, k: &Literal, rest: &[Literal]) -> bool
    ensures { result ≡ (literal_eq (literal_of l.now) (negated (literal_of k.now)) && (found || list_any (is_cited (judge_of c.now) c.now.moment) (literals_in rest.now))) }
{
    *l == k.negated() && (found || some_cited(c, rest))
}

/// Whether the literal is cited, or `earlier`.
fn is_cited_or(c: &Cited<'_>, earlier: bool, l: &Literal) -> bool
    ensures { result ≡ (earlier || is_cited (judge_of c.now) c.now.moment (literal_of l.now)) }
{
    earlier || c.has(l)
}

/// Whether the literal is the negation of a member of the group, another cited, where `found` says so of an earlier one.
fn is_other_of(c: &Cited<'_>, l: &Literal, found: bool, g: &[Literal]) -> bool
    ensures { result ≡ other_from (judge_of c.now) c.now.moment (literal_of l.now) found (literals_in g.now) }
{
    let mut passed = found;
    for (i, k) in g.iter().enumerate() {
        if is_other_first(c, l, passed, k, &g[i + 1..]) {
            return true;
        }
        passed = is_cited_or(c, passed, k);
    }
    false
}

fn line_has_other(c: &Cited<'_>, number: u32, l: &Literal) -> bool
    ensures { result ≡ option_map_or (is_group_that (other_from (judge_of c.now) c.now.moment (literal_of l.now) false)) (option_and_then (fact_then c.now.moment) (nth (lines_of c.now.lines.now) number)) false }
{
    match fact_at(c.lines, c.moment, number) {
        Some(Fact::Kx(g)) => is_other_of(c, l, false, g.as_slice()),
        Some(Fact::Lit(_) | Fact::Lcw(_)) | None => false,
    }
}

#[tactic(auto, using(crate::proofs::Citing::any_cited))]
fn some_has_other(c: &Cited<'_>, numbers: &[u32], l: &Literal) -> bool
    ensures { result ≡ list_any (is_group_that (other_from (judge_of c.now) c.now.moment (literal_of l.now) false)) (by_cited (lines_of c.now.lines.now) numbers.now c.now.moment) }
{
    for n in numbers {
        if line_has_other(c, *n, l) {
            return true;
        }
    }
    false
}

/// `others`: whether the literal is the negation of a member of a cited group, another member cited. It takes no memory.
pub fn is_other(c: &Cited<'_>, l: &Literal) -> bool
    ensures { result ≡ is_other (judge_of c.now) c.now.moment (literal_of l.now) }
{
    some_has_other(c, c.numbers, l)
}

/// Whether the arguments have the fixed terms of the slots.
#[tactic(auto, unfolding(pks_terms::specs::Orders::term_eq))]
fn has_fixed(slots: &[Option<Term>], args: &[Term]) -> bool
    ensures { result ≡ has_fixed (map (option_map term_of) slots.now) (terms_of args.now) }
{
    match slots {
        [] => match args {
            [] => true,
            [_, ..] => false,
        },
        [slot, slots @ ..] => match args {
            [] => false,
            [t, args @ ..] => match slot {
                None => has_fixed(slots, args),
                Some(u) => u == t && has_fixed(slots, args),
            },
        },
    }
}

/// Whether each listed atom is told apart from the arguments at some position.
fn all_apart(c: &Cited<'_>, atoms: &[PredAtom], args: &[Term]) -> bool
    ensures { result ≡ list_all (λ a. some_cited_apart (judge_of c.now) c.now.moment a.arguments (terms_of args.now)) (atoms_of atoms.now) }
{
    for a in atoms {
        if !some_apart(c, front(&a.args, a.n), args) {
            return false;
        }
    }
    true
}

fn leaves_out(c: &Cited<'_>, l: &Literal, e: &Entry) -> bool
    ensures { result ≡ leaves_out (judge_of c.now) c.now.moment (relation_of l.now.atom) (sides_of l.now.atom) l.now.positive (entry_of e.now) }
{
    match &l.atom {
        Atom::Eq { .. } => false,
        Atom::Pred(a) => {
            if l.positive {
                return false;
            }
            let args = front(&a.args, a.n);
            e.pattern.pred.0 == a.pred.0
                && (has_fixed(front(&e.pattern.args, e.pattern.n), args)
                    && all_apart(c, e.list.as_slice(), args))
        }
    }
}

fn line_leaves_out(c: &Cited<'_>, number: u32, l: &Literal) -> bool
    ensures { result ≡ option_map_or (is_region_that (leaves_out (judge_of c.now) c.now.moment (relation_of l.now.atom) (sides_of l.now.atom) l.now.positive)) (option_and_then (fact_then c.now.moment) (nth (lines_of c.now.lines.now) number)) false }
{
    match fact_at(c.lines, c.moment, number) {
        Some(Fact::Lcw(e)) => leaves_out(c, l, e),
        Some(Fact::Lit(_) | Fact::Kx(_)) | None => false,
    }
}

#[tactic(auto, using(crate::proofs::Citing::any_cited))]
fn some_leaves_out(c: &Cited<'_>, numbers: &[u32], l: &Literal) -> bool
    ensures { result ≡ list_any (is_region_that (leaves_out (judge_of c.now) c.now.moment (relation_of l.now.atom) (sides_of l.now.atom) l.now.positive)) (by_cited (lines_of c.now.lines.now) numbers.now c.now.moment) }
{
    for n in numbers {
        if line_leaves_out(c, *n, l) {
            return true;
        }
    }
    false
}

/// `closed`: whether the literal is the negation of an atom that a cited region shuts out. It takes no memory.
pub fn is_left_out(c: &Cited<'_>, l: &Literal) -> bool
    ensures { result ≡ is_left_out (judge_of c.now) c.now.moment (literal_of l.now) }
{
    some_leaves_out(c, c.numbers, l)
}
