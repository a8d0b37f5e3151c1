//! Terms replaced by cited equations: arguments, each by one equation at most; or arguments so, then the whole by one
//! equation, then the arguments of that.
ghost use Rattle.std.specs.Prelude.{◌≡◌, ◌&&◌, map, false};
ghost use Rattle.std.specs.List.{list_any};
ghost use Rattle.std.specs.Option.{option_map, option_map_or, option_and_then};
ghost use Rattle.std.specs.Cmp.Lexicographic.{pointwise};
ghost use Rattle.pks_terms.specs.Syntax.{term_of as lifted};
ghost use Rattle.pks_terms.specs.Views.{inner_of, term_of, terms_of};
ghost use Rattle.pks_terms.specs.Proofs.{nth};
ghost use Rattle.pks_terms.specs.Judging.{fact_then, by_cited};
ghost use Rattle.pks_terms.specs.Rewriting.{are_equal, are_equal_arguments, has_arguments, is_form, are_forms, is_slot_form};
ghost use Rattle.pks_proof_lines.specs.ProofViews.{fact_of, lines_of};
ghost use Rattle.pks_proof_cited.specs.CitedViews.{judge_of};
ghost use Rattle.pks_proof_cited.specs.Walks.{bridges};

use crate::cited::{Cited, fact_at};
use pks_proof_lines::Fact;
use pks_terms::literal::Atom;
use pks_terms::term::{Inner, Term, front};

/// Whether the terms are the same, or the equation of the two is cited.
#[tactic(auto, unfolding(pks_terms::specs::Orders::term_eq))]
fn are_equal(c: &Cited<'_>, t: &Term, u: &Term) -> bool
    ensures { result ≡ are_equal (judge_of c.now) c.now.moment (term_of t.now) (term_of u.now) }
{
    t == u || c.equates(t, u)
}

/// Whether the arguments are the same, or the equation of the two is cited.
fn are_equal_arguments(c: &Cited<'_>, a: &Inner, b: &Inner) -> bool
    ensures { result ≡ are_equal_arguments (judge_of c.now) c.now.moment (inner_of a.now) (inner_of b.now) }
{
    are_equal(c, &a.as_term(), &b.as_term())
}

fn all_equal_arguments(c: &Cited<'_>, ts: &[Inner], us: &[Inner]) -> bool
    ensures { result ≡ pointwise (are_equal_arguments (judge_of c.now) c.now.moment) (map inner_of ts.now) (map inner_of us.now) }
{
    match ts {
        [] => match us {
            [] => true,
            [_, ..] => false,
        },
        [t, ts @ ..] => match us {
            [] => false,
            [u, us @ ..] => are_equal_arguments(c, t, u) && all_equal_arguments(c, ts, us),
        },
    }
}

/// Whether the second term is the first with arguments replaced, each by one equation at most.
#[tactic(auto, unfolding(pks_terms::specs::Orders::term_eq))]
fn has_arguments(c: &Cited<'_>, t: &Term, u: &Term) -> bool
    ensures { result ≡ has_arguments (judge_of c.now) c.now.moment (term_of t.now) (term_of u.now) }
{
    match t {
        Term::Obj(_) | Term::Param(_) => t == u,
        Term::App { fun, n, args } => match u {
            Term::Obj(_) | Term::Param(_) => t == u,
            Term::App {
                fun: other,
                n: k,
                args: us,
            } => fun.0 == other.0 && all_equal_arguments(c, front(args, *n), front(us, *k)),
        },
    }
}

/// Whether an equation of these sides, read from the left, leads from the one term to the other.
fn leads(c: &Cited<'_>, t: &Term, left: &Term, right: &Term, r: &Term) -> bool
    ensures { result ≡ (has_arguments (judge_of c.now) c.now.moment (term_of t.now) (term_of left.now) && has_arguments (judge_of c.now) c.now.moment (term_of right.now) (term_of r.now)) }
{
    has_arguments(c, t, left) && has_arguments(c, right, r)
}

/// Whether the fact is an equation that leads from the one term to the other.
fn bridges(c: &Cited<'_>, fact: &Fact, t: &Term, r: &Term) -> bool
    ensures { result ≡ bridges (judge_of c.now) c.now.moment (term_of t.now) (term_of r.now) (fact_of fact.now) }
{
    match fact {
        Fact::Kx(_) | Fact::Lcw(_) => false,
        Fact::Lit(l) => match &l.atom {
            Atom::Pred(_) => false,
            Atom::Eq { left, right } => {
                l.positive && (leads(c, t, left, right, r) || leads(c, t, right, left, r))
            }
        },
    }
}

fn line_bridges(c: &Cited<'_>, number: u32, t: &Term, r: &Term) -> bool
    ensures { result ≡ option_map_or (bridges (judge_of c.now) c.now.moment (term_of t.now) (term_of r.now)) (option_and_then (fact_then c.now.moment) (nth (lines_of c.now.lines.now) number)) false }
{
    match fact_at(c.lines, c.moment, number) {
        Some(fact) => bridges(c, fact, t, r),
        None => false,
    }
}

#[tactic(auto, using(crate::proofs::Citing::any_cited))]
fn some_bridges(c: &Cited<'_>, numbers: &[u32], t: &Term, r: &Term) -> bool
    ensures { result ≡ list_any (bridges (judge_of c.now) c.now.moment (term_of t.now) (term_of r.now)) (by_cited (lines_of c.now.lines.now) numbers.now c.now.moment) }
{
    for n in numbers {
        if line_bridges(c, *n, t, r) {
            return true;
        }
    }
    false
}

/// Whether the first term may be replaced by the second. It takes no memory.
pub fn is_form(c: &Cited<'_>, t: &Term, r: &Term) -> bool
    ensures { result ≡ is_form (judge_of c.now) c.now.moment (term_of t.now) (term_of r.now) }
{
    has_arguments(c, t, r) || some_bridges(c, c.numbers, t, r)
}

/// Whether the terms may be replaced so, one by one. It takes no memory.
pub fn are_forms(c: &Cited<'_>, ts: &[Term], rs: &[Term]) -> bool
    ensures { result ≡ are_forms (judge_of c.now) c.now.moment (terms_of ts.now) (terms_of rs.now) }
{
    match ts {
        [] => match rs {
            [] => true,
            [_, ..] => false,
        },
        [t, ts @ ..] => match rs {
            [] => false,
            [r, rs @ ..] => is_form(c, t, r) && are_forms(c, ts, rs),
        },
    }
}

fn is_inner_form(c: &Cited<'_>, t: &Inner, r: &Inner) -> bool
    ensures { result ≡ is_form (judge_of c.now) c.now.moment (lifted (inner_of t.now)) (lifted (inner_of r.now)) }
{
    is_form(c, &t.as_term(), &r.as_term())
}

/// Whether the arguments of a place may be replaced so, one by one. It takes no memory.
pub fn are_inner_forms(c: &Cited<'_>, ts: &[Inner], rs: &[Inner]) -> bool
    ensures { result ≡ are_forms (judge_of c.now) c.now.moment (map lifted (map inner_of ts.now)) (map lifted (map inner_of rs.now)) }
{
    match ts {
        [] => match rs {
            [] => true,
            [_, ..] => false,
        },
        [t, ts @ ..] => match rs {
            [] => false,
            [r, rs @ ..] => is_inner_form(c, t, r) && are_inner_forms(c, ts, rs),
        },
    }
}

fn is_slot_form(c: &Cited<'_>, slot: &Option<Term>, other: &Option<Term>) -> bool
    ensures { result ≡ is_slot_form (judge_of c.now) c.now.moment (option_map term_of slot.now) (option_map term_of other.now) }
{
    match slot {
        None => match other {
            None => true,
            Some(_) => false,
        },
        Some(t) => match other {
            None => false,
            Some(r) => is_form(c, t, r),
        },
    }
}

/// Whether the slots of a pattern may be replaced so, one by one. It takes no memory.
pub fn are_slot_forms(c: &Cited<'_>, slots: &[Option<Term>], others: &[Option<Term>]) -> bool
    ensures { result ≡ pointwise (is_slot_form (judge_of c.now) c.now.moment) (map (option_map term_of) slots.now) (map (option_map term_of) others.now) }
{
    match slots {
        [] => match others {
            [] => true,
            [_, ..] => false,
        },
        [slot, slots @ ..] => match others {
            [] => false,
            [other, others @ ..] => is_slot_form(c, slot, other)
                && are_slot_forms(c, slots, others),
        },
    }
}
