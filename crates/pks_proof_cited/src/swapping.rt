//! One term replaced by another in one place of a cited fact. `docs/REASONS.md` has the rules.
ghost use Rattle.std.specs.Prelude.{◌≡◌, ◌||◌, nat_eq, map, not, false};
ghost use Rattle.std.specs.List.{list_any, list_all};
ghost use Rattle.std.specs.Option.{option_map, option_map_or, option_and_then};
ghost use Rattle.std.specs.Ordering.{is_eq, is_gt};
ghost use Rattle.std.specs.Cmp.Lexicographic.{pointwise};
ghost use Rattle.pks_terms.specs.Syntax.{object, term_of as lifted};
ghost use Rattle.pks_terms.specs.Orders.{term_eq, literal_eq, literal_cmp, conj_cmp, atom_cmp, literal};
ghost use Rattle.pks_terms.specs.Views.{object_of, inner_of, term_of, terms_of, atom_of, relation_of, sides_of, literal_of, literals_in, pattern_of};
ghost use Rattle.pks_terms.specs.Proofs.{nth};
ghost use Rattle.pks_terms.specs.Judging.{fact_then, by_cited};
ghost use Rattle.pks_terms.specs.Rewriting.{is_equation, one_swapped, inner_eq, swaps_object, swaps_inner, swaps_argument, swaps_term, swaps_terms, turned, swaps_literal, are_in_order, swaps_group, same_slot, swaps_slot, swaps_pattern, swaps_atom, same_atoms, swaps_listed, swaps_region, swaps};
ghost use Rattle.pks_terms.specs.Reasons.{is_swapped};
ghost use Rattle.pks_lcw.specs.Entries.{atoms_of, entry_of};
ghost use Rattle.pks_proof_lines.specs.ProofViews.{fact_of, lines_of};
ghost use Rattle.pks_proof_cited.specs.CitedViews.{judge_of};
ghost use Rattle.pks_proof_cited.specs.Exchanges.{behind_first, joins, leaves, leaves_behind, becomes_first, exchanges};

use crate::cited::{Cited, fact_at};
use pks_lcw::Entry;
use pks_proof_lines::Fact;
use pks_terms::ids::ObjId;
use pks_terms::literal::{Atom, Literal, Pattern, PredAtom, equation};
use pks_terms::term::{Inner, Term, front};
use std::cmp::Ordering;

fn same_objects(ds: &[ObjId], es: &[ObjId]) -> bool
    ensures { result ≡ pointwise nat_eq (map object_of ds.now) (map object_of es.now) }
{
    match ds {
        [] => match es {
            [] => true,
            [_, ..] => false,
        },
        [d, ds @ ..] => match es {
            [] => false,
            [e, es @ ..] => d.0 == e.0 && same_objects(ds, es),
        },
    }
}

fn one_object_swapped(c: &Cited<'_>, ds: &[ObjId], es: &[ObjId]) -> bool
    ensures { result ≡ one_swapped nat_eq (λ d e. is_equation (judge_of c.now) c.now.moment (object d) (object e)) (map object_of ds.now) (map object_of es.now) }
{
    match ds {
        [] => false,
        [d, ds @ ..] => match es {
            [] => false,
            [e, es @ ..] => (c.equates(&Term::Obj(*d), &Term::Obj(*e)) && same_objects(ds, es))
                || (d.0 == e.0 && one_object_swapped(c, ds, es)),
        },
    }
}

/// Whether one object in the argument is replaced.
fn swaps_object(c: &Cited<'_>, a: &Inner, b: &Inner) -> bool
    ensures { result ≡ swaps_object (judge_of c.now) c.now.moment (inner_of a.now) (inner_of b.now) }
{
    match a {
        Inner::Obj(_) | Inner::Param(_) => false,
        Inner::App { fun, n, args } => match b {
            Inner::Obj(_) | Inner::Param(_) => false,
            Inner::App {
                fun: other,
                n: k,
                args: es,
            } => fun.0 == other.0 && one_object_swapped(c, front(args, *n), front(es, *k)),
        },
    }
}

fn swaps_inner(c: &Cited<'_>, a: &Inner, b: &Inner) -> bool
    ensures { result ≡ swaps_inner (judge_of c.now) c.now.moment (inner_of a.now) (inner_of b.now) }
{
    c.equates(&a.as_term(), &b.as_term()) || swaps_object(c, a, b)
}

#[tactic(auto, unfolding(pks_terms::specs::Orders::term_eq))]
fn same_inner(a: &Inner, b: &Inner) -> bool
    ensures { result ≡ inner_eq (inner_of a.now) (inner_of b.now) }
{
    a.as_term() == b.as_term()
}

fn same_inners(ts: &[Inner], us: &[Inner]) -> bool
    ensures { result ≡ pointwise inner_eq (map inner_of ts.now) (map inner_of us.now) }
{
    match ts {
        [] => match us {
            [] => true,
            [_, ..] => false,
        },
        [t, ts @ ..] => match us {
            [] => false,
            [u, us @ ..] => same_inner(t, u) && same_inners(ts, us),
        },
    }
}

fn one_inner_swapped(c: &Cited<'_>, ts: &[Inner], us: &[Inner]) -> bool
    ensures { result ≡ one_swapped inner_eq (swaps_inner (judge_of c.now) c.now.moment) (map inner_of ts.now) (map inner_of us.now) }
{
    match ts {
        [] => false,
        [t, ts @ ..] => match us {
            [] => false,
            [u, us @ ..] => (swaps_inner(c, t, u) && same_inners(ts, us))
                || (same_inner(t, u) && one_inner_swapped(c, ts, us)),
        },
    }
}

/// Whether one argument of the term is replaced.
fn swaps_argument(c: &Cited<'_>, t: &Term, u: &Term) -> bool
    ensures { result ≡ swaps_argument (judge_of c.now) c.now.moment (term_of t.now) (term_of u.now) }
{
    match t {
        Term::Obj(_) | Term::Param(_) => false,
        Term::App { fun, n, args } => match u {
            Term::Obj(_) | Term::Param(_) => false,
            Term::App {
                fun: other,
                n: k,
                args: us,
            } => fun.0 == other.0 && one_inner_swapped(c, front(args, *n), front(us, *k)),
        },
    }
}

fn swaps_term(c: &Cited<'_>, t: &Term, u: &Term) -> bool
    ensures { result ≡ swaps_term (judge_of c.now) c.now.moment (term_of t.now) (term_of u.now) }
{
    c.equates(t, u) || swaps_argument(c, t, u)
}

#[tactic(auto, unfolding(pks_terms::specs::Orders::term_eq))]
fn same_terms(ts: &[Term], us: &[Term]) -> bool
    ensures { result ≡ pointwise term_eq (terms_of ts.now) (terms_of us.now) }
{
    match ts {
        [] => match us {
            [] => true,
            [_, ..] => false,
        },
        [t, ts @ ..] => match us {
            [] => false,
            [u, us @ ..] => t == u && same_terms(ts, us),
        },
    }
}

/// Whether one of the terms is replaced, or an argument of it.
#[tactic(auto, unfolding(pks_terms::specs::Orders::term_eq))]
fn swaps_terms(c: &Cited<'_>, ts: &[Term], us: &[Term]) -> bool
    ensures { result ≡ swaps_terms (judge_of c.now) c.now.moment (terms_of ts.now) (terms_of us.now) }
{
    match ts {
        [] => false,
        [t, ts @ ..] => match us {
            [] => false,
            [u, us @ ..] => (swaps_term(c, t, u) && same_terms(ts, us))
                || (t == u && swaps_terms(c, ts, us)),
        },
    }
}

/// Whether the literal has the other's predicate, or is an equation as that is, and its sign.
#[tactic(auto, unfolding(pks_terms::specs::Orders::literal_eq, pks_terms::specs::Orders::literal_cmp, pks_terms::specs::Orders::literal))]
fn has_head_of(l: &Literal, k: &Literal) -> bool
    ensures { result ≡ literal_eq (literal_of l.now) (literal (relation_of k.now.atom) (sides_of l.now.atom) k.now.positive) }
{
    match &k.atom {
        Atom::Pred(a) => match &l.atom {
            Atom::Eq { .. } => false,
            Atom::Pred(b) => {
                let atom = Atom::Pred(PredAtom {
                    pred: a.pred,
                    n: b.n,
                    args: b.args,
                });
                *l == Literal {
                    atom,
                    positive: k.positive,
                }
            }
        },
        Atom::Eq { .. } => match &l.atom {
            Atom::Pred(_) => false,
            Atom::Eq { left, right } => *l == equation(left, right, k.positive),
        },
    }
}

/// Whether one term is replaced in the arguments, or in the sides of an equation, which may then be turned.
fn swaps_sides(c: &Cited<'_>, k: &Atom, l: &Atom) -> bool
    ensures { result ≡ (swaps_terms (judge_of c.now) c.now.moment (sides_of k.now) (sides_of l.now) || swaps_terms (judge_of c.now) c.now.moment (sides_of k.now) (turned (relation_of l.now) (sides_of l.now))) }
{
    let old = k.arguments();
    match l {
        Atom::Pred(a) => swaps_terms(c, old.terms(), front(&a.args, a.n)),
        Atom::Eq { left, right } => swaps_terms(c, old.terms(), &[*left, *right])
            || swaps_terms(c, old.terms(), &[*right, *left]),
    }
}

/// Whether the literal `l` is `k` with one term replaced.
fn swaps_literal(c: &Cited<'_>, k: &Literal, l: &Literal) -> bool
    ensures { result ≡ swaps_literal (judge_of c.now) c.now.moment (literal_of k.now) (literal_of l.now) }
{
    has_head_of(l, k) && swaps_sides(c, &k.atom, &l.atom)
}

/// The literals behind the first, where that is equal to `k`.
fn behind_literal<'a>(g: &'a [Literal], k: &Literal) -> Option<&'a [Literal]>
    ensures { option_map (λ xs. literals_in xs.now) result ≡ behind_first (λ x. is_eq (literal_cmp x (literal_of k.now))) (literals_in g.now) }
{
    match g {
        [] => None,
        [x, rest @ ..] => { if x == k { Some(rest) } else { None } }
    }
}

/// The literals behind the first, where `x` is equal to that.
fn after_literal<'a>(x: &Literal, h: &'a [Literal]) -> Option<&'a [Literal]>
    ensures { option_map (λ ys. literals_in ys.now) result ≡ behind_first (λ y. is_eq (literal_cmp (literal_of x.now) y)) (literals_in h.now) }
{
    match h {
        [] => None,
        [y, rest @ ..] => { if x == y { Some(rest) } else { None } }
    }
}

#[tactic(auto, using(crate::proofs::Exchanging::same_behind))]
fn same_literals(g: &[Literal], h: &[Literal]) -> bool
    ensures { result ≡ is_eq (conj_cmp (literals_in g.now) (literals_in h.now)) }
{
    let mut left = h;
    for x in g {
        match after_literal(x, left) {
            Some(rest) => left = rest,
            None => return false,
        }
    }
    left.is_empty()
}

/// Whether `h` is `g` with one more literal, which is `l` with one term replaced.
fn joins(c: &Cited<'_>, l: &Literal, g: &[Literal], h: &[Literal]) -> bool
    ensures { result ≡ joins (swaps_literal (judge_of c.now) c.now.moment (literal_of l.now)) literal_cmp (literals_in g.now) (literals_in h.now) }
{
    let mut left = g;
    for (i, k) in h.iter().enumerate() {
        if swaps_literal(c, l, k) && same_literals(left, &h[i + 1..]) {
            return true;
        }
        match behind_literal(left, k) {
            Some(rest) => left = rest,
            None => return false,
        }
    }
    false
}

/// Whether `h` is `g` without one literal, which becomes `k` where one term is replaced.
fn leaves(c: &Cited<'_>, g: &[Literal], k: &Literal, h: &[Literal]) -> bool
    ensures { result ≡ leaves (λ l. swaps_literal (judge_of c.now) c.now.moment l (literal_of k.now)) literal_cmp (literals_in g.now) (literals_in h.now) }
{
    let mut left = h;
    for (i, x) in g.iter().enumerate() {
        if swaps_literal(c, x, k) && same_literals(&g[i + 1..], left) {
            return true;
        }
        match after_literal(x, left) {
            Some(rest) => left = rest,
            None => return false,
        }
    }
    false
}

/// Whether `h` is `l` and `g` without one literal of `g`, which becomes `k` where one term is replaced.
fn leaves_behind(c: &Cited<'_>, l: &Literal, g: &[Literal], k: &Literal, h: &[Literal]) -> bool
    ensures { result ≡ leaves_behind (λ l. swaps_literal (judge_of c.now) c.now.moment l (literal_of k.now)) literal_cmp (literal_of l.now) (literals_in g.now) (literals_in h.now) }
{
    match after_literal(l, h) {
        Some(rest) => leaves(c, g, k, rest),
        None => false,
    }
}

/// Whether `h` begins with what a literal of `g` becomes where one term is replaced, and goes on as `l` and `g` without that.
fn becomes_first(c: &Cited<'_>, l: &Literal, g: &[Literal], h: &[Literal]) -> bool
    ensures { result ≡ becomes_first (swaps_literal (judge_of c.now) c.now.moment) literal_cmp (literal_of l.now) (literals_in g.now) (literals_in h.now) }
{
    match h {
        [] => false,
        [k, rest @ ..] => leaves_behind(c, l, g, k, rest),
    }
}

/// Whether `h` is `g` with one term replaced in one literal, wherever that then stands.
fn swaps_members(c: &Cited<'_>, g: &[Literal], h: &[Literal]) -> bool
    ensures { result ≡ exchanges (swaps_literal (judge_of c.now) c.now.moment) literal_cmp (literals_in g.now) (literals_in h.now) }
{
    let mut left = h;
    for (i, x) in g.iter().enumerate() {
        let others = &g[i + 1..];
        if joins(c, x, others, left) || becomes_first(c, x, others, left) {
            return true;
        }
        match after_literal(x, left) {
            Some(rest) => left = rest,
            None => return false,
        }
    }
    false
}

fn is_not_above(l: &Literal, k: &Literal) -> bool
    ensures { result ≡ not (is_gt (literal_cmp (literal_of l.now) (literal_of k.now))) }
{
    match l.cmp(k) {
        Ordering::Less | Ordering::Equal => true,
        Ordering::Greater => false,
    }
}

fn is_above_none(l: &Literal, ls: &[Literal]) -> bool
    ensures { result ≡ list_all (λ k. not (is_gt (literal_cmp (literal_of l.now) k))) (literals_in ls.now) }
{
    for k in ls {
        if !is_not_above(l, k) {
            return false;
        }
    }
    true
}

fn are_in_order(ls: &[Literal]) -> bool
    ensures { result ≡ are_in_order (literals_in ls.now) }
{
    for (i, l) in ls.iter().enumerate() {
        if !is_above_none(l, &ls[i + 1..]) {
            return false;
        }
    }
    true
}

#[tactic(auto, using(crate::proofs::Exchanging::group_exchanged))]
fn swaps_group(c: &Cited<'_>, g: &[Literal], h: &[Literal]) -> bool
    ensures { result ≡ swaps_group (judge_of c.now) c.now.moment (literals_in g.now) (literals_in h.now) }
{
    are_in_order(h) && swaps_members(c, g, h)
}

#[tactic(auto, unfolding(pks_terms::specs::Orders::term_eq))]
fn same_slot(slot: &Option<Term>, other: &Option<Term>) -> bool
    ensures { result ≡ same_slot (option_map term_of slot.now) (option_map term_of other.now) }
{
    match slot {
        None => match other {
            None => true,
            Some(_) => false,
        },
        Some(t) => match other {
            None => false,
            Some(u) => t == u,
        },
    }
}

fn same_slots(slots: &[Option<Term>], others: &[Option<Term>]) -> bool
    ensures { result ≡ pointwise same_slot (map (option_map term_of) slots.now) (map (option_map term_of) others.now) }
{
    match slots {
        [] => match others {
            [] => true,
            [_, ..] => false,
        },
        [slot, slots @ ..] => match others {
            [] => false,
            [other, others @ ..] => same_slot(slot, other) && same_slots(slots, others),
        },
    }
}

fn swaps_slot(c: &Cited<'_>, slot: &Option<Term>, other: &Option<Term>) -> bool
    ensures { result ≡ swaps_slot (judge_of c.now) c.now.moment (option_map term_of slot.now) (option_map term_of other.now) }
{
    match slot {
        None => false,
        Some(t) => match other {
            None => false,
            Some(u) => swaps_term(c, t, u),
        },
    }
}

fn one_slot_swapped(c: &Cited<'_>, slots: &[Option<Term>], others: &[Option<Term>]) -> bool
    ensures { result ≡ one_swapped same_slot (swaps_slot (judge_of c.now) c.now.moment) (map (option_map term_of) slots.now) (map (option_map term_of) others.now) }
{
    match slots {
        [] => false,
        [slot, slots @ ..] => match others {
            [] => false,
            [other, others @ ..] => (swaps_slot(c, slot, other) && same_slots(slots, others))
                || (same_slot(slot, other) && one_slot_swapped(c, slots, others)),
        },
    }
}

fn swaps_pattern(c: &Cited<'_>, x: &Pattern, y: &Pattern) -> bool
    ensures { result ≡ swaps_pattern (judge_of c.now) c.now.moment (pattern_of x.now) (pattern_of y.now) }
{
    x.pred.0 == y.pred.0 && one_slot_swapped(c, front(&x.args, x.n), front(&y.args, y.n))
}

fn swaps_atom(c: &Cited<'_>, a: &PredAtom, b: &PredAtom) -> bool
    ensures { result ≡ swaps_atom (judge_of c.now) c.now.moment (atom_of a.now) (atom_of b.now) }
{
    a.pred.0 == b.pred.0 && swaps_terms(c, front(&a.args, a.n), front(&b.args, b.n))
}

/// The atoms behind the first, where that is equal to `k`.
fn behind_atom<'a>(g: &'a [PredAtom], k: &PredAtom) -> Option<&'a [PredAtom]>
    ensures { option_map (λ xs. atoms_of xs.now) result ≡ behind_first (λ x. is_eq (atom_cmp x (atom_of k.now))) (atoms_of g.now) }
{
    match g {
        [] => None,
        [x, rest @ ..] => { if x == k { Some(rest) } else { None } }
    }
}

/// The atoms behind the first, where `x` is equal to that.
fn after_atom<'a>(x: &PredAtom, h: &'a [PredAtom]) -> Option<&'a [PredAtom]>
    ensures { option_map (λ ys. atoms_of ys.now) result ≡ behind_first (λ y. is_eq (atom_cmp (atom_of x.now) y)) (atoms_of h.now) }
{
    match h {
        [] => None,
        [y, rest @ ..] => { if x == y { Some(rest) } else { None } }
    }
}

#[tactic(auto, using(crate::proofs::Exchanging::same_behind))]
fn same_atoms(g: &[PredAtom], h: &[PredAtom]) -> bool
    ensures { result ≡ same_atoms (atoms_of g.now) (atoms_of h.now) }
{
    let mut left = h;
    for x in g {
        match after_atom(x, left) {
            Some(rest) => left = rest,
            None => return false,
        }
    }
    left.is_empty()
}

/// Whether `h` is `g` with one more atom, which is `a` with one term replaced.
fn atom_joins(c: &Cited<'_>, a: &PredAtom, g: &[PredAtom], h: &[PredAtom]) -> bool
    ensures { result ≡ joins (swaps_atom (judge_of c.now) c.now.moment (atom_of a.now)) atom_cmp (atoms_of g.now) (atoms_of h.now) }
{
    let mut left = g;
    for (i, k) in h.iter().enumerate() {
        if swaps_atom(c, a, k) && same_atoms(left, &h[i + 1..]) {
            return true;
        }
        match behind_atom(left, k) {
            Some(rest) => left = rest,
            None => return false,
        }
    }
    false
}

/// Whether the atom becomes one of these where one term is replaced.
fn becomes_some(c: &Cited<'_>, a: &PredAtom, atoms: &[PredAtom]) -> bool
    ensures { result ≡ list_any (swaps_atom (judge_of c.now) c.now.moment (atom_of a.now)) (atoms_of atoms.now) }
{
    for b in atoms {
        if swaps_atom(c, a, b) {
            return true;
        }
    }
    false
}

/// Whether `h` is `g` without one atom, which becomes one of these where one term is replaced.
fn atom_leaves(c: &Cited<'_>, g: &[PredAtom], atoms: &[PredAtom], h: &[PredAtom]) -> bool
    ensures { result ≡ leaves (λ a. list_any (swaps_atom (judge_of c.now) c.now.moment a) (atoms_of atoms.now)) atom_cmp (atoms_of g.now) (atoms_of h.now) }
{
    let mut left = h;
    for (i, x) in g.iter().enumerate() {
        if becomes_some(c, x, atoms) && same_atoms(&g[i + 1..], left) {
            return true;
        }
        match after_atom(x, left) {
            Some(rest) => left = rest,
            None => return false,
        }
    }
    false
}

/// Whether `h` is `a` and `g` without one atom of `g`, which becomes the first of these where one term is replaced.
fn atom_leaves_behind(
    c: &Cited<'_>,
    a: &PredAtom,
    g: &[PredAtom],
    b: &PredAtom,
    h: &[PredAtom],
) -> bool
    ensures { result ≡ leaves_behind (λ a. swaps_atom (judge_of c.now) c.now.moment a (atom_of b.now)) atom_cmp (atom_of a.now) (atoms_of g.now) (atoms_of h.now) }
{
    match after_atom(a, h) {
        Some(rest) => atom_becomes(c, g, b, rest),
        None => false,
    }
}

/// Whether `h` is `g` without one atom, which becomes `b` where one term is replaced.
fn atom_becomes(c: &Cited<'_>, g: &[PredAtom], b: &PredAtom, h: &[PredAtom]) -> bool
    ensures { result ≡ leaves (λ a. swaps_atom (judge_of c.now) c.now.moment a (atom_of b.now)) atom_cmp (atoms_of g.now) (atoms_of h.now) }
{
    let mut left = h;
    for (i, x) in g.iter().enumerate() {
        if swaps_atom(c, x, b) && same_atoms(&g[i + 1..], left) {
            return true;
        }
        match after_atom(x, left) {
            Some(rest) => left = rest,
            None => return false,
        }
    }
    false
}

/// Whether `h` begins with what an atom of `g` becomes where one term is replaced, and goes on as `a` and `g` without that.
fn atom_becomes_first(c: &Cited<'_>, a: &PredAtom, g: &[PredAtom], h: &[PredAtom]) -> bool
    ensures { result ≡ becomes_first (swaps_atom (judge_of c.now) c.now.moment) atom_cmp (atom_of a.now) (atoms_of g.now) (atoms_of h.now) }
{
    match h {
        [] => false,
        [b, rest @ ..] => atom_leaves_behind(c, a, g, b, rest),
    }
}

/// Whether `h` is `g` with one term replaced in one atom, wherever that then stands.
fn swaps_atoms(c: &Cited<'_>, g: &[PredAtom], h: &[PredAtom]) -> bool
    ensures { result ≡ exchanges (swaps_atom (judge_of c.now) c.now.moment) atom_cmp (atoms_of g.now) (atoms_of h.now) }
{
    let mut left = h;
    for (i, x) in g.iter().enumerate() {
        let others = &g[i + 1..];
        if atom_joins(c, x, others, left) || atom_becomes_first(c, x, others, left) {
            return true;
        }
        match after_atom(x, left) {
            Some(rest) => left = rest,
            None => return false,
        }
    }
    false
}

/// Whether the list is the other with one term replaced in one atom, which was there already or not.
#[tactic(auto, using(crate::proofs::Exchanging::listed_exchanged))]
fn swaps_listed(c: &Cited<'_>, g: &[PredAtom], h: &[PredAtom]) -> bool
    ensures { result ≡ swaps_listed (judge_of c.now) c.now.moment (atoms_of g.now) (atoms_of h.now) }
{
    swaps_atoms(c, g, h) || atom_leaves(c, g, h, h)
}

fn swaps_region(c: &Cited<'_>, e: &Entry, r: &Entry) -> bool
    ensures { result ≡ swaps_region (judge_of c.now) c.now.moment (entry_of e.now) (entry_of r.now) }
{
    let (old, new) = (e.list.as_slice(), r.list.as_slice());
    (swaps_pattern(c, &e.pattern, &r.pattern) && same_atoms(old, new))
        || (e.pattern == r.pattern && swaps_listed(c, old, new))
}

/// Whether the fact is the cited one with one term replaced in one place.
fn swaps(c: &Cited<'_>, cited: &Fact, f: &Fact) -> bool
    ensures { result ≡ swaps (judge_of c.now) c.now.moment (fact_of cited.now) (fact_of f.now) }
{
    match cited {
        Fact::Lit(k) => match f {
            Fact::Lit(l) => swaps_literal(c, k, l),
            Fact::Kx(_) | Fact::Lcw(_) => false,
        },
        Fact::Kx(g) => match f {
            Fact::Kx(h) => swaps_group(c, g.as_slice(), h.as_slice()),
            Fact::Lit(_) | Fact::Lcw(_) => false,
        },
        Fact::Lcw(e) => match f {
            Fact::Lcw(r) => swaps_region(c, e, r),
            Fact::Lit(_) | Fact::Kx(_) => false,
        },
    }
}

fn line_swaps(c: &Cited<'_>, number: u32, f: &Fact) -> bool
    ensures { result ≡ option_map_or (λ x. swaps (judge_of c.now) c.now.moment x (fact_of f.now)) (option_and_then (fact_then c.now.moment) (nth (lines_of c.now.lines.now) number)) false }
{
    match fact_at(c.lines, c.moment, number) {
        Some(cited) => swaps(c, cited, f),
        None => false,
    }
}

#[tactic(auto, using(crate::proofs::Citing::any_cited))]
fn some_swaps(c: &Cited<'_>, numbers: &[u32], f: &Fact) -> bool
    ensures { result ≡ list_any (λ x. swaps (judge_of c.now) c.now.moment x (fact_of f.now)) (by_cited (lines_of c.now.lines.now) numbers.now c.now.moment) }
{
    for n in numbers {
        if line_swaps(c, *n, f) {
            return true;
        }
    }
    false
}

/// `swap`: whether the fact is a cited one with one term replaced by another in one place, the equation of the two cited. It
/// takes no memory.
pub fn is_swapped(c: &Cited<'_>, f: &Fact) -> bool
    ensures { result ≡ is_swapped (judge_of c.now) c.now.moment (fact_of f.now) }
{
    some_swaps(c, c.numbers, f)
}
