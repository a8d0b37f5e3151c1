//! Members that are their own normal forms. `docs/RULES.md` has the rule.
ghost use Rattle.std.specs.Prelude.{◌≡◌, IsTrue};
ghost use Rattle.std.specs.List.{list_all};
ghost use Rattle.pks_terms.specs.Orders.{literal_cmp};
ghost use Rattle.pks_terms.specs.Closure.{normal_entry};
ghost use Rattle.pks_terms.specs.Views.{term_of, terms_of, literal_of, literals_in, atom_of, conj_of, pattern_of};
ghost use Rattle.pks_pmap_set.specs.Members.{rises_from, rises};
ghost use Rattle.pks_kf.specs.Known.{literals_of};
ghost use Rattle.pks_lcw.specs.Entries.{atoms_of, entry_of};
ghost use Rattle.pks_query_lookup.specs.Forms.{is_normal};
ghost use Rattle.pks_query_closing.specs.Own.{never_falls_from, never_falls, is_own_formula, is_own_group, is_own_application, is_own_pattern, is_own_term, is_own_atom};

use crate::forms::normal_pattern;
use pks_lcw::Entry;
use pks_query_lookup::normals::Normals;
use pks_terms::group::Group;
use pks_terms::literal::{Conj, Literal, Pattern, PredAtom};
use pks_terms::term::{Term, front};
use std::cmp::Ordering;

#[tactic(auto, unfolding(pks_terms::specs::Orders::literal_eq))]
fn is_own_literal(by: &Normals, l: &Literal) -> bool
    ensures { result ≡ is_normal (literals_of by.now.kf) (literal_of l.now) }
{
    by.normal_literal(l) == *l
}

fn are_own_literals(by: &Normals, ls: &[Literal]) -> bool
    ensures { result ≡ list_all (is_normal (literals_of by.now.kf)) (literals_in ls.now) }
{
    for l in ls {
        if !is_own_literal(by, l) {
            return false;
        }
    }
    true
}

/// Whether each of the literals is below the next, beginning with `last`.
fn rises_from(last: &Literal, ls: &[Literal]) -> bool
    ensures { result ≡ rises_from literal_cmp (literal_of last.now) (literals_in ls.now) }
{
    match ls {
        [] => true,
        [l, ls @ ..] => last.cmp(l) == Ordering::Less && rises_from(l, ls),
    }
}

/// Whether each of the literals is below the next.
fn rises(ls: &[Literal]) -> bool
    ensures { result ≡ rises literal_cmp (literals_in ls.now) }
{
    match ls {
        [] => true,
        [l, ls @ ..] => rises_from(l, ls),
    }
}

/// Whether none of the literals is above the next, beginning with `last`.
fn never_falls_from(last: &Literal, ls: &[Literal]) -> bool
    ensures { result ≡ never_falls_from (literal_of last.now) (literals_in ls.now) }
{
    match ls {
        [] => true,
        [l, ls @ ..] => last.cmp(l) != Ordering::Greater && never_falls_from(l, ls),
    }
}

/// Whether none of the literals is above the next.
fn never_falls(ls: &[Literal]) -> bool
    ensures { result ≡ never_falls (literals_in ls.now) }
{
    match ls {
        [] => true,
        [l, ls @ ..] => never_falls_from(l, ls),
    }
}

/// Whether the formula is its own normal form. It takes no memory.
pub(crate) fn is_own_formula(by: &Normals, c: &Conj) -> bool
    ensures { result ≡ is_own_formula (literals_of by.now.kf) (conj_of c.now) }
{
    let ls = front(&c.literals, c.n);
    are_own_literals(by, ls) && rises(ls)
}

/// Whether the group is its own normal form. It takes no memory.
pub(crate) fn is_own_group(by: &Normals, g: &Group) -> bool
    ensures { result ≡ is_own_group (literals_of by.now.kf) (literals_in g.now) }
{
    let ls = g.as_slice();
    are_own_literals(by, ls) && never_falls(ls)
}

/// Whether the term is an application and its own normal form. It takes no memory.
#[tactic(auto, unfolding(pks_terms::specs::Orders::term_eq))]
pub(crate) fn is_own_application(by: &Normals, t: &Term) -> bool
    ensures { result ≡ is_own_application (literals_of by.now.kf) (term_of t.now) }
{
    match t {
        Term::Obj(_) | Term::Param(_) => false,
        Term::App { .. } => by.normal(t) == *t,
    }
}

fn is_own_pattern(by: &Normals, p: &Pattern) -> bool
    ensures { result ≡ is_own_pattern (literals_of by.now.kf) (pattern_of p.now) }
{
    normal_pattern(by, p) == *p
}

/// Whether the term is its own normal form, as an object always is.
#[tactic(auto, unfolding(pks_terms::specs::Orders::term_eq))]
fn is_own_term(by: &Normals, t: &Term) -> bool
    ensures { result ≡ is_own_term (literals_of by.now.kf) (term_of t.now) }
{
    match t {
        Term::Obj(_) => true,
        Term::Param(_) | Term::App { .. } => by.normal(t) == *t,
    }
}

fn are_own_terms(by: &Normals, ts: &[Term]) -> bool
    ensures { result ≡ list_all (is_own_term (literals_of by.now.kf)) (terms_of ts.now) }
{
    for t in ts {
        if !is_own_term(by, t) {
            return false;
        }
    }
    true
}

fn is_own_atom(by: &Normals, a: &PredAtom) -> bool
    ensures { result ≡ is_own_atom (literals_of by.now.kf) (atom_of a.now) }
{
    are_own_terms(by, front(&a.args, a.n))
}

fn are_own_atoms(by: &Normals, atoms: &[PredAtom]) -> bool
    ensures { result ≡ list_all (is_own_atom (literals_of by.now.kf)) (atoms_of atoms.now) }
{
    for a in atoms {
        if !is_own_atom(by, a) {
            return false;
        }
    }
    true
}

/// Whether the region is its own normal form. It takes no memory.
pub(crate) fn is_own_region(by: &Normals, e: &Entry) -> bool
    ensures { IsTrue result → normal_entry (literals_of by.now.kf) (entry_of e.now) ≡ entry_of e.now }
{
    let listed = e.list.as_slice();
    is_own_pattern(by, &e.pattern) && are_own_atoms(by, listed)
}
