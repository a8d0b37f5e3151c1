//! The reason `given`: what an initial item says. `docs/REASONS.md` has the rules.
ghost use Rattle.std.specs.Prelude.{◌≡◌, ◌&&◌, ◌==◌, slice_get, false};
ghost use Rattle.std.specs.List.{list_all};
ghost use Rattle.std.specs.Option.{option_map, option_map_or};
ghost use Rattle.std.specs.Ordering.{is_eq};
ghost use Rattle.pks_terms.specs.Databases.{entry_cmp};
ghost use Rattle.pks_terms.specs.Problems.{initial, initial_entry};
ghost use Rattle.pks_terms.specs.Views.{atom_of, literal_of, pattern_of, start_of, problem_of};
ghost use Rattle.pks_terms.specs.Judging.{fact_eq};
ghost use Rattle.pks_terms.specs.Proofs.{nth};
ghost use Rattle.pks_terms.specs.Reasons.{said_by, is_given_item, is_listed};
ghost use Rattle.pks_lcw.specs.Entries.{atoms_of, entry_of};
ghost use Rattle.pks_proof_lines.specs.ProofViews.{fact_of};
ghost use Rattle.pks_proof_cited.specs.Givens.{starts_of, positive_atom, atom_said, says, is_said, is_taken};

use pks_lcw::Entry;
use pks_proof_lines::Fact;
use pks_terms::ids::PredId;
use pks_terms::literal::{Atom, Literal, Pattern, PredAtom};
use pks_terms::problem::{Init, InitItem, Problem};

/// Whether the atom is one of the list. It takes no memory.
pub fn is_listed(atoms: &[PredAtom], b: &PredAtom) -> bool
    ensures { result ≡ is_listed (atoms_of atoms.now) (atom_of b.now) }
{
    for a in atoms {
        if a == b {
            return true;
        }
    }
    false
}

/// The atom of a positive literal.
fn atom_in(l: &Literal) -> Option<&PredAtom>
    ensures { option_map (λ a. atom_of a.now) result ≡ positive_atom (literal_of l.now) }
{
    match &l.atom {
        Atom::Eq { .. } => None,
        Atom::Pred(a) => { if l.positive { Some(a) } else { None } }
    }
}

/// The atom that an item says to be true.
fn atom_said(item: &InitItem) -> Option<&PredAtom>
    ensures { option_map (λ a. atom_of a.now) result ≡ atom_said (start_of item.now.start) }
{
    match &item.start {
        Init::Kf(l) => atom_in(l),
        Init::Kw(_) | Init::Kv(_) | Init::Kx(_) | Init::Lcw(_) => None,
    }
}

/// Whether one of the items says that the atom is true.
fn is_said(items: &[InitItem], a: &PredAtom) -> bool
    ensures { result ≡ is_said (starts_of items.now) (atom_of a.now) }
{
    for item in items {
        if says(item, a) {
            return true;
        }
    }
    false
}

fn says(item: &InitItem, a: &PredAtom) -> bool
    ensures { result ≡ says (start_of item.now.start) (atom_of a.now) }
{
    match atom_said(item) {
        Some(b) => b == a,
        None => false,
    }
}

/// Whether each of the atoms is of the predicate, and said to be true by one of the items.
fn are_said(items: &[InitItem], pred: PredId, atoms: &[PredAtom]) -> bool
    ensures { result ≡ list_all (λ a. (a.predicate == pred.0) && is_said (starts_of items.now) a) (atoms_of atoms.now) }
{
    for a in atoms {
        if a.pred.0 != pred.0 || !is_said(items, a) {
            return false;
        }
    }
    true
}

/// Whether the atom that the item says to be true, if it is one of the predicate, is listed.
fn is_taken(item: &InitItem, pred: PredId, atoms: &[PredAtom]) -> bool
    ensures { result ≡ is_taken pred.0 (atoms_of atoms.now) (start_of item.now.start) }
{
    match atom_said(item) {
        Some(a) => a.pred.0 != pred.0 || is_listed(atoms, a),
        None => true,
    }
}

fn are_taken(items: &[InitItem], pred: PredId, atoms: &[PredAtom]) -> bool
    ensures { result ≡ list_all (is_taken pred.0 (atoms_of atoms.now)) (starts_of items.now) }
{
    for item in items {
        if !is_taken(item, pred, atoms) {
            return false;
        }
    }
    true
}

/// Whether the region is that of an initial item with this pattern: its list is what the items say of the predicate.
fn is_initial_region(p: &Problem<'_>, x: &Pattern, e: &Entry) -> bool
    ensures { result ≡ is_eq (entry_cmp (initial_entry (initial (problem_of p.now)).kf (pattern_of x.now)) (entry_of e.now)) }
{
    let (items, atoms) = (p.init.as_slice(), e.list.as_slice());
    *x == e.pattern && (are_said(items, x.pred, atoms) && are_taken(items, x.pred, atoms))
}

/// Whether the item says the fact.
#[tactic(auto, unfolding(pks_terms::specs::Orders::literal_eq))]
fn says_fact(p: &Problem<'_>, item: &Init, f: &Fact) -> bool
    ensures { result ≡ option_map_or (λ g. fact_eq g (fact_of f.now)) (said_by (problem_of p.now) (start_of item.now)) false }
{
    match item {
        Init::Kw(_) | Init::Kv(_) => false,
        Init::Kf(l) => match f {
            Fact::Lit(k) => l == k,
            Fact::Kx(_) | Fact::Lcw(_) => false,
        },
        Init::Kx(g) => match f {
            Fact::Kx(h) => g == h,
            Fact::Lit(_) | Fact::Lcw(_) => false,
        },
        Init::Lcw(x) => match f {
            Fact::Lcw(e) => is_initial_region(p, x, e),
            Fact::Lit(_) | Fact::Kx(_) => false,
        },
    }
}

/// `given`: whether the n-th initial item, counted from 1, says the fact, at moment 0. It takes no memory.
pub fn is_given_item(p: &Problem<'_>, n: u32, moment: u64, f: &Fact) -> bool
    ensures { result ≡ is_given_item (problem_of p.now) n moment (fact_of f.now) }
{
    moment == 0 && says_nth(p, p.init.as_slice(), n, f)
}

/// The item at an index.
fn item_at(items: &[InitItem], index: usize) -> Option<&InitItem>
    ensures { option_map (λ x. start_of x.now.start) result ≡ slice_get (starts_of items.now) index }
{
    items.get(index)
}

/// The item of a number, counted from 1.
#[tactic(auto, using(crate::proofs::Citing::nth_before))]
fn numbered_item(items: &[InitItem], number: u32) -> Option<&InitItem>
    ensures { option_map (λ x. start_of x.now.start) result ≡ nth (starts_of items.now) number }
{
    if number == 0 {
        return None;
    }
    item_at(items, number as usize - 1)
}

fn says_nth(p: &Problem<'_>, items: &[InitItem], n: u32, f: &Fact) -> bool
    ensures { result ≡ option_map_or (λ x. option_map_or (λ g. fact_eq g (fact_of f.now)) (said_by (problem_of p.now) x) false) (nth (starts_of items.now) n) false }
{
    match numbered_item(items, n) {
        Some(item) => says_fact(p, &item.start, f),
        None => false,
    }
}
