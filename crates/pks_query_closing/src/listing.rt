//! Regions of the same predicate with the same list: what is asked of a list is asked once.
ghost use Rattle.std.specs.Prelude.{◌≡◌, IsTrue, IfOk, OnOk, false};
ghost use Rattle.std.specs.List.{list_any};
ghost use Rattle.std.specs.Cmp.Lexicographic.{slice_cmp};
ghost use Rattle.pks_terms.specs.Syntax.{negated};
ghost use Rattle.pks_terms.specs.Orders.{atom_cmp};
ghost use Rattle.pks_terms.specs.Databases.{holds, is_shut_out, is_closed_off};
ghost use Rattle.pks_terms.specs.Views.{atom_of, literal_of, signature_of};
ghost use Rattle.pks_pmap_set.specs.Members.{is_member};
ghost use Rattle.pks_kf.specs.Known.{literals_of};
ghost use Rattle.pks_lcw.specs.Entries.{atoms_of, entry_of, entries_of};
ghost use Rattle.pks_query_lookup.specs.Fives.{five_of};
ghost use Rattle.pks_query_closing.specs.Listing.{all_pass, StandFor, StandForOne, spares};

use pks_lcw::{AtomSet, Entry, Lcw};
use pks_query_lookup::derived::Derived;
use pks_terms::literal::{Atom, Literal, PredAtom};
use pks_terms::problem::Signature;
use pks_terms::term::front;
use std::alloc::{AllocError, Global};
use std::cmp::Ordering;

/// The order of lists: atom by atom, a prefix first.
fn cmp_lists(a: &AtomSet, b: &AtomSet) -> Ordering
    ensures { result ≡ slice_cmp atom_cmp (atoms_of a.now) (atoms_of b.now) }
{
    a.as_slice().cmp(&b.as_slice())
}

/// Whether the lists have the same atoms.
fn is_same_list(a: &AtomSet, b: &AtomSet) -> bool
    ensures { IsTrue result → atoms_of a.now ≡ atoms_of b.now }
{
    match cmp_lists(a, b) {
        Ordering::Equal => true,
        Ordering::Less | Ordering::Greater => false,
    }
}

/// Whether the regions have the same predicate, and list the same atoms.
fn are_alike(a: &Entry, b: &Entry) -> bool
    ensures predicate { IsTrue result → (entry_of a.now).pattern.predicate ≡ (entry_of b.now).pattern.predicate }
    ensures listed { IsTrue result → (entry_of a.now).listed ≡ (entry_of b.now).listed }
{
    a.pattern.pred.0 == b.pattern.pred.0 && is_same_list(&a.list, &b.list)
}

/// Whether the last of the regions is like this one.
fn is_like_last(kinds: &[Entry], region: &Entry) -> bool
    ensures { IsTrue result → StandForOne (entries_of kinds.now) (entry_of region.now) }
{
    match kinds.last() {
        Some(last) => are_alike(last, region),
        None => false,
    }
}

/// Puts the region after the others, unless it is like the last of them.
fn put_kind(to: &mut Vec<Entry>, region: &Entry) -> Result<(), AllocError>
    ensures old { OnOk result (StandFor (entries_of to.new.items) (entries_of to.old.items)) }
    ensures one { OnOk result (StandForOne (entries_of to.new.items) (entry_of region.now)) }
{
    if is_like_last(to.as_slice(), region) {
        return Ok(());
    }
    let same = region.share()?;
    to.push(same)?;
    Ok(())
}

/// Regions that stand for all: one of those that follow one another and have the same predicate and the same list. The
/// error is want of memory.
pub(crate) fn kinds(alloc: Global, regions: &Lcw) -> Result<Vec<Entry>, AllocError>
    ensures { IfOk result (λ v. StandFor (entries_of v.items) (entries_of regions.now)) }
{
    let mut kinds = Vec::new(alloc);
    for region in regions.items() {
        put_kind(&mut kinds, region)?;
    }
    Ok(kinds)
}

/// Whether the list has the atom.
fn lists(list: &AtomSet, a: &PredAtom) -> bool
    ensures { result ≡ is_member atom_cmp (atom_of a.now) (atoms_of list.now) }
{
    list.has(a)
}

/// Whether the region has another predicate, or lists the atom.
fn spares(region: &Entry, a: &PredAtom) -> bool
    ensures { result ≡ spares (atom_of a.now) (entry_of region.now).pattern.predicate (entry_of region.now).listed }
{
    region.pattern.pred.0 != a.pred.0 || lists(&region.list, a)
}

/// Whether each of the regions has another predicate, or lists the atom.
fn all_spare(kinds: &[Entry], a: &PredAtom) -> bool
    ensures { result ≡ all_pass (spares (atom_of a.now)) (entries_of kinds.now) }
{
    for region in kinds {
        if !spares(region, a) {
            return false;
        }
    }
    true
}

/// Whether each region of the atom's predicate lists it, and it doesn't differ from itself: no region tells that it is false.
fn is_spared(s: &Signature, d: &Derived, kinds: &[Entry], a: &PredAtom) -> bool
    requires { StandFor (entries_of kinds.now) (entries_of d.now.lcw) }
    ensures { IsTrue result → list_any (is_shut_out (signature_of s.now) (literals_of d.now.kf) a.now.pred.0 (atom_of a.now).arguments) (entries_of d.now.lcw) ≡ false }
{
    let args = front(&a.args, a.n);
    all_spare(kinds, a) && !d.some_differ(s, args, args)
}

/// Whether no region tells that the literal is false, as far as the lists tell.
fn is_kept_in(s: &Signature, d: &Derived, kinds: &[Entry], l: &Literal) -> bool
    requires { StandFor (entries_of kinds.now) (entries_of d.now.lcw) }
    ensures { IsTrue result → is_closed_off (signature_of s.now) (five_of d.now) (negated (literal_of l.now)).relation (negated (literal_of l.now)).arguments (negated (literal_of l.now)).positive ≡ false }
{
    match &l.atom {
        Atom::Pred(a) => l.positive && is_spared(s, d, kinds, a),
        Atom::Eq { .. } => false,
    }
}

/// Whether the negation of the literal holds, with regions that stand for all. It takes no memory.
#[tactic(auto, unfolding(pks_terms::specs::Databases::holds))]
pub(crate) fn denies(s: &Signature, d: &Derived, kinds: &[Entry], l: &Literal) -> bool
    requires { StandFor (entries_of kinds.now) (entries_of d.now.lcw) }
    ensures { result ≡ holds (signature_of s.now) (five_of d.now) (negated (literal_of l.now)) }
{
    if is_kept_in(s, d, kinds, l) {
        return d.is_plain(s, &l.negated());
    }
    d.denies(s, l)
}
