//! The databases of the initial items, not closed. `docs/RULES.md` has the rule on regions.
ghost use Rattle.std.specs.Prelude.{◌≡◌, [], map, option_map, IfOk, OnOk, IfSome};
ghost use Rattle.std.specs.List.{filter_map};
ghost use Rattle.pks_terms.specs.Sets.{added};
ghost use Rattle.pks_terms.specs.Problems.{atom_on, initial_entry, initial};
ghost use Rattle.pks_terms.specs.Views.{atom_of, literal_of, pattern_of, problem_of};
ghost use Rattle.pks_kf.specs.Known.{literals_of};
ghost use Rattle.pks_lcw.specs.Entries.{atoms_of, entry_of, entries_of};
ghost use Rattle.pks_query_lookup.specs.Fives.{five_of};
ghost use Rattle.pks_query.specs.Starts.{AreKnownLists, AreSorted, known_list, starts_of};

use pks_kf::Kf;
use pks_lcw::{AtomSet, Entry};
use pks_pmap_set::set::SetOf;
use pks_query_lookup::five::Five;
use pks_terms::group::Group;
use pks_terms::ids::PredId;
use pks_terms::literal::{Atom, Conj, Literal, Pattern, PredAtom};
use pks_terms::problem::{Init, InitItem, Problem};
use pks_terms::term::Term;
use std::alloc::{AllocError, Global};

/// What the initial items say, each kind in written order.
#[derive(Drop)]
struct ItemsByKind {
    known: Vec<Literal>,
    whether: Vec<Conj>,
    values: Vec<Term>,
    groups: Vec<Group>,
    regions: Vec<Pattern>,
}

/// The initial items sorted by kind.
fn sorted_items(alloc: Global, init: &[InitItem]) -> Result<ItemsByKind, AllocError>
    ensures { IfOk result (AreSorted (starts_of init.now)) }
{
    let mut sorted = ItemsByKind {
        known: Vec::new(alloc),
        whether: Vec::new(alloc),
        values: Vec::new(alloc),
        groups: Vec::new(alloc),
        regions: Vec::new(alloc),
    };
    for item in init {
        match &item.start {
            Init::Kf(l) => sorted.known.push(*l)?,
            Init::Kw(c) => sorted.whether.push(*c)?,
            Init::Kv(t) => sorted.values.push(*t)?,
            Init::Kx(g) => sorted.groups.push(g.copy()?)?,
            Init::Lcw(pattern) => sorted.regions.push(*pattern)?,
        }
    }
    Ok(sorted)
}

/// The atom of the literal, where it is a positive one of the predicate.
fn atom_on(pred: PredId, l: &Literal) -> Option<PredAtom>
    ensures { option_map atom_of result ≡ atom_on pred.0 (literal_of l.now) }
{
    match &l.atom {
        Atom::Pred(a) if a.pred == pred && l.positive => Some(*a),
        Atom::Pred(_) | Atom::Eq { .. } => None,
    }
}

/// The known atoms of the predicate in the order of the literals.
fn atoms_on(alloc: Global, kf: &Kf, pred: PredId) -> Result<Vec<PredAtom>, AllocError>
    ensures { IfOk result (λ v. atoms_of v.items ≡ filter_map (atom_on pred.0) (literals_of kf.now)) }
{
    let mut atoms = Vec::new(alloc);
    for l in kf.items() {
        if let Some(a) = atom_on(pred, l) {
            atoms.push(a)?;
        }
    }
    Ok(atoms)
}

/// The set of the known atoms of the predicate.
fn known_atoms(alloc: Global, kf: &Kf, pred: PredId) -> Result<AtomSet, AllocError>
    ensures { IfOk result (λ set. atoms_of set ≡ known_list (literals_of kf.now) pred.0) }
{
    let atoms = atoms_on(alloc, kf, pred)?;
    let set = AtomSet::of(alloc, atoms)?;
    Ok(set)
}

/// The list that was made for the predicate, if one was.
fn list_on<'a>(kf: &Kf, lists: &'a [(PredId, AtomSet)], pred: PredId) -> Option<&'a AtomSet>
    requires { AreKnownLists (literals_of kf.now) lists.now }
    ensures { IfSome result (λ set. atoms_of set.now ≡ known_list (literals_of kf.now) pred.0) }
{
    match lists {
        [] => None,
        [list, rest @ ..] => {
            if list.0.0 == pred.0 {
                Some(&list.1)
            } else {
                list_on(kf, rest, pred)
            }
        }
    }
}

/// The set of the known atoms of the predicate. It is made once, and shared from then on.
fn list(
    alloc: Global,
    kf: &Kf,
    lists: &mut Vec<(PredId, AtomSet)>,
    pred: PredId,
) -> Result<AtomSet, AllocError>
    requires { AreKnownLists (literals_of kf.now) lists.now.items }
    ensures list { IfOk result (λ set. atoms_of set ≡ known_list (literals_of kf.now) pred.0) }
    ensures lists { OnOk result (AreKnownLists (literals_of kf.now) lists.new.items) }
{
    if let Some(set) = list_on(kf, lists.as_slice(), pred) {
        return set.share();
    }
    let set = known_atoms(alloc, kf, pred)?;
    let same = set.share()?;
    lists.push((pred, same))?;
    Ok(set)
}

/// The region of the pattern, with the known atoms of its predicate.
fn region(
    alloc: Global,
    kf: &Kf,
    lists: &mut Vec<(PredId, AtomSet)>,
    pattern: &Pattern,
) -> Result<Entry, AllocError>
    requires { AreKnownLists (literals_of kf.now) lists.now.items }
    ensures region { IfOk result (λ e. entry_of e ≡ initial_entry (literals_of kf.now) (pattern_of pattern.now)) }
    ensures lists { OnOk result (AreKnownLists (literals_of kf.now) lists.new.items) }
{
    let list = list(alloc, kf, lists, pattern.pred)?;
    Ok(Entry {
        pattern: *pattern,
        list,
    })
}

/// The closed regions in written order. Those of one predicate share their list.
fn regions(alloc: Global, kf: &Kf, patterns: &[Pattern]) -> Result<Vec<Entry>, AllocError>
    ensures { IfOk result (λ items. entries_of items.items ≡ map (initial_entry (literals_of kf.now)) (map pattern_of patterns.now)) }
{
    let mut lists = Vec::new(alloc);
    let mut items = Vec::new(alloc);
    for pattern in patterns {
        items.push(region(alloc, kf, &mut lists, pattern)?)?;
    }
    Ok(items)
}

/// The databases of the problem's initial items, not closed. The error is want of memory.
pub fn initial(alloc: Global, p: &Problem) -> Result<Five, AllocError>
    ensures { IfOk result (λ d. five_of d ≡ initial (problem_of p.now)) }
{
    let sorted = sorted_items(alloc, p.init.as_slice())?;
    let kf = SetOf::of(alloc, sorted.known)?;
    let kw = SetOf::of(alloc, sorted.whether)?;
    let kv = SetOf::of(alloc, sorted.values)?;
    let kx = SetOf::of(alloc, sorted.groups)?;
    let entries = regions(alloc, &kf, sorted.regions.as_slice())?;
    let lcw = SetOf::of(alloc, entries)?;
    Ok(Five {
        kf,
        kw,
        kv,
        kx,
        lcw,
    })
}
