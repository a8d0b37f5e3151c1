//! The closed regions that last, their lists widened by what may have become true. `docs/RULES.md`, "Progression".
ghost use Rattle.std.specs.Prelude.{◌≡◌, map, IfOk};
ghost use Rattle.std.specs.List.{list_all, filter, filter_map, flat_map};
ghost use Rattle.std.specs.Option.{option_map};
ghost use Rattle.std.specs.Ordering.{on};
ghost use Rattle.pks_terms.specs.Actions.{Set, effect_at};
ghost use Rattle.pks_terms.specs.Databases.{entry_cmp};
ghost use Rattle.pks_terms.specs.Sets.{IsOrdered, set_of};
ghost use Rattle.pks_terms.specs.Progress.{fixed_terms, entry_terms, widened_by, kept_entry};
ghost use Rattle.pks_terms.specs.Spoiling.{may_fire, are_stable};
ghost use Rattle.pks_terms.specs.Views.{atom_of, effect_of, given_of, pattern_of, signature_of, term_of};
ghost use Rattle.pks_kf.specs.Known.{literals_of};
ghost use Rattle.pks_lcw.specs.Entries.{atoms_of, entry_of, entries_of};
ghost use Rattle.pks_query_lookup.specs.Fives.{five_of};
ghost use Rattle.pks_progress_interference.specs.EffectViews.{effects_in};
ghost use Rattle.pks_progress.specs.Kept.{atom_set, atoms_set, widened_with, kept_with, is_elsewhere, stays, changed_with};

use pks_lcw::{AtomSet, Entry, Lcw};
use pks_progress_interference::effects::Effects;
use pks_progress_interference::spoiled::{are_stable, is_stable};
use pks_progress_interference::targets::{may_fire, some_fixed_differ};
use pks_query_lookup::atoms::normal_atom;
use pks_query_lookup::derived::Derived;
use pks_terms::literal::{Pattern, PredAtom};
use pks_terms::problem::Signature;
use pks_terms::schema::{Effect, Instance, Target};
use pks_terms::term::{Term, front};
use std::alloc::{AllocError, Global};

/// The atom that the effect, with the arguments put in, may make true.
fn atom_set(s: &Signature, d: &Derived, e: &Effect, i: &Instance) -> Option<PredAtom>
    ensures { option_map atom_of result ≡ atom_set (may_fire (signature_of s.now) (five_of d.now) (effect_at (given_of i.now) (effect_of e.now))) (effect_at (given_of i.now) (effect_of e.now)).target }
{
    match &e.target {
        Target::Set(a) => {
            if may_fire(s, d, &e.at(i)) {
                Some(a.at(i))
            } else {
                None
            }
        }
        Target::Unset(_) | Target::Clear(_) | Target::Assign { .. } => None,
    }
}

/// The atoms that the effects may make true.
fn atoms_set(
    alloc: Global,
    s: &Signature,
    d: &Derived,
    es: Effects<'_>,
) -> Result<Vec<PredAtom>, AllocError>
    ensures { IfOk result (λ v. atoms_of v.items ≡ atoms_set (signature_of s.now) (five_of d.now) (effects_in es.entry)) }
{
    let mut atoms = Vec::new(alloc);
    for e in es.written {
        if let Some(a) = atom_set(s, d, e, es.instance) {
            atoms.push(a)?;
        }
    }
    Ok(atoms)
}

fn slots_are_stable(s: &Signature, d: &Derived, es: Effects<'_>, slots: &[Option<Term>]) -> bool
    ensures { result ≡ are_stable (signature_of s.now) (five_of d.now) (effects_in es.entry) (fixed_terms (map (option_map term_of) slots.now)) }
{
    match slots {
        [] => true,
        [slot, slots @ ..] => match slot {
            Some(t) => is_stable(s, d, es, t) && slots_are_stable(s, d, es, slots),
            None => slots_are_stable(s, d, es, slots),
        },
    }
}

#[tactic(auto, using(crate::proofs::Lasting::all))]
fn atoms_are_stable(s: &Signature, d: &Derived, es: Effects<'_>, atoms: &[PredAtom]) -> bool
    ensures { result ≡ are_stable (signature_of s.now) (five_of d.now) (effects_in es.entry) (flat_map (λ a. a.arguments) (atoms_of atoms.now)) }
{
    for a in atoms {
        if !are_stable(s, d, es, front(&a.args, a.n)) {
            return false;
        }
    }
    true
}

#[tactic(auto, using(crate::proofs::Lasting::all))]
fn entry_is_stable(s: &Signature, d: &Derived, es: Effects<'_>, r: &Entry) -> bool
    ensures { result ≡ are_stable (signature_of s.now) (five_of d.now) (effects_in es.entry) (entry_terms (entry_of r.now)) }
{
    slots_are_stable(s, d, es, front(&r.pattern.args, r.pattern.n))
        && atoms_are_stable(s, d, es, r.list.as_slice())
}

/// The list of a region with the atom, if this may be an instance, or nothing where it is one whose terms aren't stable.
#[tactic(auto, using(crate::proofs::Lasting::inserted))]
fn widened_by(
    alloc: Global,
    s: &Signature,
    d: &Derived,
    es: Effects<'_>,
    x: &Pattern,
    a: &PredAtom,
    listed: AtomSet,
) -> Result<Option<AtomSet>, AllocError>
    ensures { IfOk result (λ o. option_map atoms_of o ≡ widened_by (signature_of s.now) (five_of d.now) (effects_in es.entry) (pattern_of x.now) (Set (atom_of a.now)) (atoms_of listed)) }
{
    if is_elsewhere(s, d, x, a) {
        return Ok(Some(listed));
    }
    let normal = normal_atom(d.normals(), a);
    if !are_stable(s, d, es, front(&normal.args, normal.n)) {
        return Ok(None);
    }
    let listed = listed.add(alloc, normal)?;
    Ok(Some(listed))
}

/// The list of a region after these atoms may have become true, or nothing where the region is lost.
fn list_after(
    alloc: Global,
    s: &Signature,
    d: &Derived,
    es: Effects<'_>,
    x: &Pattern,
    atoms: &[PredAtom],
    listed: AtomSet,
) -> Result<Option<AtomSet>, AllocError>
    ensures { IfOk result (λ o. option_map atoms_of o ≡ widened_with (signature_of s.now) (five_of d.now) (effects_in es.entry) (pattern_of x.now) (atoms_of atoms.now) (atoms_of listed)) }
{
    match atoms {
        [] => Ok(Some(listed)),
        [a, atoms @ ..] => match widened_by(alloc, s, d, es, x, a, listed)? {
            Some(listed) => list_after(alloc, s, d, es, x, atoms, listed),
            None => Ok(None),
        },
    }
}

/// The region after these atoms may have become true, or nothing where it is lost. Its list is shared where it stays.
fn kept_entry(
    alloc: Global,
    s: &Signature,
    d: &Derived,
    es: Effects<'_>,
    atoms: &[PredAtom],
    r: &Entry,
) -> Result<Option<Entry>, AllocError>
    ensures { IfOk result (λ o. option_map entry_of o ≡ kept_with (signature_of s.now) (five_of d.now) (effects_in es.entry) (atoms_of atoms.now) (entry_of r.now)) }
{
    if !entry_is_stable(s, d, es, r) {
        return Ok(None);
    }
    let listed = r.list.share()?;
    let pattern = r.pattern;
    match list_after(alloc, s, d, es, &pattern, atoms, listed)? {
        Some(list) => Ok(Some(Entry { pattern, list })),
        None => Ok(None),
    }
}

fn is_elsewhere(s: &Signature, d: &Derived, x: &Pattern, a: &PredAtom) -> bool
    ensures { result ≡ is_elsewhere (signature_of s.now) (literals_of d.now.kf) (pattern_of x.now) (atom_of a.now) }
{
    a.pred.0 != x.pred.0 || some_fixed_differ(s, d, front(&x.args, x.n), front(&a.args, a.n))
}

fn are_elsewhere(s: &Signature, d: &Derived, x: &Pattern, atoms: &[PredAtom]) -> bool
    ensures { result ≡ list_all (is_elsewhere (signature_of s.now) (literals_of d.now.kf) (pattern_of x.now)) (atoms_of atoms.now) }
{
    for a in atoms {
        if !is_elsewhere(s, d, x, a) {
            return false;
        }
    }
    true
}

/// Whether the region lasts as it is.
fn stays(s: &Signature, d: &Derived, es: Effects<'_>, atoms: &[PredAtom], r: &Entry) -> bool
    ensures { result ≡ stays (signature_of s.now) (five_of d.now) (effects_in es.entry) (atoms_of atoms.now) (entry_of r.now) }
{
    entry_is_stable(s, d, es, r) && are_elsewhere(s, d, &r.pattern, atoms)
}

/// The region where it does not last as it is, or nothing where it does or is lost.
fn changed_entry(
    alloc: Global,
    s: &Signature,
    d: &Derived,
    es: Effects<'_>,
    atoms: &[PredAtom],
    r: &Entry,
) -> Result<Option<Entry>, AllocError>
    ensures { IfOk result (λ o. option_map entry_of o ≡ changed_with (signature_of s.now) (five_of d.now) (effects_in es.entry) (atoms_of atoms.now) (entry_of r.now)) }
{
    if stays(s, d, es, atoms, r) {
        return Ok(None);
    }
    let changed = kept_entry(alloc, s, d, es, atoms, r)?;
    Ok(changed)
}

/// The regions that last in another form.
fn changed_entries(
    alloc: Global,
    s: &Signature,
    d: &Derived,
    es: Effects<'_>,
    atoms: &[PredAtom],
) -> Result<Vec<Entry>, AllocError>
    ensures { IfOk result (λ v. entries_of v.items ≡ filter_map (changed_with (signature_of s.now) (five_of d.now) (effects_in es.entry) (atoms_of atoms.now)) (entries_of d.now.lcw)) }
{
    let mut changed = Vec::new(alloc);
    for r in d.five().lcw.items() {
        if let Some(entry) = changed_entry(alloc, s, d, es, atoms, r)? {
            changed.push(entry)?;
        }
    }
    Ok(changed)
}

/// The regions that last as they are. They share each part of the tree in which all do.
fn same_entries(
    alloc: Global,
    s: &Signature,
    d: &Derived,
    es: Effects<'_>,
    atoms: &[PredAtom],
) -> Result<Lcw, AllocError>
    ensures same { IfOk result (λ lcw. entries_of lcw ≡ filter (stays (signature_of s.now) (five_of d.now) (effects_in es.entry) (atoms_of atoms.now)) (entries_of d.now.lcw)) }
    ensures ordered { IfOk result (λ lcw. IsOrdered (on entry_of entry_cmp) d.now.lcw) }
{
    let before = &d.five().lcw;
    let _count = before.len();
    let same = before.kept(alloc, |r| stays(s, d, es, atoms, r))?;
    Ok(same)
}

/// The regions that last, their lists widened. What lasts as it is shares its memory.
pub(crate) fn kept_regions(
    alloc: Global,
    s: &Signature,
    d: &Derived,
    es: Effects<'_>,
) -> Result<Lcw, AllocError>
    ensures { IfOk result (λ lcw. entries_of lcw ≡ set_of entry_cmp (filter_map (kept_entry (signature_of s.now) (five_of d.now) (effects_in es.entry)) (entries_of d.now.lcw))) }
{
    let atoms = atoms_set(alloc, s, d, es)?;
    let changed = changed_entries(alloc, s, d, es, atoms.as_slice())?;
    let same = same_entries(alloc, s, d, es, atoms.as_slice())?;
    let kept = same.with_all(alloc, changed)?;
    Ok(kept)
}
