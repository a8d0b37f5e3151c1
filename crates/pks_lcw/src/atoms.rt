//! Sets of atoms.
ghost use Rattle.std.specs.Prelude.{◌≡◌, ◌≤◌, ◌++◌, List, [], ◌∷◌, IfOk, length, false};
ghost use Rattle.std.specs.Fn.{FnReturnsAt};
ghost use Rattle.std.specs.Iterator.{YieldsFirstRef, item_count};
ghost use Rattle.std.specs.Ordering.{on};
ghost use Rattle.pks_terms.specs.Orders.{atom_cmp};
ghost use Rattle.pks_terms.specs.Views.{atom_of};
ghost use Rattle.pks_terms.specs.Sets.{IsOrdered, insert_in, added};
ghost use Rattle.pks_pmap.specs.Keeping.{Keeps};
ghost use Rattle.pks_pmap_set.specs.Members.{TakesEach, is_member};
ghost use Rattle.pks_terms.specs.Placing.{count_below};

use pks_pmap_set::set::SetOf;
use pks_terms::literal::PredAtom;
use std::alloc::{AllocError, Global};
use std::cmp::Ordering;
use std::marker::Model;
use std::rc::RcSlice;

/// A set of atoms, seen as the list of its atoms in strict order. It is one shared slice, and nothing where it is empty.
/// `docs/RULES.md` has the order.
#[derive(Drop)]
pub struct AtomSet {
    slice: Option<RcSlice<PredAtom>>,
}

impl Model for AtomSet {
    ghost use Rattle.std.specs.Prelude.{List, []};
    ghost use Rattle.std.specs.Option.{option_map_or};
    ghost use Rattle.std.specs.Rc.{rc_slice_items};
    ghost use Rattle.std.specs.Ordering.{on};
    ghost use Rattle.pks_terms.specs.declared.literal.PredAtom.{PredAtom};
    ghost use Rattle.pks_terms.specs.Orders.{atom_cmp};
    ghost use Rattle.pks_terms.specs.Views.{atom_of};
    ghost use Rattle.pks_terms.specs.Sets.{IsOrdered};

    ghost Value = { List PredAtom };

    ghost view = { λ s. option_map_or rc_slice_items s.slice [] };

    ghost invariant = { λ s. IsOrdered (on atom_of atom_cmp) (option_map_or rc_slice_items s.slice []) };
}

/// The atoms of a set in order, seen as those that are left.
#[derive(Drop)]
pub struct AtomSetItems<'a> {
    rest: &'a [PredAtom],
}

impl<'a> Model for AtomSetItems<'a> {
    ghost use Rattle.std.specs.Prelude.{List};
    ghost use Rattle.pks_terms.specs.declared.literal.PredAtom.{PredAtom};

    ghost Value = { List PredAtom };

    ghost view = { λ i. i.rest.now };
}

impl AtomSet {
    /// The empty set. It takes no memory.
    pub fn empty() -> AtomSet
        ensures { result ≡ [] }
    {
        AtomSet { slice: None }
    }

    /// The set of these atoms. It asks that each is below all later ones.
    pub fn from_ordered(atoms: Vec<PredAtom>) -> Result<AtomSet, AllocError>
        requires { IsOrdered (on atom_of atom_cmp) atoms.items }
        ensures { IfOk result (λ set. set ≡ atoms.items) }
    {
        if atoms.is_empty() {
            return Ok(AtomSet { slice: None });
        }
        let slice = RcSlice::from_vec(atoms)?;
        Ok(AtomSet { slice: Some(slice) })
    }

    /// The set of these atoms, which come in any order, equal ones as often as they come.
    pub fn of(alloc: Global, atoms: Vec<PredAtom>) -> Result<AtomSet, AllocError>
        ensures { IfOk result (λ set. set ≡ added (on atom_of atom_cmp) [] atoms.items) }
    {
        let set = SetOf::of(alloc, atoms)?;
        let listed = slice_of(alloc, &set)?;
        Ok(listed)
    }

    /// Lends the atoms in order. It takes no memory.
    pub fn as_slice(&self) -> &[PredAtom]
        ensures members { result.now ≡ self.now }
        ensures ordered { IsOrdered (on atom_of atom_cmp) self.now }
    {
        match &self.slice {
            None => &[],
            Some(slice) => slice.as_slice(),
        }
    }

    /// Whether the atom is a member. It is compared with as many as the logarithm of their number.
    pub fn has(&self, a: &PredAtom) -> bool
        ensures { result ≡ is_member (on atom_of atom_cmp) a.now self.now }
    {
        self.as_slice().binary_search(a).is_ok()
    }

    /// How many atoms there are.
    pub fn len(&self) -> usize
        ensures { result ≡ length self.now }
    {
        self.as_slice().len()
    }

    /// The atoms in order.
    pub fn items(&self) -> AtomSetItems<'_>
        ensures members { result ≡ self.now }
        ensures ordered { IsOrdered (on atom_of atom_cmp) self.now }
    {
        AtomSetItems {
            rest: self.as_slice(),
        }
    }

    /// The same set, whose slice is shared.
    pub fn share(&self) -> Result<AtomSet, AllocError>
        ensures { IfOk result (λ same. same ≡ self.now) }
    {
        match &self.slice {
            None => Ok(AtomSet { slice: None }),
            Some(slice) => {
                let slice = slice.clone()?;
                Ok(AtomSet { slice: Some(slice) })
            }
        }
    }

    /// The set with the atom in it. Where an equal one is a member it is the same set.
    pub fn add(&self, alloc: Global, a: PredAtom) -> Result<AtomSet, AllocError>
        ensures { IfOk result (λ set. set ≡ insert_in (on atom_of atom_cmp) a self.now) }
    {
        let atoms = self.as_slice();
        if self.has(&a) {
            return self.share();
        }
        let mut more = Vec::from_slice(alloc, atoms)?;
        more.insert(place(atoms, &a), a)?;
        let slice = RcSlice::from_vec(more)?;
        Ok(AtomSet { slice: Some(slice) })
    }

    /// The atoms for which the test answers true. It asks that the test may be called on each.
    pub fn kept<F: Fn(&PredAtom) -> bool>(
        &self,
        alloc: Global,
        test: F,
    ) -> Result<AtomSet, AllocError>
        requires { TakesEach F.Fn test self.now }
        ensures { IfOk result (λ set. Keeps (FnReturnsAt F.Fn test) self.now set) }
    {
        let atoms = passing(alloc, self.as_slice(), &test)?;
        AtomSet::from_ordered(atoms)
    }
}

impl<'a> Iterator for AtomSetItems<'a> {
    type Item = &'a PredAtom;

    ghost next_gives = { YieldsFirstRef (λ s. s) };

    ghost remaining = { item_count (λ s. s) };

    fn next(&mut self) -> Option<&'a PredAtom> {
        let (first, others) = self.rest.split_first()?;
        self.rest = others;
        Some(first)
    }
}

/// The members of a set of atoms as one slice.
fn slice_of(alloc: Global, set: &SetOf<PredAtom>) -> Result<AtomSet, AllocError>
    ensures { IfOk result (λ atoms. atoms ≡ set.now) }
{
    let mut all = Vec::new(alloc);
    for a in set.items() {
        all.push(*a)?;
    }
    let _count = set.len();
    let atoms = AtomSet::from_ordered(all)?;
    Ok(atoms)
}

/// How many atoms at the front are below the atom.
fn place(atoms: &[PredAtom], a: &PredAtom) -> usize
    ensures count { result ≡ count_below (on atom_of atom_cmp) a.now atoms.now }
    ensures within { result ≤ length atoms.now }
{
    let mut below = 0;
    while below < atoms.len() && a.cmp(&atoms[below]) == Ordering::Greater {
        below += 1;
    }
    below
}

/// The atoms that pass the test.
fn passing<F: Fn(&PredAtom) -> bool>(
    alloc: Global,
    atoms: &[PredAtom],
    test: &F,
) -> Result<Vec<PredAtom>, AllocError>
    requires { TakesEach F.Fn test.now atoms.now }
    ensures { IfOk result (λ v. Keeps (FnReturnsAt F.Fn test.now) atoms.now v.items) }
{
    let mut kept = Vec::new(alloc);
    for a in atoms {
        if test(a) {
            kept.push(*a)?;
        }
    }
    Ok(kept)
}
