//! Normal forms of atoms, and of the lists of regions. `docs/RULES.md` has the rule.
ghost use Rattle.std.specs.Prelude.{◌≡◌, map, IfOk};
ghost use Rattle.pks_terms.specs.Sets.{set_of};
ghost use Rattle.pks_terms.specs.Orders.{atom_cmp};
ghost use Rattle.pks_terms.specs.Closure.{normal_atom};
ghost use Rattle.pks_terms.specs.Views.{atom_of};
ghost use Rattle.pks_kf.specs.Known.{literals_of};
ghost use Rattle.pks_lcw.specs.Entries.{atoms_of};
ghost use Rattle.pks_query_lookup.specs.Own.{have_objects};

use crate::normals::Normals;
use pks_lcw::AtomSet;
use pks_terms::literal::{Arguments, PredAtom};
use pks_terms::objects::are_objects;
use pks_terms::term::front;
use std::alloc::{AllocError, Global};

/// The atom with its arguments in normal form. It takes no memory.
pub fn normal_atom(by: &Normals, a: &PredAtom) -> PredAtom
    ensures { atom_of result ≡ normal_atom (literals_of by.now.kf) (atom_of a.now) }
{
    let items = a.args;
    let given = Arguments { n: a.n, items };
    let args = by.normal_arguments(&given).items;
    PredAtom {
        pred: a.pred,
        n: a.n,
        args,
    }
}

/// Whether each argument of each of the atoms is an object, so that each atom is its own normal form.
fn have_objects(atoms: &[PredAtom]) -> bool
    ensures { result ≡ have_objects (atoms_of atoms.now) }
{
    for a in atoms {
        if !are_objects(front(&a.args, a.n)) {
            return false;
        }
    }
    true
}

/// The normal forms of the atoms, one for each.
#[tactic(auto, using(crate::proofs::Lists::read))]
fn normal_atoms(
    alloc: Global,
    by: &Normals,
    atoms: &[PredAtom],
) -> Result<Vec<PredAtom>, AllocError>
    ensures { IfOk result (λ v. atoms_of v.items ≡ map (normal_atom (literals_of by.now.kf)) (atoms_of atoms.now)) }
{
    let mut all = Vec::new(alloc);
    for a in atoms {
        all.push(normal_atom(by, a))?;
    }
    Ok(all)
}

/// The list with its atoms in normal form: equal atoms merge. A list of atoms of objects alone is shared; it is its own
/// normal form.
pub fn normal_list(alloc: Global, by: &Normals, list: &AtomSet) -> Result<AtomSet, AllocError>
    ensures { IfOk result (λ atoms. atoms_of atoms ≡ set_of atom_cmp (map (normal_atom (literals_of by.now.kf)) (atoms_of list.now))) }
{
    let listed = list.as_slice();
    if have_objects(listed) {
        let same = list.share()?;
        return Ok(same);
    }
    let all = normal_atoms(alloc, by, listed)?;
    let set = AtomSet::of(alloc, all)?;
    Ok(set)
}
