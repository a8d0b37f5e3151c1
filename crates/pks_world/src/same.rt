//! Comparing worlds, and marks by which equal ones are found among many.
ghost use Rattle.std.specs.Prelude.{◌≡◌, map, IsTrue};
ghost use Rattle.pks_terms.specs.Views.{object_of, atom_of};
ghost use Rattle.pks_world.specs.Contents.{world_of, kept_of};

use crate::worlds::World;
use pks_terms::ids::ObjId;
use pks_terms::literal::PredAtom;
use pks_terms::marks::mix;
use pks_terms::term::{Term, front};
use std::collections::{BTreeMap, BTreeSet};

/// The mark with the object mixed in.
fn with_object(mark: u64, t: &Term) -> u64 {
    match t {
        Term::Obj(d) => mix(mark, u64::from(d.0)),
        Term::Param(_) | Term::App { .. } => mark,
    }
}

/// The mark with the atom mixed in, whose arguments are objects.
fn with_atom(mark: u64, a: &PredAtom) -> u64 {
    let mut mark = mix(mark, u64::from(a.pred.0));
    for t in front(&a.args, a.n) {
        mark = with_object(mark, t);
    }
    mark
}

/// Whether the same atoms are listed.
fn same_atoms(one: &BTreeSet<PredAtom>, other: &BTreeSet<PredAtom>) -> bool
    ensures { IsTrue result → map atom_of one.now.keys ≡ map atom_of other.now.keys }
{
    *one == *other
}

/// Whether the same places have the same values.
fn same_values(one: &BTreeMap<Term, ObjId>, other: &BTreeMap<Term, ObjId>) -> bool
    ensures { IsTrue result → map kept_of one.now.entries ≡ map kept_of other.now.entries }
{
    *one == *other
}

/// Whether the objects are the same.
fn same_objects(one: &[ObjId], other: &[ObjId]) -> bool
    ensures { IsTrue result → map object_of one.now ≡ map object_of other.now }
{
    *one == *other
}

impl World {
    /// The mark: the same for equal worlds, and another for nearly all others. It is made in a walk over the world, and takes no memory.
    pub fn mark(&self) -> u64 {
        let mut mark = 0;
        for a in &self.atoms {
            mark = with_atom(mark, a);
        }
        for (_, d) in &self.values {
            mark = mix(mark, u64::from(d.0));
        }
        mark
    }

    /// Whether the worlds are kept alike, as worlds are that actions make of one world and that are equal. It takes no memory.
    pub fn same(&self, other: &World) -> bool
        ensures { IsTrue result → world_of self.now ≡ world_of other.now }
    {
        if !same_atoms(&self.atoms, &other.atoms) {
            return false;
        }
        if !same_values(&self.values, &other.values) {
            return false;
        }
        same_objects(self.others.as_slice(), other.others.as_slice())
    }
}
