//! Worlds: which atoms are true, and the value at each place.
ghost use Rattle.std.specs.Prelude.{◌≡◌, ◌≤◌, ℕ, [], map, take, true, IsTrue, OnOk, OnErr, option_map};
ghost use Rattle.pks_terms.specs.Counts.{TermCounts, AtomCounts};
ghost use Rattle.pks_terms.specs.Syntax.{object, place};
ghost use Rattle.pks_terms.specs.Orders.{number_of, arguments_of};
ghost use Rattle.pks_terms.specs.Signatures.{Signature};
ghost use Rattle.pks_terms.specs.Actions.{Set, Assign};
ghost use Rattle.pks_terms.specs.Typed.{IsTypedTarget};
ghost use Rattle.pks_terms.specs.Worlds.{inner_value, value_of, relates, true_in};
ghost use Rattle.pks_terms.specs.Views.{object_of, inner_of, term_of, atom_of, relation_of, sides_of, literal_of};
ghost use Rattle.pks_world.specs.Contents.{ground, world_of, places_of, has_place, kept_at, value_elsewhere, with_truth, with_value};
ghost use Rattle.pks_world.specs.Counts.{WorldCounts};
ghost use Rattle.pks_world.specs.First.{IsWorldOf};

use pks_terms::ids::{FnId, ObjId};
use pks_terms::literal::{Atom, Literal, PredAtom};
use pks_terms::term::{Inner, Term, application};
use std::alloc::AllocError;
use std::collections::{BTreeMap, BTreeSet};

/// The atoms that are true, and the value at each place. At places for which no value is kept, which no term of the signature reads, a
/// function has one value of its result type. `docs/RULES.md`, worlds.
#[derive(Drop)]
pub struct World {
    pub(crate) atoms: BTreeSet<PredAtom>,
    pub(crate) values: BTreeMap<Term, ObjId>,
    pub(crate) others: Vec<ObjId>,
}

/// The value that is kept for the place.
#[tactic(auto, unfolding(pks_terms::specs::Orders::term_eq))]
fn value_at(values: &BTreeMap<Term, ObjId>, place: &Term) -> Option<ObjId>
    ensures { option_map object_of result ≡ kept_at values.now.entries (term_of place.now) }
{
    values.get(place).copied()
}

/// The value of the function at places for which none is kept.
fn elsewhere(others: &[ObjId], fun: FnId) -> ObjId
    ensures { result.0 ≡ value_elsewhere others.now fun.0 }
{
    match others.get(usize::from(fun.0)) {
        Some(d) => *d,
        None => ObjId(0),
    }
}

/// The place of the function at objects, of which the first `n` are in use.
pub(crate) fn at_objects(fun: FnId, n: u8, args: &[ObjId; 2]) -> Term
    ensures says { term_of result ≡ place fun.0 (map object_of (take n args.now)) }
    ensures counts { n ≤ 2 → TermCounts result }
{
    Term::App {
        fun,
        n,
        args: [Inner::Obj(args[0]), Inner::Obj(args[1])],
    }
}

impl World {
    /// The value of the function at these objects.
    #[tactic(auto, unfolding(crate::specs::Contents::world_of))]
    fn at(&self, fun: FnId, n: u8, args: &[ObjId; 2]) -> ObjId
        ensures { result.0 ≡ (world_of self.now).value fun.0 (map object_of (take n args.now)) }
    {
        match value_at(&self.values, &application(fun, n, args)) {
            Some(d) => d,
            None => elsewhere(&self.others, fun),
        }
    }

    /// The value of an argument.
    fn inner_value(&self, t: &Inner) -> ObjId
        ensures { result.0 ≡ inner_value (world_of self.now) (inner_of t.now) }
    {
        match t {
            Inner::Obj(d) => *d,
            Inner::Param(_) => ObjId(0),
            Inner::App { fun, n, args } => self.at(*fun, *n, args),
        }
    }

    /// The values of the arguments.
    pub(crate) fn inner_values(&self, args: &[Inner; 2]) -> [ObjId; 2]
        ensures { (n : ℕ) → map object_of (take n result) ≡ map (inner_value (world_of self.now)) (map inner_of (take n args.now)) }
    {
        [self.inner_value(&args[0]), self.inner_value(&args[1])]
    }

    /// The value of a ground term. It takes no memory. `docs/RULES.md`, worlds.
    #[tactic(auto, unfolding(pks_terms::specs::Worlds::value_of))]
    pub fn value(&self, t: &Term) -> ObjId
        ensures { result.0 ≡ value_of (world_of self.now) (term_of t.now) }
    {
        match t {
            Term::Obj(d) => *d,
            Term::Param(_) => ObjId(0),
            Term::App { fun, n, args } => self.at(*fun, *n, &self.inner_values(args)),
        }
    }

    /// The atom with the values of its arguments in their place. It takes no memory. `docs/RULES.md`, worlds.
    pub fn with_values(&self, a: &PredAtom) -> PredAtom
        ensures says { atom_of result ≡ ground a.now.pred.0 (map (value_of (world_of self.now)) (map term_of (take a.now.n a.now.args))) }
        ensures counts { a.now.n ≤ 3 → AtomCounts result }
    {
        PredAtom {
            pred: a.pred,
            n: a.n,
            args: [
                Term::Obj(self.value(&a.args[0])),
                Term::Obj(self.value(&a.args[1])),
                Term::Obj(self.value(&a.args[2])),
            ],
        }
    }

    /// Whether the relation holds of the values of its arguments.
    #[tactic(auto, unfolding(crate::specs::Contents::world_of))]
    fn relates(&self, atom: &Atom) -> bool
        ensures { result ≡ relates (world_of self.now) (relation_of atom.now) (map (value_of (world_of self.now)) (sides_of atom.now)) }
    {
        match atom {
            Atom::Pred(a) => self.atoms.contains(&self.with_values(a)),
            Atom::Eq { left, right } => self.value(left) == self.value(right),
        }
    }

    /// Whether the ground literal is true. It takes no memory. `docs/RULES.md`, worlds.
    #[tactic(auto, unfolding(pks_terms::specs::Worlds::true_in))]
    pub fn holds(&self, l: &Literal) -> bool
        ensures { result ≡ true_in (world_of self.now) (literal_of l.now) }
    {
        let relates = self.relates(&l.atom);
        if l.positive { relates } else { !relates }
    }

    /// Makes the atom, whose arguments are objects, true. All else stays. Where memory is wanting it answers `AllocError`, and the world says
    /// what it did. `docs/RULES.md`, worlds.
    pub fn put_atom(&mut self, a: &PredAtom) -> Result<(), AllocError>
        ensures ok { OnOk result (world_of self.new ≡ with_truth (world_of self.old) (atom_of a.now) true) }
        ensures err { OnErr result (world_of self.new ≡ world_of self.old) }
        ensures places { places_of self.new ≡ places_of self.old }
        ensures of_signature { (s : Signature) → IsTypedTarget s [] (Set (atom_of a.now)) → IsWorldOf s self.old → IsWorldOf s self.new }
        ensures counts { AtomCounts a.now → WorldCounts self.old → WorldCounts self.new }
    {
        self.atoms.insert(*a)?;
        Ok(())
    }

    /// Gives the place, whose arguments are objects, this value. It asks that a value is kept for the place, as one is for each place of the
    /// signature. All else stays. It takes no memory. `docs/RULES.md`, worlds.
    pub fn put_value(&mut self, place: &Term, d: ObjId)
        requires { IsTrue (has_place (places_of self.old) (term_of place.now)) }
        ensures world { world_of self.new ≡ with_value (world_of self.old) (term_of place.now) d.0 }
        ensures places { places_of self.new ≡ places_of self.old }
        ensures of_signature { (s : Signature) → IsTypedTarget s [] (Assign (number_of (term_of place.now)) (arguments_of (term_of place.now)) (object d.0)) → IsWorldOf s self.old → IsWorldOf s self.new }
        ensures counts { WorldCounts self.old → WorldCounts self.new }
    {
        match self.values.get_mut(place) {
            Some(kept) => *kept = d,
            None => unreachable!(),
        }
    }
}
