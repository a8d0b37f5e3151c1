//! What is observed in a world after an action.
ghost use Rattle.std.specs.Prelude.{◌≡◌, ◌≤◌, ℕ, List, [], ◌∷◌, ◌++◌, map, take, filter, length, IfOk, OnOk, option_map};
ghost use Rattle.pks_terms.specs.declared.limits.TheConstants.{MOST_OBJECTS};
ghost use Rattle.pks_terms.specs.Counts.{AtomCounts, InstanceCounts, PatternCounts, SenseCounts, ProblemCounts};
ghost use Rattle.pks_terms.specs.Sets.{Each};
ghost use Rattle.pks_terms.specs.Signatures.{predicate_shape};
ghost use Rattle.pks_terms.specs.Actions.{instances_of, seen};
ghost use Rattle.pks_terms.specs.Problems.{schema_of};
ghost use Rattle.pks_terms.specs.Knowledge.{observations};
ghost use Rattle.pks_terms.specs.Views.{object_of, term_of, atom_of, pattern_of, sense_of, types_of, shape_of, signature_of, problem_of, instance_of};
ghost use Rattle.pks_world.specs.Contents.{ground, world_of};
ghost use Rattle.pks_world.specs.Counts.{SeenCounts};
ghost use Rattle.pks_world.specs.Observed.{seen_of, AreGround, slot_range, true_at, row, plane, grid};

use crate::worlds::World;
use pks_terms::ids::{ActId, ObjId, PredId, TypeId};
use pks_terms::literal::{AtomList, Conj, Pattern, PredAtom};
use pks_terms::problem::{Problem, Signature};
use pks_terms::schema::{Instance, Sense};
use pks_terms::sequence::Sequence;
use pks_terms::term::{Term, front};
use std::alloc::{AllocError, Global};

/// What one sense finds: the truth of a conjunction, the value of a term, the true instances of a pattern in order.
#[derive(Drop)]
pub enum Seen {
    Whether(Conj, bool),
    Value(Term, ObjId),
    All(Pattern, AtomList),
}

/// What the senses of an action find, one by one.
pub type Obs = Sequence<Seen>;

/// The predicate at the first `n` of these objects.
fn atom_at(pred: PredId, n: u8, d: ObjId, e: ObjId, f: ObjId) -> PredAtom
    ensures says { atom_of result ≡ ground pred.0 (take n (d.0 ∷ e.0 ∷ f.0 ∷ [])) }
    ensures counts { n ≤ 3 → AtomCounts result }
{
    PredAtom {
        pred,
        n,
        args: [Term::Obj(d), Term::Obj(e), Term::Obj(f)],
    }
}

/// The slots in use.
fn slots_in(slots: &[Option<Term>; 3], n: u8) -> &[Option<Term>]
    ensures slots { result.now ≡ take n slots.now }
    ensures few { length result.now ≤ 3 }
{
    front(slots, n)
}

/// The types of the arguments of the predicate.
fn argument_types(s: &Signature, pred: PredId) -> &[TypeId]
    ensures { types_of result.now ≡ (predicate_shape (signature_of s.now) pred.0).arguments }
{
    match s.predicates.as_slice().get(usize::from(pred.0)) {
        Some(shape) => front(&shape.args, shape.n),
        None => &[],
    }
}

impl World {
    /// The objects that may stand at the slot of this number.
    fn slot_range(
        &self,
        alloc: Global,
        s: &Signature,
        types: &[TypeId],
        slots: &[Option<Term>],
        number: usize,
    ) -> Result<Vec<ObjId>, AllocError>
        requires { length s.now.objects ≤ MOST_OBJECTS }
        ensures { IfOk result (λ v. map object_of v.items ≡ slot_range (signature_of s.now) (world_of self.now) (types_of types.now) (map (option_map term_of) slots.now) number) }
    {
        match (types.get(number), slots.get(number)) {
            (Some(of), Some(None)) => {
                let objects = s.objects_of(alloc, *of)?;
                Ok(objects)
            }
            (Some(_), Some(Some(t))) => {
                let objects = vec![in alloc; self.value(t)]?;
                Ok(objects)
            }
            _ => {
                let objects = vec![in alloc; ObjId(0)]?;
                Ok(objects)
            }
        }
    }

    /// Adds the atom where it is true.
    #[tactic(auto, unfolding(crate::specs::Contents::world_of))]
    fn add_true(&self, a: PredAtom, found: &mut Vec<PredAtom>) -> Result<(), AllocError>
        ensures says { (p : ℕ) (ds : List ℕ) → atom_of a ≡ ground p ds → OnOk result (map atom_of found.new.items ≡ map atom_of found.old.items ++ true_at (world_of self.now) p ds) }
        ensures counts { AtomCounts a → Each AtomCounts found.old.items → OnOk result (Each AtomCounts found.new.items) }
    {
        if self.atoms.contains(&a) {
            found.push(a)?;
        }
        Ok(())
    }

    /// Adds the true atoms at two objects and each of the others.
    fn add_row(
        &self,
        pred: PredId,
        n: u8,
        d: ObjId,
        e: ObjId,
        others: &[ObjId],
        found: &mut Vec<PredAtom>,
    ) -> Result<(), AllocError>
        ensures says { OnOk result (map atom_of found.new.items ≡ map atom_of found.old.items ++ row (world_of self.now) pred.0 n d.0 e.0 (map object_of others.now)) }
        ensures counts { n ≤ 3 → Each AtomCounts found.old.items → OnOk result (Each AtomCounts found.new.items) }
    {
        for f in others {
            self.add_true(atom_at(pred, n, d, e, *f), found)?;
        }
        Ok(())
    }

    /// Adds the true atoms at an object and each two of the others.
    fn add_plane(
        &self,
        pred: PredId,
        n: u8,
        d: ObjId,
        seconds: &[ObjId],
        thirds: &[ObjId],
        found: &mut Vec<PredAtom>,
    ) -> Result<(), AllocError>
        ensures says { OnOk result (map atom_of found.new.items ≡ map atom_of found.old.items ++ plane (world_of self.now) pred.0 n d.0 (map object_of seconds.now) (map object_of thirds.now)) }
        ensures counts { n ≤ 3 → Each AtomCounts found.old.items → OnOk result (Each AtomCounts found.new.items) }
    {
        for e in seconds {
            self.add_row(pred, n, d, *e, thirds, found)?;
        }
        Ok(())
    }

    /// Adds the true atoms at each three of these objects.
    fn add_grid(
        &self,
        pred: PredId,
        n: u8,
        firsts: &[ObjId],
        seconds: &[ObjId],
        thirds: &[ObjId],
        found: &mut Vec<PredAtom>,
    ) -> Result<(), AllocError>
        ensures says { OnOk result (map atom_of found.new.items ≡ map atom_of found.old.items ++ grid (world_of self.now) pred.0 n (map object_of firsts.now) (map object_of seconds.now) (map object_of thirds.now)) }
        ensures counts { n ≤ 3 → Each AtomCounts found.old.items → OnOk result (Each AtomCounts found.new.items) }
    {
        for d in firsts {
            self.add_plane(pred, n, *d, seconds, thirds, found)?;
        }
        Ok(())
    }

    /// The true instances of the pattern, in the order of atoms.
    fn instances(
        &self,
        alloc: Global,
        s: &Signature,
        x: &Pattern,
    ) -> Result<Vec<PredAtom>, AllocError>
        requires { length s.now.objects ≤ MOST_OBJECTS }
        ensures says { IfOk result (λ found. map atom_of found.items ≡ map (ground x.now.pred.0) (filter ((world_of self.now).truth x.now.pred.0) (instances_of (signature_of s.now) (world_of self.now) (predicate_shape (signature_of s.now) x.now.pred.0).arguments (pattern_of x.now).slots))) }
        ensures counts { IfOk result (λ found. Each AtomCounts found.items) }
    {
        let types = argument_types(s, x.pred);
        let slots = slots_in(&x.args, x.n);
        let mut found = Vec::new(alloc);
        if types.len() != slots.len() {
            return Ok(found);
        }
        let firsts = self.slot_range(alloc, s, types, slots, 0)?;
        let seconds = self.slot_range(alloc, s, types, slots, 1)?;
        let thirds = self.slot_range(alloc, s, types, slots, 2)?;
        self.add_grid(
            x.pred,
            slots.len() as u8,
            &firsts,
            &seconds,
            &thirds,
            &mut found,
        )?;
        Ok(found)
    }

    /// What the sense finds.
    fn find_by(&self, alloc: Global, s: &Signature, sense: &Sense) -> Result<Seen, AllocError>
        requires { length s.now.objects ≤ MOST_OBJECTS }
        ensures seen { IfOk result (λ x. seen_of x ≡ seen (signature_of s.now) (world_of self.now) (sense_of sense.now)) }
        ensures ground { IfOk result AreGround }
        ensures counts { SenseCounts sense.now → IfOk result SeenCounts }
    {
        match sense {
            Sense::Whether(c) => Ok(Seen::Whether(*c, self.holds_all(c))),
            Sense::Value(t) => Ok(Seen::Value(*t, self.value(t))),
            Sense::All(x) => {
                let found = self.instances(alloc, s, x)?;
                Ok(Seen::All(*x, Sequence::of(found)))
            }
        }
    }

    /// What the senses of the action find in this world, which is the one after it: one entry a sense in order, with the instance's arguments
    /// put in. It asks that objects can be numbered. `AllocError` comes for want of memory alone. `docs/RULES.md`, observations.
    pub fn observe(&self, alloc: Global, p: &Problem<'_>, i: &Instance) -> Result<Obs, AllocError>
        requires { length p.now.signature.objects ≤ MOST_OBJECTS }
        ensures seen { IfOk result (λ o. map seen_of o ≡ observations (problem_of p.now) (world_of self.now) (instance_of i.now)) }
        ensures ground { IfOk result (Each AreGround) }
        ensures counts { ProblemCounts p.now → InstanceCounts i.now → IfOk result (Each SeenCounts) }
    {
        let mut all = Vec::new(alloc);
        for sense in senses_of(p, i.act) {
            let seen = self.find_by(alloc, &p.signature, &sense.at(i))?;
            all.push(seen)?;
        }
        Ok(Sequence::of(all))
    }
}

/// The senses of the action, none where it isn't declared.
fn senses_of<'a>(p: &'a Problem<'_>, act: ActId) -> &'a [Sense]
    ensures says { map sense_of result.now ≡ (schema_of (problem_of p.now) act.0).senses }
    ensures counts { ProblemCounts p.now → Each SenseCounts result.now }
{
    match p.schemas.as_slice().get(usize::from(act.0)) {
        Some(schema) => schema.senses.as_slice(),
        None => &[],
    }
}
