//! What an action does to a world.
ghost use Rattle.std.specs.Prelude.{◌≡◌, ◌<◌, ◌≤◌, IsSome, IfSome, true, false, [], ◌∷◌, map, IfOk, OnOk, option_map, if◌then◌else◌};
ghost use Rattle.pks_terms.specs.Counts.{TermCounts, InstanceCounts, TargetCounts, EffectCounts, ProblemCounts};
ghost use Rattle.pks_terms.specs.Syntax.{place};
ghost use Rattle.pks_terms.specs.Orders.{number_of, arguments_of};
ghost use Rattle.pks_terms.specs.Worlds.{inner_value, value_of, all_true_in};
ghost use Rattle.pks_terms.specs.Meaning.{is_instance};
ghost use Rattle.pks_terms.specs.Actions.{Clear, effect_at};
ghost use Rattle.pks_terms.specs.Sets.{Each};
ghost use Rattle.pks_terms.specs.Problems.{schema_of};
ghost use Rattle.pks_terms.specs.Knowledge.{after_action};
ghost use Rattle.pks_terms.specs.Valid.{IsValid};
ghost use Rattle.pks_terms.specs.Views.{term_of, terms_of, conj_of, atom_of, pattern_of, target_of, effect_of, given_of, instance_of, signature_of, problem_of};
ghost use Rattle.pks_world.specs.Contents.{world_of, places_of, ground, with_truth, with_value};
ghost use Rattle.pks_world.specs.Applied.{is_of_pattern, written_to, written_by, IsNumbered, StayListed, AreArguments};
ghost use Rattle.pks_world.specs.Counts.{WorldCounts};
ghost use Rattle.pks_world.specs.First.{IsWorldOf};

use crate::worlds::{World, at_objects};
use pks_terms::ids::{ActId, FnId, ObjId};
use pks_terms::literal::{Conj, Pattern, PredAtom};
use pks_terms::problem::Problem;
use pks_terms::schema::{Effect, Instance, Target};
use pks_terms::term::{Term, front};
use std::alloc::AllocError;

/// The effects of the action as written, none where it isn't declared.
fn effects_of<'a>(p: &'a Problem<'_>, act: ActId) -> &'a [Effect]
    ensures says { map effect_of result.now ≡ (schema_of (problem_of p.now) act.0).effects }
    ensures counts { ProblemCounts p.now → Each EffectCounts result.now }
{
    match p.schemas.as_slice().get(usize::from(act.0)) {
        Some(schema) => schema.effects.as_slice(),
        None => &[],
    }
}

impl World {
    /// An equal world.
    #[tactic(auto, unfolding(crate::specs::Contents::world_of, crate::specs::Contents::places_of))]
    fn copy(&self) -> Result<World, AllocError>
        ensures world { IfOk result (λ w. world_of w ≡ world_of self.now) }
        ensures places { IfOk result (λ w. places_of w ≡ places_of self.now) }
        ensures counts { WorldCounts self.now → IfOk result WorldCounts }
    {
        let atoms = self.atoms.clone()?;
        let values = self.values.clone()?;
        let others = self.others.clone()?;
        Ok(World {
            atoms,
            values,
            others,
        })
    }

    /// Whether all literals of the ground conjunction are true. It takes no memory. `docs/RULES.md`, worlds.
    #[tactic(auto, unfolding(pks_terms::specs::Worlds::all_true_in))]
    pub fn holds_all(&self, c: &Conj) -> bool
        ensures { result ≡ all_true_in (world_of self.now) (conj_of c.now) }
    {
        for l in front(&c.literals, c.n) {
            if !self.holds(l) {
                return false;
            }
        }
        true
    }

    /// Whether the term has the value that the slot asks for.
    fn fits_slot(&self, slot: &Option<Term>, t: &Term) -> bool
        ensures { result ≡ is_instance (world_of self.now) (option_map term_of slot.now ∷ []) (value_of (world_of self.now) (term_of t.now) ∷ []) }
    {
        match slot {
            Some(u) => self.value(u) == self.value(t),
            None => true,
        }
    }

    /// Whether the terms have the values that the slots ask for.
    fn fits(&self, slots: &[Option<Term>], terms: &[Term]) -> bool
        ensures { result ≡ is_instance (world_of self.now) (map (option_map term_of) slots.now) (map (value_of (world_of self.now)) (terms_of terms.now)) }
    {
        if slots.len() != terms.len() {
            return false;
        }
        for k in 0..slots.len() {
            if !self.fits_slot(&slots[k], &terms[k]) {
                return false;
            }
        }
        true
    }

    /// Whether the atom is an instance of the pattern.
    fn is_instance(&self, x: &Pattern, a: &PredAtom) -> bool
        ensures { result ≡ is_of_pattern (world_of self.now) (pattern_of x.now) (atom_of a.now) }
    {
        x.pred.0 == a.pred.0 && self.fits(front(&x.args, x.n), front(&a.args, a.n))
    }

    /// Makes every instance of the pattern false, its terms being read in `old`.
    fn clear(&mut self, old: &World, x: &Pattern)
        ensures world { world_of self.new ≡ written_to (world_of old.now) (Clear (pattern_of x.now)) (world_of self.old) }
        ensures places { places_of self.new ≡ places_of self.old }
        ensures counts { WorldCounts self.old → WorldCounts self.new }
    {
        self.atoms.retain(|a| !old.is_instance(x, a));
    }

    /// The place of an assignment at the values of its arguments. The function goes by the term's number.
    fn valued_place(&self, at: &Term) -> Option<Term>
        ensures place { IfSome result (λ t. term_of t ≡ place (number_of (term_of at.now)) (map (inner_value (world_of self.now)) (arguments_of (term_of at.now)))) }
        ensures numbered { number_of (term_of at.now) < 256 → IsSome result }
        ensures counts { TermCounts at.now → IfSome result TermCounts }
    {
        match at {
            Term::App { fun, n, args } => Some(at_objects(*fun, *n, &self.inner_values(args))),
            Term::Obj(d) => match u8::try_from(d.0) {
                Ok(number) => Some(at_objects(FnId(number), 0, &[ObjId(0), ObjId(0)])),
                Err(_) => None,
            },
            Term::Param(number) => Some(at_objects(FnId(*number), 0, &[ObjId(0), ObjId(0)])),
        }
    }

    /// Makes the atom false, and leaves all else.
    fn remove_atom(&mut self, a: &PredAtom)
        ensures world { world_of self.new ≡ with_truth (world_of self.old) (atom_of a.now) false }
        ensures places { places_of self.new ≡ places_of self.old }
        ensures counts { WorldCounts self.old → WorldCounts self.new }
    {
        self.atoms.remove(a);
    }

    /// Gives the place this value, and leaves all else.
    fn assign(&mut self, at: Term, d: ObjId) -> Result<(), AllocError>
        ensures world { OnOk result (world_of self.new ≡ with_value (world_of self.old) (term_of at) d.0) }
        ensures places { OnOk result (StayListed (places_of self.old) (places_of self.new)) }
        ensures counts { TermCounts at → WorldCounts self.old → OnOk result (WorldCounts self.new) }
    {
        self.values.insert(at, d)?;
        Ok(())
    }

    /// Writes what the target says, all that it names being read in `old`.
    fn write(&mut self, old: &World, target: &Target) -> Result<(), AllocError>
        ensures world { IsNumbered (target_of target.now) → OnOk result (world_of self.new ≡ written_to (world_of old.now) (target_of target.now) (world_of self.old)) }
        ensures places { OnOk result (StayListed (places_of self.old) (places_of self.new)) }
        ensures counts { TargetCounts target.now → WorldCounts self.old → OnOk result (WorldCounts self.new) }
    {
        match target {
            Target::Set(a) => {
                self.put_atom(&old.with_values(a))?;
                Ok(())
            }
            Target::Unset(a) => {
                self.remove_atom(&old.with_values(a));
                Ok(())
            }
            Target::Clear(x) => {
                self.clear(old, x);
                Ok(())
            }
            Target::Assign { place, value } => {
                if let Some(at) = old.valued_place(place) {
                    self.assign(at, old.value(value))?;
                }
                Ok(())
            }
        }
    }

    /// Writes what the effect says where its condition is true in `old`.
    fn write_effect(&mut self, old: &World, effect: &Effect) -> Result<(), AllocError>
        ensures world { IsNumbered (target_of effect.now.target) → OnOk result (world_of self.new ≡ written_by (world_of old.now) (effect_of effect.now ∷ []) (world_of self.old)) }
        ensures places { OnOk result (StayListed (places_of self.old) (places_of self.new)) }
        ensures counts { EffectCounts effect.now → WorldCounts self.old → OnOk result (WorldCounts self.new) }
    {
        if old.holds_all(&effect.cond) {
            self.write(old, &effect.target)?;
        }
        Ok(())
    }

    /// Writes what the effects say, with the instance's arguments put in, in written order.
    fn write_all(&mut self, old: &World, effects: &[Effect], i: &Instance) -> Result<(), AllocError>
        ensures world { Each (λ e. IsNumbered (target_of e.target)) effects.now → OnOk result (world_of self.new ≡ written_by (world_of old.now) (map (effect_at (given_of i.now)) (map effect_of effects.now)) (world_of self.old)) }
        ensures places { OnOk result (StayListed (places_of self.old) (places_of self.new)) }
        ensures counts { Each EffectCounts effects.now → InstanceCounts i.now → WorldCounts self.old → OnOk result (WorldCounts self.new) }
    {
        for effect in effects {
            self.write_effect(old, &effect.at(i))?;
        }
        Ok(())
    }

    /// The world after the action with objects as arguments. Every condition, argument and value is read in this world, and the last effect
    /// that fires and writes a place wins. `AllocError` comes for want of memory alone. `docs/RULES.md`, what an action does to a world.
    pub fn apply(&self, p: &Problem<'_>, i: &Instance) -> Result<World, AllocError>
        ensures world { IsValid (problem_of p.now) → IfOk result (λ w. world_of w ≡ after_action (problem_of p.now) (world_of self.now) (instance_of i.now)) }
        ensures of_signature { IsValid (problem_of p.now) → AreArguments (signature_of p.now.signature) (world_of self.now) (schema_of (problem_of p.now) i.now.act.0).parameters (given_of i.now) → IsWorldOf (signature_of p.now.signature) self.now → IfOk result (IsWorldOf (signature_of p.now.signature)) }
        ensures counts { ProblemCounts p.now → InstanceCounts i.now → WorldCounts self.now → IfOk result WorldCounts }
    {
        let mut next = self.copy()?;
        next.write_all(self, effects_of(p, i.act), i)?;
        Ok(next)
    }
}
