//! A level after another one: what actions may make so is taken in.
ghost use Rattle.std.specs.Prelude.{◌≡◌, ◌==◌, ◌||◌, map, not, false, true, IfOk, OnOk};
ghost use Rattle.std.specs.List.{list_any, flat_map};
ghost use Rattle.pks_terms.specs.Sets.{Each};
ghost use Rattle.pks_terms.specs.Worlds.{World as SWorld};
ghost use Rattle.pks_terms.specs.Views.{term_of, atom_of};
ghost use Rattle.pks_world.specs.Contents.{world_of};
ghost use Rattle.pks_search_distance.specs.Levels.{Grows};
ghost use Rattle.pks_search_distance.specs.Relaxed.{NewTruth, NewValue, NewFalse, IsNewIn};
ghost use Rattle.pks_search_distance.specs.Gained.{given_of, given_to, chances_of, values_at, has_new, some_new, new_of};

use crate::gains::{Given, RelaxedFacts};
use crate::news::New;
use pks_terms::ids::{ObjId, PredId};
use pks_terms::literal::PredAtom;
use pks_terms::term::Term;
use pks_world::World;
use std::alloc::AllocError;

/// Whether it gives the place the value.
#[tactic(auto, unfolding(pks_terms::specs::Orders::term_eq))]
fn gives(x: &Given, place: &Term, d: ObjId) -> bool
    ensures { result ≡ list_any (λ e. e == d.0) (given_to (term_of place.now) (given_of x.now)) }
{
    *place == x.place && x.value.0 == d.0
}

/// Whether one of them does.
#[tactic(auto, using(crate::proofs::Lists::parting))]
fn some_gives(xs: &[Given], place: &Term, d: ObjId) -> bool
    ensures { result ≡ list_any (λ e. e == d.0) (flat_map (given_to (term_of place.now)) (map given_of xs.now)) }
{
    for x in xs {
        if gives(x, place, d) {
            return true;
        }
    }
    false
}

/// Whether one of them is so.
fn either(first: bool, second: bool) -> bool
    ensures { result ≡ (first || second) }
{
    first || second
}

impl RelaxedFacts {
    /// Whether the place may have the value.
    fn has_value(&self, w: &World, place: &Term, d: ObjId) -> bool
        ensures { result ≡ list_any (λ e. e == d.0) (values_at (world_of w.now) self.now (term_of place.now)) }
    {
        w.value(place).0 == d.0 || some_gives(self.values.as_slice(), place, d)
    }

    /// Whether it may be so already.
    fn has(&self, w: &World, x: &New) -> bool
        ensures { result ≡ has_new (world_of w.now) self.now (new_of x.now) }
    {
        match x {
            New::Truth(positive, a) => self.may_be(w, *positive, a),
            New::Value(place, d) => self.has_value(w, place, *d),
            New::Cleared(pred) => self.is_cleared(*pred),
        }
    }

    /// From now on the atom may be true.
    fn put_true(&mut self, a: &PredAtom) -> Result<(), AllocError>
        ensures grows { (w : SWorld) → OnOk result (Grows (chances_of w self.old) (chances_of w self.new)) }
        ensures has { (w : SWorld) → OnOk result (IsNewIn (chances_of w self.new) (NewTruth true (atom_of a.now))) }
    {
        self.trues.insert(*a)?;
        Ok(())
    }

    /// From now on the atom may be false.
    fn put_false(&mut self, a: &PredAtom) -> Result<(), AllocError>
        ensures grows { (w : SWorld) → OnOk result (Grows (chances_of w self.old) (chances_of w self.new)) }
        ensures has { (w : SWorld) → OnOk result (IsNewIn (chances_of w self.new) (NewTruth false (atom_of a.now))) }
    {
        self.falses.insert(*a)?;
        Ok(())
    }

    /// From now on the atom may be true, or false.
    fn put_truth(&mut self, positive: bool, a: &PredAtom) -> Result<(), AllocError>
        ensures grows { (w : SWorld) → OnOk result (Grows (chances_of w self.old) (chances_of w self.new)) }
        ensures has { (w : SWorld) → OnOk result (IsNewIn (chances_of w self.new) (NewTruth positive (atom_of a.now))) }
    {
        if positive {
            self.put_true(a)?;
            return Ok(());
        }
        self.put_false(a)?;
        Ok(())
    }

    /// From now on the place may have the value.
    fn put_value(&mut self, place: &Term, d: ObjId) -> Result<(), AllocError>
        ensures grows { (w : SWorld) → OnOk result (Grows (chances_of w self.old) (chances_of w self.new)) }
        ensures has { (w : SWorld) → OnOk result (IsNewIn (chances_of w self.new) (NewValue (term_of place.now) d.0)) }
    {
        self.values.push(Given {
            place: *place,
            value: d,
        })?;
        Ok(())
    }

    /// From now on each atom of the predicate may be false.
    fn put_cleared(&mut self, pred: PredId) -> Result<(), AllocError>
        ensures grows { (w : SWorld) → OnOk result (Grows (chances_of w self.old) (chances_of w self.new)) }
        ensures has { (w : SWorld) → OnOk result (IsNewIn (chances_of w self.new) (NewFalse pred.0)) }
    {
        self.cleared.push(pred)?;
        Ok(())
    }

    /// From now on it may be so.
    fn put(&mut self, x: &New) -> Result<(), AllocError>
        ensures grows { (w : SWorld) → OnOk result (Grows (chances_of w self.old) (chances_of w self.new)) }
        ensures has { (w : SWorld) → OnOk result (IsNewIn (chances_of w self.new) (new_of x.now)) }
    {
        match x {
            New::Truth(positive, a) => {
                self.put_truth(*positive, a)?;
                Ok(())
            }
            New::Value(place, d) => {
                self.put_value(place, *d)?;
                Ok(())
            }
            New::Cleared(pred) => {
                self.put_cleared(*pred)?;
                Ok(())
            }
        }
    }

    /// Takes it in; answers whether it wasn't so already.
    fn take(&mut self, w: &World, x: &New) -> Result<bool, AllocError>
        ensures grows { OnOk result (Grows (chances_of (world_of w.now) self.old) (chances_of (world_of w.now) self.new)) }
        ensures has { OnOk result (IsNewIn (chances_of (world_of w.now) self.new) (new_of x.now)) }
        ensures told { IfOk result (λ b. b ≡ not (has_new (world_of w.now) self.old (new_of x.now))) }
        ensures same { IfOk result (λ b. b ≡ false → self.new ≡ self.old) }
    {
        if self.has(w, x) {
            return Ok(false);
        }
        self.put(x)?;
        Ok(true)
    }

    /// Takes all of them in; answers whether one wasn't so already.
    pub(crate) fn take_all(&mut self, w: &World, found: &[New]) -> Result<bool, AllocError>
        ensures grows { OnOk result (Grows (chances_of (world_of w.now) self.old) (chances_of (world_of w.now) self.new)) }
        ensures has { OnOk result (Each (IsNewIn (chances_of (world_of w.now) self.new)) (map new_of found.now)) }
        ensures told { IfOk result (λ b. b ≡ some_new (world_of w.now) self.old (map new_of found.now)) }
        ensures same { IfOk result (λ b. b ≡ false → self.new ≡ self.old) }
    {
        let mut grew = false;
        for x in found {
            let more = self.take(w, x)?;
            grew = either(grew, more);
        }
        Ok(grew)
    }
}
