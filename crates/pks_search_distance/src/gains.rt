//! What may be so beside what is so in a world.
ghost use Rattle.std.specs.Prelude.{◌≡◌, ◌==◌, map, ◌++◌, OnOk, true, false};
ghost use Rattle.std.specs.List.{list_any, flat_map};
ghost use Rattle.pks_terms.specs.Syntax.{affirmed};
ghost use Rattle.pks_terms.specs.Views.{object_of, term_of, atom_of};
ghost use Rattle.pks_world.specs.Contents.{world_of};
ghost use Rattle.pks_search_distance.specs.Gained.{given_of, given_to, is_cleared, may_be, values_at};

use pks_terms::ids::{ObjId, PredId};
use pks_terms::literal::{PredAtom, positive_literal};
use pks_terms::term::Term;
use pks_world::World;
use std::alloc::{AllocError, Global};
use std::collections::BTreeSet;

/// A value that a place may have.
#[derive(Clone, Copy)]
pub(crate) struct Given {
    pub(crate) place: Term,
    pub(crate) value: ObjId,
}

/// What may be true, what may be false, of which predicates each atom may be false, and what values places may have, beside what is so
/// in the world.
#[derive(Drop)]
pub(crate) struct RelaxedFacts {
    pub(crate) trues: BTreeSet<PredAtom>,
    pub(crate) falses: BTreeSet<PredAtom>,
    pub(crate) cleared: Vec<PredId>,
    pub(crate) values: Vec<Given>,
}

/// Whether the predicate is one of these.
fn is_among(preds: &[PredId], pred: PredId) -> bool
    ensures { result ≡ list_any (λ q. q == pred.0) (map (λ q. q.0) preds.now) }
{
    for q in preds {
        if q.0 == pred.0 {
            return true;
        }
    }
    false
}

/// Adds the value, where it is one of the place.
#[tactic(auto, using(crate::proofs::Lists::pushing), unfolding(pks_terms::specs::Orders::term_eq))]
fn add_given(x: &Given, place: &Term, to: &mut Vec<ObjId>) -> Result<(), AllocError>
    ensures { OnOk result (map object_of to.new.items ≡ map object_of to.old.items ++ given_to (term_of place.now) (given_of x.now)) }
{
    if *place == x.place {
        to.push(x.value)?;
    }
    Ok(())
}

/// Adds those of the values that are ones of the place.
#[tactic(auto, using(crate::proofs::Lists::pushing))]
fn add_all_given(xs: &[Given], place: &Term, to: &mut Vec<ObjId>) -> Result<(), AllocError>
    ensures { OnOk result (map object_of to.new.items ≡ map object_of to.old.items ++ flat_map (given_to (term_of place.now)) (map given_of xs.now)) }
{
    for x in xs {
        add_given(x, place, to)?;
    }
    Ok(())
}

impl RelaxedFacts {
    /// Nothing more than what is so.
    pub(crate) fn none(alloc: Global) -> RelaxedFacts {
        RelaxedFacts {
            trues: BTreeSet::new(alloc),
            falses: BTreeSet::new(alloc),
            cleared: Vec::new(alloc),
            values: Vec::new(alloc),
        }
    }

    /// Whether each atom of the predicate may be false.
    pub(crate) fn is_cleared(&self, pred: PredId) -> bool
        ensures { result ≡ is_cleared self.now pred.0 }
    {
        is_among(self.cleared.as_slice(), pred)
    }

    /// Whether the atom, whose arguments are objects, may be true, or false.
    pub(crate) fn may_be(&self, w: &World, positive: bool, a: &PredAtom) -> bool
        ensures { result ≡ may_be (world_of w.now) self.now positive (atom_of a.now) }
    {
        let holds = w.holds(&positive_literal(a));
        if positive {
            holds || self.trues.contains(a)
        } else {
            !holds || self.falses.contains(a) || self.is_cleared(a.pred)
        }
    }

    /// Adds the values that the place, whose arguments are objects, may have.
    #[tactic(auto, using(crate::proofs::Lists::pushing))]
    pub(crate) fn add_values_at(
        &self,
        w: &World,
        place: &Term,
        to: &mut Vec<ObjId>,
    ) -> Result<(), AllocError>
        ensures { OnOk result (map object_of to.new.items ≡ map object_of to.old.items ++ values_at (world_of w.now) self.now (term_of place.now)) }
    {
        to.push(w.value(place))?;
        add_all_given(self.values.as_slice(), place, to)?;
        Ok(())
    }
}
