//! Whether literals may be true.
ghost use Rattle.std.specs.Prelude.{◌≡◌, ◌≤◌, ◌==◌, map, take, length, IfOk, [], ◌∷◌, true};
ghost use Rattle.std.specs.List.{list_any, list_all};
ghost use Rattle.pks_terms.specs.Syntax.{Named, Equality};
ghost use Rattle.pks_terms.specs.Worlds.{signed};
ghost use Rattle.pks_terms.specs.Views.{object_of, term_of, atom_of, literal_of, literals_in, aim_of};
ghost use Rattle.pks_world.specs.Contents.{world_of};
ghost use Rattle.pks_search_distance.specs.Relaxed.{may_relate, may, aim_may};
ghost use Rattle.pks_world.specs.Few.{few_of};
ghost use Rattle.pks_search_distance.specs.Gained.{chances_of};

use crate::gains::RelaxedFacts;
use pks_terms::ids::{ObjId, PredId};
use pks_terms::literal::{Atom, Literal, PredAtom};
use pks_terms::problem::Aim;
use pks_terms::schema::Query;
use pks_terms::term::{Term, front};
use pks_world::{Few, World};
use std::alloc::{AllocError, Global};

/// The truth as it is, or turned round.
fn with_sign(positive: bool, is_so: bool) -> bool
    ensures { result ≡ signed positive is_so }
{
    if positive { is_so } else { !is_so }
}

/// Whether the object is, or isn't, one of these.
fn some_equal(positive: bool, d: ObjId, others: &[ObjId]) -> bool
    ensures { result ≡ list_any (λ e. signed positive (d.0 == e)) (map object_of others.now) }
{
    for e in others {
        if with_sign(positive, d.0 == e.0) {
            return true;
        }
    }
    false
}

/// Whether one of the first is, or isn't, one of the second.
fn some_of_equal(positive: bool, lefts: &[ObjId], rights: &[ObjId]) -> bool
    ensures { result ≡ list_any (λ d. list_any (λ e. signed positive (d == e)) (map object_of rights.now)) (map object_of lefts.now) }
{
    for d in lefts {
        if some_equal(positive, *d, rights) {
            return true;
        }
    }
    false
}

/// The arguments in use.
pub(crate) fn terms_in(args: &[Term; 3], n: u8) -> &[Term]
    ensures items { result.now ≡ take n args.now }
    ensures few { length result.now ≤ 3 }
{
    front(args, n)
}

impl RelaxedFacts {
    /// Whether the predicate may be true, or false, of one of the lists of objects.
    fn some_may_be(&self, w: &World, positive: bool, pred: PredId, lists: &[Few]) -> bool
        ensures { result ≡ list_any ((chances_of (world_of w.now) self.now).truth positive pred.0) (map few_of lists.now) }
    {
        for ds in lists {
            if self.may_be(w, positive, &ds.atom(pred)) {
                return true;
            }
        }
        false
    }

    /// Whether the atom may be true, or false.
    fn atom_may_be(
        &self,
        alloc: Global,
        w: &World,
        positive: bool,
        a: &PredAtom,
    ) -> Result<bool, AllocError>
        ensures { IfOk result (λ b. b ≡ may_relate (chances_of (world_of w.now) self.now) positive (Named a.now.pred.0) (atom_of a.now).arguments) }
    {
        let mut lists = Vec::new(alloc);
        self.add_lists(alloc, w, terms_in(&a.args, a.n), &Few::none(), &mut lists)?;
        Ok(self.some_may_be(w, positive, a.pred, lists.as_slice()))
    }

    /// Whether the terms may be equal, or different.
    fn may_equal(
        &self,
        alloc: Global,
        w: &World,
        positive: bool,
        left: &Term,
        right: &Term,
    ) -> Result<bool, AllocError>
        ensures { IfOk result (λ b. b ≡ may_relate (chances_of (world_of w.now) self.now) positive Equality (term_of left.now ∷ term_of right.now ∷ [])) }
    {
        let lefts = self.values(alloc, w, left)?;
        let rights = self.values(alloc, w, right)?;
        Ok(some_of_equal(positive, lefts.as_slice(), rights.as_slice()))
    }

    /// Whether the ground literal may be true.
    pub(crate) fn may(&self, alloc: Global, w: &World, l: &Literal) -> Result<bool, AllocError>
        ensures { IfOk result (λ b. b ≡ may (chances_of (world_of w.now) self.now) (literal_of l.now)) }
    {
        match &l.atom {
            Atom::Pred(a) => self.atom_may_be(alloc, w, l.positive, a),
            Atom::Eq { left, right } => self.may_equal(alloc, w, l.positive, left, right),
        }
    }

    /// Whether each of the literals may be true.
    pub(crate) fn all_may(
        &self,
        alloc: Global,
        w: &World,
        literals: &[Literal],
    ) -> Result<bool, AllocError>
        ensures { IfOk result (λ b. b ≡ list_all (may (chances_of (world_of w.now) self.now)) (literals_in literals.now)) }
    {
        for l in literals {
            if !self.may(alloc, w, l)? {
                return Ok(false);
            }
        }
        Ok(true)
    }

    /// Whether what the aim asks for at the end may be so.
    fn aim_may(&self, alloc: Global, w: &World, a: &Aim) -> Result<bool, AllocError>
        ensures { IfOk result (λ b. b ≡ aim_may (chances_of (world_of w.now) self.now) (aim_of a.now)) }
    {
        match a {
            Aim::Now(Query::K(l)) => {
                let so = self.may(alloc, w, l)?;
                Ok(so)
            }
            _ => Ok(true),
        }
    }

    /// Whether the goal may be met, as far as it asks for literals at the end.
    pub(crate) fn goal_may(
        &self,
        alloc: Global,
        w: &World,
        aims: &[Aim],
    ) -> Result<bool, AllocError>
        ensures { IfOk result (λ b. b ≡ list_all (aim_may (chances_of (world_of w.now) self.now)) (map aim_of aims.now)) }
    {
        for a in aims {
            if !self.aim_may(alloc, w, a)? {
                return Ok(false);
            }
        }
        Ok(true)
    }
}
