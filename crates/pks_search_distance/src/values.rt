//! The values that terms may have.
ghost use Rattle.std.specs.Prelude.{◌≡◌, ◌≤◌, ◌+◌, [], ◌∷◌, ◌++◌, map, take, length, IfOk, OnOk};
ghost use Rattle.std.specs.List.{flat_map};
ghost use Rattle.pks_terms.specs.Views.{object_of, inner_of, term_of, terms_of};
ghost use Rattle.pks_world.specs.Contents.{world_of};
ghost use Rattle.pks_search_distance.specs.Relaxed.{tuples, inner_values, term_values};
ghost use Rattle.pks_world.specs.Few.{few_of};
ghost use Rattle.pks_search_distance.specs.Gained.{pair_of, chances_of};

use crate::gains::RelaxedFacts;
use crate::objects::Pair;
use pks_terms::ids::{FnId, ObjId};
use pks_terms::term::{Inner, Term, front};
use pks_world::{Few, World};
use std::alloc::{AllocError, Global};

/// The arguments in use.
pub(crate) fn inners_in(args: &[Inner; 2], n: u8) -> &[Inner]
    ensures items { result.now ≡ take n args.now }
    ensures few { length result.now ≤ 2 }
{
    front(args, n)
}

impl RelaxedFacts {
    /// The values that the argument may have.
    fn inner_values(&self, alloc: Global, w: &World, t: &Inner) -> Result<Vec<ObjId>, AllocError>
        ensures { IfOk result (λ v. map object_of v.items ≡ inner_values (chances_of (world_of w.now) self.now) (inner_of t.now)) }
    {
        match t {
            Inner::Obj(d) => {
                let one = vec![in alloc; *d]?;
                Ok(one)
            }
            Inner::Param(_) => {
                let one = vec![in alloc; ObjId(0)]?;
                Ok(one)
            }
            Inner::App { .. } => {
                let mut values = Vec::new(alloc);
                self.add_values_at(w, &t.as_term(), &mut values)?;
                Ok(values)
            }
        }
    }

    /// Adds the lists of values that the arguments may have, behind these objects.
    #[cycle(pairs)]
    #[tactic(auto, using(crate::proofs::Lists::pushing))]
    pub(crate) fn add_pairs(
        &self,
        alloc: Global,
        w: &World,
        ts: &[Inner],
        before: &Pair,
        to: &mut Vec<Pair>,
    ) -> Result<(), AllocError>
        requires { before.now.n + length ts.now ≤ 2 }
        ensures { OnOk result (map pair_of to.new.items ≡ map pair_of to.old.items ++ tuples (inner_values (chances_of (world_of w.now) self.now)) (pair_of before.now) (map inner_of ts.now)) }
    {
        match ts {
            [] => {
                to.push(*before)?;
                Ok(())
            }
            [t, rest @ ..] => {
                let values = self.inner_values(alloc, w, t)?;
                self.add_each_pair(alloc, w, values.as_slice(), rest, before, to)?;
                Ok(())
            }
        }
    }

    /// The same where the next argument has one of these values.
    #[cycle(pairs)]
    fn add_each_pair(
        &self,
        alloc: Global,
        w: &World,
        values: &[ObjId],
        ts: &[Inner],
        before: &Pair,
        to: &mut Vec<Pair>,
    ) -> Result<(), AllocError>
        requires { before.now.n + 1 + length ts.now ≤ 2 }
        ensures { OnOk result (map pair_of to.new.items ≡ map pair_of to.old.items ++ flat_map (λ d. tuples (inner_values (chances_of (world_of w.now) self.now)) (pair_of before.now ++ d ∷ []) (map inner_of ts.now)) (map object_of values.now)) }
    {
        for d in values {
            self.add_pairs(alloc, w, ts, &before.with(*d), to)?;
        }
        Ok(())
    }

    /// Adds the values of the function at each of the lists of objects.
    #[tactic(auto, using(crate::proofs::Lists::pushing))]
    fn add_placed(
        &self,
        w: &World,
        fun: FnId,
        pairs: &[Pair],
        to: &mut Vec<ObjId>,
    ) -> Result<(), AllocError>
        ensures { OnOk result (map object_of to.new.items ≡ map object_of to.old.items ++ flat_map ((chances_of (world_of w.now) self.now).values fun.0) (map pair_of pairs.now)) }
    {
        for ds in pairs {
            self.add_values_at(w, &ds.place(fun), to)?;
        }
        Ok(())
    }

    /// The values that the term may have.
    pub(crate) fn values(
        &self,
        alloc: Global,
        w: &World,
        t: &Term,
    ) -> Result<Vec<ObjId>, AllocError>
        ensures { IfOk result (λ v. map object_of v.items ≡ term_values (chances_of (world_of w.now) self.now) (term_of t.now)) }
    {
        match t {
            Term::Obj(d) => {
                let one = vec![in alloc; *d]?;
                Ok(one)
            }
            Term::Param(_) => {
                let one = vec![in alloc; ObjId(0)]?;
                Ok(one)
            }
            Term::App { fun, n, args } => {
                let mut pairs = Vec::new(alloc);
                self.add_pairs(alloc, w, inners_in(args, *n), &Pair::none(), &mut pairs)?;
                let mut values = Vec::new(alloc);
                self.add_placed(w, *fun, pairs.as_slice(), &mut values)?;
                Ok(values)
            }
        }
    }

    /// Adds the lists of values that the terms may have, behind these objects.
    #[cycle(lists)]
    #[tactic(auto, using(crate::proofs::Lists::pushing))]
    pub(crate) fn add_lists(
        &self,
        alloc: Global,
        w: &World,
        ts: &[Term],
        before: &Few,
        to: &mut Vec<Few>,
    ) -> Result<(), AllocError>
        requires { before.now.n + length ts.now ≤ 3 }
        ensures { OnOk result (map few_of to.new.items ≡ map few_of to.old.items ++ tuples (term_values (chances_of (world_of w.now) self.now)) (few_of before.now) (terms_of ts.now)) }
    {
        match ts {
            [] => {
                to.push(*before)?;
                Ok(())
            }
            [t, rest @ ..] => {
                let values = self.values(alloc, w, t)?;
                self.add_each_list(alloc, w, values.as_slice(), rest, before, to)?;
                Ok(())
            }
        }
    }

    /// The same where the next term has one of these values.
    #[cycle(lists)]
    fn add_each_list(
        &self,
        alloc: Global,
        w: &World,
        values: &[ObjId],
        ts: &[Term],
        before: &Few,
        to: &mut Vec<Few>,
    ) -> Result<(), AllocError>
        requires { before.now.n + 1 + length ts.now ≤ 3 }
        ensures { OnOk result (map few_of to.new.items ≡ map few_of to.old.items ++ flat_map (λ d. tuples (term_values (chances_of (world_of w.now) self.now)) (few_of before.now ++ d ∷ []) (terms_of ts.now)) (map object_of values.now)) }
    {
        for d in values {
            self.add_lists(alloc, w, ts, &before.with(*d), to)?;
        }
        Ok(())
    }
}
