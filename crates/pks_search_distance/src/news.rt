//! What actions may make so.
ghost use Rattle.std.specs.Prelude.{◌≡◌, ◌++◌, map, OnOk, IfOk};
ghost use Rattle.std.specs.List.{flat_map};
ghost use Rattle.pks_terms.specs.Orders.{number_of, arguments_of};
ghost use Rattle.pks_terms.specs.Syntax.{place};
ghost use Rattle.pks_terms.specs.Views.{object_of, term_of, atom_of, target_of, effect_of};
ghost use Rattle.pks_terms.specs.ValidProblems.{IsApplication, AssignsToPlace};
ghost use Rattle.pks_terms.specs.Sets.{Each};
ghost use Rattle.pks_world.specs.Contents.{ground, world_of};
ghost use Rattle.pks_search_distance.specs.Relaxed.{NewTruth, NewValue, atom_news, place_news, news, effect_news, ground_action_news};
ghost use Rattle.pks_world.specs.Few.{few_of};
ghost use Rattle.pks_search_distance.specs.Gained.{pair_of, chances_of, new_of, ground_action_of};

use crate::gains::RelaxedFacts;
use crate::ground_actions::GroundAction;
use crate::may::terms_in;
use crate::objects::Pair;
use crate::values::inners_in;
use pks_terms::ids::{FnId, ObjId, PredId};
use pks_terms::literal::PredAtom;
use pks_terms::schema::{Effect, Target};
use pks_terms::term::{Term, front};
use pks_world::{Few, World};
use std::alloc::{AllocError, Global};

/// What may become so: the truth of an atom at objects, a value of a place, that each atom of a predicate is false.
#[derive(Clone, Copy)]
pub(crate) enum New {
    Truth(bool, PredAtom),
    Value(Term, ObjId),
    Cleared(PredId),
}

/// Adds that the predicate is true, or false, of each of the lists of objects.
#[tactic(auto, using(crate::proofs::Lists::pushing))]
fn add_truths(
    positive: bool,
    pred: PredId,
    lists: &[Few],
    to: &mut Vec<New>,
) -> Result<(), AllocError>
    ensures { OnOk result (map new_of to.new.items ≡ map new_of to.old.items ++ map (λ ds. NewTruth positive (ground pred.0 ds)) (map few_of lists.now)) }
{
    for ds in lists {
        to.push(New::Truth(positive, ds.atom(pred)))?;
    }
    Ok(())
}

/// Adds that the place has each of the values.
#[tactic(auto, using(crate::proofs::Lists::pushing))]
fn add_given(place: &Term, values: &[ObjId], to: &mut Vec<New>) -> Result<(), AllocError>
    ensures { OnOk result (map new_of to.new.items ≡ map new_of to.old.items ++ map (NewValue (term_of place.now)) (map object_of values.now)) }
{
    for d in values {
        to.push(New::Value(*place, *d))?;
    }
    Ok(())
}

/// Adds that the function has each of the values at each of the lists of objects.
#[tactic(auto, using(crate::proofs::Lists::pushing))]
fn add_placed(
    fun: FnId,
    pairs: &[Pair],
    values: &[ObjId],
    to: &mut Vec<New>,
) -> Result<(), AllocError>
    ensures { OnOk result (map new_of to.new.items ≡ map new_of to.old.items ++ flat_map (λ ds. map (NewValue (place fun.0 ds)) (map object_of values.now)) (map pair_of pairs.now)) }
{
    for ds in pairs {
        add_given(&ds.place(fun), values, to)?;
    }
    Ok(())
}

impl RelaxedFacts {
    /// Adds what making the atom true, or false, may make so.
    fn add_atom_news(
        &self,
        alloc: Global,
        w: &World,
        positive: bool,
        a: &PredAtom,
        to: &mut Vec<New>,
    ) -> Result<(), AllocError>
        ensures { OnOk result (map new_of to.new.items ≡ map new_of to.old.items ++ atom_news (chances_of (world_of w.now) self.now) positive (atom_of a.now)) }
    {
        let mut lists = Vec::new(alloc);
        self.add_lists(alloc, w, terms_in(&a.args, a.n), &Few::none(), &mut lists)?;
        add_truths(positive, a.pred, lists.as_slice(), to)?;
        Ok(())
    }

    /// Adds what giving the place the value may make so.
    fn add_place_news(
        &self,
        alloc: Global,
        w: &World,
        at: &Term,
        value: &Term,
        to: &mut Vec<New>,
    ) -> Result<(), AllocError>
        ensures news { IsApplication at.now → OnOk result (map new_of to.new.items ≡ map new_of to.old.items ++ place_news (chances_of (world_of w.now) self.now) (number_of (term_of at.now)) (arguments_of (term_of at.now)) (term_of value.now)) }
    {
        if let Term::App { fun, n, args } = at {
            let values = self.values(alloc, w, value)?;
            let mut pairs = Vec::new(alloc);
            self.add_pairs(alloc, w, inners_in(args, *n), &Pair::none(), &mut pairs)?;
            add_placed(*fun, pairs.as_slice(), values.as_slice(), to)?;
        }
        Ok(())
    }

    /// Adds what the target may make so.
    #[tactic(auto, using(crate::proofs::Lists::pushing))]
    fn add_news(
        &self,
        alloc: Global,
        w: &World,
        target: &Target,
        to: &mut Vec<New>,
    ) -> Result<(), AllocError>
        requires { AssignsToPlace target.now }
        ensures { OnOk result (map new_of to.new.items ≡ map new_of to.old.items ++ news (chances_of (world_of w.now) self.now) (target_of target.now)) }
    {
        match target {
            Target::Set(a) => {
                self.add_atom_news(alloc, w, true, a, to)?;
                Ok(())
            }
            Target::Unset(a) => {
                self.add_atom_news(alloc, w, false, a, to)?;
                Ok(())
            }
            Target::Clear(x) => {
                to.push(New::Cleared(x.pred))?;
                Ok(())
            }
            Target::Assign { place, value } => {
                self.add_place_news(alloc, w, place, value, to)?;
                Ok(())
            }
        }
    }

    /// Adds what the effect may make so, where its condition may be true.
    #[tactic(auto, using(crate::proofs::Lists::pushing))]
    fn add_effect_news(
        &self,
        alloc: Global,
        w: &World,
        effect: &Effect,
        to: &mut Vec<New>,
    ) -> Result<(), AllocError>
        requires { AssignsToPlace effect.now.target }
        ensures { OnOk result (map new_of to.new.items ≡ map new_of to.old.items ++ effect_news (chances_of (world_of w.now) self.now) (effect_of effect.now)) }
    {
        if !self.all_may(alloc, w, front(&effect.cond.literals, effect.cond.n))? {
            return Ok(());
        }
        self.add_news(alloc, w, &effect.target, to)?;
        Ok(())
    }

    /// Adds what the effects may make so.
    #[tactic(auto, using(crate::proofs::Lists::pushing))]
    fn add_effects_news(
        &self,
        alloc: Global,
        w: &World,
        effects: &[Effect],
        to: &mut Vec<New>,
    ) -> Result<(), AllocError>
        requires { Each (λ e. AssignsToPlace e.target) effects.now }
        ensures { OnOk result (map new_of to.new.items ≡ map new_of to.old.items ++ flat_map (effect_news (chances_of (world_of w.now) self.now)) (map effect_of effects.now)) }
    {
        for effect in effects {
            self.add_effect_news(alloc, w, effect, to)?;
        }
        Ok(())
    }

    /// Adds what the action may make so, where what it asks for may be so.
    #[tactic(auto, using(crate::proofs::Lists::pushing))]
    fn add_ground_action_news(
        &self,
        alloc: Global,
        w: &World,
        ground_action: &GroundAction,
        to: &mut Vec<New>,
    ) -> Result<(), AllocError>
        requires { Each (λ e. AssignsToPlace e.target) ground_action.now.effects.items }
        ensures { OnOk result (map new_of to.new.items ≡ map new_of to.old.items ++ ground_action_news (chances_of (world_of w.now) self.now) (ground_action_of ground_action.now)) }
    {
        if !self.all_may(alloc, w, ground_action.pre.as_slice())? {
            return Ok(());
        }
        self.add_effects_news(alloc, w, ground_action.effects.as_slice(), to)?;
        Ok(())
    }

    /// What the actions may make so.
    pub(crate) fn news(
        &self,
        alloc: Global,
        w: &World,
        ground_actions: &[GroundAction],
    ) -> Result<Vec<New>, AllocError>
        requires { Each (λ x. Each (λ e. AssignsToPlace e.target) x.effects.items) ground_actions.now }
        ensures { IfOk result (λ v. map new_of v.items ≡ flat_map (ground_action_news (chances_of (world_of w.now) self.now)) (map ground_action_of ground_actions.now)) }
    {
        let mut found = Vec::new(alloc);
        for ground_action in ground_actions {
            self.add_ground_action_news(alloc, w, ground_action, &mut found)?;
        }
        Ok(found)
    }
}
