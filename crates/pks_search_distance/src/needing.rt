//! The bound.
ghost use Rattle.std.specs.Prelude.{◌≡◌, false, map, min, option_map, IfOk, OnOk};
ghost use Rattle.std.specs.List.{flat_map};
ghost use Rattle.pks_terms.specs.Sets.{Each};
ghost use Rattle.pks_terms.specs.Problems.{Problem as SProblem};
ghost use Rattle.pks_terms.specs.Views.{problem_of};
ghost use Rattle.pks_world.specs.Contents.{world_of};
ghost use Rattle.pks_search_distance.specs.Levels.{Grows, IsBound};
ghost use Rattle.pks_search_distance.specs.Unmet.{fewest, greater};
ghost use Rattle.pks_search_distance.specs.Relaxed.{ground_action_news, IsNewIn};
ghost use Rattle.pks_terms.specs.ValidProblems.{ArePlaced};
ghost use Rattle.pks_search_distance.specs.Gained.{chances_of, some_new, ground_action_of, AreGroundActions};
ghost use Rattle.pks_search_distance.specs.Remembered.{AreItsGroundActions};

use crate::counted::Bound;
use crate::gains::RelaxedFacts;
use crate::ground_actions::GroundActions;
use crate::landmarks::unmet_marks;
use crate::wanted::count_unmet;
use pks_terms::problem::Problem;
use pks_world::World;
use std::alloc::{AllocError, Global};
use std::rc::Rc;

/// How much a level may take for a bound to be worth its time: for each ground action the square of the number of noted values.
const MOST_WORK: usize = 200_000;

fn is_too_much(values: usize, actions: usize) -> bool {
    values.saturating_mul(values).saturating_mul(actions) > MOST_WORK
}

/// How many actions meet so many literals, where one meets at most `met`, as far as `most`; `None` where none meets any.
fn fewest(met: usize, unmet: usize, most: u32) -> Option<u32>
    ensures { result ≡ option_map (min most) (fewest met unmet) }
{
    if unmet == 0 {
        return Some(0);
    }
    if met == 0 {
        return None;
    }
    let needs = (unmet - 1) / met;
    if needs >= most as usize {
        return Some(most);
    }
    Some(needs as u32 + 1)
}

/// The greater of two bounds: none where one of them is none.
fn greater(a: Option<u32>, b: Option<u32>) -> Option<u32>
    ensures { result ≡ greater a b }
{
    match (a, b) {
        (Some(a), Some(b)) => Some(a.max(b)),
        _ => None,
    }
}

/// Whether counting up to `most` can't add to the bound.
fn is_enough(needs: Option<u32>, most: u32) -> bool {
    match needs {
        Some(k) => most <= k,
        None => true,
    }
}

impl GroundActions {
    /// Goes on to the next level; answers whether it has something that this one hasn't.
    fn go_on(&self, alloc: Global, w: &World, gains: &mut RelaxedFacts) -> Result<bool, AllocError>
        requires { Each (λ x. ArePlaced x.effects.items) self.now.ground_actions.items }
        ensures grows { OnOk result (Grows (chances_of (world_of w.now) gains.old) (chances_of (world_of w.now) gains.new)) }
        ensures has { OnOk result (Each (IsNewIn (chances_of (world_of w.now) gains.new)) (flat_map (ground_action_news (chances_of (world_of w.now) gains.old)) (map ground_action_of self.now.ground_actions.items))) }
        ensures told { IfOk result (λ b. b ≡ some_new (world_of w.now) gains.old (flat_map (ground_action_news (chances_of (world_of w.now) gains.old)) (map ground_action_of self.now.ground_actions.items))) }
        ensures same { IfOk result (λ b. b ≡ false → gains.new ≡ gains.old) }
    {
        let found = gains.news(alloc, w, self.ground_actions.as_slice())?;
        let grew = gains.take_all(w, found.as_slice())?;
        Ok(grew)
    }

    /// The bound, counted.
    fn needs(
        &self,
        alloc: Global,
        p: &Problem<'_>,
        w: &World,
        most: u32,
    ) -> Result<Option<u32>, AllocError>
        requires { AreGroundActions (problem_of p.now) self.now (world_of w.now) }
        ensures { IfOk result (IsBound (problem_of p.now) (world_of w.now)) }
    {
        let mut gains = RelaxedFacts::none(alloc);
        for k in 0..most {
            if is_too_much(gains.values.len(), self.ground_actions.len()) {
                return Ok(Some(k));
            }
            let met = gains.goal_may(alloc, w, p.goal.as_slice())?;
            if met {
                return Ok(Some(k));
            }
            if k + 1 == most {
                return Ok(Some(most));
            }
            let grew = self.go_on(alloc, w, &mut gains)?;
            if !grew {
                return Ok(None);
            }
        }
        Ok(Some(most))
    }

    /// How many actions meet the goal's literals, and the landmarks, that are unmet, as far as `most`.
    fn few(&self, w: &World, most: u32) -> Option<u32>
        ensures { (p : SProblem) → AreItsGroundActions p self.now → IsBound p (world_of w.now) result }
    {
        let goals = fewest(self.met, count_unmet(w, self.wanted.as_slice()), most);
        if is_enough(goals, most) {
            return goals;
        }
        let marks = fewest(
            self.reached,
            unmet_marks(w, self.landmarks.as_slice()),
            most,
        );
        greater(goals, marks)
    }

    /// A bound on the actions that the world is away from the goal: no run of fewer leads to it, and where there is no bound none leads to
    /// it at all. It is counted up to `most`, where it wasn't counted as far before. It asks for the ground actions of the problem. The
    /// error is want of memory.
    #[tactic(auto, using(crate::proofs::Remembering::with_table))]
    pub fn bound(
        &mut self,
        alloc: Global,
        p: &Problem<'_>,
        w: &Rc<World>,
        most: u32,
    ) -> Result<Option<u32>, AllocError>
        requires { AreItsGroundActions (problem_of p.now) self.old }
        ensures bound { IfOk result (IsBound (problem_of p.now) (world_of w.now.value)) }
        ensures ground_actions { AreItsGroundActions (problem_of p.now) self.new }
    {
        let world: &World = w;
        let counted = self.few(world, most);
        if is_enough(counted, most) {
            return Ok(counted);
        }
        let mark = world.mark();
        if let Some(known) = self.counts.tells(mark, world, most) {
            return Ok(known.needs);
        }
        let levels = self.needs(alloc, p, world, most)?;
        let needs = greater(counted, levels);
        self.counts.note(mark, w, Bound { needs, most });
        Ok(needs)
    }
}
