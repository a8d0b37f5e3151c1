//! A world that may be the present one, and a bound on the actions that it is away from the goal.
ghost use Rattle.std.specs.Prelude.{◌≡◌, ◌<◌, IfOk, IsTrue};
ghost use Rattle.pks_terms.specs.Knowledge.{grounded, after_action};
ghost use Rattle.pks_terms.specs.Valid.{IsValid};
ghost use Rattle.pks_terms.specs.Views.{instance_of, problem_of};
ghost use Rattle.pks_world.specs.Contents.{world_of};
ghost use Rattle.pks_search_distance.specs.Remembered.{AreItsGroundActions};
ghost use Rattle.pks_search_witness.specs.Near.{world_in, is_beyond, IsCounted};

use crate::idling::is_idle;
use pks_search_distance::GroundActions;
use pks_terms::problem::Problem;
use pks_terms::schema::Instance;
use pks_world::{World, ground_instance};
use std::alloc::{AllocError, Global};
use std::rc::Rc;

/// A world that may be the present one, and a bound on the actions that it is away from the goal: no run of fewer leads there, and where
/// there is no number none does.
#[derive(Drop)]
pub struct Witness {
    pub(crate) world: Rc<World>,
    pub(crate) needs: Option<u32>,
}

impl Witness {
    /// The world with its bound, which is counted up to `most`.
    pub fn of(
        alloc: Global,
        p: &Problem<'_>,
        ground_actions: &mut GroundActions,
        world: World,
        most: u32,
    ) -> Result<Witness, AllocError>
        requires { AreItsGroundActions (problem_of p.now) ground_actions.old }
        ensures world { IfOk result (λ x. world_in x ≡ world_of world) }
        ensures counted { IfOk result (IsCounted (problem_of p.now)) }
        ensures ground_actions { AreItsGroundActions (problem_of p.now) ground_actions.new }
    {
        let world = Rc::new(alloc, world)?;
        let needs = ground_actions.bound(alloc, p, &world, most)?;
        Ok(Witness { world, needs })
    }

    /// The world after the action with its bound, which is counted up to `most`.
    pub fn after(
        &self,
        alloc: Global,
        p: &Problem<'_>,
        ground_actions: &mut GroundActions,
        step: &Instance,
        most: u32,
    ) -> Result<Witness, AllocError>
        requires valid { IsValid (problem_of p.now) }
        requires ground_actions { AreItsGroundActions (problem_of p.now) ground_actions.old }
        ensures world { IfOk result (λ x. world_in x ≡ after_action (problem_of p.now) (world_in self.now) (grounded (world_in self.now) (instance_of step.now))) }
        ensures counted { IfOk result (IsCounted (problem_of p.now)) }
        ensures ground_actions { AreItsGroundActions (problem_of p.now) ground_actions.new }
    {
        let next = self.world.apply(p, &ground_instance(&self.world, step))?;
        Witness::of(alloc, p, ground_actions, next, most)
    }

    /// Whether the action leaves the world as it is. Where it doesn't say so, it may do so all the same. It takes no memory.
    pub fn stays(&self, p: &Problem<'_>, step: &Instance) -> bool
        ensures { IsTrue result → after_action (problem_of p.now) (world_in self.now) (grounded (world_in self.now) (instance_of step.now)) ≡ world_in self.now }
    {
        is_idle(p, &self.world, &ground_instance(&self.world, step))
    }

    /// The same world with the same bound. The error is want of memory for one more reference.
    pub fn share(&self) -> Result<Witness, AllocError>
        ensures world { IfOk result (λ x. world_in x ≡ world_in self.now) }
        ensures needs { IfOk result (λ x. x.needs ≡ self.now.needs) }
    {
        let world = self.world.clone()?;
        Ok(Witness {
            world,
            needs: self.needs,
        })
    }

    /// Whether the goal is more than `n` actions away.
    pub fn is_beyond(&self, n: u32) -> bool
        ensures { result ≡ is_beyond self.now n }
    {
        match self.needs {
            Some(k) => n < k,
            None => true,
        }
    }

    /// The world.
    pub fn world(&self) -> &World
        ensures { world_of result.now ≡ world_in self.now }
    {
        &self.world
    }
}
