//! Actions that leave a world as it is.
ghost use Rattle.std.specs.Prelude.{◌≡◌, map};
ghost use Rattle.std.specs.List.{list_all};
ghost use Rattle.pks_terms.specs.Syntax.{affirmed};
ghost use Rattle.pks_terms.specs.Actions.{effect_at};
ghost use Rattle.pks_terms.specs.Views.{given_of, instance_of, target_of, effect_of, problem_of};
ghost use Rattle.pks_world.specs.Contents.{world_of};
ghost use Rattle.pks_search_witness.specs.Idle.{is_written, is_idle, are_idle};

use pks_terms::literal::positive_literal;
use pks_terms::lookup::written_effects;
use pks_terms::problem::Problem;
use pks_terms::schema::{Effect, Instance, Target};
use pks_world::World;

/// Whether what the target makes so is so already, as far as it is looked at.
fn is_written(w: &World, target: &Target) -> bool
    ensures { result ≡ is_written (world_of w.now) (target_of target.now) }
{
    match target {
        Target::Set(a) => w.holds(&positive_literal(a)),
        Target::Unset(a) => !w.holds(&positive_literal(a)),
        Target::Clear(_) | Target::Assign { .. } => false,
    }
}

/// Whether the effect doesn't fire, or what it makes so is so already.
fn is_idle_effect(w: &World, e: &Effect) -> bool
    ensures { result ≡ is_idle (world_of w.now) (effect_of e.now) }
{
    !w.holds_all(&e.cond) || is_written(w, &e.target)
}

/// Whether so each of the effects, with the instance's arguments put in.
fn are_idle(w: &World, effects: &[Effect], i: &Instance) -> bool
    ensures { result ≡ list_all (is_idle (world_of w.now)) (map (effect_at (given_of i.now)) (map effect_of effects.now)) }
{
    for e in effects {
        if !is_idle_effect(w, &e.at(i)) {
            return false;
        }
    }
    true
}

/// Whether the ground action leaves the world as it is, as far as it is looked at.
pub(crate) fn is_idle(p: &Problem<'_>, w: &World, i: &Instance) -> bool
    ensures { result ≡ are_idle (problem_of p.now) (world_of w.now) (instance_of i.now) }
{
    are_idle(w, written_effects(p, i.act), i)
}
