//! The effects of an action with its arguments. `docs/RULES.md` has the rule on actions.
ghost use Rattle.std.specs.Prelude.{◌≡◌};
ghost use Rattle.pks_terms.specs.Settling.{effects_of};
ghost use Rattle.pks_terms.specs.Views.{instance_of, problem_of};
ghost use Rattle.pks_progress_interference.specs.EffectViews.{effects_in};

use pks_terms::lookup::written_effects;
use pks_terms::problem::Problem;
use pks_terms::schema::{Effect, Instance};

/// The effects of an action as written, and the instance whose arguments are put in as each is read.
#[derive(Clone, Copy)]
pub struct Effects<'a> {
    /// The effects, with parameters.
    pub written: &'a [Effect],
    /// What stands for the parameters.
    pub instance: &'a Instance,
}

/// The effects of the instance's action, none where it isn't declared. It takes no memory.
pub fn effects_of<'a>(p: &'a Problem<'_>, i: &'a Instance) -> Effects<'a>
    ensures { effects_in result ≡ effects_of (problem_of p.now) (instance_of i.now) }
{
    Effects {
        written: written_effects(p, i.act),
        instance: i,
    }
}
