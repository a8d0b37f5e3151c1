//! Actions whose arguments are objects.
ghost use Rattle.std.specs.Prelude.{◌≡◌, ◌≤◌};
ghost use Rattle.pks_terms.specs.Counts.{InstanceCounts};
ghost use Rattle.pks_terms.specs.Worlds.{inner_value};
ghost use Rattle.pks_terms.specs.Knowledge.{grounded};
ghost use Rattle.pks_terms.specs.Views.{inner_of, instance_of};
ghost use Rattle.pks_world.specs.Contents.{world_of};

use crate::worlds::World;
use pks_terms::ids::ObjId;
use pks_terms::schema::Instance;
use pks_terms::term::Inner;

/// The value of an argument in the world. It takes no memory.
pub fn argument_value(w: &World, t: &Inner) -> ObjId
    ensures { result.0 ≡ inner_value (world_of w.now) (inner_of t.now) }
{
    w.value(&t.as_term())
}

/// The action with the values that its arguments have in the world in their place. It takes no memory.
pub fn ground_instance(w: &World, i: &Instance) -> Instance
    ensures says { instance_of result ≡ grounded (world_of w.now) (instance_of i.now) }
    ensures counts { i.now.n ≤ 4 → InstanceCounts result }
{
    Instance {
        act: i.act,
        n: i.n,
        args: [
            Inner::Obj(argument_value(w, &i.args[0])),
            Inner::Obj(argument_value(w, &i.args[1])),
            Inner::Obj(argument_value(w, &i.args[2])),
            Inner::Obj(argument_value(w, &i.args[3])),
        ],
    }
}
