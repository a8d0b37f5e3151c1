//! Twins: two worlds of which each may be the present one.
ghost use Rattle.std.specs.Prelude.{◌≡◌, map, IfOk, IfSome, IsTrue};
ghost use Rattle.std.specs.List.{list_all};
ghost use Rattle.pks_terms.specs.Actions.{sense_at};
ghost use Rattle.pks_terms.specs.Problems.{schema_of};
ghost use Rattle.pks_terms.specs.Knowledge.{after_action};
ghost use Rattle.pks_terms.specs.Valid.{IsValid};
ghost use Rattle.pks_terms.specs.Views.{given_of, instance_of, sense_of, problem_of};
ghost use Rattle.pks_world.specs.Contents.{world_of};
ghost use Rattle.pks_search_witness.specs.Apart.{first_in, second_in, AreAfter, are_equal, finds_same};

use crate::idling::is_idle;
use pks_terms::ids::ActId;
use pks_terms::problem::Problem;
use pks_terms::schema::{Instance, Sense};
use pks_world::{World, ground_instance};
use std::alloc::{AllocError, Global};
use std::rc::Rc;

/// Two worlds of which each may be the present one, with the same seen along their runs.
#[derive(Drop)]
pub struct Twins {
    pub(crate) one: Rc<World>,
    pub(crate) other: Rc<World>,
}

/// The same world.
fn share_world(w: &Rc<World>) -> Result<Rc<World>, AllocError>
    ensures { IfOk result (λ v. world_of v.value ≡ world_of w.now.value) }
{
    let same = w.clone()?;
    Ok(same)
}

/// The world after the ground action: the same, where the action leaves it as it is.
fn world_after(
    alloc: Global,
    p: &Problem<'_>,
    w: &Rc<World>,
    i: &Instance,
) -> Result<Rc<World>, AllocError>
    requires { IsValid (problem_of p.now) }
    ensures { IfOk result (λ v. world_of v.value ≡ after_action (problem_of p.now) (world_of w.now.value) (instance_of i.now)) }
{
    if is_idle(p, w, i) {
        let same = share_world(w)?;
        return Ok(same);
    }
    let next = w.apply(p, i)?;
    let next = Rc::new(alloc, next)?;
    Ok(next)
}

/// The senses of the action, none where it isn't declared.
fn senses_of<'a>(p: &'a Problem<'_>, act: ActId) -> &'a [Sense]
    ensures { map sense_of result.now ≡ (schema_of (problem_of p.now) act.0).senses }
{
    match p.schemas.as_slice().get(usize::from(act.0)) {
        Some(schema) => schema.senses.as_slice(),
        None => &[],
    }
}

/// Whether both or neither.
pub(crate) fn are_equal(a: bool, b: bool) -> bool
    ensures { result ≡ are_equal a b }
{
    match a {
        true => b,
        false => !b,
    }
}

/// Whether the sense surely finds the same in both worlds.
fn finds_same(w: &World, u: &World, sense: &Sense) -> bool
    ensures { result ≡ finds_same (world_of w.now) (world_of u.now) (sense_of sense.now) }
{
    match sense {
        Sense::Whether(c) => are_equal(w.holds_all(c), u.holds_all(c)),
        Sense::Value(t) => w.value(t).0 == u.value(t).0,
        Sense::All(_) => false,
    }
}

/// Whether each of the senses does, with the instance's arguments put in.
fn find_same(w: &World, u: &World, senses: &[Sense], i: &Instance) -> bool
    ensures { result ≡ list_all (finds_same (world_of w.now) (world_of u.now)) (map (sense_at (given_of i.now)) (map sense_of senses.now)) }
{
    for sense in senses {
        if !finds_same(w, u, &sense.at(i)) {
            return false;
        }
    }
    true
}

impl Twins {
    /// The two worlds.
    pub(crate) fn of(alloc: Global, one: World, other: World) -> Result<Twins, AllocError>
        ensures first { IfOk result (λ x. first_in x ≡ world_of one) }
        ensures second { IfOk result (λ x. second_in x ≡ world_of other) }
    {
        let one = Rc::new(alloc, one)?;
        let other = Rc::new(alloc, other)?;
        Ok(Twins { one, other })
    }

    /// The worlds after the action, where the same is seen then in both, and else none. Where it gives none, the same may be seen
    /// all the same.
    pub fn after(
        &self,
        alloc: Global,
        p: &Problem<'_>,
        step: &Instance,
    ) -> Result<Option<Twins>, AllocError>
        requires { IsValid (problem_of p.now) }
        ensures { IfOk result (λ o. IfSome o (AreAfter (problem_of p.now) (instance_of step.now) self.now)) }
    {
        let i = ground_instance(&self.one, step);
        let one = world_after(alloc, p, &self.one, &i)?;
        let other = world_after(alloc, p, &self.other, &ground_instance(&self.other, step))?;
        if !find_same(&one, &other, senses_of(p, step.act), &i) {
            return Ok(None);
        }
        Ok(Some(Twins { one, other }))
    }

    /// The same two worlds. The error is want of memory for two more references.
    pub fn share(&self) -> Result<Twins, AllocError>
        ensures first { IfOk result (λ x. first_in x ≡ first_in self.now) }
        ensures second { IfOk result (λ x. second_in x ≡ second_in self.now) }
    {
        let one = share_world(&self.one)?;
        let other = share_world(&self.other)?;
        Ok(Twins { one, other })
    }

    /// Whether these are the same two worlds.
    pub(crate) fn same(&self, x: &Twins) -> bool {
        self.one.same(&x.one) && self.other.same(&x.other)
    }

    /// Whether the two are one world. Where it doesn't say so, they may be so all the same. It takes no memory.
    pub fn have_met(&self) -> bool
        ensures { IsTrue result → first_in self.now ≡ second_in self.now }
    {
        self.one.same(&self.other)
    }

    /// The first of the two.
    pub fn one(&self) -> &World
        ensures { world_of result.now ≡ first_in self.now }
    {
        &self.one
    }
}
