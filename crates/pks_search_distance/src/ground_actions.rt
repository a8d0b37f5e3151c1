//! The ground actions of a problem: what each asks for, and what it does.
ghost use Rattle.std.specs.Prelude.{◌≡◌, ◌≤◌, ◌<◌, ◌+◌, ◌++◌, [], ◌∷◌, map, take, length, IfOk, OnOk, IfSome};
ghost use Rattle.std.specs.List.{flat_map};
ghost use Rattle.pks_terms.specs.declared.limits.TheConstants.{MOST_OBJECTS};
ghost use Rattle.pks_terms.specs.Sets.{Each};
ghost use Rattle.pks_terms.specs.Syntax.{Object};
ghost use Rattle.pks_terms.specs.ValidProblems.{IsValidProblem, ArePlaced};
ghost use Rattle.pks_terms.specs.Views.{object_of, inner_of, given_of, types_of, literals_in, query_of, schema_of, signature_of, problem_of};
ghost use Rattle.pks_search_distance.specs.Relaxed.{asked_at, ground_action_with, ground_actions_from, all_ground_actions};
ghost use Rattle.pks_search_distance.specs.Gained.{ground_action_of};
ghost use Rattle.pks_search_distance.specs.Remembered.{AreItsGroundActions};

use crate::counted::Counts;
use crate::landmarks::{Landmark, most_reached};
use crate::marking::landmarks_for;
use crate::wanted::{add_all_wanted, most_met};
use pks_terms::ids::{ActId, ObjId, TypeId};
use pks_terms::literal::Literal;
use pks_terms::problem::{Problem, Signature};
use pks_terms::putting::effects_at;
use pks_terms::schema::{Effect, Instance, Query, Schema};
use pks_terms::term::Inner;
use std::alloc::{AllocError, Global};

/// How many ground actions a problem may have for a bound to be counted.
const MOST: u64 = 2_000;

/// A ground action: the literals that it asks for, and its effects.
#[derive(Drop)]
pub(crate) struct GroundAction {
    pub(crate) pre: Vec<Literal>,
    pub(crate) effects: Vec<Effect>,
}

/// The ground actions of a problem, the literals that its goal asks for, the most of them that one action may make true, the same of
/// landmarks, and the bounds that were counted.
#[derive(Drop)]
pub struct GroundActions {
    pub(crate) ground_actions: Vec<GroundAction>,
    pub(crate) wanted: Vec<Literal>,
    pub(crate) met: usize,
    pub(crate) landmarks: Vec<Landmark>,
    pub(crate) reached: usize,
    pub(crate) counts: Counts,
}

/// Adds the literals that the queries ask for, with the instance's arguments put in.
#[tactic(auto, using(crate::proofs::Lists::pushing))]
fn add_asked(pre: &[Query], i: &Instance, to: &mut Vec<Literal>) -> Result<(), AllocError>
    ensures { OnOk result (literals_in to.new.items ≡ literals_in to.old.items ++ asked_at (given_of i.now) (map query_of pre.now)) }
{
    for q in pre {
        if let Query::K(l) = q {
            to.push(l.at(i))?;
        }
    }
    Ok(())
}

/// The ground action.
fn ground_action_at(
    alloc: Global,
    schema: &Schema<'_>,
    i: &Instance,
) -> Result<GroundAction, AllocError>
    requires { ArePlaced schema.now.effects }
    ensures says { IfOk result (λ x. ground_action_of x ≡ ground_action_with (schema_of schema.now) (given_of i.now)) }
    ensures placed { IfOk result (λ x. ArePlaced x.effects.items) }
{
    let mut pre = Vec::new(alloc);
    add_asked(schema.pre.as_slice(), i, &mut pre)?;
    let effects = effects_at(alloc, schema.effects.as_slice(), i)?;
    Ok(GroundAction { pre, effects })
}

/// An instance without arguments. Which action it is of doesn't matter.
fn without_arguments() -> Instance
    ensures given { given_of result ≡ [] }
    ensures count { result.n ≡ 0 }
{
    Instance {
        act: ActId(0),
        n: 0,
        args: [Inner::default(); 4],
    }
}

/// The arguments with one more behind those in use.
fn put(args: &[Inner; 4], n: u8, d: ObjId) -> [Inner; 4]
    requires { n < 4 }
    ensures { map inner_of (take (n + 1) result) ≡ map inner_of (take n args.now) ++ Object d.0 ∷ [] }
{
    let mut all = *args;
    all[n as usize] = Inner::Obj(d);
    all
}

/// The instance with one more argument.
fn with(i: &Instance, d: ObjId) -> Instance
    requires { i.now.n < 4 }
    ensures given { given_of result ≡ given_of i.now ++ Object d.0 ∷ [] }
    ensures count { result.n ≡ i.now.n + 1 }
{
    Instance {
        act: i.act,
        n: i.n + 1,
        args: put(&i.args, i.n, d),
    }
}

/// Adds the ground actions that begin with these arguments.
#[cycle(grounding)]
#[tactic(auto, using(crate::proofs::Lists::pushing))]
fn add_ground_actions(
    alloc: Global,
    s: &Signature,
    schema: &Schema<'_>,
    params: &[TypeId],
    given: &Instance,
    to: &mut Vec<GroundAction>,
) -> Result<(), AllocError>
    requires objects { length s.now.objects ≤ MOST_OBJECTS }
    requires few { given.now.n + length params.now ≤ 4 }
    requires placed { ArePlaced schema.now.effects }
    requires old { Each (λ x. ArePlaced x.effects.items) to.old.items }
    ensures says { OnOk result (map ground_action_of to.new.items ≡ map ground_action_of to.old.items ++ ground_actions_from (signature_of s.now) (schema_of schema.now) (given_of given.now) (types_of params.now)) }
    ensures placed { OnOk result (Each (λ x. ArePlaced x.effects.items) to.new.items) }
{
    match params {
        [] => {
            let ground_action = ground_action_at(alloc, schema, given)?;
            to.push(ground_action)?;
            Ok(())
        }
        [of, rest @ ..] => {
            let objects = s.objects_of(alloc, *of)?;
            add_each_ground_action(alloc, s, schema, objects.as_slice(), rest, given, to)?;
            Ok(())
        }
    }
}

/// The same where the next argument is one of the objects.
#[cycle(grounding)]
fn add_each_ground_action(
    alloc: Global,
    s: &Signature,
    schema: &Schema<'_>,
    objects: &[ObjId],
    params: &[TypeId],
    given: &Instance,
    to: &mut Vec<GroundAction>,
) -> Result<(), AllocError>
    requires objects { length s.now.objects ≤ MOST_OBJECTS }
    requires few { given.now.n + 1 + length params.now ≤ 4 }
    requires placed { ArePlaced schema.now.effects }
    requires old { Each (λ x. ArePlaced x.effects.items) to.old.items }
    ensures says { OnOk result (map ground_action_of to.new.items ≡ map ground_action_of to.old.items ++ flat_map (λ d. ground_actions_from (signature_of s.now) (schema_of schema.now) (given_of given.now ++ Object d ∷ []) (types_of params.now)) (map object_of objects.now)) }
    ensures placed { OnOk result (Each (λ x. ArePlaced x.effects.items) to.new.items) }
{
    for d in objects {
        add_ground_actions(alloc, s, schema, params, &with(given, *d), to)?;
    }
    Ok(())
}

/// Adds the ground actions of each of the actions.
#[tactic(auto, using(crate::proofs::Lists::pushing))]
fn add_all_ground_actions(
    alloc: Global,
    s: &Signature,
    schemas: &[Schema<'_>],
    to: &mut Vec<GroundAction>,
) -> Result<(), AllocError>
    requires objects { length s.now.objects ≤ MOST_OBJECTS }
    requires few { Each (λ x. length x.params ≤ 4) schemas.now }
    requires placed { Each (λ x. ArePlaced x.effects) schemas.now }
    requires old { Each (λ x. ArePlaced x.effects.items) to.old.items }
    ensures says { OnOk result (map ground_action_of to.new.items ≡ map ground_action_of to.old.items ++ flat_map (all_ground_actions (signature_of s.now)) (map schema_of schemas.now)) }
    ensures placed { OnOk result (Each (λ x. ArePlaced x.effects.items) to.new.items) }
{
    let bare = without_arguments();
    for schema in schemas {
        add_ground_actions(alloc, s, schema, schema.params.as_slice(), &bare, to)?;
    }
    Ok(())
}

/// How many ground actions there are of an action with these parameters.
fn instances_of(alloc: Global, s: &Signature, params: &[TypeId]) -> Result<u64, AllocError>
    requires { length s.now.objects ≤ MOST_OBJECTS }
{
    let mut all: u64 = 1;
    for of in params {
        let objects = s.objects_of(alloc, *of)?;
        all = all.saturating_mul(objects.len() as u64);
    }
    Ok(all)
}

/// How many ground actions there are.
fn count(alloc: Global, p: &Problem<'_>) -> Result<u64, AllocError>
    requires { length p.now.signature.objects ≤ MOST_OBJECTS }
{
    let mut all: u64 = 0;
    for schema in p.schemas.as_slice() {
        let own = instances_of(alloc, &p.signature, schema.params.as_slice())?;
        all = all.saturating_add(own);
    }
    Ok(all)
}

impl GroundActions {
    /// The ground actions of the problem, or `None` where there are too many for a bound to be worth its time. It asks for a valid
    /// problem. The error is want of memory.
    pub fn of(alloc: Global, p: &Problem<'_>) -> Result<Option<GroundActions>, AllocError>
        requires { IsValidProblem p.now }
        ensures { IfOk result (λ o. IfSome o (AreItsGroundActions (problem_of p.now))) }
    {
        if count(alloc, p)? > MOST {
            return Ok(None);
        }
        let mut ground_actions = Vec::new(alloc);
        add_all_ground_actions(
            alloc,
            &p.signature,
            p.schemas.as_slice(),
            &mut ground_actions,
        )?;
        let mut wanted = Vec::new(alloc);
        add_all_wanted(p.goal.as_slice(), &mut wanted)?;
        let met = most_met(ground_actions.as_slice(), wanted.as_slice());
        let marks = landmarks_for(alloc, ground_actions.as_slice(), wanted.as_slice())?;
        let reached = most_reached(ground_actions.as_slice(), marks.as_slice());
        let counts = Counts::new(alloc)?;
        Ok(Some(GroundActions {
            ground_actions,
            wanted,
            met,
            landmarks: marks,
            reached,
            counts,
        }))
    }
}
