//! Going through the instances of actions, of which beginnings are kept. `docs/RULES.md` has the rule on choices.
ghost use Rattle.std.specs.Prelude.{◌≡◌, ◌<◌, ◌≤◌, ◌+◌, ◌++◌, [], ◌∷◌, map, take, length, option_map, slice_get, IfOk, IsSome, OnOk};
ghost use Rattle.std.specs.List.{list_all, flat_map};
ghost use Rattle.std.specs.Option.{option_to_list};
ghost use Rattle.pks_terms.specs.declared.limits.TheConstants.{MOST_OBJECTS};
ghost use Rattle.pks_terms.specs.Actions.{query_at};
ghost use Rattle.pks_terms.specs.Queries.{answers};
ghost use Rattle.pks_terms.specs.Branching.{candidates, numbered};
ghost use Rattle.pks_terms.specs.ValidProblems.{IsValidProblem};
ghost use Rattle.pks_terms.specs.Views.{inner_of, given_of, instance_of, query_of, schema_of, types_of, signature_of, problem_of};
ghost use Rattle.pks_query_lookup.specs.Fives.{five_of};
ghost use Rattle.pks_branch.specs.WalkViews.{beginnings_of};
ghost use Rattle.pks_branch.specs.Walks.{allowed_at, begun, bare, longer, GoesOn, IsNext};

use crate::candidates::candidates;
use crate::early::is_barred;
use pks_query::databases::Db;
use pks_terms::ids::{ActId, TypeId};
use pks_terms::problem::{Problem, Signature};
use pks_terms::schema::{Instance, Query, Schema};
use pks_terms::term::Inner;
use std::alloc::{AllocError, Global};

/// The action without arguments.
fn without_arguments(act: ActId) -> Instance
    ensures act { result.act.0 ≡ act.0 }
    ensures given { given_of result ≡ [] }
{
    Instance {
        act,
        n: 0,
        args: [Inner::default(); 4],
    }
}

/// Each action without arguments, the first one last.
pub(crate) fn bare_instances(
    alloc: Global,
    schemas: &[Schema<'_>],
) -> Result<Vec<Instance>, AllocError>
    requires { length schemas.now ≤ 256 }
    ensures { IfOk result (λ v. beginnings_of v.items ≡ map bare (numbered 0 (map schema_of schemas.now))) }
{
    let mut all = Vec::new(alloc);
    let mut k = schemas.len();
    'down: while k > 0 {
        k -= 1;
        all.push(without_arguments(ActId(k as u8)))?;
    }
    Ok(all)
}

/// The arguments with one more behind those in use.
fn put(args: &[Inner; 4], n: u8, t: &Inner) -> [Inner; 4]
    requires { n < 4 }
    ensures { take (n + 1) result ≡ take n args.now ++ t.now ∷ [] }
{
    let mut all = *args;
    all[n as usize] = *t;
    all
}

/// The instance with one more argument.
#[tactic(auto, using(crate::proofs::Lists::pushing))]
fn with(i: &Instance, t: &Inner) -> Instance
    requires { i.now.n < 4 }
    ensures act { result.act.0 ≡ i.now.act.0 }
    ensures given { given_of result ≡ given_of i.now ++ inner_of t.now ∷ [] }
{
    Instance {
        act: i.act,
        n: i.n + 1,
        args: put(&i.args, i.n, t),
    }
}

/// Puts in the beginnings with one more argument, the first one last.
fn push_longer(list: &[Inner], given: &Instance, to: &mut Vec<Instance>) -> Result<(), AllocError>
    requires { given.now.n < 4 }
    ensures { OnOk result (beginnings_of to.new.items ≡ map (longer (instance_of given.now)) (map inner_of list.now) ++ beginnings_of to.old.items) }
{
    let mut k = list.len();
    'down: while k > 0 {
        k -= 1;
        to.push(with(given, &list[k]))?;
    }
    Ok(())
}

/// Puts in the beginnings with one more argument, of the type.
fn push_candidates(
    alloc: Global,
    s: &Signature,
    d: &Db,
    of: TypeId,
    given: &Instance,
    to: &mut Vec<Instance>,
) -> Result<(), AllocError>
    requires objects { length s.now.objects ≤ MOST_OBJECTS }
    requires more { given.now.n < 4 }
    ensures { OnOk result (beginnings_of to.new.items ≡ map (longer (instance_of given.now)) (candidates (signature_of s.now) (five_of d.now) of.0) ++ beginnings_of to.old.items) }
{
    let list = candidates(alloc, s, d.parts(), of)?;
    push_longer(list.as_slice(), given, to)?;
    Ok(())
}

/// Whether every precondition is answered at the instance.
fn is_allowed(s: &Signature, d: &Db, pre: &[Query], i: &Instance) -> bool
    ensures { result ≡ list_all (λ q. answers (signature_of s.now) (five_of d.now) (query_at (given_of i.now) q)) (map query_of pre.now) }
{
    for q in pre {
        if !d.answers(s, &q.at(i)) {
            return false;
        }
    }
    true
}

/// The instance, where it is allowed.
fn if_allowed(s: &Signature, d: &Db, pre: &[Query], i: &Instance) -> Option<Instance>
    ensures { option_to_list (option_map instance_of result) ≡ allowed_at (signature_of s.now) (five_of d.now) (map query_of pre.now) i.now.act.0 (given_of i.now) }
{
    if is_allowed(s, d, pre, i) {
        Some(*i)
    } else {
        None
    }
}

/// The type of the argument that comes next; `None` where there are as many as parameters.
fn next_type(params: &[TypeId], args: &[Inner; 4], n: u8) -> Option<TypeId>
    requires { length params.now ≤ 4 }
    ensures wanted { option_map (λ t. t.0) result ≡ slice_get (types_of params.now) (length (map inner_of (take n args.now))) }
    ensures more { IsSome result → n < 4 }
{
    let _args = args;
    match params.get(n as usize) {
        None => None,
        Some(of) => Some(*of),
    }
}

/// Goes on from a beginning: it is given, where it is whole and its preconditions are answered; else those with one more
/// argument are put in, where no precondition that can be asked already shuts all of them out.
fn go_on(
    alloc: Global,
    p: &Problem<'_>,
    d: &Db,
    given: &Instance,
    to: &mut Vec<Instance>,
) -> Result<Option<Instance>, AllocError>
    requires valid { IsValidProblem p.now }
    ensures { IfOk result (λ o. GoesOn (problem_of p.now) (five_of d.now) (instance_of given.now) (beginnings_of to.old.items) (beginnings_of to.new.items) (option_map instance_of o)) }
{
    let Some(schema) = p.schemas.as_slice().get(given.act.0 as usize) else {
        return Ok(None);
    };
    let pre = schema.pre.as_slice();
    let Some(of) = next_type(schema.params.as_slice(), &given.args, given.n) else {
        return Ok(if_allowed(&p.signature, d, pre, given));
    };
    if !is_barred(&p.signature, d, pre, given) {
        push_candidates(alloc, &p.signature, d, of, given, to)?;
    }
    Ok(None)
}

/// The next instance that begins with one of the beginnings and is a choice; `None` where there are no more. It asks for a
/// valid problem.
pub(crate) fn next_instance(
    alloc: Global,
    p: &Problem<'_>,
    d: &Db,
    beginnings: &mut Vec<Instance>,
) -> Result<Option<Instance>, AllocError>
    requires valid { IsValidProblem p.now }
    ensures { IfOk result (λ o. IsNext (flat_map (begun (problem_of p.now) (five_of d.now)) (beginnings_of beginnings.old.items)) (flat_map (begun (problem_of p.now) (five_of d.now)) (beginnings_of beginnings.new.items)) (option_map instance_of o)) }
{
    'each: while let Some(given) = beginnings.pop() {
        if let Some(i) = go_on(alloc, p, d, &given, beginnings)? {
            return Ok(Some(i));
        }
    }
    Ok(None)
}
