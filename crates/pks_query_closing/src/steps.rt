//! Literals with one application replaced by its value.
ghost use Rattle.std.specs.Prelude.{◌≡◌, ℕ, ◌<◌, ◌≤◌, ◌+◌, min, List, [], ◌∷◌, ◌++◌, map, take, slice_set, length, Some, None, IfOk, OnOk};
ghost use Rattle.std.specs.Option.{option_map, option_map_or};
ghost use Rattle.std.specs.List.{flat_map};
ghost use Rattle.pks_terms.specs.Syntax.{Object, Apply, as_object};
ghost use Rattle.pks_terms.specs.Sets.{one_replaced, all_some, Each};
ghost use Rattle.pks_terms.specs.Databases.{values_at};
ghost use Rattle.pks_terms.specs.Closure.{inner_steps, term_steps, by_value};
ghost use Rattle.pks_terms.specs.Views.{object_of, inner_of, term_of, literal_of, arguments_in, places_of, relation_of};
ghost use Rattle.pks_kf.specs.Known.{literals_of};
ghost use Rattle.pks_query_lookup.specs.Reading.{first_objects, first_inners};
ghost use Rattle.pks_query_closing.specs.Reading.{with_arguments};

use pks_query_lookup::normals::{Normals, objects};
use pks_terms::ids::{FnId, ObjId};
use pks_terms::literal::{Arguments, Literal};
use pks_terms::term::{Inner, Term, front};
use std::alloc::{AllocError, Global};

/// The argument with its application replaced by each value.
#[tactic(auto, using(crate::proofs::Lists::read))]
fn inner_steps(alloc: Global, by: &Normals, t: &Inner) -> Result<Vec<Inner>, AllocError>
    ensures { IfOk result (λ v. map inner_of v.items ≡ inner_steps (literals_of by.now.kf) (inner_of t.now)) }
{
    let mut steps = Vec::new(alloc);
    let Inner::App { fun, n, args } = t else {
        return Ok(steps);
    };
    for d in by.values_at(alloc, *fun, front(args, *n))?.as_slice() {
        steps.push(Inner::Obj(*d))?;
    }
    Ok(steps)
}

/// Puts the arguments after the others, with each step in turn at place `i`.
fn put_each(
    to: &mut Vec<Arguments>,
    n: u8,
    items: &[Term; 3],
    i: usize,
    steps: &[Term],
) -> Result<(), AllocError>
    requires { i < min n 3 }
    ensures same { OnOk result (Each (λ a. a.n ≡ n) to.old.items → Each (λ a. a.n ≡ n) to.new.items) }
    ensures terms { OnOk result (map arguments_in to.new.items ≡ map arguments_in to.old.items ++ map (slice_set (map term_of (take n items.now)) i) (map term_of steps.now)) }
{
    for t in steps {
        let mut items = *items;
        items[i] = *t;
        to.push(Arguments { n, items })?;
    }
    Ok(())
}

/// The values that the literals give at an application whose arguments are objects.
fn own_values(
    alloc: Global,
    by: &Normals,
    fun: FnId,
    n: u8,
    args: &[Inner; 2],
) -> Result<Vec<ObjId>, AllocError>
    ensures { IfOk result (λ v. map object_of v.items ≡ option_map_or (values_at (literals_of by.now.kf) fun.0) (all_some (map as_object (first_inners n args.now))) []) }
{
    let Some(own) = objects(n, args) else {
        return Ok(Vec::new(alloc));
    };
    let values = by.values_at(alloc, fun, front(&own, n))?;
    Ok(values)
}

/// Puts the objects as terms after the others.
#[tactic(auto, using(crate::proofs::Lists::read))]
fn put_objects(to: &mut Vec<Term>, ds: &[ObjId]) -> Result<(), AllocError>
    ensures { OnOk result (map term_of to.new.items ≡ map term_of to.old.items ++ map Object (map object_of ds.now)) }
{
    for d in ds {
        to.push(Term::Obj(*d))?;
    }
    Ok(())
}

/// Puts the application after the others, with each step in turn at place `i`.
fn put_applied(
    to: &mut Vec<Term>,
    fun: FnId,
    n: u8,
    args: &[Inner; 2],
    i: usize,
    steps: &[Inner],
) -> Result<(), AllocError>
    requires { i < min n 2 }
    ensures { OnOk result (map term_of to.new.items ≡ map term_of to.old.items ++ map (Apply fun.0) (map (slice_set (first_inners n args.now) i) (map inner_of steps.now))) }
{
    for t in steps {
        let mut args = *args;
        args[i] = *t;
        to.push(Term::App { fun, n, args })?;
    }
    Ok(())
}

/// Puts the application after the others, with one argument replaced by each of its steps.
fn put_argument_steps(
    alloc: Global,
    to: &mut Vec<Term>,
    by: &Normals,
    fun: FnId,
    n: u8,
    args: &[Inner; 2],
) -> Result<(), AllocError>
    ensures { OnOk result (map term_of to.new.items ≡ map term_of to.old.items ++ map (Apply fun.0) (one_replaced (inner_steps (literals_of by.now.kf)) (first_inners n args.now))) }
{
    for i in 0..(n as usize).min(2) {
        let steps = inner_steps(alloc, by, &args[i])?;
        put_applied(to, fun, n, args, i, steps.as_slice())?;
    }
    Ok(())
}

/// The term with one application replaced by an object that is its value.
#[tactic(auto, using(crate::proofs::Lists::read), unfolding(pks_terms::specs::Closure::term_steps))]
fn term_steps(alloc: Global, by: &Normals, t: &Term) -> Result<Vec<Term>, AllocError>
    ensures { IfOk result (λ v. map term_of v.items ≡ term_steps (literals_of by.now.kf) (term_of t.now)) }
{
    let mut steps = Vec::new(alloc);
    if let Term::App { fun, n, args } = t {
        put_objects(
            &mut steps,
            own_values(alloc, by, *fun, *n, args)?.as_slice(),
        )?;
        put_argument_steps(alloc, &mut steps, by, *fun, *n, args)?;
    }
    Ok(steps)
}

/// The arguments with one application in them replaced by an object that is its value.
fn argument_steps(
    alloc: Global,
    by: &Normals,
    n: u8,
    items: &[Term; 3],
) -> Result<Vec<Arguments>, AllocError>
    ensures same { IfOk result (λ v. Each (λ a. a.n ≡ n) v.items) }
    ensures terms { IfOk result (λ v. map arguments_in v.items ≡ one_replaced (term_steps (literals_of by.now.kf)) (map term_of (take n items.now))) }
{
    let mut all = Vec::new(alloc);
    for i in 0..(n as usize).min(3) {
        let steps = term_steps(alloc, by, &items[i])?;
        put_each(&mut all, n, items, i, steps.as_slice())?;
    }
    Ok(all)
}

/// Puts the literal after the others, with one application replaced by an object that is its value.
pub(crate) fn put_by_value(
    alloc: Global,
    to: &mut Vec<Literal>,
    by: &Normals,
    l: &Literal,
) -> Result<(), AllocError>
    ensures { OnOk result (map literal_of to.new.items ≡ map literal_of to.old.items ++ by_value (literals_of by.now.kf) (literal_of l.now)) }
{
    let given = l.atom.arguments();
    let all = argument_steps(alloc, by, given.n, &given.items)?;
    put_with(to, l, all.as_slice())
}

/// Puts the literal after the others, with each of these arguments in turn.
#[tactic(auto, using(crate::proofs::Lists::read))]
fn put_with(to: &mut Vec<Literal>, l: &Literal, all: &[Arguments]) -> Result<(), AllocError>
    requires { Each (λ a. a.n ≡ places_of l.now.atom) all.now }
    ensures { OnOk result (map literal_of to.new.items ≡ map literal_of to.old.items ++ map (with_arguments (literal_of l.now)) (map arguments_in all.now)) }
{
    for a in all {
        to.push(l.atom.with(a, l.positive))?;
    }
    Ok(())
}

/// What known values add: each known literal with one application replaced by an object that is its value.
/// `docs/RULES.md` has the rule. The one error is want of memory.
pub fn by_values(alloc: Global, by: &Normals) -> Result<Vec<Literal>, AllocError>
    ensures { IfOk result (λ v. map literal_of v.items ≡ flat_map (by_value (literals_of by.now.kf)) (literals_of by.now.kf)) }
{
    let mut all = Vec::new(alloc);
    for l in by.five().kf.items() {
        put_by_value(alloc, &mut all, by, l)?;
    }
    Ok(all)
}
