//! Marks, by which tables find histories and worlds. `docs/DECISIONS.md` says what they are made of.
ghost use Rattle.pks_terms.specs.Typed.{AllJustified};
ghost use Rattle.pks_terms.specs.ValidProblems.{IsValidProblem};
ghost use Rattle.pks_terms.specs.Views.{problem_of};

use crate::walks::{choice_of_line, history_after, read};
use pks_search_symmetry::Alike;
use pks_terms::choices::Choice;
use pks_terms::problem::Problem;
use pks_world::{World, ground_instance};
use std::alloc::Global;
use std::test::Fail;

/// Four lamps that are alike. It is kept in mind which was lit last.
const LAMPS: &str = "(pks 1)
(domain (types lamp) (objects (lamp a b c d)) (predicates (lit lamp) (red lamp) (dawn)) (functions (last lamp))
  (action light (params (?l lamp)) (effects (set (lit ?l)) (assign (last) ?l)) (senses (sense (red ?l)))
    (knows (kf (lit ?l)) (kf (= (last) ?l)) (kw (red ?l)))))
(problem
  (init (lcw (lit _)) (kx (red a) (red b) (red c) (red d)))
  (goal (kw (dawn))))
";

/// The mark of the history after the actions. It is asked for twice, and has to be the same.
fn mark_after(alloc: Global, p: &Problem<'_>, actions: &[&str]) -> Result<u64, Fail>
    requires valid { IsValidProblem p.now }
    requires justified { AllJustified (problem_of p.now) }
{
    let h = history_after(alloc, p, actions)?;
    let alike = Alike::of(alloc, p)?;
    let key = alike.key_of(alloc, &h)?;
    let again = alike.key_of(alloc, &h)?;
    if key.mark == again.mark && *key.order.as_slice() == *again.order.as_slice() {
        Ok(key.mark)
    } else {
        Err(Fail::new("the second key is another one"))
    }
}

/// The same in the lamps' file, which is read anew.
fn history_mark(alloc: Global, actions: &[&str]) -> Result<u64, Fail> {
    let p = read(alloc, LAMPS)?;
    mark_after(alloc, &p, actions)
}

/// The first world of the problem after the actions.
fn world_after(alloc: Global, p: &Problem<'_>, actions: &[&str]) -> Result<World, Fail>
    requires valid { IsValidProblem p.now }
    requires justified { AllJustified (problem_of p.now) }
{
    let start = history_after(alloc, p, &[])?;
    let mut world = World::first(alloc, p)?;
    for action in actions {
        let Choice::Act(step) = choice_of_line(alloc, p, &start, action)? else {
            return Err(Fail::new("the choice is no action"));
        };
        world = world.apply(p, &ground_instance(&world, &step))?;
    }
    Ok(world)
}

/// The mark of that world in the lamps' file, which is read anew. It is asked for twice, and has to be the same.
fn world_mark(alloc: Global, actions: &[&str]) -> Result<u64, Fail> {
    let p = read(alloc, LAMPS)?;
    let world = world_after(alloc, &p, actions)?;
    let mark = world.mark();
    if mark == world.mark() {
        Ok(mark)
    } else {
        Err(Fail::new("the second mark is another one"))
    }
}

#[test]
fn equal_histories_have_equal_marks(rt: HostRuntime) -> Result<(), Fail> {
    let alloc = rt.alloc();
    let mark = history_mark(alloc, &["(light a)", "(light b)"])?;
    assert!(rt; mark == history_mark(alloc, &["(light a)", "(light b)"])?);
    assert!(rt; mark == history_mark(alloc, &["(light d)", "(light c)"])?);
    assert!(rt; mark != history_mark(alloc, &["(light a)", "(light a)"])?);
    Ok(())
}

#[test]
fn equal_worlds_have_equal_marks(rt: HostRuntime) -> Result<(), Fail> {
    let alloc = rt.alloc();
    let mark = world_mark(alloc, &["(light a)", "(light b)", "(light c)"])?;
    assert!(rt; mark == world_mark(alloc, &["(light b)", "(light a)", "(light c)"])?);
    assert!(rt; mark != world_mark(alloc, &["(light a)", "(light c)", "(light b)"])?);
    Ok(())
}
