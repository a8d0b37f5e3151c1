//! Where databases clash: the answer is the clash, not want of memory.
ghost use Rattle.pks_terms.specs.Typed.{AllJustified};
ghost use Rattle.pks_terms.specs.ValidProblems.{IsValidProblem};
ghost use Rattle.pks_terms.specs.Views.{problem_of};
ghost use Rattle.pks_terms.specs.Moments.{AreMomentsOf};

use crate::domains::{LETTERS, SUNNY_LAWN};
use crate::rows::WrongRow;
use crate::walks::{choice_of_line, history_after, read, text};
use pks_history::histories::History;
use pks_history_replay::states::{State, start, taking};
use pks_plan::print_literal;
use pks_progress::progressing::progress;
use pks_query::CloseEnd;
use pks_query::databases::{Db, Step};
use pks_query::initial::initial;
use pks_terms::choices::{Choice, Side};
use pks_terms::problem::Problem;
use std::alloc::{AllocError, Global};
use std::test::Fail;

// The only spot is where the robot is, which is told only once something is set there. Then p is neither true nor false.
const SPOT: &str = "(pks 1)
(domain
  (types spot)
  (objects (spot s))
  (predicates (at spot) (p))
  (functions (here spot))
  (action mark (effects (set (at (here)))) (knows (kf (at (here))))))
(problem
  (init (kx (= (here) s) (p)) (kx (= (here) s) (not (p))))
  (goal (k (p))))
";

// What is known contradicts itself from the start.
const BOTH: &str = "(pks 1)
(domain (predicates (p)))
(problem (init (kf (p)) (kf (not (p)))) (goal (k (p))))
";

/// Initial items that clash, and the literal that the clash is named by: of those in the closure whose negation holds, the least.
struct NamedClash(&'static str, &'static str);

const NAMED_CLASHES: &[NamedClash] = &[
    // p stands before q, and p before its negation.
    NamedClash(
        "(kf (q a)) (kf (not (q a))) (kf (not (p b))) (kf (p b))",
        "(p b)",
    ),
    // Each member follows from the other's negation.
    NamedClash(
        "(kx (p a) (p b)) (kf (not (p a))) (kf (not (p b)))",
        "(p a)",
    ),
    // p a follows by the group, and is false by the region.
    NamedClash("(lcw (p _)) (kx (p a) (q a)) (kf (not (q a)))", "(p a)"),
    // By value b = a follows, which stands before f = b.
    NamedClash("(kf (= (f) a)) (kf (= (f) b)) (kf (q (f)))", "(= b a)"),
    // By value a = a follows, and so does its negation.
    NamedClash("(kf (= (f) a)) (kf (not (= (f) a)))", "(= a a)"),
];

/// The text of the literal that is named, which is empty where none is.
fn named_literal(
    alloc: Global,
    p: &Problem<'_>,
    end: &Result<Db, CloseEnd>,
) -> Result<Vec<u8>, AllocError> {
    let mut out = Vec::new(alloc);
    if let Err(CloseEnd::Clash(l)) = end {
        print_literal(p, l, &mut out)?;
    }
    Ok(out)
}

/// Whether the first databases and the closed initial ones both name the literal of this text.
fn is_named_in(alloc: Global, p: &Problem<'_>, literal: &str) -> Result<bool, AllocError>
    requires { IsValidProblem p.now }
{
    let first = Db::first(alloc, p);
    let five = initial(alloc, p)?;
    let closed = Db::close(alloc, &p.signature, five);
    Ok(
        named_literal(alloc, p, &first)?.as_slice() == literal.as_bytes()
            && named_literal(alloc, p, &closed)?.as_slice() == literal.as_bytes(),
    )
}

/// Whether the clash of the row is named so.
fn is_named(alloc: Global, row: &NamedClash) -> Result<bool, Fail> {
    let file = text(alloc, &LETTERS, row.0)?;
    let p = read(alloc, &file)?;
    let so = is_named_in(alloc, &p, row.1)?;
    Ok(so)
}

/// Whether the databases after the action clash.
fn clashes(alloc: Global, p: &Problem<'_>, h: &History, wanted: &str) -> Result<bool, Fail>
    requires valid { IsValidProblem p.now }
    requires justified { AllJustified (problem_of p.now) }
    requires moments { AreMomentsOf (problem_of p.now) h.now }
{
    let Choice::Act(step) = choice_of_line(alloc, p, h, wanted)? else {
        return Err(Fail::new("the choice is no action"));
    };
    match progress(alloc, p, h.last(), &step)? {
        Step::Clash(_) => Ok(true),
        Step::Next(_) => Ok(false),
    }
}

/// Whether the databases after the first action, in the file, clash.
fn clashes_in(alloc: Global, text: &str, wanted: &str) -> Result<bool, Fail> {
    let p = read(alloc, text)?;
    let h = history_after(alloc, &p, &[])?;
    clashes(alloc, &p, &h, wanted)
}

/// Whether a plan of the file begins at a clash.
fn is_stopped(alloc: Global, text: &str) -> Result<bool, Fail> {
    let p = read(alloc, text)?;
    match start(alloc, &p)? {
        State::Stopped => Ok(true),
        State::At(_) => Ok(false),
    }
}

/// Whether a plan can't go on at the false side of a branch.
fn is_closed(alloc: Global, p: &Problem<'_>, h: &History, wanted: &str) -> Result<bool, Fail>
    requires valid { IsValidProblem p.now }
    requires moments { AreMomentsOf (problem_of p.now) h.now }
{
    let c = choice_of_line(alloc, p, h, wanted)?;
    let Choice::Branch(_) = c else {
        return Err(Fail::new("the choice is no branch"));
    };
    match taking(alloc, p, h, &c, Side::False)? {
        State::Stopped => Ok(true),
        State::At(_) => Ok(false),
    }
}

/// The same after actions, in a file.
fn is_closed_after(
    alloc: Global,
    text: &str,
    actions: &[&str],
    wanted: &str,
) -> Result<bool, Fail> {
    let p = read(alloc, text)?;
    let h = history_after(alloc, &p, actions)?;
    is_closed(alloc, &p, &h, wanted)
}

#[test]
fn an_action_after_which_nothing_can_be(rt: HostRuntime) -> Result<(), Fail> {
    assert!(rt; clashes_in(rt.alloc(), SPOT, "(mark)")?);
    Ok(())
}

#[test]
fn a_start_that_could_not_be(rt: HostRuntime) -> Result<(), Fail> {
    assert!(rt; is_stopped(rt.alloc(), BOTH)?);
    Ok(())
}

#[test]
fn a_side_whose_past_could_not_be(rt: HostRuntime) -> Result<(), Fail> {
    let text = text(rt.alloc(), &SUNNY_LAWN, "(kf (alive))")?;
    let actions = &["(pour)", "(look)"];
    assert!(rt; is_closed_after(rt.alloc(), &text, actions, "branch (alive)")?);
    Ok(())
}

#[test]
fn literals_that_name_clashes(rt: HostRuntime) -> Result<(), Fail> {
    for (row, clash) in NAMED_CLASHES.iter().enumerate() {
        if !is_named(rt.alloc(), clash)? {
            return Err(Fail::from(WrongRow(row)));
        }
    }
    Ok(())
}
