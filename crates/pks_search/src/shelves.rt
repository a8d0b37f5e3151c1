//! What a search takes along for problems with fewer aims: as some are met for good on the way, it goes on in such a one.
ghost use Rattle.std.specs.Prelude.{◌≡◌, map, IfOk, IfSome};
ghost use Rattle.pks_terms.specs.Problems.{Problem as SProblem};
ghost use Rattle.pks_terms.specs.Sets.{Each};
ghost use Rattle.pks_terms.specs.ValidProblems.{IsValidProblem};
ghost use Rattle.pks_terms.specs.Views.{aim_of, problem_of};
ghost use Rattle.pks_search.specs.Fewer.{with_goal};
ghost use Rattle.pks_search.specs.Shelves.{HasAims, IsShelved};
ghost use Rattle.pks_search.specs.Spots.{AreSo};
ghost use Rattle.pks_laws_forget.specs.Fewer.{with_aims};

use crate::fewer::{same_aims, with_goal};
use crate::learned::Learned;
use crate::spots::Notes;
use pks_terms::problem::{Aim, AimList, Problem};
use std::alloc::{AllocError, Global};
use std::mem::drop;

/// A problem with fewer aims, and what a search in it has learned.
#[derive(Drop)]
pub(crate) struct Shelved<'s> {
    pub(crate) problem: Problem<'s>,
    pub(crate) learned: Learned,
}

/// The one of some aims, if there is one, and the others.
#[derive(Drop)]
struct Parted<'s> {
    found: Option<Shelved<'s>>,
    others: Vec<Shelved<'s>>,
}

/// The one of some aims, and the others.
#[derive(Drop)]
pub(crate) struct Taken<'s> {
    pub(crate) own: Shelved<'s>,
    pub(crate) others: Vec<Shelved<'s>>,
}

/// One for the problem, in which nothing has been learned.
fn new_shelved<'s>(alloc: Global, problem: Problem<'s>) -> Result<Shelved<'s>, AllocError>
    requires { IsValidProblem problem }
    ensures own { IfOk result (λ y. y.problem ≡ problem.entry) }
    ensures shelved { IfOk result (IsShelved (problem_of problem.entry)) }
{
    match Learned::new(alloc, &problem) {
        Ok(learned) => Ok(Shelved { problem, learned }),
        Err(error) => {
            drop(problem);
            Err(error)
        }
    }
}

/// The position of the first one of these aims.
fn position_with_aims(shelf: &[Shelved<'_>], goal: &[Aim]) -> Option<usize>
    ensures { IfSome result (HasAims (map aim_of goal.now) shelf.now) }
{
    for n in 0..shelf.len() {
        if same_aims(shelf[n].problem.goal.as_slice(), goal) {
            return Some(n);
        }
    }
    None
}

/// Takes the first one of these aims out.
fn part<'s>(shelf: Vec<Shelved<'s>>, goal: &[Aim]) -> Parted<'s>
    ensures found { (p : SProblem) → Each (IsShelved p) shelf.entry.items → IfSome result.found (IsShelved p) }
    ensures others { (p : SProblem) → Each (IsShelved p) shelf.entry.items → Each (IsShelved p) result.others.items }
    ensures goal { IfSome result.found (λ y. map aim_of y.problem.goal ≡ map aim_of goal.now) }
{
    let mut others = shelf;
    match position_with_aims(others.as_slice(), goal) {
        Some(n) => {
            let own = others.remove(n);
            Parted {
                found: Some(own),
                others,
            }
        }
        None => Parted {
            found: None,
            others,
        },
    }
}

/// One for the problem with these aims.
fn new_with_goal<'s>(
    alloc: Global,
    p: &Problem<'s>,
    goal: AimList,
) -> Result<Shelved<'s>, AllocError>
    requires valid { IsValidProblem (with_goal p.now goal) }
    ensures own { IfOk result (λ y. problem_of y.problem ≡ problem_of (with_goal p.now goal)) }
    ensures shelved { IfOk result (IsShelved (problem_of p.now)) }
{
    let problem = with_goal(alloc, p, goal)?;
    let own = new_shelved(alloc, problem)?;
    Ok(own)
}

/// Takes the one of these aims out of the shelf, or makes one. The error is want of memory.
pub(crate) fn take<'s>(
    alloc: Global,
    p: &Problem<'s>,
    goal: AimList,
    shelf: Vec<Shelved<'s>>,
) -> Result<Taken<'s>, AllocError>
    requires valid { IsValidProblem (with_goal p.now goal) }
    requires shelf { Each (IsShelved (problem_of p.now)) shelf.items }
    ensures own { IfOk result (λ x. problem_of x.own.problem ≡ problem_of (with_goal p.now goal)) }
    ensures shelved { IfOk result (λ x. IsShelved (problem_of p.now) x.own) }
    ensures others { IfOk result (λ x. Each (IsShelved (problem_of p.now)) x.others.items) }
{
    let Parted { found, others } = part(shelf, goal.as_slice());
    match found {
        Some(own) => Ok(Taken { own, others }),
        None => match new_with_goal(alloc, p, goal) {
            Ok(own) => Ok(Taken { own, others }),
            Err(error) => {
                drop(others);
                Err(error)
            }
        },
    }
}

/// The shelf that a search in the problem took along, with what it learned itself. The error is want of memory.
pub(crate) fn shelf_with<'s>(
    problem: Problem<'s>,
    notes: Notes<'s>,
) -> Result<Vec<Shelved<'s>>, AllocError>
    ensures { (p : SProblem) → IsValidProblem problem.entry → problem_of problem.entry ≡ with_aims p (problem_of problem.entry).goal → AreSo (problem_of problem.entry) notes.entry
        → IfOk result (λ shelf. Each (IsShelved p) shelf.items) }
{
    let Notes { own, shelf } = notes;
    let mut all = shelf;
    all.push(Shelved {
        problem,
        learned: own,
    })?;
    Ok(all)
}
