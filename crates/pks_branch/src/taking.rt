//! Choices one after another. `docs/RULES.md` has the rules.
ghost use Rattle.std.specs.Prelude.{◌≡◌, drop, option_map, IfOk};
ghost use Rattle.pks_terms.specs.Sets.{IsOrdered};
ghost use Rattle.pks_terms.specs.Branching.{choices};
ghost use Rattle.pks_terms.specs.ValidProblems.{IsValidProblem};
ghost use Rattle.pks_terms.specs.Views.{problem_of};
ghost use Rattle.pks_query_lookup.specs.Fives.{five_of};
ghost use Rattle.pks_terms.specs.ChoiceViews.{choice_of, choices_of};
ghost use Rattle.pks_branch.specs.WalkViews.{left_in};
ghost use Rattle.pks_branch.specs.ChoiceOrder.{choice_cmp};
ghost use Rattle.pks_branch.specs.Walks.{IsNext};

use crate::choosing::{push_branches, push_cases};
use crate::walking::{bare_instances, next_instance};
use pks_query::databases::Db;
use pks_terms::choices::{Choice, ChoiceList};
use pks_terms::problem::Problem;
use pks_terms::schema::Instance;
use std::alloc::{AllocError, Global};

/// A walk over the choices at the databases, one after another: instances, of which only beginnings are kept, and then
/// branches and cases.
#[derive(Drop)]
pub struct Walk {
    /// Beginnings of instances that are still to be gone through, the next one last.
    beginnings: Vec<Instance>,
    /// The branches and cases.
    others: Vec<Choice>,
    /// How many of those were given.
    given: usize,
}

/// The next of the choices, after those that were given.
fn next_of(all: &[Choice], given: &mut usize) -> Option<Choice>
    ensures { IsNext (choices_of (drop given.old all.now)) (choices_of (drop given.new all.now)) (option_map choice_of result) }
{
    match all.get(*given) {
        None => None,
        Some(c) => {
            *given += 1;
            Some(*c)
        }
    }
}

impl Walk {
    /// The walk over all choices at the databases, before its first step. It asks for a valid problem. The error is want of
    /// memory.
    pub fn of(alloc: Global, p: &Problem<'_>, d: &Db) -> Result<Walk, AllocError>
        requires valid { IsValidProblem p.now }
        ensures all { IfOk result (λ w. left_in (problem_of p.now) (five_of d.now) w ≡ choices (problem_of p.now) (five_of d.now)) }
        ensures ordered { IfOk result (λ _. IsOrdered choice_cmp (choices (problem_of p.now) (five_of d.now))) }
    {
        let five = d.parts();
        let beginnings = bare_instances(alloc, p.schemas.as_slice())?;
        let mut others = Vec::new(alloc);
        push_branches(&p.signature, d, &five.kw, &mut others)?;
        push_cases(alloc, &p.signature, d, &five.kv, &mut others)?;
        Ok(Walk {
            beginnings,
            others,
            given: 0,
        })
    }

    /// The next choice; `None` where there are no more. The problem and the databases are those that the walk is over; the
    /// memory in use grows with the number of arguments that may stand for a parameter, not with that of instances. The error
    /// is want of memory.
    pub fn next(
        &mut self,
        alloc: Global,
        p: &Problem<'_>,
        d: &Db,
    ) -> Result<Option<Choice>, AllocError>
        requires valid { IsValidProblem p.now }
        ensures { IfOk result (λ o. IsNext (left_in (problem_of p.now) (five_of d.now) self.old) (left_in (problem_of p.now) (five_of d.now) self.new) (option_map choice_of o)) }
    {
        match next_instance(alloc, p, d, &mut self.beginnings)? {
            Some(i) => Ok(Some(Choice::Act(i))),
            None => Ok(next_of(self.others.as_slice(), &mut self.given)),
        }
    }
}
