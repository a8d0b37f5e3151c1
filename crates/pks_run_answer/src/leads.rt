//! What a dialogue about a file begins with.
ghost use Rattle.std.specs.Prelude.{◌≤◌, IfOk};
ghost use Rattle.pks_terms.specs.Answers.{RefusesFile, NoneApplies};
ghost use Rattle.pks_terms.specs.Jobs.{Agent};
ghost use Rattle.pks_terms.specs.Views.{problem_of};
ghost use Rattle.pks_query_lookup.specs.Fives.{five_of};
ghost use Rattle.pks_reader.specs.Views.{file_of, IsWhole};
ghost use Rattle.pks_run_answer.specs.Accepting.{Begins};
ghost use Rattle.pks_run_answer.specs.Replies.{IsLead};

use crate::accept::accept;
use crate::line::file_line;
use crate::plans::{Planned, look_for_plan};
use pks_plan::Tree;
use pks_query::databases::Db;
use pks_reader::{InputFile, Turned};
use pks_run_words::Job;
use std::alloc::{AllocError, Global};

/// What a dialogue about a file begins with.
#[derive(Drop)]
pub enum Lead {
    /// The file is refused, with this line.
    Refused(Vec<u8>),
    /// There is no plan, as this line says.
    NoPlan(Vec<u8>),
    /// The best plan, through which the caller is led.
    Plan(Tree),
}

/// What a dialogue about a file that is accepted begins with.
fn accepted_lead(alloc: Global, f: &InputFile<'_>, first: Db, depth: u8) -> Result<Lead, AllocError>
    requires whole { IsWhole f.now }
    requires depth { depth ≤ 16 }
    requires begins { Begins (problem_of f.now.problem) (five_of first) }
    requires fine { NoneApplies (RefusesFile (Agent depth) (file_of f.now)) }
    ensures { IfOk result (IsLead depth (file_of f.now)) }
{
    let found = look_for_plan(alloc, &f.problem, first, depth)?;
    match found {
        Planned::Plan(tree) => Ok(Lead::Plan(tree)),
        Planned::NoPlan(line) => Ok(Lead::NoPlan(line)),
    }
}

/// What a dialogue to this depth, from 0 to 16, about a file as `read_file` gives it begins with: the line that refuses the file, or
/// that there is no plan, or the best plan. It errs only where memory runs out.
pub fn lead_about(alloc: Global, depth: u8, f: &InputFile<'_>) -> Result<Lead, AllocError>
    requires whole { IsWhole f.now }
    requires depth { depth ≤ 16 }
    ensures { IfOk result (IsLead depth (file_of f.now)) }
{
    match accept(alloc, Job::Agent(depth), f) {
        Ok(accepted) => accepted_lead(alloc, f, accepted.first, depth),
        Err(Turned::Refused(r)) => Ok(Lead::Refused(file_line(alloc, f, r)?)),
        Err(Turned::Memory) => Err(AllocError),
    }
}
