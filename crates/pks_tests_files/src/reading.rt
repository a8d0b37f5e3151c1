//! Files that are read.
ghost use Rattle.std.specs.Prelude.{IfOk};
ghost use Rattle.pks_terms.specs.ValidProblems.{IsValidProblem};

use pks_reader::read_problem;
use pks_terms::limits::MOST_BYTES;
use pks_terms::problem::Problem;
use std::alloc::Global;
use std::test::Fail;

/// The problem of a file.
pub fn read<'s>(alloc: Global, text: &'s str) -> Result<Problem<'s>, Fail>
    ensures { IfOk result (λ p. IsValidProblem p) }
{
    if text.len() > MOST_BYTES {
        return Err(Fail::new("the file is too long"));
    }
    let Ok(p) = read_problem(alloc, text) else {
        return Err(Fail::new("the file is refused"));
    };
    Ok(p)
}
