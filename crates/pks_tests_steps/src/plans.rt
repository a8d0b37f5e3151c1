//! The best plans of worked files, by the call that makes the first databases itself.
ghost use Rattle.std.specs.Prelude.{◌≡◌, ◌≤◌, []};
ghost use Rattle.pks_terms.specs.Syntax.{Literal};
ghost use Rattle.pks_terms.specs.Closure.{Clash, Closes};
ghost use Rattle.pks_terms.specs.Problems.{initial};
ghost use Rattle.pks_terms.specs.Answers.{unjustified};
ghost use Rattle.pks_terms.specs.ValidProblems.{IsValidProblem};
ghost use Rattle.pks_terms.specs.Views.{problem_of};

use crate::domains::SAFE;
use crate::walks::{read, text};
use pks_justify::justify;
use pks_plan::print_tree;
use pks_query::databases::Db;
use pks_run_bench::generate;
use pks_search::best;
use pks_terms::problem::Problem;
use std::alloc::{AllocError, Global};
use std::test::Fail;

/// Reading the number, and dialling what was read: of the safe, and of each generated file.
const DIALLED: &str = "plan depth 2
(read)
(dial (combo))
goal
";

/// The text of the best plan, which is empty where there is none.
fn plan_text(alloc: Global, p: &Problem<'_>, depth: u8) -> Result<Vec<u8>, AllocError>
    requires valid { IsValidProblem p.now }
    requires depth { depth ≤ 16 }
    requires justified { unjustified (problem_of p.now) ≡ [] }
    requires begins { (l : Literal) → Closes (problem_of p.now).signature (initial (problem_of p.now)) (Clash l) → ⊥ }
{
    match best(alloc, p, depth)? {
        Some(tree) => print_tree(alloc, p, &tree),
        None => Ok(Vec::new(alloc)),
    }
}

/// The same of a problem whose first databases may clash.
fn plan_text_from(alloc: Global, p: &Problem<'_>, depth: u8) -> Result<Vec<u8>, Fail>
    requires valid { IsValidProblem p.now }
    requires depth { depth ≤ 16 }
    requires justified { unjustified (problem_of p.now) ≡ [] }
{
    match Db::first(alloc, p) {
        Ok(_first) => {
            let text = plan_text(alloc, p, depth)?;
            Ok(text)
        }
        Err(_) => Err(Fail::new("the first databases clash")),
    }
}

/// The same of a file.
fn planned_in(alloc: Global, file: &str, depth: u8) -> Result<Vec<u8>, Fail>
    requires { depth ≤ 16 }
{
    let p = read(alloc, file)?;
    match justify(&p) {
        Ok(()) => plan_text_from(alloc, &p, depth),
        Err(_) => Err(Fail::new("an add isn't justified")),
    }
}

/// Whether the best plan of the generated file with this many objects is to read and to dial.
fn is_dialled(alloc: Global, n: u8) -> Result<bool, Fail>
    requires least { 1 ≤ n }
    requires most { n ≤ 64 }
{
    let bytes = generate(alloc, n)?;
    let Ok(file) = str::from_utf8(bytes.as_slice()) else {
        return Ok(false);
    };
    let text = planned_in(alloc, file, 2)?;
    Ok(text.as_slice() == DIALLED.as_bytes())
}

#[test]
fn the_best_plan_of_the_safe(rt: HostRuntime) -> Result<(), Fail> {
    let alloc = rt.alloc();
    let file = text(alloc, &SAFE, "")?;
    assert!(rt; planned_in(alloc, &file, 2)?.as_slice() == DIALLED.as_bytes());
    assert!(rt; planned_in(alloc, &file, 1)?.is_empty());
    Ok(())
}

#[test]
fn the_best_plans_of_generated_files(rt: HostRuntime) -> Result<(), Fail> {
    for n in [1, 2, 16] {
        assert!(rt; is_dialled(rt.alloc(), n)?, "with {n} objects");
    }
    Ok(())
}
