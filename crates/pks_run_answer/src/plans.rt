// Plans, and what is made of them.
ghost use Rattle.std.specs.Prelude.{◌≡◌, ◌≤◌, [], IfOk};
ghost use Rattle.pks_terms.specs.Answers.{unjustified};
ghost use Rattle.pks_terms.specs.Trees.{IsPlan, depth};
ghost use Rattle.pks_terms.specs.ValidProblems.{IsValidProblem};
ghost use Rattle.pks_terms.specs.Views.{problem_of, names_of};
ghost use Rattle.pks_terms.specs.Knowledge.{run_of};
ghost use Rattle.pks_terms.specs.Printed.{run_text, none_text};
ghost use Rattle.pks_world.specs.Contents.{world_of};
ghost use Rattle.pks_query_lookup.specs.Fives.{five_of};
ghost use Rattle.pks_plan.specs.TreeViews.{tree_of};
ghost use Rattle.pks_run_answer.specs.Accepting.{Begins};
ghost use Rattle.pks_run_answer.specs.Replies.{IsPlanned, CanBeMade, CanBeMadeOf, SaysMade, Plans, SaysRecalled, SaysExplained, SaysShared};

use crate::reply::Verdict;
use pks_dag::{print_dag, share};
use pks_exec::{exec, print_run};
use pks_explain::{explain, print_explained};
use pks_plan::{Tree, print_tree};
use pks_query::databases::Db;
use pks_recall::recall;
use pks_run_bench::bench_line;
use pks_search::searching::best_from;
use pks_terms::problem::Problem;
use pks_world::World;
use std::alloc::{AllocError, Global};

// The depth to which the generated file is planned.
pub(crate) const BENCH_DEPTH: u8 = 2;

// The best plan, or the line that says that there is none.
#[derive(Drop)]
pub(crate) enum Planned {
    Plan(Tree),
    NoPlan(Vec<u8>),
}

// What is made of a plan.
#[derive(Clone, Copy)]
pub(crate) enum Product<'w> {
    // Its text.
    Plain,
    // The text of its run in the world.
    Run(&'w World),
    // Its text, and what each of its leaves knows.
    Recalled,
    // Its text, and a proof of each literal that it rests on.
    Explained,
    // Its text with equal parts once.
    Shared,
    // The line of the plan of this file, which is generated with so many objects.
    BenchLine(u8, &'w [u8]),
}

// That there is no plan.
pub(crate) fn none_text(alloc: Global, depth: u8) -> Result<Vec<u8>, AllocError>
    ensures { IfOk result (λ text. text.items ≡ none_text depth) }
{
    let text = format!(in alloc; "none to depth {depth}\n")?;
    Ok(text.into_bytes())
}

// The run of a plan, as text.
fn run_text(alloc: Global, p: &Problem<'_>, t: &Tree, w: &World) -> Result<Vec<u8>, AllocError>
    requires { IsValidProblem p.now }
    ensures { IfOk result (λ text. text.items ≡ run_text (names_of p.now) (run_of (problem_of p.now) (tree_of t.now) (world_of w.now))) }
{
    let run = exec(alloc, p, t, w)?;
    let text = print_run(alloc, p, &run)?;
    Ok(text)
}

// The text of a plan, and of what each of its leaves knows.
#[tactic(auto, using(crate::proofs::Planning::says_recalled))]
fn recalled_text(alloc: Global, p: &Problem<'_>, t: &Tree) -> Result<Vec<u8>, AllocError>
    requires valid { IsValidProblem p.now }
    requires justified { unjustified (problem_of p.now) ≡ [] }
    requires derived { IsPlan (problem_of p.now) (tree_of t.now) }
    requires depth { depth (tree_of t.now) ≤ 16 }
    ensures { IfOk result (λ text. SaysRecalled (problem_of p.now) (names_of p.now) text.items (tree_of t.now)) }
{
    let mut text = print_tree(alloc, p, t)?;
    let leaves = recall(alloc, p, t)?;
    text.extend_from_slice(&leaves)?;
    Ok(text)
}

// The text of a plan, and of a proof of each literal that it rests on.
#[tactic(auto, using(crate::proofs::Planning::says_explained))]
fn explained_text(alloc: Global, p: &Problem<'_>, t: &Tree) -> Result<Vec<u8>, AllocError>
    requires valid { IsValidProblem p.now }
    requires justified { unjustified (problem_of p.now) ≡ [] }
    requires derived { IsPlan (problem_of p.now) (tree_of t.now) }
    requires depth { depth (tree_of t.now) ≤ 16 }
    ensures { IfOk result (λ text. SaysExplained (problem_of p.now) (names_of p.now) text.items (tree_of t.now)) }
{
    let mut text = print_tree(alloc, p, t)?;
    let entries = explain(alloc, p, t)?;
    let proofs = print_explained(alloc, p, &entries)?;
    text.extend_from_slice(&proofs)?;
    Ok(text)
}

// The nodes of a plan, as text.
#[tactic(auto, using(crate::proofs::Planning::says_shared))]
fn nodes_text(alloc: Global, p: &Problem<'_>, t: &Tree) -> Result<Vec<u8>, AllocError>
    ensures { IfOk result (λ text. SaysShared (names_of p.now) text.items (tree_of t.now)) }
{
    let nodes = share(alloc, t)?;
    let text = print_dag(alloc, p, &nodes)?;
    Ok(text)
}

// The best plan to the depth, or the line that says that there is none.
pub(crate) fn look_for_plan(
    alloc: Global,
    p: &Problem<'_>,
    first: Db,
    depth: u8,
) -> Result<Planned, AllocError>
    requires valid { IsValidProblem p.now }
    requires depth { depth ≤ 16 }
    requires begins { Begins (problem_of p.now) (five_of first) }
    ensures { IfOk result (IsPlanned (problem_of p.now) depth) }
{
    match best_from(alloc, p, first, depth)? {
        Some(tree) => Ok(Planned::Plan(tree)),
        None => Ok(Planned::NoPlan(none_text(alloc, depth)?)),
    }
}

// What is wanted of the plan, as text.
fn product_text(
    alloc: Global,
    p: &Problem<'_>,
    product: Product<'_>,
    t: &Tree,
) -> Result<Vec<u8>, AllocError>
    requires valid { IsValidProblem p.now }
    requires justified { unjustified (problem_of p.now) ≡ [] }
    requires derived { IsPlan (problem_of p.now) (tree_of t.now) }
    requires depth { depth (tree_of t.now) ≤ 16 }
    requires can { CanBeMadeOf (tree_of t.now) product }
    ensures { IfOk result (λ text. SaysMade (problem_of p.now) (names_of p.now) product.entry text.items (tree_of t.now)) }
{
    match product {
        Product::Plain => print_tree(alloc, p, t),
        Product::Run(w) => run_text(alloc, p, t, w),
        Product::Recalled => recalled_text(alloc, p, t),
        Product::Explained => explained_text(alloc, p, t),
        Product::Shared => nodes_text(alloc, p, t),
        Product::BenchLine(n, file) => bench_line(alloc, n, file, t),
    }
}

// What is wanted of the best plan to the depth, or that there is none.
pub(crate) fn plan(
    alloc: Global,
    p: &Problem<'_>,
    product: Product<'_>,
    first: Db,
    depth: u8,
) -> Result<(Verdict, Vec<u8>), AllocError>
    requires valid { IsValidProblem p.now }
    requires depth { depth ≤ 16 }
    requires begins { Begins (problem_of p.now) (five_of first) }
    requires can { CanBeMade depth product }
    ensures { IfOk result (λ a. Plans (problem_of p.now) depth (SaysMade (problem_of p.now) (names_of p.now) product.entry) a.0 a.1.items) }
{
    let found = look_for_plan(alloc, p, first, depth)?;
    match found {
        Planned::Plan(tree) => {
            let text = product_text(alloc, p, product, &tree)?;
            Ok((Verdict::Done, text))
        }
        Planned::NoPlan(line) => Ok((Verdict::NoPlan, line)),
    }
}
