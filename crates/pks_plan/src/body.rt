//! The text of a plan.

ghost use Rattle.std.specs.Prelude.{◌≡◌, ◌≤◌, ◌+◌, ◌++◌, codes, IfOk, OnOk, OnErr};
ghost use Rattle.pks_terms.specs.Printed.{line, body_text, cases_text, tree_text};
ghost use Rattle.pks_terms.specs.Trees.{depth, chain_depth};
ghost use Rattle.pks_terms.specs.Views.{names_of};
ghost use Rattle.pks_plan.specs.Appending.{AppendsPart};
ghost use Rattle.pks_plan.specs.Indents.{indent};
ghost use Rattle.pks_plan.specs.TreeViews.{tree_of, chain_of};

use crate::lines::{branch_line, case_line, cases_line, depth_line, step_line, word_line};
use crate::trees::{CaseChain, Tree, depth};
use pks_terms::problem::Problem;
use std::alloc::{AllocError, Global};

/// The lines of a tree.
#[cycle(bodies)]
#[tactic(auto, using(crate::proofs::Indented::lines))]
fn print_body(p: &Problem<'_>, t: &Tree, level: u8, out: &mut Vec<u8>) -> Result<(), AllocError>
    requires { level + depth (tree_of t.now) ≤ 16 }
    ensures ok { OnOk result (out.new.items ≡ out.old.items ++ body_text (names_of p.now) (indent level) (tree_of t.now)) }
    ensures err { OnErr result (AppendsPart out.old.items out.new.items (body_text (names_of p.now) (indent level) (tree_of t.now))) }
{
    match t {
        Tree::Goal => word_line(level, b"goal", out)?,
        Tree::Impossible => word_line(level, b"impossible", out)?,
        Tree::Act { step, next } => {
            step_line(p, level, step, out)?;
            print_body(p, next, level, out)?;
        }
        Tree::Branch { test, yes, no } => {
            branch_line(p, level, test, out)?;
            print_side(p, b"true", yes, level, out)?;
            print_side(p, b"false", no, level, out)?;
        }
        Tree::Cases { term, cases } => {
            cases_line(p, level, term, out)?;
            print_cases(p, cases, level, out)?;
        }
    }
    Ok(())
}

/// One side of a branch.
#[cycle(bodies)]
#[tactic(auto, using(crate::proofs::Indented::lines))]
fn print_side(
    p: &Problem<'_>,
    word: &[u8],
    t: &Tree,
    level: u8,
    out: &mut Vec<u8>,
) -> Result<(), AllocError>
    requires { level + 1 + depth (tree_of t.now) ≤ 16 }
    ensures ok { OnOk result (out.new.items ≡ out.old.items ++ (line (indent level ++ word.now) ++ body_text (names_of p.now) (indent level ++ codes "  ") (tree_of t.now))) }
    ensures err { OnErr result (AppendsPart out.old.items out.new.items (line (indent level ++ word.now) ++ body_text (names_of p.now) (indent level ++ codes "  ") (tree_of t.now))) }
{
    word_line(level, word, out)?;
    print_body(p, t, level + 1, out)?;
    Ok(())
}

/// The lines of cases.
#[cycle(bodies)]
#[tactic(auto, using(crate::proofs::Indented::lines))]
fn print_cases(
    p: &Problem<'_>,
    k: &CaseChain,
    level: u8,
    out: &mut Vec<u8>,
) -> Result<(), AllocError>
    requires { level + 1 + chain_depth (chain_of k.now) ≤ 16 }
    ensures ok { OnOk result (out.new.items ≡ out.old.items ++ cases_text (names_of p.now) (indent level) (chain_of k.now)) }
    ensures err { OnErr result (AppendsPart out.old.items out.new.items (cases_text (names_of p.now) (indent level) (chain_of k.now))) }
{
    match k {
        CaseChain::Empty => {}
        CaseChain::More { object, tree, rest } => {
            case_line(p, level, *object, out)?;
            print_body(p, tree, level + 1, out)?;
            print_cases(p, rest, level, out)?;
        }
    }
    Ok(())
}

/// The text of a tree: a line with its depth, and a line for each action, branch and leaf, indented by two blanks for
/// each branch and for cases (docs/FORMAT.md, "Printed texts"). It asks for a depth of at most 16, and errs only where memory
/// runs out.
#[tactic(auto, unfolding(pks_terms::specs::Printed::tree_text))]
pub fn print_tree(alloc: Global, p: &Problem<'_>, t: &Tree) -> Result<Vec<u8>, AllocError>
    requires { depth (tree_of t.now) ≤ 16 }
    ensures { IfOk result (λ text. text.items ≡ tree_text (names_of p.now) (tree_of t.now)) }
{
    let mut text = Vec::new(alloc);
    depth_line(depth(t), &mut text)?;
    print_body(p, t, 0, &mut text)?;
    Ok(text)
}
