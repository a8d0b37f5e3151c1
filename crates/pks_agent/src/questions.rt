//! The questions that the dialogues of a plan may ask, each as its line.
ghost use Rattle.std.specs.Prelude.{◌≡◌, ◌≤◌, ◌++◌, ◌∷◌, [], map, drop, length, OnOk, IfOk};
ghost use Rattle.pks_terms.specs.Views.{inner_of, term_of, conj_of, names_of};
ghost use Rattle.pks_plan.specs.TreeViews.{tree_of, chain_of};
ghost use Rattle.pks_agent.specs.Rooms.{test_question, value_question, argument_questions, questions_of, case_questions, argument_count, question_count, case_question_count, texts_in};

use pks_plan::{CaseChain, Tree, print_conj, print_term};
use pks_terms::literal::Conj;
use pks_terms::problem::Problem;
use pks_terms::term::{Inner, Term, front};
use std::alloc::{AllocError, Global};

/// The question for the truth of a conjunction.
fn test_line(alloc: Global, p: &Problem<'_>, test: &Conj) -> Result<Vec<u8>, AllocError>
    ensures { IfOk result (λ line. line.items ≡ test_question (names_of p.now) (conj_of test.now)) }
{
    let mut line = b"test ".to_vec(alloc)?;
    print_conj(p, test, &mut line)?;
    Ok(line)
}

/// The question for the value of a term.
fn value_line(alloc: Global, p: &Problem<'_>, t: &Term) -> Result<Vec<u8>, AllocError>
    ensures { IfOk result (λ line. line.items ≡ value_question (names_of p.now) (term_of t.now)) }
{
    let mut line = b"value ".to_vec(alloc)?;
    print_term(p, t, &mut line)?;
    Ok(line)
}

/// Adds the question for the truth of a conjunction.
fn add_test(
    alloc: Global,
    p: &Problem<'_>,
    test: &Conj,
    lines: &mut Vec<Vec<u8>>,
) -> Result<(), AllocError>
    ensures { OnOk result (texts_in lines.new.items ≡ texts_in lines.old.items ++ test_question (names_of p.now) (conj_of test.now) ∷ []) }
{
    let line = test_line(alloc, p, test)?;
    lines.push(line)?;
    Ok(())
}

/// Adds the question for the value of a term.
fn add_value(
    alloc: Global,
    p: &Problem<'_>,
    t: &Term,
    lines: &mut Vec<Vec<u8>>,
) -> Result<(), AllocError>
    ensures { OnOk result (texts_in lines.new.items ≡ texts_in lines.old.items ++ value_question (names_of p.now) (term_of t.now) ∷ []) }
{
    let line = value_line(alloc, p, t)?;
    lines.push(line)?;
    Ok(())
}

/// Adds the questions for the arguments that are applications.
fn add_arguments(
    alloc: Global,
    p: &Problem<'_>,
    arguments: &[Inner],
    lines: &mut Vec<Vec<u8>>,
) -> Result<(), AllocError>
    ensures { OnOk result (texts_in lines.new.items ≡ texts_in lines.old.items ++ argument_questions (names_of p.now) (map inner_of arguments.now)) }
{
    match arguments {
        [] => {}
        [t, rest @ ..] => {
            if matches!(t, Inner::App { .. }) {
                add_value(alloc, p, &t.as_term(), lines)?;
            }
            add_arguments(alloc, p, rest, lines)?;
        }
    }
    Ok(())
}

/// Adds the questions of a tree.
#[cycle(asked)]
fn add_questions(
    alloc: Global,
    p: &Problem<'_>,
    t: &Tree,
    lines: &mut Vec<Vec<u8>>,
) -> Result<(), AllocError>
    ensures { OnOk result (texts_in lines.new.items ≡ texts_in lines.old.items ++ questions_of (names_of p.now) (tree_of t.now)) }
{
    match t {
        Tree::Goal | Tree::Impossible => {}
        Tree::Act { step, next } => {
            add_arguments(alloc, p, front(&step.args, step.n), lines)?;
            add_questions(alloc, p, next, lines)?;
        }
        Tree::Branch { test, yes, no } => {
            add_test(alloc, p, test, lines)?;
            add_questions(alloc, p, yes, lines)?;
            add_questions(alloc, p, no, lines)?;
        }
        Tree::Cases { term, cases } => {
            add_value(alloc, p, term, lines)?;
            add_case_questions(alloc, p, cases, lines)?;
        }
    }
    Ok(())
}

/// Adds the questions of cases.
#[cycle(asked)]
fn add_case_questions(
    alloc: Global,
    p: &Problem<'_>,
    k: &CaseChain,
    lines: &mut Vec<Vec<u8>>,
) -> Result<(), AllocError>
    ensures { OnOk result (texts_in lines.new.items ≡ texts_in lines.old.items ++ case_questions (names_of p.now) (chain_of k.now)) }
{
    match k {
        CaseChain::Empty => {}
        CaseChain::More { tree, rest, .. } => {
            add_questions(alloc, p, tree, lines)?;
            add_case_questions(alloc, p, rest, lines)?;
        }
    }
    Ok(())
}

/// The questions of a tree.
pub(crate) fn all_questions(
    alloc: Global,
    p: &Problem<'_>,
    t: &Tree,
) -> Result<Vec<Vec<u8>>, AllocError>
    ensures { IfOk result (λ lines. texts_in lines.items ≡ questions_of (names_of p.now) (tree_of t.now)) }
{
    let mut lines = Vec::new(alloc);
    add_questions(alloc, p, t, &mut lines)?;
    Ok(lines)
}

/// The questions behind those for the arguments.
pub(crate) fn behind_arguments<'q>(arguments: &[Inner], questions: &'q [Vec<u8>]) -> &'q [Vec<u8>]
    requires { argument_count (map inner_of arguments.now) ≤ length questions.now }
    ensures { result.now ≡ drop (argument_count (map inner_of arguments.now)) questions.now }
{
    match arguments {
        [] => questions,
        [Inner::App { .. }, rest @ ..] => behind_arguments(rest, &questions[1..]),
        [_, rest @ ..] => behind_arguments(rest, questions),
    }
}

/// The questions behind those of the tree.
#[cycle(passed)]
pub(crate) fn behind<'q>(t: &Tree, questions: &'q [Vec<u8>]) -> &'q [Vec<u8>]
    requires { question_count (tree_of t.now) ≤ length questions.now }
    ensures { result.now ≡ drop (question_count (tree_of t.now)) questions.now }
{
    match t {
        Tree::Goal | Tree::Impossible => questions,
        Tree::Act { step, next } => behind(
            next,
            behind_arguments(front(&step.args, step.n), questions),
        ),
        Tree::Branch { yes, no, .. } => behind(no, behind(yes, &questions[1..])),
        Tree::Cases { cases, .. } => behind_cases(cases, &questions[1..]),
    }
}

/// The questions behind those of the cases.
#[cycle(passed)]
fn behind_cases<'q>(k: &CaseChain, questions: &'q [Vec<u8>]) -> &'q [Vec<u8>]
    requires { case_question_count (chain_of k.now) ≤ length questions.now }
    ensures { result.now ≡ drop (case_question_count (chain_of k.now)) questions.now }
{
    match k {
        CaseChain::Empty => questions,
        CaseChain::More { tree, rest, .. } => behind_cases(rest, behind(tree, questions)),
    }
}
