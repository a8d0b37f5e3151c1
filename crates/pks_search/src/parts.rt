//! The roots of trees over what was found for their children.

ghost use Rattle.std.specs.Prelude.{◌≡◌, Some, option_map, IfOk};
ghost use Rattle.pks_terms.specs.Trees.{Do, Branch, Cases};
ghost use Rattle.pks_terms.specs.Views.{term_of, conj_of, instance_of};
ghost use Rattle.pks_terms.specs.ChoiceViews.{side_of};
ghost use Rattle.pks_plan.specs.TreeViews.{tree_of, chain_of};
ghost use Rattle.pks_search.specs.Sides.{side_on, branch_of};

use pks_plan::{CaseChain, Tree};
use pks_terms::choices::Side;
use pks_terms::literal::Conj;
use pks_terms::schema::Instance;
use pks_terms::term::Term;
use std::alloc::{AllocError, Global};

/// The action and what follows it, where something does.
pub(crate) fn act(
    alloc: Global,
    step: Instance,
    next: Option<Tree>,
) -> Result<Option<Tree>, AllocError>
    ensures { IfOk result (λ o. option_map tree_of o ≡ option_map (Do (instance_of step)) (option_map tree_of next)) }
{
    let Some(next) = next else {
        return Ok(None);
    };
    let next = Box::new(alloc, next)?;
    Ok(Some(Tree::Act { step, next }))
}

/// The branch and its two sides.
pub(crate) fn branch(alloc: Global, test: Conj, yes: Tree, no: Tree) -> Result<Tree, AllocError>
    ensures { IfOk result (λ t. tree_of t ≡ Branch (conj_of test) (tree_of yes) (tree_of no)) }
{
    let yes = Box::new(alloc, yes)?;
    let no = Box::new(alloc, no)?;
    Ok(Tree::Branch { test, yes, no })
}

/// The true side of a branch, or the false one.
pub(crate) fn side_on(is_true: bool) -> Side
    ensures { side_of result ≡ side_on is_true }
{
    if is_true { Side::True } else { Side::False }
}

/// The branch, given the tree on one side, which may be the true one, and that on the other.
pub(crate) fn branch_of(
    alloc: Global,
    test: Conj,
    is_true: bool,
    one: Tree,
    other: Tree,
) -> Result<Tree, AllocError>
    ensures { IfOk result (λ t. tree_of t ≡ branch_of is_true (conj_of test) (tree_of one) (tree_of other)) }
{
    if is_true {
        branch(alloc, test, one, other)
    } else {
        branch(alloc, test, other, one)
    }
}

/// The cases on the term, where there are some.
pub(crate) fn cases(
    alloc: Global,
    term: Term,
    cases: Option<CaseChain>,
) -> Result<Option<Tree>, AllocError>
    ensures { IfOk result (λ o. option_map tree_of o ≡ option_map (Cases (term_of term)) (option_map chain_of cases)) }
{
    let Some(cases) = cases else {
        return Ok(None);
    };
    let cases = Box::new(alloc, cases)?;
    Ok(Some(Tree::Cases { term, cases }))
}
