//! Cases of adds.
ghost use Rattle.pks_terms.specs.ValidProblems.{IsValidProblem};

use crate::reading::read;
use pks_justify::{Case, case_of, case_with, justify};
use pks_terms::ids::ActId;
use pks_terms::problem::Problem;
use std::alloc::{AllocError, Global};
use std::test::Fail;

const BEFORE: &str = "(pks 1)
(domain
  (types t)
  (objects (t a b))
  (predicates (p t) (r))
  (functions (f t) (g t))
  (action act (params (?x t) (?y t))
    ";

/// What ends the first action and begins a second one, which makes r true.
const OTHER: &str = ")
  (action other (params (?x t) (?y t)) (effects (set (r))) (knows ";

const AFTER: &str = ")))
(problem (goal (k (r))))
";

/// The text of these parts.
fn concat(alloc: Global, parts: &[&str]) -> Result<String, AllocError> {
    let mut text = String::new(alloc);
    for part in parts {
        text.push_str(part)?;
    }
    Ok(text)
}

/// Whether each add has a case.
fn are_justified(p: &Problem<'_>) -> bool
    requires { IsValidProblem p.now }
{
    justify(p).is_ok()
}

/// The case of the first add of the only action.
fn first_case(p: &Problem<'_>) -> Result<Option<Case>, Fail>
    requires { IsValidProblem p.now }
{
    let [schema] = p.schemas.as_slice() else {
        return Err(Fail::new("there isn't one action"));
    };
    if schema.adds.is_empty() {
        return Err(Fail::new("the action knows nothing"));
    }
    Ok(case_of(p, ActId(0), 1))
}

/// The case of the first add, or none where it has no case; an add without one isn't justified.
fn judge(p: &Problem<'_>) -> Result<Option<Case>, Fail>
    requires { IsValidProblem p.now }
{
    let case = first_case(p)?;
    if are_justified(p) == case.is_none() {
        return Err(Fail::new("an add with a case isn't justified"));
    }
    Ok(case)
}

/// The same of a file.
fn judged_in(alloc: Global, text: &str) -> Result<Option<Case>, Fail> {
    let p = read(alloc, text)?;
    let case = judge(&p)?;
    Ok(case)
}

/// The case of what the action of these parts knows, or none where it has no case.
fn case(alloc: Global, parts: &str, knows: &str) -> Result<Option<Case>, Fail> {
    let text = concat(alloc, &[BEFORE, parts, " (knows ", knows, AFTER])?;
    let case = judged_in(alloc, text.as_str())?;
    Ok(case)
}

/// The parts of an action, what it knows, and the case of that, or none where it has no case.
pub struct Add(pub &'static str, pub &'static str, pub Option<Case>);

fn has_case(alloc: Global, add: &Add) -> Result<bool, Fail> {
    let found = case(alloc, add.0, add.1)?;
    Ok(found == add.2)
}

/// Fails at the first add that has another case.
pub fn have_cases(alloc: Global, adds: &[Add]) -> Result<(), Fail> {
    for add in adds {
        if !has_case(alloc, add)? {
            return Err(Fail::new(format_args!("{} {}", add.0, add.1)));
        }
    }
    Ok(())
}

/// The case that the first add of the second action has in the first action.
fn other_case(p: &Problem<'_>) -> Result<Option<Case>, Fail>
    requires { IsValidProblem p.now }
{
    let [_, other] = p.schemas.as_slice() else {
        return Err(Fail::new("there aren't two actions"));
    };
    if other.adds.is_empty() {
        return Err(Fail::new("the second action knows nothing"));
    }
    Ok(case_with(p, ActId(0), &other.adds.as_slice()[0]))
}

/// Whether an add that doesn't stand in the action of these parts has this case in it.
fn has_other_case(alloc: Global, add: &Add) -> Result<bool, Fail> {
    let text = concat(alloc, &[BEFORE, add.0, OTHER, add.1, AFTER])?;
    let p = read(alloc, text.as_str())?;
    let case = other_case(&p)?;
    Ok(case == add.2)
}

/// Fails at the first add that has another case in an action in which it doesn't stand.
pub fn have_other_cases(alloc: Global, adds: &[Add]) -> Result<(), Fail> {
    for add in adds {
        if !has_other_case(alloc, add)? {
            return Err(Fail::new(format_args!("{} {}", add.0, add.1)));
        }
    }
    Ok(())
}
