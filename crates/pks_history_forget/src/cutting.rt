//! Letting go of looks and of the settled past. `docs/DECISIONS.md` says what these are.
ghost use Rattle.std.specs.Prelude.{◌≡◌, ◌↔◌, IsTrue, map, IfOk};
ghost use Rattle.pks_terms.specs.Moments.{AreMomentsOf};
ghost use Rattle.pks_terms.specs.Sets.{Each};
ghost use Rattle.pks_terms.specs.ValidProblems.{IsValidProblem};
ghost use Rattle.pks_terms.specs.Versions.{IsNow};
ghost use Rattle.pks_terms.specs.Views.{aim_of, problem_of};
ghost use Rattle.pks_laws_forget.specs.Transparent.{AreSetsAlong};
ghost use Rattle.pks_laws_forget.specs.Looks.{without_looks};
ghost use Rattle.pks_history_forget.specs.Same.{EndHasSameTrees, HasSameTrees, first_hides_nothing, without_settled, first_may_go, without_unasked};

use crate::hiding::hides_nothing;
use crate::looking::without_looks;
use crate::staying::aims_stay;
use pks_history::histories::History;
use pks_terms::problem::{Aim, Problem};
use std::alloc::{AllocError, Global};

/// Whether each of the aims is one of the last moment. It takes no memory.
pub fn are_now(aims: &[Aim]) -> bool
    ensures { IsTrue result ↔ Each IsNow (map aim_of aims.now) }
{
    for a in aims {
        if !matches!(a, Aim::Now(_)) {
            return false;
        }
    }
    true
}

/// That each set of each moment is in order. It does nothing.
fn in_order(h: &History)
    ensures { AreSetsAlong h.now }
{
    h.in_order();
}

/// Whether there is a first step, and it hides nothing. The error is want of memory.
fn first_hides_nothing(alloc: Global, p: &Problem<'_>, h: &History) -> Result<bool, AllocError>
    requires { IsValidProblem p.now }
    ensures { IfOk result (λ b. b ≡ first_hides_nothing (problem_of p.now) h.now) }
{
    let moments = h.len();
    if moments == 1 {
        return Ok(false);
    }
    let hides = hides_nothing(alloc, p, h.at(0), h.step(0), h.at(1))?;
    Ok(hides)
}

/// The history without its moments before the first step that may hide something.
fn without_settled(alloc: Global, p: &Problem<'_>, h: History) -> Result<History, AllocError>
    requires valid { IsValidProblem p.now }
    requires plain { Each IsNow (problem_of p.now).goal }
    requires moments { AreMomentsOf (problem_of p.now) h }
    requires sets { AreSetsAlong h }
    ensures trees { IfOk result (λ rest. EndHasSameTrees (problem_of p.now) h rest) }
    ensures exact { IfOk result (λ rest. rest ≡ without_settled (problem_of p.now) h) }
{
    if !first_hides_nothing(alloc, p, &h)? {
        return Ok(h);
    }
    let later = h.without_first(alloc)?;
    let rest = without_settled(alloc, p, later)?;
    Ok(rest)
}

/// Whether there is a first step, it leaves what the aims over time ask, and it hides nothing. The error is want of memory.
fn first_may_go(alloc: Global, p: &Problem<'_>, h: &History) -> Result<bool, AllocError>
    requires { IsValidProblem p.now }
    ensures { IfOk result (λ b. b ≡ first_may_go (problem_of p.now) h.now) }
{
    let moments = h.len();
    if moments == 1 {
        return Ok(false);
    }
    if !aims_stay(alloc, p, h.at(0), h.step(0), h.at(1))? {
        return Ok(false);
    }
    let hides = hides_nothing(alloc, p, h.at(0), h.step(0), h.at(1))?;
    Ok(hides)
}

/// The history without its moments before the first step that may hide something or change what the aims over time ask.
fn without_unasked(alloc: Global, p: &Problem<'_>, h: History) -> Result<History, AllocError>
    requires valid { IsValidProblem p.now }
    requires moments { AreMomentsOf (problem_of p.now) h }
    requires sets { AreSetsAlong h }
    ensures trees { IfOk result (λ rest. EndHasSameTrees (problem_of p.now) h rest) }
    ensures exact { IfOk result (λ rest. rest ≡ without_unasked (problem_of p.now) h) }
{
    if !first_may_go(alloc, p, &h)? {
        return Ok(h);
    }
    let later = h.without_first(alloc)?;
    let rest = without_unasked(alloc, p, later)?;
    Ok(rest)
}

/// The history without its looks and its settled past: the databases after a look stand in the place of those before it, and then
/// the first moment goes as long as the step from there hides nothing, and no longer. With aims over time it goes as long as that
/// step leaves what they ask besides. The same trees are derived from what is left. It asks for a valid problem and for moments of
/// it. The error is want of memory.
pub fn cut(alloc: Global, p: &Problem<'_>, h: &History) -> Result<History, AllocError>
    requires valid { IsValidProblem p.now }
    requires moments { AreMomentsOf (problem_of p.now) h.now }
    ensures trees { IfOk result (λ rest. HasSameTrees (problem_of p.now) h.now rest) }
    ensures exact { Each IsNow (problem_of p.now).goal → IfOk result (λ rest. rest ≡ without_settled (problem_of p.now) (without_looks (problem_of p.now) h.now)) }
    ensures asked { (Each IsNow (problem_of p.now).goal → ⊥) → IfOk result (λ rest. rest ≡ without_unasked (problem_of p.now) (without_looks (problem_of p.now) h.now)) }
{
    in_order(h);
    let steps = without_looks(alloc, p, h)?;
    if !are_now(p.goal.as_slice()) {
        let rest = without_unasked(alloc, p, steps)?;
        return Ok(rest);
    }
    let rest = without_settled(alloc, p, steps)?;
    Ok(rest)
}
