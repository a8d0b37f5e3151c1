//! Choices: instances of actions, branches and cases. `docs/RULES.md` has the rules.
ghost use Rattle.std.specs.Prelude.{◌≡◌, ◌≤◌, ◌++◌, ◌&&◌, map, length, not, IfOk, OnOk};
ghost use Rattle.std.specs.List.{list_all, filter};
ghost use Rattle.pks_terms.specs.declared.limits.TheConstants.{MOST_OBJECTS};
ghost use Rattle.pks_terms.specs.Sets.{Each, IsOrdered};
ghost use Rattle.pks_terms.specs.Orders.{term_cmp, conj_cmp};
ghost use Rattle.pks_terms.specs.Databases.{holds};
ghost use Rattle.pks_terms.specs.Branching.{BranchOn, CasesOn, is_undecided, may_split, choices};
ghost use Rattle.pks_terms.specs.ValidProblems.{IsValidProblem};
ghost use Rattle.pks_terms.specs.Views.{literals_in, conj_of, terms_of, signature_of, problem_of};
ghost use Rattle.pks_kw.specs.Formulas.{formulas_of};
ghost use Rattle.pks_query_lookup.specs.Fives.{five_of};
ghost use Rattle.pks_terms.specs.ChoiceViews.{choices_of};
ghost use Rattle.pks_branch.specs.ChoiceOrder.{choice_cmp};

use crate::leaving::may_split;
use crate::taking::Walk;
use pks_kv::Kv;
use pks_kw::Kw;
use pks_query::databases::Db;
use pks_terms::choices::{Choice, ChoiceList};
use pks_terms::literal::{Conj, Literal};
use pks_terms::problem::{Problem, Signature};
use pks_terms::schema::Instance;
use pks_terms::sequence::Sequence;
use pks_terms::term::{Term, front};
use std::alloc::{AllocError, Global};

/// Whether each literal is derived.
fn all_known(s: &Signature, d: &Db, ls: &[Literal]) -> bool
    ensures { result ≡ list_all (holds (signature_of s.now) (five_of d.now)) (literals_in ls.now) }
{
    for l in ls {
        if !d.known(s, l) {
            return false;
        }
    }
    true
}

/// Whether no literal of the formula is derived false, and not each is derived.
#[tactic(auto, unfolding(pks_terms::specs::Branching::is_undecided))]
fn is_undecided(s: &Signature, d: &Db, c: &Conj) -> bool
    ensures { result ≡ is_undecided (signature_of s.now) (five_of d.now) (conj_of c.now) }
{
    let literals = front(&c.literals, c.n);
    !d.some_denied(s, literals) && !all_known(s, d, literals)
}

/// Appends the undecided formulas of a set.
#[tactic(auto, using(crate::proofs::Lists::pushing))]
pub(crate) fn push_branches(
    s: &Signature,
    d: &Db,
    kw: &Kw,
    to: &mut Vec<Choice>,
) -> Result<(), AllocError>
    ensures all { OnOk result (choices_of to.new.items ≡ choices_of to.old.items ++ map BranchOn (filter (is_undecided (signature_of s.now) (five_of d.now)) (formulas_of kw.now))) }
    ensures ordered { IsOrdered conj_cmp (formulas_of kw.now) }
{
    for c in kw.items() {
        if is_undecided(s, d, c) {
            to.push(Choice::Branch(*c))?;
        }
    }
    Ok(())
}

/// Appends the terms of a set with from 1 to 16 objects left.
#[tactic(auto, using(crate::proofs::Lists::pushing))]
pub(crate) fn push_cases(
    alloc: Global,
    s: &Signature,
    d: &Db,
    kv: &Kv,
    to: &mut Vec<Choice>,
) -> Result<(), AllocError>
    requires { length s.now.objects ≤ MOST_OBJECTS }
    ensures all { OnOk result (choices_of to.new.items ≡ choices_of to.old.items ++ map CasesOn (filter (may_split (signature_of s.now) (five_of d.now)) (terms_of kv.now))) }
    ensures ordered { IsOrdered term_cmp (terms_of kv.now) }
{
    for t in kv.items() {
        if may_split(alloc, s, d, t)? {
            to.push(Choice::Cases(*t))?;
        }
    }
    Ok(())
}

/// All choices at the databases: each instance whose preconditions are answered, each undecided formula, each term with 1 to
/// 16 objects left; each once, in the order of trees (`docs/RULES.md`, "Instances, choices, assumptions"). It asks for a valid problem. The error is
/// want of memory.
pub fn choices(alloc: Global, p: &Problem<'_>, d: &Db) -> Result<ChoiceList, AllocError>
    requires valid { IsValidProblem p.now }
    ensures all { IfOk result (λ cs. choices_of cs ≡ choices (problem_of p.now) (five_of d.now)) }
    ensures ordered { IfOk result (λ cs. IsOrdered choice_cmp (choices_of cs)) }
{
    let mut walk = Walk::of(alloc, p, d)?;
    let mut all = Vec::new(alloc);
    'each: while let Some(c) = walk.next(alloc, p, d)? {
        all.push(c)?;
    }
    Ok(Sequence::of(all))
}
