//! Explanations of trees. `docs/REASONS.md` says which proofs are accepted, `docs/FORMAT.md` has the text.
ghost use Rattle.std.specs.Prelude.{◌≡◌, ◌≤◌, [], map, length, IfOk};
ghost use Rattle.pks_terms.specs.declared.limits.TheConstants.{MOST_OBJECTS};
ghost use Rattle.pks_terms.specs.Answers.{unjustified};
ghost use Rattle.pks_terms.specs.Explained.{owed, IsExplained};
ghost use Rattle.pks_terms.specs.Trees.{IsPlan, depth};
ghost use Rattle.pks_terms.specs.ValidProblems.{IsValidProblem};
ghost use Rattle.pks_terms.specs.Views.{problem_of};
ghost use Rattle.pks_plan.specs.TreeViews.{tree_of};
ghost use Rattle.pks_explain.specs.EntryViews.{entry_of, entries_of, owed_of};
ghost use Rattle.pks_explain.specs.Accepted.{IsProved, AreProved};

use crate::entries::{Explained, Owed, ProvedLiteral};
use crate::owing::owed_literals;
use crate::proving::prove_owed;
use pks_explain_lines::missing_as_memory;
use pks_plan::Tree;
use pks_proof::accepts;
use pks_proof_lines::Proof;
use pks_terms::problem::Problem;
use pks_terms::sequence::Sequence;
use std::alloc::{AllocError, Global};

/// The literal with its proof, which must be accepted for it.
fn accepted_literal(p: &Problem<'_>, one: Owed, proof: Proof) -> Result<ProvedLiteral, AllocError>
    requires { length p.now.signature.objects ≤ MOST_OBJECTS }
    ensures { IfOk result (λ e. IsProved (problem_of p.now) (owed_of one) (entry_of e)) }
{
    if !accepts(p, &one.path, &proof, &one.literal) {
        return Err(missing_as_memory());
    }
    Ok(ProvedLiteral {
        path: one.path,
        literal: one.literal,
        proof,
    })
}

/// The literals with their proofs, as many as there are literals, each of which must be accepted for its literal.
fn all_tested(
    alloc: Global,
    p: &Problem<'_>,
    all: Vec<Owed>,
    proofs: Vec<Proof>,
) -> Result<Vec<ProvedLiteral>, AllocError>
    requires { length p.now.signature.objects ≤ MOST_OBJECTS }
    ensures { IfOk result (λ es. AreProved (problem_of p.now) (map owed_of all.items) (entries_of es.items)) }
{
    let mut entries = Vec::new(alloc);
    let mut left = proofs.into_iter();
    for one in all {
        let proof = left.next().ok_or(missing_as_memory())?;
        entries.push(accepted_literal(p, one, proof)?)?;
    }
    Ok(entries)
}

/// What the tree owes with these proofs, each of which must be accepted for its literal.
fn tested_owed(
    alloc: Global,
    p: &Problem<'_>,
    t: &Tree,
    proofs: Vec<Proof>,
) -> Result<Vec<ProvedLiteral>, AllocError>
    requires { length p.now.signature.objects ≤ MOST_OBJECTS }
    ensures { IfOk result (λ es. AreProved (problem_of p.now) (owed (problem_of p.now) [] (tree_of t.now)) (entries_of es.items)) }
{
    let all = owed_literals(alloc, p, t)?;
    let entries = all_tested(alloc, p, all, proofs)?;
    Ok(entries)
}

/// The explanation of a tree: for each literal that it needs known, before an action or at a goal leaf, the path to it and a
/// proof that is accepted, in the order in which the tree is printed. It asks for a valid problem whose adds are all
/// justified, and for a derived tree of depth at most 16. The error is want of memory, and would also come where no proof of a
/// literal is found: there always is one, and no file is known for which it isn't found (`docs/PROMISES.md`).
pub fn explain(alloc: Global, p: &Problem<'_>, t: &Tree) -> Result<Explained, AllocError>
    requires valid { IsValidProblem p.now }
    requires justified { unjustified (problem_of p.now) ≡ [] }
    requires derived { IsPlan (problem_of p.now) (tree_of t.now) }
    requires depth { depth (tree_of t.now) ≤ 16 }
    ensures { IfOk result (λ es. IsExplained (problem_of p.now) (tree_of t.now) (entries_of es)) }
{
    let proofs = prove_owed(alloc, p, t)?;
    let entries = tested_owed(alloc, p, t, proofs)?;
    Ok(Sequence::of(entries))
}
