//! The objects left as the value of a term. `docs/RULES.md` has the rule.
ghost use Rattle.std.specs.Prelude.{◌≡◌, ◌≤◌, ◌++◌, map, length, not, IfOk, OnOk};
ghost use Rattle.std.specs.List.{filter};
ghost use Rattle.pks_terms.specs.declared.limits.TheConstants.{MOST_OBJECTS};
ghost use Rattle.pks_terms.specs.Syntax.{object};
ghost use Rattle.pks_terms.specs.Orders.{inequation};
ghost use Rattle.pks_terms.specs.Databases.{holds};
ghost use Rattle.pks_terms.specs.Branching.{left, may_split};
ghost use Rattle.pks_terms.specs.ValidProblems.{IsValidProblem};
ghost use Rattle.pks_terms.specs.Views.{object_of, term_of, signature_of, problem_of};
ghost use Rattle.pks_query_lookup.specs.Fives.{five_of};

use pks_query::databases::Db;
use pks_query_lookup::ranges::range_of;
use pks_terms::ids::{ObjId, ObjList};
use pks_terms::literal::equation;
use pks_terms::problem::{Problem, Signature};
use pks_terms::sequence::Sequence;
use pks_terms::term::Term;
use std::alloc::{AllocError, Global};

/// Whether the term is known to differ from the object.
fn is_shut_out(s: &Signature, d: &Db, t: &Term, e: ObjId) -> bool
    ensures { result ≡ holds (signature_of s.now) (five_of d.now) (inequation (term_of t.now) (object e.0)) }
{
    d.known(s, &equation(t, &Term::Obj(e), false))
}

/// Those of the objects that the term isn't known to differ from.
#[tactic(auto, using(crate::proofs::Lists::pushing))]
fn not_shut_out(
    alloc: Global,
    s: &Signature,
    d: &Db,
    t: &Term,
    objects: &[ObjId],
) -> Result<Vec<ObjId>, AllocError>
    ensures { IfOk result (λ v. map object_of v.items ≡ filter (λ e. not (holds (signature_of s.now) (five_of d.now) (inequation (term_of t.now) (object e)))) (map object_of objects.now)) }
{
    let mut kept = Vec::new(alloc);
    for e in objects {
        if !is_shut_out(s, d, t, *e) {
            kept.push(*e)?;
        }
    }
    Ok(kept)
}

/// The objects that are left, of a signature with at most 65,536 objects.
#[tactic(auto, unfolding(pks_terms::specs::Branching::left))]
pub(crate) fn left_of(alloc: Global, s: &Signature, d: &Db, t: &Term) -> Result<ObjList, AllocError>
    requires { length s.now.objects ≤ MOST_OBJECTS }
    ensures { IfOk result (λ objects. map object_of objects ≡ left (signature_of s.now) (five_of d.now) (term_of t.now)) }
{
    let range = range_of(alloc, s, t)?;
    let kept = not_shut_out(alloc, s, d, t, range.as_slice())?;
    Ok(Sequence::of(kept))
}

/// Whether from 1 to 16 objects are left.
pub(crate) fn may_split(alloc: Global, s: &Signature, d: &Db, t: &Term) -> Result<bool, AllocError>
    requires { length s.now.objects ≤ MOST_OBJECTS }
    ensures { IfOk result (λ b. b ≡ may_split (signature_of s.now) (five_of d.now) (term_of t.now)) }
{
    let count = left_of(alloc, s, d, t)?.len();
    Ok(1 <= count && count <= 16)
}

/// The objects that the term may have as its value, in order, but for those that are known to differ from it. It asks for a
/// valid problem. The error is want of memory.
pub fn left(alloc: Global, p: &Problem<'_>, d: &Db, t: &Term) -> Result<ObjList, AllocError>
    requires valid { IsValidProblem p.now }
    ensures { IfOk result (λ objects. map object_of objects ≡ left (problem_of p.now).signature (five_of d.now) (term_of t.now)) }
{
    let objects = left_of(alloc, &p.signature, d, t)?;
    Ok(objects)
}
