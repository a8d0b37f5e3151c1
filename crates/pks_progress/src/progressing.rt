//! The databases after an action. `docs/RULES.md` has the rule.
ghost use Rattle.std.specs.Prelude.{◌≡◌, ◌≤◌, length, IfOk};
ghost use Rattle.pks_terms.specs.declared.limits.TheConstants.{MOST_OBJECTS};
ghost use Rattle.pks_terms.specs.Sets.{Each, IsIn, added};
ghost use Rattle.pks_terms.specs.Databases.{entry_cmp};
ghost use Rattle.pks_terms.specs.Orders.{conj_cmp, literal_cmp, term_cmp};
ghost use Rattle.pks_terms.specs.Closure.{Closes};
ghost use Rattle.pks_terms.specs.Signatures.{HasValues};
ghost use Rattle.pks_terms.specs.Worlds.{World, inner_value};
ghost use Rattle.pks_terms.specs.Meaning.{IsTrueOf};
ghost use Rattle.pks_terms.specs.Progress.{Progress, progressed};
ghost use Rattle.pks_terms.specs.Problems.{schema_of};
ghost use Rattle.pks_terms.specs.Typed.{AreJustified};
ghost use Rattle.pks_terms.specs.Branching.{instances};
ghost use Rattle.pks_terms.specs.Knowledge.{grounded, after_action, observations};
ghost use Rattle.pks_terms.specs.ValidProblems.{IsValidProblem};
ghost use Rattle.pks_terms.specs.Views.{instance_of, problem_of, signature_of, terms_of};
ghost use Rattle.pks_terms.specs.Moments.{IsMomentOf};
ghost use Rattle.pks_kf.specs.Known.{literals_of};
ghost use Rattle.pks_kw.specs.Formulas.{formulas_of};
ghost use Rattle.pks_kx.specs.Groups.{groups_of};
ghost use Rattle.pks_lcw.specs.Entries.{entries_of};
ghost use Rattle.pks_query_lookup.specs.Fives.{five_of};
ghost use Rattle.pks_query.specs.Steps.{outcome_of, IfNext, IsNextWith};
ghost use Rattle.pks_terms.specs.Settling.{effects_of};
ghost use Rattle.pks_progress.specs.Ahead.{PutsIn, five_ahead, IsAhead};

use crate::ahead::{Ahead, PutIn, grown_or_still};
use crate::kept::kept_after;
use pks_progress_adds::gained::Gains;
use pks_progress_adds::gains::gains;
use pks_progress_interference::effects::effects_of;
use pks_query::databases::{Db, Step};
use pks_query_lookup::five::Five;
use pks_terms::literal::Literal;
use pks_terms::problem::{Problem, Signature};
use pks_terms::schema::Instance;
use std::alloc::{AllocError, Global};

/// The databases with what the adds give put in.
fn with_gains(alloc: Global, kept: &Five, gains: Gains) -> Result<Five, AllocError>
    ensures literals { IfOk result (λ five. literals_of five.kf ≡ added literal_cmp (literals_of kept.now.kf) (literals_of gains.kf.items)) }
    ensures formulas { IfOk result (λ five. formulas_of five.kw ≡ added conj_cmp (formulas_of kept.now.kw) (formulas_of gains.kw.items)) }
    ensures values { IfOk result (λ five. terms_of five.kv ≡ added term_cmp (terms_of kept.now.kv) (terms_of gains.kv.items)) }
    ensures groups { IfOk result (λ five. groups_of five.kx ≡ groups_of kept.now.kx) }
    ensures regions { IfOk result (λ five. entries_of five.lcw ≡ added entry_cmp (entries_of kept.now.lcw) (entries_of gains.lcw.items)) }
{
    let kf = kept.kf.with_all(alloc, gains.kf)?;
    let kw = kept.kw.with_all(alloc, gains.kw)?;
    let kv = kept.kv.with_all(alloc, gains.kv)?;
    let kx = kept.kx.share()?;
    let lcw = kept.lcw.with_all(alloc, gains.lcw)?;
    Ok(Five {
        kf,
        kw,
        kv,
        kx,
        lcw,
    })
}

/// The literals that the adds give.
fn gained_literals(alloc: Global, gains: &Gains) -> Result<Vec<Literal>, AllocError>
    ensures { IfOk result (λ v. literals_of v.items ≡ literals_of gains.now.kf.items) }
{
    let literals = Vec::from_slice(alloc, gains.kf.as_slice())?;
    Ok(literals)
}

/// What lasts, with what the adds of the instance give, before it is closed.
fn put_in_adds(alloc: Global, p: &Problem<'_>, d: &Db, i: &Instance) -> Result<PutIn, AllocError>
    requires { IsValidProblem p.now }
    ensures puts { IfOk result (λ put. PutsIn (problem_of p.now).signature (five_of d.now) (effects_of (problem_of p.now) (instance_of i.now)) (five_of put.kept) (literals_of put.literals.items) (five_of put.five)) }
    ensures five { IfOk result (λ put. five_of put.five ≡ progressed (problem_of p.now).signature (five_of d.now) (schema_of (problem_of p.now) (instance_of i.now).action) (instance_of i.now).arguments) }
{
    let kept = kept_after(alloc, &p.signature, d.lookup(), effects_of(p, i))?;
    let gains = gains(alloc, p, d, i)?;
    let literals = gained_literals(alloc, &gains)?;
    let five = with_gains(alloc, &kept, gains)?;
    Ok(PutIn {
        kept,
        literals,
        five,
    })
}

/// What the databases become by closing. It asks for at most 65,536 objects, and for an object of each function's result
/// type.
fn close_ahead(alloc: Global, s: &Signature, ahead: Ahead) -> Result<Step, AllocError>
    requires few { length s.now.objects ≤ MOST_OBJECTS }
    requires values { HasValues (signature_of s.now) }
    requires ahead { IsAhead (signature_of s.now) ahead }
    ensures { IfOk result (λ o. Closes (signature_of s.now) (five_ahead ahead) (outcome_of o)) }
{
    match ahead {
        Ahead::Still(derived) => {
            let next = Db::close_saturated(alloc, s, derived)?;
            Ok(Step::Next(next))
        }
        Ahead::Grown(five) => {
            let step = Db::close_to_step(alloc, s, five)?;
            Ok(step)
        }
    }
}

/// The closed databases after the instance, or the least literal that is derived false (`docs/RULES.md`, "Progression"). It
/// asks for a valid problem, for closed databases of its signature, for an instance that is a choice there, and that every
/// add of its action is justified. Where the databases are true of two worlds, the arguments have the same values in both;
/// and where the same is observed after the ground action that the instance is then, there is no clash, and the next
/// databases are true of the two new worlds. The error is want of memory.
pub fn progress(alloc: Global, p: &Problem<'_>, d: &Db, i: &Instance) -> Result<Step, AllocError>
    requires valid { IsValidProblem p.now }
    requires moment { IsMomentOf (problem_of p.now).signature (five_of d.now) }
    requires choice { IsIn (instance_of i.now) (instances (problem_of p.now) (five_of d.now)) }
    requires justified { AreJustified (schema_of (problem_of p.now) (instance_of i.now).action) }
    ensures progress { IfOk result (λ o. Progress (problem_of p.now).signature (five_of d.now) (schema_of (problem_of p.now) (instance_of i.now).action) (instance_of i.now) (outcome_of o)) }
    ensures moment { IfOk result (λ o. IfNext (IsMomentOf (problem_of p.now).signature) (outcome_of o)) }
    ensures arguments_agree { (w w' : World) → IsTrueOf (problem_of p.now).signature w w' (five_of d.now) → Each (λ t. inner_value w t ≡ inner_value w' t) (instance_of i.now).arguments }
    ensures keeps_truth { (w w' : World) → let q = problem_of p.now in let g = grounded w (instance_of i.now) in let g' = grounded w' (instance_of i.now) in
        let v = after_action q w g in let v' = after_action q w' g' in
        IsTrueOf q.signature w w' (five_of d.now) → observations q v g ≡ observations q v' g' → IfOk result (λ o. IsNextWith (IsTrueOf q.signature v v') (outcome_of o)) }
{
    let put = put_in_adds(alloc, p, d, i)?;
    let ahead = grown_or_still(alloc, &p.signature, d.lookup(), effects_of(p, i), put)?;
    let step = close_ahead(alloc, &p.signature, ahead)?;
    Ok(step)
}
