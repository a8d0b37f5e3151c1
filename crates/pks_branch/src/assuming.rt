//! Assuming a side of a choice. `docs/RULES.md` has the rule.
ghost use Rattle.std.specs.Prelude.{◌≡◌, ◌++◌, not, map, IfOk};
ghost use Rattle.std.specs.List.{filter};
ghost use Rattle.std.specs.Ordering.{is_eq};
ghost use Rattle.pks_terms.specs.Worlds.{World};
ghost use Rattle.pks_terms.specs.Meaning.{IsTrueOf};
ghost use Rattle.pks_terms.specs.Orders.{term_eq, conj_cmp};
ghost use Rattle.pks_terms.specs.Databases.{holds};
ghost use Rattle.pks_terms.specs.Branching.{IsSo, IsMember, Assumes, CasesOn, Is, denials, assumed_formula, assumed};
ghost use Rattle.pks_terms.specs.ValidProblems.{IsValidProblem};
ghost use Rattle.pks_terms.specs.Views.{literals_in, conj_of, term_of, terms_of, signature_of, problem_of};
ghost use Rattle.pks_terms.specs.Moments.{IsMomentOf};
ghost use Rattle.pks_laws.specs.OfSignature.{IsSideOf};
ghost use Rattle.pks_kw.specs.Formulas.{formulas_of};
ghost use Rattle.pks_kx.specs.Groups.{groups_of};
ghost use Rattle.pks_lcw.specs.Entries.{entries_of};
ghost use Rattle.pks_query_lookup.specs.Fives.{five_of};
ghost use Rattle.pks_query.specs.Steps.{outcome_of, IfNext, IsNextWith};
ghost use Rattle.pks_terms.specs.ChoiceViews.{choice_of, side_of};

use pks_kv::Kv;
use pks_kw::Kw;
use pks_kx::Kx;
use pks_lcw::Lcw;
use pks_query::databases::{Db, Step};
use pks_query_lookup::five::Five;
use pks_terms::choices::{Choice, Side};
use pks_terms::ids::ObjId;
use pks_terms::literal::{Conj, Literal, equation};
use pks_terms::problem::{Problem, Signature};
use pks_terms::term::{Term, front};
use std::alloc::{AllocError, Global};

/// Whether the formulas differ.
fn is_other(b: &Conj, c: &Conj) -> bool
    ensures { result ≡ not (is_eq (conj_cmp (conj_of b.now) (conj_of c.now))) }
{
    *b != *c
}

/// The formulas but for this one.
fn other_formulas(alloc: Global, kw: &Kw, c: &Conj) -> Result<Kw, AllocError>
    ensures { IfOk result (λ rest. formulas_of rest ≡ filter (λ b. not (is_eq (conj_cmp b (conj_of c.now)))) (formulas_of kw.now)) }
{
    let rest = kw.kept(alloc, |b| is_other(b, c))?;
    Ok(rest)
}

/// Whether the terms differ.
#[tactic(auto, unfolding(pks_terms::specs::Orders::term_eq))]
fn is_another(u: &Term, t: &Term) -> bool
    ensures { result ≡ not (term_eq (term_of u.now) (term_of t.now)) }
{
    *u != *t
}

/// The terms but for this one.
fn other_values(alloc: Global, kv: &Kv, t: &Term) -> Result<Kv, AllocError>
    ensures { IfOk result (λ rest. terms_of rest ≡ filter (λ u. not (term_eq u (term_of t.now))) (terms_of kv.now)) }
{
    let rest = kv.kept(alloc, |u| is_another(u, t))?;
    Ok(rest)
}

/// The five with these literals known, and without the formula.
fn with_formula(
    alloc: Global,
    five: &Five,
    c: &Conj,
    news: Vec<Literal>,
) -> Result<Five, AllocError>
    ensures { IfOk result (λ next. five_of next ≡ assumed_formula (five_of five.now) (conj_of c.now) (literals_in news.items)) }
{
    let kf = five.kf.with_all(alloc, news)?;
    let kw = other_formulas(alloc, &five.kw, c)?;
    let kv = five.kv.share()?;
    let kx = five.kx.share()?;
    let lcw = five.lcw.share()?;
    Ok(Five {
        kf,
        kw,
        kv,
        kx,
        lcw,
    })
}

/// The literals of the formula that aren't derived.
#[tactic(auto, using(crate::proofs::Lists::pushing))]
fn open_literals(
    alloc: Global,
    s: &Signature,
    d: &Db,
    ls: &[Literal],
) -> Result<Vec<Literal>, AllocError>
    ensures { IfOk result (λ v. literals_in v.items ≡ filter (λ l. not (holds (signature_of s.now) (five_of d.now) l)) (literals_in ls.now)) }
{
    let mut unknown = Vec::new(alloc);
    for l in ls {
        if !d.known(s, l) {
            unknown.push(*l)?;
        }
    }
    Ok(unknown)
}

/// The negation of the literal that is alone, and nothing of other lists.
fn denials(alloc: Global, unknown: &[Literal]) -> Result<Vec<Literal>, AllocError>
    ensures { IfOk result (λ v. literals_in v.items ≡ denials (literals_in unknown.now)) }
{
    match unknown {
        [l] => {
            let alone = vec![in alloc; l.negated()]?;
            Ok(alone)
        }
        _ => Ok(Vec::new(alloc)),
    }
}

/// The five with the formula true.
#[tactic(auto, unfolding(pks_terms::specs::Branching::assumed))]
fn with_true(alloc: Global, d: &Db, c: &Conj) -> Result<Five, AllocError>
    ensures { IfOk result (λ next. five_of next ≡ assumed_formula (five_of d.now) (conj_of c.now) (conj_of c.now)) }
{
    let news = Vec::from_slice(alloc, front(&c.literals, c.n))?;
    let next = with_formula(alloc, d.parts(), c, news)?;
    Ok(next)
}

/// The five with the formula false.
fn with_false(alloc: Global, s: &Signature, d: &Db, c: &Conj) -> Result<Five, AllocError>
    ensures { IfOk result (λ next. five_of next ≡ assumed_formula (five_of d.now) (conj_of c.now) (denials (filter (λ l. not (holds (signature_of s.now) (five_of d.now) l)) (conj_of c.now)))) }
{
    let unknown = open_literals(alloc, s, d, front(&c.literals, c.n))?;
    let news = denials(alloc, unknown.as_slice())?;
    let next = with_formula(alloc, d.parts(), c, news)?;
    Ok(next)
}

/// The formulas, groups and regions, which a value leaves as they are.
fn beside_values(five: &Five) -> Result<(Kw, Kx, Lcw), AllocError>
    ensures formulas { IfOk result (λ sets. formulas_of sets.0 ≡ formulas_of five.now.kw) }
    ensures groups { IfOk result (λ sets. groups_of sets.1 ≡ groups_of five.now.kx) }
    ensures regions { IfOk result (λ sets. entries_of sets.2 ≡ entries_of five.now.lcw) }
{
    let kw = five.kw.share()?;
    let kx = five.kx.share()?;
    let lcw = five.lcw.share()?;
    Ok((kw, kx, lcw))
}

/// The five with the object as the value of the term.
#[tactic(auto, unfolding(pks_terms::specs::Branching::assumed))]
fn with_value(alloc: Global, s: &Signature, d: &Db, t: &Term, e: ObjId) -> Result<Five, AllocError>
    ensures { IfOk result (λ next. five_of next ≡ assumed (signature_of s.now) (five_of d.now) (CasesOn (term_of t.now)) (Is e.0)) }
{
    let _s = s;
    let five = d.parts();
    let kf = five.kf.add(alloc, equation(t, &Term::Obj(e), true))?;
    let kv = other_values(alloc, &five.kv, t)?;
    let (kw, kx, lcw) = beside_values(five)?;
    Ok(Five {
        kf,
        kw,
        kv,
        kx,
        lcw,
    })
}

/// The five with the side assumed, which stay as they are where the choice has no such side.
#[tactic(auto, unfolding(pks_terms::specs::Branching::assumed))]
pub(crate) fn with_side(
    alloc: Global,
    s: &Signature,
    d: &Db,
    c: &Choice,
    side: Side,
) -> Result<Five, AllocError>
    ensures { IfOk result (λ next. five_of next ≡ assumed (signature_of s.now) (five_of d.now) (choice_of c.now) (side_of side)) }
{
    let next = match (c, side) {
        (Choice::Branch(c), Side::True) => with_true(alloc, d, c)?,
        (Choice::Branch(c), Side::False) => with_false(alloc, s, d, c)?,
        (Choice::Cases(t), Side::Is(e)) => with_value(alloc, s, d, t, e)?,
        _ => d.parts().share()?,
    };
    Ok(next)
}

/// The databases with the side assumed and then closed, or the least literal that is derived false (`docs/RULES.md`,
/// "Assuming"). It asks for a valid problem, for closed databases of its signature, for a formula or a term of theirs, and
/// for a side that it has. Where the databases are true of two worlds and the side is so in the first, it is so in the
/// second, and what follows is true of both. The error is want of memory.
pub fn assume(
    alloc: Global,
    p: &Problem<'_>,
    d: &Db,
    c: &Choice,
    side: Side,
) -> Result<Step, AllocError>
    requires valid { IsValidProblem p.now }
    requires moment { IsMomentOf (problem_of p.now).signature (five_of d.now) }
    requires member { IsMember (five_of d.now) (choice_of c.now) }
    requires side { IsSideOf (problem_of p.now).signature (choice_of c.now) (side_of side) }
    ensures assumes { IfOk result (λ o. Assumes (problem_of p.now).signature (five_of d.now) (choice_of c.now) (side_of side) (outcome_of o)) }
    ensures moment { IfOk result (λ o. IfNext (IsMomentOf (problem_of p.now).signature) (outcome_of o)) }
    ensures so_too { (w w' : World) → IsTrueOf (problem_of p.now).signature w w' (five_of d.now) → IsSo w (choice_of c.now) (side_of side) → IfOk result (λ o. IsSo w' (choice_of c.now) (side_of side)) }
    ensures keeps_truth { (w w' : World) → IsTrueOf (problem_of p.now).signature w w' (five_of d.now) → IsSo w (choice_of c.now) (side_of side) → IfOk result (λ o. IsNextWith (IsTrueOf (problem_of p.now).signature w w') (outcome_of o)) }
{
    let five = with_side(alloc, &p.signature, d, c, side)?;
    let step = Db::close_to_step(alloc, &p.signature, five)?;
    Ok(step)
}
