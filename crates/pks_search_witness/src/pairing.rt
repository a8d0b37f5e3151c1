//! Making twins: two worlds in which a problem may begin, and which an aim of the start tells apart.
ghost use Rattle.std.specs.Prelude.{◌≡◌, false, map, OnOk, IfOk, IfSome};
ghost use Rattle.std.specs.List.{list_all};
ghost use Rattle.pks_terms.specs.Sets.{Each, IsIn};
ghost use Rattle.pks_terms.specs.Queries.{KnowWhether};
ghost use Rattle.pks_terms.specs.Problems.{AtStart};
ghost use Rattle.pks_terms.specs.ValidProblems.{IsValidProblem};
ghost use Rattle.pks_terms.specs.Views.{conj_of, aim_of, start_of, problem_of};
ghost use Rattle.pks_world.specs.Contents.{world_of};
ghost use Rattle.pks_search_witness.specs.Apart.{agree_on, AreFirst};

use crate::making::{found_by, is_small};
use crate::twins::{Twins, are_equal};
use pks_terms::literal::{Atom, Conj, Literal};
use pks_terms::problem::{Aim, Init, InitItem, Problem};
use pks_terms::schema::{Query, Target};
use pks_terms::term::front;
use pks_world::World;
use std::alloc::{AllocError, Global};

/// How many twins are made at most for a literal of an aim.
const MOST_TWINS: usize = 4;

/// The formula of which the aim asks whether it was true at the start.
fn asked_at_start(a: &Aim) -> Option<Conj>
    ensures { IfSome result (λ c. aim_of a.now ≡ AtStart (record { asks = KnowWhether (conj_of c); denied = false })) }
{
    match a {
        Aim::AtStart(Query::Kw(c)) => Some(*c),
        _ => None,
    }
}

/// The literal, not denied.
fn positive(l: &Literal) -> Literal {
    if l.positive { *l } else { l.negated() }
}

/// Whether the target may change whether the literal is true, as far as it is looked at.
fn is_about(target: &Target, l: &Literal) -> bool {
    match &l.atom {
        Atom::Pred(a) => match target {
            Target::Set(b) | Target::Unset(b) => b.pred.0 == a.pred.0,
            Target::Clear(x) => x.pred.0 == a.pred.0,
            Target::Assign { .. } => false,
        },
        Atom::Eq { .. } => match target {
            Target::Assign { .. } => true,
            Target::Set(_) | Target::Unset(_) | Target::Clear(_) => false,
        },
    }
}

/// Whether some effect of an action may do so. Where none does, twins that the literal tells apart stay apart.
fn is_written(p: &Problem<'_>, l: &Literal) -> bool {
    for schema in p.schemas.as_slice() {
        for e in schema.effects.as_slice() {
            if is_about(&e.target, l) {
                return true;
            }
        }
    }
    false
}

/// Whether the worlds agree on the initial item.
fn agrees_on(w: &World, u: &World, start: &Init) -> bool
    ensures { result ≡ agree_on (world_of w.now) (world_of u.now) (start_of start.now) }
{
    match start {
        Init::Kw(c) => are_equal(w.holds_all(c), u.holds_all(c)),
        Init::Kv(t) => w.value(t).0 == u.value(t).0,
        Init::Kf(_) | Init::Kx(_) | Init::Lcw(_) => true,
    }
}

/// Whether they agree on each of the items.
fn agree(w: &World, u: &World, items: &[InitItem]) -> bool
    ensures { result ≡ list_all (agree_on (world_of w.now) (world_of u.now)) (map (λ i. start_of i.start) items.now) }
{
    for item in items {
        if !agrees_on(w, u, &item.start) {
            return false;
        }
    }
    true
}

/// The twins of the turn: the world, and the one in which the literal is true, where the formula tells them apart.
fn pair(
    alloc: Global,
    p: &Problem<'_>,
    c: &Conj,
    l: &Literal,
    turn: usize,
) -> Result<Option<Twins>, AllocError>
    requires valid { IsValidProblem p.now }
    requires asked { IsIn (AtStart (record { asks = KnowWhether (conj_of c.now); denied = false })) (problem_of p.now).goal }
    ensures { IfOk result (λ o. IfSome o (AreFirst (problem_of p.now))) }
{
    let Some(w) = found_by(alloc, p, turn, &None)? else {
        return Ok(None);
    };
    let Some(u) = found_by(alloc, p, turn, &Some(positive(l)))? else {
        return Ok(None);
    };
    if are_equal(w.holds_all(c), u.holds_all(c)) || !agree(&w, &u, p.init.as_slice()) {
        return Ok(None);
    }
    let x = Twins::of(alloc, w, u)?;
    Ok(Some(x))
}

/// Whether the twins are among these.
fn is_among(twins: &[Twins], x: &Twins) -> bool {
    for y in twins {
        if y.same(x) {
            return true;
        }
    }
    false
}

/// Adds the twins of the turn, where there are some and they aren't there yet.
fn add_pair(
    alloc: Global,
    p: &Problem<'_>,
    c: &Conj,
    l: &Literal,
    turn: usize,
    twins: &mut Vec<Twins>,
) -> Result<(), AllocError>
    requires valid { IsValidProblem p.now }
    requires asked { IsIn (AtStart (record { asks = KnowWhether (conj_of c.now); denied = false })) (problem_of p.now).goal }
    requires first { Each (AreFirst (problem_of p.now)) twins.old.items }
    ensures { OnOk result (Each (AreFirst (problem_of p.now)) twins.new.items) }
{
    let Some(x) = pair(alloc, p, c, l, turn)? else {
        return Ok(());
    };
    if is_among(twins.as_slice(), &x) {
        return Ok(());
    }
    twins.push(x)?;
    Ok(())
}

/// Adds twins that the formula tells apart, of which one of its literals is true in one alone.
fn add_pairs(
    alloc: Global,
    p: &Problem<'_>,
    c: &Conj,
    twins: &mut Vec<Twins>,
) -> Result<(), AllocError>
    requires valid { IsValidProblem p.now }
    requires asked { IsIn (AtStart (record { asks = KnowWhether (conj_of c.now); denied = false })) (problem_of p.now).goal }
    requires first { Each (AreFirst (problem_of p.now)) twins.old.items }
    ensures { OnOk result (Each (AreFirst (problem_of p.now)) twins.new.items) }
{
    for l in front(&c.literals, c.n) {
        if is_written(p, l) {
            for turn in 0..MOST_TWINS {
                add_pair(alloc, p, c, l, turn, twins)?;
            }
        }
    }
    Ok(())
}

/// Adds twins that the aims tell apart.
fn add_all(
    alloc: Global,
    p: &Problem<'_>,
    aims: &[Aim],
    twins: &mut Vec<Twins>,
) -> Result<(), AllocError>
    requires valid { IsValidProblem p.now }
    requires aims { Each (λ a. IsIn (aim_of a) (problem_of p.now).goal) aims.now }
    requires first { Each (AreFirst (problem_of p.now)) twins.old.items }
    ensures { OnOk result (Each (AreFirst (problem_of p.now)) twins.new.items) }
{
    let [a, rest @ ..] = aims else {
        return Ok(());
    };
    if let Some(c) = asked_at_start(a) {
        if is_small(alloc, p)? {
            add_pairs(alloc, p, &c, twins)?;
        }
    }
    add_all(alloc, p, rest, twins)?;
    Ok(())
}

/// A few twins in which the problem may begin and which its aims of the start tell apart, or none. It asks for a valid problem. The error
/// is want of memory.
pub fn twins_of(alloc: Global, p: &Problem<'_>) -> Result<Vec<Twins>, AllocError>
    requires { IsValidProblem p.now }
    ensures { IfOk result (λ xs. Each (AreFirst (problem_of p.now)) xs.items) }
{
    let mut twins = Vec::new(alloc);
    add_all(alloc, p, p.goal.as_slice(), &mut twins)?;
    Ok(twins)
}
