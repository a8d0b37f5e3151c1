//! What an explanation owes: the literals that a tree needs known, each with the path at whose end it is.
ghost use Rattle.std.specs.Prelude.{◌≡◌, ◌++◌, ◌∷◌, [], map, IfOk, OnOk};
ghost use Rattle.std.specs.List.{filter_map};
ghost use Rattle.std.specs.Option.{option_map};
ghost use Rattle.pks_terms.specs.Problems.{schema_of};
ghost use Rattle.pks_terms.specs.Views.{literal_of, literals_in, query_of, aim_of, instance_of, term_of, problem_of};
ghost use Rattle.pks_terms.specs.Explained.{literal_needed, needed_before, literal_aimed, at_end, owed, owed_in};
ghost use Rattle.pks_plan.specs.TreeViews.{tree_of, chain_of};
ghost use Rattle.pks_proof_lines.specs.ProofViews.{turn_of, path_of};
ghost use Rattle.pks_explain.specs.EntryViews.{owed_of};

use crate::entries::Owed;
use pks_plan::{CaseChain, Tree};
use pks_proof_lines::{Path, Turn};
use pks_terms::choices::{Choice, Side};
use pks_terms::ids::ActId;
use pks_terms::literal::Literal;
use pks_terms::problem::{Aim, Problem};
use pks_terms::schema::{Instance, Query};
use pks_terms::sequence::Sequence;
use pks_terms::term::Term;
use std::alloc::{AllocError, Global};

/// The literal that must be known for the query to be answered.
fn literal_needed(q: &Query) -> Option<Literal>
    ensures { option_map literal_of result ≡ literal_needed (query_of q.now) }
{
    match q {
        Query::K(l) => Some(*l),
        Query::Kw(_) | Query::Kv(_) | Query::NotK(_) | Query::NotKw(_) | Query::NotKv(_) => None,
    }
}

/// The literal of a goal that is a query to be answered at the end.
fn literal_aimed(aim: &Aim) -> Option<Literal>
    ensures { option_map literal_of result ≡ literal_aimed (aim_of aim.now) }
{
    match aim {
        Aim::Now(q) => literal_needed(q),
        Aim::AtStart(_) | Aim::Always(_) | Aim::Once(_) => None,
    }
}

/// The literals of these goals, in order.
pub(crate) fn literals_aimed(alloc: Global, aims: &[Aim]) -> Result<Vec<Literal>, AllocError>
    ensures { IfOk result (λ ls. literals_in ls.items ≡ filter_map literal_aimed (map aim_of aims.now)) }
{
    let mut literals = Vec::new(alloc);
    for aim in aims {
        if let Some(l) = literal_aimed(aim) {
            literals.push(l)?;
        }
    }
    Ok(literals)
}

/// The preconditions of an action, as written.
fn written_before<'a>(p: &'a Problem<'_>, act: ActId) -> &'a [Query]
    ensures { map query_of result.now ≡ (schema_of (problem_of p.now) act.0).pre }
{
    match p.schemas.as_slice().get(usize::from(act.0)) {
        Some(schema) => schema.pre.as_slice(),
        None => &[],
    }
}

/// The literals that must be known before the action, in the order of its preconditions.
pub(crate) fn needed_before(
    alloc: Global,
    p: &Problem<'_>,
    i: &Instance,
) -> Result<Vec<Literal>, AllocError>
    ensures { IfOk result (λ ls. literals_in ls.items ≡ needed_before (problem_of p.now) (instance_of i.now)) }
{
    let mut literals = Vec::new(alloc);
    for q in written_before(p, i.act) {
        if let Some(l) = literal_needed(&q.at(i)) {
            literals.push(l)?;
        }
    }
    Ok(literals)
}

/// The turns again, and this one behind them.
fn with_turn(alloc: Global, path: &[Turn], turn: Turn) -> Result<Vec<Turn>, AllocError>
    ensures { IfOk result (λ turns. path_of turns.items ≡ path_of path.now ++ turn_of turn ∷ []) }
{
    let mut turns = path.to_vec(alloc)?;
    turns.push(turn)?;
    Ok(turns)
}

/// The literal, at the end of the path.
fn owed_one(alloc: Global, path: &[Turn], literal: Literal) -> Result<Owed, AllocError>
    ensures { IfOk result (λ one. owed_of one ≡ (path_of path.now, literal_of literal)) }
{
    let path: Path = Sequence::of(path.to_vec(alloc)?);
    Ok(Owed { path, literal })
}

/// Adds the literals, each at the end of the path.
fn add_each(
    alloc: Global,
    path: &[Turn],
    literals: &[Literal],
    to: &mut Vec<Owed>,
) -> Result<(), AllocError>
    ensures { OnOk result (map owed_of to.new.items ≡ map owed_of to.old.items ++ at_end (path_of path.now) (literals_in literals.now)) }
{
    for l in literals {
        to.push(owed_one(alloc, path, *l)?)?;
    }
    Ok(())
}

/// Adds what a goal leaf owes.
fn add_goal(
    alloc: Global,
    p: &Problem<'_>,
    path: &[Turn],
    to: &mut Vec<Owed>,
) -> Result<(), AllocError>
    ensures { OnOk result (map owed_of to.new.items ≡ map owed_of to.old.items ++ at_end (path_of path.now) (filter_map literal_aimed (problem_of p.now).goal)) }
{
    let literals = literals_aimed(alloc, p.goal.as_slice())?;
    add_each(alloc, path, literals.as_slice(), to)?;
    Ok(())
}

/// Adds what an action owes for its preconditions.
fn add_before(
    alloc: Global,
    p: &Problem<'_>,
    path: &[Turn],
    i: &Instance,
    to: &mut Vec<Owed>,
) -> Result<(), AllocError>
    ensures { OnOk result (map owed_of to.new.items ≡ map owed_of to.old.items ++ at_end (path_of path.now) (needed_before (problem_of p.now) (instance_of i.now))) }
{
    let literals = needed_before(alloc, p, i)?;
    add_each(alloc, path, literals.as_slice(), to)?;
    Ok(())
}

/// Adds what a tree owes to which the path leads, and the turn behind it.
#[cycle(walking)]
fn add_behind(
    alloc: Global,
    p: &Problem<'_>,
    path: &[Turn],
    turn: Turn,
    t: &Tree,
    to: &mut Vec<Owed>,
) -> Result<(), AllocError>
    ensures { OnOk result (map owed_of to.new.items ≡ map owed_of to.old.items ++ owed (problem_of p.now) (path_of path.now ++ turn_of turn ∷ []) (tree_of t.now)) }
{
    let longer = with_turn(alloc, path, turn)?;
    add_owed(alloc, p, longer.as_slice(), t, to)?;
    Ok(())
}

/// Adds what a tree owes to which the path leads.
#[cycle(walking)]
#[tactic(auto, using(crate::proofs::Texts::appended))]
fn add_owed(
    alloc: Global,
    p: &Problem<'_>,
    path: &[Turn],
    t: &Tree,
    to: &mut Vec<Owed>,
) -> Result<(), AllocError>
    ensures { OnOk result (map owed_of to.new.items ≡ map owed_of to.old.items ++ owed (problem_of p.now) (path_of path.now) (tree_of t.now)) }
{
    match t {
        Tree::Goal => add_goal(alloc, p, path, to)?,
        Tree::Impossible => {}
        Tree::Act { step, next } => {
            add_before(alloc, p, path, step, to)?;
            add_behind(alloc, p, path, Turn::Went(*step), next, to)?;
        }
        Tree::Branch { test, yes, no } => {
            let c = Choice::Branch(*test);
            add_behind(alloc, p, path, Turn::Took(c, Side::True), yes, to)?;
            add_behind(alloc, p, path, Turn::Took(c, Side::False), no, to)?;
        }
        Tree::Cases { term, cases } => add_owed_in(alloc, p, path, term, cases, to)?,
    }
    Ok(())
}

/// Adds what each case of the term owes.
#[cycle(walking)]
#[tactic(auto, using(crate::proofs::Texts::appended))]
fn add_owed_in(
    alloc: Global,
    p: &Problem<'_>,
    path: &[Turn],
    x: &Term,
    k: &CaseChain,
    to: &mut Vec<Owed>,
) -> Result<(), AllocError>
    ensures { OnOk result (map owed_of to.new.items ≡ map owed_of to.old.items ++ owed_in (problem_of p.now) (path_of path.now) (term_of x.now) (chain_of k.now)) }
{
    match k {
        CaseChain::Empty => {}
        CaseChain::More { object, tree, rest } => {
            let turn = Turn::Took(Choice::Cases(*x), Side::Is(*object));
            add_behind(alloc, p, path, turn, tree, to)?;
            add_owed_in(alloc, p, path, x, rest, to)?;
        }
    }
    Ok(())
}

/// What an explanation of the tree owes, in the order in which the tree is printed: before each action the literals of its
/// preconditions that must be known, and at each goal leaf those of the goals, each with the path at whose end it must be
/// known. The error is want of memory.
pub fn owed_literals(alloc: Global, p: &Problem<'_>, t: &Tree) -> Result<Vec<Owed>, AllocError>
    ensures { IfOk result (λ all. map owed_of all.items ≡ owed (problem_of p.now) [] (tree_of t.now)) }
{
    let mut all = Vec::new(alloc);
    add_owed(alloc, p, &[], t, &mut all)?;
    Ok(all)
}
