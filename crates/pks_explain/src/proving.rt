//! Proofs of what a tree owes: the tree is walked, and what is known along it is made anew with its reasons.
ghost use Rattle.std.specs.Prelude.{◌≡◌, ◌≤◌, []};
ghost use Rattle.pks_terms.specs.Answers.{unjustified};
ghost use Rattle.pks_terms.specs.Settling.{At};
ghost use Rattle.pks_terms.specs.Trees.{Do, IsPlan, depth};
ghost use Rattle.pks_terms.specs.ValidProblems.{IsValidProblem};
ghost use Rattle.pks_terms.specs.Views.{problem_of, instance_of, term_of};
ghost use Rattle.pks_plan.specs.TreeViews.{tree_of, chain_of};
ghost use Rattle.pks_terms.specs.ChoiceViews.{choice_of, side_of};
ghost use Rattle.pks_history_replay.specs.Walking.{state_of, IsReady, AreReady, IsSideReady};

use crate::owing::{literals_aimed, needed_before};
use pks_explain_replay::{Replay, SavedReplay};
use pks_history::histories::History;
use pks_history_replay::{State, after, history, start, taking};
use pks_plan::{CaseChain, Tree};
use pks_proof_lines::Proof;
use pks_terms::choices::{Choice, Side};
use pks_terms::literal::Literal;
use pks_terms::problem::Problem;
use pks_terms::schema::Instance;
use pks_terms::term::Term;
use std::alloc::{AllocError, Global};

/// A walk along a tree: what is known on the path to where it stands, with its reasons, and the proofs found so far.
#[derive(Drop)]
struct Prover<'p, 's> {
    alloc: Global,
    replay: Replay<'p, 's>,
    proofs: Vec<Proof>,
}

impl Prover<'_, '_> {
    /// Adds a proof of each literal at the end of the path.
    fn prove_each(&mut self, literals: &[Literal]) -> Result<(), AllocError> {
        for l in literals {
            let proof = self.replay.proof_of(self.alloc, l)?;
            self.proofs.push(proof)?;
        }
        Ok(())
    }

    /// Adds a proof of each literal that a goal leaf owes.
    fn prove_goal(&mut self, p: &Problem<'_>) -> Result<(), AllocError> {
        let literals = literals_aimed(self.alloc, p.goal.as_slice())?;
        self.prove_each(literals.as_slice())
    }

    /// Adds a proof of each literal that an action owes for its preconditions.
    fn prove_before(&mut self, p: &Problem<'_>, i: &Instance) -> Result<(), AllocError> {
        let literals = needed_before(self.alloc, p, i)?;
        self.prove_each(literals.as_slice())
    }

    /// Adds a proof of each literal that an action owes, and what follows it.
    #[cycle(proving)]
    fn prove_act(
        &mut self,
        p: &Problem<'_>,
        h: &History,
        i: &Instance,
        next: &Tree,
    ) -> Result<(), AllocError>
        requires { IsReady p.now (At h.now) (Do (instance_of i.now) (tree_of next.now)) }
    {
        self.prove_before(p, i)?;
        let x = after(self.alloc, p, h, i)?;
        match &x {
            State::Stopped => {}
            State::At(_) => {
                self.replay.act(self.alloc, h.last(), i)?;
                self.prove(p, &x, next)?;
            }
        }
        Ok(())
    }

    /// Adds a proof of each literal that is owed where the side is taken. Nothing is where it leads to a clash.
    #[cycle(proving)]
    fn prove_side(
        &mut self,
        p: &Problem<'_>,
        h: &History,
        before: &SavedReplay,
        c: &Choice,
        side: Side,
        next: &Tree,
    ) -> Result<(), AllocError>
        requires { IsSideReady p.now h.now (choice_of c.now) (side_of side) (tree_of next.now) }
    {
        let x = taking(self.alloc, p, h, c, side)?;
        match &x {
            State::Stopped => {}
            State::At(_) => {
                self.replay.go_back(self.alloc, before)?;
                self.replay.take(self.alloc, h.last(), c, side)?;
                self.prove(p, &x, next)?;
            }
        }
        Ok(())
    }

    /// Adds a proof of each literal that is owed in each case of the term.
    #[cycle(proving)]
    fn prove_cases(
        &mut self,
        p: &Problem<'_>,
        h: &History,
        before: &SavedReplay,
        term: &Term,
        k: &CaseChain,
    ) -> Result<(), AllocError>
        requires { AreReady p.now h.now (term_of term.now) (chain_of k.now) }
    {
        match k {
            CaseChain::Empty => {}
            CaseChain::More { object, tree, rest } => {
                let c = Choice::Cases(*term);
                self.prove_side(p, h, before, &c, Side::Is(*object), tree)?;
                self.prove_cases(p, h, before, term, rest)?;
            }
        }
        Ok(())
    }

    /// Adds a proof of each literal that a tree owes which is derived at this state, in the order in which it is printed.
    #[cycle(proving)]
    fn prove(&mut self, p: &Problem<'_>, x: &State, t: &Tree) -> Result<(), AllocError>
        requires { IsReady p.now (state_of x.now) (tree_of t.now) }
    {
        match t {
            Tree::Goal => self.prove_goal(p)?,
            Tree::Impossible => {}
            Tree::Act { step, next } => self.prove_act(p, history(x), step, next)?,
            Tree::Branch { test, yes, no } => {
                let before = self.replay.keep(self.alloc)?;
                let c = Choice::Branch(*test);
                self.prove_side(p, history(x), &before, &c, Side::True, yes)?;
                self.prove_side(p, history(x), &before, &c, Side::False, no)?;
            }
            Tree::Cases { term, cases } => {
                let before = self.replay.keep(self.alloc)?;
                self.prove_cases(p, history(x), &before, term, cases)?;
            }
        }
        Ok(())
    }
}

/// A proof of each literal that the tree owes, in order, where this is the state before its root.
fn prove_from(alloc: Global, p: &Problem<'_>, x: &State, t: &Tree) -> Result<Vec<Proof>, AllocError>
    requires { IsReady p.now (state_of x.now) (tree_of t.now) }
{
    let replay = Replay::start(alloc, p)?;
    let proofs = Vec::new(alloc);
    let mut prover = Prover {
        alloc,
        replay,
        proofs,
    };
    prover.prove(p, x, t)?;
    Ok(prover.proofs)
}

/// A proof of each literal that the tree owes, in order. Nothing is owed where the initial databases clash.
pub(crate) fn prove_owed(alloc: Global, p: &Problem<'_>, t: &Tree) -> Result<Vec<Proof>, AllocError>
    requires valid { IsValidProblem p.now }
    requires justified { unjustified (problem_of p.now) ≡ [] }
    requires derived { IsPlan (problem_of p.now) (tree_of t.now) }
    requires depth { depth (tree_of t.now) ≤ 16 }
{
    let x = start(alloc, p)?;
    match &x {
        State::Stopped => Ok(Vec::new(alloc)),
        State::At(_) => prove_from(alloc, p, &x, t),
    }
}
