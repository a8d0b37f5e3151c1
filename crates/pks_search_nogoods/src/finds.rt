//! The table of finds: the best trees that a search met.
ghost use Rattle.std.specs.Prelude.{◌≡◌, ◌≤◌, IfOk, IfSome, option_map};
ghost use Rattle.pks_terms.specs.Problems.{Problem as SProblem};
ghost use Rattle.pks_terms.specs.Trees.{depth};
ghost use Rattle.pks_terms.specs.Valid.{IsValid};
ghost use Rattle.pks_terms.specs.Views.{problem_of};
ghost use Rattle.pks_plan.specs.TreeViews.{tree_of, chain_of};
ghost use Rattle.pks_search_nogoods.specs.Finds.{IsAnswer, IsFound};
ghost use Rattle.pks_search_nogoods.specs.Noted.{IsRightFind, AreFound, AreCosts};

use crate::failures::{LAST_MET, Question};
use lru::LruCache;
use pks_history::histories::History;
use pks_plan::{CaseChain, Tree, cost, depth};
use pks_search_symmetry::HistoryKey;
use pks_terms::problem::Problem;
use std::alloc::{AllocError, Global};
use std::num::NonZeroUsize;

/// The most nodes of a tree that is noted.
const MOST_NODES: u32 = 64;

/// A tree that was found: at the history it is the best of those no deeper than `depth` below some limit on cost.
#[derive(Drop)]
pub struct Find {
    history: History,
    tree: Tree,
    own_cost: u32,
    own_depth: u32,
    depth: u32,
}

/// A tree that says the same. The error is want of memory.
#[cycle(copies)]
fn copy_tree(alloc: Global, t: &Tree) -> Result<Tree, AllocError>
    ensures { IfOk result (λ copy. tree_of copy ≡ tree_of t.now) }
{
    match t {
        Tree::Goal => Ok(Tree::Goal),
        Tree::Impossible => Ok(Tree::Impossible),
        Tree::Act { step, next } => {
            let next = copy_tree(alloc, next)?;
            let next = Box::new(alloc, next)?;
            Ok(Tree::Act { step: *step, next })
        }
        Tree::Branch { test, yes, no } => {
            let yes = copy_tree(alloc, yes)?;
            let no = copy_tree(alloc, no)?;
            let yes = Box::new(alloc, yes)?;
            let no = Box::new(alloc, no)?;
            Ok(Tree::Branch {
                test: *test,
                yes,
                no,
            })
        }
        Tree::Cases { term, cases } => {
            let cases = copy_chain(alloc, cases)?;
            let cases = Box::new(alloc, cases)?;
            Ok(Tree::Cases { term: *term, cases })
        }
    }
}

/// Cases that say the same.
#[cycle(copies)]
fn copy_chain(alloc: Global, k: &CaseChain) -> Result<CaseChain, AllocError>
    ensures { IfOk result (λ copy. chain_of copy ≡ chain_of k.now) }
{
    match k {
        CaseChain::Empty => Ok(CaseChain::Empty),
        CaseChain::More { object, tree, rest } => {
            let tree = copy_tree(alloc, tree)?;
            let rest = copy_chain(alloc, rest)?;
            let rest = Box::new(alloc, rest)?;
            Ok(CaseChain::More {
                object: *object,
                tree,
                rest,
            })
        }
    }
}

/// How many nodes the tree has.
#[cycle(sizes)]
fn nodes(t: &Tree) -> u32 {
    match t {
        Tree::Goal | Tree::Impossible => 1,
        Tree::Act { next, .. } => nodes(next).saturating_add(1),
        Tree::Branch { yes, no, .. } => nodes(yes).saturating_add(nodes(no)).saturating_add(1),
        Tree::Cases { cases, .. } => chain_nodes(cases).saturating_add(1),
    }
}

/// How many nodes the trees of the cases have.
#[cycle(sizes)]
fn chain_nodes(k: &CaseChain) -> u32 {
    match k {
        CaseChain::Empty => 0,
        CaseChain::More { tree, rest, .. } => nodes(tree).saturating_add(chain_nodes(rest)),
    }
}

/// The mark of the history alone: images of it have others, since their objects stand in other orders.
fn own_mark(key: &HistoryKey) -> u64 {
    let mut mark = key.mark;
    for d in key.order.as_slice() {
        mark = mark.wrapping_mul(0x9E37_79B9_7F4A_7C15) ^ u64::from(d.0);
    }
    mark
}

impl Find {
    // The best tree that is asked for, or that there is none, where this find tells. A tree that costs no more than the one
    // that was found is no deeper than that costs. Where memory is wanting it says nothing.
    fn answer(&self, alloc: Global, asked: &Question<'_>) -> Option<Option<Tree>>
        ensures { (p : SProblem) → IsValid p → IsRightFind p self.now
            → IfSome result (λ o. IsAnswer p asked.now.at.history.now asked.now.n asked.now.limit (option_map tree_of o)) }
    {
        if self.depth < asked.n.min(self.own_cost.min(asked.limit)) {
            return None;
        }
        if !asked.at.history.same(&self.history) {
            return None;
        }
        if asked.limit < self.own_cost {
            return Some(None);
        }
        if asked.n < self.own_depth {
            return None;
        }
        match copy_tree(alloc, &self.tree) {
            Ok(copy) => Some(Some(copy)),
            Err(_) => None,
        }
    }
}

/// A table of finds, found by the marks of their histories. Where it is full, the one that was met longest ago falls out.
type FindTable = LruCache<u64, Find>;

/// The finds that were met last, at most 4,096 of them, each of a tree of at most 64 nodes. Each is right of its history alone.
#[derive(Drop)]
pub struct Finds {
    table: FindTable,
}

impl Finds {
    /// The empty table. The error is want of memory.
    pub fn new(alloc: Global) -> Result<Finds, AllocError>
        ensures { (p : SProblem) → IfOk result (AreFound p) }
    {
        let table = LruCache::sparse(alloc, NonZeroUsize::new(LAST_MET).unwrap())?;
        Ok(Finds { table })
    }

    /// The best tree at the history no deeper than `n` that costs at most `limit`, or that there is none, where a find says
    /// so. Where it says nothing, or memory is wanting, nothing is told.
    pub fn tells(&mut self, alloc: Global, asked: &Question<'_>) -> Option<Option<Tree>>
        ensures told { (p : SProblem) → IsValid p → AreFound p self.old
            → IfSome result (λ o. IsAnswer p asked.now.at.history.now asked.now.n asked.now.limit (option_map tree_of o)) }
        ensures found { (p : SProblem) → AreFound p self.old → AreFound p self.new }
    {
        let mark = own_mark(asked.at.key);
        self.table.promote(&mark);
        match self.table.peek(&mark) {
            Some(find) => find.answer(alloc, asked),
            None => None,
        }
    }

    /// Notes the tree that was found to be the best at the history within the depth and the limit of what was asked. A tree
    /// of more than 64 nodes isn't noted, nor where memory is wanting. It asks for what `cost` and `depth` ask for.
    pub fn note(&mut self, alloc: Global, p: &Problem<'_>, asked: &Question<'_>, t: &Tree)
        requires depth { depth (tree_of t.now) ≤ 16 }
        requires costs { AreCosts (problem_of p.now) }
        ensures { IsFound (problem_of p.now) asked.now.at.history.now asked.now.n asked.now.limit (tree_of t.now)
            → AreFound (problem_of p.now) self.old → AreFound (problem_of p.now) self.new }
    {
        if nodes(t) > MOST_NODES {
            return;
        }
        if let (Ok(history), Ok(tree)) = (asked.at.history.share(), copy_tree(alloc, t)) {
            let find = Find {
                history,
                tree,
                own_cost: cost(p, t),
                own_depth: depth(t),
                depth: asked.n,
            };
            let _ = self.table.push(own_mark(asked.at.key), find);
        }
    }
}
