//! The tables of failed searches.
ghost use Rattle.std.specs.Prelude.{◌≤◌, length, IsTrue, IfOk, IfSome};
ghost use Rattle.pks_terms.specs.Moments.{AreMomentsOf};
ghost use Rattle.pks_terms.specs.Problems.{Problem as SProblem};
ghost use Rattle.pks_terms.specs.Valid.{IsValid};
ghost use Rattle.pks_terms.specs.Views.{problem_of};
ghost use Rattle.pks_laws_forget.specs.Transparent.{AreSetsAlong};
ghost use Rattle.pks_search_symmetry.specs.Keeping.{IsOfProblem};
ghost use Rattle.pks_search_nogoods.specs.Failing.{HasNoTree, IsRight, AreRightIn, AreRight};
ghost use Rattle.pks_search_nogoods.specs.Standing.{StandAlike, IsPut, KeepsOthers, LosesNone, AreEmpty, AreNoted, KeepsNoted};

use lru::LruCache;
use pks_history::histories::History;
use pks_search_symmetry::{Alike, HistoryKey, Keyed};
use pks_terms::problem::Problem;
use std::alloc::{AllocError, Global};
use std::num::NonZeroUsize;

/// How many failures the first table has, and how many finds are kept.
pub(crate) const LAST_MET: usize = 4_096;

/// How many failures the second table has.
pub(crate) const FALLEN: usize = 65_536;

/// A search that failed: no tree at the history, no deeper than `depth`, costs at most `limit`.
#[derive(Drop)]
pub struct Failure {
    history: History,
    key: HistoryKey,
    depth: u32,
    limit: u32,
}

/// What is asked of a table: whether there is no tree at the history no deeper than `n` that costs at most `limit`.
#[derive(Clone, Copy)]
pub struct Question<'h> {
    /// The history with its key.
    pub at: Keyed<'h>,
    /// The depth.
    pub n: u32,
    /// The limit on the cost.
    pub limit: u32,
}

/// That each set of each moment is in order. It does nothing.
fn in_order(h: &History)
    ensures { AreSetsAlong h.now }
{
    h.in_order();
}

impl Failure {
    // Whether this failure says that there is no such tree: its history is the image of the other by a renaming that the
    // problem doesn't see. A tree costs at least its depth.
    fn serves(&self, alloc: Global, p: &Problem<'_>, alike: &Alike, asked: &Question<'_>) -> bool
        ensures { IsTrue result → IsValid (problem_of p.now) → IsOfProblem (problem_of p.now) alike.now → AreMomentsOf (problem_of p.now) asked.now.at.history.now
            → IsRight (problem_of p.now) self.now → HasNoTree (problem_of p.now) asked.now.at.history.now asked.now.n asked.now.limit }
    {
        if self.limit < asked.limit || self.depth < asked.n.min(asked.limit) {
            return false;
        }
        in_order(asked.at.history);
        in_order(&self.history);
        let own = Keyed {
            history: &self.history,
            key: &self.key,
        };
        alike.are_alike(alloc, p, &asked.at, &own)
    }
}

/// A table of failures, found by the marks of their histories. Where it is full, the one that was met longest ago falls out.
type FailureTable = LruCache<u64, Failure>;

/// The failures that were met last: 4,096 of them, and behind these the 65,536 that fell out of there last. Each is right of
/// its history alone, in a problem in which all that was noted was so, and serves each history that is its image.
#[derive(Drop)]
pub struct Failures {
    last: FailureTable,
    fallen: FailureTable,
    alike: Alike,
}

// Whether the failure that the table has under the mark says so. It is then the one that was met last.
fn tells_in(
    alloc: Global,
    p: &Problem<'_>,
    alike: &Alike,
    table: &mut FailureTable,
    asked: &Question<'_>,
) -> bool
    ensures told { IsTrue result → IsValid (problem_of p.now) → IsOfProblem (problem_of p.now) alike.now → AreMomentsOf (problem_of p.now) asked.now.at.history.now
        → AreRightIn (problem_of p.now) table.old → HasNoTree (problem_of p.now) asked.now.at.history.now asked.now.n asked.now.limit }
    ensures right { (p : SProblem) → AreRightIn p table.old → AreRightIn p table.new }
    ensures kept { StandAlike table.old table.new }
{
    table.promote(&asked.at.key.mark);
    match table.peek(&asked.at.key.mark) {
        Some(failure) => failure.serves(alloc, p, alike, asked),
        None => false,
    }
}

// A table has at most as many failures as there may be. It does nothing.
fn within(table: &FailureTable)
    ensures { length table.now.entries ≤ table.now.cap }
{
    table.len();
}

// Puts the failure in place of one with the same mark, if there is memory, and gives back what it put out.
fn put_in(table: &mut FailureTable, mark: u64, failure: Failure) -> Option<(u64, Failure)>
    ensures right { (p : SProblem) → IsRight p failure → AreRightIn p table.old → AreRightIn p table.new }
    ensures fallen { (p : SProblem) → AreRightIn p table.old → IfSome result (λ e. IsRight p e.1) }
    ensures puts { IsPut mark failure table.old table.new result }
    ensures kept { KeepsOthers mark table.old table.new }
    ensures lost { LosesNone table.old table.new result }
{
    within(table);
    match table.push(mark, failure) {
        Ok(fallen) => fallen,
        Err(_) => None,
    }
}

impl Failures {
    /// Whether each entry serves its own history alone, since no two objects of the problem are alike. It takes no memory.
    pub fn serve_no_images(&self) -> bool {
        self.alike.are_all_alone()
    }

    /// The empty tables for a problem. The error is want of memory.
    pub fn new(alloc: Global, p: &Problem<'_>) -> Result<Failures, AllocError>
        ensures right { IfOk result (AreRight (problem_of p.now)) }
        ensures empty { IfOk result AreEmpty }
    {
        let last = LruCache::new(alloc, NonZeroUsize::new(LAST_MET).unwrap())?;
        let fallen = LruCache::sparse(alloc, NonZeroUsize::new(FALLEN).unwrap())?;
        let alike = Alike::of(alloc, p)?;
        Ok(Failures {
            last,
            fallen,
            alike,
        })
    }

    /// The key under which the history's images are found. The error is want of memory.
    pub fn key_of(&self, alloc: Global, h: &History) -> Result<HistoryKey, AllocError> {
        self.alike.key_of(alloc, h)
    }

    /// Whether a failure in the tables says that no tree at the history, no deeper than `n`, costs at most `limit`, or none at
    /// one that is its image. Where it says nothing there may be one. Where memory is wanting it says nothing.
    pub fn tells(&mut self, alloc: Global, p: &Problem<'_>, asked: &Question<'_>) -> bool
        ensures told { IsTrue result → IsValid (problem_of p.now) → AreMomentsOf (problem_of p.now) asked.now.at.history.now → AreRight (problem_of p.now) self.old
            → HasNoTree (problem_of p.now) asked.now.at.history.now asked.now.n asked.now.limit }
        ensures right { (p : SProblem) → AreRight p self.old → AreRight p self.new }
        ensures last { StandAlike self.old.last self.new.last }
        ensures fallen { StandAlike self.old.fallen self.new.fallen }
    {
        if tells_in(alloc, p, &self.alike, &mut self.last, asked) {
            return true;
        }
        tells_in(alloc, p, &self.alike, &mut self.fallen, asked)
    }

    /// Notes under its key that no tree at the history, no deeper than `depth`, costs at most `limit`. Where memory is wanting
    /// the tables lose a failure or stay as they are. For a depth of 1 or less it notes nothing where the first table is full,
    /// since that is cheap to find again, and else would put out what is dear.
    pub fn note(&mut self, h: &History, key: HistoryKey, depth: u32, limit: u32)
        ensures right { (p : SProblem) → AreMomentsOf p h.now → HasNoTree p h.now depth limit → AreRight p self.old → AreRight p self.new }
        ensures noted { AreNoted key.mark (record { history = h.now; key = key; depth = depth; limit = limit }) self.old self.new }
        ensures kept { KeepsNoted key.mark self.old self.new }
    {
        if depth <= 1 && self.last.len() >= LAST_MET {
            return;
        }
        if let Ok(history) = h.share() {
            self.put(history, key, depth, limit);
        }
    }

    // Puts the failure in place of one with the same mark, if there is memory. What falls out goes to the second table.
    fn put(&mut self, history: History, key: HistoryKey, depth: u32, limit: u32)
        ensures right { (p : SProblem) → AreMomentsOf p history → HasNoTree p history depth limit → AreRight p self.old → AreRight p self.new }
        ensures noted { AreNoted key.mark (record { history = history; key = key; depth = depth; limit = limit }) self.old self.new }
        ensures kept { KeepsNoted key.mark self.old self.new }
    {
        let mark = key.mark;
        let failure = Failure {
            history,
            key,
            depth,
            limit,
        };
        match put_in(&mut self.last, mark, failure) {
            Some((old_mark, old)) => {
                let _ = put_in(&mut self.fallen, old_mark, old);
            }
            None => {}
        }
    }
}
