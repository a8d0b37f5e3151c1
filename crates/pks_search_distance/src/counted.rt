//! The bounds that were counted, each of a world: so a world that many histories lead to is counted once.
ghost use Rattle.std.specs.Prelude.{IfOk, IfSome};
ghost use Rattle.pks_terms.specs.Problems.{Problem};
ghost use Rattle.pks_world.specs.Contents.{world_of};
ghost use Rattle.pks_search_distance.specs.Levels.{IsBound};
ghost use Rattle.pks_search_distance.specs.Remembered.{IsRight, AreRight};

use lru::LruCache;
use pks_world::World;
use std::alloc::{AllocError, Global};
use std::num::NonZeroUsize;
use std::rc::Rc;

/// How many worlds the table has.
const WORLDS_KEPT: usize = 8_192;

/// A bound, or that there is none, and how far it was counted: where it is as great as that, a greater one may hold.
#[derive(Clone, Copy)]
pub(crate) struct Bound {
    pub(crate) needs: Option<u32>,
    pub(crate) most: u32,
}

impl Bound {
    /// Whether counting up to `most` finds no greater one.
    fn serves(&self, most: u32) -> bool {
        match self.needs {
            Some(k) => k < self.most || most <= self.most,
            None => true,
        }
    }
}

/// A world with its bound.
#[derive(Drop)]
pub(crate) struct Counted {
    world: Rc<World>,
    bound: Bound,
}

impl Counted {
    /// The bound of the world, where it is this one and counting up to `most` finds no greater one.
    fn tells(&self, w: &World, most: u32) -> Option<Bound>
        ensures { (p : Problem) → IsRight p self.now → IfSome result (λ b. IsBound p (world_of w.now) b.needs) }
    {
        if !self.bound.serves(most) {
            return None;
        }
        let own: &World = &self.world;
        if own.same(w) {
            return Some(self.bound);
        }
        None
    }
}

/// The worlds whose bounds were asked for last, at most 8,192, with these, found by their marks. It saves work and changes no answer.
#[derive(Drop)]
pub(crate) struct Counts {
    table: LruCache<u64, Counted>,
}

impl Counts {
    /// The empty table. The error is want of memory.
    pub(crate) fn new(alloc: Global) -> Result<Counts, AllocError>
        ensures { IfOk result (λ t. (p : Problem) → AreRight p t) }
    {
        let table = LruCache::sparse(alloc, NonZeroUsize::new(WORLDS_KEPT).unwrap())?;
        Ok(Counts { table })
    }

    /// The bound of the world with this mark, where the table has one and counting up to `most` finds no greater one. It takes no memory.
    pub(crate) fn tells(&mut self, mark: u64, w: &World, most: u32) -> Option<Bound>
        ensures told { (p : Problem) → AreRight p self.old → IfSome result (λ b. IsBound p (world_of w.now) b.needs) }
        ensures right { (p : Problem) → AreRight p self.old → AreRight p self.new }
    {
        self.table.promote(&mark);
        match self.table.peek(&mark) {
            Some(entry) => entry.tells(w, most),
            None => None,
        }
    }

    /// Notes the bound of the world with this mark. Where memory is wanting the table stays as it is.
    pub(crate) fn note(&mut self, mark: u64, w: &Rc<World>, bound: Bound)
        ensures { (p : Problem) → IsBound p (world_of w.now.value) bound.needs → AreRight p self.old → AreRight p self.new }
    {
        if let Ok(world) = w.clone() {
            self.put(mark, world, bound);
        }
    }

    // Puts the bound in place of one with the same mark, if there is memory.
    fn put(&mut self, mark: u64, world: Rc<World>, bound: Bound)
        ensures { (p : Problem) → IsBound p (world_of world.value) bound.needs → AreRight p self.old → AreRight p self.new }
    {
        let _ = self.table.put(mark, Counted { world, bound });
    }
}
