//! A path, with the lines of what is known along it.

use pks_explain_lines::{Lines, SavedLines, missing_as_memory};
use pks_proof_lines::Turn;
use pks_query::initial::initial;
use pks_terms::problem::Problem;
use pks_terms::schema::Instance;
use std::alloc::{AllocError, Global};

/// A path and its lines: for each of its moments, of each literal, group and region that the settled databases have there, a
/// line and the lines on which it rests. `docs/REASONS.md` has the reasons of lines.
#[derive(Drop)]
pub struct Replay<'p, 's> {
    pub(crate) problem: &'p Problem<'s>,
    pub(crate) lines: Lines<'p>,
    pub(crate) path: Vec<Turn>,
}

/// What a path and its lines were at a time.
#[derive(Drop)]
pub struct SavedReplay {
    lines: SavedLines,
    turns: usize,
}

impl<'p, 's> Replay<'p, 's> {
    /// The empty path, with the lines of what is known at the start. The error is want of memory, or a line that isn't found.
    pub fn start(alloc: Global, p: &'p Problem<'s>) -> Result<Replay<'p, 's>, AllocError> {
        let first = initial(alloc, p)?;
        let lines = Lines::start(alloc, p, &first.lcw)?;
        let path = Vec::new(alloc);
        Ok(Replay {
            problem: p,
            lines,
            path,
        })
    }

    /// What the path and its lines are now, for `go_back`. The error is want of memory.
    pub fn keep(&self, alloc: Global) -> Result<SavedReplay, AllocError> {
        let lines = self.lines.keep(alloc)?;
        let turns = self.path.len();
        Ok(SavedReplay { lines, turns })
    }

    /// The path and its lines as they were when this was kept, for another side from there. The error is want of memory.
    pub fn go_back(&mut self, alloc: Global, kept: &SavedReplay) -> Result<(), AllocError> {
        self.path.truncate(kept.turns);
        self.lines.go_back(alloc, &kept.lines)?;
        Ok(())
    }

    /// The path.
    pub fn path(&self) -> &[Turn] {
        self.path.as_slice()
    }

    /// The last moment.
    pub(crate) fn last_moment(&self) -> Result<usize, AllocError> {
        match self.lines.moments().checked_sub(1) {
            Some(m) => Ok(m),
            None => Err(missing_as_memory()),
        }
    }

    /// The actions of the path in order.
    pub(crate) fn deeds(&self, alloc: Global) -> Result<Vec<Instance>, AllocError> {
        let mut deeds = Vec::new(alloc);
        for turn in self.path.as_slice() {
            if let Turn::Went(i) = turn {
                deeds.push(*i)?;
            }
        }
        Ok(deeds)
    }
}
