//! What a dialogue needs.
ghost use Rattle.std.specs.Prelude.{◌≤◌, IfOk};
ghost use Rattle.pks_terms.specs.Trees.{depth};
ghost use Rattle.pks_terms.specs.Views.{names_of};
ghost use Rattle.pks_plan.specs.TreeViews.{tree_of};
ghost use Rattle.pks_agent.specs.Rooms.{IsRoomOf};

use crate::desks::Desk;
use crate::questions::all_questions;
use pks_plan::Tree;
use pks_terms::problem::Problem;
use std::alloc::{AllocError, Global};

/// All memory that the dialogues of a plan need: each question as its line, and room for the lines of actions.
#[derive(Drop)]
pub struct Room {
    pub(crate) questions: Vec<Vec<u8>>,
    pub(crate) desk: Desk,
}

impl Room {
    /// Takes the memory for a dialogue of the tree. It asks that its depth is at most 16; the error is want of memory.
    pub fn new(alloc: Global, p: &Problem<'_>, t: &Tree) -> Result<Room, AllocError>
        requires { depth (tree_of t.now) ≤ 16 }
        ensures { IfOk result (λ room. IsRoomOf (names_of p.now) (tree_of t.now) room) }
    {
        let questions = all_questions(alloc, p, t)?;
        let desk = Desk::new(alloc, p)?;
        Ok(Room { questions, desk })
    }
}
