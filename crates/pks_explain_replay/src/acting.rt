//! An action that is done: the next moment, progressed from the last. `docs/RULES.md`, "Progression", has the rules.

use crate::adding::add_all;
use crate::keeping::{keep_groups, keep_literals};
use crate::regions::keep_regions;
use crate::replaying::Replay;
use pks_explain_effects::{ActionStep, step_of};
use pks_explain_lines::Lines;
use pks_proof_lines::Turn;
use pks_query::databases::Db;
use pks_terms::schema::Instance;
use std::alloc::{AllocError, Global};

/// What the action keeps stays.
fn keep_all(alloc: Global, lines: &mut Lines<'_>, step: &ActionStep) -> Result<(), AllocError> {
    keep_literals(alloc, lines, step)?;
    keep_groups(alloc, lines, step)?;
    keep_regions(alloc, lines, step)
}

impl Replay<'_, '_> {
    /// The action is done: a moment comes behind the last, with a line for each literal, group and region that progression
    /// gives it. It asks for the databases before the action, which tell what queries are answered. The error is want of
    /// memory, or a line that isn't found.
    pub fn act(&mut self, alloc: Global, d: &Db, i: &Instance) -> Result<(), AllocError> {
        let before = self.last_moment()?;
        self.lines.begin_moment(alloc)?;
        self.path.push(Turn::Went(*i))?;
        let step = step_of(alloc, self.problem, &self.lines, before, i)?;
        self.progress(alloc, d, i, &step)
    }

    /// The moment after the action comes to be.
    fn progress(
        &mut self,
        alloc: Global,
        d: &Db,
        i: &Instance,
        step: &ActionStep,
    ) -> Result<(), AllocError> {
        keep_all(alloc, &mut self.lines, step)?;
        add_all(alloc, self.problem, &mut self.lines, d, i, step)?;
        self.lines.close(alloc, step.after)?;
        self.lines.tidy(alloc, step.after)
    }
}
