//! Keeping what a table of lines is, and going back to it.

use crate::lines::Lines;
use pks_explain_moment::{MomentLines, push};
use std::alloc::{AllocError, Global};

/// What a table of lines was at a time: how many lines it had, and its moments.
#[derive(Drop)]
pub struct SavedLines {
    lines: usize,
    moments: Vec<MomentLines>,
}

/// The moments again, whose memory is shared.
fn shared_moments(alloc: Global, moments: &[MomentLines]) -> Result<Vec<MomentLines>, AllocError> {
    let mut all = Vec::new(alloc);
    for moment in moments {
        let own = moment.share()?;
        push(&mut all, own)?;
    }
    Ok(all)
}

impl Lines<'_> {
    /// What the table is now. Its memory is shared but for the lines, of which the number alone is kept. The error is want of
    /// memory.
    pub fn keep(&self, alloc: Global) -> Result<SavedLines, AllocError> {
        let moments = shared_moments(alloc, self.moments.as_slice())?;
        Ok(SavedLines {
            lines: self.table.lines.len(),
            moments,
        })
    }

    /// The table as it was when this was kept: later lines are dropped, and the moments are what they were. The error is want
    /// of memory.
    pub fn go_back(&mut self, alloc: Global, kept: &SavedLines) -> Result<(), AllocError> {
        let moments = shared_moments(alloc, kept.moments.as_slice())?;
        self.moments = moments;
        self.table.lines.truncate(kept.lines);
        Ok(())
    }
}
