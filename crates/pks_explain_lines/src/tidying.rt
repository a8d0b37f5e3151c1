//! Groups and regions in normal form. `docs/RULES.md` has the rule.

use crate::table::LineTable;
use pks_explain_moment::{GroupStep, MomentLines, RegionStep, missing_as_memory};
use pks_lcw::Entry;
use pks_proof_lines::Fact;
use pks_terms::group::Group;
use std::alloc::{AllocError, Global};

/// A group and its line.
#[derive(Drop)]
struct GroupLine {
    group: Group,
    line: u32,
}

/// A region and its line.
#[derive(Drop)]
struct RegionLine {
    region: Entry,
    line: u32,
}

/// The group comes to stand, unless it does.
fn put_group(alloc: Global, at: &mut MomentLines, last: GroupLine) -> Result<(), AllocError> {
    if at.has_group(&last.group) {
        return Ok(());
    }
    at.add_group(alloc, last.group, last.line)
}

/// The region comes to stand, unless it does.
fn put_region(alloc: Global, at: &mut MomentLines, last: RegionLine) -> Result<(), AllocError> {
    if at.has_region(&last.region) {
        return Ok(());
    }
    at.add_region(alloc, last.region, last.line)
}

impl LineTable<'_> {
    /// The group after the step, with a line for that.
    fn line_group(
        &mut self,
        alloc: Global,
        at: &MomentLines,
        step: GroupStep,
        line: u32,
    ) -> Result<GroupLine, AllocError> {
        let fact = Fact::Kx(step.group.copy()?);
        let line = self.add_swap(alloc, at, fact, line, step.equation)?;
        Ok(GroupLine {
            group: step.group,
            line,
        })
    }

    /// The region after the step, with a line for that.
    fn line_region(
        &mut self,
        alloc: Global,
        at: &MomentLines,
        step: RegionStep,
        line: u32,
    ) -> Result<RegionLine, AllocError> {
        let fact = Fact::Lcw(step.region.share()?);
        let line = self.add_swap(alloc, at, fact, line, step.equation)?;
        Ok(RegionLine {
            region: step.region,
            line,
        })
    }

    /// The normal form of the group, by a line for each step.
    fn last_group(
        &mut self,
        alloc: Global,
        at: &MomentLines,
        first: GroupLine,
    ) -> Result<GroupLine, AllocError> {
        let mut now = first;
        for _ in 0..u64::MAX {
            match at.group_step(alloc, &now.group)? {
                Some(step) => now = self.line_group(alloc, at, step, now.line)?,
                None => return Ok(now),
            }
        }
        Err(missing_as_memory())
    }

    /// The normal form of the region, by a line for each step.
    fn last_region(
        &mut self,
        alloc: Global,
        at: &MomentLines,
        first: RegionLine,
    ) -> Result<RegionLine, AllocError> {
        let mut now = first;
        for _ in 0..u64::MAX {
            match at.region_step(alloc, &now.region)? {
                Some(step) => now = self.line_region(alloc, at, step, now.line)?,
                None => return Ok(now),
            }
        }
        Err(missing_as_memory())
    }

    /// The group in normal form comes to stand in place of this one, of which this is the first step.
    fn tidy_group(
        &mut self,
        alloc: Global,
        at: &mut MomentLines,
        group: &Group,
        line: u32,
        step: GroupStep,
    ) -> Result<(), AllocError> {
        at.drop_group(alloc, group)?;
        let first = self.line_group(alloc, at, step, line)?;
        let last = self.last_group(alloc, at, first)?;
        put_group(alloc, at, last)
    }

    /// The region in normal form comes to stand in place of this one, of which this is the first step.
    fn tidy_region(
        &mut self,
        alloc: Global,
        at: &mut MomentLines,
        region: &Entry,
        line: u32,
        step: RegionStep,
    ) -> Result<(), AllocError> {
        at.drop_region(alloc, region)?;
        let first = self.line_region(alloc, at, step, line)?;
        let last = self.last_region(alloc, at, first)?;
        put_region(alloc, at, last)
    }

    fn tidy_groups(&mut self, alloc: Global, at: &mut MomentLines) -> Result<(), AllocError> {
        let groups = at.groups(alloc)?;
        for (group, line) in groups.as_slice() {
            if let Some(step) = at.group_step(alloc, group)? {
                self.tidy_group(alloc, at, group, *line, step)?;
            }
        }
        Ok(())
    }

    fn tidy_regions(&mut self, alloc: Global, at: &mut MomentLines) -> Result<(), AllocError> {
        let regions = at.regions(alloc)?;
        for (region, line) in regions.as_slice() {
            if let Some(step) = at.region_step(alloc, region)? {
                self.tidy_region(alloc, at, region, *line, step)?;
            }
        }
        Ok(())
    }

    /// Groups and regions of the moment come to their normal forms, by one line for each step.
    pub(crate) fn tidy(&mut self, alloc: Global, at: &mut MomentLines) -> Result<(), AllocError> {
        at.open_all();
        self.tidy_groups(alloc, at)?;
        self.tidy_regions(alloc, at)
    }
}
