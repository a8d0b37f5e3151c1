//! The lines of what is known at the start.

use crate::joining::Joining;
use crate::table::LineTable;
use pks_explain_moment::{MomentLines, missing_as_memory, push};
use pks_lcw::{AtomSet, Entry, Lcw};
use pks_proof_lines::{Fact, Reason};
use pks_terms::group::Group;
use pks_terms::ids::{ItemNo, ObjId};
use pks_terms::limits::MOST_OBJECTS;
use pks_terms::literal::{Literal, Pattern};
use pks_terms::problem::{Init, InitItem, Signature};
use std::alloc::{AllocError, Global};

/// The objects of the result type of each function.
fn ranges_of(alloc: Global, s: &Signature) -> Result<Vec<Vec<ObjId>>, AllocError> {
    let mut ranges = Vec::new(alloc);
    if s.objects.len() > MOST_OBJECTS {
        return Err(missing_as_memory());
    }
    for shape in s.functions.as_slice() {
        let objects = s.objects_of(alloc, shape.result)?;
        push(&mut ranges, objects)?;
    }
    Ok(ranges)
}

/// The initial region of the pattern.
fn region_of(regions: &Lcw, pattern: &Pattern) -> Result<Entry, AllocError> {
    let least = Entry {
        pattern: *pattern,
        list: AtomSet::empty(),
    };
    match regions.first_from(&least) {
        Some(region) if region.pattern == *pattern => region.share(),
        _ => Err(missing_as_memory()),
    }
}

/// Puts the literal, which rests on no line, behind the others.
fn put_given_literal(
    alloc: Global,
    l: &Literal,
    reason: Reason,
    to: &mut Vec<Joining>,
) -> Result<(), AllocError> {
    push(
        to,
        Joining {
            literal: *l,
            reason,
            cites: Vec::new(alloc),
        },
    )
}

impl<'p> LineTable<'p> {
    /// The table that has no lines yet.
    pub(crate) fn empty(alloc: Global, s: &'p Signature) -> Result<LineTable<'p>, AllocError> {
        let ranges = ranges_of(alloc, s)?;
        Ok(LineTable {
            signature: s,
            ranges,
            lines: Vec::new(alloc),
        })
    }
}

impl LineTable<'_> {
    fn put_group(
        &mut self,
        alloc: Global,
        at: &mut MomentLines,
        group: &Group,
        reason: Reason,
    ) -> Result<(), AllocError> {
        let fact = Fact::Kx(group.copy()?);
        let line = self.add(at.number(), fact, reason, Vec::new(alloc))?;
        at.add_group(alloc, group.copy()?, line)
    }

    fn put_region(
        &mut self,
        alloc: Global,
        at: &mut MomentLines,
        region: Entry,
        reason: Reason,
    ) -> Result<(), AllocError> {
        let fact = Fact::Lcw(region.share()?);
        let line = self.add(at.number(), fact, reason, Vec::new(alloc))?;
        at.add_region(alloc, region, line)
    }

    fn put_given_group(
        &mut self,
        alloc: Global,
        at: &mut MomentLines,
        group: &Group,
        reason: Reason,
    ) -> Result<(), AllocError> {
        if at.has_group(group) {
            return Ok(());
        }
        self.put_group(alloc, at, group, reason)
    }

    fn put_given_region(
        &mut self,
        alloc: Global,
        at: &mut MomentLines,
        pattern: &Pattern,
        reason: Reason,
        regions: &Lcw,
    ) -> Result<(), AllocError> {
        let region = region_of(regions, pattern)?;
        if at.has_region(&region) {
            return Ok(());
        }
        self.put_region(alloc, at, region, reason)
    }

    /// Puts the line of a group or a region, and the literal behind the others.
    fn put_given(
        &mut self,
        alloc: Global,
        at: &mut MomentLines,
        item: &Init,
        reason: Reason,
        regions: &Lcw,
        to: &mut Vec<Joining>,
    ) -> Result<(), AllocError> {
        match item {
            Init::Kf(l) => put_given_literal(alloc, l, reason, to),
            Init::Kw(_) | Init::Kv(_) => Ok(()),
            Init::Kx(group) => self.put_given_group(alloc, at, group, reason),
            Init::Lcw(pattern) => self.put_given_region(alloc, at, pattern, reason, regions),
        }
    }

    /// Puts the lines of groups and regions, and answers the literals.
    fn put_all_given(
        &mut self,
        alloc: Global,
        at: &mut MomentLines,
        items: &[InitItem],
        regions: &Lcw,
    ) -> Result<Vec<Joining>, AllocError> {
        let mut literals = Vec::new(alloc);
        let mut number: u32 = 0;
        for item in items {
            number = number.saturating_add(1);
            let reason = Reason::Given(ItemNo(number));
            self.put_given(alloc, at, &item.start, reason, regions, &mut literals)?;
        }
        Ok(literals)
    }

    /// The lines of the initial items, whose regions these are, and what the values make of them.
    fn join_given(
        &mut self,
        alloc: Global,
        at: &mut MomentLines,
        items: &[InitItem],
        regions: &Lcw,
    ) -> Result<(), AllocError> {
        let literals = self.put_all_given(alloc, at, items, regions)?;
        self.join_all(alloc, at, literals.as_slice())
    }

    /// The lines of the initial items, whose regions these are, and what follows from them, closed and in normal form.
    pub(crate) fn begin(
        &mut self,
        alloc: Global,
        at: &mut MomentLines,
        items: &[InitItem],
        regions: &Lcw,
    ) -> Result<(), AllocError> {
        self.join_given(alloc, at, items, regions)?;
        self.close(alloc, at)?;
        self.tidy(alloc, at)
    }
}
