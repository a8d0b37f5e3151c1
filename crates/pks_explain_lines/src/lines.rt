//! The lines along a path, with what stands at each of its moments.

use crate::joining::Joining;
use crate::table::LineTable;
use pks_explain_moment::{MomentLines, missing_as_memory, push};
use pks_lcw::{Entry, Lcw};
use pks_proof_lines::{Fact, Line, Reason};
use pks_terms::group::Group;
use pks_terms::literal::Literal;
use pks_terms::problem::{InitItem, Problem};
use std::alloc::{AllocError, Global};

/// The lines found so far along a path, and what stands at each of its moments. A line is known by its number, from 1, and
/// a moment by how many actions come before it. `docs/REASONS.md` has the reasons of lines.
#[derive(Drop)]
pub struct Lines<'p> {
    pub(crate) table: LineTable<'p>,
    pub(crate) moments: Vec<MomentLines>,
}

impl<'p> Lines<'p> {
    /// The lines, in the order of their numbers.
    pub fn lines(&self) -> &[Line] {
        self.table.lines.as_slice()
    }

    /// The line of this number, if there is one.
    pub fn line(&self, number: u32) -> Option<&Line> {
        self.table.line(number)
    }

    /// How many moments there are.
    pub fn moments(&self) -> usize {
        self.moments.len()
    }

    /// A moment behind the last, at which nothing stands yet. The error is want of memory.
    pub fn begin_moment(&mut self, alloc: Global) -> Result<(), AllocError> {
        let _alloc = alloc;
        let number = self.moments.len();
        push(&mut self.moments, MomentLines::empty(number))
    }

    /// The lines of the initial items, whose regions are given, and what follows from them at the start, closed and in
    /// normal form. The error is want of memory, or `missing_as_memory` where the problem has too many objects or items,
    /// or a region isn't among those given. `docs/REASONS.md` has the reasons.
    pub fn start(
        alloc: Global,
        p: &'p Problem<'_>,
        regions: &Lcw,
    ) -> Result<Lines<'p>, AllocError> {
        let table = LineTable::empty(alloc, &p.signature)?;
        let moments = Vec::new(alloc);
        let mut lines = Lines { table, moments };
        lines.begin(alloc, p.init.as_slice(), regions)?;
        Ok(lines)
    }

    /// What is known at the start, at a first moment.
    fn begin(
        &mut self,
        alloc: Global,
        items: &[InitItem],
        regions: &Lcw,
    ) -> Result<(), AllocError> {
        self.begin_moment(alloc)?;
        match self.moments.get_mut(0) {
            Some(at) => self.table.begin(alloc, at, items, regions),
            None => Err(missing_as_memory()),
        }
    }

    /// Puts a line behind the others and answers its number. What it cites is put in order, each number once. Nothing
    /// comes to stand at the moment by it. The error is want of memory, or `missing_as_memory` where there are too many
    /// lines.
    pub fn add_line(
        &mut self,
        alloc: Global,
        m: usize,
        fact: Fact,
        reason: Reason,
        cites: Vec<u32>,
    ) -> Result<u32, AllocError> {
        let _alloc = alloc;
        self.table.add(m, fact, reason, cites)
    }

    /// The group stands at the moment, by the line of this number. The error is want of memory, or `missing_as_memory`
    /// where there is no such moment.
    pub fn add_group(
        &mut self,
        alloc: Global,
        m: usize,
        g: Group,
        line: u32,
    ) -> Result<(), AllocError> {
        match self.moments.get_mut(m) {
            Some(at) => at.add_group(alloc, g, line),
            None => Err(missing_as_memory()),
        }
    }

    /// The region stands at the moment, by the line of this number. The error is want of memory, or `missing_as_memory`
    /// where there is no such moment.
    pub fn add_region(
        &mut self,
        alloc: Global,
        m: usize,
        e: Entry,
        line: u32,
    ) -> Result<(), AllocError> {
        match self.moments.get_mut(m) {
            Some(at) => at.add_region(alloc, e, line),
            None => Err(missing_as_memory()),
        }
    }

    /// The literal comes into the database of the moment, with all that the known values make of it. Where it is known it
    /// stays as it is, where it has a line that is its line, and where it is evident its reason is that. The error is want
    /// of memory, or `missing_as_memory` where there is no such moment.
    pub fn join(
        &mut self,
        alloc: Global,
        m: usize,
        l: &Literal,
        reason: Reason,
        cites: Vec<u32>,
    ) -> Result<(), AllocError> {
        match self.moments.get_mut(m) {
            Some(at) => self.table.join(alloc, at, l, reason, cites.as_slice()),
            None => Err(missing_as_memory()),
        }
    }

    /// Literals that come in together: each gets its own line first, so that none is derived from the others. The error is
    /// that of `join`.
    pub fn join_all(
        &mut self,
        alloc: Global,
        m: usize,
        all: Vec<Joining>,
    ) -> Result<(), AllocError> {
        match self.moments.get_mut(m) {
            Some(at) => self.table.join_all(alloc, at, all.as_slice()),
            None => Err(missing_as_memory()),
        }
    }

    /// A literal that a rule adds: by what holds already, where it does; else for the reason, which rests on the lines
    /// and on the literals needed, which hold and are shown. The error is want of memory, or `missing_as_memory` where
    /// one of these doesn't hold or there is no such moment.
    pub fn join_by(
        &mut self,
        alloc: Global,
        m: usize,
        l: &Literal,
        reason: Reason,
        rest: &[u32],
        need: &[Literal],
    ) -> Result<(), AllocError> {
        match self.moments.get_mut(m) {
            Some(at) => self.table.join_by(alloc, at, l, reason, rest, need),
            None => Err(missing_as_memory()),
        }
    }

    /// The number of a line that says so of the moment, which is made where there is none: from the normal form back,
    /// one line for each step. It is for literals that hold: of another it says `missing_as_memory`, as where there is
    /// no such moment. The other error is want of memory.
    pub fn show(&mut self, alloc: Global, m: usize, l: &Literal) -> Result<u32, AllocError> {
        match self.moments.get_mut(m) {
            Some(at) => self.table.show(alloc, at, l),
            None => Err(missing_as_memory()),
        }
    }

    /// The numbers of such lines for each of the literals, which hold.
    pub fn show_all(
        &mut self,
        alloc: Global,
        m: usize,
        ls: &[Literal],
    ) -> Result<Vec<u32>, AllocError> {
        match self.moments.get_mut(m) {
            Some(at) => self.table.show_all(alloc, at, ls),
            None => Err(missing_as_memory()),
        }
    }

    /// Adds all that groups and ranges tell at the moment. The error is want of memory, or `missing_as_memory` where
    /// there is no such moment.
    pub fn close(&mut self, alloc: Global, m: usize) -> Result<(), AllocError> {
        match self.moments.get_mut(m) {
            Some(at) => self.table.close(alloc, at),
            None => Err(missing_as_memory()),
        }
    }

    /// Groups and regions of the moment come to their normal forms, by one line for each step. The error is want of memory,
    /// or `missing_as_memory` where there is no such moment.
    pub fn tidy(&mut self, alloc: Global, m: usize) -> Result<(), AllocError> {
        match self.moments.get_mut(m) {
            Some(at) => self.table.tidy(alloc, at),
            None => Err(missing_as_memory()),
        }
    }
}
