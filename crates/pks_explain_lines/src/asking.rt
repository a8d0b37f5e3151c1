//! What stands at the moments of a table.

use crate::lines::Lines;
use pks_explain_moment::{NormalForm, missing_as_memory};
use pks_lcw::Entry;
use pks_terms::group::Group;
use pks_terms::literal::Literal;
use pks_terms::term::Term;
use std::alloc::{AllocError, Global};

impl Lines<'_> {
    /// The number of the line that says so of the moment, if there is one.
    pub fn line_of(&self, m: usize, l: &Literal) -> Option<u32> {
        match self.moments.get(m) {
            Some(moment) => moment.line_of(l),
            None => None,
        }
    }

    /// Whether the literal is a known literal of the moment's database, as it is written.
    pub fn knows(&self, m: usize, l: &Literal) -> bool {
        match self.moments.get(m) {
            Some(moment) => moment.knows(l),
            None => false,
        }
    }

    /// Whether the literal holds at the moment: whether its normal form is known or evident, or a region shuts it out. It
    /// takes no memory. `docs/RULES.md` has the rule.
    pub fn holds(&self, m: usize, l: &Literal) -> bool {
        match self.moments.get(m) {
            Some(moment) => moment.holds(self.table.signature, l),
            None => false,
        }
    }

    /// The known literals of the moment's database, in order, with their lines. The error is want of memory, or
    /// `missing_as_memory` where there is no such moment.
    pub fn known(&self, alloc: Global, m: usize) -> Result<Vec<(Literal, u32)>, AllocError> {
        match self.moments.get(m) {
            Some(moment) => moment.known(alloc),
            None => Err(missing_as_memory()),
        }
    }

    /// How many known literals all moments have together.
    pub fn count(&self) -> usize {
        let mut count: usize = 0;
        for moment in self.moments.as_slice() {
            count = count.saturating_add(moment.count());
        }
        count
    }

    /// The groups of the moment, in order, with their lines. The error is want of memory, or `missing_as_memory` where
    /// there is no such moment.
    pub fn groups(&self, alloc: Global, m: usize) -> Result<Vec<(Group, u32)>, AllocError> {
        match self.moments.get(m) {
            Some(moment) => moment.groups(alloc),
            None => Err(missing_as_memory()),
        }
    }

    /// The closed regions of the moment, in order, with their lines. The error is want of memory, or
    /// `missing_as_memory` where there is no such moment.
    pub fn regions(&self, alloc: Global, m: usize) -> Result<Vec<(Entry, u32)>, AllocError> {
        match self.moments.get(m) {
            Some(moment) => moment.regions(alloc),
            None => Err(missing_as_memory()),
        }
    }

    /// Whether the region stands at the moment.
    pub fn has_region(&self, m: usize, e: &Entry) -> bool {
        match self.moments.get(m) {
            Some(moment) => moment.has_region(e),
            None => false,
        }
    }

    /// The normal form of a term at the moment: each place in it, the inner ones first, has become its value where one
    /// is known. The error is want of memory, or `missing_as_memory` where there is no such moment. `docs/RULES.md` has
    /// the rule.
    pub fn normal_form(&self, alloc: Global, m: usize, t: &Term) -> Result<NormalForm, AllocError> {
        match self.moments.get(m) {
            Some(moment) => moment.normal_form(alloc, t),
            None => Err(missing_as_memory()),
        }
    }

    /// The forms of a term at the moment, itself first: any of its arguments replaced by their values, and then the whole.
    /// The error is want of memory, or `missing_as_memory` where there is no such moment.
    pub fn forms(&self, alloc: Global, m: usize, t: &Term) -> Result<Vec<NormalForm>, AllocError> {
        match self.moments.get(m) {
            Some(moment) => moment.forms(alloc, t),
            None => Err(missing_as_memory()),
        }
    }
}
