//! What closing has to look at again at a moment.

use crate::moment::{MomentLines, forget, put};
use crate::pushing::{push, put_behind, put_in};
use pks_query_lookup::literals::affirmed;
use pks_terms::group::Group;
use pks_terms::literal::{Atom, Literal};
use pks_terms::term::Term;
use std::alloc::{AllocError, Global};
use std::collections::{BTreeMap, BTreeSet};

/// The groups and applications of a moment, found by the normal forms of what they are about, and those that are open:
/// closing has to look at them. It is made anew where a value comes in.
#[derive(Drop)]
pub(crate) struct LineIndex {
    /// The line of each group, in the order of the groups.
    lines: Vec<u32>,
    /// The places of the groups that have a member of this normal form, the sign left out.
    groups: BTreeMap<Literal, Vec<usize>>,
    /// The applications of this normal form.
    terms: BTreeMap<Term, Vec<Term>>,
    open_groups: BTreeSet<usize>,
    open_terms: BTreeSet<Term>,
}

/// What closing looks at next.
#[derive(Clone, Copy)]
pub enum OpenItem {
    /// An application.
    Term(Term),
    /// The group of the line of this number.
    Group(u32),
    /// Nothing is left.
    Nothing,
}

/// The values at the key.
fn kept_at<'m, K: Ord, V>(map: &'m BTreeMap<K, Vec<V>>, key: &K) -> &'m [V] {
    match map.get(key) {
        Some(values) => values.as_slice(),
        None => &[],
    }
}

fn open_each<V: Ord + Copy>(set: &mut BTreeSet<V>, values: &[V]) -> Result<(), AllocError> {
    for value in values {
        put_in(set, *value)?;
    }
    Ok(())
}

impl LineIndex {
    fn empty(alloc: Global) -> LineIndex {
        LineIndex {
            lines: Vec::new(alloc),
            groups: BTreeMap::new(alloc),
            terms: BTreeMap::new(alloc),
            open_groups: BTreeSet::new(alloc),
            open_terms: BTreeSet::new(alloc),
        }
    }

    /// The application, whose normal form this is, is there and open.
    fn put_term(&mut self, alloc: Global, t: &Term, normal: Term) -> Result<(), AllocError> {
        put_in(&mut self.open_terms, *t)?;
        put_behind(alloc, &mut self.terms, normal, *t)
    }

    /// The group of this line is there and open, behind the others. The answer is its place.
    fn put_line(&mut self, line: u32) -> Result<usize, AllocError> {
        let place = self.lines.len();
        push(&mut self.lines, line)?;
        put_in(&mut self.open_groups, place)?;
        Ok(place)
    }

    /// The group at the place has a member of this normal form.
    fn put_member(
        &mut self,
        alloc: Global,
        normal: &Literal,
        place: usize,
    ) -> Result<(), AllocError> {
        put_behind(alloc, &mut self.groups, affirmed(normal), place)
    }

    /// What a literal of this normal form may matter to is open.
    fn open_by(&mut self, normal: &Literal, regions: bool) -> Result<(), AllocError> {
        open_each(
            &mut self.open_groups,
            kept_at(&self.groups, &affirmed(normal)),
        )?;
        if normal.positive {
            return Ok(());
        }
        match &normal.atom {
            Atom::Pred(_) => Ok(()),
            Atom::Eq { left, .. } => self.open_by_difference(left, regions),
        }
    }

    /// What a difference from this term may matter to is open.
    fn open_by_difference(&mut self, left: &Term, regions: bool) -> Result<(), AllocError> {
        open_each(&mut self.open_terms, kept_at(&self.terms, left))?;
        if regions {
            return self.open_all_groups();
        }
        Ok(())
    }

    fn open_all_groups(&mut self) -> Result<(), AllocError> {
        for place in 0..self.lines.len() {
            put_in(&mut self.open_groups, place)?;
        }
        Ok(())
    }

    fn take_group(&mut self) -> Option<u32> {
        let place = self.open_groups.pop_first()?;
        self.lines.get(place).copied()
    }

    /// What is open, the least first, which then is open no more.
    fn take_first(&mut self) -> OpenItem {
        if let Some(t) = self.open_terms.pop_first() {
            return OpenItem::Term(t);
        }
        match self.take_group() {
            Some(line) => OpenItem::Group(line),
            None => OpenItem::Nothing,
        }
    }
}

impl MomentLines {
    fn index_group(
        &self,
        alloc: Global,
        group: &Group,
        line: u32,
        to: &mut LineIndex,
    ) -> Result<(), AllocError> {
        let place = to.put_line(line)?;
        for l in group.as_slice() {
            to.put_member(alloc, &self.normal_literal(l), place)?;
        }
        Ok(())
    }

    fn index_groups(&self, alloc: Global, to: &mut LineIndex) -> Result<(), AllocError> {
        for (group, line) in self.beside.groups.iter() {
            self.index_group(alloc, group, *line, to)?;
        }
        Ok(())
    }

    fn index_terms(&self, alloc: Global, to: &mut LineIndex) -> Result<(), AllocError> {
        for (t, _) in self.occurring.applications.iter() {
            to.put_term(alloc, t, self.normal(t))?;
        }
        Ok(())
    }

    /// The index in which all is open.
    fn made_index(&self, alloc: Global) -> Result<LineIndex, AllocError> {
        let mut index = LineIndex::empty(alloc);
        self.index_groups(alloc, &mut index)?;
        self.index_terms(alloc, &mut index)?;
        Ok(index)
    }

    fn make_index(&mut self, alloc: Global) -> Result<(), AllocError> {
        let index = self.made_index(alloc)?;
        self.index = Some(index);
        Ok(())
    }

    /// What closing looks at next. The error is want of memory.
    pub fn next_open(&mut self, alloc: Global) -> Result<OpenItem, AllocError> {
        if self.index.is_none() {
            self.make_index(alloc)?;
        }
        match &mut self.index {
            Some(index) => Ok(index.take_first()),
            None => Ok(OpenItem::Nothing),
        }
    }

    /// Closing has to look at all again.
    pub fn open_all(&mut self) {
        forget(&mut self.index);
    }

    fn open_term(&mut self, alloc: Global, t: &Term) -> Result<(), AllocError> {
        let normal = self.normal(t);
        match &mut self.index {
            Some(index) => index.put_term(alloc, t, normal),
            None => Ok(()),
        }
    }

    fn touch_term(&mut self, alloc: Global, t: &Term) -> Result<(), AllocError> {
        if self.occurring.applications.get(t).is_some() {
            return Ok(());
        }
        put(alloc, &mut self.occurring.applications, *t, ())?;
        self.open_term(alloc, t)
    }

    fn open_by(&mut self, l: &Literal) -> Result<(), AllocError> {
        let normal = self.normal_literal(l);
        let regions = self.beside.regions.len() > 0;
        match &mut self.index {
            Some(index) => index.open_by(&normal, regions),
            None => Ok(()),
        }
    }

    /// A literal, in which these occur, has come in: what it may matter to is open again.
    pub(crate) fn touch(
        &mut self,
        alloc: Global,
        l: &Literal,
        applications: &[Term],
    ) -> Result<(), AllocError> {
        for t in applications {
            self.touch_term(alloc, t)?;
        }
        self.open_by(l)
    }
}
