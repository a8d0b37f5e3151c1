//! What is known of a moment, and its groups and regions.

use crate::moment::{MomentLines, drop_at, forget, put};
use crate::placing::equal;
use crate::pushing::push;
use pks_lcw::Entry;
use pks_terms::group::Group;
use pks_terms::literal::Literal;
use pks_terms::term::Term;
use std::alloc::{AllocError, Global};

impl MomentLines {
    /// Whether the literal is a known one, as it is written. It takes no memory.
    pub fn knows(&self, l: &Literal) -> bool {
        self.stated.known.get(l).is_some()
    }

    /// Whether the value of the term is known by an equation with the term as it is written. It takes no memory.
    pub fn has_value(&self, t: &Term) -> bool {
        match self.normal(t) {
            Term::Obj(d) => self.knows(&equal(t, &Term::Obj(d))),
            Term::Param(_) | Term::App { .. } => false,
        }
    }

    /// The known literals, in order, with their lines. The error is want of memory.
    pub fn known(&self, alloc: Global) -> Result<Vec<(Literal, u32)>, AllocError> {
        let mut known = Vec::new(alloc);
        for (l, line) in self.stated.known.iter() {
            push(&mut known, (*l, *line))?;
        }
        Ok(known)
    }

    /// How many literals are known.
    pub fn count(&self) -> usize {
        self.stated.known.len()
    }

    /// Whether the group stands. It takes no memory.
    pub fn has_group(&self, g: &Group) -> bool {
        self.beside.groups.get(g).is_some()
    }

    /// Whether the region stands. It takes no memory.
    pub fn has_region(&self, e: &Entry) -> bool {
        self.beside.regions.get(e).is_some()
    }

    /// The group stands, by the line of this number. The error is want of memory.
    pub fn add_group(&mut self, alloc: Global, g: Group, line: u32) -> Result<(), AllocError> {
        forget(&mut self.index);
        put(alloc, &mut self.beside.groups, g, line)
    }

    /// The region stands, by the line of this number. The error is want of memory.
    pub fn add_region(&mut self, alloc: Global, e: Entry, line: u32) -> Result<(), AllocError> {
        forget(&mut self.index);
        put(alloc, &mut self.beside.regions, e, line)
    }

    /// The group stands no more. The error is want of memory.
    pub fn drop_group(&mut self, alloc: Global, g: &Group) -> Result<(), AllocError> {
        drop_at(alloc, &mut self.beside.groups, g)
    }

    /// The region stands no more. The error is want of memory.
    pub fn drop_region(&mut self, alloc: Global, e: &Entry) -> Result<(), AllocError> {
        drop_at(alloc, &mut self.beside.regions, e)
    }
}
