//! Lines for the denials of atoms that a region shuts out.

use crate::showing::line_or_missing;
use crate::table::LineTable;
use pks_explain_moment::{
    LiteralRewrite, MomentLines, are_plainly_apart, missing_as_memory, push, with_fixed,
};
use pks_lcw::Entry;
use pks_proof_lines::Reason;
use pks_terms::literal::{Atom, Literal, PredAtom, atom_literal};
use std::alloc::{AllocError, Global};

/// A region that shuts an atom out, and its line.
#[derive(Drop)]
struct Shutting {
    region: Entry,
    line: u32,
}

fn shutting_by(region: &Entry, line: u32) -> Result<Shutting, AllocError> {
    let region = region.share()?;
    Ok(Shutting { region, line })
}

impl LineTable<'_> {
    fn region_around(&self, at: &MomentLines, a: &PredAtom) -> Result<Shutting, AllocError> {
        match at.shutting_out(self.signature, a) {
            Some((region, line)) => shutting_by(region, line),
            None => Err(missing_as_memory()),
        }
    }

    /// The line of a difference of the two atoms.
    fn show_difference(
        &mut self,
        alloc: Global,
        at: &mut MomentLines,
        a: &PredAtom,
        b: &PredAtom,
    ) -> Result<u32, AllocError> {
        let Some(l) = at.difference(self.signature, a, b) else {
            return Err(missing_as_memory());
        };
        let line = self.show_plainly(alloc, at, &l)?;
        line_or_missing(line)
    }

    /// Puts the line of a difference of the two atoms, unless they have two different objects.
    fn put_difference(
        &mut self,
        alloc: Global,
        at: &mut MomentLines,
        a: &PredAtom,
        b: &PredAtom,
        to: &mut Vec<u32>,
    ) -> Result<(), AllocError> {
        if are_plainly_apart(a, b) {
            return Ok(());
        }
        let line = self.show_difference(alloc, at, a, b)?;
        push(to, line)
    }

    /// Puts the lines of the differences of the atom from each of the others.
    fn put_differences(
        &mut self,
        alloc: Global,
        at: &mut MomentLines,
        a: &PredAtom,
        others: &[PredAtom],
        to: &mut Vec<u32>,
    ) -> Result<(), AllocError> {
        for b in others {
            self.put_difference(alloc, at, a, b, to)?;
        }
        Ok(())
    }

    /// Puts the line that the atom with the region's own terms is shut out.
    fn show_closed(
        &mut self,
        alloc: Global,
        at: &mut MomentLines,
        fixed: &PredAtom,
        by: &Shutting,
    ) -> Result<(), AllocError> {
        let mut cites = Vec::new(alloc);
        push(&mut cites, by.line)?;
        self.put_differences(alloc, at, fixed, by.region.list.as_slice(), &mut cites)?;
        self.add_shown(
            alloc,
            at,
            &atom_literal(fixed, false),
            Reason::Closed,
            cites.as_slice(),
        )?;
        Ok(())
    }

    /// The line of the first of the chain, from the atom with the region's own terms on.
    fn show_by_region(
        &mut self,
        alloc: Global,
        at: &mut MomentLines,
        chain: &[LiteralRewrite],
        fixed: &PredAtom,
        by: &Shutting,
    ) -> Result<u32, AllocError> {
        if let Some(line) = self.climb(alloc, at, chain)? {
            return Ok(line);
        }
        self.show_closed(alloc, at, fixed, by)?;
        let line = self.climb(alloc, at, chain)?;
        line_or_missing(line)
    }

    fn show_around(
        &mut self,
        alloc: Global,
        at: &mut MomentLines,
        a: &PredAtom,
        by: &Shutting,
    ) -> Result<u32, AllocError> {
        let fixed = with_fixed(a, &by.region.pattern);
        let chain = at.way_to(alloc, a, &fixed)?;
        self.show_by_region(alloc, at, chain.as_slice(), &fixed, by)
    }

    fn show_denied(
        &mut self,
        alloc: Global,
        at: &mut MomentLines,
        a: &PredAtom,
    ) -> Result<u32, AllocError> {
        let by = self.region_around(at, a)?;
        self.show_around(alloc, at, a, &by)
    }

    /// The line of a literal that denies an atom which a region shuts out: with the region's own terms, and from there to
    /// the literal's.
    pub(crate) fn show_outside(
        &mut self,
        alloc: Global,
        at: &mut MomentLines,
        l: &Literal,
    ) -> Result<u32, AllocError> {
        if l.positive {
            return Err(missing_as_memory());
        }
        match &l.atom {
            Atom::Pred(a) => self.show_denied(alloc, at, a),
            Atom::Eq { .. } => Err(missing_as_memory()),
        }
    }
}
