//! Literals that come into the database of a moment.

use crate::table::LineTable;
use pks_explain_moment::{MomentLines, Swap, is_evident, missing_as_memory, push};
use pks_proof_lines::Reason;
use pks_terms::literal::Literal;
use std::alloc::{AllocError, Global};

/// A literal that comes in, with the reason and the lines on which it rests.
#[derive(Drop)]
pub struct Joining {
    /// What comes in.
    pub literal: Literal,
    /// Why it may stand.
    pub reason: Reason,
    /// The numbers of the lines on which it rests.
    pub cites: Vec<u32>,
}

impl LineTable<'_> {
    /// A new line by which a literal becomes known.
    fn new_line(
        &mut self,
        alloc: Global,
        at: &MomentLines,
        l: &Literal,
        reason: Reason,
        cites: &[u32],
    ) -> Result<u32, AllocError> {
        if is_evident(self.signature, l) {
            return self.add_literal(alloc, at, l, Reason::Same, &[]);
        }
        self.add_literal(alloc, at, l, reason, cites)
    }

    /// The line by which a literal becomes known: one that it has, or a new one.
    fn line_for(
        &mut self,
        alloc: Global,
        at: &MomentLines,
        l: &Literal,
        reason: Reason,
        cites: &[u32],
    ) -> Result<u32, AllocError> {
        match at.line_of(l) {
            Some(line) => Ok(line),
            None => self.new_line(alloc, at, l, reason, cites),
        }
    }

    /// The literal comes in, but not what comes of it, which is put behind the others.
    fn join_one(
        &mut self,
        alloc: Global,
        at: &mut MomentLines,
        l: &Literal,
        reason: Reason,
        cites: &[u32],
        to: &mut Vec<Swap>,
    ) -> Result<(), AllocError> {
        if at.knows(l) {
            return Ok(());
        }
        let line = self.line_for(alloc, at, l, reason, cites)?;
        at.take_in(alloc, l, line, to)
    }

    fn join_swap(
        &mut self,
        alloc: Global,
        at: &mut MomentLines,
        x: &Swap,
        to: &mut Vec<Swap>,
    ) -> Result<(), AllocError> {
        let cites = [x.line, x.equation];
        self.join_one(alloc, at, &x.literal, Reason::Swap, &cites, to)
    }

    /// These come in, the last first, and all that comes of them.
    fn join_swaps(
        &mut self,
        alloc: Global,
        at: &mut MomentLines,
        open: &mut Vec<Swap>,
    ) -> Result<(), AllocError> {
        for _ in 0..u64::MAX {
            match open.pop() {
                Some(x) => self.join_swap(alloc, at, &x, open)?,
                None => return Ok(()),
            }
        }
        Err(missing_as_memory())
    }

    /// The literal comes in, with all that the known values make of it.
    pub(crate) fn join(
        &mut self,
        alloc: Global,
        at: &mut MomentLines,
        l: &Literal,
        reason: Reason,
        cites: &[u32],
    ) -> Result<(), AllocError> {
        let mut open = Vec::new(alloc);
        self.join_one(alloc, at, l, reason, cites, &mut open)?;
        self.join_swaps(alloc, at, &mut open)
    }

    /// Gives the literal a line, unless it has one or is evident.
    fn give_line(
        &mut self,
        alloc: Global,
        at: &mut MomentLines,
        x: &Joining,
    ) -> Result<(), AllocError> {
        if at.line_of(&x.literal).is_some() || is_evident(self.signature, &x.literal) {
            return Ok(());
        }
        self.add_shown(alloc, at, &x.literal, x.reason, x.cites.as_slice())?;
        Ok(())
    }

    /// Gives the literal a line and puts it behind the others, unless it is known.
    fn give_new(
        &mut self,
        alloc: Global,
        at: &mut MomentLines,
        x: &Joining,
        to: &mut Vec<Literal>,
    ) -> Result<(), AllocError> {
        if at.knows(&x.literal) {
            return Ok(());
        }
        self.give_line(alloc, at, x)?;
        push(to, x.literal)
    }

    /// Gives each of the literals a line, and answers those that have yet to come in.
    fn give_all(
        &mut self,
        alloc: Global,
        at: &mut MomentLines,
        all: &[Joining],
    ) -> Result<Vec<Literal>, AllocError> {
        let mut new = Vec::new(alloc);
        for x in all {
            self.give_new(alloc, at, x, &mut new)?;
        }
        Ok(new)
    }

    /// The literals come in, each of which has a line or is evident.
    fn join_each(
        &mut self,
        alloc: Global,
        at: &mut MomentLines,
        literals: &[Literal],
    ) -> Result<(), AllocError> {
        for l in literals {
            self.join(alloc, at, l, Reason::Same, &[])?;
        }
        Ok(())
    }

    /// Literals that come in together: each gets its own line first, so that none is derived from the others.
    pub(crate) fn join_all(
        &mut self,
        alloc: Global,
        at: &mut MomentLines,
        all: &[Joining],
    ) -> Result<(), AllocError> {
        let new = self.give_all(alloc, at, all)?;
        self.join_each(alloc, at, new.as_slice())
    }

    /// The literal, which holds, comes in by a line that is made for it.
    fn join_shown(
        &mut self,
        alloc: Global,
        at: &mut MomentLines,
        l: &Literal,
    ) -> Result<(), AllocError> {
        self.show(alloc, at, l)?;
        self.join(alloc, at, l, Reason::Same, &[])
    }

    /// The literal, which doesn't hold, comes in for the reason.
    fn join_new(
        &mut self,
        alloc: Global,
        at: &mut MomentLines,
        l: &Literal,
        reason: Reason,
        rest: &[u32],
        need: &[Literal],
    ) -> Result<(), AllocError> {
        let mut cites = self.show_all(alloc, at, need)?;
        cites.extend_from_slice(rest)?;
        self.join(alloc, at, l, reason, cites.as_slice())
    }

    /// A literal that a rule adds: by what holds already, where it does; else for the reason, which rests on the lines and on
    /// the literals needed, which hold and are shown.
    pub(crate) fn join_by(
        &mut self,
        alloc: Global,
        at: &mut MomentLines,
        l: &Literal,
        reason: Reason,
        rest: &[u32],
        need: &[Literal],
    ) -> Result<(), AllocError> {
        if at.knows(l) {
            return Ok(());
        }
        if at.holds(self.signature, l) {
            return self.join_shown(alloc, at, l);
        }
        self.join_new(alloc, at, l, reason, rest, need)
    }
}
