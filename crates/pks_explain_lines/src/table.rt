//! The table of lines.

use pks_explain_moment::{MomentLines, missing_as_memory, push};
use pks_proof_lines::{Fact, Line, Reason};
use pks_terms::ids::ObjId;
use pks_terms::literal::Literal;
use pks_terms::problem::Signature;
use pks_terms::sequence::Sequence;
use pks_terms::term::Term;
use std::alloc::{AllocError, Global};

/// The lines found so far along a path, and what the problem declares.
#[derive(Drop)]
pub(crate) struct LineTable<'p> {
    pub signature: &'p Signature,
    /// The objects of the result type of each function.
    pub ranges: Vec<Vec<ObjId>>,
    pub lines: Vec<Line>,
}

/// The most lines that a table has.
const MOST_LINES: usize = 4_294_967_000;

/// The numbers in order, each once.
fn in_order(numbers: Vec<u32>) -> Sequence<u32> {
    let mut numbers = numbers;
    numbers.sort_unstable();
    numbers.dedup();
    Sequence::of(numbers)
}

impl LineTable<'_> {
    /// The line of this number, if there is one.
    pub(crate) fn line(&self, number: u32) -> Option<&Line> {
        if number == 0 {
            return None;
        }
        self.lines.get(number as usize - 1)
    }

    /// The objects of the result type of the term's function.
    pub(crate) fn range_of(&self, t: &Term) -> &[ObjId] {
        match t {
            Term::Obj(_) | Term::Param(_) => &[],
            Term::App { fun, .. } => match self.ranges.get(usize::from(fun.0)) {
                Some(objects) => objects.as_slice(),
                None => &[],
            },
        }
    }

    /// Puts a line of the moment of this number behind the others and answers its own. What it cites is put in order, each
    /// number once.
    pub(crate) fn add(
        &mut self,
        m: usize,
        fact: Fact,
        reason: Reason,
        cites: Vec<u32>,
    ) -> Result<u32, AllocError> {
        let before = self.lines.len();
        if before >= MOST_LINES || m >= MOST_LINES {
            return Err(missing_as_memory());
        }
        let line = Line {
            moment: m as u32,
            fact,
            reason,
            cites: in_order(cites),
        };
        push(&mut self.lines, line)?;
        Ok(before as u32 + 1)
    }

    /// Puts a line of the literal, which cites these.
    pub(crate) fn add_literal(
        &mut self,
        alloc: Global,
        at: &MomentLines,
        l: &Literal,
        reason: Reason,
        cites: &[u32],
    ) -> Result<u32, AllocError> {
        let cites = Vec::from_slice(alloc, cites)?;
        self.add(at.number(), Fact::Lit(*l), reason, cites)
    }

    /// Puts a line of what another line becomes by the equation.
    pub(crate) fn add_swap(
        &mut self,
        alloc: Global,
        at: &MomentLines,
        fact: Fact,
        line: u32,
        equation: u32,
    ) -> Result<u32, AllocError> {
        let cites = Vec::from_slice(alloc, &[line, equation])?;
        self.add(at.number(), fact, Reason::Swap, cites)
    }

    /// Puts a line that says so of the moment, and the moment has it as a shown literal.
    pub(crate) fn add_shown(
        &mut self,
        alloc: Global,
        at: &mut MomentLines,
        l: &Literal,
        reason: Reason,
        cites: &[u32],
    ) -> Result<u32, AllocError> {
        let line = self.add_literal(alloc, at, l, reason, cites)?;
        at.put_shown(alloc, l, line)?;
        Ok(line)
    }
}
