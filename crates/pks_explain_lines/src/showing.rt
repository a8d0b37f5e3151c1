//! Lines for literals that hold.
ghost use Rattle.std.specs.Prelude.{◌≡◌, IfOk, IsNone, IsTrue};
ghost use Rattle.std.specs.Option.{IsSome};
ghost use Rattle.pks_terms.specs.Reasons.{is_same};
ghost use Rattle.pks_terms.specs.Views.{literal_of, signature_of};
ghost use Rattle.pks_explain_moment.specs.Standing.{stands, holds_plainly, normal_literal, ends_standing};

use crate::table::LineTable;
use pks_explain_moment::{LiteralRewrite, MomentLines, is_evident, missing_as_memory, push};
use pks_proof_lines::Reason;
use pks_terms::literal::Literal;
use std::alloc::{AllocError, Global};

impl LineTable<'_> {
    /// The line of a literal that has none, if it is evident.
    fn evident_line(
        &mut self,
        alloc: Global,
        at: &mut MomentLines,
        l: &Literal,
    ) -> Result<Option<u32>, AllocError>
        ensures found { IsTrue (is_same (signature_of self.old.signature.now) (literal_of l.now)) → IfOk result (λ line. IsSome line) }
        ensures none { IfOk result (λ line. IsNone line → (self.new ≡ self.old) × (at.new ≡ at.old)) }
    {
        if !is_evident(self.signature, l) {
            return Ok(None);
        }
        let line = self.add_shown(alloc, at, l, Reason::Same, &[])?;
        Ok(Some(line))
    }

    /// The line of a literal, which has one or is evident.
    fn standing_line(
        &mut self,
        alloc: Global,
        at: &mut MomentLines,
        l: &Literal,
    ) -> Result<Option<u32>, AllocError>
        ensures found { IsTrue (stands (signature_of self.old.signature.now) at.old (literal_of l.now)) → IfOk result (λ line. IsSome line) }
        ensures none { IfOk result (λ line. IsNone line → (self.new ≡ self.old) × (at.new ≡ at.old)) }
    {
        match at.line_of(l) {
            Some(line) => Ok(Some(line)),
            None => self.evident_line(alloc, at, l),
        }
    }

    /// The line of a literal that becomes the one of the next line by the equation.
    fn swapped_line(
        &mut self,
        alloc: Global,
        at: &mut MomentLines,
        l: &Literal,
        next: u32,
        equation: u32,
    ) -> Result<u32, AllocError> {
        match at.line_of(l) {
            Some(line) => Ok(line),
            None => self.add_shown(alloc, at, l, Reason::Swap, &[next, equation]),
        }
    }

    /// From the first literal of the chain that stands back to the first of all: the line of this, or nothing where none
    /// stands.
    pub(crate) fn climb(
        &mut self,
        alloc: Global,
        at: &mut MomentLines,
        chain: &[LiteralRewrite],
    ) -> Result<Option<u32>, AllocError>
        ensures found { IsTrue (ends_standing (signature_of self.old.signature.now) at.old chain.now) → IfOk result (λ line. IsSome line) }
    {
        let [link, rest @ ..] = chain else {
            return Ok(None);
        };
        if let Some(line) = self.standing_line(alloc, at, &link.literal)? {
            return Ok(Some(line));
        }
        let [after, ..] = rest else {
            return Ok(None);
        };
        let Some(next) = self.climb(alloc, at, rest)? else {
            return Ok(None);
        };
        let line = self.swapped_line(alloc, at, &link.literal, next, after.equation)?;
        Ok(Some(line))
    }

    /// The line of a literal without one, whose normal form has one or is evident.
    fn show_down(
        &mut self,
        alloc: Global,
        at: &mut MomentLines,
        l: &Literal,
    ) -> Result<Option<u32>, AllocError>
        ensures found { IsTrue (stands (signature_of self.old.signature.now) at.old (normal_literal at.old (literal_of l.now))) → IfOk result (λ line. IsSome line) }
    {
        let chain = at.chain_down(alloc, l)?;
        self.climb(alloc, at, chain.as_slice())
    }

    /// The line of a literal that has one, or whose normal form has one or is evident: for each of these there is one.
    pub(crate) fn show_plainly(
        &mut self,
        alloc: Global,
        at: &mut MomentLines,
        l: &Literal,
    ) -> Result<Option<u32>, AllocError>
        ensures found { IsTrue (holds_plainly (signature_of self.old.signature.now) at.old (literal_of l.now)) → IfOk result (λ line. IsSome line) }
    {
        match at.line_of(l) {
            Some(line) => Ok(Some(line)),
            None => self.show_down(alloc, at, l),
        }
    }

    /// The line of a literal, which holds: from the normal form back, one line for each step.
    pub(crate) fn show(
        &mut self,
        alloc: Global,
        at: &mut MomentLines,
        l: &Literal,
    ) -> Result<u32, AllocError> {
        match self.show_plainly(alloc, at, l)? {
            Some(line) => Ok(line),
            None => self.show_outside(alloc, at, l),
        }
    }

    /// The lines of the literals, which hold.
    pub(crate) fn show_all(
        &mut self,
        alloc: Global,
        at: &mut MomentLines,
        ls: &[Literal],
    ) -> Result<Vec<u32>, AllocError> {
        let mut lines = Vec::new(alloc);
        for l in ls {
            let line = self.show(alloc, at, l)?;
            push(&mut lines, line)?;
        }
        Ok(lines)
    }
}

/// The line, or `missing_as_memory` where there is none.
pub(crate) fn line_or_missing(line: Option<u32>) -> Result<u32, AllocError> {
    match line {
        Some(line) => Ok(line),
        None => Err(missing_as_memory()),
    }
}
