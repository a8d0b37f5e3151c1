//! Tests of what an action keeps, undoes or makes so, each with the literals on which its yes rests.

use crate::barring::Tests;
use crate::doing::{changing, denying, undoing, writing};
use crate::firing::Firing;
use crate::parts::{Parts, argument, arguments};
use pks_terms::group::Group;
use pks_terms::literal::{Atom, Literal};
use pks_terms::schema::Target;
use pks_terms::term::Term;
use std::alloc::{AllocError, Global};

/// The term and its arguments.
fn places(t: &Option<Term>) -> Parts {
    match t {
        Some(t) => [Some(*t), argument(t, 0), argument(t, 1)],
        None => [None; 3],
    }
}

/// The terms of the literal.
fn terms_in(l: &Literal) -> Parts {
    match &l.atom {
        Atom::Pred(a) => arguments(a),
        Atom::Eq { left, right } => [Some(*left), Some(*right), None],
    }
}

/// The effects before the k-th.
fn before(firings: &[Firing], k: usize) -> &[Firing] {
    &firings[..k.min(firings.len())]
}

/// The effects after the k-th.
fn after(firings: &[Firing], k: usize) -> &[Firing] {
    if k < firings.len() {
        &firings[k + 1..]
    } else {
        &[]
    }
}

/// The literals that were found, where the answer is yes.
fn if_so(is_so: bool, by: Vec<Literal>) -> Option<Vec<Literal>> {
    if is_so { Some(by) } else { None }
}

impl Tests<'_, '_> {
    /// Whether no effect changes the value of one of these.
    fn are_kept(&self, places: &Parts, noted: &mut Vec<Literal>) -> Result<bool, AllocError> {
        for place in places {
            if !self.are_barred(self.step.firings.as_slice(), &changing(place), noted)? {
                return Ok(false);
            }
        }
        Ok(true)
    }

    /// Whether the terms are steady: no effect changes the value of one, or of an argument.
    pub(crate) fn are_steady(
        &self,
        parts: &Parts,
        noted: &mut Vec<Literal>,
    ) -> Result<bool, AllocError> {
        for t in parts {
            if !self.are_kept(&places(t), noted)? {
                return Ok(false);
            }
        }
        Ok(true)
    }

    /// Whether the action doesn't spoil the literal.
    fn is_unspoiled(&self, l: &Literal, noted: &mut Vec<Literal>) -> Result<bool, AllocError> {
        if !self.are_steady(&terms_in(l), noted)? {
            return Ok(false);
        }
        self.are_barred(self.step.firings.as_slice(), &denying(l), noted)
    }

    /// Whether the action spoils no member of the group and no negation of one.
    fn is_group_unspoiled(&self, g: &Group, noted: &mut Vec<Literal>) -> Result<bool, AllocError> {
        for l in g.as_slice() {
            if !self.is_unspoiled(l, noted)? || !self.is_unspoiled(&l.negated(), noted)? {
                return Ok(false);
            }
        }
        Ok(true)
    }

    /// What it rests on that the action doesn't spoil the literal. `None` where it does.
    pub fn keeping(&self, alloc: Global, l: &Literal) -> Result<Option<Vec<Literal>>, AllocError> {
        let mut by = Vec::new(alloc);
        let is_so = self.is_unspoiled(l, &mut by)?;
        Ok(if_so(is_so, by))
    }

    /// What it rests on that the action spoils no member of the group and no negation of one. `None` where it does.
    pub fn keeping_group(
        &self,
        alloc: Global,
        g: &Group,
    ) -> Result<Option<Vec<Literal>>, AllocError> {
        let mut by = Vec::new(alloc);
        let is_so = self.is_group_unspoiled(g, &mut by)?;
        Ok(if_so(is_so, by))
    }

    /// What it rests on that no effect after the k-th undoes the target, or makes an instance of a pattern true that is cleared,
    /// beside this. `None` where one may.
    pub fn lasting(
        &self,
        alloc: Global,
        k: usize,
        target: &Target,
        by: &[Literal],
    ) -> Result<Option<Vec<Literal>>, AllocError> {
        let later = after(self.step.firings.as_slice(), k);
        let mut all = Vec::from_slice(alloc, by)?;
        let is_so = self.are_barred(later, &undoing(writing(target)), &mut all)?;
        Ok(if_so(is_so, all))
    }

    /// Whether no effect but the k-th makes so what the target makes so.
    fn is_sole(
        &self,
        k: usize,
        target: &Target,
        noted: &mut Vec<Literal>,
    ) -> Result<bool, AllocError> {
        let firings = self.step.firings.as_slice();
        let doing = writing(target);
        if !self.are_barred(before(firings, k), &doing, noted)? {
            return Ok(false);
        }
        self.are_barred(after(firings, k), &doing, noted)
    }

    /// What it rests on that no effect but the k-th makes so what the target makes so, beside this. `None` where one may.
    pub fn sole(
        &self,
        alloc: Global,
        k: usize,
        target: &Target,
        by: &[Literal],
    ) -> Result<Option<Vec<Literal>>, AllocError> {
        let mut all = Vec::from_slice(alloc, by)?;
        let is_so = self.is_sole(k, target, &mut all)?;
        Ok(if_so(is_so, all))
    }
}
