//! What an effect of the action writes, in normal form.

use crate::barring::Tests;
use crate::firing::Firing;
use crate::forms::TargetForm;
use crate::parts::{target_by, terms_of};
use crate::targets::same_target;
use pks_explain_lines::missing_as_memory;
use pks_terms::literal::Literal;
use pks_terms::schema::Target;
use pks_terms::term::Term;
use std::alloc::{AllocError, Global};

/// What an effect writes.
#[derive(Drop)]
pub struct Made {
    /// The target in normal form.
    pub target: Target,
    /// What holds at the moment before, and on which it rests.
    pub by: Vec<Literal>,
}

/// Whether the effect has conditions only where it may: one that clears a pattern must have none.
fn is_fit(firing: &Firing, written: &Target) -> bool {
    match written {
        Target::Clear(_) => firing.effect.cond.n == 0,
        Target::Set(_) | Target::Unset(_) | Target::Assign { .. } => true,
    }
}

impl Tests<'_, '_> {
    /// The normal form of the term at the moment before, if there is one. The equations are noted.
    fn normal(
        &self,
        alloc: Global,
        t: &Option<Term>,
        noted: &mut Vec<Literal>,
    ) -> Result<Option<Term>, AllocError> {
        let Some(t) = t else {
            return Ok(None);
        };
        let form = self.lines.normal_form(alloc, self.step.before, t)?;
        noted.extend_from_slice(form.by.as_slice())?;
        Ok(Some(form.term))
    }

    /// The target with its terms in normal form, of a place its arguments.
    pub(crate) fn normal_target(
        &self,
        alloc: Global,
        target: &Target,
        noted: &mut Vec<Literal>,
    ) -> Result<Target, AllocError> {
        let terms = terms_of(target);
        let first = self.normal(alloc, &terms[0], noted)?;
        let second = self.normal(alloc, &terms[1], noted)?;
        let third = self.normal(alloc, &terms[2], noted)?;
        Ok(target_by(target, &[first, second, third]))
    }

    /// The target with its terms in normal form, where they are steady then.
    pub(crate) fn steady_target(
        &self,
        alloc: Global,
        target: &Target,
        noted: &mut Vec<Literal>,
    ) -> Result<Option<Target>, AllocError> {
        let normal = self.normal_target(alloc, target, noted)?;
        if self.are_steady(&terms_of(&normal), noted)? {
            Ok(Some(normal))
        } else {
            Ok(None)
        }
    }

    /// Whether the effect has this target, and its conditions hold. One that clears a pattern must have none.
    fn fires(&self, firing: &Firing, written: &Target) -> bool {
        is_fit(firing, written)
            && same_target(&firing.effect.target, written)
            && self.has_conditions(firing)
    }

    /// What it rests on that the k-th effect, whose conditions these are and hold, writes this, beside what is noted.
    fn made_by(
        &self,
        alloc: Global,
        k: usize,
        conditions: &[Literal],
        target: &Target,
        noted: &[Literal],
    ) -> Result<Option<Vec<Literal>>, AllocError> {
        let mut all = Vec::from_slice(alloc, noted)?;
        all.extend_from_slice(conditions)?;
        self.lasting(alloc, k, target, all.as_slice())
    }

    /// What it rests on that the k-th effect, whose conditions these are and hold, writes the form.
    pub fn made_in(
        &self,
        alloc: Global,
        k: usize,
        conditions: &[Literal],
        form: &TargetForm,
    ) -> Result<Option<Vec<Literal>>, AllocError> {
        let found = self.lasting(alloc, k, &form.target, form.by.as_slice())?;
        let Some(mut by) = found else {
            return Ok(None);
        };
        by.extend_from_slice(conditions)?;
        Ok(Some(by))
    }

    /// What it rests on that some effect writes the target in this form, beside what is noted: the effect has this target, its
    /// conditions hold, and no later one undoes it.
    fn making(
        &self,
        alloc: Global,
        written: &Target,
        form: &Target,
        noted: &[Literal],
    ) -> Result<Option<Vec<Literal>>, AllocError> {
        for (k, firing) in self.step.firings.as_slice().iter().enumerate() {
            if self.fires(firing, written) {
                let made = self.made_by(alloc, k, firing.conditions(), form, noted)?;
                if made.is_some() {
                    return Ok(made);
                }
            }
        }
        Ok(None)
    }

    /// The target in normal form, where its terms are steady then. It is the target of an effect.
    pub fn maker_of(&self, alloc: Global, written: &Target) -> Result<Option<Made>, AllocError> {
        let mut noted = Vec::new(alloc);
        let Some(target) = self.steady_target(alloc, written, &mut noted)? else {
            return Ok(None);
        };
        match self.making(alloc, written, &target, noted.as_slice())? {
            Some(by) => Ok(Some(Made { target, by })),
            None => Err(missing_as_memory()),
        }
    }
}
