//! The forms of what an effect writes, with the literals on which they rest.

use crate::barring::Tests;
use crate::parts::{target_with, terms_of, whole_terms};
use crate::targets::literal_made;
use pks_explain_lines::NormalForm;
use pks_terms::literal::Literal;
use pks_terms::schema::Target;
use pks_terms::term::{Term, UNUSED};
use std::alloc::{AllocError, Global};

/// A form of a target whose terms are steady.
#[derive(Drop)]
pub struct TargetForm {
    /// What is so after it is written.
    pub literal: Literal,
    /// The target in this form.
    pub target: Target,
    /// What holds at the moment before, and makes it a form with steady terms.
    pub by: Vec<Literal>,
}

/// One form of each term.
#[derive(Clone, Copy)]
struct FormTriple<'a> {
    first: &'a NormalForm,
    second: &'a NormalForm,
    third: &'a NormalForm,
}

/// The form of a term that isn't there.
fn no_form(alloc: Global) -> NormalForm {
    NormalForm {
        term: UNUSED,
        by: Vec::new(alloc),
    }
}

/// The forms of a term that isn't there.
fn none_used(alloc: Global) -> Result<Vec<NormalForm>, AllocError> {
    let mut forms = Vec::new(alloc);
    forms.push(no_form(alloc))?;
    Ok(forms)
}

/// What the forms rest on.
fn supports_of(alloc: Global, choice: &FormTriple<'_>) -> Result<Vec<Literal>, AllocError> {
    let mut by = Vec::from_slice(alloc, choice.first.by.as_slice())?;
    by.extend_from_slice(choice.second.by.as_slice())?;
    by.extend_from_slice(choice.third.by.as_slice())?;
    Ok(by)
}

impl Tests<'_, '_> {
    /// The forms of the term at the moment before, if there is one.
    fn forms_of(&self, alloc: Global, t: &Option<Term>) -> Result<Vec<NormalForm>, AllocError> {
        match t {
            Some(t) => self.lines.forms(alloc, self.step.before, t),
            None => none_used(alloc),
        }
    }

    /// What it rests on that the target, of these forms, has steady terms. `None` where it hasn't.
    fn steady_by(
        &self,
        alloc: Global,
        target: &Target,
        choice: &FormTriple<'_>,
    ) -> Result<Option<Vec<Literal>>, AllocError> {
        let mut by = supports_of(alloc, choice)?;
        if self.are_steady(&terms_of(target), &mut by)? {
            Ok(Some(by))
        } else {
            Ok(None)
        }
    }

    /// Puts the target in these forms, where its terms are steady.
    fn put_steady(
        &self,
        alloc: Global,
        target: &Target,
        choice: &FormTriple<'_>,
        to: &mut Vec<TargetForm>,
    ) -> Result<(), AllocError> {
        let terms = [choice.first.term, choice.second.term, choice.third.term];
        let target = target_with(target, &terms);
        let Some(literal) = literal_made(&target) else {
            return Ok(());
        };
        let Some(by) = self.steady_by(alloc, &target, choice)? else {
            return Ok(());
        };
        to.push(TargetForm {
            literal,
            target,
            by,
        })?;
        Ok(())
    }

    /// Puts the target with each form of its third term.
    fn put_thirds(
        &self,
        alloc: Global,
        target: &Target,
        chosen: (&NormalForm, &NormalForm),
        thirds: &[NormalForm],
        to: &mut Vec<TargetForm>,
    ) -> Result<(), AllocError> {
        for third in thirds {
            let choice = FormTriple {
                first: chosen.0,
                second: chosen.1,
                third,
            };
            self.put_steady(alloc, target, &choice, to)?;
        }
        Ok(())
    }

    /// Puts the target with each form of its second and third terms.
    fn put_seconds(
        &self,
        alloc: Global,
        target: &Target,
        first: &NormalForm,
        seconds: &[NormalForm],
        thirds: &[NormalForm],
        to: &mut Vec<TargetForm>,
    ) -> Result<(), AllocError> {
        for second in seconds {
            self.put_thirds(alloc, target, (first, second), thirds, to)?;
        }
        Ok(())
    }

    /// Puts the target with each of these forms of its terms.
    fn put_all(
        &self,
        alloc: Global,
        target: &Target,
        firsts: &[NormalForm],
        seconds: &[NormalForm],
        thirds: &[NormalForm],
        to: &mut Vec<TargetForm>,
    ) -> Result<(), AllocError> {
        for first in firsts {
            self.put_seconds(alloc, target, first, seconds, thirds, to)?;
        }
        Ok(())
    }

    /// The forms of the target at the moment before whose terms are steady.
    pub fn target_forms(
        &self,
        alloc: Global,
        target: &Target,
    ) -> Result<Vec<TargetForm>, AllocError> {
        let terms = whole_terms(target);
        let firsts = self.forms_of(alloc, &terms[0])?;
        let seconds = self.forms_of(alloc, &terms[1])?;
        let thirds = self.forms_of(alloc, &terms[2])?;
        let mut forms = Vec::new(alloc);
        let (first, second, third) = (firsts.as_slice(), seconds.as_slice(), thirds.as_slice());
        self.put_all(alloc, target, first, second, third, &mut forms)?;
        Ok(forms)
    }
}
