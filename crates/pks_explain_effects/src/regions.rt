//! Closed regions at an action: what comes into one that stays.

use crate::barring::{Tests, note};
use crate::doing::{EffectChange, undoing, writing};
use crate::firing::Firing;
use crate::parts::{arguments, fixed_terms};
use pks_lcw::Entry;
use pks_terms::literal::{Literal, PredAtom};
use pks_terms::schema::Target;
use std::alloc::{AllocError, Global};

/// A region that stays.
#[derive(Drop)]
pub struct Staying {
    /// The atoms that come into it, in normal form.
    pub atoms: Vec<PredAtom>,
    /// What holds at the moment before, and on which it rests.
    pub by: Vec<Literal>,
}

impl Tests<'_, '_> {
    /// Whether the terms of the atoms are steady.
    fn are_atoms_steady(
        &self,
        atoms: &[PredAtom],
        noted: &mut Vec<Literal>,
    ) -> Result<bool, AllocError> {
        for a in atoms {
            if !self.are_steady(&arguments(a), noted)? {
                return Ok(false);
            }
        }
        Ok(true)
    }

    /// Whether the terms of the region are steady, those of its listed atoms among them.
    fn is_region_steady(&self, e: &Entry, noted: &mut Vec<Literal>) -> Result<bool, AllocError> {
        if !self.are_steady(&fixed_terms(&e.pattern), noted)? {
            return Ok(false);
        }
        self.are_atoms_steady(e.list.as_slice(), noted)
    }

    /// Puts the atom that the effect makes true, in normal form, and answers whether its terms are steady then.
    fn put_made(
        &self,
        alloc: Global,
        firing: &Firing,
        noted: &mut Vec<Literal>,
        to: &mut Vec<PredAtom>,
    ) -> Result<bool, AllocError> {
        let Some(Target::Set(a)) = self.steady_target(alloc, &firing.effect.target, noted)? else {
            return Ok(false);
        };
        to.push(a)?;
        Ok(true)
    }

    /// Puts the atoms by which effects may do what widens a pattern, and answers whether the terms of each are steady.
    fn put_joining(
        &self,
        alloc: Global,
        widening: &EffectChange,
        noted: &mut Vec<Literal>,
        to: &mut Vec<PredAtom>,
    ) -> Result<bool, AllocError> {
        for firing in self.step.firings.as_slice() {
            let bar = self.bar(firing, widening, noted.as_slice());
            if !note(bar, noted)? && !self.put_made(alloc, firing, noted, to)? {
                return Ok(false);
            }
        }
        Ok(true)
    }

    /// Puts the atoms that come into the region, and answers whether it stays.
    fn put_staying(
        &self,
        alloc: Global,
        e: &Entry,
        noted: &mut Vec<Literal>,
        to: &mut Vec<PredAtom>,
    ) -> Result<bool, AllocError> {
        let Some(widening) = undoing(writing(&Target::Clear(e.pattern))) else {
            return Ok(false);
        };
        if !self.is_region_steady(e, noted)? {
            return Ok(false);
        }
        self.put_joining(alloc, &widening, noted, to)
    }

    /// What comes into the region, which stays. `None` where it doesn't.
    pub fn staying(&self, alloc: Global, e: &Entry) -> Result<Option<Staying>, AllocError> {
        let mut atoms = Vec::new(alloc);
        let mut by = Vec::new(alloc);
        if self.put_staying(alloc, e, &mut by, &mut atoms)? {
            Ok(Some(Staying { atoms, by }))
        } else {
            Ok(None)
        }
    }
}
