//! The groups that known literals touch.

use crate::numbers::Numbers;
use crate::shutting::{BesideGroups, applications_in};
use crate::standing::{Standing, valued_place};
use pks_lcw::Lcw;
use pks_query_lookup::literals::affirmed;
use pks_terms::group::Group;
use pks_terms::literal::{Literal, PredAtom};
use pks_terms::term::Term;
use std::alloc::{AllocError, Global};

/// Where among groups atoms and applications stand, what regions may shut out of them, and which of them wait to be looked at.
/// Groups go by their numbers.
#[derive(Drop)]
pub(crate) struct Touched {
    atoms: Numbers<Literal>,
    applications: Numbers<Term>,
    shutting: BesideGroups,
    is_waiting: Vec<bool>,
    waiting: Vec<usize>,
}

/// The literals of the group of this number.
fn members(alloc: Global, groups: &[Group], k: usize) -> Result<Vec<Literal>, AllocError> {
    match groups.get(k) {
        None => Ok(Vec::new(alloc)),
        Some(group) => {
            let members = Vec::from_slice(alloc, group.as_slice())?;
            Ok(members)
        }
    }
}

impl Touched {
    /// None. It takes no memory.
    pub(crate) fn new(alloc: Global) -> Touched {
        Touched {
            atoms: Numbers::new(alloc),
            applications: Numbers::new(alloc),
            shutting: BesideGroups::new(alloc),
            is_waiting: Vec::new(alloc),
            waiting: Vec::new(alloc),
        }
    }

    /// Makes the group of this number to be found by the literal's atom and applications.
    fn put_member(&mut self, alloc: Global, l: &Literal, k: usize) -> Result<(), AllocError> {
        self.atoms.put(alloc, &affirmed(l), k)?;
        let applications = applications_in(alloc, l.atom.arguments().terms())?;
        self.applications
            .put_at_all(alloc, applications.as_slice(), k)?;
        Ok(())
    }

    /// Makes the group of this number to be found by what its literals are with places replaced by their values.
    fn put_forms(
        &mut self,
        alloc: Global,
        standing: &Standing,
        members: &[Literal],
        k: usize,
    ) -> Result<(), AllocError> {
        for l in members {
            let form = standing.form(l, &mut Vec::new(alloc))?;
            if form != *l {
                self.put_member(alloc, &form, k)?;
            }
        }
        Ok(())
    }

    /// Makes the group of this number to be found by its literals.
    fn put_group(
        &mut self,
        alloc: Global,
        standing: &Standing,
        members: &[Literal],
        k: usize,
    ) -> Result<(), AllocError> {
        for l in members {
            self.put_member(alloc, l, k)?;
            self.shutting.put_member(alloc, l, k)?;
        }
        self.put_forms(alloc, standing, members, k)?;
        self.is_waiting.push(false)?;
        Ok(())
    }

    /// Makes the groups to be found, none of which waits then. The error is want of memory.
    pub(crate) fn find(
        &mut self,
        alloc: Global,
        standing: &Standing,
        groups: &[Group],
        regions: &Lcw,
    ) -> Result<(), AllocError> {
        if groups.len() == 0 {
            return Ok(());
        }
        self.shutting.put_regions(regions)?;
        for k in 0..groups.len() {
            self.put_group(alloc, standing, groups[k].as_slice(), k)?;
        }
        self.shutting.match_all(alloc, groups.len())
    }

    /// Lets the group of this number wait.
    fn wait(&mut self, k: usize) -> Result<(), AllocError> {
        match self.is_waiting.get_mut(k) {
            None => return Ok(()),
            Some(waits) => {
                if *waits {
                    return Ok(());
                }
                *waits = true;
            }
        }
        self.waiting.push(k)?;
        Ok(())
    }

    /// The number of a group that waits no longer.
    pub(crate) fn next(&mut self) -> Option<usize> {
        let k = self.waiting.pop()?;
        if let Some(waits) = self.is_waiting.get_mut(k) {
            *waits = false;
        }
        Some(k)
    }

    /// The patterns and listed atoms of regions that may shut atoms of the group of this number out. The error is want of memory.
    pub(crate) fn beside(&self, alloc: Global, k: usize) -> Result<Vec<PredAtom>, AllocError> {
        self.shutting.beside(alloc, k)
    }

    /// Lets the groups wait in which the place stands that has a value now.
    fn touch_groups(
        &mut self,
        alloc: Global,
        standing: &Standing,
        groups: &[Group],
        place: &Term,
    ) -> Result<(), AllocError> {
        for k in self.applications.at(alloc, place)?.as_slice() {
            let members = members(alloc, groups, *k)?;
            self.put_forms(alloc, standing, members.as_slice(), *k)?;
            self.wait(*k)?;
        }
        Ok(())
    }

    /// Lets the groups wait that the literal touches: those that have its atom, those in which the place stands of which it gives
    /// the value, and those of which regions may shut atoms out by it. The error is want of memory.
    pub(crate) fn touch(
        &mut self,
        alloc: Global,
        standing: &Standing,
        groups: &[Group],
        l: &Literal,
    ) -> Result<(), AllocError> {
        for k in self.atoms.at(alloc, &affirmed(l))?.as_slice() {
            self.wait(*k)?;
        }
        if let Some(place) = valued_place(l) {
            self.touch_groups(alloc, standing, groups, &place.as_term())?;
        }
        for k in self.shutting.touched(alloc, standing, l)?.as_slice() {
            self.wait(*k)?;
        }
        Ok(())
    }
}
