//! Which atoms of groups regions may shut out, and by which of their own.
ghost use Rattle.std.specs.Prelude.{◌<◌};

use crate::numbers::Numbers;
use crate::ranges::put_of_terms;
use crate::standing::{Standing, different_terms, valued_place};
use pks_lcw::{Entry, Lcw};
use pks_terms::literal::{Atom, Literal, Pattern, PredAtom, positive_literal};
use pks_terms::term::{Term, front};
use std::alloc::{AllocError, Global};

/// The patterns of regions and the atoms that they list, beside the groups that have an atom that may be one of them. All go by
/// their numbers. A group is found by its atoms with any term, or some application, at positions.
#[derive(Drop)]
pub(crate) struct BesideGroups {
    atoms: Vec<PredAtom>,
    within: Numbers<Term>,
    groups: Vec<Vec<usize>>,
    outlines: Numbers<Literal>,
    arguments: Numbers<Term>,
    beside: Vec<Vec<usize>>,
}

/// The most atoms of regions beside a group.
const MOST_BESIDE: usize = 64;

/// What stands for any term at a position.
const ANY: Term = Term::Param(0);

/// What stands for some application at a position.
const APPLICATION: Term = Term::Param(1);

/// The applications that occur in the terms.
pub(crate) fn applications_in(alloc: Global, terms: &[Term]) -> Result<Vec<Term>, AllocError> {
    let mut all = Vec::new(alloc);
    put_of_terms(&mut all, terms)?;
    Ok(all)
}

/// The pattern as an atom that has any term at open positions.
fn closed_pattern(pattern: &Pattern) -> PredAtom {
    let mut args = [ANY; 3];
    for i in 0..3_usize {
        if let Some(t) = pattern.args[i] {
            args[i] = t;
        }
    }
    PredAtom {
        pred: pattern.pred,
        n: pattern.n,
        args,
    }
}

/// Of a position of a group's atom what it is found by.
fn shown(t: &Term) -> (Term, Term) {
    match t {
        Term::Obj(_) => (*t, ANY),
        Term::Param(_) | Term::App { .. } => (APPLICATION, ANY),
    }
}

/// Of a position of a region's atom what a group's may have there.
fn wanted(t: &Term) -> (Term, Term) {
    match t {
        Term::Obj(_) => (*t, APPLICATION),
        Term::Param(_) | Term::App { .. } => (ANY, ANY),
    }
}

/// Of a position of a region's atom what a group's may have there that differs from it by an inequation with the term.
fn wanted_beside(t: &Term) -> (Term, Term) {
    match t {
        Term::Obj(_) => (*t, APPLICATION),
        Term::Param(_) | Term::App { .. } => (APPLICATION, APPLICATION),
    }
}

/// Puts the atoms after the others, with the term at this position.
fn put_with(
    to: &mut Vec<PredAtom>,
    atoms: &[PredAtom],
    i: usize,
    t: &Term,
) -> Result<(), AllocError>
    requires { i < 3 }
{
    for a in atoms {
        let mut other = *a;
        other.args[i] = *t;
        to.push(other)?;
    }
    Ok(())
}

/// The atom with one of two terms at each position.
fn choices(
    alloc: Global,
    a: &PredAtom,
    terms: &[(Term, Term); 3],
) -> Result<Vec<PredAtom>, AllocError> {
    let mut all = vec![in alloc; *a]?;
    for i in 0..3_usize {
        if i < a.n as usize {
            let (one, other) = terms[i];
            let mut next = Vec::new(alloc);
            put_with(&mut next, all.as_slice(), i, &one)?;
            if other != one {
                put_with(&mut next, all.as_slice(), i, &other)?;
            }
            all = next;
        }
    }
    Ok(all)
}

impl BesideGroups {
    /// None. It takes no memory.
    pub(crate) fn new(alloc: Global) -> BesideGroups {
        BesideGroups {
            atoms: Vec::new(alloc),
            within: Numbers::new(alloc),
            groups: Vec::new(alloc),
            outlines: Numbers::new(alloc),
            arguments: Numbers::new(alloc),
            beside: Vec::new(alloc),
        }
    }

    /// Puts the patterns and the listed atoms of the regions, which are beside no group yet.
    pub(crate) fn put_regions(&mut self, regions: &Lcw) -> Result<(), AllocError> {
        for region in regions.items() {
            self.put_region(region)?;
        }
        Ok(())
    }

    fn put_region(&mut self, region: &Entry) -> Result<(), AllocError> {
        self.atoms.push(closed_pattern(&region.pattern))?;
        self.atoms.extend_from_slice(region.list.as_slice())?;
        Ok(())
    }

    /// Makes the group of this number to be found by the literal, if it is one of an atom and there are regions.
    pub(crate) fn put_member(
        &mut self,
        alloc: Global,
        l: &Literal,
        k: usize,
    ) -> Result<(), AllocError> {
        let Atom::Pred(a) = &l.atom else {
            return Ok(());
        };
        if self.atoms.len() == 0 {
            return Ok(());
        }
        let args = &a.args;
        let terms = [shown(&args[0]), shown(&args[1]), shown(&args[2])];
        for outline in choices(alloc, a, &terms)?.as_slice() {
            self.outlines.put(alloc, &positive_literal(outline), k)?;
        }
        let applications = applications_in(alloc, front(&a.args, a.n))?;
        self.arguments.put_at_all(alloc, applications.as_slice(), k)
    }

    /// The groups that are found by one of these atoms.
    fn found(&self, alloc: Global, atoms: &[PredAtom]) -> Result<Vec<usize>, AllocError> {
        let mut all = Vec::new(alloc);
        for a in atoms {
            all.extend_from_slice(self.outlines.at(alloc, &positive_literal(a))?.as_slice())?;
        }
        Ok(all)
    }

    /// Puts the region's atom of number `j` beside the group, unless many are.
    fn put_beside(&mut self, k: usize, j: usize) -> Result<(), AllocError> {
        match self.beside.get_mut(k) {
            None => Ok(()),
            Some(beside) => {
                if beside.len() >= MOST_BESIDE {
                    return Ok(());
                }
                beside.push(j)?;
                Ok(())
            }
        }
    }

    /// Puts the region's atom beside the groups that have an atom that may be it.
    fn put_beside_all(&mut self, alloc: Global, a: &PredAtom, j: usize) -> Result<(), AllocError> {
        let applications = applications_in(alloc, front(&a.args, a.n))?;
        let mut groups = Vec::new(alloc);
        if applications.len() > 0 || self.has_applications() {
            let args = &a.args;
            let terms = [wanted(&args[0]), wanted(&args[1]), wanted(&args[2])];
            let atoms = choices(alloc, a, &terms)?;
            groups = self.found(alloc, atoms.as_slice())?;
        }
        for k in groups.as_slice() {
            self.put_beside(*k, j)?;
        }
        if groups.len() > 0 {
            self.within.put_at_all(alloc, applications.as_slice(), j)?;
        }
        self.groups.push(groups)?;
        Ok(())
    }

    /// Whether some atom of a group has an application.
    fn has_applications(&self) -> bool {
        !self.arguments.is_empty()
    }

    /// Puts the atoms of the regions beside so many groups.
    pub(crate) fn match_all(&mut self, alloc: Global, groups: usize) -> Result<(), AllocError> {
        if self.atoms.len() == 0 {
            return Ok(());
        }
        for _ in 0..groups {
            self.beside.push(Vec::new(alloc))?;
        }
        let atoms = Vec::from_slice(alloc, self.atoms.as_slice())?;
        for j in 0..atoms.len() {
            self.put_beside_all(alloc, &atoms[j], j)?;
        }
        Ok(())
    }

    /// The atoms of regions beside the group of this number. The error is want of memory.
    pub(crate) fn beside(&self, alloc: Global, k: usize) -> Result<Vec<PredAtom>, AllocError> {
        let mut all = Vec::new(alloc);
        let Some(numbers) = self.beside.as_slice().get(k) else {
            return Ok(all);
        };
        for j in numbers.as_slice() {
            if let Some(a) = self.atoms.as_slice().get(*j) {
                all.push(*a)?;
            }
        }
        Ok(all)
    }

    /// Puts after the others the groups beside which the region's atom of this number stands, in which the place has a value now.
    fn put_valued(
        &mut self,
        alloc: Global,
        standing: &Standing,
        to: &mut Vec<usize>,
        j: usize,
    ) -> Result<(), AllocError> {
        let Some(found) = self.atoms.as_slice().get(j) else {
            return Ok(());
        };
        let a = *found;
        for t in front(&a.args, a.n) {
            let form = standing.term_form(t, &mut Vec::new(alloc))?;
            if form != *t {
                let applications = applications_in(alloc, &[form])?;
                self.within.put_at_all(alloc, applications.as_slice(), j)?;
            }
        }
        if let Some(groups) = self.groups.as_slice().get(j) {
            to.extend_from_slice(groups.as_slice())?;
        }
        Ok(())
    }

    /// Puts after the others the groups whose atoms may differ from the region's of this number at this position.
    fn put_different(
        &self,
        alloc: Global,
        to: &mut Vec<usize>,
        a: &PredAtom,
        i: usize,
        other: &Term,
    ) -> Result<(), AllocError>
        requires { i < 3 }
    {
        let args = &a.args;
        let mut terms = [wanted(&args[0]), wanted(&args[1]), wanted(&args[2])];
        terms[i] = wanted_beside(other);
        let atoms = choices(alloc, a, &terms)?;
        to.extend_from_slice(self.found(alloc, atoms.as_slice())?.as_slice())?;
        Ok(())
    }

    /// Puts after the others the groups whose atoms may differ from the region's of this number, since the terms are different.
    fn put_all_different(
        &self,
        alloc: Global,
        standing: &Standing,
        to: &mut Vec<usize>,
        j: usize,
        terms: (&Term, &Term),
    ) -> Result<(), AllocError> {
        let Some(a) = self.atoms.as_slice().get(j) else {
            return Ok(());
        };
        for i in 0..3_usize {
            let form = standing.term_form(&a.args[i], &mut Vec::new(alloc))?;
            if a.args[i] == *terms.0 || form == *terms.0 {
                self.put_different(alloc, to, a, i, terms.1)?;
            }
        }
        Ok(())
    }

    /// The groups of which regions may shut atoms out by the literal. The error is want of memory.
    pub(crate) fn touched(
        &mut self,
        alloc: Global,
        standing: &Standing,
        l: &Literal,
    ) -> Result<Vec<usize>, AllocError> {
        let mut all = Vec::new(alloc);
        if let Some(place) = valued_place(l) {
            for j in self.within.at(alloc, &place.as_term())?.as_slice() {
                self.put_valued(alloc, standing, &mut all, *j)?;
            }
        }
        if let Some((t, u)) = different_terms(l) {
            self.put_apart(alloc, standing, &mut all, (&t, &u))?;
            self.put_apart(alloc, standing, &mut all, (&u, &t))?;
        }
        Ok(all)
    }

    /// Puts after the others the groups of which regions may shut atoms out, since the one term differs from the other.
    fn put_apart(
        &self,
        alloc: Global,
        standing: &Standing,
        to: &mut Vec<usize>,
        terms: (&Term, &Term),
    ) -> Result<(), AllocError> {
        for j in self.within.at(alloc, terms.0)?.as_slice() {
            self.put_all_different(alloc, standing, to, *j, terms)?;
        }
        for k in self.arguments.at(alloc, terms.0)?.as_slice() {
            if let Some(beside) = self.beside.as_slice().get(*k) {
                if beside.len() > 0 {
                    to.push(*k)?;
                }
            }
        }
        Ok(())
    }
}
