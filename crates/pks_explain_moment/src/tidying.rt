//! Groups and regions on their way to their normal forms. `docs/RULES.md` has the rule.

use crate::holding::MOST_ARGUMENTS;
use crate::moment::MomentLines;
use crate::normalizing::{LiteralRewrite, TermRewrite};
use crate::placing::{arguments_of, with_arguments};
use crate::pushing::{push, with_item};
use pks_lcw::{AtomSet, Entry};
use pks_terms::group::Group;
use pks_terms::literal::{Literal, Pattern, PredAtom};
use pks_terms::term::{Term, front};
use std::alloc::{AllocError, Global};

/// A group after one step, and the line of the equation of the step.
#[derive(Drop)]
pub struct GroupStep {
    /// What the group has become.
    pub group: Group,
    /// The line of the equation, known at the moment.
    pub equation: u32,
}

/// A region after one step, and the line of the equation of the step.
#[derive(Drop)]
pub struct RegionStep {
    /// What the region has become.
    pub region: Entry,
    /// The line of the equation, known at the moment.
    pub equation: u32,
}

/// A pattern after one step.
#[derive(Clone, Copy)]
struct PatternStep {
    pattern: Pattern,
    equation: u32,
}

/// An atom of a list after one step.
#[derive(Clone, Copy)]
struct AtomStep {
    place: usize,
    atom: PredAtom,
    equation: u32,
}

/// The group with another literal in this place, in order again.
fn with_member(
    alloc: Global,
    group: &Group,
    place: usize,
    l: &Literal,
) -> Result<Group, AllocError> {
    let mut literals = with_item(alloc, group.as_slice(), place, *l)?;
    literals.sort_unstable();
    Group::of(alloc, literals.as_slice())
}

/// The list with another atom in this place; equal atoms merge.
fn with_listed(
    alloc: Global,
    list: &AtomSet,
    place: usize,
    a: &PredAtom,
) -> Result<AtomSet, AllocError> {
    let atoms = with_item(alloc, list.as_slice(), place, *a)?;
    AtomSet::of(alloc, atoms)
}

/// The fixed term at this position of the pattern.
fn fixed_term(p: &Pattern, position: usize) -> Option<Term> {
    *front(&p.args, p.n).get(position)?
}

/// The pattern with this term at a position.
fn with_slot(p: &Pattern, position: usize, t: &Term) -> Pattern {
    Pattern {
        pred: p.pred,
        n: p.n,
        args: [
            if position == 0 { Some(*t) } else { p.args[0] },
            if position == 1 { Some(*t) } else { p.args[1] },
            if position == 2 { Some(*t) } else { p.args[2] },
        ],
    }
}

fn put_group(group: &Group, line: u32, to: &mut Vec<(Group, u32)>) -> Result<(), AllocError> {
    let group = group.copy()?;
    push(to, (group, line))
}

fn put_region(region: &Entry, line: u32, to: &mut Vec<(Entry, u32)>) -> Result<(), AllocError> {
    let region = region.share()?;
    push(to, (region, line))
}

impl MomentLines {
    /// The first of the literals that isn't in normal form, one step on: its place and the step.
    fn open_member(&self, literals: &[Literal]) -> Option<(usize, LiteralRewrite)> {
        for (place, l) in literals.iter().enumerate() {
            if let Some(link) = self.first_link(l) {
                return Some((place, link));
            }
        }
        None
    }

    /// The group with its first member that isn't in normal form one step on. The error is want of memory.
    pub fn group_step(
        &self,
        alloc: Global,
        group: &Group,
    ) -> Result<Option<GroupStep>, AllocError> {
        let Some((place, link)) = self.open_member(group.as_slice()) else {
            return Ok(None);
        };
        let group = with_member(alloc, group, place, &link.literal)?;
        let equation = link.equation;
        Ok(Some(GroupStep { group, equation }))
    }

    /// The first step of the fixed term at this position of the pattern.
    fn slot_step(&self, p: &Pattern, position: usize) -> Option<TermRewrite> {
        self.first_step(&fixed_term(p, position)?)
    }

    /// The pattern with its first fixed term that isn't in normal form one step on.
    fn pattern_step(&self, p: &Pattern) -> Option<PatternStep> {
        for position in 0..MOST_ARGUMENTS {
            if let Some(step) = self.slot_step(p, position) {
                return Some(PatternStep {
                    pattern: with_slot(p, position, &step.term),
                    equation: step.by.line,
                });
            }
        }
        None
    }

    /// The atom with its first argument that isn't in normal form one step on, at its place in a list.
    fn atom_step(&self, a: &PredAtom, place: usize) -> Option<AtomStep> {
        let x = self.first_move(&arguments_of(a))?;
        Some(AtomStep {
            place,
            atom: with_arguments(a, &x.items),
            equation: x.equation,
        })
    }

    /// The first of the atoms that isn't in normal form, one step on.
    fn open_atom(&self, atoms: &[PredAtom]) -> Option<AtomStep> {
        for (place, a) in atoms.iter().enumerate() {
            if let Some(step) = self.atom_step(a, place) {
                return Some(step);
            }
        }
        None
    }

    fn list_step(&self, alloc: Global, region: &Entry) -> Result<Option<RegionStep>, AllocError> {
        let Some(step) = self.open_atom(region.list.as_slice()) else {
            return Ok(None);
        };
        let list = with_listed(alloc, &region.list, step.place, &step.atom)?;
        let pattern = region.pattern;
        Ok(Some(RegionStep {
            region: Entry { pattern, list },
            equation: step.equation,
        }))
    }

    /// The region with its first term that isn't in normal form one step on, those of the pattern first. The error is want of
    /// memory.
    pub fn region_step(
        &self,
        alloc: Global,
        region: &Entry,
    ) -> Result<Option<RegionStep>, AllocError> {
        let Some(step) = self.pattern_step(&region.pattern) else {
            return self.list_step(alloc, region);
        };
        let list = region.list.share()?;
        let pattern = step.pattern;
        Ok(Some(RegionStep {
            region: Entry { pattern, list },
            equation: step.equation,
        }))
    }

    /// The groups, in order, with their lines. The error is want of memory.
    pub fn groups(&self, alloc: Global) -> Result<Vec<(Group, u32)>, AllocError> {
        let mut groups = Vec::new(alloc);
        for (group, line) in self.beside.groups.iter() {
            put_group(group, *line, &mut groups)?;
        }
        Ok(groups)
    }

    /// The closed regions, in order, with their lines. The error is want of memory.
    pub fn regions(&self, alloc: Global) -> Result<Vec<(Entry, u32)>, AllocError> {
        let mut regions = Vec::new(alloc);
        for (region, line) in self.beside.regions.iter() {
            put_region(region, *line, &mut regions)?;
        }
        Ok(regions)
    }
}
