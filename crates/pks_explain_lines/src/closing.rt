//! The closing of a moment by groups and ranges. `docs/RULES.md` has the rules.

use crate::table::LineTable;
use pks_explain_moment::{MomentLines, OpenItem, equal, missing_as_memory, push, unequal};
use pks_proof_lines::{Fact, Reason};
use pks_terms::group::Group;
use pks_terms::ids::ObjId;
use pks_terms::literal::Literal;
use pks_terms::problem::Signature;
use pks_terms::term::Term;
use std::alloc::{AllocError, Global};

/// How many are not set.
fn count_unset(marks: &[bool]) -> usize {
    marks.iter().filter(|mark| !**mark).count()
}

/// The negations of the literals but for the one at this place.
fn other_negations(
    alloc: Global,
    literals: &[Literal],
    place: usize,
) -> Result<Vec<Literal>, AllocError> {
    let mut others = Vec::new(alloc);
    for (k, l) in literals.iter().enumerate() {
        if k != place {
            push(&mut others, l.negated())?;
        }
    }
    Ok(others)
}

/// The differences of the term from the objects but for this one.
fn other_differences(
    alloc: Global,
    t: &Term,
    objects: &[ObjId],
    d: ObjId,
) -> Result<Vec<Literal>, AllocError> {
    let mut others = Vec::new(alloc);
    for e in objects {
        if *e != d {
            push(&mut others, unequal(t, &Term::Obj(*e)))?;
        }
    }
    Ok(others)
}

/// The one of the objects from which the term isn't known to be different, if there is just one.
fn last_left(at: &MomentLines, s: &Signature, t: &Term, objects: &[ObjId]) -> Option<ObjId> {
    let mut left = None;
    for d in objects {
        if !at.are_different(s, t, &Term::Obj(*d)) {
            if left.is_some() {
                return None;
            }
            left = Some(*d);
        }
    }
    left
}

/// Which of the literals are denied.
fn which_are_denied(
    alloc: Global,
    at: &MomentLines,
    s: &Signature,
    literals: &[Literal],
) -> Result<Vec<bool>, AllocError> {
    let mut denied = Vec::new(alloc);
    for l in literals {
        push(&mut denied, at.holds(s, &l.negated()))?;
    }
    Ok(denied)
}

/// The first of the literals that holds, and its place.
fn first_holding(
    at: &MomentLines,
    s: &Signature,
    literals: &[Literal],
) -> Option<(usize, Literal)> {
    for (k, l) in literals.iter().enumerate() {
        if at.holds(s, l) {
            return Some((k, *l));
        }
    }
    None
}

/// The group that a fact states.
fn group_in(fact: &Fact) -> Result<Group, AllocError> {
    match fact {
        Fact::Kx(group) => group.copy(),
        Fact::Lit(_) | Fact::Lcw(_) => Err(missing_as_memory()),
    }
}

/// The members of a group, and its line.
#[derive(Clone, Copy)]
struct Members<'g> {
    literals: &'g [Literal],
    line: u32,
}

impl LineTable<'_> {
    /// The term has this value, since it differs from all others of its type.
    fn join_last(
        &mut self,
        alloc: Global,
        at: &mut MomentLines,
        t: &Term,
        d: ObjId,
    ) -> Result<(), AllocError> {
        let need = other_differences(alloc, t, self.range_of(t), d)?;
        let l = equal(t, &Term::Obj(d));
        self.join_by(alloc, at, &l, Reason::Range, &[], need.as_slice())
    }

    fn close_range(
        &mut self,
        alloc: Global,
        at: &mut MomentLines,
        t: &Term,
    ) -> Result<(), AllocError> {
        if at.has_value(t) {
            return Ok(());
        }
        match last_left(at, self.signature, t, self.range_of(t)) {
            Some(d) => self.join_last(alloc, at, t, d),
            None => Ok(()),
        }
    }

    /// The group that a line states.
    fn group_of(&self, line: u32) -> Result<Group, AllocError> {
        match self.line(line) {
            Some(line) => group_in(&line.fact),
            None => Err(missing_as_memory()),
        }
    }

    /// Adds the member, of which all others are denied.
    fn join_only(
        &mut self,
        alloc: Global,
        at: &mut MomentLines,
        l: &Literal,
        of: Members<'_>,
        place: usize,
    ) -> Result<(), AllocError> {
        let need = other_negations(alloc, of.literals, place)?;
        self.join_by(alloc, at, l, Reason::Only, &[of.line], need.as_slice())
    }

    /// Adds each member of which all others are denied.
    fn close_only(
        &mut self,
        alloc: Global,
        at: &mut MomentLines,
        of: Members<'_>,
        denied: &[bool],
    ) -> Result<(), AllocError> {
        let open = count_unset(denied);
        if open > 1 {
            return Ok(());
        }
        for (k, l) in of.literals.iter().enumerate() {
            let own = matches!(denied.get(k), Some(false));
            if open == usize::from(own) {
                self.join_only(alloc, at, l, of, k)?;
            }
        }
        Ok(())
    }

    /// Denies the others of a member that holds.
    fn close_others(
        &mut self,
        alloc: Global,
        at: &mut MomentLines,
        of: Members<'_>,
        place: usize,
        one: Literal,
    ) -> Result<(), AllocError> {
        for (k, l) in of.literals.iter().enumerate() {
            if k != place {
                self.join_by(alloc, at, &l.negated(), Reason::Others, &[of.line], &[one])?;
            }
        }
        Ok(())
    }

    fn close_denied(
        &mut self,
        alloc: Global,
        at: &mut MomentLines,
        of: Members<'_>,
    ) -> Result<(), AllocError> {
        let denied = which_are_denied(alloc, at, self.signature, of.literals)?;
        self.close_only(alloc, at, of, denied.as_slice())
    }

    fn close_members(
        &mut self,
        alloc: Global,
        at: &mut MomentLines,
        of: Members<'_>,
    ) -> Result<(), AllocError> {
        let holding = first_holding(at, self.signature, of.literals);
        self.close_denied(alloc, at, of)?;
        match holding {
            Some((place, one)) => self.close_others(alloc, at, of, place, one),
            None => Ok(()),
        }
    }

    fn close_group(
        &mut self,
        alloc: Global,
        at: &mut MomentLines,
        line: u32,
    ) -> Result<(), AllocError> {
        let group = self.group_of(line)?;
        let literals = group.as_slice();
        self.close_members(alloc, at, Members { literals, line })
    }

    /// Adds all that groups and ranges tell at the moment.
    pub(crate) fn close(&mut self, alloc: Global, at: &mut MomentLines) -> Result<(), AllocError> {
        for _ in 0..u64::MAX {
            match at.next_open(alloc)? {
                OpenItem::Term(t) => self.close_range(alloc, at, &t)?,
                OpenItem::Group(line) => self.close_group(alloc, at, line)?,
                OpenItem::Nothing => return Ok(()),
            }
        }
        Err(missing_as_memory())
    }
}
