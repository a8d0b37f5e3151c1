//! A side that is taken. `docs/RULES.md`, "Instances, choices, assumptions", has the rules.

use crate::citing::put;
use crate::replaying::Replay;
use crate::settling::settle;
use pks_explain_lines::{Lines, equal, missing_as_memory};
use pks_proof_lines::{Reason, Turn};
use pks_query::databases::Db;
use pks_terms::choices::{Choice, Side};
use pks_terms::literal::{Conj, Literal};
use pks_terms::problem::Signature;
use pks_terms::term::{Term, front};
use std::alloc::{AllocError, Global};

/// How many sides the path takes.
fn sides(path: &[Turn]) -> u32 {
    let mut count: u32 = 0;
    for turn in path {
        if let Turn::Took(_, _) = turn {
            count = count.saturating_add(1);
        }
    }
    count
}

/// The literal that isn't derived, where it is the only one.
fn only_open(s: &Signature, d: &Db, literals: &[Literal]) -> Option<Literal> {
    let mut found = None;
    for l in literals {
        if !d.known(s, l) {
            if found.is_some() {
                return None;
            }
            found = Some(*l);
        }
    }
    found
}

/// The literals but for this one.
fn others(alloc: Global, literals: &[Literal], l: &Literal) -> Result<Vec<Literal>, AllocError> {
    let mut rest = Vec::new(alloc);
    for k in literals {
        if k != l {
            rest.push(*k)?;
        }
    }
    Ok(rest)
}

/// The formula is true at the moment.
fn assume_true(
    alloc: Global,
    lines: &mut Lines<'_>,
    m: usize,
    c: &Conj,
    reason: Reason,
) -> Result<(), AllocError> {
    let mut all = Vec::new(alloc);
    for l in front(&c.literals, c.n) {
        put(l, reason, Vec::new(alloc), &mut all)?;
    }
    lines.join_all(alloc, m, all)
}

/// The literal is false at the moment, since the others are true and not all of them are.
fn assume_denied(
    alloc: Global,
    lines: &mut Lines<'_>,
    m: usize,
    literals: &[Literal],
    l: &Literal,
    reason: Reason,
) -> Result<(), AllocError> {
    let rest = others(alloc, literals, l)?;
    let cites = lines.show_all(alloc, m, rest.as_slice())?;
    lines.join(alloc, m, &l.negated(), reason, cites)
}

/// The term is the object at the moment.
fn assume_value(
    alloc: Global,
    lines: &mut Lines<'_>,
    m: usize,
    l: &Literal,
    reason: Reason,
) -> Result<(), AllocError> {
    lines.join(alloc, m, l, reason, Vec::new(alloc))
}

impl Replay<'_, '_> {
    /// The side of the choice is taken: a line for each literal that it gives, and at all moments for those that settling
    /// gives. It asks for the databases before the side, which tell what is open. The error is want of memory, or a line that
    /// isn't found.
    pub fn take(
        &mut self,
        alloc: Global,
        d: &Db,
        c: &Choice,
        side: Side,
    ) -> Result<(), AllocError> {
        let m = self.last_moment()?;
        self.path.push(Turn::Took(*c, side))?;
        self.assume(alloc, m, d, c, side)?;
        self.lines.close(alloc, m)?;
        self.lines.tidy(alloc, m)?;
        self.settle_all(alloc)
    }

    /// All moments are settled.
    fn settle_all(&mut self, alloc: Global) -> Result<(), AllocError> {
        let deeds = self.deeds(alloc)?;
        settle(alloc, self.problem, &mut self.lines, deeds.as_slice())
    }

    /// The side of the choice is so at the moment.
    fn assume(
        &mut self,
        alloc: Global,
        m: usize,
        d: &Db,
        c: &Choice,
        side: Side,
    ) -> Result<(), AllocError> {
        let reason = Reason::Side(sides(self.path.as_slice()));
        match (c, side) {
            (Choice::Branch(c), Side::True) => assume_true(alloc, &mut self.lines, m, c, reason),
            (Choice::Branch(c), Side::False) => self.assume_false(alloc, m, d, c, reason),
            (Choice::Cases(t), Side::Is(e)) => {
                assume_value(alloc, &mut self.lines, m, &equal(t, &Term::Obj(e)), reason)
            }
            _ => Err(missing_as_memory()),
        }
    }

    /// The formula is false at the moment: where one literal alone isn't derived, that is false.
    fn assume_false(
        &mut self,
        alloc: Global,
        m: usize,
        d: &Db,
        c: &Conj,
        reason: Reason,
    ) -> Result<(), AllocError> {
        let literals = front(&c.literals, c.n);
        match only_open(&self.problem.signature, d, literals) {
            Some(l) => assume_denied(alloc, &mut self.lines, m, literals, &l, reason),
            None => Ok(()),
        }
    }
}
